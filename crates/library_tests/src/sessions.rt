//! A session at the last version that a number tells, which no log comes to. All else of sessions is asked in conversations.
ghost use Rattle.std.specs.Prelude.{◌≤◌};

use session_outbox::Sessions;
use std::test::Fail;

// Whether a client that joins at the last version pulls nothing there.
fn pulls_at_the_last_version(sessions: &mut Sessions) -> Result<bool, Fail>
    requires { sessions.old.next_number ≤ 1 }
{
    let last = u32::MAX;
    let joined = sessions.join(last, false)? == 1;
    Ok(joined && sessions.pull(1, last, 64, last)? == (last, last))
}

#[test]
fn a_pull_at_the_last_version(rt: HostRuntime) -> Result<(), Fail> {
    assert!(rt; pulls_at_the_last_version(&mut Sessions::new(rt.alloc()))?);
    Ok(())
}
