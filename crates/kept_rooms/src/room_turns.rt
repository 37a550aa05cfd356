//! The turns of keeping a room: who takes them, and who waits for them.
ghost use Rattle.std.specs.Prelude.{◌≡◌, ◌≤◌, ◌<◌, length, true, IfOk};
ghost use Rattle.ws_server.specs.Halls.{rooms_of, IsHallPassOf};
ghost use Rattle.kept_rooms.specs.Covered.{Covers};
ghost use Rattle.kept_rooms.specs.SeenLogs.{seen_log};

use crate::turn::{TurnFault, glance, look_at};
use keeper::{Disk, Kept, KeptFile};
use line_engine::ServeFault;
use shared_room::Look;
use std::alloc::Global;
use std::sync::{Condvar, CondvarTimeouts, Mutex, MutexGuard, Wait};
use std::time::{Clock, Duration, Instant};
use ws_server::{Hall, HallPass};

// How long an answer waits for one turn at most, in seconds.
const LONGEST: u64 = 30;

// What is known of a room.
#[derive(Drop)]
struct Reached {
    // How far it is kept, and in how many bytes of its file.
    kept: Kept,
    len: u64,
    // Which turn was begun last, when, and whether it is being taken.
    number: u64,
    begun: Option<Instant>,
    is_taken: bool,
    // Whether it kept nothing. Then the room's keeper alone takes the next one.
    has_failed: bool,
    // Whether the file isn't the room's any more. Then no turn keeps anything.
    is_astray: bool,
    // Whether the last turn is to come, or was taken.
    is_ending: bool,
}

/// The turns of a room, and its file, if it has one. One takes a turn at a time: whoever waits, for all who wait meanwhile, and now and
/// then the room's keeper, who alone tries again where a turn has failed.
#[derive(Drop)]
pub struct RoomTurns<D: Disk> {
    file: Mutex<Option<KeptFile<D>>>,
    reached: Mutex<Reached>,
    // Those who sleep until a turn with an even number has ended, or one with an odd number.
    even: Condvar,
    odd: Condvar,
    keeper: Condvar,
}

impl<D: Disk> RoomTurns<D> {
    /// Of the room at this place, where nobody waits. Constant time, and no memory.
    pub fn new(place: usize, file: Option<KeptFile<D>>) -> RoomTurns<D> {
        let kept = kept_in(&file, place);
        let len = len_in(&file);
        RoomTurns {
            file: Mutex::new(file),
            reached: Mutex::new(Reached {
                kept,
                len,
                number: 0,
                begun: None,
                is_taken: false,
                has_failed: false,
                is_astray: false,
                is_ending: false,
            }),
            even: Condvar::new(),
            odd: Condvar::new(),
            keeper: Condvar::new(),
        }
    }

    /// How many operations were kept by the last turn, and in how many bytes of its file. Constant time.
    pub fn kept<R: Wait>(&self, rt: &R) -> (u32, u64) {
        let reached = self.reached.lock(rt);
        (reached.kept.version(), reached.len)
    }

    /// The file isn't the room's any more: answers wait from now on, until it is replaced. Constant time.
    pub fn go_astray<R: Wait>(&self, rt: &R) {
        let mut reached = self.reached.lock(rt);
        reached.is_astray = true;
        reached.has_failed = true;
        drop(reached);
        self.wake_all();
    }

    /// Holds the room's file, if it has one: nobody takes a turn until it is given up. Waits for one that is taken.
    pub fn hold<R: Wait>(&self, rt: &R) -> MutexGuard<'_, Option<KeptFile<D>>> {
        self.file.lock(rt)
    }

    /// Holds it where nobody takes a turn now.
    pub fn try_hold(&self) -> Option<MutexGuard<'_, Option<KeptFile<D>>>> {
        self.file.try_lock()
    }

    /// Keeps the room in another file from now on, in place of the one that is held: one that was opened for its place, and in which no
    /// fewer operations are kept. Those who wait go on. Constant time.
    pub fn replace<R: Wait>(
        &self,
        rt: &R,
        held: MutexGuard<'_, Option<KeptFile<D>>>,
        file: KeptFile<D>,
    ) {
        let mut held = held;
        let mut reached = self.reached.lock(rt);
        reached.kept = file.kept();
        reached.len = file.len();
        reached.has_failed = false;
        reached.is_astray = false;
        drop(reached);
        *held = Some(file);
        drop(held);
        self.wake_all();
    }

    /// The file, once all turns were taken. Constant time.
    pub fn into_file(self) -> Option<KeptFile<D>> {
        let RoomTurns { file, .. } = self;
        file.into_inner()
    }

    /// Whether the last turn kept what there was, and the file is the room's. Constant time.
    pub fn is_well<R: Wait>(&self, rt: &R) -> bool {
        !self.reached.lock(rt).has_failed
    }

    /// Whether a turn has been taken for more than half a minute: the disk doesn't answer. Constant time.
    pub fn is_stuck<R: Wait + Clock>(&self, rt: &R) -> bool {
        let reached = self.reached.lock(rt);
        match &reached.begun {
            Some(begun) if reached.is_taken => match begun.elapsed(rt) {
                Ok(time) => time > Duration::from_secs(LONGEST),
                Err(_) => false,
            },
            _ => false,
        }
    }

    /// Tells the keeper that the last turn is to come. Constant time.
    pub fn end<R: Wait>(&self, rt: &R) {
        self.reached.lock(rt).is_ending = true;
        self.wake_all();
    }

    /// The keeper sleeps until a turn has failed that another took, or the time is over: whether the next turn is the last one.
    pub fn rest<R: Wait + Clock>(&self, rt: &R, time: Duration) -> bool {
        let reached = self.reached.lock(rt);
        let (reached, _) = self.keeper.wait_timeout_while(rt, reached, time, |it| {
            !it.is_ending && !it.has_failed
        });
        reached.is_ending
    }

    /// The keeper sleeps for so long, whoever waits: whether the next turn is the last one.
    pub fn pause<R: Wait + Clock>(&self, rt: &R, time: Duration) -> bool {
        let reached = self.reached.lock(rt);
        let (reached, _) = self
            .keeper
            .wait_timeout_while(rt, reached, time, |it| !it.is_ending);
        reached.is_ending
    }

    /// Takes a turn of the room at this place, once nobody else takes one, and tells those who wait for it: looks at the room, and keeps
    /// what its log has gained, if it has a file.
    ///
    /// `NoRoom` where the file is another room's; else refused as `keep_turn` is. Takes the turn of another, and the steps of `keep_turn`.
    pub fn take<R: Wait + Clock>(
        &self,
        rt: &R,
        alloc: Global,
        hall: &Hall,
        pass: &mut HallPass,
        at: usize,
    ) -> Result<Look, TurnFault>
        requires pass { IsHallPassOf hall.now pass.old }
        requires within { at < length (rooms_of hall.now) }
        ensures pass { IsHallPassOf hall.now pass.new }
        ensures version { IfOk result (λ look. look.version ≡ length (seen_log hall.now at pass.new)) }
        ensures no_less { length (seen_log hall.now at pass.old) ≤ length (seen_log hall.now at pass.new) }
    {
        let reached = self.reached.lock(rt);
        let told = self.told(reached.number.wrapping_add(1));
        let reached = told.wait_while(rt, reached, |it| it.is_taken);
        match self.lead(rt, alloc, hall, pass, at, reached) {
            Ok(led) => Ok(led.look),
            Err(why) => Err(why),
        }
    }

    // Takes a turn, which nobody else takes then, and tells those who wait for it. One of those who wait for the next is told too.
    fn lead<R: Wait + Clock>(
        &self,
        rt: &R,
        alloc: Global,
        hall: &Hall,
        pass: &mut HallPass,
        at: usize,
        reached: MutexGuard<'_, Reached>,
    ) -> Result<Led, TurnFault>
        requires pass { IsHallPassOf hall.now pass.old }
        requires within { at < length (rooms_of hall.now) }
        ensures pass { IsHallPassOf hall.now pass.new }
        ensures version { IfOk result (λ led. led.look.version ≡ length (seen_log hall.now at pass.new)) }
        ensures no_less { length (seen_log hall.now at pass.old) ≤ length (seen_log hall.now at pass.new) }
    {
        let mut reached = reached;
        let number = reached.number.wrapping_add(1);
        reached.number = number;
        reached.begun = Instant::now(rt).ok();
        reached.is_taken = true;
        drop(reached);
        let mut file = self.file.lock(rt);
        let turned = if self.is_astray(rt) {
            Err(TurnFault::Astray)
        } else {
            look_at(rt, alloc, hall, pass, at, &mut *file)
        };
        let kept = kept_in(&*file, at);
        let len = len_in(&*file);
        let is_kept = turned.is_ok() || file.is_none();
        // (before another file is put in its place)
        let mut reached = self.reached.lock(rt);
        drop(file);
        reached.kept = kept;
        reached.len = len;
        reached.is_taken = false;
        // (it may have gone astray meanwhile)
        let has_failed = !is_kept || reached.is_astray;
        reached.has_failed = has_failed;
        drop(reached);
        let next = self.told(number.wrapping_add(1));
        if has_failed {
            // (the keeper may wait for the next turn, too, behind others who can't take it)
            self.keeper.notify_all();
            next.notify_all();
        } else {
            next.notify_one();
        }
        self.told(number).notify_all();
        match turned {
            Ok(look) => Ok(Led { look, kept }),
            Err(why) => Err(why),
        }
    }

    // Whether the file isn't the room's any more.
    fn is_astray<R: Wait>(&self, rt: &R) -> bool {
        self.reached.lock(rt).is_astray
    }

    // Waits until so many operations are kept, or a turn may be taken, half a minute at most.
    fn wait<R: Wait + Clock>(&self, rt: &R, version: u32) -> MutexGuard<'_, Reached> {
        let reached = self.reached.lock(rt);
        let told = self.told(reached.number.wrapping_add(1));
        let time = Duration::from_secs(LONGEST);
        let (reached, _) = told.wait_timeout_while(rt, reached, time, |it| {
            it.kept.version() < version && (it.is_taken || it.has_failed)
        });
        // (whoever was woken to take the next turn and needs none wakes another)
        if reached.kept.version() >= version && !reached.is_taken {
            told.notify_one();
        }
        reached
    }

    // Wakes whoever sleeps: each looks anew at what is known of the room.
    fn wake_all(&self) {
        self.even.notify_all();
        self.odd.notify_all();
        self.keeper.notify_all();
    }

    // What is told where the turn with this number has ended.
    fn told(&self, number: u64) -> &Condvar {
        if number % 2 == 0 {
            &self.even
        } else {
            &self.odd
        }
    }
}

// What a turn has seen, and how far the room is kept behind it.
#[derive(Drop)]
struct Led {
    look: Look,
    kept: Kept,
}

// How far the room at this place is kept in its file.
fn kept_in<D: Disk>(file: &Option<KeptFile<D>>, place: usize) -> Kept {
    match file {
        Some(it) => it.kept(),
        None => Kept::nothing(place),
    }
}

// In how many bytes.
fn len_in<D: Disk>(file: &Option<KeptFile<D>>) -> u64 {
    match file {
        Some(it) => it.len(),
        None => 0,
    }
}

// Whether so many operations of the room at this place are kept.
fn covers(kept: Kept, at: usize, version: u32) -> bool
    ensures { result ≡ true → (kept.room ≡ at) × (version ≤ kept.version) }
{
    kept.room() == at && version <= kept.version()
}

/// Waits until all of the log that the pass has seen of the room at this place is kept, as a look at the room tells now: takes a turn, or
/// sleeps while another takes one.
///
/// `Write` where turns that others take last for more than half a minute, or none has succeeded for so long since one failed; `Memory`
/// where there was none, or the pass is worn. Takes a turn of the room, and the steps of `keep_turn`.
pub fn wait_until_kept<R: Wait + Clock, D: Disk>(
    rt: &R,
    alloc: Global,
    hall: &Hall,
    pass: &mut HallPass,
    at: usize,
    turns: &RoomTurns<D>,
) -> Result<Kept, ServeFault>
    requires pass { IsHallPassOf hall.now pass.old }
    requires within { at < length (rooms_of hall.now) }
    ensures pass { IsHallPassOf hall.now pass.new }
    ensures covers { IfOk result (λ kept. Covers hall.now at pass.new kept) }
    ensures no_less { length (seen_log hall.now at pass.old) ≤ length (seen_log hall.now at pass.new) }
{
    for _ in rt.forever() {
        let look = match glance(rt, hall, pass, at) {
            Ok(look) => look,
            Err(_) => return Err(ServeFault::Memory),
        };
        let reached = turns.wait(rt, look.version);
        let kept = reached.kept;
        if covers(kept, at, look.version) {
            return Ok(kept);
        }
        if reached.is_taken || reached.has_failed {
            return Err(ServeFault::Write);
        }
        if let Ok(led) = turns.lead(rt, alloc, hall, pass, at, reached) {
            if covers(led.kept, at, led.look.version) {
                return Ok(led.kept);
            }
        }
    }
    unreachable!()
}
