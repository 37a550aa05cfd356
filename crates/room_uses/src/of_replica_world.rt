//! A world of two sites.
ghost use Rattle.std.specs.Prelude.{◌≡◌, IfOk, false};
ghost use Rattle.room_model.specs.World.{empty_rooms, step};
ghost use Rattle.room_model.specs.declared.event.Event.TheVariants as events;
ghost use Rattle.room_model.specs.declared.call.Call.TheVariants as calls;

use opid::Site;
use replica_world::{Event, World, WorldReply};
use room::Call;
use std::alloc::{AllocError, Global};

/// What the first session is told that joins at a site of a world of two.
pub fn joined_at(alloc: Global, site: Site) -> Result<WorldReply, AllocError>
    ensures { IfOk result (λ r. r ≡ (step (empty_rooms 0 2) (events.Call site (calls.Join false))).reply) }
{
    let mut world = World::new(alloc, 2)?;
    let call = Call::Join { units: false };
    world.step(Event::Call(site, call))
}
