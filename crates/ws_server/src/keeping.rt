//! Halls over logs that are kept, and looks at their rooms.
ghost use Rattle.std.specs.Prelude.{◌≡◌, ◌<◌, ◌↔◌, ◌⊎◌, [], length, map, string_bytes, false, Err, All, IfOk, IfErr};
ghost use Rattle.opid.specs.declared.refusal.Refusal.TheVariants as Why;
ghost use Rattle.ws_server.specs.Halls.{rooms_of, IsHallPassOf, IsOpenedOver};
ghost use Rattle.ws_server.specs.Keeping.{LooksInto};
ghost use Rattle.ws_server.specs.Names.{names_fit};

use crate::hall::{Hall, HallPass};
use crate::names::names_fit;
use opid::Refusal;
use replica::Replica;
use shared_room::Look;
use std::alloc::Global;
use std::sync::Wait;

impl Hall {
    /// A room for each name over the log of the replica at its place, in the order of the names, and the first pass of each,
    /// which may make 2^62 calls. There is a replica for each name, and none holds anything back. Takes what `new` takes.
    ///
    /// Refused as `new` is. The replicas are dropped then.
    pub fn over(
        alloc: Global,
        names: &[String],
        replicas: Vec<Replica>,
    ) -> Result<(Hall, HallPass), Refusal>
        requires counted { length replicas.items ≡ length names.now }
        requires none_held { All (λ r. r.held ≡ []) replicas.items }
        ensures passes { IfOk result (λ r. IsHallPassOf r.0 r.1) }
        ensures opened { IfOk result (λ r. IsOpenedOver (map string_bytes names.now) replicas.items r.0 r.1) }
        ensures unfit { (result ≡ Err Why.BadField) ↔ (names_fit names.now ≡ false) }
        ensures cause { IfErr result (λ why. (why ≡ Why.BadField) ⊎ (why ≡ Why.Memory)) }
    {
        if !names_fit(names) {
            return Err(Refusal::BadField);
        }
        Ok(Hall::of_replicas(alloc, names, replicas)?)
    }

    /// A look at the room at a place, through the pass of it, as `SharedRoom::look` tells. The other passes stay as they are.
    ///
    /// Refused with `Worn` and `Memory`, as that is.
    pub fn look<R: Wait>(
        &self,
        rt: &R,
        pass: &mut HallPass,
        at: usize,
        after: u32,
    ) -> Result<Look, Refusal>
        requires pass { IsHallPassOf self.now pass.old }
        requires within { at < length (rooms_of self.now) }
        ensures pass { IsHallPassOf self.now pass.new }
        ensures looked { LooksInto self.now at pass.old.passes.items after result pass.new.passes.items }
    {
        self.room(at).look(rt, &mut pass.passes[at], after)
    }
}
