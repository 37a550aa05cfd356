//! Who looks at which room.
ghost use Rattle.std.specs.Prelude.{◌≡◌, ◌⊎◌, length, map, All, IfOk, IfErr};
ghost use Rattle.std.specs.List.{range_with_len};
ghost use Rattle.opid.specs.declared.refusal.Refusal.TheVariants as Why;
ghost use Rattle.shared_room.specs.Views.{left};
ghost use Rattle.ws_server.specs.Halls.{rooms_of, IsHallPassOf};
ghost use Rattle.kept_rooms.specs.SeenLogs.{SeeAlike};

use opid::Refusal;
use std::alloc::Global;
use ws_server::{Hall, HallPass};

/// A room of a hall, for who looks at it: its place, a pass to look through, and what is held for it, as its file.
#[derive(Drop)]
pub struct Assigned<T> {
    /// The place of the room in its hall.
    pub place: usize,
    /// The pass.
    pub pass: HallPass,
    /// What is held for it.
    pub item: T,
}

/// Each room of the hall with the item at its place, and a pass of so many draws for each, which is split off. There is an item for each
/// room.
///
/// Refused with `Worn` and `Memory`, as `Hall::split` is; then draws may be lost, and the items are dropped. Takes time and memory in
/// proportion to the square of the number of rooms.
pub fn assign_rooms<T: Drop>(
    alloc: Global,
    hall: &Hall,
    pass: &mut HallPass,
    items: Vec<T>,
    count: u64,
) -> Result<Vec<Assigned<T>>, Refusal>
    requires pass { IsHallPassOf hall.now pass.old }
    requires counted { length items.items ≡ length (rooms_of hall.now) }
    ensures pass { IsHallPassOf hall.now pass.new }
    ensures seen { SeeAlike hall.now pass.old pass.new }
    ensures places { IfOk result (λ all. map (λ it. it.place) all.items ≡ range_with_len 0 (length (rooms_of hall.now))) }
    ensures items { IfOk result (λ all. map (λ it. it.item) all.items ≡ items.items) }
    ensures passes { IfOk result (λ all. All (λ it. IsHallPassOf hall.now it.pass × SeeAlike hall.now pass.old it.pass) all.items) }
    ensures draws { IfOk result (λ all. All (λ it. All (λ p. left p ≡ count) it.pass.passes.items) all.items) }
    ensures cause { IfErr result (λ why. (why ≡ Why.Worn) ⊎ (why ≡ Why.Memory)) }
{
    let mut all = Vec::new(alloc);
    let mut rest = items.into_iter();
    for place in 0..hall.len() {
        let Some(item) = rest.next() else {
            unreachable!()
        };
        let given = match hall.split(alloc, pass, count) {
            Ok(given) => given,
            Err(why) => return Err(why),
        };
        let room = Assigned {
            place,
            pass: given,
            item,
        };
        let Ok(()) = all.push(room) else {
            return Err(Refusal::Memory);
        };
    }
    Ok(all)
}
