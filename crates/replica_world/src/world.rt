//! The world: rooms of several sites, one event after another.
ghost use Rattle.std.specs.Prelude.{◌≡◌, ◌≢◌, ℕ, List, ◌+◌, ◌^◌, ◌⊎◌, ◌<◌, ◌≤◌, [], ◌∷◌, Some, None, length, take, slice_get, slice_set};
ghost use Rattle.std.specs.Prelude.{IfOk, OnOk, OnErr, IfSome, IfNone, IsSome, is_some, option_and_then, option_map, IfErr, ◌++◌};
ghost use Rattle.opid.specs.Lawful.{IsLawful};
ghost use Rattle.opid.specs.declared.refusal.Refusal.TheVariants.{NoRoom, Memory, HistoryFull};
ghost use Rattle.opid.specs.Reading.{reading};
ghost use Rattle.room_model.specs.declared.call.Call.{Call};
ghost use Rattle.room_model.specs.declared.call.Call.TheVariants as calls;
ghost use Rattle.room_model.specs.declared.reply.Reply.TheVariants as replies;
ghost use Rattle.room_model.specs.Machine.{answer, room_over};
ghost use Rattle.room_model.specs.History.{Account, mark, called, account_over};
ghost use Rattle.room_model.specs.declared.event.Event.TheVariants as events;
ghost use Rattle.room_model.specs.declared.world_reply.WorldReply.{WorldReply};
ghost use Rattle.room_model.specs.declared.world_reply.WorldReply.TheVariants as worlds;
ghost use Rattle.room_model.specs.World.{room_of, puts, empty_rooms, call_of, fork_of, step, NeedsMemory, Runs};
ghost use Rattle.replica_world.specs.Internal.Places.{IsPlaceOf};
ghost use Rattle.room_model.specs.Carried.{LosesNothing, NothingLost};
ghost use Rattle.room_model.specs.Converges.{IsWorld, Converges};

use causal_clock::Op;
use opid::{MAX_OPERATIONS, Refusal, Site};
use replica::Replica;
use room::{Call, Characters, Operations, Reply, Room};
use room_model::{Event, WorldReply};
use std::alloc::{AllocError, Global};
use std::marker::Model;
use versions::Doc;

/// Rooms of several sites, seen as their accounts in the order in which they came.
#[derive(Drop)]
pub struct World {
    rooms: Vec<Room>,
    alloc: Global,
}

impl Model for World {
    ghost use Rattle.std.specs.Prelude.{List};
    ghost use Rattle.room_model.specs.History.{Account};
    ghost use Rattle.room_model.specs.Converges.{IsWorld};

    ghost Value = { List Account };

    ghost view = { λ w. w.rooms.items };

    ghost invariant = { λ w. IsWorld w.rooms.items };
}

impl World {
    /// Empty rooms at the sites 0 to `n - 1`, 1 to 32 of them. An error is for want of memory. Takes a step and a room's memory for each.
    pub fn new(alloc: Global, n: u8) -> Result<World, AllocError>
        requires first { 1 ≤ n }
        requires most { n ≤ 32 }
        ensures { IfOk result (λ w. w ≡ empty_rooms 0 n) }
    {
        let mut rooms = Vec::new(alloc);
        for i in 0..n {
            match Site::new(i) {
                Ok(site) => rooms.push(Room::new(alloc, site))?,
                Err(_) => unreachable!(),
            }
        }
        Ok(World { rooms, alloc })
    }

    // What holds of every world: its logs are lawful and have one order of elements, each log has just what its site
    // received with its whole past, and editors read what their rooms read.
    fn tell(&self)
        ensures converges { Converges self.now }
        ensures world { IsWorld self.now }
    {
        // A field's use is what tells the invariant of the whole.
        prove!(self.rooms.len() == self.rooms.as_slice().len());
    }

    /// One thing happens. An error is for want of memory, comes only where the event isn't refused by the world or with `HistoryFull`,
    /// and changes nothing.
    ///
    /// At most 32 steps find each site. A call then takes what `Room::call` takes; what is carried, one look-up in the log
    /// of its source, which goes at most 7 steps back, and what a `put` of one operation takes; a fork, a walk over the
    /// first `n` operations and a copy of them (`Doc::copy_ops`), and the time and memory to integrate them into a new
    /// room.
    pub fn step(&mut self, event: Event) -> Result<WorldReply, AllocError>
        ensures reply { IfOk result (λ r. r ≡ (step self.old event).reply) }
        ensures next { OnOk result (self.new ≡ (step self.old event).world) }
        ensures err { OnErr result (self.new ≡ self.old) }
        ensures memory { OnErr result (NeedsMemory (step self.old event).reply) }
        ensures nothing_lost { IfOk result (λ r. LosesNothing event r) }
        ensures converges { Converges self.new }
    {
        self.tell();
        let result = self.take(event);
        self.tell();
        result
    }

    /// Things happen, one after another, each copied first and taken as by `step`. After an error, which is for want of
    /// memory, the replies are those of a beginning of the events, and the world is where these leave it.
    /// Takes for each event the steps of its clone and of `step`.
    pub fn run(&mut self, events: &[Event], replies: &mut Vec<WorldReply>) -> Result<(), AllocError>
        ensures runs { Runs self.old events.now replies.old.items result replies.new.items self.new }
        ensures nothing_lost { NothingLost events.now replies.old.items replies.new.items }
        ensures converges { Converges self.new }
    {
        let result = self.run_each(events, replies);
        self.tell();
        result
    }

    // Things happen, as `run` tells.
    fn run_each(
        &mut self,
        events: &[Event],
        replies: &mut Vec<WorldReply>,
    ) -> Result<(), AllocError>
        ensures runs { Runs self.old events.now replies.old.items result replies.new.items self.new }
        ensures nothing_lost { NothingLost events.now replies.old.items replies.new.items }
    {
        for event in events {
            replies.reserve(1)?;
            let copy = event.clone()?;
            let reply = self.step(copy)?;
            replies.push_reserved(reply);
        }
        Ok(())
    }

    /// The text of the site's newest version. Takes at most 32 steps to find the site, and the steps and the memory of
    /// `Doc::reading`. Refused with `NoRoom` and with `Memory`.
    pub fn reading(&self, site: Site) -> Result<Characters, Refusal>
        ensures ok { IfOk result (λ text. Some text ≡ option_map (λ a. reading a.state.log) (room_of site self.now)) }
        ensures cause { IfErr result (λ e. ((e ≡ NoRoom) × (room_of site self.now ≡ None))
            ⊎ ((e ≡ Memory) × IsSome (room_of site self.now))) }
    {
        match self.place_of(site) {
            None => Err(Refusal::NoRoom),
            Some(place) => newest_text(&self.rooms[place]),
        }
    }

    /// The version of the site's log, which is how many operations it has. Takes at most 32 steps. Refused with `NoRoom`.
    pub fn version(&self, site: Site) -> Result<u32, Refusal>
        ensures ok { IfOk result (λ v. Some v ≡ option_map (λ a. length a.state.log) (room_of site self.now)) }
        ensures cause { IfErr result (λ e. (e ≡ NoRoom) × (room_of site self.now ≡ None)) }
    {
        match self.place_of(site) {
            None => Err(Refusal::NoRoom),
            Some(place) => Ok(self.rooms[place].replica().version()),
        }
    }

    // One thing happens, as `step` tells.
    fn take(&mut self, event: Event) -> Result<WorldReply, AllocError>
        ensures reply { IfOk result (λ r. r ≡ (step self.old event).reply) }
        ensures next { OnOk result (self.new ≡ (step self.old event).world) }
        ensures err { OnErr result (self.new ≡ self.old) }
        ensures memory { OnErr result (NeedsMemory (step self.old event).reply) }
    {
        match event {
            Event::Call(site, call) => self.call(site, call),
            Event::Carry { from, n, to } => self.carry(from, n, to),
            Event::Fork { new, from, n } => self.fork(new, from, n),
        }
    }

    // A call at a site.
    fn call(&mut self, site: Site, call: Call) -> Result<WorldReply, AllocError>
        ensures reply { IfOk result (λ r. r ≡ (step self.old (events.Call site call)).reply) }
        ensures next { OnOk result (self.new ≡ (step self.old (events.Call site call)).world) }
        ensures err { OnErr result (self.new ≡ self.old) }
        ensures memory { OnErr result (NeedsMemory (step self.old (events.Call site call)).reply) }
    {
        if is_put(&call) {
            return Ok(WorldReply::No(Refusal::UnknownKind));
        }
        match self.place_of(site) {
            None => Ok(WorldReply::No(Refusal::NoRoom)),
            Some(place) => self.call_at(site, place, call),
        }
    }

    // An operation of a log is put at a site.
    fn carry(&mut self, from: Site, n: u32, to: Site) -> Result<WorldReply, AllocError>
        ensures reply { IfOk result (λ r. r ≡ (step self.old (events.Carry from n to)).reply) }
        ensures next { OnOk result (self.new ≡ (step self.old (events.Carry from n to)).world) }
        ensures err { OnErr result (self.new ≡ self.old) }
        ensures memory { OnErr result (NeedsMemory (step self.old (events.Carry from n to)).reply) }
    {
        let Some(source) = self.place_of(from) else {
            return Ok(WorldReply::No(Refusal::NoRoom));
        };
        let Some(place) = self.place_of(to) else {
            return Ok(WorldReply::No(Refusal::NoRoom));
        };
        let Some(op) = self.op_from(from, source, n) else {
            return Ok(WorldReply::No(Refusal::BadRange));
        };
        self.put_at(to, place, op)
    }

    // An operation is put at the room at the place.
    fn put_at(&mut self, site: Site, place: usize, op: Op) -> Result<WorldReply, AllocError>
        requires place { IsPlaceOf site self.old place }
        requires keeps { IsWorld (call_of site (room_of site self.old) (calls.Put (op ∷ [])) self.old).world }
        ensures reply { IfOk result (λ r. r ≡ (call_of site (room_of site self.old) (calls.Put (op ∷ [])) self.old).reply) }
        ensures next { OnOk result (self.new ≡ (call_of site (room_of site self.old) (calls.Put (op ∷ [])) self.old).world) }
        ensures err { OnErr result (self.new ≡ self.old) }
        ensures memory { OnErr result (NeedsMemory (call_of site (room_of site self.old) (calls.Put (op ∷ [])) self.old).reply) }
    {
        if !self.rooms[place].may_record() {
            return Ok(WorldReply::Room(Reply::No(Refusal::HistoryFull)));
        }
        let call = put_of(self.alloc, op)?;
        self.call_at(site, place, call)
    }

    // An unused site opens over a beginning of a log.
    fn fork(&mut self, new: Site, from: Site, n: u32) -> Result<WorldReply, AllocError>
        ensures reply { IfOk result (λ r. r ≡ (step self.old (events.Fork new from n)).reply) }
        ensures next { OnOk result (self.new ≡ (step self.old (events.Fork new from n)).world) }
        ensures err { OnErr result (self.new ≡ self.old) }
        ensures memory { OnErr result (NeedsMemory (step self.old (events.Fork new from n)).reply) }
    {
        prove!(new.number() < 32);
        match self.place_of(new) {
            Some(_) => Ok(WorldReply::No(Refusal::SiteUsed)),
            None => match self.place_of(from) {
                None => Ok(WorldReply::No(Refusal::NoRoom)),
                Some(source) => self.fork_at(new, from, source, n),
            },
        }
    }

    // The site opens over a beginning of the log of the room at the place.
    fn fork_at(
        &mut self,
        new: Site,
        from: Site,
        source: usize,
        n: u32,
    ) -> Result<WorldReply, AllocError>
        requires small { new < 32 }
        requires free { room_of new self.old ≡ None }
        requires source { IsPlaceOf from self.old source }
        ensures reply { IfOk result (λ r. r ≡ (fork_of new (room_of from self.old) n self.old).reply) }
        ensures next { OnOk result (self.new ≡ (fork_of new (room_of from self.old) n self.old).world) }
        ensures err { OnErr result (self.new ≡ self.old) }
        ensures memory { OnErr result (NeedsMemory (fork_of new (room_of from self.old) n self.old).reply) }
    {
        let doc = self.rooms[source].replica().doc();
        if n > doc.version() {
            return Ok(WorldReply::No(Refusal::BadRange));
        }
        let ops = beginning(doc, n)?;
        let room = room_at(self.alloc, new, &ops)?;
        self.rooms.push(room)?;
        Ok(WorldReply::Forked)
    }

    // Operation `n` of the log of the room at the place.
    fn op_from(&self, site: Site, place: usize, n: u32) -> Option<Op>
        requires { IsPlaceOf site self.now place }
        ensures { result ≡ option_and_then (λ a. slice_get a.state.log n) (room_of site self.now) }
    {
        let doc = self.rooms[place].replica().doc();
        if n < doc.version() {
            Some(doc.op(n))
        } else {
            None
        }
    }

    // Where the site's room is.
    fn place_of(&self, site: Site) -> Option<usize>
        ensures found { IfSome result (λ i. IsPlaceOf site self.now i) }
        ensures none { IfNone result (room_of site self.now ≡ None) }
        ensures world { IsWorld self.now }
    {
        place_of(&self.rooms, site)
    }

    // Calls the room at the place, under its next ticket.
    fn call_at(&mut self, site: Site, place: usize, call: Call) -> Result<WorldReply, AllocError>
        requires place { IsPlaceOf site self.old place }
        requires keeps { IsWorld (call_of site (room_of site self.old) call self.old).world }
        ensures reply { IfOk result (λ r. r ≡ (call_of site (room_of site self.old) call self.old).reply) }
        ensures next { OnOk result (self.new ≡ (call_of site (room_of site self.old) call self.old).world) }
        ensures err { OnErr result (self.new ≡ self.old) }
        ensures memory { OnErr result (NeedsMemory (call_of site (room_of site self.old) call self.old).reply) }
    {
        call_room(&mut self.rooms[place], call)
    }
}

// Whether the call puts operations.
fn is_put(call: &Call) -> bool
    ensures { result ≡ is_some (puts call.now) }
{
    match call {
        Call::Put(_) => true,
        _ => false,
    }
}

// The text of the room's newest version.
fn newest_text(room: &Room) -> Result<Characters, Refusal>
    ensures ok { IfOk result (λ text. text ≡ reading room.now.state.log) }
    ensures cause { IfErr result (λ e. e ≡ Memory) }
{
    let doc = room.replica().doc();
    doc.reading(doc.version())
}

// Where the site's room is.
fn place_of(rooms: &[Room], site: Site) -> Option<usize>
    ensures found { IfSome result (λ i. IsPlaceOf site rooms.now i) }
    ensures none { IfNone result (room_of site rooms.now ≡ None) }
{
    for (i, room) in rooms.iter().enumerate() {
        if room.replica().site() == site {
            return Some(i);
        }
    }
    None
}

// Calls the room under its next ticket.
fn call_room(room: &mut Room, call: Call) -> Result<WorldReply, AllocError>
    requires { mark room.old.history ≤ length room.old.history }
    ensures reply { IfOk result (λ r. r ≡ worlds.Room (answer room.old.state call)) }
    ensures next { OnOk result (room.new ≡ called room.old (mark room.old.history) call) }
    ensures err { OnErr result (room.new ≡ room.old) }
    ensures memory { OnErr result (answer room.old.state call ≢ replies.No HistoryFull) }
    ensures either { (room.new ≡ room.old) ⊎ (room.new ≡ called room.old (mark room.old.history) call) }
{
    prove!(room.history().len() < 1 << 62);
    let ticket = room.mark();
    let reply = room.call(ticket, call)?;
    Ok(WorldReply::Room(reply))
}

// The call that puts one operation.
fn put_of(alloc: Global, op: Op) -> Result<Call, AllocError>
    ensures { IfOk result (λ c. c ≡ calls.Put (op ∷ [])) }
{
    let mut ops = Vec::new(alloc);
    ops.push(op)?;
    Ok(Call::Put(Operations::new(ops)))
}

// The first operations of the document.
fn beginning(doc: &Doc, n: u32) -> Result<Vec<Op>, AllocError>
    requires { n ≤ length doc.now.log }
    ensures { IfOk result (λ ops. ops.items ≡ take n doc.now.log) }
{
    doc.copy_ops(0, n)
}

// The room of the site over these operations.
fn room_at(alloc: Global, site: Site, ops: &[Op]) -> Result<Room, AllocError>
    requires lawful { IsLawful ops.now }
    requires few { length ops.now ≤ MAX_OPERATIONS }
    ensures { IfOk result (λ room. room ≡ account_over (room_over site ops.now)) }
{
    match Replica::over(alloc, site, ops) {
        Ok(replica) => Ok(Room::over(alloc, replica)),
        Err(_) => Err(AllocError),
    }
}
