//! A document and its versions.
ghost use Rattle.std.specs.Prelude.{◌≡◌, ◌≤◌, ◌<◌, ◌+◌, ◌-◌, ◌⊎◌, ◌++◌, ◌==◌, ℕ, [], ◌∷◌, Some, None, true, List, length, max, slice_get};
ghost use Rattle.std.specs.Prelude.{option_map, take, drop, sum, if◌then◌else◌, IfOk, IfErr, OnOk, OnErr, IsErr, vec_len, vec_capacity};
ghost use Rattle.std.specs.Char.Utf16.{is_low_surrogate};
ghost use Rattle.opid.specs.declared.refusal.Refusal.TheVariants.{BadVersion, Memory};
ghost use Rattle.opid.specs.Operations.{Operation};
ghost use Rattle.opid.specs.Delivery.{clock_of, is_ready};
ghost use Rattle.opid.specs.Reading.{visible_at, visible_in_at, reading, reading_at};
ghost use Rattle.opid.specs.Lawful.{IsLawful, IsRisingAt};
ghost use Rattle.opid.specs.Splice.{apply};
ghost use Rattle.opid.specs.Edits.{edit_after, edits, edit_after_in, edits_in};
ghost use Rattle.opid.specs.Kinds.{IsOperation};
ghost use Rattle.opid.specs.Rising.{refusal_of};
ghost use Rattle.opid.specs.Rising.{last_sum};

use crate::integrate::{integrate, look_up};
use crate::kept_edit::KeptEdit;
use crate::read_op::read_op;
use crate::reserved::{reserve_each, reserve_next};
use crate::text::text_in;
use causal_clock::{Clock, Op, OpLog, Replay};
use characters::Characters;
use counted_tree::{Steps, VersionTree};
use opid::{Edit, MAX_OPERATIONS, Refusal, SITES, Site, Stamp};
use rga_list::{LIMIT, Rga};
use std::alloc::{AllocError, Global};
use std::marker::Model;

/// A lawful log of at most 131,072 operations, every version of which can be read: version n is what its first n
/// operations make. A place counts characters (Unicode scalar values) from 0, or UTF-16 units in the calls that are named
/// for them.
#[derive(Drop)]
pub struct Doc {
    log: OpLog,
    edits: Vec<KeptEdit>,
    tree: VersionTree,
    clock: Clock,
    sums: [u32; SITES],
    list: Rga,
    reserved: usize,
    alloc: Global,
}

impl Model for Doc {
    ghost use Rattle.std.specs.Prelude.{vec_len, vec_capacity};
    ghost use Rattle.versions.specs.Document.{Document};

    ghost Value = { Document };

    ghost use Rattle.versions.specs.Internal.Kept.{IsDocument, AreReserved};

    ghost view = { λ d. record { log = d.log.ops; reserved = d.reserved } };

    ghost invariant = { λ d. IsDocument d.log.ops d.edits.items d.tree d.clock d.sums d.list.entries
        × AreReserved d.log.reserved (vec_len d.edits) (vec_capacity d.edits) d.tree d.list.reserved d.reserved };
}

impl Doc {
    /// The document of no operations. Constant time; takes no memory.
    pub fn new(alloc: Global) -> Doc
        ensures { result ≡ record { log = []; reserved = 0 } }
    {
        Doc {
            log: OpLog::new(alloc),
            edits: Vec::new(alloc),
            tree: VersionTree::new(alloc),
            clock: Clock::zero(),
            sums: [0; SITES],
            list: Rga::new(alloc),
            reserved: 0,
            alloc,
        }
    }

    /// The newest version: how many operations there are. Constant time.
    pub fn version(&self) -> u32
        ensures value { result ≡ length self.now.log }
        ensures within { length self.now.log ≤ MAX_OPERATIONS }
        ensures lawful { IsLawful self.now.log }
    {
        self.log.len() as u32
    }

    /// How many operations of each site there are. Copies 32 counts.
    pub fn clock(&self) -> Clock
        ensures { result ≡ clock_of self.now.log }
    {
        self.clock
    }

    /// The same clock, where it is only looked at. Constant time.
    pub fn known(&self) -> &Clock
        ensures { result.now ≡ clock_of self.now.log }
    {
        &self.clock
    }

    /// The operation that made version `i + 1` of version `i`. Takes the steps of `OpLog::get`: at most 7 back along its
    /// site's operations.
    pub fn op(&self, i: u32) -> Op
        requires { i < length self.now.log }
        ensures value { slice_get self.now.log i ≡ Some result }
    {
        read_op(&self.log, i as usize)
    }

    /// The operations from a place of the log on, in order. Constant time; takes no memory. Of the operations that are then asked
    /// for, the first one of each site takes the steps of `op`, each other one a copy of 32 counts and of the entries of its clock
    /// that are stored.
    pub fn ops_from(&self, i: u32) -> Replay<'_>
        requires { i ≤ length self.now.log }
        ensures passed { result.passed ≡ [] }
        ensures left { result.left ≡ drop i self.now.log }
    {
        self.log.replay_from(i as usize)
    }

    /// A copy of the operations from one place of the log up to another. Takes for each the steps that `ops_from` tells, and
    /// memory, some 160 bytes each. An error is for want of memory.
    #[tactic(auto, using(crate::proofs::Left::left_after, crate::proofs::Left::some_left, opid::proofs::Gathered::gathered, opid::proofs::Gathered::gathered_all))]
    pub fn copy_ops(&self, from: u32, end: u32) -> Result<Vec<Op>, AllocError>
        requires order { from ≤ end }
        requires within { end ≤ length self.now.log }
        ensures { IfOk result (λ ops. ops.items ≡ take (end - from) (drop from self.now.log)) }
    {
        let mut ops = Vec::with_capacity(self.alloc, (end - from) as usize)?;
        let mut rest = self.ops_from(from);
        'told: for _place in from..end {
            ops.push(rest.next_op())?;
        }
        Ok(ops)
    }

    /// The sum of the site's last operation, 0 where there is none. Constant time.
    pub fn last_sum(&self, site: Site) -> u32
        ensures value { result ≡ last_sum self.now.log site }

        // An operation of the site with a greater sum is rising.
        ensures rising { (x : Operation) → x.site ≡ site → result < sum x.clock → IsRisingAt self.now.log x }
    {
        self.sums[usize::from(site.number())]
    }

    /// Reserves memory for the next `n` operations, so that they aren't refused with `Memory`: for each that the log can still take 8
    /// bytes for its edit, what `OpLog::reserve` and `VersionTree::reserve` take, some 560 with these, and what `Rga::reserve` takes for
    /// an insertion by any of 32 sites. Constant time; nothing grows where so many are reserved already. Refused with `Memory`, only
    /// where fewer are.
    pub fn reserve(&mut self, n: usize) -> Result<(), Refusal>
        ensures ok { OnOk result (self.new ≡ record self.old { reserved = max self.old.reserved n }) }
        ensures err { OnErr result (self.new ≡ self.old) }
        ensures memory { IfErr result (λ e. (e ≡ Memory) × (self.old.reserved < n)) }
    {
        if self.reserved < n {
            reserve_each(
                &mut self.log,
                &mut self.edits,
                &mut self.tree,
                &mut self.list,
                n,
            )?;
            self.reserved = n;
        }
        Ok(())
    }

    /// Adds an operation to the log, and gives its edit: what it does to the text. Takes the steps of `OpLog::push`, at most one for
    /// each of the 32 sites. For an insertion it asks the tree `VersionTree::last_greater` at most once, however many elements with a
    /// greater stamp are passed, and `insert_after` once; for a first deletion `hide_ranked` once.
    ///
    /// Refused, in this order: `Full` with 131,072 operations, `UnknownElement` where the parent or target is no
    /// element, `NotOlder` where the parent's stamp isn't smaller, `Memory` only where nothing is reserved.
    pub fn integrate(&mut self, op: &Op) -> Result<Edit, Refusal>
        requires ready { is_ready self.old.log op.now ≡ true }
        requires rising { IsRisingAt self.old.log op.now }
        ensures grown { OnOk result (self.new ≡ record { log = self.old.log ++ op.now ∷ []; reserved = self.old.reserved - 1 }) }
        ensures edit { IfOk result (λ edit. edit ≡ edit_after self.old.log op.now) }

        // The edit leads from what was read before to what is read then.
        ensures leads { IfOk result (λ edit. apply (reading self.old.log) edit ≡ Some (reading self.new.log)) }

        // Each cause, and only then; on a refusal the document is as before.
        ensures ok { OnOk result (refusal_of self.old.log op.now ≡ None) }
        ensures cause { IfErr result (λ e. (refusal_of self.old.log op.now ≡ Some e)
            ⊎ ((refusal_of self.old.log op.now ≡ None) × (e ≡ Memory) × (self.old.reserved ≡ 0))) }
        ensures err { OnErr result (self.new ≡ self.old) }
    {
        let found = look_up(&self.log, &self.list, op)?;
        reserve_next(
            &mut self.log,
            &mut self.edits,
            &mut self.tree,
            &mut self.list,
            self.reserved,
        )?;
        let mut steps = Steps::new();
        let edit = integrate(
            &mut self.log,
            &mut self.edits,
            &mut self.tree,
            &mut self.clock,
            &mut self.sums,
            &mut self.list,
            op,
            found,
            &mut steps,
        );
        self.reserved = self.reserved.saturating_sub(1);
        Ok(edit)
    }

    /// The edit of the operation that made version `n`: what it did to the text of version `n - 1`. Constant time.
    pub fn edit(&self, n: u32) -> Edit
        requires first { 1 ≤ n }
        requires last { n ≤ length self.now.log }
        ensures value { slice_get (edits self.now.log) (n - 1) ≡ Some result }
        ensures after { (x : Operation) → slice_get self.now.log (n - 1) ≡ Some x → result ≡ edit_after (take (n - 1) self.now.log) x }
    {
        self.edits[n as usize - 1].edit(false)
    }

    /// The same edit, with its place in UTF-16 units. Constant time.
    pub fn edit_units(&self, n: u32) -> Edit
        requires first { 1 ≤ n }
        requires last { n ≤ length self.now.log }
        ensures value { slice_get (edits_in true self.now.log) (n - 1) ≡ Some result }
        ensures after { (x : Operation) → slice_get self.now.log (n - 1) ≡ Some x
            → result ≡ edit_after_in true (take (n - 1) self.now.log) x }
    {
        self.edits[n as usize - 1].edit(true)
    }

    /// How many characters there are in the version. Constant time.
    pub fn len_at(&self, version: u32) -> usize
        requires { version ≤ length self.now.log }
        ensures { result ≡ length (visible_at self.now.log version) }
    {
        self.tree.shown(version as usize)
    }

    /// The stamp of the element at the place in the version, if that is so long. A place counts characters. Asks the tree
    /// `VersionTree::find` once, and takes no memory.
    pub fn element_at(&self, version: u32, place: usize) -> Option<Stamp>
        requires { version ≤ length self.now.log }
        ensures { result ≡ option_map (λ x. x.stamp) (slice_get (visible_at self.now.log version) place) }
    {
        let mut steps = Steps::new();
        prove!(self.list.len() <= LIMIT);
        match self.tree.find(version as usize, place, &mut steps) {
            None => None,
            Some(elem) => Some(self.list.get(elem).0),
        }
    }

    /// How many UTF-16 units the characters of the version have. Constant time.
    pub fn units_at(&self, version: u32) -> usize
        requires { version ≤ length self.now.log }
        ensures { result ≡ length (visible_in_at true self.now.log version) }
    {
        self.tree.units(version as usize)
    }

    /// The stamp of the element that has the unit at the place in the version, if that is so long, and 1 where the unit is the
    /// second of a pair, else 0. A place counts UTF-16 units. Asks the tree `VersionTree::find_units` once, and takes no memory.
    pub fn unit_at(&self, version: u32, place: usize) -> Option<(Stamp, u8)>
        requires { version ≤ length self.now.log }
        ensures { result ≡ option_map (λ x. (x.stamp, if is_low_surrogate x.ch then 1 else 0))
            (slice_get (visible_in_at true self.now.log version) place) }
    {
        let mut steps = Steps::new();
        prove!(self.list.len() <= LIMIT);
        match self.tree.find_units(version as usize, place, &mut steps) {
            None => None,
            Some((elem, second)) => Some((self.list.get(elem).0, second)),
        }
    }

    /// The text of the version. Refused with `BadVersion` above the newest, and with `Memory`.
    ///
    /// The newest is read along the linked order if it shows at least an eighth of all elements, rounded down: one step for each
    /// element, so at most eight for each that is shown, and seven more. Otherwise, and at each older version, the tree is asked
    /// `VersionTree::push_shown` once: at most 37 steps for each element that is shown, and 4 bytes for its number. Either takes memory
    /// for the text.
    pub fn reading(&self, version: u32) -> Result<Characters, Refusal>
        ensures ok { IfOk result (λ text. text ≡ reading_at self.now.log version) }
        ensures known { OnOk result (version ≤ length self.now.log) }
        ensures cause { IfErr result (λ e. ((e ≡ BadVersion) × (length self.now.log < version))
            ⊎ ((e ≡ Memory) × (version ≤ length self.now.log))) }
    {
        if version as usize > self.log.len() {
            return Err(Refusal::BadVersion);
        }
        prove!(self.list.len() <= LIMIT);
        let mut steps = Steps::new();
        let text = text_in(
            self.alloc,
            &self.tree,
            &self.list,
            version as usize,
            &mut steps,
        )?;
        prove!(text.as_str().len() == text.len());
        Ok(Characters::new(text))
    }
}
