//! A replica of a document.
ghost use Rattle.std.specs.Prelude.{◌≡◌, ◌<◌, ◌≤◌, ◌+◌, ◌-◌, ◌⊎◌, ◌++◌, [], true, Some, None, Ok, Err};
ghost use Rattle.std.specs.Prelude.{length, max, IsOk, IfOk, IfErr, OnOk, OnErr};
ghost use Rattle.opid.specs.declared.refusal.Refusal.TheVariants.{Memory};
ghost use Rattle.std.specs.Str.{chars};
ghost use Rattle.opid.specs.Lawful.{IsLawful};
ghost use Rattle.opid.specs.Asked.{asked_insertions, asked_deletions, asked_insertions_in, asked_deletions_in};
ghost use Rattle.opid.specs.Places.{insertion_refusal, deletion_refusal, insertion_refusal_in};
ghost use Rattle.opid.specs.Places.{deletion_refusal_in, element_count};
ghost use Rattle.opid.specs.Delivered.{deliver, taken_by};
ghost use Rattle.opid.specs.Delivered.{part_of};

use crate::deliver::deliver;
use crate::log::Log;
use crate::part::copy_part;
use crate::submissions::append_all;
use causal_clock::Op;
use holdback::{Held, MAX_HELD};
use opid::{Delivery, Refusal, Site};
use position_translate::{delete_ops, delete_ops_units, insert_ops, insert_ops_units};
use std::alloc::Global;
use std::marker::Model;
use versions::{Doc, MAX_OPERATIONS};

/// The replica of a site: a lawful log of at most 131,072 operations, and at most 1,024 operations from elsewhere that
/// are held back until their causal past is there, in order of arrival.
#[derive(Drop)]
pub struct Replica {
    site: Site,
    log: Log,
    held: Held,
    reserved: usize,
    alloc: Global,
}

impl Model for Replica {
    ghost use Rattle.opid.specs.Delivered.{ReplicaState};
    ghost use Rattle.replica.specs.Internal.Kept.{AreReserved};

    ghost Value = { ReplicaState };

    ghost view = { λ r. record { site = r.site; log = r.log.log; held = r.held.ops; reserved = r.reserved } };

    ghost invariant = { λ r. AreReserved r.reserved r.log r.held };
}

impl Replica {
    /// The replica of a site that has no operation yet. Constant time; takes no memory.
    pub fn new(alloc: Global, site: Site) -> Replica
        ensures { result ≡ record { site = site; log = []; held = []; reserved = 0 } }
    {
        Replica {
            site,
            log: Log::new(alloc),
            held: Held::new(alloc),
            reserved: 0,
            alloc,
        }
    }

    /// The replica of a site whose log is these operations, and which holds nothing back. Takes the steps of
    /// `Doc::integrate` for each. Refused with `Memory`.
    pub fn over(alloc: Global, site: Site, ops: &[Op]) -> Result<Replica, Refusal>
        requires lawful { IsLawful ops.now }
        requires few { length ops.now ≤ MAX_OPERATIONS }
        ensures ok { IfOk result (λ r. r ≡ record { site = site; log = ops.now; held = []; reserved = 0 }) }
        ensures memory { IfErr result (λ e. e ≡ Memory) }
    {
        let mut replica = Replica::new(alloc, site);
        append_all(&mut replica.log, ops)?;
        Ok(replica)
    }

    /// The replica of a site whose log is that of a document with no memory reserved, and which holds nothing back.
    /// Walks the log once: for each operation it takes the steps that `Doc::ops_from` tells. Refused with `Memory`.
    pub fn over_doc(alloc: Global, site: Site, doc: Doc) -> Result<Replica, Refusal>
        requires { doc.reserved ≡ 0 }
        ensures ok { IfOk result (λ r. r ≡ record { site = site; log = doc.log; held = []; reserved = 0 }) }
        ensures memory { IfErr result (λ e. e ≡ Memory) }
    {
        let log = Log::over(alloc, doc)?;
        Ok(Replica {
            site,
            log,
            held: Held::new(alloc),
            reserved: 0,
            alloc,
        })
    }

    /// The site. Constant time.
    pub fn site(&self) -> Site
        ensures { result ≡ self.now.site }
    {
        self.site
    }

    /// The document that the log makes. Constant time.
    pub fn doc(&self) -> &Doc
        ensures value { result.now.log ≡ self.now.log }
        ensures lawful { IsLawful self.now.log }
    {
        self.log.doc()
    }

    /// How many operations are held back. Constant time.
    pub fn held(&self) -> usize
        ensures value { result ≡ length self.now.held }
        ensures within { result ≤ MAX_HELD }
    {
        self.held.len()
    }

    /// Puts the text in at a place of a version, as the replica's own next operations, and tells the versions that this
    /// led from and to. Refused as `insert_ops` is, with `BadVersion`, `BadText`, `BadPlace`, `Full` and `Memory`; then
    /// nothing has changed. Takes the steps of `insert_ops`, and those of `Doc::integrate` for each character.
    pub fn submit_ins(
        &mut self,
        version: u32,
        place: u32,
        text: &str,
    ) -> Result<(u32, u32), Refusal>
        ensures reply { IfOk result (λ r. r ≡ (length self.old.log, length self.old.log + length (chars text.now))) }
        ensures accepted { OnOk result (insertion_refusal self.old.log version place (chars text.now) ≡ None) }
        ensures next { OnOk result (self.new ≡ record self.old {
          log = self.old.log ++ asked_insertions self.old.log self.old.site version place (chars text.now);
          reserved = self.old.reserved - length (chars text.now);
        }) }
        ensures cause { IfErr result (λ e. (insertion_refusal self.old.log version place (chars text.now) ≡ Some e)
            ⊎ ((insertion_refusal self.old.log version place (chars text.now) ≡ None) × (e ≡ Memory))) }
        ensures err { OnErr result (self.new ≡ self.old) }
    {
        let doc = self.log.doc();
        let ops = insert_ops(self.alloc, doc, self.site, version, place, text)?;
        let reply = append_all(&mut self.log, &ops)?;
        self.reserved = self.reserved.saturating_sub(ops.len());
        Ok(reply)
    }

    /// The same where the place counts UTF-16 units. Refused as `insert_ops_units` is; then nothing has changed. Takes the steps of
    /// `insert_ops_units`, and those of `Doc::integrate` for each character.
    pub fn submit_ins_units(
        &mut self,
        version: u32,
        place: u32,
        text: &str,
    ) -> Result<(u32, u32), Refusal>
        ensures reply { IfOk result (λ r. r ≡ (length self.old.log, length self.old.log + length (chars text.now))) }
        ensures accepted { OnOk result (insertion_refusal_in true self.old.log version place (chars text.now) ≡ None) }
        ensures next { OnOk result (self.new ≡ record self.old {
          log = self.old.log ++ asked_insertions_in true self.old.log self.old.site version place (chars text.now);
          reserved = self.old.reserved - length (chars text.now);
        }) }
        ensures cause { IfErr result (λ e. (insertion_refusal_in true self.old.log version place (chars text.now) ≡ Some e)
            ⊎ ((insertion_refusal_in true self.old.log version place (chars text.now) ≡ None) × (e ≡ Memory))) }
        ensures err { OnErr result (self.new ≡ self.old) }
    {
        let doc = self.log.doc();
        let ops = insert_ops_units(self.alloc, doc, self.site, version, place, text)?;
        let reply = append_all(&mut self.log, &ops)?;
        self.reserved = self.reserved.saturating_sub(ops.len());
        Ok(reply)
    }

    /// Deletes so many characters from a place of a version on, as the replica's own next operations, and tells the
    /// versions that this led from and to. Refused as `delete_ops` is, with `BadVersion`, `BadCount`, `BadPlace`, `Full`
    /// and `Memory`; then nothing has changed. Takes the steps of `delete_ops`, and those of `Doc::integrate` for each character.
    pub fn submit_del(
        &mut self,
        version: u32,
        place: u32,
        count: u32,
    ) -> Result<(u32, u32), Refusal>
        ensures reply { IfOk result (λ r. r ≡ (length self.old.log, length self.old.log + count)) }
        ensures accepted { OnOk result (deletion_refusal self.old.log version place count ≡ None) }
        ensures next { OnOk result (self.new ≡ record self.old {
          log = self.old.log ++ asked_deletions self.old.log self.old.site version place count;
          reserved = self.old.reserved - count;
        }) }
        ensures cause { IfErr result (λ e. (deletion_refusal self.old.log version place count ≡ Some e)
            ⊎ ((deletion_refusal self.old.log version place count ≡ None) × (e ≡ Memory))) }
        ensures err { OnErr result (self.new ≡ self.old) }
    {
        let doc = self.log.doc();
        let ops = delete_ops(self.alloc, doc, self.site, version, place, count)?;
        let reply = append_all(&mut self.log, &ops)?;
        self.reserved = self.reserved.saturating_sub(ops.len());
        Ok(reply)
    }

    /// The same where the place and the count are of UTF-16 units: the elements that stand there are deleted, of which there may be
    /// fewer. Refused as `delete_ops_units` is; then nothing has changed. Takes the steps of `delete_ops_units`, and those of
    /// `Doc::integrate` for each element.
    pub fn submit_del_units(
        &mut self,
        version: u32,
        place: u32,
        count: u32,
    ) -> Result<(u32, u32), Refusal>
        ensures reply { IfOk result (λ r. r
            ≡ (length self.old.log, length self.old.log + element_count true self.old.log version place count)) }
        ensures accepted { OnOk result (deletion_refusal_in true self.old.log version place count ≡ None) }
        ensures next { OnOk result (self.new ≡ record self.old {
          log = self.old.log ++ asked_deletions_in true self.old.log self.old.site version place count;
          reserved = self.old.reserved - element_count true self.old.log version place count;
        }) }
        ensures cause { IfErr result (λ e. (deletion_refusal_in true self.old.log version place count ≡ Some e)
            ⊎ ((deletion_refusal_in true self.old.log version place count ≡ None) × (e ≡ Memory))) }
        ensures err { OnErr result (self.new ≡ self.old) }
    {
        let doc = self.log.doc();
        let ops = delete_ops_units(self.alloc, doc, self.site, version, place, count)?;
        let reply = append_all(&mut self.log, &ops)?;
        self.reserved = self.reserved.saturating_sub(ops.len());
        Ok(reply)
    }

    /// Takes in an operation from elsewhere, once: it is integrated if all that its site knew is there, and held back
    /// otherwise. After an integration each operation that was held back and has become ready is integrated too, in
    /// order of arrival, or dropped where the log can't have it (Roh and others 2011).
    ///
    /// Refused, in this order: `OwnSite` where it claims to be one of the replica's own that the replica never made;
    /// `Conflict` where another operation with its number is integrated or held; if it isn't ready, `HoldFull` where
    /// 1,024 are held; if it is, `Full` with 131,072 operations, `NotRising` where its sum isn't above that of its site's
    /// last operation, `UnknownElement` where its parent or target is no element, `NotOlder` where its parent's stamp
    /// isn't smaller. `Memory` may come in place of an answer, but only where what is reserved isn't above what is held.
    ///
    /// `OwnSite` takes constant time. Where the number is in the log it takes the steps of `Doc::op`, which reads up to 8 rows.
    /// Else it takes one pass over what is held, to look for the number. An integration takes the steps of `Doc::integrate`
    /// besides, and settling takes one pass over what is held and those steps for each operation that leaves it, and at most one
    /// pass more. A pass takes at most 32 steps for each operation that is held.
    pub fn put(&mut self, op: Op) -> Result<Delivery, Refusal>
        ensures outcome { IfOk result (λ d. (deliver self.old.site self.old.log self.old.held op).outcome ≡ Ok d) }
        ensures next { IfOk result (λ d. self.new ≡ record self.old {
          log = (deliver self.old.site self.old.log self.old.held op).log;
          held = (deliver self.old.site self.old.log self.old.held op).held;
          reserved = self.old.reserved - taken_by d;
        }) }

        // Each cause, and only then; on a refusal all is as before.
        ensures cause { IfErr result (λ e. ((deliver self.old.site self.old.log self.old.held op).outcome ≡ Err e)
            ⊎ ((e ≡ Memory) × (self.old.reserved ≤ length self.old.held))) }
        ensures err { OnErr result (self.new ≡ self.old) }

        // Whatever is handed over.
        ensures lawful { IsLawful self.new.log }
    {
        self.put_copy(&op)
    }

    /// Takes in an operation as `put` does, where the caller keeps it: it is copied whole only where it is held back. An integration
    /// stores its parts, and copies its clock once.
    pub fn put_copy(&mut self, op: &Op) -> Result<Delivery, Refusal>
        ensures outcome { IfOk result (λ d. (deliver self.old.site self.old.log self.old.held op.now).outcome ≡ Ok d) }
        ensures next { IfOk result (λ d. self.new ≡ record self.old {
          log = (deliver self.old.site self.old.log self.old.held op.now).log;
          held = (deliver self.old.site self.old.log self.old.held op.now).held;
          reserved = self.old.reserved - taken_by d;
        }) }

        // Each cause, and only then; on a refusal all is as before.
        ensures cause { IfErr result (λ e. ((deliver self.old.site self.old.log self.old.held op.now).outcome ≡ Err e)
            ⊎ ((e ≡ Memory) × (self.old.reserved ≤ length self.old.held))) }
        ensures err { OnErr result (self.new ≡ self.old) }

        // Whatever is handed over.
        ensures lawful { IsLawful self.new.log }
    {
        let delivery = deliver(self.site, &mut self.log, &mut self.held, self.reserved, op)?;
        if let Delivery::Took { taken, dropped: _ } = delivery {
            self.reserved = self.reserved.saturating_sub(taken as usize);
        }
        Ok(delivery)
    }

    /// The operations of the log from a place on, at most `max`. Refused with `BadRange` where the place is above the
    /// log's length, or `max` is 0 or above 64; and with `Memory`. Takes the steps of `Doc::copy_ops`.
    pub fn ops(&self, after: u32, max: u32) -> Result<Vec<Op>, Refusal>
        ensures ok { IfOk result (λ ops. part_of self.now.log after max ≡ Ok ops.items) }
        ensures cause { IfErr result (λ e. (part_of self.now.log after max ≡ Err e)
            ⊎ (IsOk (part_of self.now.log after max) × (e ≡ Memory))) }
    {
        copy_part(self.log.doc(), after, max)
    }

    /// Reserves memory for `n` operations, those that are held back included: while fewer are held than are reserved
    /// for, `put` and `put_copy` aren't refused with `Memory`. Constant time; nothing grows where so many are reserved already. Refused
    /// with `Memory`, only where fewer are.
    pub fn reserve(&mut self, n: usize) -> Result<(), Refusal>
        ensures ok { OnOk result (self.new ≡ record self.old { reserved = max self.old.reserved n }) }
        ensures err { OnErr result (self.new ≡ self.old) }
        ensures memory { IfErr result (λ e. (e ≡ Memory) × (self.old.reserved < n)) }
    {
        if self.reserved < n {
            let left = MAX_OPERATIONS - self.version() as usize;
            let more = MAX_HELD.min(n).saturating_sub(self.held());
            self.log.reserve(left.min(n))?;
            self.held.reserve(more)?;
            self.reserved = n;
        }
        Ok(())
    }

    /// The newest version: how many operations the log has. Constant time.
    pub fn version(&self) -> u32
        ensures value { result ≡ length self.now.log }
        ensures within { result ≤ MAX_OPERATIONS }
        ensures lawful { IsLawful self.now.log }
    {
        self.log.doc().version()
    }
}
