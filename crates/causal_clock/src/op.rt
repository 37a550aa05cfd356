//! Operations: what a site did, with the clock that tells what it knew (Roh and others 2011).
ghost use Rattle.std.specs.Prelude.{◌≡◌, ◌↔◌, ◌<◌, ◌+◌, sum, IsOk, IfOk, IfErr};
ghost use Rattle.opid.specs.declared.refusal.Refusal.TheVariants.{BadClock};
ghost use Rattle.opid.specs.Clocks.{entry, raised};
ghost use Rattle.opid.specs.Operations.{stamp_of, number_of};
ghost use Rattle.opid.specs.Kinds.{IsOperation};

use crate::clock::{Clock, MAX_SUM};
use opid::{OpKind, Refusal, Site, Stamp};
use std::fmt;
use std::marker::Model;

/// An operation of a site. Its clock counts it: the own entry is at least 1.
#[derive(Clone, Copy, PartialEq, Eq)]
pub struct Op {
    // The site stands last: where it is first, a clock that is put behind it is copied with the three bytes between, from odd places.
    clock: Clock,
    kind: OpKind,
    site: Site,
}

impl Model for Op {
    ghost use Rattle.opid.specs.Operations.{Operation};
    ghost use Rattle.opid.specs.Kinds.{IsOperation};

    ghost Value = { Operation };

    ghost view = { λ o. record { site = o.site; clock = o.clock; kind = o.kind } };

    ghost invariant = { λ o. IsOperation (record { site = o.site; clock = o.clock; kind = o.kind }) };

    ghost inverse = { λ x. record { site = x.site; clock = x.clock; kind = x.kind } };
}

impl fmt::Debug for Op {
    fn fmt<W: fmt::Write>(&self, f: &mut fmt::Formatter<W>) -> fmt::Result {
        f.debug_struct("Op")
            .field("site", &self.site)
            .field("clock", &self.clock)
            .field("kind", &self.kind)
            .finish()
    }
}

impl Op {
    /// An operation of the site with this clock. Refused with `BadClock` exactly where the clock doesn't count it.
    /// Copies 32 counts.
    pub fn new(site: Site, clock: Clock, kind: OpKind) -> Result<Op, Refusal>
        ensures value { IfOk result (λ op. op ≡ record { site = site; clock = clock; kind = kind }) }
        ensures accepted { IsOk result ↔ (0 < entry clock site) }
        ensures cause { IfErr result (λ e. e ≡ BadClock) }
    {
        let known = &clock;
        if known.entry(site) == 0 {
            return Err(Refusal::BadClock);
        }
        Ok(Op { clock, kind, site })
    }

    /// The site's next operation after those that a clock counts. Copies 32 counts.
    pub fn next(site: Site, known: &Clock, kind: OpKind) -> Op
        requires { sum known.now < MAX_SUM }
        ensures value { result ≡ record { site = site; clock = raised known.now site; kind = kind } }
        ensures total { sum result.clock ≡ sum known.now + 1 }
    {
        let mut clock = *known;
        clock.raise(site);
        prove!(site.number() < 32);
        prove!(clock.entry(site) > 0);
        Op::told(site, clock, kind)
    }

    /// The operation of a site with this clock, which counts it.
    #[inline(always)]
    pub(crate) fn told(site: Site, clock: Clock, kind: OpKind) -> Op
        requires { IsOperation (record { site = site; clock = clock; kind = kind }) }
        ensures { result ≡ record { site = site; clock = clock; kind = kind } }
    {
        Op { clock, kind, site }
    }

    /// The site that made it. Constant time.
    pub fn site(&self) -> Site
        ensures value { result ≡ self.now.site }
        ensures kept { IsOperation self.now }
    {
        self.site
    }

    /// Its clock: the operations that its site knew, and itself. Copies 32 counts.
    pub fn clock(&self) -> Clock
        ensures value { result ≡ self.now.clock }
        ensures kept { IsOperation self.now }
    {
        self.clock
    }

    /// Its clock, where it is only looked at: nothing is copied. Constant time.
    pub fn known(&self) -> &Clock
        ensures value { result.now ≡ self.now.clock }
        ensures kept { IsOperation self.now }
    {
        &self.clock
    }

    /// What it does to the document. Constant time.
    pub fn kind(&self) -> OpKind
        ensures { result ≡ self.now.kind }
    {
        self.kind
    }

    /// Its stamp: the sum of its clock, and its site. Constant time.
    pub fn stamp(&self) -> Stamp
        ensures { result ≡ stamp_of self.now }
    {
        Stamp {
            sum: self.clock.sum(),
            site: self.site,
        }
    }

    /// Its number: its site, and how many operations that site has made with it. Constant time.
    pub fn number(&self) -> (Site, u32)
        ensures value { result ≡ number_of self.now }
        ensures counted { 0 < result.1 }
    {
        (self.site, self.clock.entry(self.site))
    }
}
