//! Operations as they are offered, before their sites and clocks are checked. They borrow the JSON list of the clock's
//! pairs, so that reading one operation takes no memory.
use opid::{OpKind, Site};
use serde_json::Value;
use std::marker::Model;

/// An operation object's members, with sites of any number. Each value of `pairs` is a pair.
#[derive(Drop)]
pub(crate) struct Offer<'v> {
    pub(crate) site: u32,
    pub(crate) pairs: &'v [Value],
    pub(crate) kind: OfferedKind,
}

/// What an offered operation does. A stamp is its sum and its site.
#[derive(Clone, Copy, Drop)]
pub(crate) enum OfferedKind {
    Ins {
        parent: Option<(u32, u32)>,
        ch: char,
    },
    Del {
        target: (u32, u32),
    },
}

impl<'v> Model for Offer<'v> {
    ghost use Rattle.operation_json.specs.Operations.{Offer as Offered};
    ghost use Rattle.operation_json.specs.Internal.Offers.{offered_kind, pairs_in};

    ghost Value = { Offered };

    ghost view = { λ o. record { site = o.site; pairs = pairs_in o.pairs.now; kind = offered_kind o.kind } };
}

/// An offer whose sites are sites, those of `pairs` too.
#[derive(Drop)]
pub(crate) struct SitedOffer<'v> {
    pub(crate) site: Site,
    pub(crate) pairs: &'v [Value],
    pub(crate) kind: OpKind,
}

impl<'v> Model for SitedOffer<'v> {
    ghost use Rattle.std.specs.Prelude.{◌≡◌, Ok};
    ghost use Rattle.operation_json.specs.Operations.{Offer as Offered, each, sited_pair};
    ghost use Rattle.operation_json.specs.Internal.Offers.{pairs_in};

    ghost Value = { Offered };

    ghost view = { λ o. record { site = o.site; pairs = pairs_in o.pairs.now; kind = o.kind } };

    ghost invariant = { λ o. each sited_pair (pairs_in o.pairs.now) ≡ Ok (pairs_in o.pairs.now) };
}

/// An operation object's or a run object's members, and the text of the insertions that follow the first.
#[derive(Drop)]
pub(crate) struct ItemOffer<'v> {
    pub(crate) first: Offer<'v>,
    pub(crate) more: &'v str,
}

impl<'v> Model for ItemOffer<'v> {
    ghost use Rattle.operation_json.specs.PackedOperations.{ItemOffer as OfferedItem};

    ghost Value = { OfferedItem };

    ghost use Rattle.std.specs.Str.{chars};

    ghost view = { λ o. record { first = o.first; more = chars o.more.now } };
}

/// The same, whose sites are sites.
#[derive(Drop)]
pub(crate) struct SitedItem<'v> {
    pub(crate) first: SitedOffer<'v>,
    pub(crate) more: &'v str,
}

impl<'v> Model for SitedItem<'v> {
    ghost use Rattle.operation_json.specs.PackedOperations.{ItemOffer as OfferedItem};

    ghost Value = { OfferedItem };

    ghost use Rattle.std.specs.Str.{chars};

    ghost view = { λ o. record { first = o.first; more = chars o.more.now } };
}
