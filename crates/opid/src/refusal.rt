//! Why a call is refused: one enum for all crates, so that a cause has one number and one name everywhere.
ghost use Rattle.std.specs.Prelude.{◌≡◌};

use std::alloc::{AllocError, AllocFailed};

/// The cause of a refusal. A refused call changes nothing, but that a room records it.
#[derive(Clone, Copy, Debug, Drop, PartialEq, Eq)]
pub enum Refusal {
    /// The bytes are no JSON text.
    BadJson,
    /// The value isn't an object, a key is missing or too many, or a value has a wrong type or range.
    BadField,
    /// The kind names no request.
    UnknownKind,
    /// The room or site isn't there.
    NoRoom,
    /// The session isn't there.
    NoSession,
    /// 64 sessions are there.
    TooManySessions,
    /// The request's number is neither the next nor the last accepted one.
    BadNumber,
    /// The version is below the session's first, above its sent one, or above the newest.
    BadVersion,
    /// The place, or the end of a deletion, is beyond the end of the version.
    BadPlace,
    /// An insertion has no character or more than 64.
    BadText,
    /// A count is 0 or above 64.
    BadCount,
    /// The log would exceed 131,072 operations.
    Full,
    /// 1,048,576 calls are recorded.
    HistoryFull,
    /// A site number is above 31.
    BadSite,
    /// A clock's sites don't strictly rise, an entry is 0, the sum exceeds 131,072, or the operation's own entry is missing.
    BadClock,
    /// An offered operation claims to be a new one of the replica's own site.
    OwnSite,
    /// Another operation has this number.
    Conflict,
    /// 1,024 operations are held back.
    HoldFull,
    /// The sum isn't above that of the same site's last integrated operation.
    NotRising,
    /// The parent or target is no element of the log.
    UnknownElement,
    /// The parent's stamp isn't smaller than the insertion's own.
    NotOlder,
    /// The version that the editor has is below the session's first or above its sent one.
    BadHave,
    /// The part of the log asked for isn't there.
    BadRange,
    /// Another pass was at the value.
    Busy,
    /// The pass has too few draws left.
    Worn,
    /// Memory was refused.
    Memory,
    /// The site is used already.
    SiteUsed,
    /// The bytes are no snapshot.
    BadSnapshot,
    /// The request has more than 65,536 bytes.
    TooLong,
}

impl Refusal {
    ghost use Rattle.opid.specs.Refusals.{number_of, name_of};

    /// The number by which replies tell it, 1 to 29. Constant time.
    pub fn number(self) -> u32
        ensures { result ≡ number_of self }
    {
        match self {
            Refusal::BadJson => 1,
            Refusal::BadField => 2,
            Refusal::UnknownKind => 3,
            Refusal::NoRoom => 4,
            Refusal::NoSession => 5,
            Refusal::TooManySessions => 6,
            Refusal::BadNumber => 7,
            Refusal::BadVersion => 8,
            Refusal::BadPlace => 9,
            Refusal::BadText => 10,
            Refusal::BadCount => 11,
            Refusal::Full => 12,
            Refusal::HistoryFull => 13,
            Refusal::BadSite => 14,
            Refusal::BadClock => 15,
            Refusal::OwnSite => 16,
            Refusal::Conflict => 17,
            Refusal::HoldFull => 18,
            Refusal::NotRising => 19,
            Refusal::UnknownElement => 20,
            Refusal::NotOlder => 21,
            Refusal::BadHave => 22,
            Refusal::BadRange => 23,
            Refusal::Busy => 24,
            Refusal::Worn => 25,
            Refusal::Memory => 26,
            Refusal::SiteUsed => 27,
            Refusal::BadSnapshot => 28,
            Refusal::TooLong => 29,
        }
    }

    /// The name by which messages tell it. Constant time.
    pub fn name(self) -> &'static str
        ensures { result.now ≡ name_of self }
    {
        match self {
            Refusal::BadJson => "BadJson",
            Refusal::BadField => "BadField",
            Refusal::UnknownKind => "UnknownKind",
            Refusal::NoRoom => "NoRoom",
            Refusal::NoSession => "NoSession",
            Refusal::TooManySessions => "TooManySessions",
            Refusal::BadNumber => "BadNumber",
            Refusal::BadVersion => "BadVersion",
            Refusal::BadPlace => "BadPlace",
            Refusal::BadText => "BadText",
            Refusal::BadCount => "BadCount",
            Refusal::Full => "Full",
            Refusal::HistoryFull => "HistoryFull",
            Refusal::BadSite => "BadSite",
            Refusal::BadClock => "BadClock",
            Refusal::OwnSite => "OwnSite",
            Refusal::Conflict => "Conflict",
            Refusal::HoldFull => "HoldFull",
            Refusal::NotRising => "NotRising",
            Refusal::UnknownElement => "UnknownElement",
            Refusal::NotOlder => "NotOlder",
            Refusal::BadHave => "BadHave",
            Refusal::BadRange => "BadRange",
            Refusal::Busy => "Busy",
            Refusal::Worn => "Worn",
            Refusal::Memory => "Memory",
            Refusal::SiteUsed => "SiteUsed",
            Refusal::BadSnapshot => "BadSnapshot",
            Refusal::TooLong => "TooLong",
        }
    }
}

impl From<AllocError> for Refusal {
    ghost use Rattle.std.specs.Prelude.{◌≡◌};
    ghost use Rattle.opid.specs.declared.refusal.Refusal.TheVariants.{Memory};

    ghost from_gives = { λ _ e. e ≡ Memory };

    /// `Memory`. Constant time.
    fn from(_: AllocError) -> Refusal {
        Self::Memory
    }
}

impl<T: Drop> From<AllocFailed<T>> for Refusal {
    ghost use Rattle.std.specs.Prelude.{◌≡◌};
    ghost use Rattle.opid.specs.declared.refusal.Refusal.TheVariants.{Memory};

    ghost from_gives = { λ _ e. e ≡ Memory };

    /// `Memory`. Constant time, beside the drop of what wasn't taken.
    fn from(_: AllocFailed<T>) -> Refusal {
        Refusal::from(AllocError)
    }
}
