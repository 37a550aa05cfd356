//! The lines that tell refusals. They stand in the program, so that none needs memory.
ghost use Rattle.std.specs.Prelude.{◌≡◌};
ghost use Rattle.room_model.specs.declared.reply.Reply.TheVariants.{No};
ghost use Rattle.wire_json.specs.Text.{text};
ghost use Rattle.line_engine.specs.Lines.{ended};

use opid::Refusal;

/// The line that tells a refusal, with its LF.
pub(crate) fn refusal_line(why: Refusal) -> &'static str
    ensures { result.now ≡ ended (text (No why)) }
{
    match why {
        Refusal::BadJson => "{\"n\":1,\"r\":\"no\"}\n",
        Refusal::BadField => "{\"n\":2,\"r\":\"no\"}\n",
        Refusal::UnknownKind => "{\"n\":3,\"r\":\"no\"}\n",
        Refusal::NoRoom => "{\"n\":4,\"r\":\"no\"}\n",
        Refusal::NoSession => "{\"n\":5,\"r\":\"no\"}\n",
        Refusal::TooManySessions => "{\"n\":6,\"r\":\"no\"}\n",
        Refusal::BadNumber => "{\"n\":7,\"r\":\"no\"}\n",
        Refusal::BadVersion => "{\"n\":8,\"r\":\"no\"}\n",
        Refusal::BadPlace => "{\"n\":9,\"r\":\"no\"}\n",
        Refusal::BadText => "{\"n\":10,\"r\":\"no\"}\n",
        Refusal::BadCount => "{\"n\":11,\"r\":\"no\"}\n",
        Refusal::Full => "{\"n\":12,\"r\":\"no\"}\n",
        Refusal::HistoryFull => "{\"n\":13,\"r\":\"no\"}\n",
        Refusal::BadSite => "{\"n\":14,\"r\":\"no\"}\n",
        Refusal::BadClock => "{\"n\":15,\"r\":\"no\"}\n",
        Refusal::OwnSite => "{\"n\":16,\"r\":\"no\"}\n",
        Refusal::Conflict => "{\"n\":17,\"r\":\"no\"}\n",
        Refusal::HoldFull => "{\"n\":18,\"r\":\"no\"}\n",
        Refusal::NotRising => "{\"n\":19,\"r\":\"no\"}\n",
        Refusal::UnknownElement => "{\"n\":20,\"r\":\"no\"}\n",
        Refusal::NotOlder => "{\"n\":21,\"r\":\"no\"}\n",
        Refusal::BadHave => "{\"n\":22,\"r\":\"no\"}\n",
        Refusal::BadRange => "{\"n\":23,\"r\":\"no\"}\n",
        Refusal::Busy => "{\"n\":24,\"r\":\"no\"}\n",
        Refusal::Worn => "{\"n\":25,\"r\":\"no\"}\n",
        Refusal::Memory => "{\"n\":26,\"r\":\"no\"}\n",
        Refusal::SiteUsed => "{\"n\":27,\"r\":\"no\"}\n",
        Refusal::BadSnapshot => "{\"n\":28,\"r\":\"no\"}\n",
        Refusal::TooLong => "{\"n\":29,\"r\":\"no\"}\n",
    }
}
