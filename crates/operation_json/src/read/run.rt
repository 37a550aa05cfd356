//! A run of insertions: its first character and the text behind that, and the single operations that it stands for.
ghost use Rattle.std.specs.Prelude.{◌≡◌, ◌≤◌, ◌<◌, ◌+◌, ◌++◌, [], ◌∷◌, length, sum, take, drop, option_map, IfErr, IfSome, IfNone, OnOk};
ghost use Rattle.std.specs.Str.{chars};
ghost use Rattle.opid.specs.declared.refusal.Refusal.TheVariants.{BadField, Memory};
ghost use Rattle.operation_json.specs.Packing.{typed_next, typed_behind};
ghost use Rattle.operation_json.specs.PackedOperations.{run_chars};
ghost use Rattle.operation_json.specs.Members.{or_refuse};

use causal_clock::{MAX_SUM, Op};
use opid::{MAX_COUNT, MAX_RUN, OpKind, Refusal, count_characters};

// How many operations of a `put` are kept: one more than a room takes at once.
const MOST: usize = MAX_COUNT as usize + 1;

// What an operation by itself has behind it.
pub(crate) fn no_text() -> &'static str
    ensures { chars result.now ≡ [] }
{
    ""
}

// The first character of a text of 2 to 64, and the text behind it.
pub(crate) fn split_run<'v>(text: &'v str) -> Option<(char, &'v str)>
    ensures told { or_refuse BadField (option_map (λ p. (p.0, chars p.1.now)) result) ≡ run_chars (chars text.now) }
    ensures behind { IfSome result (λ p. chars p.1.now ≡ drop 1 (chars text.now)) }
    ensures few { IfSome result (λ p. length (chars p.1.now) < MAX_RUN) }
{
    let count = count_characters(text);
    if count < 2 || count > MAX_RUN {
        return None;
    }
    split_first(text)
}

/// The text behind the first character of a text. Constant time.
pub fn behind_first(text: &str) -> &str
    ensures { chars result.now ≡ drop 1 (chars text.now) }
{
    match split_first(text) {
        Some((_, more)) => more,
        None => no_text(),
    }
}

// The first character of a text, and the text behind it.
fn split_first<'v>(text: &'v str) -> Option<(char, &'v str)>
    ensures some { IfSome result (λ p. chars text.now ≡ p.0 ∷ chars p.1.now) }
    ensures none { IfNone result (chars text.now ≡ []) }
{
    let Some(ch) = text.chars().next() else {
        return None;
    };
    Some((ch, &text[ch.len_utf8()..]))
}

/// Adds an operation and the insertions that follow it, as long as there are fewer than 65: one more than a `put` may hand over. Refused
/// with `Memory`. Takes time in proportion to what is added, and memory where the list grows.
pub fn unfold_run(ops: &mut Vec<Op>, first: Op, more: &str) -> Result<(), Refusal>
    requires sum { sum first.clock + length (chars more.now) ≤ MAX_SUM }
    requires few { length ops.old.items ≤ 65 }
    ensures ok { OnOk result (ops.new.items ≡ take 65 (ops.old.items ++ (first ∷ typed_behind first (chars more.now)))) }
    ensures memory { IfErr result (λ e. e ≡ Memory) }
{
    if ops.len() >= MOST {
        return Ok(());
    }
    push_kept(ops, first)?;
    let mut last = first;
    for ch in more.chars() {
        if ops.len() >= MOST {
            return Ok(());
        }
        last = next_op(&last, ch);
        push_kept(ops, last)?;
    }
    Ok(())
}

// Adds an operation. The last that is kept gets room for itself alone, since a call that hands over too many is recorded too.
#[inline(always)]
fn push_kept(ops: &mut Vec<Op>, op: Op) -> Result<(), Refusal>
    ensures items { OnOk result (ops.new.items ≡ ops.old.items ++ op ∷ []) }
    ensures memory { IfErr result (λ e. e ≡ Memory) }
{
    if ops.len() + 1 == MOST {
        ops.reserve_exact(1)?;
    }
    ops.push(op)?;
    Ok(())
}

/// The insertion that its site makes by typing one more character behind an operation: its clock is raised at the site, and its
/// parent is the element of the operation. Copies 32 counts.
pub fn next_op(last: &Op, ch: char) -> Op
    requires { sum last.now.clock < MAX_SUM }
    ensures value { result ≡ typed_next last.now ch }
    ensures total { sum result.clock ≡ sum last.now.clock + 1 }
{
    let parent = Some(last.stamp());
    Op::next(last.site(), last.known(), OpKind::Ins { parent, ch })
}
