//! What stands left of the `=`: a name, `skip`, and actions.
ghost use Rattle.std.specs.Prelude.{◌≡◌, ◌≢◌, ◌<◌, ◌++◌, ℕ, List, [], Bool, true, false, codes, length, map, IfOk, IfErr, IfSome, IfNone};
ghost use Rattle.lalrpop_rule_file.specs.Words.{IsSpan, begins, begins_name as can_begin_name, is_blank, is_of_name};
ghost use Rattle.lalrpop_rule_file.specs.RuleLine.{Head, Start, Named, Entering, Equals, Reads, Enters, acting, bare, word_of};
ghost use Rattle.lalrpop_rule_file.specs.RuleFault.{StopsBefore};
ghost use Rattle.lalrpop_rule_file.specs.Internal.Values.{ArePlaced, IsNameIn, IsPlaced, entry_of, head_of, head_with, written_of};
ghost use Rattle.lalrpop_rule_file.specs.Internal.Stops.{IsUnread, NoActionAt};

use crate::error::LineFault;
use crate::span::{Class, split_front};
use crate::stop::{Stop, Unread};
use crate::word::{begins_name, behind, behind_word};
use crate::written::{Entry, LineHead, LineName, WrittenAction};
use std::alloc::Global;

/// The name at the front of a line that isn't a section, and what follows it after blanks.
pub(crate) fn name_and_rest(line: &str) -> Result<(LineName<'_>, &str), Stop<'_>>
    requires { (lead right : List ℕ) → ¬ IsSpan is_blank line.now lead (codes "[" ++ right) }
    ensures named { IfOk result (λ m. Reads Start line.now (Named (bare m.0.name.now)) m.1.now) }
    ensures placed { IfOk result (λ m. IsNameIn line.now m.0) }
    ensures no_blank { IfOk result (λ m. begins is_blank m.1.now ≡ false) }
    ensures stops { IfErr result (λ stop. StopsBefore Start line.now stop.rest.now stop.fault) }
{
    let (_, here) = split_front(line, Class::Blank);
    if !begins_name(here) {
        return Err(Stop {
            fault: LineFault::NoName,
            rest: here,
        });
    }
    let (name, behind) = split_front(here, Class::Name);
    let (_, rest) = split_front(behind, Class::Blank);
    Ok((LineName { name, here }, rest))
}

// Whether `skip` follows a name, and what is after it.
fn mark_at(text: &str) -> (bool, &str)
    requires { begins is_blank text.now ≡ false }
    ensures marked { (name : List ℕ) → Reads (Named (bare name)) text.now
        (Named (head_with name result.0 [])) result.1.now }
    ensures no_blank { begins is_blank result.1.now ≡ false }
    ensures same { result.0 ≡ false → result.1.now ≡ text.now }
    ensures no_skip { result.0 ≡ false → (behind : List ℕ)
        → ¬ IsSpan is_of_name text.now (codes "skip") behind }
{
    match behind_word(text, "skip") {
        Some(behind) => {
            let (_, here) = split_front(behind, Class::Blank);
            (true, here)
        }
        None => (false, text),
    }
}

// The word `mode` or `push` at the front, and what follows it.
fn entry_at(text: &str) -> Option<(Entry, &str)>
    ensures some { IfSome result (λ m.
        IsSpan is_of_name text.now (word_of (entry_of m.0)) m.1.now) }
    ensures none { IfNone result ((entry : Entry) (behind : List ℕ)
        → ¬ IsSpan is_of_name text.now (word_of (entry_of entry)) behind) }
{
    if let Some(behind) = behind_word(text, "mode") {
        return Some((Entry::Mode, behind));
    }
    if let Some(behind) = behind_word(text, "push") {
        return Some((Entry::Push, behind));
    }
    None
}

// The action that begins with this word, and what follows it after blanks. The name of its mode is at the front of the text.
fn entering<'text>(
    entry: Entry,
    text: &'text str,
) -> Result<(WrittenAction<'text>, &'text str), Stop<'text>>
    ensures acts { IfOk result (λ m. (head : Head)
        → Reads (Entering head (entry_of entry)) text.now
        (Named (acting head (written_of m.0))) m.1.now) }
    ensures placed { IfOk result (λ m. (head : Head)
        → IsPlaced (Entering head (entry_of entry)) text.now head m.0) }
    ensures no_blank { IfOk result (λ m. begins is_blank m.1.now ≡ false) }
    ensures shorter { IfOk result (λ m. length m.1.now < length text.now) }
    ensures stops { IfErr result (λ stop. (head : Head)
        → StopsBefore (Entering head (entry_of entry)) text.now stop.rest.now stop.fault) }
{
    let (_, here) = split_front(text, Class::Blank);
    if !begins_name(here) {
        return Err(Stop {
            fault: LineFault::NoMode,
            rest: here,
        });
    }
    let (mode, behind) = split_front(here, Class::Name);
    let (_, rest) = split_front(behind, Class::Blank);
    Ok((WrittenAction::Enter { entry, mode, here }, rest))
}

// The action at the front, and what follows it after blanks; `None` if none is there.
fn action_at(text: &str) -> Result<Option<(WrittenAction<'_>, &str)>, Stop<'_>>
    ensures acts { IfOk result (λ found. IfSome found (λ m. (head : Head)
        → Reads (Named head) text.now (Named (acting head (written_of m.0))) m.1.now)) }
    ensures placed { IfOk result (λ found. IfSome found (λ m. (head : Head)
        → IsPlaced (Named head) text.now head m.0)) }
    ensures no_blank { IfOk result (λ found. IfSome found (λ m. begins is_blank m.1.now ≡ false)) }
    ensures shorter { IfOk result (λ found. IfSome found (λ m. length m.1.now < length text.now)) }
    ensures none { IfOk result (λ found. IfNone found (NoActionAt text.now)) }
    ensures stops { IfErr result (λ stop. (head : Head)
        → StopsBefore (Named head) text.now stop.rest.now stop.fault) }
{
    if let Some(behind) = behind_word(text, "pop") {
        let (_, rest) = split_front(behind, Class::Blank);
        return Ok(Some((WrittenAction::Pop, rest)));
    }
    match entry_at(text) {
        Some(found) => {
            let action = entering(found.0, found.1)?;
            Ok(Some(action))
        }
        None => Ok(None),
    }
}

// The actions at the front, and what follows them.
fn actions_at<'text>(
    alloc: Global,
    text: &'text str,
) -> Result<(Vec<WrittenAction<'text>>, &'text str), Unread<'text>>
    requires { begins is_blank text.now ≡ false }
    ensures acts { IfOk result (λ m. (name : List ℕ) (skipped : Bool)
        → Reads (Named (head_with name skipped [])) text.now
        (Named (head_with name skipped m.0.items)) m.1.now) }
    ensures placed { IfOk result (λ m. (name : List ℕ) (skipped : Bool)
        → ArePlaced (Named (head_with name skipped [])) text.now name skipped m.0.items) }
    ensures no_blank { IfOk result (λ m. begins is_blank m.1.now ≡ false) }
    ensures none { IfOk result (λ m. NoActionAt m.1.now) }
    ensures no_skip { IfOk result (λ m. m.0.items ≡ [] → m.1.now ≡ text.now) }
    ensures unread { IfErr result (λ e. (name : List ℕ) (skipped : Bool)
        → IsUnread (Named (head_with name skipped [])) text.now e) }
{
    let mut actions = Vec::new(alloc);
    let mut rest = text;
    while let Some(found) = action_at(rest)? {
        actions.push(found.0)?;
        rest = found.1;
    }
    Ok((actions, rest))
}

/// What follows an `=` at the front.
pub(crate) fn behind_equals(rest: &str) -> Result<&str, Stop<'_>>
    ensures equals { IfOk result (λ right. rest.now ≡ codes "=" ++ right.now) }
    ensures none { IfErr result (λ _. (right : List ℕ) → rest.now ≢ codes "=" ++ right) }
    ensures stops { IfErr result (λ stop.
        (stop.fault ≡ LineFault.NoEquals) × (stop.rest.now ≡ rest.now)) }
{
    match behind(rest, '=') {
        Some(right) => Ok(right),
        None => Err(Stop {
            fault: LineFault::NoEquals,
            rest,
        }),
    }
}

/// What stands left of the `=` of a rule with this name, and what is right of it. The text is what follows the name.
pub(crate) fn left_part<'text>(
    alloc: Global,
    name: &'text str,
    text: &'text str,
) -> Result<(LineHead<'text>, &'text str), Unread<'text>>
    requires no_blank { begins is_blank text.now ≡ false }
    requires no_part { (behind : List ℕ) → ¬ IsSpan is_of_name text.now (codes "part") behind }
    ensures left { IfOk result (λ m.
        Reads (Named (bare name.now)) text.now (Equals (head_of m.0) None) m.1.now) }
    ensures placed { IfOk result (λ m. ArePlaced (Named (bare name.now)) text.now
        m.0.name.now m.0.is_skipped m.0.actions.items) }
    ensures unread { IfErr result (λ e. IsUnread (Named (bare name.now)) text.now e) }
{
    let (is_skipped, behind) = mark_at(text);
    let (actions, rest) = actions_at(alloc, behind)?;
    let right = behind_equals(rest)?;
    let head = LineHead {
        name,
        is_skipped,
        actions,
    };
    Ok((head, right))
}
