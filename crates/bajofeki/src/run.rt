//! The longest match at the front of a text, and what settles it.

ghost use Rattle.std.specs.Prelude.{◌≡◌, ◌≢◌, ℕ, ◌≤◌, ◌<◌, ◌+◌, ◌*◌, ◌^◌, ◌++◌, [], List, Option, length, take, drop, ◌↔◌, true, IfSome, IsTrue};
ghost use Rattle.std.specs.Option.{option_map};
ghost use Rattle.std.specs.List.{All};
ghost use Rattle.std.specs.Str.{chars, encode_utf8_all, IsUtf8};
ghost use Rattle.lalrpop_hir.specs.Tree.{Tree};
ghost use Rattle.lalrpop_hir.specs.Prefix.{IsPrefix};
ghost use Rattle.lalrpop_hir.specs.Longest.{IsLongest};
ghost use Rattle.lalrpop_dfa.specs.Dfa.{Row, RecognizesAll};
ghost use Rattle.lalrpop_dfa.specs.Lookahead.{IsTrim};
ghost use Rattle.lalrpop_dfa.specs.declared.Kind.TheVariants.{Neither};
ghost use Rattle.bajofeki.specs.Lexed.{BeginsLonger};
ghost use Rattle.bajofeki.specs.Internal.Reach.{IsSettledBy};
ghost use Rattle.bajofeki.specs.Internal.Walking.{IsMet, IsRight, IsWalkerOf, behind, says};
ghost use Rattle.bajofeki.specs.Internal.Noted.{IsKnown, IsNoted, IsOver, IsSound, IsStand};
ghost use Rattle.bajofeki.specs.Internal.Paying.{AreDistinct, AreUnknown, IsNew, IsRunPaid, IsVain, size_of};

use crate::memo::{Memo, STRIDE};
use crate::walker::Walker;
use lalrpop_dfa::{Kind, NfaIndex};
use lalrpop_hir::Steps;

/// The longest match at the front of a text.
#[derive(Clone, Copy, Debug)]
pub(crate) struct Settled<'text> {
    // The match, if there is one.
    pub(crate) longest: Option<(NfaIndex, &'text str)>,
    // Where it ends in the text, 0 if there is none, and the place of the walk there.
    pub(crate) end: usize,
    pub(crate) place: usize,
    // How many bytes of the text settle it: one more than it has if a longer text may have a longer match.
    pub(crate) reach: usize,
}

// What a run finds: where the longest match ends in the text, 0 if there is none, and the place of the walk there; how many bytes
// were read; and how many settle it.
#[derive(Clone, Copy)]
struct Run {
    end: usize,
    place: usize,
    read: usize,
    reach: usize,
}

// Whether the place neither accepts nor rejects.
fn is_open(walker: &Walker<'_>, place: usize) -> bool
    requires right { IsRight walker.now }
    requires met { IsMet walker.now place }
    ensures neither { IsTrue result ↔ says walker.now place ≡ Neither }
{
    matches!(walker.kind(place), Kind::Neither)
}

// Notes along the text, before the byte `until` if that is far, that no match comes from the place, which the first `size` bytes settle. The text
// begins at the byte `at` of a longer one.
fn note_all(
    walker: &Walker<'_>,
    memo: &mut Memo,
    mode: usize,
    at: usize,
    from: usize,
    until: usize,
    text: &str,
    size: usize,
    steps: &mut Steps,
)
    requires right { IsRight walker.now }
    requires met { IsMet walker.now from }
    requires over { IsOver walker.now from (chars text.now) size }
    requires fits { at + length text.now < 2 ^ 64 }
    ensures sound { (begin i : ℕ) (all : List ℕ) → begin + i ≡ at → i ≤ length all
        → drop i all ≡ text.now → IsSound walker.now memo.old mode begin all
        → IsSound walker.now memo.new mode begin all }
    ensures others { (m p e n : ℕ) → m ≢ mode → IsNoted memo.new m p e n
        → IsNoted memo.old m p e n }
    ensures stays { (m p e : ℕ) → IsKnown memo.old m p e → IsKnown memo.new m p e }
    ensures whole { memo.new.is_whole ≡ true → memo.old.is_whole ≡ true }
    ensures few { until < 64 → steps.new ≡ steps.old }
    ensures cost { steps.new ≤ steps.old + until }
    ensures news { 64 ≤ until → memo.new.is_whole ≡ true → (vain more : List ℕ)
        → chars text.now ≡ vain ++ more → AreUnknown walker.now memo.old mode at from vain
        → length (encode_utf8_all vain) ≤ until → until ≤ length (encode_utf8_all vain) + 4
        → until ≤ length text.now
        → (news : List (ℕ × (ℕ × ℕ)))
        × (All (IsNew walker.now memo.old memo.new mode at text.now
        (length (encode_utf8_all vain))) news
        × AreDistinct news × (until ≤ 64 * length news + 67)) }
    ensures never_falls { steps.old ≤ steps.new }
    ensures counted { 64 ≤ until → (vain more : List ℕ) → chars text.now ≡ vain ++ more
        → AreUnknown walker.now memo.old mode at from vain → length (encode_utf8_all vain) ≤ until
        → steps.old + length vain ≤ steps.new }
{
    if until < STRIDE {
        return;
    }
    let mut place = from;
    for (offset, c) in text.char_indices() {
        let end = offset + c.len_utf8();
        steps.tick();
        place = walker.next(place, c);
        if end >= until || !is_open(walker, place) {
            return;
        }
        memo.note(mode, place, at + offset, at + end, size - end);
    }
}

// How many bytes settle that no match comes from the place where the text ends: none, or one if some character leads on.
fn left_open(walker: &Walker<'_>, place: usize) -> usize
    requires right { IsRight walker.now }
    requires met { IsMet walker.now place }
    ensures over { IsOver walker.now place [] result }
    ensures few { result ≤ 1 }
{
    if walker.is_last(place) { 0 } else { 1 }
}

// Runs along the text, up to where it is settled that no match comes any more. It begins at the byte `at` of a longer one.
fn run_along(
    walker: &Walker<'_>,
    memo: &Memo,
    mode: usize,
    at: usize,
    text: &str,
    steps: &mut Steps,
) -> Run
    requires right { IsRight walker.now }
    requires fits { at + length text.now < 2 ^ 64 }
    requires sound { IsSound walker.now memo.now mode at text.now }
    ensures stand { (best : Option (ℕ × List ℕ))
        × IsStand walker.now text.now result.end result.place best }
    ensures order { result.end ≤ result.read }
    ensures found { ((n : ℕ) × ((result.reach ≡ result.end + n)
        × IsOver walker.now result.place (chars (drop result.end text.now)) n))
        × ((vain : List ℕ)
        × IsVain walker.now memo.now mode at text.now result.end result.place result.read vain)
        × (steps.new ≤ steps.old + result.read)
        × (steps.old + length (chars (take result.read text.now)) ≤ steps.new) }
{
    let mut matched = 0;
    let mut there = walker.start();
    let mut place = there;
    let mut end = 0;
    'walk: while end < text.len() {
        let begin = end;
        place = walker.read(place, text, &mut end);
        steps.tick();
        match walker.kind(place) {
            Kind::Accepts(_) => {
                matched = end;
                there = place;
            }
            Kind::Reject => {
                return Run {
                    end: matched,
                    place: there,
                    read: end,
                    reach: end,
                };
            }
            Kind::Neither => {
                if let Some(size) = memo.known(mode, place, at + begin, at + end) {
                    return Run {
                        end: matched,
                        place: there,
                        read: end,
                        reach: end + size,
                    };
                }
            }
        }
    }
    Run {
        end: matched,
        place: there,
        read: end,
        reach: end + left_open(walker, place),
    }
}

// The match that a run found.
fn match_at<'text>(
    walker: &Walker<'_>,
    text: &'text str,
    end: usize,
    place: usize,
) -> Option<(NfaIndex, &'text str)>
    requires right { IsRight walker.now }
    requires stand { (best : Option (ℕ × List ℕ)) × IsStand walker.now text.now end place best }
    ensures stand { IsStand walker.now text.now end place
        (option_map (λ m. (m.0, m.1.now)) result) }
{
    if end == 0 {
        return None;
    }
    match walker.kind(place) {
        Kind::Accepts(pattern) => Some((pattern, &text[..end])),
        Kind::Reject | Kind::Neither => unreachable!(),
    }
}

/// The longest nonempty prefix of the text that some pattern matches, with the strongest pattern that matches it, and how many
/// bytes settle it. The text begins at the byte `at` of a longer one, which the memo is for.
pub(crate) fn longest_settled<'text>(
    walker: &Walker<'_>,
    memo: &mut Memo,
    mode: usize,
    at: usize,
    text: &'text str,
    steps: &mut Steps,
) -> Settled<'text>
    requires right { IsRight walker.now }
    requires fits { at + length text.now < 2 ^ 64 }
    requires sound { IsSound walker.now memo.old mode at text.now }
    ensures answer { (d : List Row) (ts : List Tree) (ps : List ℕ) → IsWalkerOf walker.now d
        → RecognizesAll d ts ps
        → IsLongest ts ps text.now (option_map (λ m. (m.0, m.1.now)) result.longest) }
    ensures settled { (d : List Row) (ts : List Tree) (ps : List ℕ) → IsWalkerOf walker.now d
        → RecognizesAll d ts ps → IsSettledBy ts text.now result.reach }
    ensures stand { IsStand walker.now text.now result.end result.place
        (option_map (λ m. (m.0, m.1.now)) result.longest) }
    ensures prefix { IfSome result.longest (λ m. IsPrefix m.1.now text.now × (m.1.now ≢ [])) }
    ensures size { IfSome result.longest (λ m. length m.1.now ≤ result.reach) }
    ensures within { result.reach ≤ length text.now + 1 }
    ensures earliest { length text.now < result.reach
        → (d : List Row) (ts : List Tree) (ps : List ℕ)
        → IsWalkerOf walker.now d → IsTrim d → RecognizesAll d ts ps
        → BeginsLonger ts text.now }
    ensures sound { (begin i : ℕ) (all : List ℕ) → begin + i ≡ at → i ≤ length all
        → drop i all ≡ text.now → IsSound walker.now memo.old mode begin all
        → IsSound walker.now memo.new mode begin all }
    ensures others { (m p e n : ℕ) → m ≢ mode → IsNoted memo.new m p e n
        → IsNoted memo.old m p e n }
    ensures stays { (m p e : ℕ) → IsKnown memo.old m p e → IsKnown memo.new m p e }
    ensures whole { memo.new.is_whole ≡ true → memo.old.is_whole ≡ true }
    ensures all_open { (n : ℕ) → size_of (option_map (λ m. (m.0, m.1.now)) result.longest) < n
        → n < result.reach
        → n ≤ length text.now → IsUtf8 (take n text.now)
        → says walker.now (behind walker.now (chars (take n text.now))) ≡ Neither }
    ensures paid { memo.new.is_whole ≡ true → (news : List (ℕ × (ℕ × ℕ))) × ((far : ℕ)
        × IsRunPaid walker.now memo.old memo.new mode at text.now
        (size_of (option_map (λ m. (m.0, m.1.now)) result.longest)) steps.old steps.new news far) }
    ensures never_falls { steps.old ≤ steps.new }
{
    let run = run_along(walker, memo, mode, at, text, steps);
    let longest = match_at(walker, text, run.end, run.place);
    note_all(
        walker,
        memo,
        mode,
        at + run.end,
        run.place,
        run.read - run.end,
        &text[run.end..],
        run.reach - run.end,
        steps,
    );
    Settled {
        longest,
        end: run.end,
        place: run.place,
        reach: run.reach,
    }
}
