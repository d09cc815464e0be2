//! The piece at the front of bytes, of which some may be of no character.

ghost use Rattle.std.specs.Prelude.{◌≡◌, ◌≢◌, ◌+◌, ◌-◌, ◌^◌, ◌<◌, ◌≤◌, ℕ, [], length, take, drop, true, false, IfSome, IfNone, IsSome};
ghost use Rattle.std.specs.Str.{IsUtf8};
ghost use Rattle.lalrpop_rules.specs.Modes.{trees_in};
ghost use Rattle.bajofeki.specs.Begun.{IsBad};
ghost use Rattle.bajofeki.specs.Chunked.{IsOpenIn};
ghost use Rattle.bajofeki.specs.Internal.Held.{IsHeld};
ghost use Rattle.bajofeki.specs.Internal.Noted.{IsCutter, IsNoted, IsSound};
ghost use Rattle.bajofeki.specs.Internal.Parts.{IsGiven, IsPart, IsParted, KeepsPart, Tells, TellsTurn, size_in_fault, text_in};
ghost use Rattle.bajofeki.specs.Internal.Walking.{IsRight, IsWalkerOf};

use crate::cutter::Cutter;
use crate::front::front_piece;
use crate::held_run::{HeldRun, is_held};
use crate::memo::Memo;
use crate::text_front::front_of;
use crate::walker::Walker;
use lalrpop_hir::Steps;
use lalrpop_lexer::Lexer;
use lalrpop_lexer::lexer::dfa::NfaIndex;
use lalrpop_rules::RuleLexer;
use std::alloc::Global;

/// A piece: its rule, none in a fault; and how many bytes it has.
#[derive(Clone, Copy)]
pub(crate) struct FrontPiece {
    pub(crate) rule: Option<NfaIndex>,
    pub(crate) size: usize,
}

// What a text tells of bytes that begin with it: their piece; that nothing matches in it; or that what comes may change the piece,
// whether something matches at its front, and at how many bytes nothing does, whatever comes.
#[derive(Clone, Copy)]
enum Told {
    Whole(FrontPiece),
    Nothing,
    Open(bool, usize),
}

// What a text tells, after which no character comes if it is the last. It begins at the byte `at` of a longer one, which the memo
// is for.
fn told_by(
    lexer: &Lexer,
    walker: &Walker<'_>,
    memo: &mut Memo,
    mode: usize,
    at: usize,
    text: &str,
    is_last: bool,
) -> Told
    requires right { IsRight walker.now }
    requires same { IsWalkerOf walker.now lexer.now.automaton }
    requires fits { at + length text.now < 2 ^ 64 }
    requires sound { IsSound walker.now memo.old mode at text.now }
    ensures told { Tells lexer.now.trees lexer.now.precedences text.now is_last result }
    ensures sound { IsSound walker.now memo.new mode at text.now }
    ensures others { (m p e n : ℕ) → m ≢ mode → IsNoted memo.new m p e n
        → IsNoted memo.old m p e n }
{
    if text.is_empty() {
        return if is_last {
            Told::Nothing
        } else {
            Told::Open(false, 0)
        };
    }
    let front = front_piece(lexer, walker, memo, mode, at, text, &mut Steps::new());
    let piece = FrontPiece {
        rule: front.rule,
        size: front.size,
    };
    let is_match = front.rule.is_some();
    if front.reach <= text.len() {
        return Told::Whole(piece);
    }
    if !is_last {
        return Told::Open(is_match, front.void);
    }
    if is_match || front.size < text.len() {
        return Told::Whole(piece);
    }
    Told::Nothing
}

// The same in a mode, along whose walk the cutter goes.
fn mode_told(
    lexer: &RuleLexer,
    cutter: &mut Cutter<'_>,
    mode: usize,
    at: usize,
    text: &str,
    is_last: bool,
) -> Told
    requires there { mode < lexer.now.modes }
    requires cutter { IsCutter lexer.now cutter.old at text.now }
    requires fits { at + length text.now < 2 ^ 64 }
    ensures told { Tells (trees_in lexer.now mode) lexer.now.precedences text.now is_last result }
    ensures cutter { IsCutter lexer.now cutter.new at text.now }
{
    let walker = &cutter.walkers[mode];
    told_by(
        lexer.lexer(mode),
        walker,
        &mut cutter.memo,
        mode,
        at,
        text,
        is_last,
    )
}

/// A text in bytes that have come, before which nothing matches. After it a byte follows that is of no character, if `is_bad`; else
/// nothing but a character that has begun. So no byte is decoded again.
#[derive(Clone, Copy)]
pub(crate) struct Part {
    pub(crate) from: usize,
    pub(crate) ends: usize,
    pub(crate) is_bad: bool,
}

impl Part {
    /// The text at the front of the bytes.
    pub(crate) fn of(bytes: &[u8]) -> Part
        ensures parted { IsParted bytes.now result }
        ensures front { result.from ≡ 0 }
    {
        let front = front_of(bytes);
        Part {
            from: 0,
            ends: front.text.len(),
            is_bad: front.is_bad,
        }
    }

    /// The text, which was looked at when it came.
    pub(crate) fn text<'bytes>(&self, bytes: &'bytes [u8]) -> &'bytes str
        requires parted { IsParted bytes.now self.now }
        ensures text { result.now ≡ text_in bytes.now self.now }
    {
        unsafe { std::str::from_utf8_unchecked(&bytes[self.from..self.ends]) }
    }

    /// Reads on where the text ended, after which more has come.
    pub(crate) fn read_on(&mut self, bytes: &[u8])
        requires within { self.old.ends ≤ length bytes.now }
        ensures from { self.new.from ≡ self.old.from }
        ensures order { self.old.ends ≤ self.new.ends }
        ensures parted { self.old.from ≤ self.old.ends → IsUtf8 (text_in bytes.now self.old)
            → (self.old.is_bad ≡ true → IsBad (drop self.old.ends bytes.now))
            → IsParted bytes.now self.new }
    {
        if self.is_bad {
            return;
        }
        let more = Part::of(&bytes[self.ends..]);
        self.ends += more.ends;
        self.is_bad = more.is_bad;
    }

    // The text after the byte of no character that follows.
    fn after_bad(&self, bytes: &[u8]) -> Part
        requires bad { self.now.is_bad ≡ true }
        requires parted { IsParted bytes.now self.now }
        ensures from { result.from ≡ self.now.ends + 1 }
        ensures parted { IsParted bytes.now result }
    {
        let from = self.ends + 1;
        let more = Part::of(&bytes[from..]);
        Part {
            from,
            ends: from + more.ends,
            is_bad: more.is_bad,
        }
    }

    /// What is left of it after a piece of this size, if the piece ends in it.
    pub(crate) fn after(&self, size: usize) -> Option<Part>
        ensures some { IfSome result (λ p. (size ≤ self.now.ends)
            × (p ≡ record { from = 0; ends = self.now.ends - size; is_bad = self.now.is_bad })) }
        ensures none { IfNone result (self.now.ends < size) }
    {
        if size > self.ends {
            return None;
        }
        Some(Part {
            from: 0,
            ends: self.ends - size,
            is_bad: self.is_bad,
        })
    }
}

// What a part of the bytes tells of the piece at their front: it is given; or held back; or nothing matches in the part.
#[derive(Clone, Copy)]
enum Turn {
    Given(FrontPiece),
    Held,
    Void,
}

// The piece, or the fault that ends before it or with it, if bytes of one lie before it.
fn after_void(from: usize, piece: &FrontPiece) -> FrontPiece
    requires fits { from + piece.now.size < 2 ^ 64 }
    ensures token { from ≡ 0 → (result.rule ≡ piece.now.rule) × (result.size ≡ piece.now.size) }
    ensures fault { 0 < from → (result.rule ≡ None)
        × (result.size ≡ from + size_in_fault piece.now.rule piece.now.size) }
{
    if from == 0 {
        return *piece;
    }
    match piece.rule {
        Some(_) => FrontPiece {
            rule: None,
            size: from,
        },
        None => FrontPiece {
            rule: None,
            size: from + piece.size,
        },
    }
}

// Holds a run from the front of the text.
fn hold<'a>(lexer: &'a RuleLexer, mode: usize, text: &str, held: &mut Option<HeldRun<'a>>)
    requires there { mode < lexer.now.modes }
    ensures held { IfSome held.new (IsHeld lexer.now mode text.now) }
{
    *held = Some(HeldRun::new(lexer, mode));
    is_held(lexer, mode, text, false, held);
}

// What the part tells. If what comes may change the piece, the part begins after the bytes of it at which nothing matches, and a run
// is held from there.
#[inline(always)]
fn part_told<'a>(
    lexer: &'a RuleLexer,
    cutter: &mut Cutter<'_>,
    held: &mut Option<HeldRun<'a>>,
    part: &mut Part,
    mode: usize,
    at: usize,
    bytes: &[u8],
    is_ended: bool,
) -> Turn
    requires there { mode < lexer.now.modes }
    requires part { IsPart (trees_in lexer.now mode) bytes.now part.old }
    requires cutter { IsCutter lexer.now cutter.old (at + part.old.from) (text_in bytes.now part.old) }
    requires run { IfSome held.old (IsHeld lexer.now mode (text_in bytes.now part.old)) }
    requires fits { at + length bytes.now < 2 ^ 64 }
    ensures told { TellsTurn (trees_in lexer.now mode) lexer.now.precedences bytes.now
        is_ended part.old result }
    ensures same { KeepsPart result → part.new ≡ part.old }
    ensures part { IsPart (trees_in lexer.now mode) bytes.now part.new }
    ensures cutter { IsCutter lexer.now cutter.new (at + part.new.from) (text_in bytes.now part.new) }
    ensures run { IfSome held.new (IsHeld lexer.now mode (text_in bytes.now part.new)) }
{
    let from = part.from;
    let text = part.text(bytes);
    let is_last = is_ended || part.is_bad;
    if !is_last && is_held(lexer, mode, text, from > 0, held) {
        return Turn::Held;
    }
    match mode_told(lexer, cutter, mode, at + from, text, is_last) {
        Told::Whole(piece) => Turn::Given(after_void(from, &piece)),
        Told::Nothing => Turn::Void,
        Told::Open(is_match, void) => {
            if is_match && from > 0 {
                return Turn::Given(FrontPiece {
                    rule: None,
                    size: from,
                });
            }
            part.from = from + void;
            hold(lexer, mode, &text[void..], held);
            Turn::Held
        }
    }
}

/// The piece at the front of bytes, the first at the byte `at` of a longer text, if no more of them can change it. The part is of these
/// bytes, and the cutter and the run that is held are of its text; so they are afterwards.
pub(crate) fn final_front<'a>(
    alloc: Global,
    lexer: &'a RuleLexer,
    kept: &mut Option<Cutter<'_>>,
    held: &mut Option<HeldRun<'a>>,
    part: &mut Part,
    mode: usize,
    at: usize,
    bytes: &[u8],
    is_ended: bool,
) -> Option<FrontPiece>
    requires there { mode < lexer.now.modes }
    requires some { IsSome kept.old }
    requires part { IsPart (trees_in lexer.now mode) bytes.now part.old }
    requires cutter { IfSome kept.old (λ c. IsCutter lexer.now c (at + part.old.from)
        (text_in bytes.now part.old)) }
    requires run { IfSome held.old (IsHeld lexer.now mode (text_in bytes.now part.old)) }
    requires fits { at + length bytes.now < 2 ^ 64 }
    ensures given { IfSome result (IsGiven (trees_in lexer.now mode) lexer.now.precedences bytes.now
        is_ended part.new) }
    ensures empty { IfNone result (is_ended ≡ true → bytes.now ≡ []) }
    ensures held { IfNone result (is_ended ≡ false → IsOpenIn (trees_in lexer.now mode) bytes.now) }
    ensures part { IsPart (trees_in lexer.now mode) bytes.now part.new }
    ensures cutter { IfSome kept.new (λ c. IsCutter lexer.now c (at + part.new.from)
        (text_in bytes.now part.new)) }
    ensures run { IfSome held.new (IsHeld lexer.now mode (text_in bytes.now part.new)) }
{
    let Some(cutter) = kept else {
        unreachable!();
    };
    'parts: loop {
        match part_told(lexer, cutter, held, part, mode, at, bytes, is_ended) {
            Turn::Given(piece) => return Some(piece),
            Turn::Held => return None,
            Turn::Void => {}
        }
        if !part.is_bad {
            return all_of(bytes);
        }
        *part = part.after_bad(bytes);
        cutter.forget(alloc);
        *held = None;
    }
}

// All bytes as a fault; none if there are none.
fn all_of(bytes: &[u8]) -> Option<FrontPiece>
    ensures some { IfSome result (λ f. (bytes.now ≢ []) × (f.rule ≡ None) × (f.size ≡ length bytes.now)) }
    ensures none { IfNone result (bytes.now ≡ []) }
{
    if bytes.is_empty() {
        return None;
    }
    Some(FrontPiece {
        rule: None,
        size: bytes.len(),
    })
}
