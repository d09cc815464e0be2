//! The ends of tokens that were found ahead.

ghost use Rattle.std.specs.Prelude.{◌≡◌, ◌↔◌, ℕ, ◌+◌, ◌<◌, ◌≤◌, ◌^◌, ◌∷◌, [], List, length, IfSome, IfNone, IsTrue};
ghost use Rattle.std.specs.Str.{IsCharBoundary};
ghost use Rattle.lalrpop_dense.specs.Leading.{AreAhead, last_end};
ghost use Rattle.lalrpop_dense.specs.Internal.Table.{IsTableOf, numbers_of};
ghost use Rattle.lalrpop_dense.specs.Internal.Fused.{IsFusedOf};
ghost use Rattle.lalrpop_dense.specs.Internal.Marks.{ends_of};

use crate::mark::{Engine, Mark, mark_ends, name_patterns};
use crate::table::{Rows, StoredCells};
use lalrpop_dfa::NfaIndex;
use lalrpop_hir::Steps;
use std::marker::Model;

// The most ends that are kept.
const ROOM: usize = 256;

/// Where a token ends, and the strongest pattern that matches it.
///
/// ```
/// use lalrpop_lexer::lexer::dfa::TokenEnd;
///
/// if let Some(TokenEnd { index, end }) = list.ends.get(0) {
///     println!(rt; "pattern {} up to byte {end}", index.index())?;
/// }
/// ```
#[derive(Clone, Copy, Debug)]
pub struct TokenEnd {
    /// The index of the pattern.
    pub index: NfaIndex,
    /// The place in the text, in bytes.
    pub end: usize,
}

/// The ends of tokens that were found ahead, to be handed out one after another. In contracts it is the list of those that are
/// still ahead: of each the pattern, and the place where the token ends.
///
/// It takes no memory beside itself, about 2 kB.
///
/// ```
/// use lalrpop_lexer::lexer::dfa::TokenEnds;
/// use lalrpop_lexer::lexer::nfa::Steps;
///
/// let mut ends = TokenEnds::new();
/// let vain = dense.find_ends("let x", 0, 2048, &mut ends, &mut Steps::new());
/// let first = ends.next(); // the index of a pattern, and 3
/// ```
#[derive(Debug, Drop)]
pub struct TokenEnds {
    marks: [Mark; ROOM],
    // The places of the marks count from here on.
    base: usize,
    // Those from `next` up to `count` are ahead, and have their patterns.
    next: usize,
    count: usize,
}

impl Model for TokenEnds {
    ghost use Rattle.std.specs.Prelude.{ℕ, ◌<◌, ◌≤◌, ◌^◌, List, take, drop, length};
    ghost use Rattle.lalrpop_dense.specs.Internal.Marks.{ends_of};

    ghost Value = { List (ℕ × ℕ) };

    ghost view = { λ e. ends_of e.base (drop e.next (take e.count e.marks)) };

    ghost invariant = { λ e. (e.next ≤ e.count) × (e.count ≤ length e.marks) × (e.base < 2 ^ 63) };
}

// Where the token of the last mark ends, or the place itself if there is no mark.
#[inline(always)]
fn last_place(marks: &[Mark], base: usize) -> usize
    requires { base < 2 ^ 63 }
    ensures { result ≡ last_end base (ends_of base marks.now) }
{
    match marks.last() {
        Some(mark) => base + mark.place as usize,
        None => base,
    }
}

impl TokenEnds {
    /// None are ahead.
    pub fn new() -> TokenEnds
        ensures none { result ≡ [] }
    {
        TokenEnds {
            marks: [Mark {
                place: 0,
                number: 0,
            }; ROOM],
            base: 0,
            next: 0,
            count: 0,
        }
    }

    /// The next end, which is no longer ahead. `None` if none is ahead.
    #[inline(always)]
    pub fn next(&mut self) -> Option<TokenEnd>
        ensures some { IfSome result (λ e. self.old ≡ (e.index, e.end) ∷ self.new) }
        ensures none { IfNone result ((self.old ≡ []) × (self.new ≡ [])) }
    {
        if self.next >= self.count {
            return None;
        }
        let mark = self.marks[self.next];
        self.next += 1;
        Some(TokenEnd {
            index: NfaIndex::new(mark.number as usize),
            end: self.base + mark.place as usize,
        })
    }

    /// Forgets those that are ahead.
    pub fn clear(&mut self)
        ensures none { self.new ≡ [] }
    {
        self.next = 0;
        self.count = 0;
    }

    /// Finds ends as `DenseDfa::find_ends` does.
    pub(crate) fn find(
        &mut self,
        engine: &Engine,
        text: &str,
        at: usize,
        limit: usize,
        steps: &mut Steps,
    ) -> usize
        requires table { IsTableOf engine.now.layout.now (numbers_of engine.now.cells.now) engine.now.dfa.now }
        requires fused { IsFusedOf engine.now.fused.now engine.now.layout.now (numbers_of engine.now.cells.now) }
        requires boundary { IsCharBoundary text.now at }
        ensures ahead { AreAhead engine.now.dfa.now text.now at self.new }
        ensures limit { result ≤ limit }
        ensures cost { steps.new + at ≤ steps.old + last_end at self.new + result }
        ensures read { steps.old + length self.new ≤ steps.new }
    {
        match &engine.fused.cells {
            StoredCells::Narrow(cells) => {
                self.find_by(engine, cells.as_slice(), text, at, limit, steps)
            }
            StoredCells::Wide(cells) => {
                self.find_by(engine, cells.as_slice(), text, at, limit, steps)
            }
        }
    }

    // The same, by the cells of the fused table.
    fn find_by<R: Rows>(
        &mut self,
        engine: &Engine,
        cells: R,
        text: &str,
        at: usize,
        limit: usize,
        steps: &mut Steps,
    ) -> usize
        requires table { IsTableOf engine.now.layout.now (numbers_of engine.now.cells.now) engine.now.dfa.now }
        requires fused { IsFusedOf engine.now.fused.now engine.now.layout.now (numbers_of engine.now.cells.now) }
        requires cells { R.numbers cells ≡ numbers_of engine.now.fused.now.cells }
        requires boundary { IsCharBoundary text.now at }
        ensures ahead { AreAhead engine.now.dfa.now text.now at self.new }
        ensures limit { result ≤ limit }
        ensures cost { steps.new + at ≤ steps.old + last_end at self.new + result }
        ensures read { steps.old + length self.new ≤ steps.new }
    {
        let marked = mark_ends(engine, cells, text, at, limit, &mut self.marks, steps);
        let marks = &mut self.marks[..marked.count];
        name_patterns(cells, engine.layout.width, marks);
        let last = last_place(marks, at);
        self.base = at;
        self.next = 0;
        self.count = marked.count;
        (marked.at - last).min(limit)
    }
}
