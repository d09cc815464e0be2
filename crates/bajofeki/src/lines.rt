//! Lines and columns in a text, block by block.

ghost use Rattle.std.specs.Prelude.{◌≡◌, ◌≢◌, ℕ, ◌+◌, ◌<◌, ◌≤◌, ◌↔◌, ◌⊎◌, drop, IfSome, IfNone, IsSome, IsTrue};
ghost use Rattle.std.specs.Str.{IsCharBoundary};
ghost use Rattle.bajofeki_rules.specs.Position.{IsBefore, position_of};
ghost use Rattle.bajofeki.specs.declared.block.Block.{Block as BlockValue};
ghost use Rattle.bajofeki.specs.Internal.BlockPlaces.{AreCounted, IsCounted, IsMark, ReachesPlace};
ghost use Rattle.bajofeki.specs.Internal.Blocks.{IsBlockAt, size_in};

use crate::block::Block;
use lalrpop_lexer::Position;

// A place in a text: in bytes, and as line and column.
#[derive(Clone, Copy)]
struct Mark {
    at: usize,
    place: Position,
}

// The beginning of a text.
const BEGIN: Mark = Mark {
    at: 0,
    place: Position { line: 1, column: 1 },
};

// Where the block ends that begins at the mark.
fn behind_block(_text: &str, mark: Mark, block: &Block) -> Mark
    requires mark { IsMark _text.now mark }
    requires block { IsCounted (drop mark.at _text.now) block.now }
    ensures mark { IsMark _text.now result }
    ensures at { result.at ≡ mark.at + block.now.size }
{
    match mark.place.then(block.end) {
        Some(place) => Mark {
            at: mark.at + block.size,
            place,
        },
        // No text has 2^63 bytes.
        None => unreachable!(),
    }
}

// Where the stretch of the text ends that begins at the mark.
fn behind_stretch(text: &str, mark: Mark, to: usize) -> Mark
    requires mark { IsMark text.now mark }
    requires order { mark.at ≤ to }
    requires boundary { IsCharBoundary text.now to }
    ensures mark { IsMark text.now result }
    ensures at { result.at ≡ to }
{
    match mark.place.after(&text[mark.at..to]) {
        Some(place) => Mark { at: to, place },
        // No text has 2^63 bytes.
        None => unreachable!(),
    }
}

// The beginning of the block that holds the byte; or the end of the last one, if none does.
fn block_before(text: &str, blocks: &[Block], at: usize) -> Mark
    requires counted { AreCounted text.now blocks.now }
    ensures mark { IsMark text.now result }
    ensures order { result.at ≤ at }
    ensures near { ((b : BlockValue) × IsBlockAt blocks.now b result.at at)
        ⊎ ((result.at ≡ size_in blocks.now) × (size_in blocks.now ≤ at)) }
{
    let mut mark = BEGIN;
    for block in blocks {
        if at - mark.at < block.size {
            return mark;
        }
        mark = behind_block(text, mark, block);
    }
    mark
}

/// The line and column of a byte offset in the text, whose blocks these are. `None` if the offset is past the end or inside a
/// character.
pub(crate) fn position_in(text: &str, blocks: &[Block], at: usize) -> Option<Position>
    requires counted { AreCounted text.now blocks.now }
    ensures boundary { IsSome result ↔ IsCharBoundary text.now at }
    ensures position { IfSome result (λ p. p ≡ position_of text.now at) }
{
    if !text.is_char_boundary(at) {
        return None;
    }
    let mark = behind_stretch(text, block_before(text, blocks, at), at);
    Some(mark.place)
}

// Whether the first place comes before the second.
fn is_before(first: Position, second: Position) -> bool
    ensures before { IsTrue result ↔ IsBefore first second }
{
    first.line < second.line || (first.line == second.line && first.column < second.column)
}

// The beginning of the first block that doesn't end before the place; or the end of the last one, if all do.
fn block_reaching(text: &str, blocks: &[Block], place: Position) -> Mark
    requires counted { AreCounted text.now blocks.now }
    ensures mark { IsMark text.now result }
    ensures front { (n : ℕ) → IsCharBoundary text.now n → n < result.at
        → position_of text.now n ≢ place }
    ensures near { ((b : BlockValue) × ReachesPlace text.now blocks.now b result.at place)
        ⊎ (result.at ≡ size_in blocks.now) }
{
    let mut mark = BEGIN;
    for block in blocks {
        let end = behind_block(text, mark, block);
        if !is_before(end.place, place) {
            return mark;
        }
        mark = end;
    }
    mark
}

// The first mark from this one on that doesn't lie before the place; or the end of the text, if all do.
fn mark_reaching(text: &str, from: Mark, place: Position) -> Mark
    requires mark { IsMark text.now from }
    ensures mark { IsMark text.now result }
    ensures between { (n : ℕ) → IsCharBoundary text.now n → from.at ≤ n → n < result.at
        → position_of text.now n ≢ place }
    ensures reaches { (n : ℕ) → IsCharBoundary text.now n → result.at < n
        → position_of text.now n ≢ place }
{
    let mut mark = from;
    for c in text[from.at..].chars() {
        if !is_before(mark.place, place) {
            return mark;
        }
        mark = behind_stretch(text, mark, mark.at + c.len_utf8());
    }
    mark
}

/// The byte offset of a line and column in the text, whose blocks these are. `None` if the text has no such place.
pub(crate) fn offset_in(text: &str, blocks: &[Block], place: Position) -> Option<usize>
    requires counted { AreCounted text.now blocks.now }
    ensures some { IfSome result (λ at. IsCharBoundary text.now at
        × (position_of text.now at ≡ place)) }
    ensures none { IfNone result ((n : ℕ) → IsCharBoundary text.now n
        → position_of text.now n ≢ place) }
{
    let mark = mark_reaching(text, block_reaching(text, blocks, place), place);
    if mark.place == place {
        Some(mark.at)
    } else {
        None
    }
}
