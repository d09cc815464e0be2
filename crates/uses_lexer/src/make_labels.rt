//! Ranges of values, as labels of edges: making and querying them.

ghost use Rattle.std.specs.Prelude.{◌≡◌, ◌≢◌, ◌↔◌, ◌+◌, ◌-◌, ◌<◌, ◌≤◌, ◌^◌, ◌⊎◌, IsTrue, IfSome, IfNone};
ghost use Rattle.lalrpop_hir.specs.Range.{Covers};
ghost use Rattle.lalrpop_hir.specs.Meet.{Meet};

use lalrpop_hir::{ClassBytesRange, ClassUnicodeRange, Test};

// Needs lalrpop_hir::Test::new: value.
// Needs lalrpop_hir::Test::start: value.
// Needs lalrpop_hir::Test::end: value.
/// The values of the range, each increased by `by`.
pub fn raised(range: &Test, by: u32) -> Test
    requires start { range.now.start + by < 2 ^ 32 }
    requires end { range.now.end + by < 2 ^ 32 }
    ensures { result ≡ record { start = range.now.start + by; end = range.now.end + by } }
{
    Test::new(range.start() + by..=range.end() + by)
}

// Needs lalrpop_hir::Test::char: value.
/// The labels of a letter in both cases.
pub fn in_both_cases(lower: char, upper: char) -> (Test, Test)
    ensures lower { result.0 ≡ record { start = lower; end = lower } }
    ensures upper { result.1 ≡ record { start = upper; end = upper } }
{
    (Test::char(lower), Test::char(upper))
}

// Needs lalrpop_hir::Test::byte: value.
// Needs lalrpop_hir::Test::inclusive_byte_range: value.
/// The label of a byte that marks the bytes after it, and the label of those bytes.
pub fn marked_bytes(mark: u8, first: u8, last: u8) -> (Test, Test)
    ensures mark { result.0 ≡ record { start = mark; end = mark } }
    ensures bytes { result.1 ≡ record { start = first; end = last } }
{
    (Test::byte(mark), Test::inclusive_byte_range(first, last))
}

// Needs lalrpop_hir::Test::exclusive_range: value.
// Needs lalrpop_hir::Test::inclusive_range: value.
/// The characters before the middle, and those from it on.
pub fn halves(first: char, middle: char, last: char) -> (Test, Test)
    requires { 0 < middle }
    ensures lower { result.0 ≡ record { start = first; end = middle - 1 } }
    ensures upper { result.1 ≡ record { start = middle; end = last } }
{
    (
        Test::exclusive_range(first, middle),
        Test::inclusive_range(middle, last),
    )
}

// Needs lalrpop_hir::Test::from: ghost from_gives.
/// The labels of a range of characters of a class, and of one of bytes.
pub fn labels_of(characters: ClassUnicodeRange, bytes: ClassBytesRange) -> (Test, Test)
    ensures of_characters { result.0 ≡ characters }
    ensures of_bytes { result.1 ≡ bytes }
{
    (Test::from(characters), bytes.into())
}

// Needs lalrpop_hir::Test::is_char: answer.
/// The one value of a range that begins and ends with the same value.
pub fn only_value(range: &Test) -> Option<u32>
    ensures one { IfSome result (λ value. range.now ≡ record { start = value; end = value }) }
    ensures none { IfNone result (range.now.start ≢ range.now.end) }
{
    if range.is_char() {
        Some(range.start())
    } else {
        None
    }
}

// Needs lalrpop_hir::Test::len: value.
/// How many values two ranges have together, if they have none in common.
pub fn total_len(left: &Test, right: &Test) -> u32
    requires left_ordered { left.now.start ≤ left.now.end }
    requires right_ordered { right.now.start ≤ right.now.end }
    requires apart { left.now.end < right.now.start }
    requires below_max { right.now.end < 4294967295 }
    ensures { result + left.now.start + right.now.start ≡ left.now.end + 1 + right.now.end + 1 }
{
    left.len() + right.len()
}

// Needs lalrpop_hir::Test::is_empty: answer.
/// Whether the range has some value.
pub fn has_a_value(range: &Test) -> bool
    ensures { IsTrue result ↔ (range.now.start ≤ range.now.end) }
{
    !range.is_empty()
}

// Needs lalrpop_hir::Test::contains_char: answer.
/// Whether the character is in the first range and not in the second.
pub fn is_left_by(range: &Test, without: &Test, c: char) -> bool
    ensures { IsTrue result ↔ (Covers range.now c × (¬ Covers without.now c)) }
{
    range.contains_char(c) && !without.contains_char(c)
}

// Needs lalrpop_hir::Test::contains_u32: answer.
/// Whether the value is in one of the ranges.
pub fn is_in_either(left: &Test, right: &Test, value: u32) -> bool
    ensures { IsTrue result ↔ (Covers left.now value ⊎ Covers right.now value) }
{
    left.contains_u32(value) || right.contains_u32(value)
}

// Needs lalrpop_hir::Test::is_disjoint: answer.
/// Whether the ranges may be labels of two edges that leave one state.
pub fn may_leave_one_state(left: &Test, right: &Test) -> bool
    ensures { IsTrue result ↔ (¬ Meet left.now right.now) }
{
    left.is_disjoint(right)
}

// Needs lalrpop_hir::Test::intersects: answer.
/// Whether some value is in the first range and in the second, and some in the second and in the third.
pub fn are_linked(first: &Test, second: &Test, third: &Test) -> bool
    ensures { IsTrue result ↔ (Meet first.now second.now × Meet second.now third.now) }
{
    first.intersects(second) && second.intersects(third)
}
