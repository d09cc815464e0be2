//! Ranges of values, as labels of edges.
ghost use Rattle.std.specs.Prelude.{◌≡◌, ◌↔◌, ◌+◌, ◌-◌, ◌<◌, ◌≤◌, IsTrue};
ghost use Rattle.std.specs.Range.{range_inclusive_start, range_inclusive_end};
ghost use Rattle.lalrpop_hir.specs.Range.{Covers};
ghost use Rattle.lalrpop_hir.specs.Meet.{Meet};

use crate::{ClassBytesRange, ClassUnicodeRange};
use std::fmt;
use std::marker::Model;
use std::ops::RangeInclusive;

/// The values from a start to an end, both included; empty if the start is above the end.
///
/// ```
/// use lalrpop_lexer::lexer::nfa::Test;
///
/// let letters = Test::inclusive_range('a', 'z');
/// let has_x = letters.intersects(&Test::char('x')); // true
/// ```
#[derive(Clone, PartialEq, Eq, PartialOrd, Ord, Hash, Drop)]
pub struct Test {
    start: u32,
    end: u32,
}

impl Model for Test {
    ghost use Rattle.lalrpop_hir.specs.Range.{Range};

    ghost Value = { Range };

    ghost view = { λ a. record { start = a.start; end = a.end } };

    ghost inverse = { λ r. record { start = r.start; end = r.end } };
}

impl Test {
    /// The values from the start of a range to its end.
    pub fn new(range: RangeInclusive<u32>) -> Test
        ensures value { result
            ≡ record { start = range_inclusive_start range; end = range_inclusive_end range } }
    {
        let (start, end) = range.into_inner();
        Test { start, end }
    }

    /// The code of one character.
    pub fn char(c: char) -> Test
        ensures value { result ≡ record { start = c; end = c } }
    {
        Test {
            start: c as u32,
            end: c as u32,
        }
    }

    /// The value of one byte.
    pub fn byte(b: u8) -> Test
        ensures value { result ≡ record { start = b; end = b } }
    {
        Test {
            start: u32::from(b),
            end: u32::from(b),
        }
    }

    /// The codes from `s` to `e`, both included.
    pub fn inclusive_range(s: char, e: char) -> Test
        ensures value { result ≡ record { start = s; end = e } }
    {
        Test {
            start: s as u32,
            end: e as u32,
        }
    }

    /// The bytes from `s` to `e`, both included.
    pub fn inclusive_byte_range(s: u8, e: u8) -> Test
        ensures value { result ≡ record { start = s; end = e } }
    {
        Test {
            start: u32::from(s),
            end: u32::from(e),
        }
    }

    /// The codes from `s` to `e`, without `e`.
    pub fn exclusive_range(s: char, e: char) -> Test
        requires above_nul { 0 < e }
        ensures value { result ≡ record { start = s; end = e - 1 } }
    {
        Test {
            start: s as u32,
            end: e as u32 - 1,
        }
    }

    /// The least value, if there are any.
    pub fn start(&self) -> u32
        ensures value { result ≡ self.now.start }
    {
        self.start
    }

    /// The greatest value, if there are any.
    pub fn end(&self) -> u32
        ensures value { result ≡ self.now.end }
    {
        self.end
    }

    /// Whether there is exactly one value.
    pub fn is_char(&self) -> bool
        ensures answer { IsTrue result ↔ (self.now.start ≡ self.now.end) }
    {
        self.start == self.end
    }

    /// The number of values.
    pub fn len(&self) -> u32
        requires below_max { self.now.end < 4294967295 }
        requires ordered { self.now.start ≤ self.now.end + 1 }
        ensures value { result ≡ self.now.end + 1 - self.now.start }
    {
        self.end + 1 - self.start
    }

    /// Whether `c` is one of the values.
    pub fn contains_u32(&self, c: u32) -> bool
        ensures answer { IsTrue result ↔ Covers self.now c }
    {
        self.start <= c && c <= self.end
    }

    /// Whether the code of `c` is one of the values.
    pub fn contains_char(&self, c: char) -> bool
        ensures answer { IsTrue result ↔ Covers self.now c }
    {
        self.contains_u32(c as u32)
    }

    /// Whether some value is in both ranges.
    pub fn intersects(&self, r: &Test) -> bool
        ensures answer { IsTrue result ↔ Meet self.now r.now }
    {
        self.start.max(r.start) <= self.end.min(r.end)
    }

    /// Whether no value is in both ranges.
    pub fn is_disjoint(&self, r: &Test) -> bool
        ensures answer { IsTrue result ↔ (¬ Meet self.now r.now) }
    {
        !self.intersects(r)
    }

    /// Whether the range has no values.
    pub fn is_empty(&self) -> bool
        ensures answer { IsTrue result ↔ (self.now.end < self.now.start) }
    {
        self.end < self.start
    }
}

impl From<ClassUnicodeRange> for Test {
    ghost use Rattle.std.specs.Prelude.{◌≡◌};

    ghost from_gives = { λ range test. test ≡ range };

    fn from(range: ClassUnicodeRange) -> Test {
        Test::inclusive_range(range.start(), range.end())
    }
}

impl From<ClassBytesRange> for Test {
    ghost use Rattle.std.specs.Prelude.{◌≡◌};

    ghost from_gives = { λ range test. test ≡ range };

    fn from(range: ClassBytesRange) -> Test {
        Test::inclusive_byte_range(range.start(), range.end())
    }
}

// Characters if both ends are codes of characters, otherwise numbers. A lone character that patterns read as an
// operator gets a backslash before it.
impl fmt::Debug for Test {
    fn fmt<W: fmt::Write>(&self, f: &mut fmt::Formatter<W>) -> fmt::Result {
        let start = self.start;
        let end = self.end;
        match (char::from_u32(start), char::from_u32(end)) {
            (Some(first), Some(_)) if start == end => {
                if matches!(first, '.' | '[' | ']' | '(' | ')' | '?' | '+' | '*' | '!') {
                    write!(f, "\\{first}")
                } else {
                    write!(f, "{first}")
                }
            }
            (Some(first), Some(last)) => write!(f, "[{first:?}..={last:?}]"),
            _ => write!(f, "[{start}..]{end}]"),
        }
    }
}
