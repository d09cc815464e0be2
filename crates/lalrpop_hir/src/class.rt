//! Classes: sets of characters or of bytes.
ghost use Rattle.std.specs.Prelude.{◌≡◌};

mod bytes;
mod characters;
mod operations;

use std::alloc::AllocError;
use std::marker::Model;

/// A range of characters, from its start to its end, both included. It is never empty.
///
/// The ends are characters, but the range is one of code values: if it starts at U+D7FF or below and ends at U+E000
/// or above, it also contains the surrogates between.
///
/// ```
/// use lalrpop_lexer::lexer::re::ClassUnicodeRange;
///
/// let letters = ClassUnicodeRange::new('z', 'a');
/// let ends = (letters.start(), letters.end()); // ('a', 'z')
/// ```
#[derive(Clone, Copy, Debug, PartialEq, Eq)]
pub struct ClassUnicodeRange {
    start: char,
    end: char,
}

impl Model for ClassUnicodeRange {
    ghost use Rattle.std.specs.Prelude.{◌≤◌};
    ghost use Rattle.lalrpop_hir.specs.Range.{Range};

    ghost Value = { Range };

    ghost view = { λ a. record { start = a.start; end = a.end } };

    ghost invariant = { λ a. a.start ≤ a.end };

    ghost inverse = { λ r. record { start = r.start; end = r.end } };
}

/// A range of bytes, from its start to its end, both included. It is never empty.
///
/// ```
/// use lalrpop_lexer::lexer::re::ClassBytesRange;
///
/// let digits = ClassBytesRange::new(b'0', b'9');
/// let ends = (digits.start(), digits.end()); // (48, 57)
/// ```
#[derive(Clone, Copy, Debug, PartialEq, Eq)]
pub struct ClassBytesRange {
    start: u8,
    end: u8,
}

impl Model for ClassBytesRange {
    ghost use Rattle.std.specs.Prelude.{◌≤◌};
    ghost use Rattle.lalrpop_hir.specs.Range.{Range};

    ghost Value = { Range };

    ghost view = { λ a. record { start = a.start; end = a.end } };

    ghost invariant = { λ a. a.start ≤ a.end };

    ghost inverse = { λ r. record { start = r.start; end = r.end } };
}

/// A set of characters, kept as the ascending list of its maximal runs.
///
/// U+D7FF and U+E000 count as neighbours, since only surrogates lie between them, and a surrogate is not a character.
/// So each set has exactly one list, however it was given.
///
/// ```
/// use lalrpop_lexer::lexer::re::{ClassUnicode, ClassUnicodeRange};
///
/// let letters = ClassUnicode::new(alloc, vec![in alloc; ClassUnicodeRange::new('a', 'z')]?)?;
/// let vowels = vec![in alloc; ClassUnicodeRange::new('a', 'a'), ClassUnicodeRange::new('e', 'e')]?;
/// let others = letters.difference(alloc, &ClassUnicode::new(alloc, vowels)?)?; // b to d, f to z
/// ```
#[derive(Clone, Debug, Drop)]
pub struct ClassUnicode {
    ranges: Vec<ClassUnicodeRange>,
}

impl Model for ClassUnicode {
    ghost use Rattle.std.specs.Prelude.{List};
    ghost use Rattle.lalrpop_hir.specs.Range.{Range};
    ghost use Rattle.lalrpop_hir.specs.Runs.{IsCanonical};

    ghost Value = { List Range };

    ghost view = { λ a. a.ranges.items };

    ghost invariant = { λ a. IsCanonical a.ranges.items };
}

/// A set of bytes, kept as the ascending list of its maximal runs.
///
/// ```
/// use lalrpop_lexer::lexer::re::{ClassBytes, ClassBytesRange};
///
/// let ranges = vec![in alloc; ClassBytesRange::new(0, 31), ClassBytesRange::new(20, 127)]?;
/// let class = ClassBytes::new(alloc, ranges)?;
/// let count = class.ranges().len(); // 1: the ranges overlap
/// ```
#[derive(Clone, Debug, Drop)]
pub struct ClassBytes {
    ranges: Vec<ClassBytesRange>,
}

impl Model for ClassBytes {
    ghost use Rattle.std.specs.Prelude.{List};
    ghost use Rattle.lalrpop_hir.specs.Range.{Range};
    ghost use Rattle.lalrpop_hir.specs.Runs.{AreByteRuns};

    ghost Value = { List Range };

    ghost view = { λ a. a.ranges.items };

    ghost invariant = { λ a. AreByteRuns a.ranges.items };
}

/// A set that one value of a text is matched against.
///
/// ```
/// use lalrpop_lexer::lexer::re::{Class, ClassUnicode, ClassUnicodeRange, Hir};
///
/// // The tree of `[0-9]`.
/// let digits = ClassUnicode::new(alloc, vec![in alloc; ClassUnicodeRange::new('0', '9')]?)?;
/// let tree = Hir::class(Class::Unicode(digits));
/// ```
#[derive(Debug, Drop)]
pub enum Class {
    /// A set of characters. It matches the code values inside its ranges.
    Unicode(ClassUnicode),
    /// A set of bytes. It matches the values 0 to 255 inside its ranges.
    Bytes(ClassBytes),
}

impl Clone for Class {
    ghost is_clone = { λ c copy. copy ≡ c };

    fn clone(&self) -> Result<Class, AllocError> {
        match self {
            Class::Unicode(c) => Ok(Class::Unicode(c.clone()?)),
            Class::Bytes(c) => Ok(Class::Bytes(c.clone()?)),
        }
    }
}
