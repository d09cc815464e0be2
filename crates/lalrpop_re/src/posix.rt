//! POSIX classes.
ghost use Rattle.std.specs.Prelude.{◌≡◌, ℕ, List, IfOk, MatchOption, None, Some, bytes_eq};
ghost use Rattle.unicode.specs.Rows.{in_ranges, AreRanges};
ghost use Rattle.lalrpop_re.specs.CharacterSet.{Set, HasRuns};
ghost use Rattle.lalrpop_re.specs.PosixSet.{posix_set};
ghost use Rattle.lalrpop_re.specs.Internal.Sets.{IsFound};

use lalrpop_hir::{ClassUnicode, ClassUnicodeRange};
use std::alloc::{AllocError, Global};

// A class, like `alpha` in `[:alpha:]`.
struct PosixClass {
    name: &'static str,
    ranges: &'static [(char, char)],
}

static POSIX_CLASSES: [PosixClass; 14] = [
    PosixClass {
        name: "alnum",
        ranges: &[('0', '9'), ('A', 'Z'), ('a', 'z')],
    },
    PosixClass {
        name: "alpha",
        ranges: &[('A', 'Z'), ('a', 'z')],
    },
    PosixClass {
        name: "ascii",
        ranges: &[('\0', '\x7F')],
    },
    PosixClass {
        name: "blank",
        ranges: &[('\t', '\t'), (' ', ' ')],
    },
    PosixClass {
        name: "cntrl",
        ranges: &[('\0', '\x1F'), ('\x7F', '\x7F')],
    },
    PosixClass {
        name: "digit",
        ranges: &[('0', '9')],
    },
    PosixClass {
        name: "graph",
        ranges: &[('!', '~')],
    },
    PosixClass {
        name: "lower",
        ranges: &[('a', 'z')],
    },
    PosixClass {
        name: "print",
        ranges: &[(' ', '~')],
    },
    PosixClass {
        name: "punct",
        ranges: &[('!', '/'), (':', '@'), ('[', '`'), ('{', '~')],
    },
    PosixClass {
        name: "space",
        ranges: &[('\t', '\r'), (' ', ' ')],
    },
    PosixClass {
        name: "upper",
        ranges: &[('A', 'Z')],
    },
    PosixClass {
        name: "word",
        ranges: &[('0', '9'), ('A', 'Z'), ('_', '_'), ('a', 'z')],
    },
    PosixClass {
        name: "xdigit",
        ranges: &[('0', '9'), ('A', 'F'), ('a', 'f')],
    },
];

// The classes, by name.
fn posix_classes() -> &'static [PosixClass]
    ensures { (name : List ℕ) → IsFound name result.now (posix_set name) }
{
    &POSIX_CLASSES
}

/// The set of the POSIX class `name`, like `alpha` in `[:alpha:]`. `None` if no class has exactly this name.
///
/// # Errors
///
/// `AllocError` if a request for memory was refused.
pub fn posix_class(alloc: Global, name: &[char]) -> Result<Option<ClassUnicode>, AllocError>
    ensures found { IfOk result (λ found. MatchOption found (posix_set name.now ≡ None)
        (λ r. (s : Set) × (posix_set name.now ≡ Some s) × HasRuns r s)) }
{
    for class in posix_classes() {
        if spells(name, class.name) {
            return Ok(Some(class_of_ranges(alloc, class.ranges)?));
        }
    }
    Ok(None)
}

// Whether the name is this word of ASCII characters.
fn spells(name: &[char], word: &str) -> bool
    ensures { result ≡ bytes_eq name.now word.now }
{
    let word = word.as_bytes();
    if name.len() != word.len() {
        return false;
    }
    for i in 0..name.len() {
        if name[i] as u32 != u32::from(word[i]) {
            return false;
        }
    }
    true
}

// The characters inside the ranges.
fn class_of_ranges(alloc: Global, pairs: &[(char, char)]) -> Result<ClassUnicode, AllocError>
    requires { AreRanges pairs.now }
    ensures { IfOk result (λ r. HasRuns r (in_ranges pairs.now)) }
{
    let mut ranges = Vec::new(alloc);
    for &(low, high) in pairs {
        ranges.push(ClassUnicodeRange::new(low, high))?;
    }
    ClassUnicode::new(alloc, ranges)
}
