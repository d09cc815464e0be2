//! What patterns with parts are read as, and where and why others are refused.

use crate::calls::{Call, expect, halves};
use crate::great::nested;
use crate::trees::{refusal, shown, told};
use lalrpop_re::{Part, RegexError, parse_with};
use std::alloc::{AllocError, Global};

/// Parts in turn, each with those before it.
#[derive(Clone, Copy)]
pub(crate) enum Parts {
    None,
    // `D` stands for its first tree.
    Known,
    // A part has a group with a name.
    Named,
    // As deep as can be, and a level less.
    Deep,
}

const KNOWN: &[(&str, &str)] = &[
    ("D", "[0-9]"),
    ("N", "{D}+(\\.{D}+)?"),
    ("x_1", "x|y"),
    ("D", "z"),
];

fn parts_of(alloc: Global, rows: &[(&str, &str)]) -> Result<Vec<Part>, RegexError> {
    let mut parts = Vec::new(alloc);
    for (name, pattern) in rows {
        let part = Part::parse(alloc, *name, *pattern, &parts)?;
        parts.push(part)?;
    }
    Ok(parts)
}

// A part is as deep as its text in a group.
fn deep(alloc: Global) -> Result<Vec<Part>, RegexError> {
    let deep = nested(alloc, "(", "", ")", 249)?;
    let deepest = nested(alloc, "(", "", ")", 250)?;
    parts_of(alloc, &[("P", &deep), ("Q", &deepest), ("R", "{P}")])
}

fn made(alloc: Global, parts: Parts) -> Result<Vec<Part>, RegexError> {
    match parts {
        Parts::None => Ok(Vec::new(alloc)),
        Parts::Known => parts_of(alloc, KNOWN),
        Parts::Named => parts_of(alloc, &[("G", "(?<n>a)")]),
        Parts::Deep => deep(alloc),
    }
}

/// The tree that a pattern is read as with the parts, or its refusal.
pub(crate) fn with(alloc: Global, parts: Parts, pattern: &str) -> Result<String, AllocError> {
    match made(alloc, parts) {
        Ok(parts) => told(alloc, parse_with(alloc, pattern, &parts)),
        Err(_) => Err(AllocError),
    }
}

/// The tree of the part in `NAME = PATTERN`, or the refusal of its text.
pub(crate) fn part(alloc: Global, row: &str) -> Result<String, AllocError> {
    let (name, pattern) = halves(row, " = ");
    match Part::parse(alloc, name, pattern, &[]) {
        Ok(part) => shown(alloc, part.tree()),
        Err(error) => refusal(alloc, error),
    }
}

const TREES: &[(&str, &str)] = &[
    ("{D}", "[0..9]"),
    ("{D}??", "[0..9]{0,1}?"),
    ("a{D}{2}b", "('a' [0..9]{2,2} 'b')"),
    ("a{2}{D}", "('a'{2,2} [0..9])"),
    ("{N}", "([0..9]{1,} <:('.' [0..9]{1,})>{0,1})"),
    ("{x_1}b", "(('x'|'y') 'b')"),
    ("\\b{start}{D}", "(WordStartUnicode [0..9])"),
    ("(?i:a){D}", "([A a] [0..9])"),
    ("(?i)(?-i)(?u){D}", "[0..9]"),
];

// In brackets and after a backslash nothing is a part.
const NO_PARTS: &[(&str, &str)] = &[
    ("[{D}]", "[D { }]"),
    ("\\{D}", "('{' 'D' '}')"),
    ("D}", "('D' '}')"),
];

const REFUSED: &[(&str, &str)] = &[
    ("{E}", "refused 0 PartUnknown"),
    ("é{E}", "refused 2 PartUnknown"),
    ("({D}|a{d})", "refused 6 PartUnknown"),
    ("(?i){D}", "refused 4 PartUnderFlag"),
    ("a(?i:b{D})", "refused 6 PartUnderFlag"),
    ("{D", "refused 0 PartName"),
    ("{2}", "refused 0 RepetitionMissing"),
    ("a{D", "refused 1 PartName"),
    ("é{_-a}", "refused 2 PartName"),
    ("a{ D}", "refused 3 RepetitionCount"),
    ("a{2,D}", "refused 4 RepetitionCount"),
    ("a{2x}", "refused 1 RepetitionCount"),
];

// Where the list of parts is empty, a name in braces is that of none.
const BRACES: &[(&str, &str)] = &[
    ("{D}", "refused 0 PartUnknown"),
    ("a{D}", "refused 1 PartUnknown"),
    ("é(b|{_9}+)", "refused 5 PartUnknown"),
    ("{9}", "refused 0 RepetitionMissing"),
    ("a{9x}", "refused 1 RepetitionCount"),
    ("a{2}", "'a'{2,2}"),
];

const LEVELS: &[(&str, &str)] = &[
    ("({P})", "refused 1 NestLimitExceeded"),
    ("{P}*", "refused 3 NestLimitExceeded"),
    ("a{Q}", "refused 1 NestLimitExceeded"),
    ("{R}", "refused 0 NestLimitExceeded"),
];

// Two groups of one name are refused, at the second group or the part that has it.
const GROUPS: &[(&str, &str)] = &[
    ("{G}", "<n:'a'>"),
    ("{G}b{G}", "refused 4 GroupName"),
    ("{G}(?<m>c)(?<m>d)", "refused 10 GroupName"),
    ("(?<n>b){G}", "refused 7 GroupName"),
];

const NAMES: &[(&str, &str)] = &[
    ("a = b{D}", "refused 1 PartUnknown"),
    ("_9z = a", "'a'"),
    (" = a", "refused 0 PartName"),
    ("9 = a", "refused 0 PartName"),
    ("é = a", "refused 0 PartName"),
    ("a = é(", "refused 2 UnclosedGroup"),
];

#[test]
fn patterns_have_parts(rt: HostRuntime) {
    expect(&rt, rt.alloc(), Call::With(Parts::Known), TREES);
    expect(&rt, rt.alloc(), Call::With(Parts::Known), NO_PARTS);
    expect(&rt, rt.alloc(), Call::With(Parts::Known), REFUSED);
    expect(&rt, rt.alloc(), Call::With(Parts::None), BRACES);
    expect(&rt, rt.alloc(), Call::With(Parts::Named), GROUPS);
    expect(&rt, rt.alloc(), Call::Part, NAMES);
}
