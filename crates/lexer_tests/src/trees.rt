//! What patterns, literals and texts with escapes are read as, and where and why others are refused.

use crate::automata::bytes_of;
use crate::calls::{Call, expect};
use lalrpop_re::{
    Class, ClassBytes, ClassUnicode, Hir, HirKind, RegexError, Repetition, escape, parse_any_case,
    parse_literal, parse_regex, unescape,
};
use std::alloc::{AllocError, Global};
use std::fmt::Write;

// Characters past ASCII and controls by their codes.
fn show_character(out: &mut String, c: char) -> Result<(), AllocError> {
    if c.is_ascii_graphic() {
        out.push(c)
    } else {
        write!(out, "U+{:04X}", c as u32)
    }
}

fn show_class(out: &mut String, class: &ClassUnicode) -> Result<(), AllocError> {
    out.push_str("[")?;
    for (i, range) in class.ranges().iter().enumerate() {
        if i > 0 {
            out.push_str(" ")?;
        }
        show_character(out, range.start())?;
        if range.start() < range.end() {
            out.push_str("..")?;
            show_character(out, range.end())?;
        }
    }
    out.push_str("]")
}

fn show_bytes(out: &mut String, class: &ClassBytes) -> Result<(), AllocError> {
    for range in class.ranges() {
        let (start, end) = (range.start(), range.end());
        write!(out, "bytes {start}..{end}")?;
    }
    Ok(())
}

fn show_between(out: &mut String, open: &str, text: &str, close: &str) -> Result<(), AllocError> {
    out.push_str(open)?;
    out.push_str(text)?;
    out.push_str(close)
}

// The kinds of tree that have no tree in them: literals in quotes, classes by their runs.
fn show_leaf(out: &mut String, leaf: &HirKind) -> Result<(), AllocError> {
    match leaf {
        HirKind::Literal(literal) => show_between(out, "'", literal.as_str(), "'"),
        HirKind::Class(Class::Unicode(class)) => show_class(out, class),
        HirKind::Class(Class::Bytes(class)) => show_bytes(out, class),
        HirKind::Look(look) => write!(out, "{look:?}"),
        _ => out.push_str("empty"),
    }
}

fn show_counts(out: &mut String, turns: &Repetition) -> Result<(), AllocError> {
    let min = turns.min();
    write!(out, "{{{min},")?;
    if let Some(max) = turns.max() {
        write!(out, "{max}")?;
    }
    out.push_str(if turns.greedy() { "}" } else { "}?" })
}

#[cycle(show)]
fn show_all(out: &mut String, subs: &[Hir], between: &str, levels: u32) -> Result<(), AllocError> {
    out.push_str("(")?;
    for (i, sub) in subs.iter().enumerate() {
        if i > 0 {
            out.push_str(between)?;
        }
        show(out, sub, levels)?;
    }
    out.push_str(")")
}

/// Writes a tree on one line, `levels` deep: rows and choices have parentheses, and what lies deeper is shown as dots.
#[cycle(show)]
pub(crate) fn show(out: &mut String, tree: &Hir, levels: u32) -> Result<(), AllocError> {
    if levels == 0 {
        return out.push_str("..");
    }
    let below = levels - 1;
    match tree.kind() {
        HirKind::Repetition(turns) => {
            show(out, turns.sub(), below)?;
            show_counts(out, turns)
        }
        HirKind::Capture(group) => {
            show_between(out, "<", group.name().unwrap_or(""), ":")?;
            show(out, group.sub(), below)?;
            out.push_str(">")
        }
        HirKind::Concat(subs) => show_all(out, subs, " ", below),
        HirKind::Alternation(subs) => show_all(out, subs, "|", below),
        leaf => show_leaf(out, leaf),
    }
}

pub(crate) fn shown(alloc: Global, tree: &Hir) -> Result<String, AllocError> {
    let mut out = String::new(alloc);
    show(&mut out, tree, 9)?;
    Ok(out)
}

/// The place and the kind of a refusal.
pub(crate) fn refusal(alloc: Global, error: RegexError) -> Result<String, AllocError> {
    match error {
        RegexError::Syntax { position, kind } => {
            format!(in alloc; "refused {position} {kind:?}")
        }
        RegexError::OutOfMemory => Err(AllocError),
    }
}

/// The tree that is read, or its refusal.
pub(crate) fn told(alloc: Global, read: Result<Hir, RegexError>) -> Result<String, AllocError> {
    match read {
        Ok(tree) => shown(alloc, &tree),
        Err(error) => refusal(alloc, error),
    }
}

fn text_or_refusal(alloc: Global, read: Result<String, RegexError>) -> Result<String, AllocError> {
    match read {
        Ok(text) => Ok(text),
        Err(error) => refusal(alloc, error),
    }
}

pub(crate) fn pattern(alloc: Global, text: &str) -> Result<String, AllocError> {
    told(alloc, parse_regex(alloc, text))
}

pub(crate) fn literal(alloc: Global, text: &str) -> Result<String, AllocError> {
    told(alloc, parse_literal(alloc, text))
}

pub(crate) fn any_case(alloc: Global, text: &str) -> Result<String, AllocError> {
    told(alloc, parse_any_case(alloc, text))
}

pub(crate) fn escaped(alloc: Global, text: &str) -> Result<String, AllocError> {
    text_or_refusal(alloc, escape(alloc, text))
}

pub(crate) fn unescaped(alloc: Global, text: &str) -> Result<String, AllocError> {
    text_or_refusal(alloc, unescape(alloc, text))
}

/// The tree of a pattern, of which any error is out of memory.
pub(crate) fn tree_of(alloc: Global, pattern: &str) -> Result<Hir, AllocError> {
    match parse_regex(alloc, pattern) {
        Ok(tree) => Ok(tree),
        Err(_) => Err(AllocError),
    }
}

// The tree of a pattern, or of ranges of bytes, which no pattern has.
fn tree_or_bytes(alloc: Global, given: &str) -> Result<Hir, AllocError> {
    match given.strip_prefix("bytes ") {
        Some(ranges) => bytes_of(alloc, ranges),
        None => tree_of(alloc, given),
    }
}

fn copy_shown(alloc: Global, tree: &Hir) -> Result<String, AllocError> {
    let copy = tree.clone()?;
    shown(alloc, &copy)
}

// A copy that is refused leaves the tree as it was.
fn copy_at_last(alloc: Global, tree: &Hir) -> Result<String, AllocError> {
    match copy_shown(alloc, tree) {
        Ok(copy) => Ok(copy),
        Err(AllocError) => copy_shown(alloc, tree),
    }
}

/// A copy of the tree.
pub(crate) fn copied(alloc: Global, given: &str) -> Result<String, AllocError> {
    let tree = tree_or_bytes(alloc, given)?;
    copy_at_last(alloc, &tree)
}

fn is_pattern(alloc: Global, text: &str) -> Result<bool, AllocError> {
    match parse_regex(alloc, text) {
        Ok(_) => Ok(true),
        Err(RegexError::Syntax { .. }) => Ok(false),
        Err(RegexError::OutOfMemory) => Err(AllocError),
    }
}

/// The lengths in bytes of those of a pattern's prefixes that are patterns.
pub(crate) fn prefixes(alloc: Global, pattern: &str) -> Result<String, AllocError> {
    let mut line = String::new(alloc);
    for length in 0..=pattern.len() {
        if let Some(prefix) = pattern.get(..length)
            && is_pattern(alloc, prefix)?
        {
            write!(line, "{length} ")?;
        }
    }
    Ok(line)
}

const EXPRESSIONS: &[(&str, &str)] = &[
    ("", "empty"),
    ("a", "'a'"),
    ("ab|c", "(('a' 'b')|'c')"),
    ("a|", "('a'|empty)"),
    ("()", "<:empty>"),
    ("(?:)*", "empty{0,}"),
    ("(?:ab)c", "(('a' 'b') 'c')"),
    ("(?P<n>a)(?<_m.1>b)", "(<n:'a'> <_m.1:'b'>)"),
    ("]}", "(']' '}')"),
    (".", "[U+0000..U+0009 U+000B..U+10FFFF]"),
    ("(?m)^a$", "(StartLF 'a' EndLF)"),
    ("a(?s)b|.", "(('a' 'b')|[U+0000..U+10FFFF])"),
];

const OPERATORS: &[(&str, &str)] = &[
    ("a?", "'a'{0,1}"),
    ("a*?", "'a'{0,}?"),
    ("a+", "'a'{1,}"),
    ("a{2}{3}", "'a'{2,2}{3,3}"),
    ("a{ 2 , 3 }", "'a'{2,3}"),
    ("a{007,}?", "'a'{7,}?"),
    ("a???", "'a'{0,1}?{0,1}"),
    ("(?U)a*", "'a'{0,}?"),
    ("(?U)a*?", "'a'{0,}"),
    ("((?U)a*)a*", "(<:'a'{0,}?> 'a'{0,})"),
    ("a{4294967295}", "'a'{4294967295,4294967295}"),
    ("\\b{2}", "WordUnicode{2,2}"),
    ("a{0000000000000000000000000000007}", "'a'{7,7}"),
];

const ESCAPES: &[(&str, &str)] = &[
    ("\\x41\\u0041\\U00000041", "('A' 'A' 'A')"),
    ("\\x{41}\\u{0000000041}", "('A' 'A')"),
    ("\\%\\_\\\\", "('%' '_' '\\')"),
    ("[\\a\\f\\t\\n\\r\\v]", "[U+0007 U+0009..U+000D]"),
    (
        "^$\\A\\z\\b\\B",
        "(Start End Start End WordUnicode WordUnicodeNegate)",
    ),
    ("\\<\\b{start}", "(WordStartUnicode WordStartUnicode)"),
    ("\\>\\b{end}", "(WordEndUnicode WordEndUnicode)"),
    ("\\b{start-half}", "WordStartHalfUnicode"),
    ("\\b{end-half}", "WordEndHalfUnicode"),
    ("\\P{any}", "[]"),
    ("\\p{Is_ASCII}", "[U+0000..U+007F]"),
    ("\\p{Cs}|\\P{Cs}", "([]|[U+0000..U+10FFFF])"),
];

const BRACKETS: &[(&str, &str)] = &[
    ("[]a]", "[] a]"),
    ("[]-a]", "[- ] a]"),
    ("[--a]", "[- a]"),
    ("[a-]", "[- a]"),
    ("[+--]", "[+]"),
    ("[!-[]", "[!..[]"),
    ("[!-&&b]", "[!..& b]"),
    ("[[a]-c]", "[- a c]"),
    ("[^-a]", "[U+0000.., ...` b..U+10FFFF]"),
    ("[^\\x{0}-\\x{10FFFF}]", "[]"),
    ("[\\x{D7FF}\\x{E000}]", "[U+D7FF..U+E000]"),
    (
        "[^d-n\\x{D7FE}\\x{D7FF}]",
        "[U+0000..c o..U+D7FD U+E000..U+10FFFF]",
    ),
    (
        "[a-fm-p\\x{E000}-\\x{E005}d-n\\x{D7FE}\\x{D7FF}]",
        "[a..p U+D7FE..U+E005]",
    ),
];

const SETS: &[(&str, &str)] = &[
    ("[a--b]", "[a]"),
    ("[a-d--b]", "[a c..d]"),
    ("[a&&]", "[]"),
    ("[a-c~~b-d]", "[a d]"),
    ("[a-c&&b-d~~c]", "[b]"),
    ("[[:foo:]]", "[: f o]"),
    ("[[:alpha:]-z]", "[- A..Z a..z]"),
    ("[[:word:]--[:digit:]]", "[A..Z _ a..z]"),
    ("[[:^ascii:]]", "[U+0080..U+10FFFF]"),
    (
        "[[:space:][:punct:]&&\\x00-/]",
        "[U+0009..U+000D U+0020../]",
    ),
    (
        "[a-fm-p\\x{E000}-\\x{E005}&&d-n\\x{D7FE}\\x{D7FF}]",
        "[d..f m..n]",
    ),
    (
        "[a-fm-p\\x{E000}-\\x{E005}--d-n\\x{D7FE}\\x{D7FF}]",
        "[a..c o..p U+E000..U+E005]",
    ),
    (
        "[a-fm-p\\x{E000}-\\x{E005}~~d-n\\x{D7FE}\\x{D7FF}]",
        "[a..c g..l o..p U+D7FE..U+E005]",
    ),
];

const FOLDING: &[(&str, &str)] = &[
    ("(?i)k", "[K k U+212A]"),
    ("(?i)s", "[S s U+017F]"),
    ("(?i)1", "'1'"),
    ("(?i)[^k]", "[U+0000..J L..j l..U+2129 U+212B..U+10FFFF]"),
    ("a(?i)b|c", "(('a' [B b])|[C c])"),
    ("((?i)a)a", "(<:[A a]> 'a')"),
    ("(?i-s)", "empty"),
    ("(?-i)a(?u)a", "('a' 'a')"),
];

// Each kind, and the place that a user would look at, in bytes.
const NO_GROUPS: &[(&str, &str)] = &[
    ("é(a", "refused 2 UnclosedGroup"),
    ("a(b(c)", "refused 1 UnclosedGroup"),
    ("a)", "refused 1 UnopenedGroup"),
    ("(?x)a", "refused 2 Flag"),
    ("(?)", "refused 0 Flag"),
    ("(?ii)a", "refused 0 Flag"),
    ("(?i-i)a", "refused 0 Flag"),
    ("(?-)", "refused 0 Flag"),
    ("(?-u)a", "refused 0 Flag"),
    ("(?P<>x)", "refused 0 GroupName"),
    ("(?P<1>x)", "refused 0 GroupName"),
    ("(?P<a>x)|(?<a>y)", "refused 9 GroupName"),
    ("a(?=b)", "refused 1 UnsupportedLookAround"),
    ("(?<!b)", "refused 0 UnsupportedLookAround"),
];

const NO_OPERATORS: &[(&str, &str)] = &[
    ("*a", "refused 0 RepetitionMissing"),
    ("a|+", "refused 2 RepetitionMissing"),
    ("(?i)*", "refused 4 RepetitionMissing"),
    ("a{2,1}", "refused 1 RepetitionCount"),
    ("a{2, }", "refused 5 RepetitionCount"),
    ("a{,3}", "refused 2 RepetitionCount"),
    ("a{", "refused 2 RepetitionCount"),
    ("{D}", "refused 0 RepetitionMissing"),
    ("a{D}", "refused 2 RepetitionCount"),
    ("a{4294967296}", "refused 2 RepetitionCount"),
    (
        "a{9999999999999999999999999999999}",
        "refused 2 RepetitionCount",
    ),
];

const NO_BRACKETS: &[(&str, &str)] = &[
    ("x[a", "refused 1 UnclosedClass"),
    ("[]", "refused 0 UnclosedClass"),
    ("[^]", "refused 0 UnclosedClass"),
    ("[b-a]", "refused 1 ClassRangeInvalid"),
    ("[a-&&b]", "refused 1 ClassRangeInvalid"),
    ("[\\d-x]", "refused 1 ClassRangeLiteral"),
    ("[a-\\d]", "refused 3 ClassRangeLiteral"),
    ("[\\b]", "refused 1 ClassEscapeInvalid"),
];

const NO_ESCAPES: &[(&str, &str)] = &[
    ("a\\", "refused 1 EscapeUnexpectedEof"),
    ("\\y", "refused 0 EscapeUnrecognized"),
    ("é\\é", "refused 2 EscapeUnrecognized"),
    ("\\x{D800}", "refused 2 EscapeHex"),
    ("\\x4", "refused 2 EscapeHex"),
    ("\\x{}", "refused 2 EscapeHex"),
    ("\\p{nosuchset}", "refused 2 UnicodeSetUnknown"),
    ("\\1", "refused 0 UnsupportedBackreference"),
];

const STRANGE: &[(&str, &str)] = &[
    ("(?smUiu)a", "[A a]"),
    ("\0", "'\0'"),
    ("\u{1F600}", "'\u{1F600}'"),
];

// Which prefixes of a pattern are patterns, the whole among them.
const PREFIXES: &[(&str, &str)] = &[
    ("a{2,3}|[b-d]*", "0 1 6 7 12 13 "),
    ("(?i:a{2,3}[b-d])", "0 16 "),
];

#[test]
fn patterns_are_read(rt: HostRuntime) {
    for rows in [
        EXPRESSIONS,
        OPERATORS,
        ESCAPES,
        BRACKETS,
        SETS,
        FOLDING,
        STRANGE,
    ] {
        expect(&rt, rt.alloc(), Call::Pattern, rows);
    }
    expect(
        &rt,
        rt.alloc(),
        Call::Literal,
        &[("a*é", "'a*é'"), ("", "empty")],
    );
}

#[test]
fn patterns_are_refused(rt: HostRuntime) {
    for rows in [NO_GROUPS, NO_OPERATORS, NO_BRACKETS, NO_ESCAPES] {
        expect(&rt, rt.alloc(), Call::Pattern, rows);
    }
    expect(&rt, rt.alloc(), Call::Prefixes, PREFIXES);
}

const FOLDED: &[(&str, &str)] = &[
    ("", "()"),
    ("b", "([B b])"),
    ("B", "([B b])"),
    ("i+1", "([I i] '+' '1')"),
    ("k", "([K k U+212A])"),
    ("S", "([S s U+017F])"),
    ("aé", "([A a] [U+00C9 U+00E9])"),
    ("\\n.", "('\\' [N n] '.')"),
];

// Eighteen characters get a backslash.
const PATTERNS: &[(&str, &str)] = &[
    ("", ""),
    ("a+b#c", "a\\+b\\#c"),
    ("é-", "é\\-"),
    (
        "\\.+*?()|[]{}^$#&-~",
        "\\\\\\.\\+\\*\\?\\(\\)\\|\\[\\]\\{\\}\\^\\$\\#\\&\\-\\~",
    ),
];

const TEXTS: &[(&str, &str)] = &[
    ("", ""),
    ("a.é(", "a.é("),
    ("\\\"\\\\n\\.", "\"\\n."),
    ("\\a\\f\\t\\n\\r\\v", "\u{7}\u{C}\t\n\r\u{B}"),
    ("\\x41b\\x{e9}", "Abé"),
    ("\\u00412\\u{1F600}\\U00000043", "A2\u{1F600}C"),
    ("x\\n", "x\n"),
];

const NO_TEXTS: &[(&str, &str)] = &[
    ("é\\", "refused 2 EscapeUnexpectedEof"),
    ("é\\q", "refused 2 EscapeUnrecognized"),
    ("a\\d", "refused 1 EscapeUnrecognized"),
    ("é\\\\\\PL", "refused 4 EscapeUnrecognized"),
    ("\\b{start}", "refused 0 EscapeUnrecognized"),
    ("é\\0", "refused 2 EscapeUnrecognized"),
    ("\\x4", "refused 2 EscapeHex"),
    ("\\x4g", "refused 2 EscapeHex"),
    ("é\\u{D800}", "refused 4 EscapeHex"),
    ("\\x", "refused 2 EscapeUnexpectedEof"),
    ("\\p{Klingon}", "refused 2 UnicodeSetUnknown"),
];

#[test]
fn texts_are_read(rt: HostRuntime) {
    expect(&rt, rt.alloc(), Call::AnyCase, FOLDED);
    expect(&rt, rt.alloc(), Call::Escape, PATTERNS);
    expect(&rt, rt.alloc(), Call::Unescape, TEXTS);
    expect(&rt, rt.alloc(), Call::Unescape, NO_TEXTS);
}

// A tree of each kind.
const COPIES: &[(&str, &str)] = &[
    ("", "empty"),
    ("é", "'é'"),
    ("[a-z_]", "[_ a..z]"),
    ("bytes 128-255", "bytes 128..255"),
    ("bytes 6-9 5-7 10-10", "bytes 5..10"),
    ("^b{2,}", "(Start 'b'{2,})"),
    ("(?P<year>é)|(c)", "(<year:'é'>|<:'c'>)"),
    ("$ab{2,4}?", "(End 'a' 'b'{2,4}?)"),
];

#[test]
fn trees_are_copied(rt: HostRuntime) {
    expect(&rt, rt.alloc(), Call::Copy, COPIES);
}
