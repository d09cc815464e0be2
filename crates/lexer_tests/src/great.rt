//! Calls that make very many requests for memory, or none that others don't make: patterns and trees of many levels, long texts, and lists
//! and automata of a real size.

use crate::calls::{Call, expect, expect_lines, halves, number};
use crate::lexers::{Asked, lexer_of};
use crate::parts::Parts;
use lalrpop_lexer::Tokens;
use lalrpop_lexer::lexer::dfa::interpret::interpret;
use lalrpop_lexer::lexer::dfa::{Dfa, DfaConstructionError, Precedence, build_dfa};
use lalrpop_lexer::lexer::nfa::Nfa;
use lalrpop_lexer::lexer::re::{Capture, Hir, RegexError, Repetition, parse_regex};
use std::alloc::{AllocError, Global};
use std::fmt::Write;

fn push_times(pattern: &mut String, part: &str, times: usize) -> Result<(), AllocError> {
    for _ in 0..times {
        pattern.push_str(part)?;
    }
    Ok(())
}

/// `inner` with `open` before it and `close` after it, as often as is said.
pub(crate) fn nested(
    alloc: Global,
    open: &str,
    inner: &str,
    close: &str,
    times: usize,
) -> Result<String, AllocError> {
    let mut pattern = String::new(alloc);
    push_times(&mut pattern, open, times)?;
    pattern.push_str(inner)?;
    push_times(&mut pattern, close, times)?;
    Ok(pattern)
}

fn kind(alloc: Global, pattern: &str) -> Result<String, AllocError> {
    match parse_regex(alloc, pattern) {
        Ok(_) => String::from_str(alloc, "a pattern"),
        Err(RegexError::Syntax { kind, .. }) => format!(in alloc; "{kind:?}"),
        Err(RegexError::OutOfMemory) => Err(AllocError),
    }
}

/// Whether the text of `OPEN INNER CLOSE TIMES` is a pattern, or the kind of its refusal.
pub(crate) fn levels(alloc: Global, row: &str) -> Result<String, AllocError> {
    let (open, rest) = halves(row, " ");
    let (inner, rest) = halves(rest, " ");
    let (close, times) = halves(rest, " ");
    let pattern = nested(alloc, open, inner, close, number(times))?;
    kind(alloc, &pattern)
}

const LEVELS: usize = 1_000;

fn one(alloc: Global, tree: Hir) -> Result<Vec<Hir>, AllocError> {
    let mut trees = Vec::new(alloc);
    trees.push(tree)?;
    Ok(trees)
}

fn one_more(alloc: Global, level: &str, tree: Hir) -> Result<Hir, AllocError> {
    match level {
        "group" => Ok(Hir::capture(Capture::new(None, Box::new(alloc, tree)?))),
        "turns" => Ok(Hir::repetition(Repetition::new(0, None, true, Box::new(alloc, tree)?))),
        "row" => Ok(Hir::concat(one(alloc, tree)?)),
        _ => Ok(Hir::alternation(one(alloc, tree)?)),
    }
}

// The literal `a`, nested in many levels of this kind, more than any pattern from text has.
fn tree_of(alloc: Global, level: &str) -> Result<Hir, AllocError> {
    let mut tree = Hir::literal(alloc, "a")?;
    for _ in 0..LEVELS {
        tree = one_more(alloc, level, tree)?;
    }
    Ok(tree)
}

fn is_shown_as(alloc: Global, copy: &Hir, tree: &Hir) -> Result<bool, AllocError> {
    Ok(format!(in alloc; "{copy:?}")? == format!(in alloc; "{tree:?}")?)
}

fn states_of(alloc: Global, tree: &Hir) -> usize {
    match Nfa::from_re(alloc, tree) {
        Ok(nfa) => nfa.len(),
        Err(_) => 0,
    }
}

fn found_by(alloc: Global, built: Result<Dfa, DfaConstructionError>) -> Result<String, AllocError> {
    match built {
        Ok(dfa) => format!(in alloc; "{:?}", interpret(&dfa, "aab")),
        Err(_) => Err(AllocError),
    }
}

fn found(alloc: Global, tree: Hir) -> Result<String, AllocError> {
    found_by(alloc, build_dfa(alloc, &[tree], &[Precedence(0)]))
}

fn shown(alloc: Global, tree: &Hir) -> Result<String, AllocError> {
    let is_alike = is_shown_as(alloc, &tree.clone()?, tree)?;
    let found = found(alloc, tree.clone()?)?;
    format!(in alloc; "{is_alike} {} {found}", states_of(alloc, tree))
}

/// Whether a copy of a deep tree is shown as the tree is, how many states the tree has, and what a copy's automaton finds in `aab`.
pub(crate) fn deep(alloc: Global, level: &str) -> Result<String, AllocError> {
    let tree = tree_of(alloc, level)?;
    shown(alloc, &tree)
}

// How many tokens of the first four patterns there are before the fault, and where the fault is, if there is one.
fn counts(alloc: Global, items: Tokens<'_>) -> Result<String, AllocError> {
    let mut counts = [0usize; 4];
    let mut at = None;
    for item in items {
        match item {
            Ok((index, _)) => {
                if let Some(count) = counts.get_mut(index.index()) {
                    *count = count.wrapping_add(1);
                }
            }
            Err(fault) => at = Some(fault.at),
        }
    }
    format!(in alloc; "{counts:?} {at:?}")
}

fn counted_in(alloc: Global, words: &str, text: &str) -> Result<String, AllocError> {
    match lexer_of(alloc, words) {
        Ok(lexer) => counts(alloc, lexer.tokens(alloc, text)?),
        Err(_) => Err(AllocError),
    }
}

/// For the patterns of `WORDS <- PART END`, the tokens of a text of 40,000 parts and an end.
pub(crate) fn counted(alloc: Global, row: &str) -> Result<String, AllocError> {
    let (words, parts) = halves(row, " <- ");
    let (part, end) = halves(parts, " ");
    let mut text = part.repeat(alloc, 40_000)?;
    text.push_str(end)?;
    counted_in(alloc, words, &text)
}

// A place may be inside 250 groups, brackets and repetitions.
const NESTED: &[(&str, &str)] = &[
    ("(  ) 250", "a pattern"),
    ("(  ) 251", "NestLimitExceeded"),
    ("(?: a ) 250", "a pattern"),
    ("(?: a ) 251", "NestLimitExceeded"),
    ("[ a ] 250", "a pattern"),
    ("[ a ] 251", "NestLimitExceeded"),
    (" a * 250", "a pattern"),
    (" a * 251", "NestLimitExceeded"),
    ("( a )* 125", "a pattern"),
    ("( a )* 126", "NestLimitExceeded"),
    ("(?i:( [a] )+) 83", "a pattern"),
    ("(?i:( [a] )+) 84", "NestLimitExceeded"),
];

const IN_PARTS: &[(&str, &str)] = &[
    ("a{P}", "('a' <:<:<:<:<:<:<:<:..>>>>>>>>)"),
    ("({P})", "refused 1 NestLimitExceeded"),
    ("{P}*", "refused 3 NestLimitExceeded"),
    ("a{Q}", "refused 1 NestLimitExceeded"),
    ("{R}", "refused 0 NestLimitExceeded"),
];

const DEEP: &[(&str, &str)] = &[
    ("group", "true 4 Some((NfaIndex(0), \"a\"))"),
    ("turns", "true 1004 Some((NfaIndex(0), \"aa\"))"),
    ("row", "true 4 Some((NfaIndex(0), \"a\"))"),
    ("choice", "true 1004 Some((NfaIndex(0), \"a\"))"),
];

#[test]
fn levels_are_counted(rt: HostRuntime) {
    expect(&rt, rt.alloc(), Call::Nested, NESTED);
    expect(&rt, rt.alloc(), Call::With(Parts::Deep), IN_PARTS);
    expect(&rt, rt.alloc(), Call::Deep, DEEP);
}

// Much is read in vain; where one run came to nothing, another goes on. The last comment is never closed.
const REPEATED: &str = r"
'a' a*b <- a b => [0, 1, 0, 0] None
'a' a*b c <- a cc. => [40000, 0, 2, 0] Some(40002)
é é*😀 <- é => [40000, 0, 0, 0] None
'a' 'b' a[ab]*c b[ab]*d <- ab d => [1, 0, 0, 1] None
'/' '*' 'x' /\*([^*]|\*+[^*/])*\*+/ <- /*x => [40000, 40000, 40000, 0] None
";

#[test]
fn long_texts_are_cut_in_linear_time(rt: HostRuntime) {
    expect_lines(&rt, rt.alloc(), Call::Counted, REPEATED);
}

// Its automaton has at least 16,385 states, so 16 bits can't number the cells of its table.
const WINDOW: &str = "(?:a|b)*a(?:a|b){13} <- bbabbbbbbbbbbbbbc";

// Of Rust: examples/rust/rust.rules.
const RUST: &str = r#####"
1@'as' 1@'break' 1@'const' 1@'continue' 1@'crate' 1@'else' 1@'enum' 1@'extern' 1@'false' 1@'fn' 1@'for' 1@'if'
1@'impl' 1@'in' 1@'let' 1@'loop' 1@'match' 1@'mod' 1@'move' 1@'mut' 1@'pub' 1@'ref' 1@'return' 1@'self'
1@'Self' 1@'static' 1@'struct' 1@'super' 1@'trait' 1@'true' 1@'type' 1@'unsafe' 1@'use' 1@'where' 1@'while'
1@'async' 1@'await' 1@'dyn' 1@'abstract' 1@'become' 1@'box' 1@'do' 1@'final' 1@'gen' 1@'macro' 1@'override'
1@'priv' 1@'try' 1@'typeof' 1@'unsized' 1@'virtual' 1@'yield' '_' '+' '-' '*' '/' '%' '^' '!' '&' '|' '&&'
'||' '<<' '>>' '+=' '-=' '*=' '/=' '%=' '^=' '&=' '|=' '<<=' '>>=' '=' '==' '!=' '>' '<' '>=' '<=' '@' '.'
'..' '...' '..=' ',' ';' ':' '::' '->' '=>' '<-' '#' '$' '?' '~' '{' '}' '[' ']' '(' ')'
(\p{XID_Start}\p{XID_Continue}*|_\p{XID_Continue}+) r#(\p{XID_Start}\p{XID_Continue}*|_\p{XID_Continue}+)
\x27(r#)?(\p{XID_Start}\p{XID_Continue}*|_\p{XID_Continue}*)
(0b[01_]*[01][01_]*|0o[0-7_]*[0-7][0-7_]*|0x[0-9A-Fa-f_]*[0-9A-Fa-f][0-9A-Fa-f_]*|[0-9][0-9_]*)([iu](8|16|32|64|128|size))?
([0-9][0-9_]*\.[0-9][0-9_]*([eE][+-]?[0-9_]*[0-9][0-9_]*)?|[0-9][0-9_]*[eE][+-]?[0-9_]*[0-9][0-9_]*)(f32|f64)?|[0-9][0-9_]*(f32|f64)
\x27([^'\\\n\r\t]|\\(['"nrt\\0]|x[0-7][0-9A-Fa-f]|u\{([0-9A-Fa-f]_*){1,6}\}))'
b'([[:ascii:]&&[^'\\\n\r\t]]|\\(['"nrt\\0]|x[0-9A-Fa-f]{2}))'
"([^"\\\r]|\\(['"nrt\\0]|x[0-7][0-9A-Fa-f]|u\{([0-9A-Fa-f]_*){1,6}\})|\\\n)*"
b"([[:ascii:]&&[^"\\\r]]|\\(['"nrt\\0]|x[0-9A-Fa-f]{2})|\\\n)*" b?r"[^"\r]*" b?r#"([^"\r]|"+[^"#\r])*"+#
b?r##"([^"\r]|"+(#"+)*([^"#\r]|#[^"#\r]))*"+(#"+)*## //[^\n]* 1@//(/([^/\n][^\n]*)?|![^\n]*)
/\*([^*/]|/+[^*/]|\*+[^*/]|/+\*([^*/]|/+[^*/]|\*+[^*/])*\*+/)*\*+/
[\t\n\v\f\r\x20\x{85}\x{200E}\x{200F}\x{2028}\x{2029}]+ <- as"#####;

// Which automata are run by a table: no clause says it.
#[test]
fn great_automata_have_tables(rt: HostRuntime) {
    let rows = &[(WINDOW, "0 bbabbbbbbbbbbbbb"), (RUST, "0 as")];
    expect(&rt, rt.alloc(), Call::Lexer(Asked::ByTable), rows);
}
