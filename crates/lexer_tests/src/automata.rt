//! Automata of one tree: what they are compiled to, or the fault, and what they find; how ranges are cut; trees that no text gives; and how
//! values and errors are written.

use crate::calls::{Call, answer, expect, expect_lines, halves};
use crate::trees::tree_of;
use lalrpop_lexer::lexer::dfa::overlap::{remove_overlap, remove_overlap_counted};
use lalrpop_lexer::lexer::dfa::{self, DfaConstructionError, NfaIndex, Precedence};
use lalrpop_lexer::lexer::nfa::interpret::{interpret, interpret_counted};
use lalrpop_lexer::lexer::nfa::{
    ACCEPT, Edge, EdgeLabel, Nfa, NfaConstructionError, NfaStateIndex, Noop, Other, REJECT, START,
    Steps, Test,
};
use lalrpop_lexer::lexer::re::{Class, ClassBytes, ClassBytesRange, Hir};
use lalrpop_lexer::{ShownWord, longest_match};
use std::alloc::{AllocError, Global};
use std::collections::BTreeSet;
use std::env::{self, VarError};
use std::fmt::{Debug, Write};

fn states_or_fault(alloc: Global, tree: &Hir) -> Result<String, AllocError> {
    match Nfa::from_re(alloc, tree) {
        Ok(nfa) => format!(in alloc; "{}", nfa.len()),
        Err(NfaConstructionError::OutOfMemory) => Err(AllocError),
        Err(fault) => format!(in alloc; "{fault:?}"),
    }
}

/// How many states a pattern is compiled to, the three fixed ones included, or its fault.
pub(crate) fn outcome(alloc: Global, pattern: &str) -> Result<String, AllocError> {
    let tree = tree_of(alloc, pattern)?;
    states_or_fault(alloc, &tree)
}

fn compiled(alloc: Global, tree: &Hir) -> Result<Nfa, AllocError> {
    match Nfa::from_re(alloc, tree) {
        Ok(nfa) => Ok(nfa),
        Err(_) => Err(AllocError),
    }
}

pub(crate) fn nfa_of(alloc: Global, pattern: &str) -> Result<Nfa, AllocError> {
    let tree = tree_of(alloc, pattern)?;
    compiled(alloc, &tree)
}

// Writes the edge, and notes the state it leads to.
fn write_edge<L: Debug>(
    out: &mut String,
    reached: &mut Vec<NfaStateIndex>,
    edge: &Edge<L>,
) -> Result<(), AllocError> {
    if !reached.contains(&edge.to) {
        reached.push(edge.to)?;
    }
    write!(out, "{edge:?}\n")
}

// Writes the edges of one kind that leave the state, a line each.
fn write_edges<L: EdgeLabel + Debug>(
    out: &mut String,
    reached: &mut Vec<NfaStateIndex>,
    nfa: &Nfa,
    from: NfaStateIndex,
) -> Result<(), AllocError> {
    if nfa.contains_state(from) {
        for edge in nfa.edges::<L>(from) {
            write_edge(out, reached, edge)?;
        }
    }
    Ok(())
}

fn write_all_edges(
    out: &mut String,
    reached: &mut Vec<NfaStateIndex>,
    nfa: &Nfa,
    from: NfaStateIndex,
) -> Result<(), AllocError> {
    write_edges::<Noop>(out, reached, nfa, from)?;
    write_edges::<Test>(out, reached, nfa, from)?;
    write_edges::<Other>(out, reached, nfa, from)
}

// The edges of the three fixed states and of all that are reached from them.
fn edges_of(alloc: Global, nfa: &Nfa) -> Result<String, AllocError> {
    let mut out = String::new(alloc);
    let mut reached = vec![in alloc; ACCEPT, REJECT, START]?;
    for place in 0..nfa.len() {
        if let Some(state) = reached.get(place).copied() {
            write_all_edges(&mut out, &mut reached, nfa, state)?;
        }
    }
    Ok(out)
}

/// The edges of the pattern's automaton.
pub(crate) fn edges(alloc: Global, pattern: &str) -> Result<String, AllocError> {
    let nfa = nfa_of(alloc, pattern)?;
    edges_of(alloc, &nfa)
}

fn found_by(alloc: Global, nfa: &Nfa, text: &str) -> Result<String, AllocError> {
    let found = interpret(alloc, nfa, text)?;
    let counted = interpret_counted(alloc, nfa, text, &mut Steps::new())?;
    format!(in alloc; "{found:?} {counted:?}")
}

/// What the pattern's automaton finds in the text of `PATTERN <- TEXT`, without and with a count of its steps.
pub(crate) fn run(alloc: Global, row: &str) -> Result<String, AllocError> {
    let (pattern, text) = halves(row, " <- ");
    let nfa = nfa_of(alloc, pattern)?;
    found_by(alloc, &nfa, text)
}

fn range_of(ends: &str) -> Test {
    let (start, end) = halves(ends, "-");
    Test::new(start.parse().unwrap_or(0)..=end.parse().unwrap_or(0))
}

// The set of ranges such as `97-106`, with blanks between them.
fn set_of(alloc: Global, ranges: &str) -> Result<BTreeSet<Test>, AllocError> {
    let mut set = BTreeSet::new(alloc);
    for range in ranges.split_whitespace() {
        set.insert(range_of(range))?;
    }
    Ok(set)
}

fn blocks_shown(alloc: Global, blocks: &[Test]) -> Result<String, AllocError> {
    let mut line = String::new(alloc);
    for block in blocks {
        let (start, end) = (block.start(), block.end());
        write!(line, "{start}-{end} ")?;
    }
    Ok(line)
}

fn are_counted_alike(
    alloc: Global,
    set: &BTreeSet<Test>,
    blocks: &[Test],
) -> Result<bool, AllocError> {
    let counted = remove_overlap_counted(alloc, set, &mut Steps::new())?;
    Ok(counted.as_slice() == blocks)
}

fn blocks_of(alloc: Global, set: &BTreeSet<Test>) -> Result<String, AllocError> {
    let blocks = remove_overlap(alloc, set)?;
    if are_counted_alike(alloc, set, &blocks)? {
        blocks_shown(alloc, &blocks)
    } else {
        String::from_str(alloc, "another answer if steps are counted")
    }
}

/// The blocks that the ranges are cut into.
pub(crate) fn ranges(alloc: Global, ranges: &str) -> Result<String, AllocError> {
    let set = set_of(alloc, ranges)?;
    blocks_of(alloc, &set)
}

/// The tree of ranges of bytes, such as `200-255`, with blanks between them.
pub(crate) fn bytes_of(alloc: Global, given: &str) -> Result<Hir, AllocError> {
    let mut ranges = Vec::new(alloc);
    for range in given.split(' ') {
        let (start, end) = halves(range, "-");
        ranges.push(ClassBytesRange::new(start.parse().unwrap_or(0), end.parse().unwrap_or(0)))?;
    }
    Ok(Hir::class(Class::Bytes(ClassBytes::new(alloc, ranges)?)))
}

// What the trees, all of one precedence, find in the text: the index of the tree and the match.
fn longest(
    alloc: Global,
    trees: &[Hir],
    precedences: &[Precedence],
    text: &str,
) -> Result<String, AllocError> {
    if trees.len() != precedences.len() {
        return Err(AllocError);
    }
    match longest_match(alloc, trees, precedences, text) {
        Ok(Some((index, matched))) => format!(in alloc; "{} {matched}", index.index()),
        Ok(None) => String::from_str(alloc, "none"),
        Err(_) => Err(AllocError),
    }
}

/// What is found by the ranges of bytes in `RANGES <- TEXT`.
pub(crate) fn by_bytes(alloc: Global, row: &str) -> Result<String, AllocError> {
    let (ranges, text) = halves(row, " <- ");
    longest(alloc, &[bytes_of(alloc, ranges)?], &[Precedence(0)], text)
}

/// What is found by a row and a choice of no trees.
pub(crate) fn by_nothing(alloc: Global, text: &str) -> Result<String, AllocError> {
    let trees = [
        Hir::alternation(Vec::new(alloc)),
        Hir::concat(Vec::new(alloc)),
    ];
    longest(alloc, &trees, &[Precedence(0), Precedence(0)], text)
}

fn ranges_printed(alloc: Global) -> Result<String, AllocError> {
    let tests = [
        Test::char('a'),
        Test::char('.'),
        Test::byte(b'!'),
        Test::char('\u{3b1}'),
        Test::inclusive_range('a', 'z'),
        Test::inclusive_byte_range(b'\n', b'9'),
        Test::new(55296..=57343),
        Test::new(97..=1114112),
    ];
    format!(in alloc; "{tests:?}")
}

fn edges_printed(alloc: Global) -> Result<String, AllocError> {
    let letters = Edge {
        from: START,
        label: Test::inclusive_range('a', 'z'),
        to: ACCEPT,
    };
    let other = Edge {
        from: ACCEPT,
        label: Other,
        to: REJECT,
    };
    let start = dfa::START;
    format!(in alloc; "{letters:?}, {other:?}, {ACCEPT:?}, {start} {start:?}")
}

fn faults_printed(alloc: Global) -> Result<String, AllocError> {
    use NfaConstructionError::{ByteRegex, LookAround, NamedCaptures, NonGreedy, OutOfMemory};
    format!(in alloc; "{NamedCaptures} {NonGreedy} {LookAround} {ByteRegex} {OutOfMemory}")
}

fn errors_printed(alloc: Global) -> Result<String, AllocError> {
    let ambiguity = DfaConstructionError::Ambiguity {
        match0: NfaIndex::new(1),
        match1: NfaIndex::new(0),
        word: Vec::new(alloc),
    };
    let memory = DfaConstructionError::OutOfMemory;
    format!(in alloc; "{ambiguity} {memory}")
}

// The word of these values, in decimal.
fn word_printed(alloc: Global, values: &str) -> Result<String, AllocError> {
    let mut word = Vec::new(alloc);
    for value in values.split_whitespace() {
        word.push(value.parse().unwrap_or(0))?;
    }
    format!(in alloc; "{}", ShownWord(&word))
}

/// How values of this name are written, or a word of these values.
pub(crate) fn printed(alloc: Global, name: &str) -> Result<String, AllocError> {
    match name {
        "ranges" => ranges_printed(alloc),
        "edges" => edges_printed(alloc),
        "faults" => faults_printed(alloc),
        "errors" => errors_printed(alloc),
        values => word_printed(alloc, values),
    }
}

// Each character and each class has a state. An alternation has one of its own, and so have the turns of a repetition without
// limit, and each turn that may be left out. What is never repeated has none, and no fault.
//
// Of a concatenation the last faulty part counts, of an alternation the first faulty branch, and of a group with a name the name.
const OUTCOMES: &str = r"
(?:) => 3
a => 4
é => 4
a|b => 6
a* => 5
b{3,} => 8
a{0} => 3
ab{2,4} => 10
(?:\ba)(?P<n>b) => NamedCaptures
(?:\ba)|(?P<n>b) => LookAround
a{1}? => NonGreedy
(?:\b){0}?a => NonGreedy
(\b) => LookAround
(?P<n>\b) => NamedCaptures
(?P<n>\b){0} => 3
";

// The edges of automata. Nfa0 accepts, Nfa1 rejects, and Nfa2 is the start. The state of a repetition without limit is made before those of
// its turns.
const SHAPES: &[(&str, &str)] = &[
    (
        "(?:)",
        "Nfa0 -Other-> Nfa1\nNfa1 -Other-> Nfa1\nNfa2 -Noop-> Nfa0\n",
    ),
    (
        "a",
        "Nfa0 -Other-> Nfa1\nNfa1 -Other-> Nfa1\nNfa2 -Noop-> Nfa3\nNfa3 -a-> Nfa0\nNfa3 -Other-> Nfa1\n",
    ),
    (
        "[0-9a-c]",
        "Nfa0 -Other-> Nfa1\nNfa1 -Other-> Nfa1\nNfa2 -Noop-> Nfa3\n\
        Nfa3 -['0'..='9']-> Nfa0\nNfa3 -['a'..='c']-> Nfa0\nNfa3 -Other-> Nfa1\n",
    ),
    (
        "a*",
        "Nfa0 -Other-> Nfa1\nNfa1 -Other-> Nfa1\nNfa2 -Noop-> Nfa3\nNfa3 -Noop-> Nfa0\n\
        Nfa3 -Noop-> Nfa4\nNfa4 -a-> Nfa3\nNfa4 -Other-> Nfa1\n",
    ),
];

const RUNS: &[(&str, &str)] = &[
    ("(a*)* <- aab", r#"Some("aa") Some("aa")"#),
    (
        "(abc)* <- abcabcabcab",
        r#"Some("abcabcabc") Some("abcabcabc")"#,
    ),
    ("ab{2,4} <- abbbbb", r#"Some("abbbb") Some("abbbb")"#),
    ("ab{2,4} <- ab", "None None"),
    (". <- \n", "None None"),
];

#[test]
fn one_tree_is_compiled_and_run(rt: HostRuntime) {
    expect_lines(&rt, rt.alloc(), Call::Outcome, OUTCOMES);
    expect(&rt, rt.alloc(), Call::Edges, SHAPES);
    expect(&rt, rt.alloc(), Call::Run, RUNS);
}

// No memory holds the states of that many turns. `.ci/refusals` bounds the memory, and sets this variable; without it the
// test has nothing to show. The request that is refused may be one for the tree, and then only the second call comes to the states.
#[test]
fn a_great_count_is_refused(rt: HostRuntime) {
    if !matches!(env::var(&rt, "REFUSE"), Err(VarError::NotPresent)) {
        assert!(rt; answer(rt.alloc(), Call::Outcome, "a{4294967295}").is_err());
        assert!(rt; answer(rt.alloc(), Call::Outcome, "a{4294967295}").is_err());
    }
}

const PARTS: &str = r"
97-106 97-117 102-104 102-112 => 97-101 102-104 105-106 107-112 113-117 
0-4294967295 5-4294967295 => 0-4 5-4294967295 
0-0 0-97 => 0-0 1-97 
3-2 1-1 => 1-1 
 => 
97-122 99-108 48-57 => 48-57 97-98 99-108 109-122 
97-122 99-108 108-122 48-57 => 48-57 97-98 99-107 108-108 109-122 
0-3 2-4 3-5 => 0-1 2-2 3-3 4-4 5-5 
98-98 97-122 => 97-97 98-98 99-122 
0-4 5-9 => 0-4 5-9 
0-9 2-7 4-5 => 0-1 2-3 4-5 6-7 8-9 
4294967295-4294967295 0-4294967295 7-3 => 0-4294967294 4294967295-4294967295 
";

#[test]
fn ranges_are_cut(rt: HostRuntime) {
    expect_lines(&rt, rt.alloc(), Call::Ranges, PARTS);
}

#[test]
fn trees_that_no_text_gives(rt: HostRuntime) {
    expect(
        &rt,
        rt.alloc(),
        Call::Bytes,
        &[("200-255 <- \u{e9}", "0 \u{e9}")],
    );
    expect(&rt, rt.alloc(), Call::Nothing, &[("a", "none")]);
}

const PRINTED: &[(&str, &str)] = &[
    (
        "ranges",
        "[a, \\., \\!, \u{3b1}, ['a'..='z'], ['\\n'..='9'], [55296..]57343], [97..]1114112]]",
    ),
    (
        "edges",
        "Nfa2 -['a'..='z']-> Nfa0, Nfa0 -Other-> Nfa1, Nfa0, Dfa0 Dfa0",
    ),
    (
        "faults",
        "NamedCaptures NonGreedy LookAround ByteRegex OutOfMemory",
    ),
    ("errors", "Ambiguity OutOfMemory"),
    ("", r#""""#),
    ("97 233 32", r#""aé ""#),
    ("34 92 10 13 9", r#""\"\\\n\r\t""#),
    ("0 127 55296 1114112", r#""\u{0}\u{7f}\u{d800}\u{110000}""#),
    ("173 8238", r#""\u{ad}\u{202e}""#),
];

#[test]
fn values_and_errors_are_written(rt: HostRuntime) {
    expect(&rt, rt.alloc(), Call::Printed, PRINTED);
}
