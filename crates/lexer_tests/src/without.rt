//! Calls that take no memory. `.ci/refusals` refuses every request that is made after `from_here_on`, and they still answer: the line that
//! the answer is written to has room before.

use crate::automata::nfa_of;
use crate::calls::{Call, expect};
use crate::lexers::lexer_of;
use crate::trees::show;
use lalrpop_hir::{
    Capture, Class, ClassBytes, ClassBytesRange, ClassUnicode, ClassUnicodeRange, Hir, Look,
    Repetition,
};
use lalrpop_lexer::lexer::dfa::interpret::{interpret, interpret_counted, interpret_probed};
use lalrpop_lexer::lexer::dfa::{self, Dfa};
use lalrpop_lexer::lexer::nfa::{
    ACCEPT, Nfa, NfaStateIndex, Noop, Other, REJECT, START, Steps, Test,
};
use std::alloc::{AllocError, Global};
use std::fmt::Write;

/// A request of this size, granted or not, is the sign to refuse all that follow.
pub(crate) fn from_here_on(alloc: Global) {
    let _sign: Result<Vec<u8>, AllocError> = Vec::with_capacity(alloc, 54_321);
}

fn letters(alloc: Global) -> Result<Hir, AllocError> {
    let class = ClassUnicode::new(alloc, vec![in alloc; ClassUnicodeRange::new('z', 'a')]?)?;
    from_here_on(alloc);
    Ok(Hir::class(Class::Unicode(class)))
}

fn bytes(alloc: Global) -> Result<Hir, AllocError> {
    let class = ClassBytes::new(alloc, vec![in alloc; ClassBytesRange::new(9, 2)]?)?;
    from_here_on(alloc);
    Ok(Hir::class(Class::Bytes(class)))
}

fn group(alloc: Global) -> Result<Hir, AllocError> {
    let inside = Box::new(alloc, Hir::empty())?;
    let name = String::from_str(alloc, "n")?;
    from_here_on(alloc);
    Ok(Hir::capture(Capture::new(Some(name), inside)))
}

fn turns(alloc: Global) -> Result<Hir, AllocError> {
    let turn = Box::new(alloc, Hir::look(Look::EndLF))?;
    from_here_on(alloc);
    Ok(Hir::repetition(Repetition::new(2, Some(4), false, turn)))
}

fn literal(alloc: Global) -> Result<Hir, AllocError> {
    let tree = Hir::literal(alloc, "é")?;
    from_here_on(alloc);
    Ok(tree)
}

// The tree of a kind that needs memory itself, which was asked for before the sign, or of another.
fn tree_of(alloc: Global, kind: &str) -> Result<Hir, AllocError> {
    match kind {
        "literal" => literal(alloc),
        "letters" => letters(alloc),
        "bytes" => bytes(alloc),
        "group" => group(alloc),
        "turns" => turns(alloc),
        leaf => {
            from_here_on(alloc);
            Ok(match leaf {
                "look" => Hir::look(Look::EndLF),
                "row" => Hir::concat(Vec::new(alloc)),
                "choice" => Hir::alternation(Vec::new(alloc)),
                _ => Hir::empty(),
            })
        }
    }
}

fn is_made_alike(letters: &Test) -> bool {
    *letters == Test::new(97..=122)
        && *letters == Test::from(ClassUnicodeRange::new('z', 'a'))
        && *letters == Test::from(ClassBytesRange::new(97, 122))
        && *letters == Test::inclusive_byte_range(97, 122)
}

fn has_ends(letters: &Test) -> bool {
    letters.start() == 97 && letters.end() == 122 && letters.len() == 26 && !letters.is_char()
}

fn holds(letters: &Test, b: &Test, empty: &Test) -> bool {
    letters.contains_u32(98)
        && letters.contains_char('b')
        && letters.intersects(b)
        && letters.is_disjoint(empty)
        && empty.is_empty()
        && !letters.is_empty()
        && b.is_char()
        && *b == Test::byte(98)
}

fn write_ranges(out: &mut String) -> Result<(), AllocError> {
    let letters = Test::inclusive_range('a', 'z');
    let is_held = holds(&letters, &Test::char('b'), &Test::exclusive_range('b', 'b'));
    let mut steps = Steps::new();
    steps.tick();
    write!(
        out,
        "{} {} {is_held}",
        is_made_alike(&letters),
        has_ends(&letters)
    )
}

// The kind of a state, whether it accepts and rejects, and whether edges of each kind of label leave it.
fn write_state(out: &mut String, nfa: &Nfa, state: NfaStateIndex) -> Result<(), AllocError> {
    if !nfa.contains_state(state) {
        return out.push_str("no state");
    }
    let (kind, index) = (nfa.kind(state), state.index());
    let (accepts, rejects) = (nfa.is_accepting_state(state), nfa.is_rejecting_state(state));
    let noop = nfa.edges::<Noop>(state).next().is_some();
    let other = nfa.edges::<Other>(state).next().is_some();
    let test = nfa.edges::<Test>(state).next().is_some();
    write!(
        out,
        "{index} {kind:?} {accepts} {rejects} {noop} {other} {test}, "
    )
}

fn write_nfa(out: &mut String, nfa: &Nfa) -> Result<(), AllocError> {
    write_state(out, nfa, ACCEPT)?;
    write_state(out, nfa, REJECT)?;
    write_state(out, nfa, START)?;
    write!(out, "{} {:?}", nfa.len(), NfaStateIndex::new(3))
}

fn write_found(out: &mut String, dfa: &Dfa, text: &str) -> Result<(), AllocError> {
    let found = interpret(dfa, text);
    let counted = interpret_counted(dfa, text, &mut Steps::new());
    let probed = interpret_probed(dfa, text, &mut Steps::new(), &mut Steps::new());
    write!(out, "{found:?} {counted:?} {probed:?}, ")
}

// The start: its kind, how many edges it has, and where two values lead.
fn write_start(out: &mut String, dfa: &Dfa) -> Result<(), AllocError> {
    if dfa::START.index() >= dfa.states().len() {
        return out.push_str("no state");
    }
    let kind = dfa.state(dfa::START).kind();
    let (c, b) = (dfa.step(dfa::START, 99), dfa.step(dfa::START, 98));
    write!(out, "{kind:?} {} {c} {b}", dfa.test_edges(dfa::START).len())
}

fn write_dfa(out: &mut String, dfa: &Dfa) -> Result<(), AllocError> {
    write_found(out, dfa, "class Foo")?;
    write_found(out, dfa, "clasz")?;
    for state in dfa.states() {
        write!(out, "{} ", state.other_edge())?;
    }
    write_start(out, dfa)
}

fn write_automaton(alloc: Global, out: &mut String, words: &str) -> Result<(), AllocError> {
    match lexer_of(alloc, words) {
        Ok(lexer) => {
            from_here_on(alloc);
            write_dfa(out, lexer.dense().dfa())
        }
        Err(_) => Err(AllocError),
    }
}

fn write_nfa_of(alloc: Global, out: &mut String, pattern: &str) -> Result<(), AllocError> {
    let nfa = nfa_of(alloc, pattern)?;
    from_here_on(alloc);
    write_nfa(out, &nfa)
}

fn write_tree(alloc: Global, out: &mut String, kind: &str) -> Result<(), AllocError> {
    let tree = tree_of(alloc, kind)?;
    show(out, &tree, 9)
}

// Calls of this name, made after the sign.
fn write_named(alloc: Global, out: &mut String, name: &str) -> Result<(), AllocError> {
    match name {
        "ranges" => {
            from_here_on(alloc);
            write_ranges(out)
        }
        "nfa" => write_nfa_of(alloc, out, "a"),
        "dfa" => write_automaton(alloc, out, "class"),
        kind => write_tree(alloc, out, kind),
    }
}

/// What calls of this name write after the sign.
pub(crate) fn shown(alloc: Global, name: &str) -> Result<String, AllocError> {
    let mut line = String::with_capacity(alloc, 300)?;
    write_named(alloc, &mut line, name)?;
    Ok(line)
}

// One row a test: where one has given the sign, the next has no memory.
#[test]
fn literals(rt: HostRuntime) {
    expect(&rt, rt.alloc(), Call::Without, &[("literal", "'é'")]);
}

#[test]
fn classes(rt: HostRuntime) {
    expect(&rt, rt.alloc(), Call::Without, &[("letters", "[a..z]")]);
}

#[test]
fn classes_of_bytes(rt: HostRuntime) {
    expect(&rt, rt.alloc(), Call::Without, &[("bytes", "bytes 2..9")]);
}

#[test]
fn groups(rt: HostRuntime) {
    expect(&rt, rt.alloc(), Call::Without, &[("group", "<n:empty>")]);
}

#[test]
fn repetitions(rt: HostRuntime) {
    expect(&rt, rt.alloc(), Call::Without, &[("turns", "EndLF{2,4}?")]);
}

#[test]
fn empty_trees(rt: HostRuntime) {
    expect(&rt, rt.alloc(), Call::Without, &[("empty", "empty")]);
}

#[test]
fn looks(rt: HostRuntime) {
    expect(&rt, rt.alloc(), Call::Without, &[("look", "EndLF")]);
}

#[test]
fn rows(rt: HostRuntime) {
    expect(&rt, rt.alloc(), Call::Without, &[("row", "()")]);
}

#[test]
fn choices(rt: HostRuntime) {
    expect(&rt, rt.alloc(), Call::Without, &[("choice", "()")]);
}

#[test]
fn ranges(rt: HostRuntime) {
    expect(
        &rt,
        rt.alloc(),
        Call::Without,
        &[("ranges", "true true true")],
    );
}

#[test]
fn one_tree(rt: HostRuntime) {
    expect(
        &rt,
        rt.alloc(),
        Call::Without,
        &[(
            "nfa",
            "0 Accept true false false true false, 1 Reject false true false true false, 2 Neither false false true false false, 4 Nfa3",
        )],
    );
}

#[test]
fn many_trees(rt: HostRuntime) {
    expect(
        &rt,
        rt.alloc(),
        Call::Without,
        &[(
            "dfa",
            r#"Some((NfaIndex(0), "class")) Some((NfaIndex(0), "class")) Some((NfaIndex(0), "class")), None None None, Dfa2 Dfa2 Dfa2 Dfa2 Dfa2 Dfa2 Dfa2 Neither 1 Dfa1 Dfa2"#,
        )],
    );
}

#[test]
fn kernel_sets(rt: HostRuntime) {
    expect(&rt, rt.alloc(), Call::Kernels, &[("! -", "none ")]);
}
