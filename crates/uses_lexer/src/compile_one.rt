//! The automaton of one pattern: compiled, inspected state by state, and run.

ghost use Rattle.std.specs.Prelude.{◌≡◌, ◌≢◌, ◌+◌, ◌*◌, ◌^◌, ◌<◌, ◌≤◌, ◌++◌, [], ◌∷◌, None, Some, length, map, slice_get, IfSome, IfNone, IfOk, IfErr, OnOk, MatchBool, option_map};
ghost use Rattle.std.specs.List.{filter};
ghost use Rattle.std.specs.Str.{chars};
ghost use Rattle.lalrpop_hir.specs.Language.{Matches};
ghost use Rattle.lalrpop_hir.specs.Size.{size};
ghost use Rattle.lalrpop_hir.specs.Tree.{Tree};
ghost use Rattle.lalrpop_nfa.specs.Compiled.{IsCompiled, HasFixedEdges};
ghost use Rattle.lalrpop_hir.specs.Fault.{fault};
ghost use Rattle.lalrpop_nfa.specs.Graph.{Graph};
ghost use Rattle.lalrpop_hir.specs.Prefix.{IsPrefix, IsLongestOf};
ghost use Rattle.lalrpop_nfa.specs.Walk.{leaves};
ghost use Rattle.lalrpop_nfa.specs.declared.edge.StateKind.TheVariants.{Accept, Reject};
ghost use Rattle.lalrpop_hir.specs.declared.error.NfaConstructionError.TheVariants.{OutOfMemory};

use lalrpop_hir::Regex;
use lalrpop_nfa::interpret::{interpret, interpret_counted};
use lalrpop_nfa::{
    EdgeLabel, Nfa, NfaConstructionError, NfaStateIndex, Noop, Other, StateKind, Steps, Test,
};
use std::alloc::{AllocError, Global};

// Needs lalrpop_nfa::Nfa::from_re: ok, err, fixed_edges.
/// The automaton of the pattern, to inspect its states. A pattern that has one has no fault.
pub fn compiled(alloc: Global, regex: &Regex) -> Result<Nfa, NfaConstructionError>
    ensures compiled { IfOk result (IsCompiled regex.now) }
    ensures fixed_edges { IfOk result (λ nfa. HasFixedEdges nfa.edges) }
    ensures no_fault { OnOk result (fault regex.now ≡ None) }
    ensures fault { IfErr result (λ e. e ≢ OutOfMemory → fault regex.now ≡ Some e) }
{
    Nfa::from_re(alloc, regex)
}

// Needs lalrpop_nfa::Nfa::from_re: ok, err.
// Needs lalrpop_hir::NfaConstructionError::from: ghost from_gives.
/// Adds the automaton of the pattern to a list.
pub fn add_compiled(
    alloc: Global,
    nfas: &mut Vec<Nfa>,
    regex: &Regex,
) -> Result<(), NfaConstructionError>
    ensures added { OnOk result ((g : Graph)
        × (nfas.new.items ≡ nfas.old.items ++ g ∷ []) × IsCompiled regex.now g) }
    ensures fault { IfErr result (λ e. e ≢ OutOfMemory → fault regex.now ≡ Some e) }
{
    nfas.push(Nfa::from_re(alloc, regex)?)?;
    Ok(())
}

// Needs lalrpop_nfa::Nfa::len: value.
/// How many states the pattern's automaton has.
pub fn state_count(alloc: Global, regex: &Regex) -> Result<usize, NfaConstructionError>
    ensures { IfOk result (λ count. count ≤ 3 + size regex.now) }
{
    let nfa = Nfa::from_re(alloc, regex)?;
    Ok(nfa.len())
}

// Needs lalrpop_nfa::Nfa::kind: kind.
// Needs lalrpop_nfa::Nfa::contains_state: answer.
// Needs lalrpop_hir::NfaStateIndex::new: value.
/// What the state with this number is for, if there is one.
pub fn kind_of(nfa: &Nfa, number: usize) -> Option<StateKind>
    ensures { result ≡ slice_get nfa.now.kinds number }
{
    let state = NfaStateIndex::new(number);
    if nfa.contains_state(state) {
        Some(nfa.kind(state))
    } else {
        None
    }
}

// Needs lalrpop_nfa::Nfa::is_accepting_state: answer.
// Needs lalrpop_nfa::Nfa::is_rejecting_state: answer.
/// Whether the state is decided: what leads here is matched, or neither it nor any continuation of it is.
pub fn is_decided(nfa: &Nfa, state: NfaStateIndex) -> Option<bool>
    requires { state < length nfa.now.kinds }
    ensures some { IfSome result (λ accepts. MatchBool accepts
        (slice_get nfa.now.kinds state ≡ Some Accept)
        (slice_get nfa.now.kinds state ≡ Some Reject)) }
    ensures none { IfNone result ((slice_get nfa.now.kinds state ≢ Some Accept)
        × (slice_get nfa.now.kinds state ≢ Some Reject)) }
{
    if nfa.is_accepting_state(state) {
        Some(true)
    } else if nfa.is_rejecting_state(state) {
        Some(false)
    } else {
        None
    }
}

// Needs lalrpop_hir::NfaStateIndex::index: value.
/// The state with the next number.
pub fn state_after(state: NfaStateIndex) -> NfaStateIndex
    requires { state + 1 < 2 ^ 64 }
    ensures { result ≡ state + 1 }
{
    NfaStateIndex::new(state.index() + 1)
}

// Needs lalrpop_nfa::Nfa::edges: edges.
// Needs lalrpop_nfa::EdgeIterator::next: ghost next_gives, ghost remaining.
/// Where the edges of one kind of label lead from the state.
pub fn targets<L: EdgeLabel>(
    alloc: Global,
    nfa: &Nfa,
    state: NfaStateIndex,
) -> Result<Vec<NfaStateIndex>, AllocError>
    requires { state < length nfa.now.kinds }
    ensures { IfOk result (λ found.
        found.items ≡ map (λ e. e.to) (filter (leaves state) (L.list nfa.now.edges))) }
{
    nfa.edges::<L>(state).map(|edge| edge.to).collect(alloc)
}

// Needs lalrpop_nfa::Test::list: ghost list.
/// The least values that the edges of the state read.
pub fn least_values(alloc: Global, nfa: &Nfa, state: NfaStateIndex) -> Result<Vec<u32>, AllocError>
    requires { state < length nfa.now.kinds }
    ensures { IfOk result (λ found.
        found.items ≡ map (λ e. e.label.start) (filter (leaves state) nfa.now.edges.tests)) }
{
    nfa.edges::<Test>(state)
        .map(|edge| edge.label.start())
        .collect(alloc)
}

// Needs lalrpop_nfa::Noop::list: ghost list.
/// The states that follow without reading a value.
pub fn epsilon_targets(
    alloc: Global,
    nfa: &Nfa,
    state: NfaStateIndex,
) -> Result<Vec<NfaStateIndex>, AllocError>
    requires { state < length nfa.now.kinds }
    ensures { IfOk result (λ found.
        found.items ≡ map (λ e. e.to) (filter (leaves state) nfa.now.edges.noops)) }
{
    targets::<Noop>(alloc, nfa, state)
}

// Needs lalrpop_nfa::Other::list: ghost list.
/// The state that all values lead to that no test edge reads.
pub fn other_target(nfa: &Nfa, state: NfaStateIndex) -> Option<NfaStateIndex>
    requires { state < length nfa.now.kinds }
    ensures { result
        ≡ option_map (λ e. e.to) (slice_get (filter (leaves state) nfa.now.edges.others) 0) }
{
    nfa.edges::<Other>(state).next().map(|edge| edge.to)
}

// Needs lalrpop_nfa::Nfa::from_re: ok, err.
// Needs lalrpop_nfa::interpret: answer, prefix.
// Needs lalrpop_hir::NfaConstructionError::from: ghost from_gives.
/// The longest prefix of the text that the pattern matches, or the pattern's fault.
pub fn longest_prefix<'text>(
    alloc: Global,
    regex: &Regex,
    text: &'text str,
) -> Result<Option<&'text str>, NfaConstructionError>
    ensures longest { IfOk result (λ found.
        IsLongestOf (Matches regex.now) text.now (option_map (λ s. s.now) found)) }
    ensures prefix { IfOk result (λ found. IfSome found (λ s. IsPrefix s.now text.now)) }
    ensures fault { IfErr result (λ e. e ≢ OutOfMemory → fault regex.now ≡ Some e) }
{
    let nfa = Nfa::from_re(alloc, regex)?;
    Ok(interpret(alloc, &nfa, text)?)
}

// Needs lalrpop_nfa::interpret_counted: answer, prefix, cost, never_falls.
/// Runs the automaton over two texts, on one counter.
pub fn run_twice<'text>(
    alloc: Global,
    nfa: &Nfa,
    first: &'text str,
    second: &'text str,
    steps: &mut Steps,
) -> Result<Option<&'text str>, AllocError>
    ensures answer { IfOk result (λ found. (t : Tree) → IsCompiled t nfa.now
        → IsLongestOf (Matches t) second.now (option_map (λ s. s.now) found)) }
    ensures prefix { IfOk result (λ found. IfSome found (λ s. IsPrefix s.now second.now)) }
    ensures cost { steps.new ≤ steps.old
        + length nfa.now.kinds * (length (chars first.now) + 1)
        + length nfa.now.kinds * (length (chars second.now) + 1) }
    ensures never_falls { steps.old ≤ steps.new }
{
    interpret_counted(alloc, nfa, first, steps)?;
    interpret_counted(alloc, nfa, second, steps)
}
