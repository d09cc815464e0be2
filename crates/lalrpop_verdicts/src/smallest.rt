//! The smallest automaton with the same answers: one state for each class of states that answer alike.
ghost use Rattle.std.specs.Prelude.{◌≡◌, ℕ, ◌+◌, ◌<◌, ◌↔◌, ◌++◌, ◌∷◌, List, [], length, slice_get, slice_index, IsSomeAnd, IsTrue, IfOk, OnOk, Some};
ghost use Rattle.lalrpop_hir.specs.Range.{Range};
ghost use Rattle.lalrpop_hir.specs.Tree.{Tree};
ghost use Rattle.lalrpop_dfa.specs.Dfa.{Row, IsWellFormed, Recognizes, RecognizesAll};
ghost use Rattle.lalrpop_verdicts.specs.Smallest.{AnswerAlike, IsCanonical, IsSmallest, edges_of};
ghost use Rattle.lalrpop_verdicts.specs.Internal.Classes.{AreAlikeClasses};
ghost use Rattle.lalrpop_verdicts.specs.Internal.ClassRows.{AreClassRows, AreJoined, AreMet, AreMetInTurn, AreNumbered, IsAdded, IsClassKind, IsClassRow, IsNumberOf, LeadsTo, StaysInClass};

use crate::classes::classes;
use lalrpop_dfa::{Dfa, DfaStateIndex, ItemSet, Kind, RowWriter, Rows, START};
use lalrpop_hir::Test;
use std::alloc::{AllocError, Global};

/// The smallest automaton that answers each word alike: after each word it accepts the same pattern as `dfa` does, or none
/// where `dfa` accepts none. No automaton that does has fewer states.
///
/// It has one state for each class of states that answer alike, and leaves out states that no word leads to. A state rejects
/// exactly if no word leads from it to a match, so a run stops as soon as no match can come. Its edges are as few as can be:
/// neighbouring ones that lead to one state are one edge, and none leads where all other values lead. What `dfa` recognizes,
/// it recognizes too. The states are numbered breadth first from `START`, along the edges in their order.
///
/// So it is one of a kind: two results that answer each word alike are equal but for their items, whatever automata they were
/// made from. They have the same states by number, each with the same kind, the same test edges and the same other edge.
///
/// The items are lost: a state stands for several sets of items here. Keep `dfa` for what asks for them.
///
/// Cost: rounds that split the states into classes, at most one for each state, and then one walk over the edges of one state
/// for each class.
///
/// # Errors
///
/// `AllocError` if a request for memory was refused.
///
/// ```
/// // After `a` and after `b` a digit is awaited: one state does for both.
/// let regexs = vec![in alloc; parse_regex(alloc, "a[0-9]|b[0-9]")?]?;
/// let dfa = build_dfa(alloc, &regexs, &[Precedence(0)])?;
/// let least = minimized(alloc, &dfa)?;
/// let is_no_larger = least.states().len() <= dfa.states().len(); // true
/// ```
pub fn minimized(alloc: Global, dfa: &Dfa) -> Result<Dfa, AllocError>
    ensures alike { IfOk result (λ least. AnswerAlike dfa.now least) }
    ensures smallest { IfOk result (λ least. IsSmallest least) }
    ensures canonical { IfOk result IsCanonical }
    ensures recognizes { IfOk result (λ least. (ts : List Tree) (ps : List ℕ)
        → Recognizes dfa.now ts ps → Recognizes least ts ps) }
    ensures recognizes_all { IfOk result (λ least. (ts : List Tree) (ps : List ℕ)
        → RecognizesAll dfa.now ts ps → RecognizesAll least ts ps) }
{
    let found = classes(alloc, dfa)?;
    let rows = class_rows(alloc, dfa, found)?;
    Dfa::new(alloc, rows)
}

// The row of each class that some word leads into.
fn class_rows(alloc: Global, dfa: &Dfa, classes: Vec<usize>) -> Result<Rows, AllocError>
    requires classes { AreAlikeClasses dfa.now classes.items }
    ensures rows { IfOk result (λ rows. AreClassRows dfa.now classes.items rows) }
    ensures well_formed { OnOk result (IsWellFormed dfa.now) }
{
    let count = dfa.states().len();
    let mut met = Met::new(alloc, classes, count)?;
    met.number(START)?;
    let mut writer = RowWriter::new(alloc);
    while writer.len() < met.states.len() {
        let state = met.states[writer.len()];
        write_row(alloc, dfa, state, &mut met, &mut writer)?;
    }
    Ok(writer.into_rows())
}

// Writes the row of the state's class, and numbers the classes that it leads into.
fn write_row(
    alloc: Global,
    dfa: &Dfa,
    state: DfaStateIndex,
    met: &mut Met,
    writer: &mut RowWriter,
) -> Result<(), AllocError>
    requires within { state < length dfa.now }
    requires same_length { length met.old.classes.items ≡ length dfa.now }
    requires numbered { AreNumbered met.old.classes.items met.old.numbers.items
        met.old.states.items }
    requires empty { writer.old.tests ≡ [] }
    ensures classes { OnOk result (met.new.classes.items ≡ met.old.classes.items) }
    ensures numbered { OnOk result (AreNumbered met.new.classes.items met.new.numbers.items
        met.new.states.items) }
    ensures met { OnOk result (AreMet (LeadsTo dfa.now state)
        met.old.states.items met.new.states.items) }
    ensures row { OnOk result ((s : Row) × (writer.new.rows ≡ writer.old.rows ++ s ∷ [])
        × IsClassRow dfa.now met.old.classes.items met.new.states.items state s
        × AreMetInTurn met.old.states.items (edges_of s.tests s.other) met.new.states.items) }
    ensures empty { OnOk result (writer.new.tests ≡ []) }
{
    let edges = joined_edges(alloc, dfa, state, &met.classes)?;
    for (test, target) in &edges {
        let number = met.number(*target)?;
        writer.add_edge(test.clone()?, number)?;
    }
    let other = met.number(dfa.state(state).other_edge())?;
    let kind = class_kind(dfa, state, &met.classes);
    writer.end_row(no_items(alloc), kind, other)?;
    Ok(())
}

// The test edges of the state that its class needs: none leads into the class that all other values lead into, and neighbours
// that lead into one class are one edge.
fn joined_edges(
    alloc: Global,
    dfa: &Dfa,
    state: DfaStateIndex,
    classes: &[usize],
) -> Result<Vec<(Test, DfaStateIndex)>, AllocError>
    requires within { state < length dfa.now }
    requires same_length { length classes.now ≡ length dfa.now }
    ensures joined { IfOk result (λ edges. IsSomeAnd (slice_get dfa.now state)
        (λ r. AreJoined (slice_index classes.now) r.other r.tests edges.items)) }
    ensures well_formed { OnOk result (IsWellFormed dfa.now) }
{
    let other = classes[dfa.state(state).other_edge().index()];
    let mut edges = Vec::with_capacity(alloc, dfa.test_edges(state).len())?;
    for (test, target) in dfa.test_edges(state) {
        if classes[target.index()] != other {
            add_joined(&mut edges, classes, test.clone()?, *target)?;
        }
    }
    Ok(edges)
}

// Adds an edge after the others. If it touches the last one, and both lead into one class, they become one edge.
fn add_joined(
    edges: &mut Vec<(Test, DfaStateIndex)>,
    classes: &[usize],
    test: Test,
    target: DfaStateIndex,
) -> Result<(), AllocError>
    requires within { target < length classes.now }
    requires all_within { (k : ℕ) (u : Range × ℕ) → slice_get edges.old.items k ≡ Some u
        → u.1 < length classes.now }
    ensures { OnOk result (IsAdded (slice_index classes.now) edges.old.items (test, target)
        edges.new.items) }
{
    if let Some((last, into)) = edges.last()
        && touches(last, &test)
        && classes[into.index()] == classes[target.index()]
    {
        let both = Test::new(last.start()..=test.end());
        edges.pop();
        edges.push((both, target))?;
        return Ok(());
    }
    edges.push((test, target))?;
    Ok(())
}

// Whether the test begins right after the last one.
#[inline(always)]
fn touches(last: &Test, test: &Test) -> bool
    ensures { IsTrue result ↔ (test.now.start ≡ last.now.end + 1) }
{
    last.end() < test.start() && test.start() - last.end() == 1
}

/// What an automaton that stands for another one says of the items that a state holds: nothing.
pub(crate) fn no_items(alloc: Global) -> ItemSet
    ensures { result ≡ [] }
{
    ItemSet::new(0, Vec::new(alloc), Vec::new(alloc))
}

// The kind of the state's class. It rejects if the state accepts nothing, and no value leads out of the class.
fn class_kind(dfa: &Dfa, state: DfaStateIndex, classes: &[usize]) -> Kind
    requires within { state < length dfa.now }
    requires same_length { length classes.now ≡ length dfa.now }
    ensures { IsClassKind dfa.now classes.now state result }
{
    match dfa.state(state).kind() {
        Kind::Accepts(pattern) => Kind::Accepts(*pattern),
        Kind::Reject | Kind::Neither => {
            if stays_in_class(dfa, state, classes) {
                Kind::Reject
            } else {
                Kind::Neither
            }
        }
    }
}

// Whether each value leads from the state into the state's own class.
fn stays_in_class(dfa: &Dfa, state: DfaStateIndex, classes: &[usize]) -> bool
    requires within { state < length dfa.now }
    requires same_length { length classes.now ≡ length dfa.now }
    ensures { IsTrue result ↔ StaysInClass dfa.now classes.now state }
{
    let class = classes[state.index()];
    for (_, target) in dfa.test_edges(state) {
        if classes[target.index()] != class {
            return false;
        }
    }
    classes[dfa.state(state).other_edge().index()] == class
}

/// The classes that a walk has met.
#[derive(Drop)]
pub(crate) struct Met {
    /// The class of each state of the automaton.
    pub(crate) classes: Vec<usize>,
    /// The number of each class, if it was met.
    pub(crate) numbers: Vec<Option<usize>>,
    /// By number, the state by which the class was met first.
    pub(crate) states: Vec<DfaStateIndex>,
}

impl Met {
    /// None met, of classes below `count`.
    ///
    /// # Errors
    ///
    /// `AllocError` if a request for memory was refused.
    pub(crate) fn new(alloc: Global, classes: Vec<usize>, count: usize) -> Result<Met, AllocError>
        requires below { (p : ℕ) → p < length classes.items → slice_index classes.items p < count }
        ensures classes { IfOk result (λ met. met.classes.items ≡ classes.items) }
        ensures numbered { IfOk result (λ met. AreNumbered met.classes.items met.numbers.items
            met.states.items) }
        ensures none { IfOk result (λ met. met.states.items ≡ []) }
    {
        Ok(Met {
            classes,
            numbers: vec![in alloc; None; count]?,
            states: Vec::new(alloc),
        })
    }

    /// The number of the state's class. A class that is met for the first time gets the next number.
    ///
    /// # Errors
    ///
    /// `AllocError` if a request for memory was refused.
    pub(crate) fn number(&mut self, state: DfaStateIndex) -> Result<DfaStateIndex, AllocError>
        requires within { state < length self.old.classes.items }
        requires numbered { AreNumbered self.old.classes.items self.old.numbers.items
            self.old.states.items }
        ensures classes { OnOk result (self.new.classes.items ≡ self.old.classes.items) }
        ensures numbered { OnOk result (AreNumbered self.new.classes.items self.new.numbers.items
            self.new.states.items) }
        ensures met { OnOk result (AreMet (λ q. q ≡ state)
            self.old.states.items self.new.states.items) }
        ensures number { IfOk result (λ n. IsNumberOf self.new.classes.items self.new.states.items
            state n) }
        ensures turn { IfOk result (λ n. AreMetInTurn self.old.states.items (n ∷ [])
            self.new.states.items) }
    {
        let class = self.classes[state.index()];
        if let Some(number) = self.numbers[class] {
            return Ok(DfaStateIndex::new(number));
        }
        let number = self.states.len();
        self.states.push(state)?;
        self.numbers[class] = Some(number);
        Ok(DfaStateIndex::new(number))
    }
}
