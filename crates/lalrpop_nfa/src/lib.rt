//! The automaton of one pattern: compiling a tree to it, and running it. Its labels are ranges of values; `overlap` partitions them.
#![tactic(auto)]

mod build;
mod edge;
pub mod interpret;
pub mod overlap;
mod state_set;

ghost use Rattle.std.specs.Prelude.{◌≡◌, ◌≢◌, ◌↔◌, ◌<◌, ◌++◌, ◌∷◌, [], Some, None, IfOk, IfErr, IsTrue};
ghost use Rattle.std.specs.List.{filter};
ghost use Rattle.lalrpop_hir.specs.Fault.{fault};

use edge::set_first;
pub use edge::{Edge, EdgeIterator, EdgeLabel, Edges, Noop, Other, State, StateKind};
use lalrpop_hir::Regex;
pub use lalrpop_hir::{ACCEPT, NfaConstructionError, NfaStateIndex, REJECT, START, Steps, Test};
use std::alloc::{AllocError, Global};
use std::marker::Model;

/// The automaton of one pattern: states, and edges that read nothing, a value of a range, or any other value.
///
/// ```
/// use lalrpop_lexer::lexer::nfa::{Nfa, interpret};
/// use lalrpop_lexer::lexer::re::parse_regex;
///
/// let nfa = Nfa::from_re(alloc, &parse_regex(alloc, "a+")?)?;
/// let found = interpret::interpret(alloc, &nfa, "aab")?; // Some("aa")
/// ```
#[derive(Debug, Drop)]
pub struct Nfa {
    states: Vec<State>,
    edges: Edges,
}

impl Model for Nfa {
    ghost use Rattle.lalrpop_nfa.specs.Graph.{Graph};
    ghost use Rattle.lalrpop_nfa.specs.Contiguous.{kinds_of};
    ghost use Rattle.lalrpop_nfa.specs.Internal.Adjacent.{AllContiguous};

    ghost Value = { Graph };

    ghost view = { λ n. record { kinds = kinds_of n.states.items; edges = n.edges } };

    ghost invariant = { λ n. AllContiguous n.states.items n.edges };
}

impl Nfa {
    ghost use Rattle.std.specs.Prelude.{OnOk, OnErr, length};
    ghost use Rattle.lalrpop_nfa.specs.Compiled.{IsCompiled, HasFixedEdges};
    ghost use Rattle.std.specs.List.{filter};
    ghost use Rattle.lalrpop_nfa.specs.Walk.{leaves};
    ghost use Rattle.lalrpop_nfa.specs.Internal.Adjacent.{IsOpen};
    ghost use Rattle.lalrpop_nfa.specs.Internal.Added.{with_edges};

    /// The edges of one kind that leave the state, in the order of the list of that kind.
    pub fn edges<L: EdgeLabel>(&self, from: NfaStateIndex) -> EdgeIterator<'_, L>
        requires is_state { from < length self.now.kinds }
        ensures edges { result ≡ filter (leaves from) (L.list self.now.edges) }
    {
        let place = from.index();
        EdgeIterator {
            edges: L::vec(&self.edges).as_slice(),
            from,
            index: *L::first(&self.states[place]),
        }
    }

    // Pushes an edge to the list of its kind, and sets the state's first index if it is the first of this kind.
    fn push_edge<L: EdgeLabel + Drop>(
        &mut self,
        from: NfaStateIndex,
        label: L,
        to: NfaStateIndex,
    ) -> Result<(), AllocError>
        requires is_state { from < length self.old.kinds }
        requires together { IsOpen from (L.list self.old.edges) }
        ensures pushed { OnOk result (self.new
            ≡ with_edges self.old
            (L.with_list self.old.edges
            (L.list self.old.edges ++ record { from = from; label = label; to = to } ∷ []))) }
        ensures refused { OnErr result (self.new ≡ self.old) }
    {
        let place = from.index();
        let list = L::vec_mut(&mut self.edges);
        let edge_index = list.len();
        list.push(Edge { from, label, to })?;
        set_first::<L>(&mut self.states[place], edge_index);
        Ok(())
    }

    /// Compiles a pattern to an automaton that reads exactly the pattern's words, from START to ACCEPT. It has at most
    /// three states more than the pattern's size. ACCEPT and REJECT have one edge each, an `Other` edge to REJECT, and
    /// START has one, a `Noop` edge.
    ///
    /// # Errors
    ///
    /// The pattern's fault: the last faulty part's in a concatenation, the first faulty branch's in an alternation. A part that is
    /// never repeated has none. `OutOfMemory` if a request for memory was refused.
    pub fn from_re(alloc: Global, regex: &Regex) -> Result<Nfa, NfaConstructionError>
        ensures ok { IfOk result (λ nfa. (fault regex.now ≡ None) × IsCompiled regex.now nfa) }
        ensures fixed_edges { IfOk result (λ nfa. HasFixedEdges nfa.edges) }
        ensures err { IfErr result (λ e.
            e ≢ NfaConstructionError.OutOfMemory → fault regex.now ≡ Some e) }
    {
        let mut nfa = Nfa::new(alloc)?;
        let entry = nfa.expr(regex, ACCEPT)?;
        nfa.push_edge(START, Noop, entry)?;
        Ok(nfa)
    }
}

// The states, and their kinds.
impl Nfa {
    ghost use Rattle.std.specs.Prelude.{length, slice_get};
    ghost use Rattle.lalrpop_nfa.specs.declared.edge.StateKind.TheVariants.{Accept, Reject};

    /// The kind of the state.
    pub fn kind(&self, from: NfaStateIndex) -> StateKind
        requires is_state { from < length self.now.kinds }
        ensures kind { slice_get self.now.kinds from ≡ Some result }
    {
        self.states[from.index()].kind
    }

    /// Whether a word that leads to the state matches.
    pub fn is_accepting_state(&self, from: NfaStateIndex) -> bool
        requires is_state { from < length self.now.kinds }
        ensures answer { IsTrue result ↔ (slice_get self.now.kinds from ≡ Some Accept) }
    {
        self.kind(from) == StateKind::Accept
    }

    /// Whether no continuation of a word that leads to the state matches.
    pub fn is_rejecting_state(&self, from: NfaStateIndex) -> bool
        requires is_state { from < length self.now.kinds }
        ensures answer { IsTrue result ↔ (slice_get self.now.kinds from ≡ Some Reject) }
    {
        self.kind(from) == StateKind::Reject
    }

    /// Whether the automaton has a state with this index.
    pub fn contains_state(&self, index: NfaStateIndex) -> bool
        ensures answer { IsTrue result ↔ (index < length self.now.kinds) }
    {
        index.index() < self.states.len()
    }

    /// The number of states.
    pub fn len(&self) -> usize
        ensures value { result ≡ length self.now.kinds }
    {
        self.states.len()
    }
}
