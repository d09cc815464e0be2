//! Compiling a pattern: each tree is compiled towards a target state, in which its words end.
ghost use Rattle.std.specs.Prelude.{◌≡◌, ◌≢◌, ◌<◌, ◌⊎◌, ◌∷◌, [], Some, None, OnOk, IfOk, IfErr, length};
ghost use Rattle.std.specs.List.{filter};
ghost use Rattle.std.specs.Str.{chars};
ghost use Rattle.lalrpop_hir.specs.Parts.{trees};
ghost use Rattle.lalrpop_hir.specs.Counts.{AreOrdered};
ghost use Rattle.lalrpop_hir.specs.Level.{class_of};
ghost use Rattle.lalrpop_nfa.specs.Internal.Added.{with_kind, with_noops};
ghost use Rattle.lalrpop_nfa.specs.Walk.{leaves};
ghost use Rattle.lalrpop_nfa.specs.Compiled.{edges_from};
ghost use Rattle.lalrpop_hir.specs.Fault.{fault, greedy_fault, first_fault, last_fault};
ghost use Rattle.lalrpop_nfa.specs.Internal.Valid.{AreCodeValues, IsValidClass, IsValidRepeated, AreValid, IsValid, IsPlain};
ghost use Rattle.lalrpop_nfa.specs.Internal.Fragment as made;
ghost use Rattle.lalrpop_nfa.specs.Internal.Extends.{Extends, IsCompilable, IsFaultOf};

use super::{
    ACCEPT, Edges, Nfa, NfaConstructionError, NfaStateIndex, Noop, Other, REJECT, START, State,
    StateKind, Test,
};
use lalrpop_hir::{Class, Hir, HirKind, Repetition};
use std::alloc::{AllocError, Global};

// Refuses what is never compiled, if it is at the top of the tree. It doesn't look further down.
fn refuse_unsupported(hir: &Hir) -> Result<(), NfaConstructionError>
    ensures plain { OnOk result (IsPlain hir.now) }
    ensures err { IfErr result (λ e. fault hir.now ≡ Some e) }
{
    match hir.kind() {
        HirKind::Look(_) => Err(NfaConstructionError::LookAround),
        HirKind::Repetition(repetition) => {
            if repetition.greedy() {
                Ok(())
            } else {
                Err(NfaConstructionError::NonGreedy)
            }
        }
        HirKind::Capture(capture) => match capture.name() {
            Some(_) => Err(NfaConstructionError::NamedCaptures),
            None => Ok(()),
        },
        _ => Ok(()),
    }
}

impl Nfa {
    // Adds a state that no edge leaves.
    fn new_state(&mut self, kind: StateKind) -> Result<NfaStateIndex, AllocError>
        ensures number { IfOk result (λ q. q ≡ length self.old.kinds) }
        ensures added { OnOk result (self.new ≡ with_kind self.old kind) }
        ensures bare { IfOk result (λ q. edges_from q self.new.edges ≡ made.no_edges) }
    {
        let index = self.states.len();
        self.states.push(State {
            kind,
            first_noop_edge: None,
            first_test_edge: None,
            first_other_edge: None,
        })?;
        Ok(NfaStateIndex::new(index))
    }

    // Pushes a `Noop` edge to each target, from a state that has none.
    fn push_noops(
        &mut self,
        from: NfaStateIndex,
        targets: &[NfaStateIndex],
    ) -> Result<(), AllocError>
        requires is_state { from < length self.old.kinds }
        requires is_new { filter (leaves from) self.old.edges.noops ≡ [] }
        ensures { OnOk result (self.new ≡ with_noops self.old from targets.now) }
    {
        for target in targets {
            self.push_edge(from, Noop, *target)?;
        }
        Ok(())
    }

    // The states ACCEPT, REJECT and START, without edges.
    fn fixed_states(alloc: Global) -> Result<Nfa, AllocError>
        ensures { IfOk result (λ nfa. nfa ≡ record {
          kinds = StateKind.Accept ∷ StateKind.Reject ∷ StateKind.Neither ∷ [];
          edges = made.no_edges;
        }) }
    {
        let mut nfa = Nfa {
            states: Vec::new(alloc),
            edges: Edges {
                noop_edges: Vec::new(alloc),
                test_edges: Vec::new(alloc),
                other_edges: Vec::new(alloc),
            },
        };
        let _accept = nfa.new_state(StateKind::Accept)?;
        let _reject = nfa.new_state(StateKind::Reject)?;
        let _start = nfa.new_state(StateKind::Neither)?;
        Ok(nfa)
    }

    // The states ACCEPT, REJECT and START, with the edges of the first two:
    //
    //     [ACCEPT] --other--> [REJECT] <--+      [START]
    //                            |        |
    //                            +--other-+
    pub(super) fn new(alloc: Global) -> Result<Nfa, AllocError>
        ensures fresh { IfOk result (λ nfa. nfa ≡ made.fresh_graph) }
    {
        let mut nfa = Nfa::fixed_states(alloc)?;
        nfa.push_edge(ACCEPT, Other, REJECT)?;
        nfa.push_edge(REJECT, Other, REJECT)?;
        Ok(nfa)
    }

    // A state for one character.
    //
    //     [state] --c------> [target]
    //        |
    //        +-----other---> [REJECT]
    fn character_expr(
        &mut self,
        c: char,
        target: NfaStateIndex,
    ) -> Result<NfaStateIndex, AllocError>
        ensures { IfOk result (Extends (made.character_expr c) target self.old self.new) }
    {
        let state = self.new_state(StateKind::Neither)?;
        self.push_edge(state, Test::char(c), target)?;
        self.push_edge(state, Other, REJECT)?;
        Ok(state)
    }

    // A state for each character of the text, the last first. For the text `abc`:
    //
    //     [entry] --a--> [ ] --b--> [ ] --c--> [target]      and from each --other--> [REJECT]
    fn literal_text_expr(
        &mut self,
        text: &str,
        target: NfaStateIndex,
    ) -> Result<NfaStateIndex, AllocError>
        ensures extended { IfOk result
            (Extends (made.literal_expr (chars text.now)) target self.old self.new) }
        ensures valid { OnOk result (AreCodeValues (chars text.now)) }
    {
        let mut entry = target;
        for c in text.chars().rev() {
            entry = self.character_expr(c, entry)?;
        }
        Ok(entry)
    }

    // A state for a class. For the class of two ranges:
    //
    //     [state] --first range---> [target]
    //        |  +---second range--> [target]
    //        +------other---------> [REJECT]
    fn class_expr(
        &mut self,
        class: &Class,
        target: NfaStateIndex,
    ) -> Result<NfaStateIndex, AllocError>
        ensures extended { IfOk result
            (Extends (made.class_construction (class_of class.now)) target self.old self.new) }
        ensures valid { OnOk result (IsValidClass (class_of class.now)) }
    {
        let state = self.new_state(StateKind::Neither)?;
        match class {
            Class::Unicode(class) => {
                for range in class.ranges() {
                    self.push_edge(state, Test::from(*range), target)?;
                }
            }
            Class::Bytes(class) => {
                for range in class.ranges() {
                    self.push_edge(state, Test::from(*range), target)?;
                }
            }
        }
        self.push_edge(state, Other, REJECT)?;
        Ok(state)
    }

    // Compiles the tree towards the target, and returns the state at which it begins.
    #[cycle(expr)]
    pub(super) fn expr(
        &mut self,
        hir: &Hir,
        target: NfaStateIndex,
    ) -> Result<NfaStateIndex, NfaConstructionError>
        ensures extended { IfOk result
            (Extends (made.fragment_of hir.now) target self.old self.new) }
        ensures no_fault { OnOk result (fault hir.now ≡ None) }
        ensures valid { OnOk result (IsValid hir.now) }
        ensures err { IfErr result (IsFaultOf (fault hir.now)) }
    {
        refuse_unsupported(hir)?;
        match hir.kind() {
            HirKind::Empty => Ok(target),
            HirKind::Literal(literal) => Ok(self.literal_text_expr(literal.as_str(), target)?),
            HirKind::Class(class) => Ok(self.class_expr(class, target)?),
            HirKind::Look(_) => unreachable!(),
            HirKind::Repetition(repetition) => self.repeat_expr(repetition, target),
            HirKind::Capture(capture) => self.expr(capture.sub(), target),
            HirKind::Concat(subs) => self.concat_expr(subs, target),
            HirKind::Alternation(subs) => self.alternation_expr(subs, target),
        }
    }

    // A greedy repetition:
    //
    //     {2,4}:  [the sub] --> [the sub] --> [it or nothing] --> [it or nothing] --> [target]
    //     {2,}:   [the sub] --> [the sub] --> [state of the star] --> [target]
    //     {1,}:   [sub_entry of the star] --> [target]
    #[cycle(expr)]
    fn repeat_expr(
        &mut self,
        repetition: &Repetition,
        target: NfaStateIndex,
    ) -> Result<NfaStateIndex, NfaConstructionError>
        ensures extended { IfOk result
            (Extends
            (made.repeat_expr
            (made.fragment_of repetition.now.sub) repetition.now.min repetition.now.max) target
            self.old self.new) }
        ensures no_fault { OnOk result (greedy_fault repetition.now.max (fault repetition.now.sub)
            ≡ None) }
        ensures valid { OnOk result (AreOrdered repetition.now.min repetition.now.max
            × IsValidRepeated repetition.now.max (IsValid repetition.now.sub)) }
        ensures err { IfErr result (IsFaultOf
            (greedy_fault repetition.now.max (fault repetition.now.sub))) }
    {
        let sub = repetition.sub();
        let min = repetition.min();
        match repetition.max() {
            Some(max) => {
                let entry = self.optional_copies(sub, max - min, target)?;
                self.copies(sub, min, entry)
            }
            None => {
                let (state, sub_entry) = self.star_expr(sub, target)?;
                match min {
                    0 => Ok(state),
                    1 => Ok(sub_entry),
                    _ => self.copies(sub, min, state),
                }
            }
        }
    }

    // Any number of repetitions (the star). Returns the state from which the sub may be left out, and the entry of the sub.
    //
    //     [state] --noop--> [target]
    //      |   ^
    //    noop  | (the sub ends here)
    //      v   |
    //     [sub_entry: the sub]
    //
    // From `state` a word of the star is read, and then a word from the target on: `By-star_expr` of proofs/FragmentReads, by
    // `Reads-star` of proofs/Readings.
    #[cycle(expr)]
    fn star_expr(
        &mut self,
        sub: &Hir,
        target: NfaStateIndex,
    ) -> Result<(NfaStateIndex, NfaStateIndex), NfaConstructionError>
        ensures any { IfOk result (λ p.
            Extends (made.star_expr (made.fragment_of sub.now)) target self.old self.new p.0) }
        ensures some { IfOk result (λ p.
            Extends (made.plus_expr (made.fragment_of sub.now)) target self.old self.new p.1) }
        ensures compilable { OnOk result (IsCompilable sub.now) }
        ensures err { IfErr result (IsFaultOf (fault sub.now)) }
    {
        let state = self.new_state(StateKind::Neither)?;
        let sub_entry = self.expr(sub, state)?;
        self.push_noops(state, &[target, sub_entry])?;
        Ok((state, sub_entry))
    }

    // `count` copies, each compiled towards the next; the last is made first. For three of them:
    //
    //     [entry: the sub] --> [the sub] --> [the sub] --> [target]
    #[cycle(expr)]
    fn copies(
        &mut self,
        sub: &Hir,
        count: u32,
        target: NfaStateIndex,
    ) -> Result<NfaStateIndex, NfaConstructionError>
        ensures extended { IfOk result
            (Extends (made.copies (made.fragment_of sub.now) count) target self.old self.new) }
        ensures compilable { OnOk result ((count ≡ 0) ⊎ IsCompilable sub.now) }
        ensures err { IfErr result (λ e. e ≢ NfaConstructionError.OutOfMemory → (0 < count)
            × (fault sub.now ≡ Some e)) }
    {
        let mut entry = target;
        for _ in 0..count {
            entry = self.expr(sub, entry)?;
        }
        Ok(entry)
    }

    // `count` copies, each compiled towards the next, and each of them optional. The last is made first. For two of them:
    //
    //     [state] --noop-----------------> [ ] --noop-----------------> [target]
    //        |                             ^ |                             ^
    //        +------noop--> [the sub] -----+ +------noop--> [the sub] -----+
    #[cycle(expr)]
    fn optional_copies(
        &mut self,
        sub: &Hir,
        count: u32,
        target: NfaStateIndex,
    ) -> Result<NfaStateIndex, NfaConstructionError>
        ensures extended { IfOk result
            (Extends
            (made.optional_copies (made.fragment_of sub.now) count) target self.old self.new) }
        ensures compilable { OnOk result ((count ≡ 0) ⊎ IsCompilable sub.now) }
        ensures err { IfErr result (λ e. e ≢ NfaConstructionError.OutOfMemory → (0 < count)
            × (fault sub.now ≡ Some e)) }
    {
        let mut entry = target;
        for _ in 0..count {
            entry = self.optional_expr(sub, entry)?;
        }
        Ok(entry)
    }

    // An optional part. The sub is made before the state.
    //
    //     [state] --noop------------------> [target]
    //        |                                 ^
    //        +------noop--> [the sub] ---------+
    #[cycle(expr)]
    fn optional_expr(
        &mut self,
        sub: &Hir,
        target: NfaStateIndex,
    ) -> Result<NfaStateIndex, NfaConstructionError>
        ensures extended { IfOk result
            (Extends (made.optional_expr (made.fragment_of sub.now)) target self.old self.new) }
        ensures compilable { OnOk result (IsCompilable sub.now) }
        ensures err { IfErr result (IsFaultOf (fault sub.now)) }
    {
        let sub_entry = self.expr(sub, target)?;
        let state = self.new_state(StateKind::Neither)?;
        self.push_noops(state, &[target, sub_entry])?;
        Ok(state)
    }

    // The trees in a row, the last made first. For three of them:
    //
    //     [entry: first] --> [second] --> [third] --> [target]
    #[cycle(expr)]
    fn concat_expr(
        &mut self,
        subs: &[Hir],
        target: NfaStateIndex,
    ) -> Result<NfaStateIndex, NfaConstructionError>
        ensures extended { IfOk result
            (Extends (made.concat_expr (trees subs.now)) target self.old self.new) }
        ensures no_fault { OnOk result (last_fault (trees subs.now) ≡ None) }
        ensures valid { OnOk result (AreValid (trees subs.now)) }
        ensures err { IfErr result (IsFaultOf (last_fault (trees subs.now))) }
    {
        let mut entry = target;
        for part in subs.iter().rev() {
            entry = self.expr(part, entry)?;
        }
        Ok(entry)
    }

    // One state, and then each of the trees towards the target. For two of them:
    //
    //     [state] --noop--> [first] ---> [target]
    //        |                              ^
    //        +------noop--> [second] -------+
    #[cycle(expr)]
    fn alternation_expr(
        &mut self,
        subs: &[Hir],
        target: NfaStateIndex,
    ) -> Result<NfaStateIndex, NfaConstructionError>
        ensures extended { IfOk result
            (Extends
            (made.alternation_expr (made.branches (trees subs.now))) target self.old self.new) }
        ensures no_fault { OnOk result (first_fault (trees subs.now) ≡ None) }
        ensures valid { OnOk result (AreValid (trees subs.now)) }
        ensures err { IfErr result (IsFaultOf (first_fault (trees subs.now))) }
    {
        let state = self.new_state(StateKind::Neither)?;
        let mut entries = Vec::new(*self.states.allocator());
        for sub in subs {
            entries.push(self.expr(sub, target)?)?;
        }
        self.push_noops(state, &entries)?;
        Ok(state)
    }
}
