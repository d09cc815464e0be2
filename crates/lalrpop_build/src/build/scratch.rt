//! Scratch for what leaves a set of items: the boundaries of its labels, and the test edges that the values of each class take.

ghost use Rattle.std.specs.Prelude.{◌≡◌, ℕ, ◌<◌, ◌⊎◌, ◌↔◌, [], length, slice_get, not, IfOk, OnOk};
ghost use Rattle.lalrpop_build.specs.Internal.Blocks.{has_edges};
ghost use Rattle.std.specs.List.{Contains};
ghost use Rattle.lalrpop_build.specs.Internal.Alphabet.{HasState, HasBoundary, LeadsBy, HasBoundaryAt, IsAlphabetOf};
ghost use Rattle.lalrpop_build.specs.Internal.Given.{AreAutomata, AreItemsOf};
ghost use Rattle.lalrpop_build.specs.Internal.Scratch.{AreNoted, AreMarked, AreUnmarked, HoldMarked, IsTidy, StaysTidy, IsCleared, IsScratchOf, IsFilled};
ghost use Rattle.lalrpop_dfa.specs.Ascending.{Item as ItemValue};
ghost use Rattle.lalrpop_build.specs.Internal.ClassTransitions.{HaveNoEdges, AreBelow, Gained, AreGathered, AreBoundariesOf};

use crate::Transition;
use crate::alphabet::Alphabet;
use lalrpop_dfa::{Item, ItemSet};
use lalrpop_nfa::{Nfa, NfaStateIndex};
use std::alloc::{AllocError, Global};

/// The test edges that a value takes.
#[derive(PartialEq, Eq, PartialOrd, Ord, Drop)]
pub(super) struct Transitions {
    pub(super) list: Vec<Transition>,
}

impl Clone for Transitions {
    ghost is_clone = { λ transitions copy. copy.list.items ≡ transitions.list.items };

    fn clone(&self) -> Result<Transitions, AllocError> {
        Ok(Transitions {
            list: self.list.clone()?,
        })
    }
}

/// For each class, the test edges that its values take; and the classes that have any.
#[derive(Drop)]
pub(super) struct EdgesByClass {
    pub(super) lists: Vec<Transitions>,
    pub(super) used: Vec<usize>,
}

/// The cells at which labels begin or are over, added once for each group of labels: a mark for each group whose boundaries
/// are present, and the list of these groups.
#[derive(Drop)]
pub(super) struct Boundaries {
    pub(super) places: Vec<usize>,
    marks: Vec<bool>,
    groups: Vec<usize>,
}

/// Scratch for what leaves a set of items, reused from set to set: the cells at which labels begin or are over, and
/// the test edges by class.
///
/// So the cost of a set is that of what leaves it, however many classes there are, and the lists are not allocated again.
#[derive(Drop)]
pub(super) struct Scratch {
    pub(super) boundaries: Boundaries,
    pub(super) edges: EdgesByClass,
}

impl EdgesByClass {
    /// Whether no value of the class takes an edge.
    pub(super) fn has_no_edges(&self, class: usize) -> bool
        requires { class < length self.now.lists.items }
        ensures { has_edges (slice_get self.now.lists.items class) ≡ not result }
    {
        self.lists[class].list.is_empty()
    }

    // Adds an edge to a class, which is noted when it gets its first one.
    fn add(&mut self, class: usize, transition: Transition) -> Result<(), AllocError>
        requires within { class < length self.old.lists.items }
        requires noted { AreNoted self.old.lists.items self.old.used.items }
        ensures gained { OnOk result (Gained self.old.lists.items self.new.lists.items
            (λ c l. (c ≡ class) × (l ≡ transition))) }
        ensures noted { AreNoted self.new.lists.items self.new.used.items }
        ensures count { length self.new.lists.items ≡ length self.old.lists.items }
    {
        if self.lists[class].list.is_empty() {
            self.used.push(class)?;
        }
        self.lists[class].list.push(transition)?;
        Ok(())
    }

    // Adds an edge to the classes.
    fn add_to_all(&mut self, classes: &[usize], transition: &Transition) -> Result<(), AllocError>
        requires within { AreBelow (length self.old.lists.items) classes.now }
        requires noted { AreNoted self.old.lists.items self.old.used.items }
        ensures gained { OnOk result (Gained self.old.lists.items self.new.lists.items (λ c l.
            Contains classes.now c × (l ≡ transition.now))) }
        ensures noted { AreNoted self.new.lists.items self.new.used.items }
        ensures count { length self.new.lists.items ≡ length self.old.lists.items }
    {
        for class in classes {
            self.add(*class, *transition)?;
        }
        Ok(())
    }
}

impl Boundaries {
    // No boundaries, and an unset mark for each group.
    fn new(alloc: Global, group_count: usize) -> Result<Boundaries, AllocError>
        ensures count { IfOk result (λ boundaries. length boundaries.marks.items ≡ group_count) }
        ensures marked { IfOk result (λ boundaries. AreMarked boundaries.marks.items boundaries.groups.items) }
    {
        Ok(Boundaries {
            places: Vec::new(alloc),
            marks: vec![in alloc; false; group_count]?,
            groups: Vec::new(alloc),
        })
    }

    // Adds the boundaries of a group, unless they are present.
    fn add(&mut self, alphabet: &Alphabet, number: usize) -> Result<(), AllocError>
        requires has_group { number < length alphabet.now.groups }
        requires marked { HoldMarked alphabet.now.groups self.old }
        ensures boundaries { OnOk result ((k : ℕ) → Contains self.new.places.items k
            ↔ (Contains self.old.places.items k ⊎ HasBoundary alphabet.now.groups number k)) }
        ensures marked { OnOk result (HoldMarked alphabet.now.groups self.new) }
        ensures listed { AreMarked self.new.marks.items self.new.groups.items }
        ensures count { length self.new.marks.items ≡ length self.old.marks.items }
    {
        if self.marks[number] {
            return Ok(());
        }
        self.groups.push(number)?;
        self.marks[number] = true;
        self.places
            .extend_from_slice(&alphabet.group(number).boundaries)?;
        Ok(())
    }

    // Removes all boundaries. Of the marks, only those that are set are visited.
    fn clear(&mut self)
        requires { AreMarked self.old.marks.items self.old.groups.items }
        ensures places { self.new.places.items ≡ [] }
        ensures unmarked { AreUnmarked self.new.marks.items }
        ensures marked { AreMarked self.new.marks.items self.new.groups.items }
        ensures count { length self.new.marks.items ≡ length self.old.marks.items }
    {
        while let Some(number) = self.groups.pop() {
            self.marks[number] = false;
        }
        self.places.clear();
    }
}

// Adds what leaves an item.
fn add_item(
    alphabet: &Alphabet,
    item: Item,
    boundaries: &mut Boundaries,
    edges: &mut EdgesByClass,
) -> Result<(), AllocError>
    requires state { HasState alphabet.now.nfas item.0 item.1 }
    requires classes { length edges.old.lists.items ≡ alphabet.now.count }
    requires noted { AreNoted edges.old.lists.items edges.old.used.items }
    requires marked { HoldMarked alphabet.now.groups boundaries.old }
    ensures boundaries { OnOk result ((k : ℕ) → Contains boundaries.new.places.items k
        ↔ (Contains boundaries.old.places.items k ⊎ HasBoundaryAt alphabet.now item.0 item.1 k)) }
    ensures marked { OnOk result (HoldMarked alphabet.now.groups boundaries.new) }
    ensures classes { OnOk result (Gained edges.old.lists.items edges.new.lists.items
        (λ c l. (l.item ≡ item) × LeadsBy alphabet.now item.0 item.1 c l.to)) }
    ensures tidy { StaysTidy boundaries.old boundaries.new edges.old edges.new }
{
    for edge in alphabet.edge_groups(item.pattern().index(), item.state()) {
        let group = alphabet.group(edge.group);
        let to = edge.to;
        boundaries.add(alphabet, edge.group)?;
        edges.add_to_all(&group.classes, &Transition { item, to })?;
    }
    Ok(())
}

// Classes without edges.
fn classes_without_edges(alloc: Global, count: usize) -> Result<Vec<Transitions>, AllocError>
    ensures count { IfOk result (λ classes. length classes.items ≡ count) }
    ensures no_edges { IfOk result (λ classes. HaveNoEdges classes.items) }
{
    let mut classes = Vec::with_capacity(alloc, count)?;
    for _ in 0..count {
        classes.push(Transitions {
            list: Vec::new(alloc),
        })?;
    }
    Ok(classes)
}

// Gathers what leaves the items, into empty scratch.
fn gather(
    alphabet: &Alphabet,
    items: &[Item],
    boundaries: &mut Boundaries,
    edges: &mut EdgesByClass,
) -> Result<(), AllocError>
    requires states { (x : ItemValue) → Contains items.now x → HasState alphabet.now.nfas x.0 x.1 }
    requires classes { length edges.old.lists.items ≡ alphabet.now.count }
    requires no_boundaries { boundaries.old.places.items ≡ [] }
    requires marked { HoldMarked alphabet.now.groups boundaries.old }
    requires no_edges { HaveNoEdges edges.old.lists.items }
    requires noted { AreNoted edges.old.lists.items edges.old.used.items }
    ensures boundaries { OnOk result (AreBoundariesOf alphabet.now items.now boundaries.new.places.items) }
    ensures marked { OnOk result (HoldMarked alphabet.now.groups boundaries.new) }
    ensures classes { OnOk result (AreGathered alphabet.now items.now edges.new.lists.items) }
    ensures tidy { StaysTidy boundaries.old boundaries.new edges.old edges.new }
{
    for item in items {
        add_item(alphabet, *item, boundaries, edges)?;
    }
    Ok(())
}

impl Scratch {
    /// Scratch for the classes and the groups of an alphabet.
    pub(super) fn new(alloc: Global, alphabet: &Alphabet) -> Result<Scratch, AllocError>
        ensures { IfOk result (IsScratchOf alphabet.now) }
    {
        let count = alphabet.count();
        Ok(Scratch {
            boundaries: Boundaries::new(alloc, alphabet.group_count())?,
            edges: EdgesByClass {
                lists: classes_without_edges(alloc, count)?,
                used: Vec::new(alloc),
            },
        })
    }

    // Empties the scratch. Of the classes, only those that were used are visited.
    fn clear(&mut self)
        requires { IsTidy self.old }
        ensures cleared { IsCleared self.new }
        ensures classes { length self.new.edges.lists.items ≡ length self.old.edges.lists.items }
        ensures groups { length self.new.boundaries.marks.items ≡ length self.old.boundaries.marks.items }
    {
        while let Some(class) = self.edges.used.pop() {
            self.edges.lists[class].list.clear();
        }
        self.boundaries.clear();
    }

    /// Gathers the boundaries of the labels that leave the items of a set, in order, and the test edges that the values of each
    /// class take.
    ///
    /// The cost is that of the labels' classes, and of the boundaries of each group of labels once. The boundaries of a group are
    /// already sorted, so the sort only merges them.
    pub(super) fn fill(
        &mut self,
        nfas: &[Nfa],
        alphabet: &Alphabet,
        set: &ItemSet,
    ) -> Result<(), AllocError>
        requires automata { AreAutomata nfas.now }
        requires alphabet { IsAlphabetOf nfas.now alphabet.now }
        requires inside { AreItemsOf nfas.now set.now }
        requires scratch { IsScratchOf alphabet.now self.old }
        ensures scratch { IsScratchOf alphabet.now self.new }
        ensures filled { OnOk result (IsFilled nfas.now alphabet.now set.now
            self.new.boundaries.places.items self.new.edges.lists.items) }
    {
        self.clear();
        gather(alphabet, set.live(), &mut self.boundaries, &mut self.edges)?;
        self.boundaries.places.sort()?;
        Ok(())
    }
}
