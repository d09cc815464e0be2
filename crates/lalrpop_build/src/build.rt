//! The subset construction.
//!
//! The patterns are compiled one by one. The sets of items that words lead to are numbered in the order in which they are
//! met, and expanded in that order: the labels that leave a set divide the values into blocks, and each block leads to one set.

ghost use Rattle.std.specs.Prelude.{◌≡◌, ◌+◌, ◌^◌, ◌<◌, ◌≤◌, ◌↔◌, ◌++◌, ◌∷◌, [], ℕ, List, length, map, slice_get, Some, true, IfOk, IfErr, OnOk, MatchOption, IsSomeAnd, None};
ghost use Rattle.std.specs.List.{Contains};
ghost use Rattle.std.proofs.Common.{get_or};
ghost use Rattle.lalrpop_hir.specs.Tree.{Tree};
ghost use Rattle.lalrpop_dfa.specs.Kernels.{moved};
ghost use Rattle.lalrpop_nfa.specs.Graph.{Graph};
ghost use Rattle.lalrpop_dfa.specs.Ascending.{AreAscendingItems};
ghost use Rattle.lalrpop_build.specs.Internal.Given.{AreAutomata, AreItemsOf};
ghost use Rattle.lalrpop_nfa.specs.Automata.{AreCompiled};
ghost use Rattle.lalrpop_dfa.specs.Counts.{state_bound};
ghost use Rattle.lalrpop_dfa.specs.Dfa.{Recognizes, RecognizesAll};
ghost use Rattle.lalrpop_hir.specs.Clash.{NoClash};
ghost use Rattle.lalrpop_build.specs.Items.{HoldsItems, OthersReject, IsInWordOrder};
ghost use Rattle.lalrpop_hir.specs.Report.{NoFault, IsReport};
ghost use Rattle.lalrpop_build.specs.Internal.Blocks.{has_edges};
ghost use Rattle.lalrpop_build.specs.Internal.BreadthFirst.{AreEarlier, IsBreadthFirst, word};
ghost use Rattle.lalrpop_build.specs.Internal.Built.{subset_automaton, IsKindOf, IsStrongestIn};
ghost use Rattle.lalrpop_build.specs.Internal.Expansion.{AreTested, IsBuiltTo, IsTieOf, IsClashAt, IsClashOf};
ghost use Rattle.lalrpop_build.specs.Internal.Scratch.{IsFilled};
ghost use Rattle.lalrpop_build.specs.Internal.Ties.{AreAscending};
ghost use Rattle.lalrpop_build.specs.Internal.Stage.{IsAt, IsSameRow, IsTarget, IsBlockDone, Take, IsBuilt};

pub(crate) mod automata;
mod best;
mod block;
pub(crate) mod compile;
pub(crate) mod origin;
mod scratch;
mod sets;
mod target_cache;

use crate::alphabet::Cell;
use crate::{Dfa, DfaConstructionError, DfaStateIndex, Kind, NfaIndex, Precedence};
use automata::Automata;
use best::Tie;
use block::{BEFORE_ALL, Block};
use compile::compile_all;
use lalrpop_dfa::{ItemSet, RowWriter, Rows};
use lalrpop_hir::Regex;
use lalrpop_nfa::Nfa;
use origin::{Origin, word_to};
use scratch::Scratch;
use sets::Sets;
use std::alloc::{AllocError, Global};
use std::marker::Model;
use target_cache::TargetCache;

/// Builds the automaton of the patterns, with one precedence for each pattern. After each word, its state names the only
/// strongest pattern that matches the word, if any does.
///
/// # Errors
///
/// The first pattern that has a fault; if none has, the clash on the least word on which two patterns are the
/// strongest; or out of memory.
pub fn build_dfa(
    alloc: Global,
    regexs: &[Regex],
    precedences: &[Precedence],
) -> Result<Dfa, DfaConstructionError>
    requires same_len { length regexs.now ≡ length precedences.now }
    ensures ok { IfOk result (λ dfa. let ps = map (λ p. p.0) precedences.now in
        NoFault regexs.now × NoClash regexs.now ps × Recognizes dfa regexs.now ps) }
    ensures all { IfOk result (λ dfa.
        RecognizesAll dfa regexs.now (map (λ p. p.0) precedences.now)) }
    ensures bound { IfOk result (λ dfa. length dfa ≤ state_bound regexs.now) }
    ensures items { IfOk result (λ dfa.
        (ns : List Graph) × AreCompiled regexs.now ns × HoldsItems ns dfa) }
    ensures others { IfOk result OthersReject }
    ensures order { IfOk result IsInWordOrder }
    ensures err { IfErr result (λ e. IsReport regexs.now (map (λ p. p.0) precedences.now) e) }
{
    let nfas = compile_all(alloc, regexs)?;
    build(alloc, &nfas, precedences)
}

/// The automaton of the patterns with these automata and precedences, or the clash of two of them.
pub(super) fn build(
    alloc: Global,
    nfas: &[Nfa],
    precedences: &[Precedence],
) -> Result<Dfa, DfaConstructionError>
    requires same_len { length nfas.now ≡ length precedences.now }
    requires automata { AreAutomata nfas.now }
    ensures stands { IfOk result (λ dfa. let ps = map (λ p. p.0) precedences.now in
        (ts : List Tree) → AreCompiled ts nfas.now → NoClash ts ps × RecognizesAll dfa ts ps) }
    ensures bound { IfOk result (λ dfa. (ts : List Tree) → AreCompiled ts nfas.now
        → length dfa ≤ state_bound ts) }
    ensures items { IfOk result (HoldsItems nfas.now) }
    ensures others { IfOk result OthersReject }
    ensures order { IfOk result IsInWordOrder }
    ensures err { IfErr result (λ e. let ps = map (λ p. p.0) precedences.now in
        (ts : List Tree) → AreCompiled ts nfas.now → IsClashOf ts ps e) }
{
    let expansion = expanded(alloc, nfas, precedences)?;
    Ok(Dfa::new(alloc, expansion.into_rows())?)
}

/// The sets that words lead to, and the row of each, or the clash of two patterns.
pub(crate) fn expanded<'given>(
    alloc: Global,
    nfas: &'given [Nfa],
    precedences: &'given [Precedence],
) -> Result<Expansion<'given>, DfaConstructionError>
    requires same_len { length nfas.now ≡ length precedences.now }
    requires automata { AreAutomata nfas.now }
    ensures ok { IfOk result (λ e. IsBuiltTo nfas.now (map (λ p. p.0) precedences.now)
        e.kernels.list e.origins e.written.rows (length e.kernels.list)) }
    ensures graphs { IfOk result (λ e. e.automata.graphs ≡ nfas.now) }
    ensures err { IfErr result (λ e. let ps = map (λ p. p.0) precedences.now in
        (ts : List Tree) → AreCompiled ts nfas.now → IsClashOf ts ps e) }
{
    let mut expansion = Expansion::new(alloc, nfas, precedences)?;
    expansion.run()?;
    Ok(expansion)
}

/// An automaton under construction: the sets of items by number, the number being expanded, what leaves its set, the
/// numbers found so far for what leaves it, and the rows of the numbers before it.
#[derive(Drop)]
pub(crate) struct Expansion<'given> {
    alloc: Global,
    automata: Automata<'given>,
    precedences: &'given [Precedence],
    sets: Sets,
    number: usize,
    scratch: Scratch,
    cache: TargetCache,
    writer: RowWriter,
}

impl<'given> Model for Expansion<'given> {
    ghost use Rattle.std.specs.Prelude.{length, map};
    ghost use Rattle.lalrpop_build.specs.Internal.Stage.{Stage, stage, IsExpansion};

    ghost Value = { Stage };

    ghost view = { λ e.
        stage e.automata (map (λ p. p.0) e.precedences.now) e.sets e.number e.scratch e.writer };

    ghost invariant = { λ e.
        IsExpansion e.automata (length e.precedences.now) e.sets.kernels.list e.number e.scratch e.cache };
}

impl<'given> Expansion<'given> {
    /// The set that the empty word leads to, and no rows.
    fn new(
        alloc: Global,
        nfas: &'given [Nfa],
        precedences: &'given [Precedence],
    ) -> Result<Expansion<'given>, AllocError>
        requires same_len { length nfas.now ≡ length precedences.now }
        requires automata { AreAutomata nfas.now }
        ensures graphs { IfOk result (λ e. e.automata.graphs ≡ nfas.now) }
        ensures precedences { IfOk result (λ e. e.precedences ≡ map (λ p. p.0) precedences.now) }
        ensures place { IfOk result (λ e. e.kernels.place ≡ length e.written.rows) }
        ensures built { IfOk result IsBuilt }
    {
        let automata = Automata::new(alloc, nfas)?;
        let sets = Sets::new(alloc, &automata)?;
        let scratch = automata.scratch(alloc)?;
        let cache = TargetCache::new(alloc, scratch.edges.lists.len())?;
        Ok(Expansion {
            alloc,
            automata,
            precedences,
            sets,
            number: 0,
            scratch,
            cache,
            writer: RowWriter::new(alloc),
        })
    }

    // Writes the rows of all numbers in order, until each set has one.
    fn run(&mut self) -> Result<(), DfaConstructionError>
        requires built { IsBuilt self.old }
        requires place { self.old.kernels.place ≡ length self.old.written.rows }
        ensures ok { OnOk result (IsBuiltTo self.old.automata.graphs self.old.precedences
            self.new.kernels.list self.new.origins self.new.written.rows
            (length self.new.kernels.list)) }
        ensures automata { OnOk result (self.new.automata ≡ self.old.automata) }
        ensures err { IfErr result (λ e. (ts : List Tree) → AreCompiled ts self.old.automata.graphs
            → IsClashOf ts self.old.precedences e) }
    {
        while let Some(set) = self.next()? {
            self.row(set)?;
        }
        Ok(())
    }

    // The next set in the order of the numbers.
    fn next(&mut self) -> Result<Option<ItemSet>, AllocError>
        ensures given { IfOk result (λ o. MatchOption o
            (slice_get self.old.kernels.list self.old.kernels.place ≡ None)
            (λ s. slice_get self.old.kernels.list self.old.kernels.place ≡ Some s)) }
        ensures moves { IfOk result (λ o. self.new
            ≡ record self.old { kernels = moved self.old.kernels o }) }
    {
        self.sets.kernels.next()
    }

    // Writes the row of the next number, whose set this is.
    fn row(&mut self, set: ItemSet) -> Result<(), DfaConstructionError>
        requires built { IsBuilt self.old }
        requires here { slice_get self.old.kernels.list (length self.old.written.rows) ≡ Some set }
        ensures built { OnOk result (IsBuilt self.new) }
        ensures one { OnOk result (length self.new.written.rows
            ≡ length self.old.written.rows + 1) }
        ensures place { OnOk result (self.new.kernels.place ≡ self.old.kernels.place) }
        ensures automata { OnOk result (self.new.automata ≡ self.old.automata) }
        ensures precedences { OnOk result (self.new.precedences ≡ self.old.precedences) }
        ensures err { IfErr result (IsTieOf self.old.precedences set
            (word self.old.origins (length self.old.written.rows))) }
    {
        let kind = self.kind(&set)?;
        self.begin(&set)?;
        self.blocks(&set)?;
        let other = self.other(&set)?;
        self.end(set, kind, other)?;
        Ok(())
    }

    // The kind of the next row's set, or the clash of its strongest patterns.
    fn kind(&self, set: &ItemSet) -> Result<Kind, DfaConstructionError>
        requires inside { AreItemsOf self.now.automata.graphs set.now }
        requires ascending { AreAscendingItems set.now }
        requires within { length self.now.written.rows < length self.now.origins }
        requires earlier { AreEarlier self.now.origins }
        ensures ok { IfOk result (IsKindOf self.now.precedences set.now) }
        ensures err { IfErr result (IsTieOf self.now.precedences set.now
            (word self.now.origins (length self.now.written.rows))) }
    {
        match self.automata.kind_of(self.precedences, set) {
            Ok(kind) => Ok(kind),
            Err(tie) => Err(clash_of(self.alloc, &self.sets.origins, self.writer.len(), tie)),
        }
    }

    // Begins the next row: lays out what leaves its set, and empties the cache.
    fn begin(&mut self, set: &ItemSet) -> Result<(), AllocError>
        requires inside { AreItemsOf self.old.automata.graphs set.now }
        ensures number { OnOk result (self.new.number ≡ length self.old.written.rows) }
        ensures filled { OnOk result (IsFilled self.new.automata.graphs self.new.automata.alphabet
            set.now self.new.boundaries self.new.by_class) }
        ensures same { self.new ≡ record self.old {
          number = self.new.number;
          boundaries = self.new.boundaries;
          by_class = self.new.by_class;
        } }
    {
        self.cache.clear(&self.scratch.edges.used);
        self.number = self.writer.len();
        self.automata.fill(&mut self.scratch, set)
    }

    // Writes the edges of the blocks, in order. A block is the values from one boundary up to the next.
    fn blocks(&mut self, set: &ItemSet) -> Result<(), AllocError>
        requires breadth_first { IsBreadthFirst (subset_automaton self.old.automata.graphs)
            self.old.kernels.list self.old.origins self.old.number 0 }
        requires here { slice_get self.old.kernels.list self.old.number ≡ Some set.now }
        requires filled { IsFilled self.old.automata.graphs self.old.automata.alphabet set.now
            self.old.boundaries self.old.by_class }
        requires no_tests { self.old.written.tests ≡ [] }
        ensures tested { OnOk result (AreTested self.old.automata.graphs
            self.old.kernels.list self.old.origins self.old.number set.now
            self.new.kernels.list self.new.origins self.new.written.tests) }
        ensures same { OnOk result (IsSameRow self.old self.new) }
        ensures here { OnOk result
            (slice_get self.new.kernels.list self.new.number ≡ Some set.now) }
    {
        let mut from = BEFORE_ALL;
        for index in 0..self.boundary_count() {
            let to = self.boundary(index);
            let block = Block { from, to };
            from = to;
            if !block.is_empty() {
                self.edge(set, block)?;
            }
        }
        Ok(())
    }

    // The number of boundaries of the labels that leave the set.
    fn boundary_count(&self) -> usize
        ensures { result ≡ length self.now.boundaries }
    {
        self.scratch.boundaries.places.len()
    }

    // The cell at a boundary.
    fn boundary(&self, index: usize) -> Cell
        requires within { index < length self.now.boundaries }
        requires cells { get_or self.now.boundaries index 0 < length self.now.automata.alphabet.cells }
        ensures automata { AreAutomata self.now.automata.graphs }
        ensures cell { slice_get self.now.automata.alphabet.cells
            (get_or self.now.boundaries index 0) ≡ Some result }
    {
        self.automata.cell(self.scratch.boundaries.places[index])
    }

    // Writes the edge of a block, unless its values take none. Only the first block of a class looks its target up.
    fn edge(&mut self, set: &ItemSet, block: Block) -> Result<(), AllocError>
        requires at { IsAt self.old set.now }
        requires class { block.from.class < length self.old.by_class }
        requires less { block.from.first < block.to.first }
        requires small { block.to.first ≤ 2 ^ 32 }
        requires take { Take self.old set.now block.from.class block.from.first }
        ensures { OnOk result (IsBlockDone self.old set.now block.from block.to self.new) }
    {
        let class = block.from.class;
        let target = match self.cache.by_class[class] {
            Some(target) => target,
            None if self.scratch.edges.has_no_edges(class) => return Ok(()),
            None => self.target(set, class, block.origin(self.number))?,
        };
        block.write_edge(target, &mut self.writer)?;
        Ok(())
    }

    // The number of the set that the current set leads to by the values of a class: found in the cache, or the closure of the
    // targets of their test edges. It is a call of its own in the machine code, so that the loop over the blocks stays small.
    #[inline(never)]
    fn target(
        &mut self,
        set: &ItemSet,
        class: usize,
        origin: Origin,
    ) -> Result<DfaStateIndex, AllocError>
        requires at { IsAt self.old set.now }
        requires number { origin.0 ≡ self.old.number }
        requires some { has_edges (slice_get self.old.by_class class) ≡ true }
        requires take { Take self.old set.now class origin.1 }
        ensures { IfOk result (λ j. IsTarget self.old set.now origin.1 j self.new) }
    {
        let number = match self.cache.find(&self.scratch.edges, class) {
            Some(number) => number,
            None => {
                let transitions = &self.scratch.edges.lists[class].list;
                let number = self
                    .sets
                    .successor(&self.automata, set, transitions, origin)?;
                self.cache.insert(&self.scratch.edges, class, number)?;
                number
            }
        };
        self.cache.note(class, number);
        Ok(number)
    }

    // The number of the set that the current set leads to by all other values. No label covers the greatest value, so
    // it takes no test edge.
    fn other(&mut self, set: &ItemSet) -> Result<DfaStateIndex, AllocError>
        requires at { IsAt self.old set.now }
        ensures target { IfOk result (λ j. IsTarget self.old set.now 4294967295 j self.new) }
        ensures automata { AreAutomata self.old.automata.graphs }
    {
        let origin = Origin::new(self.number, u32::MAX);
        self.sets.successor(&self.automata, set, &[], origin)
    }

    // Ends the row of the current number, whose set this is.
    fn end(&mut self, set: ItemSet, kind: Kind, other: DfaStateIndex) -> Result<(), AllocError>
        ensures written { OnOk result (self.new.written ≡ record {
          rows = self.old.written.rows ++ record {
            kind = kind;
            tests = self.old.written.tests;
            other = other;
            items = set;
          } ∷ [];
          tests = [];
        }) }
        ensures same { OnOk result (self.new ≡ record self.old { written = self.new.written }) }
    {
        self.writer.end_row(set, kind, other)
    }

    /// The number of rows.
    pub(crate) fn len(&self) -> usize
        ensures { result ≡ length self.now.written.rows }
    {
        self.writer.len()
    }

    /// The set that has the row with this number.
    pub(crate) fn item_set(&self, number: usize) -> &ItemSet
        requires { number < length self.now.written.rows }
        ensures { IsSomeAnd (slice_get self.now.written.rows number) (λ r. result.now ≡ r.items) }
    {
        self.writer.item_set(number)
    }

    /// Where each set was first met.
    pub(crate) fn origins(&self) -> &[Origin]
        ensures { result.now ≡ self.now.origins }
    {
        &self.sets.origins
    }

    /// The strongest of the patterns that the set accepts by these precedences, in order.
    pub(crate) fn strongest(
        &self,
        precedences: &[Precedence],
        set: &ItemSet,
    ) -> Result<Vec<NfaIndex>, AllocError>
        requires same_len { length self.now.automata.graphs ≡ length precedences.now }
        requires inside { AreItemsOf self.now.automata.graphs set.now }
        requires ascending { AreAscendingItems set.now }
        ensures all { IfOk result (λ found. (i : ℕ)
            → Contains found.items i ↔ IsStrongestIn (map (λ p. p.0) precedences.now) set.now i) }
        ensures ascending { IfOk result (λ found. AreAscending found.items) }
    {
        self.automata.strongest(self.alloc, precedences, set)
    }

    /// The rows.
    fn into_rows(self) -> Rows
        ensures { result ≡ self.entry.written.rows }
    {
        let Expansion { writer, .. } = self;
        writer.into_rows()
    }
}

// What is reported if the strongest patterns of the set with this number tie.
fn clash_of(alloc: Global, origins: &[Origin], number: usize, tie: Tie) -> DfaConstructionError
    requires within { number < length origins.now }
    requires earlier { AreEarlier origins.now }
    ensures { IsClashAt (word origins.now number) tie.greatest tie.second result }
{
    match word_to(alloc, origins, number) {
        Ok(word) => DfaConstructionError::Ambiguity {
            match0: tie.greatest,
            match1: tie.second,
            word,
        },
        Err(_) => DfaConstructionError::OutOfMemory,
    }
}
