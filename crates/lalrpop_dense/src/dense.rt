//! An automaton with a table beside it.

ghost use Rattle.std.specs.Prelude.{◌≡◌, ◌≢◌, ℕ, ◌+◌, ◌<◌, ◌≤◌, [], length, List, IfOk, IfSome, MatchOption};
ghost use Rattle.std.specs.Option.{option_map};
ghost use Rattle.std.specs.Str.{IsCharBoundary, chars};
ghost use Rattle.lalrpop_hir.specs.Tree.{Tree};
ghost use Rattle.lalrpop_hir.specs.Prefix.{IsPrefix};
ghost use Rattle.lalrpop_dfa.specs.Dfa.{Recognizes};
ghost use Rattle.lalrpop_dfa.specs.Lookahead.{ReadsAtMost};
ghost use Rattle.lalrpop_hir.specs.Longest.{IsLongest};
ghost use Rattle.lalrpop_dense.specs.Leading.{AreAhead, IsDeadAt, last_end};
ghost use Rattle.lalrpop_dense.specs.DenseTable.{AreAlikeInClasses, IsTableFor, table_numbers};
ghost use Rattle.lalrpop_dense.specs.Internal.Fused.{IsFusedOf, IsTable};
ghost use Rattle.lalrpop_dense.specs.Internal.Table.{HasClasses};

use crate::alike::alikes_of;
use crate::candidate::make_table;
use crate::check::is_table_of;
use crate::dense_table::DenseTable;
use crate::ends::TokenEnds;
use crate::fused::{Fused, is_fused_of};
use crate::fusing::make_fused;
use crate::mark::Engine;
use crate::run::{BoundedMatch, longest_by, longest_within_by};
use crate::table::{Layout, StoredCells, Table, stored};
use lalrpop_dfa::interpret::interpret_counted;
use lalrpop_dfa::{Dfa, NfaIndex};
use lalrpop_hir::Steps;
use std::alloc::{AllocError, Global};
use std::marker::Model;

/// An automaton that is run by a dense table. In contracts it is that automaton.
///
/// ```
/// use lalrpop_lexer::lexer::dfa::DenseDfa;
///
/// let dense = DenseDfa::new(alloc, dfa)?;
/// let found = dense.longest("let x"); // the index of a pattern, and "let"
/// ```
#[derive(Debug, Drop)]
pub struct DenseDfa {
    dfa: Dfa,
    // None if it would be too large, or take too long to make.
    table: Option<Table>,
}

impl Model for DenseDfa {
    ghost use Rattle.std.specs.Prelude.{List, IfSome};
    ghost use Rattle.lalrpop_dfa.specs.Dfa.{Row};
    ghost use Rattle.lalrpop_dense.specs.Internal.Fused.{IsTable};

    ghost Value = { List Row };

    ghost view = { λ a. a.dfa };

    ghost invariant = { λ a. IfSome a.table (λ t. IsTable t a.dfa) };
}

impl DenseDfa {
    /// The automaton with the table that runs it. There is no table if it would take much more memory than the automaton, or
    /// more than 64 MB, if making it would take much longer than visiting the automaton's edges, or if there are more than 255
    /// classes of characters. Then the automaton is run as it is.
    ///
    /// # Errors
    ///
    /// `AllocError` if a request for memory was refused.
    pub fn new(alloc: Global, dfa: Dfa) -> Result<DenseDfa, AllocError>
        ensures same { IfOk result (λ dense. dense ≡ dfa) }
    {
        let table = checked_table(alloc, &dfa)?;
        Ok(DenseDfa { dfa, table })
    }

    /// The automaton.
    pub fn dfa(&self) -> &Dfa
        ensures same { result.now ≡ self.now }
    {
        &self.dfa
    }

    /// The numbers of its table, if it has one: a walk along them finds what the automaton says of each text.
    pub fn table(&self) -> Option<DenseTable<'_>>
        ensures right { IfSome result (λ table. IsTableFor (table_numbers table) self.now) }
        ensures alike { IfSome result (λ table.
            AreAlikeInClasses (table_numbers table) self.now) }
    {
        match &self.table {
            Some(table) => Some(table.numbers(&self.dfa)),
            None => None,
        }
    }

    /// The longest nonempty prefix of the text that some pattern matches, with the strongest pattern that matches it.
    /// `None` if no pattern matches any. Whatever the automaton is, the slice is a nonempty prefix of the text.
    #[inline(always)]
    pub fn longest<'text>(&self, text: &'text str) -> Option<(NfaIndex, &'text str)>
        ensures answer { (ts : List Tree) (ps : List ℕ) → Recognizes self.now ts ps
            → IsLongest ts ps text.now (option_map (λ m. (m.0, m.1.now)) result) }
        ensures prefix { IfSome result (λ m. IsPrefix m.1.now text.now × (m.1.now ≢ [])) }
    {
        self.longest_counted(text, &mut Steps::new())
    }

    /// The same answer. A step is counted for each character read: each takes a cell of the table, or an edge of the automaton.
    #[inline(always)]
    pub fn longest_counted<'text>(
        &self,
        text: &'text str,
        steps: &mut Steps,
    ) -> Option<(NfaIndex, &'text str)>
        ensures answer { (ts : List Tree) (ps : List ℕ) → Recognizes self.now ts ps
            → IsLongest ts ps text.now (option_map (λ m. (m.0, m.1.now)) result) }
        ensures prefix { IfSome result (λ m. IsPrefix m.1.now text.now × (m.1.now ≢ [])) }
        ensures never_falls { steps.old ≤ steps.new }
        ensures cost { steps.new ≤ steps.old + length (chars text.now) }
        ensures looked { (n : ℕ) → ReadsAtMost self.now n → IfSome result (λ m.
            steps.new ≤ steps.old + length (chars m.1.now) + n + 1) }
        ensures read { IfSome result (λ m. steps.old + length (chars m.1.now) ≤ steps.new) }
    {
        match &self.table {
            Some(table) => match &table.cells {
                StoredCells::Narrow(cells) => {
                    longest_by(cells, &table.layout, &self.dfa, text, steps)
                }
                StoredCells::Wide(cells) => {
                    longest_by(cells, &table.layout, &self.dfa, text, steps)
                }
            },
            None => interpret_counted(&self.dfa, text, steps),
        }
    }

    /// The longest match at the start of the text, if the characters that begin within the first `limit` bytes settle it. `None`
    /// if they don't, or if there is no table. If the text goes on after what was read, the match is settled whatever comes there. A
    /// step is counted for each character read: at most `limit` in all.
    #[inline(always)]
    pub fn longest_within<'text>(
        &self,
        text: &'text str,
        limit: usize,
        steps: &mut Steps,
    ) -> Option<BoundedMatch<'text>>
        ensures answer { (ts : List Tree) (ps : List ℕ) → Recognizes self.now ts ps
            → IfSome result (λ s.
            IsLongest ts ps text.now (option_map (λ m. (m.0, m.1.now)) s.longest)) }
        ensures prefix { IfSome result (λ s. IfSome s.longest (λ m.
            IsPrefix m.1.now text.now × (m.1.now ≢ []))) }
        ensures never_falls { steps.old ≤ steps.new }
        ensures limit { steps.new ≤ steps.old + limit }
        ensures past { IfSome result (λ s. MatchOption s.longest (steps.new ≤ steps.old + s.past)
            (λ m. steps.new ≤ steps.old + length (chars m.1.now) + s.past)) }
        ensures read { IfSome result (λ s. IfSome s.longest (λ m.
            steps.old + length (chars m.1.now) ≤ steps.new)) }
        ensures dead { IfSome result (λ s. IfSome s.longest (λ m.
            length m.1.now + s.past < length text.now
            → IsDeadAt self.now text.now (length m.1.now + s.past))) }
        ensures within { IfSome result (λ s. MatchOption s.longest (s.past ≤ length text.now)
            (λ m. length m.1.now + s.past ≤ length text.now)) }
    {
        match &self.table {
            Some(table) => match &table.cells {
                StoredCells::Narrow(cells) => {
                    longest_within_by(cells, &table.layout, &self.dfa, text, limit, steps)
                }
                StoredCells::Wide(cells) => {
                    longest_within_by(cells, &table.layout, &self.dfa, text, limit, steps)
                }
            },
            None => None,
        }
    }

    /// Finds the ends of tokens from a place on, as far as the fused table leads, there is room for them, and `limit` bytes go.
    /// They replace those that were ahead. Returns how many bytes were read in vain after the last end: those of the characters
    /// that begin within the limit. A step is counted for each character read, and for each byte that is skipped.
    ///
    /// Each is the end of the longest match where the token before it ends, with the strongest pattern that matches it. The character
    /// after it settles that, whatever comes after that character. None may be found although a pattern matches: then `longest` tells.
    pub fn find_ends(
        &self,
        text: &str,
        at: usize,
        limit: usize,
        ends: &mut TokenEnds,
        steps: &mut Steps,
    ) -> usize
        requires boundary { IsCharBoundary text.now at }
        ensures ahead { AreAhead self.now text.now at ends.new }
        ensures limit { result ≤ limit }
        ensures never_falls { steps.old ≤ steps.new }
        ensures cost { steps.new + at ≤ steps.old + last_end at ends.new + result }
        ensures read { steps.old + length ends.new ≤ steps.new }
    {
        if let Some(table) = &self.table
            && let Some(fused) = &table.fused
        {
            let engine = Engine {
                dfa: &self.dfa,
                layout: &table.layout,
                cells: &table.cells,
                fused,
            };
            return ends.find(&engine, text, at, limit, steps);
        }
        ends.clear();
        0
    }
}

// Makes the fused table of the table. None if it would be too large, or fails the check.
fn checked_fused(alloc: Global, layout: &Layout, cells: &[u32]) -> Result<Option<Fused>, AllocError>
    requires { HasClasses layout.now }
    ensures { IfOk result (λ made. IfSome made (λ fused.
        IsFusedOf fused layout.now cells.now)) }
{
    let Some(fused) = make_fused(alloc, layout, cells)? else {
        return Ok(None);
    };
    if !is_fused_of(&fused, layout, cells) {
        return Ok(None);
    }
    Ok(Some(fused))
}

// Makes the table of the automaton. None if it would be too large or take too long, or fails the check.
fn checked_table(alloc: Global, dfa: &Dfa) -> Result<Option<Table>, AllocError>
    ensures { IfOk result (λ made. IfSome made (λ table. IsTable table dfa.now)) }
{
    let alikes = alikes_of(alloc, dfa)?;
    let Some((layout, cells)) = make_table(alloc, dfa, &alikes)? else {
        return Ok(None);
    };
    if !is_table_of(alloc, &layout, &cells, dfa, &alikes)? {
        return Ok(None);
    }
    let fused = checked_fused(alloc, &layout, &cells)?;
    let cells = stored(alloc, cells)?;
    Ok(Some(Table {
        layout,
        cells,
        fused,
    }))
}
