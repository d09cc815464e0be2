//! What edits cost.
ghost use Rattle.std.specs.Prelude.{ℕ, ◌+◌, ◌-◌, ◌*◌, ◌<◌, ◌≤◌, length, IfOk, OnOk};
ghost use Rattle.lalrpop_rules.specs.Modes.{trees_in};
ghost use Rattle.lalrpop_rules.specs.ModeCut.{open_in_all};
ghost use Rattle.bajofeki.specs.Lexed.{ReadsTo};

use bajofeki::{Document, EditError};
use lalrpop_hir::Steps;
use lalrpop_rules::RuleLexer;
use std::alloc::Global;
use std::ops::Range;

// Needs bajofeki::Document::new: lexed; bajofeki::Document::edit_counted: edited, cost.
/// The text with its pieces, cut whole in time linear in it.
///
/// # Errors
///
/// What is wrong with the text.
pub fn cut_whole<'rules>(
    alloc: Global,
    lexer: &'rules RuleLexer,
    text: &str,
    steps: &mut Steps,
) -> Result<Document<'rules>, EditError>
    ensures cost { OnOk result (steps.new ≤ steps.old + 270 * length text.now
        + open_in_all lexer.now * (2 * length text.now + 256)) }
{
    let mut lexed = Document::new(alloc, lexer, "")?;
    lexed.edit_counted(alloc, 0..0, text, steps)?;
    Ok(lexed)
}

// Needs bajofeki::Document::edit_counted: cost, never_falls.
/// Edits a text, and says where what was cut anew begins and ends, in bytes. Where nothing from a place in it up to a place after it
/// begins a word, what is read depends on its length alone, however long the text is.
///
/// # Errors
///
/// What is wrong with the edit.
pub fn edit_near(
    alloc: Global,
    lexed: &mut Document<'_>,
    range: Range<usize>,
    new: &str,
    steps: &mut Steps,
) -> Result<(usize, usize), EditError>
    ensures cost { IfOk result (λ cut.
        ((mode k far : ℕ) → cut.0 ≤ k → k ≤ cut.1 → cut.1 < far
        → ¬ ReadsTo (trees_in lexed.new.rules mode) lexed.new.text k far)
        → steps.new ≤ steps.old + 270 * (cut.1 - cut.0)
        + open_in_all lexed.new.rules * (2 * (cut.1 - cut.0) + 256)) }
    ensures never_falls { steps.old ≤ steps.new }
{
    let change = lexed.edit_counted(alloc, range, new, steps)?;
    Ok((change.start, change.new_end))
}
