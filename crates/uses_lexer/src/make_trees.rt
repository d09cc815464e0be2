//! Trees, made by hand.
ghost use Rattle.std.specs.Prelude.{◌≡◌, ◌∷◌, [], string_bytes, IfOk, option_map};
ghost use Rattle.lalrpop_hir.specs.Counts.{AreOrdered};
ghost use Rattle.lalrpop_hir.specs.Level.{class_of};
ghost use Rattle.lalrpop_hir.specs.Parts.{trees, of_text};
ghost use Rattle.lalrpop_hir.specs.Tree.{empty, class, look, repetition, capture, concat, alternation};

use lalrpop_hir::{Capture, Class, Hir, Look, Repetition};
use std::alloc::{AllocError, Global};

/// Either the text or nothing.
// Needs lalrpop_hir::Hir::empty: tree.
// Needs lalrpop_hir::Hir::literal: tree.
// Needs lalrpop_hir::Hir::alternation: tree.
pub fn text_or_nothing(alloc: Global, text: &str) -> Result<Hir, AllocError>
    ensures { IfOk result (λ t. t ≡ alternation (trees (of_text text.now ∷ empty ∷ []))) }
{
    let branches = vec![in alloc; Hir::literal(alloc, text)?, Hir::empty()]?;
    Ok(Hir::alternation(branches))
}

/// One of the members, at a place such as the beginning of a line.
// Needs lalrpop_hir::Hir::class: tree.
// Needs lalrpop_hir::Hir::look: tree.
// Needs lalrpop_hir::Hir::concat: tree.
pub fn member_at(alloc: Global, place: Look, members: Class) -> Result<Hir, AllocError>
    ensures { IfOk result (λ t.
        t ≡ concat (trees (look place ∷ class (class_of members) ∷ []))) }
{
    let parts = vec![in alloc; Hir::look(place), Hir::class(members)]?;
    Ok(Hir::concat(parts))
}

/// The part, from `least` to `most` times.
// Needs lalrpop_hir::Repetition::new: parts.
// Needs lalrpop_hir::Hir::repetition: tree.
pub fn repeated(
    alloc: Global,
    least: u32,
    most: Option<u32>,
    greedy: bool,
    part: Hir,
) -> Result<Hir, AllocError>
    requires { AreOrdered least most }
    ensures { IfOk result (λ t. t ≡ repetition least most greedy part) }
{
    let sub = Box::new(alloc, part)?;
    Ok(Hir::repetition(Repetition::new(least, most, greedy, sub)))
}

/// The part, as a group of this name, if it has one.
// Needs lalrpop_hir::Capture::new: parts.
// Needs lalrpop_hir::Hir::capture: tree.
pub fn grouped(alloc: Global, name: Option<String>, part: Hir) -> Result<Hir, AllocError>
    ensures { IfOk result (λ t. t ≡ capture (option_map string_bytes name) part) }
{
    let sub = Box::new(alloc, part)?;
    Ok(Hir::capture(Capture::new(name, sub)))
}
