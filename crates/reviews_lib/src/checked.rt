//! A check of rules: their clashes, or a review.
ghost use Rattle.std.specs.Prelude.{◌≡◌, ◌≢◌, ◌<◌, List, [], length, false, true, map, IfOk, OnOk, OnErr, IfErr, if◌then◌else◌};
ghost use Rattle.bajofeki_rules.specs.Lines.{lines};
ghost use Rattle.lalrpop_rules.specs.ModeClashes.{IsModesFault};
ghost use Rattle.lalrpop_rules.specs.ModeSet.{IsRulesError, rules_of};
ghost use Rattle.lalrpop_review.specs.Review.{IsReview};
ghost use Rattle.lalrpop_review.specs.declared.whole.Review.{Review as ReviewValue};
ghost use Rattle.lalrpop_rules.specs.RuleSet.{names_of};
ghost use Rattle.reviews_lib.specs.Checked.{AreToldClashes, CheckAnswer, ClashesTold, IsTold, clashes_answer, review_answer};
ghost use Rattle.reports_lib.specs.NamedRules.{StandAt, NameOnly, clashes_status};
ghost use Rattle.reviews_lib.specs.Internal.Faults.{is_clash};

use crate::review_lines::{clash_report, has_findings, review_text};
use lalrpop_lexer::lexer::dfa::Clash;
use lalrpop_review::review;
use lalrpop_rules::{RuleLexer, RulesError, mode_clashes};
use reports_lib::{LineForm, ModeFile, Reply, rules_refused};
use std::alloc::{AllocError, Global};

// The status of rules that clash, and of rules of which something else was found.
const CLASH: u8 = 2;

const FOUND: u8 = 1;

/// The status of rules with these clashes in their modes.
pub(crate) fn clashes_status(found: &[Vec<Clash>]) -> u8
    ensures { result ≡ clashes_status (map (λ cs. cs.items) found.now) }
{
    for clashes in found {
        if !clashes.is_empty() {
            return CLASH;
        }
    }
    0
}

// The lines of these clashes.
fn clash_lines(
    alloc: Global,
    form: LineForm,
    name: &str,
    file: &ModeFile<'_>,
    found: &[Vec<Clash>],
) -> Result<Reply, AllocError>
    ensures { IfOk result (λ told. told
        ≡ clashes_answer form name.now (map (λ m. m.now) file.now.modes.items)
        (names_of (rules_of file.now.rules.items)) file.now.places.items
        (map (λ cs. cs.items) found.now)) }
{
    let text = clash_report(
        alloc,
        form,
        name,
        &file.modes,
        &file.rules,
        &file.places,
        found,
    )?;
    Ok(Reply::written(alloc, CLASH, text))
}

// All clashes of these rules; or their first fault, which isn't a clash.
fn told_clashes(
    alloc: Global,
    form: LineForm,
    name: &str,
    file: &ModeFile<'_>,
) -> Result<Reply, RulesError>
    ensures told { IfOk result (λ told. AreToldClashes form name.now
        (map (λ m. m.now) file.now.modes.items) file.now.rules.items file.now.places.items
        told) }
    ensures fault { IfErr result (IsModesFault file.now.rules.items
        (length (map (λ m. m.now) file.now.modes.items))) }
{
    let found = mode_clashes(alloc, &file.rules, file.modes.len())?;
    match clash_lines(alloc, form, name, file, &found) {
        Ok(told) => Ok(told),
        Err(_) => Err(RulesError::OutOfMemory),
    }
}

// The status of a review.
fn review_status(is_found: bool) -> u8
    ensures { result ≡ (if is_found then 1 else 0) }
{
    if is_found { FOUND } else { 0 }
}

// A review of these rules, whose lexer this is.
fn told_review(
    alloc: Global,
    form: LineForm,
    name: &str,
    file: &ModeFile<'_>,
    lexer: &RuleLexer,
) -> Result<Reply, AllocError>
    ensures { IfOk result (λ told. (found : ReviewValue) × (IsReview lexer.now found
        × (told
        ≡ review_answer form name.now (map (λ m. m.now) file.now.modes.items)
        (names_of (rules_of file.now.rules.items)) file.now.places.items found))) }
{
    let found = review(alloc, lexer)?;
    let text = review_text(
        alloc,
        form,
        name,
        &file.modes,
        &file.rules,
        &file.places,
        &found,
    )?;
    let status = review_status(has_findings(&found));
    Ok(Reply::written(alloc, status, text))
}

// Whether the error is a clash.
fn is_clash(error: &RulesError) -> bool
    ensures { result ≡ is_clash error.now }
{
    matches!(error, RulesError::Clash { .. })
}

// All clashes, if this error of the rules is one; otherwise the error.
fn told_instead(
    alloc: Global,
    form: LineForm,
    name: &str,
    file: &ModeFile<'_>,
    error: RulesError,
) -> Result<Reply, RulesError>
    requires error { IsRulesError file.now.rules.items
        (length (map (λ m. m.now) file.now.modes.items)) error }
    ensures told { IfOk result (λ told. ClashesTold form name.now
        (map (λ m. m.now) file.now.modes.items) file.now.rules.items file.now.places.items
        told) }
    ensures fault { IfErr result (IsModesFault file.now.rules.items
        (length (map (λ m. m.now) file.now.modes.items))) }
{
    if is_clash(&error) {
        return told_clashes(alloc, form, name, file);
    }
    Err(error)
}

// What a check of these rules writes; or their first fault, which isn't a clash.
fn told_of(
    alloc: Global,
    form: LineForm,
    name: &str,
    file: &ModeFile<'_>,
) -> Result<Reply, RulesError>
    requires some { 0 < length file.now.modes.items }
    ensures told { IfOk result (λ told. IsTold form name.now (map (λ m. m.now) file.now.modes.items)
        file.now.rules.items file.now.places.items
        told) }
    ensures fault { IfErr result (IsModesFault file.now.rules.items
        (length (map (λ m. m.now) file.now.modes.items))) }
{
    let lexer = match RuleLexer::with_modes(alloc, &file.rules, &file.modes) {
        Ok(lexer) => lexer,
        Err(error) => return told_instead(alloc, form, name, file, error),
    };
    match told_review(alloc, form, name, file, &lexer) {
        Ok(told) => Ok(told),
        Err(_) => Err(RulesError::OutOfMemory),
    }
}

/// What is answered to a check of these rules: all clashes, or if none clash, a review.
///
/// # Errors
///
/// `AllocError` if a request for memory was refused.
pub(crate) fn check_rules(
    alloc: Global,
    form: LineForm,
    name: &str,
    bytes: &[u8],
    file: &ModeFile<'_>,
) -> Result<Reply, AllocError>
    requires places { StandAt (lines bytes.now) file.now.rules.items file.now.places.items }
    requires some { 0 < length file.now.modes.items }
    requires within { NameOnly file.now.rules.items (length file.now.modes.items) }
    ensures answer { IfOk result (CheckAnswer form name.now (lines bytes.now)
        (map (λ m. m.now) file.now.modes.items) file.now.rules.items) }
{
    match told_of(alloc, form, name, file) {
        Ok(told) => Ok(told),
        Err(error) => rules_refused(alloc, name, bytes, file, &error),
    }
}
