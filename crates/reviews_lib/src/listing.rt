//! What is listed of a file of rules: all clashes, or a review.
ghost use Rattle.std.specs.Prelude.{◌≡◌, ◌<◌, ℕ, List, length, slice_get, Some, map, IfOk};
ghost use Rattle.bajofeki_rules.specs.Lines.{lines};
ghost use Rattle.lalrpop_rule_file.specs.RuleFile.{AreFileParts, AreRules, ArePlaces, NamesMode, without_mark as without_mark_of};
ghost use Rattle.lalrpop_rule_file.specs.declared.file_rule.FileRule.{FileRule as FileRuleValue};
ghost use Rattle.lexdfa_lib.specs.Streams.{GivesWhole};
ghost use Rattle.reviews_lib.specs.Checked.{CheckAnswer, finding};
ghost use Rattle.reports_lib.specs.NamedRules.{BytesAnswer, StandAt, LinesAnswer, RulesTold, ClashesAnswer, NameOnly};
ghost use Rattle.reviews_lib.specs.Listings.{ListingAnswer, form_of, told_first};
ghost use Rattle.reports_lib.specs.WarningsSaid.{SaysIfAsked};
ghost use Rattle.lexdfa_lib.specs.declared.command.Verbosity.TheVariants.{Warnings};

use crate::checked::{check_rules, clashes_status};
use crate::warnings::warnings_found;
use lalrpop_rule_file::{RuleFile, read_rules, without_mark};
use lalrpop_rules::mode_clashes;
use lexdfa_lib::{Files, Verbosity, bytes_of};
use reports_lib::{
    LineForm, ModeFile, Reply, clash_lines, line_refused, rules_refused, unread, warnings_said,
};
use std::alloc::{AllocError, Global};

/// What is listed of a file of rules.
///
/// ```
/// use lexdfa_lib::Verbosity;
/// use reviews_lib::{LineForm, Listing, list_rules};
///
/// let listing = Listing::Review(LineForm::Plain);
/// let reply = list_rules(alloc, listing, Verbosity::Warnings, &files, "my.rules")?; // as `tokens my.rules --check`
/// ```
#[derive(Clone, Copy, Debug)]
pub enum Listing {
    /// All clashes of the rules.
    Clashes,
    /// A review of the rules, with lines of this form. What is said of the file counts as something
    /// that was found.
    Review(LineForm),
}

// What is answered to a list of all clashes of these rules.
fn list_clashes_of(
    alloc: Global,
    name: &str,
    bytes: &[u8],
    file: &ModeFile<'_>,
) -> Result<Reply, AllocError>
    requires places { StandAt (lines bytes.now) file.now.rules.items file.now.places.items }
    requires some { 0 < length file.now.modes.items }
    requires within { NameOnly file.now.rules.items (length file.now.modes.items) }
    ensures answer { IfOk result (ClashesAnswer name.now (lines bytes.now)
        (map (λ m. m.now) file.now.modes.items) file.now.rules.items) }
{
    let found = match mode_clashes(alloc, &file.rules, file.modes.len()) {
        Ok(found) => found,
        Err(error) => return rules_refused(alloc, name, bytes, file, &error),
    };
    let text = clash_lines(alloc, &file.rules, &file.modes, &found)?;
    Ok(Reply::written(alloc, clashes_status(&found), text.into_bytes()))
}

// What is answered to what is asked of these rules.
fn list_of(
    alloc: Global,
    listing: Listing,
    name: &str,
    bytes: &[u8],
    file: &ModeFile<'_>,
) -> Result<Reply, AllocError>
    requires places { StandAt (lines bytes.now) file.now.rules.items file.now.places.items }
    requires some { 0 < length file.now.modes.items }
    requires within { NameOnly file.now.rules.items (length file.now.modes.items) }
    ensures answer { IfOk result (ListingAnswer listing name.now (lines bytes.now)
        (map (λ m. m.now) file.now.modes.items) file.now.rules.items) }
{
    match listing {
        Listing::Clashes => list_clashes_of(alloc, name, bytes, file),
        Listing::Review(form) => check_rules(alloc, form, name, bytes, file),
    }
}

// What is answered for the warnings about the file of rules that these bytes are.
fn warned(
    alloc: Global,
    listing: Listing,
    verbosity: Verbosity,
    name: &str,
    bytes: &[u8],
    file: &RuleFile<'_>,
) -> Result<Reply, AllocError>
    ensures told { IfOk result (λ reply. (said : List ℕ)
        × (SaysIfAsked (form_of listing) verbosity name.now (lines (without_mark_of bytes.now))
        file.now said × (reply ≡ told_first listing said))) }
{
    match listing {
        Listing::Clashes => {
            let said = warnings_said(alloc, verbosity, name, bytes, file)?;
            Ok(Reply::refusal(alloc, 0, said))
        }
        Listing::Review(form) => warnings_found(alloc, form, verbosity, name, bytes, file),
    }
}

// What is answered to what is asked of the rules of the file that these bytes are.
fn list_by(
    alloc: Global,
    listing: Listing,
    name: &str,
    bytes: &[u8],
    file: &RuleFile<'_>,
) -> Result<Reply, AllocError>
    requires rules { AreRules (lines (without_mark_of bytes.now))
        (map (λ m. m.now) file.now.modes.items) file.now.rules.items }
    requires parts { AreFileParts (lines (without_mark_of bytes.now)) file.now.parts.items }
    requires places { ArePlaces (lines (without_mark_of bytes.now)) file.now.rules.items }
    requires some { 0 < length file.now.modes.items }
    requires within { (i m : ℕ) (r : FileRuleValue)
        → slice_get file.now.rules.items i ≡ Some r → NamesMode r m
        → m < length file.now.modes.items }
    ensures answer { IfOk result
        (LinesAnswer (ListingAnswer listing) name.now (lines (without_mark_of bytes.now))) }
{
    let file = ModeFile::of(alloc, file)?;
    list_of(alloc, listing, name, without_mark(bytes), &file)
}

// What is answered to what is asked of these bytes, after the warnings about them.
fn list_in(
    alloc: Global,
    listing: Listing,
    verbosity: Verbosity,
    name: &str,
    bytes: &[u8],
) -> Result<Reply, AllocError>
    ensures answer { IfOk result
        (RulesTold (form_of listing) (told_first listing) verbosity (ListingAnswer listing)
        name.now bytes.now) }
{
    match read_rules(alloc, bytes) {
        Ok(file) => {
            let first = warned(alloc, listing, verbosity, name, bytes, &file)?;
            list_by(alloc, listing, name, bytes, &file)?.following(first)
        }
        Err(error) => line_refused(alloc, name, without_mark(bytes), &error),
    }
}

/// What `tokens --check` answers for the rules that these bytes are, in a file of this name: in `LineForm::Json` it writes an object for
/// each thing that it finds, and says why if there are no rules. Its status is 0 if nothing was found, 1 if something was, 2 if rules
/// clash or can't be compiled, and 3 if a line is wrong or a rule's text doesn't parse.
///
/// ```
/// use tokens_lib::{LineForm, check_answer};
///
/// let reply = check_answer(alloc, LineForm::Plain, "my.rules", b"A = 'a'\nB = 'a'\n")?;
/// assert_eq!(reply.status(), 2);
/// ```
///
/// # Errors
///
/// `AllocError` if a request for memory was refused.
pub fn check_answer(
    alloc: Global,
    form: LineForm,
    name: &str,
    bytes: &[u8],
) -> Result<Reply, AllocError>
    ensures answer { IfOk result (RulesTold form (finding form) Warnings (CheckAnswer form)
        name.now bytes.now) }
{
    list_in(
        alloc,
        Listing::Review(form),
        Verbosity::Warnings,
        name,
        bytes,
    )
}

/// What is answered to what is asked of the rules of a file.
///
/// # Errors
///
/// `AllocError` if a request for memory was refused.
pub fn list_rules<F: Files>(
    alloc: Global,
    listing: Listing,
    verbosity: Verbosity,
    files: &F,
    name: &str,
) -> Result<Reply, AllocError>
    ensures answer { IfOk result (BytesAnswer (GivesWhole (F.gives files.now))
        (RulesTold (form_of listing) (told_first listing) verbosity (ListingAnswer listing))
        name.now) }
{
    match bytes_of(alloc, files, name)? {
        Ok(bytes) => list_in(alloc, listing, verbosity, name, &bytes),
        Err(reason) => unread(alloc, name, reason.as_str()),
    }
}
