//! What a check answers for the warnings about a file of rules.
ghost use Rattle.std.specs.Prelude.{◌≡◌, ℕ, List, IfOk};
ghost use Rattle.bajofeki_rules.specs.Lines.{lines};
ghost use Rattle.lalrpop_rule_file.specs.RuleFile.{without_mark as without_mark_of};
ghost use Rattle.lexdfa_lib.specs.declared.layout.LineForm.TheVariants.{Json};
ghost use Rattle.reviews_lib.specs.Checked.{finding, said_status};
ghost use Rattle.reports_lib.specs.WarningsSaid.{SaysIfAsked};

use lalrpop_rule_file::RuleFile;
use lexdfa_lib::Verbosity;
use reports_lib::{LineForm, Reply, warnings_json, warnings_said};
use std::alloc::{AllocError, Global};

// The warnings about the file of rules that these bytes are, as JSON objects; nothing, if only errors are said.
fn warnings_written(
    alloc: Global,
    verbosity: Verbosity,
    name: &str,
    bytes: &[u8],
    file: &RuleFile<'_>,
) -> Result<Vec<u8>, AllocError>
    ensures objects { IfOk result (λ objects. SaysIfAsked Json verbosity name.now
        (lines (without_mark_of bytes.now)) file.now objects.items) }
{
    match verbosity {
        Verbosity::Quiet => Ok(Vec::new(alloc)),
        Verbosity::Warnings | Verbosity::Progress => warnings_json(alloc, name, bytes, file),
    }
}

// The status of what is said, if anything is.
fn said_status(said: &[u8]) -> u8
    ensures { result ≡ said_status said.now }
{
    u8::from(!said.is_empty())
}

/// What a check answers for the warnings about the file of rules that these bytes are: lines are said, and objects are written.
///
/// # Errors
///
/// `AllocError` if a request for memory was refused.
pub(crate) fn warnings_found(
    alloc: Global,
    form: LineForm,
    verbosity: Verbosity,
    name: &str,
    bytes: &[u8],
    file: &RuleFile<'_>,
) -> Result<Reply, AllocError>
    ensures found { IfOk result (λ reply. (said : List ℕ)
        × (SaysIfAsked form verbosity name.now (lines (without_mark_of bytes.now)) file.now said
        × (reply ≡ finding form said))) }
{
    match form {
        LineForm::Plain => {
            let said = warnings_said(alloc, verbosity, name, bytes, file)?;
            let status = said_status(said.as_str().as_bytes());
            Ok(Reply::refusal(alloc, status, said))
        }
        LineForm::Json => {
            let objects = warnings_written(alloc, verbosity, name, bytes, file)?;
            let status = said_status(&objects);
            Ok(Reply::written(alloc, status, objects))
        }
    }
}
