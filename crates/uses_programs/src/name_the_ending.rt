//! How `tokens [--recover] [--json] rules [text -]` ends for given bytes: what is written and said, and
//! the status.
ghost use Rattle.std.specs.Prelude.{◌≡◌, IfOk, IfErr};
ghost use Rattle.uses_programs.specs.Endings.{Alone, Both, RunEnds, answer_of};

use crate::run_tokens::{BothFiles, Given, cut_in_memory, cut_two_in_memory};
use lexdfa_lib::RunError;
use std::alloc::Global;
use tokens_lib::LineForm;

// Needs tokens_lib::run: answer, fails. tokens_lib::LineForm.
/// By the file of rules: it has a bad line, no lexer can be made of its rules, or nothing is wrong with
/// them. Then by the text, of any bytes: it is clean, it is cut whole past its faults or up to an open
/// mode, or cutting stops at its first fault. Each has exactly its bytes and its status.
///
/// # Errors
///
/// `OutOfMemory` if a request for memory was refused.
pub fn end_of_one(
    alloc: Global,
    form: LineForm,
    recovers: bool,
    rules: &[u8],
    text: &[u8],
) -> Result<Given, RunError>
    ensures ends { IfOk result (λ given.
        RunEnds (Alone form recovers text.now) rules.now (answer_of given)) }
    ensures memory { IfErr result (λ e. e ≡ RunError.OutOfMemory) }
{
    cut_in_memory(alloc, form, recovers, rules, text)
}

// Needs tokens_lib::run: answer, fails. tokens_lib::LineForm.
/// The same for the file `text` and then `-`, which is standard input.
///
/// # Errors
///
/// `OutOfMemory` if a request for memory was refused.
pub fn end_of_two(
    alloc: Global,
    form: LineForm,
    recovers: bool,
    files: &BothFiles<'_>,
    input: &[u8],
) -> Result<Given, RunError>
    ensures ends { IfOk result (λ given. RunEnds (Both form recovers files.now.text.now input.now)
        files.now.rules.now (answer_of given)) }
    ensures memory { IfErr result (λ e. e ≡ RunError.OutOfMemory) }
{
    cut_two_in_memory(alloc, form, recovers, files, input)
}
