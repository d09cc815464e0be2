//! Streams read to their end and written to, and reports as outcomes.
ghost use Rattle.std.specs.Prelude.{◌≡◌, ℕ, List, true, IfOk, IfErr, OnOk, OnErr};
ghost use Rattle.lalrpop_lexer.specs.Tree.{Tree};
ghost use Rattle.lalrpop_lexer.specs.Report.{IsReport};
ghost use Rattle.lexdfa_lib.specs.Answer.{IsReported};
ghost use Rattle.bajofeki_rules.specs.Lines.{lines};
ghost use Rattle.lalrpop_lexer.specs.Terminals.{AreTerminals};
ghost use Rattle.lexdfa_lib.specs.Streams.{AtEnd, Reads, Takes};

use lalrpop_lexer::lexer::dfa::DfaConstructionError;
use lexdfa_lib::{Outcome, Reader, RunError, Sink, Source, Writer, outcome_of_error, read_whole};
use std::alloc::{AllocError, Global};

// Needs lexdfa_lib::read_whole: bytes, part. lexdfa_lib::Writer::write: all, part.
/// Copies all bytes of a stream to another. Only one that may fail is named in an error.
///
/// # Errors
///
/// Those of `read_whole` and of `Writer::write`.
pub fn copy_all<I: Source, O: Sink>(
    alloc: Global,
    reader: &mut Reader<I>,
    writer: &mut Writer<O>,
) -> Result<(), RunError>
    ensures copied { OnOk result ((bytes : List ℕ)
        × (Reads reader.old reader.new (record { bytes = bytes; end = AtEnd })
        × Takes writer.old bytes writer.new)) }
    ensures read { IfErr result (λ e. e ≡ RunError.Read → reader.old.may_fail ≡ true) }
    ensures write { IfErr result (λ e. e ≡ RunError.Write → writer.old.may_fail ≡ true) }
{
    let bytes = read_whole(alloc, reader)?;
    writer.write(&bytes)
}

// What the builder reports, as an outcome.
// Needs lexdfa_lib::outcome_of_error: ok, memory.
pub fn told(error: DfaConstructionError) -> Result<Outcome, AllocError>
    ensures ok { IfOk result (λ outcome. (bytes : List ℕ) (ts : List Tree) (ps : List ℕ)
        → AreTerminals (lines bytes) ts ps → IsReport ts ps error → IsReported bytes outcome) }
    ensures memory { OnErr result (error ≡ DfaConstructionError.OutOfMemory) }
{
    outcome_of_error(error)
}
