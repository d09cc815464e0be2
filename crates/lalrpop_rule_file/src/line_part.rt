//! A part: what stands after its name and the word `part`.
ghost use Rattle.std.specs.Prelude.{◌≡◌, ◌++◌, ℕ, List, [], codes, IfOk, IfErr};
ghost use Rattle.lalrpop_rule_file.specs.RuleLine.{Defining, Defines, Defined, Reads};
ghost use Rattle.lalrpop_rule_file.specs.RuleFault.{StopsBefore};
ghost use Rattle.lalrpop_rule_file.specs.Internal.Values.{HasPattern, part_of};

use crate::error::LineFault;
use crate::head::behind_equals;
use crate::line_text::closed;
use crate::span::{Class, split_front};
use crate::stop::Stop;
use crate::word::behind;
use crate::written::{Form, LineName, LinePart};

// The pattern after its first slash.
fn slashed<'text>(name: LineName<'text>, inner: &'text str) -> Result<LinePart<'text>, Stop<'text>>
    ensures part { IfOk result (λ part.
        Reads (Defines name.entry.name.now) (codes "/" ++ inner.now) (Defined (part_of part)) []) }
    ensures pattern { IfOk result (λ part. HasPattern inner.now part) }
    ensures name { IfOk result (λ part. part.name ≡ name.entry) }
    ensures stops { IfErr result (λ stop. StopsBefore (Defines name.entry.name.now)
        (codes "/" ++ inner.now) stop.rest.now stop.fault) }
{
    let pattern = closed(inner, Form::Pattern)?;
    Ok(LinePart {
        name,
        pattern,
        here: inner,
    })
}

// The pattern in slashes after the `=`.
fn pattern_behind<'text>(
    name: LineName<'text>,
    right: &'text str,
) -> Result<LinePart<'text>, Stop<'text>>
    ensures part { IfOk result (λ part.
        Reads (Defines name.entry.name.now) right.now (Defined (part_of part)) []) }
    ensures pattern { IfOk result (λ part. HasPattern right.now part) }
    ensures name { IfOk result (λ part. part.name ≡ name.entry) }
    ensures stops { IfErr result (λ stop.
        StopsBefore (Defines name.entry.name.now) right.now stop.rest.now stop.fault) }
{
    let (_, here) = split_front(right, Class::Blank);
    let Some(inner) = behind(here, '/') else {
        return Err(Stop {
            fault: LineFault::NoPattern,
            rest: here,
        });
    };
    slashed(name, inner)
}

/// The part with this name. The text is what follows the word `part`.
pub(crate) fn part_behind<'text>(
    name: LineName<'text>,
    text: &'text str,
) -> Result<LinePart<'text>, Stop<'text>>
    ensures part { IfOk result (λ part.
        Reads (Defining name.entry.name.now) text.now (Defined (part_of part)) []) }
    ensures pattern { IfOk result (λ part. HasPattern text.now part) }
    ensures name { IfOk result (λ part. part.name ≡ name.entry) }
    ensures stops { IfErr result (λ stop.
        StopsBefore (Defining name.entry.name.now) text.now stop.rest.now stop.fault) }
{
    let (_, here) = split_front(text, Class::Blank);
    let right = behind_equals(here)?;
    pattern_behind(name, right)
}
