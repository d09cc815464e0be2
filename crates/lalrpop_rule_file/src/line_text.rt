//! What stands right of the `=` of a rule: its precedence and its text.
ghost use Rattle.std.specs.Prelude.{◌≡◌, ◌≢◌, ◌<◌, ◌∷◌, ◌++◌, ℕ, List, [], Option, None, Bool, true, false, codes, length, IfOk, IfErr, IfSome, IfNone};
ghost use Rattle.std.specs.Char.{is_ascii_digit};
ghost use Rattle.bajofeki_rules.specs.Precedence.{IsPrecedence};
ghost use Rattle.lalrpop_rule_file.specs.Words.{EachByte, IsSpan, Lacks, begins, is_blank, is_no_apostrophe};
ghost use Rattle.lalrpop_rule_file.specs.LineText.{BeginsText, Form as TextForm, IsTo, IsUpToTo, NoToBefore, delimiter, precedence_or as precedence_or_else};
ghost use Rattle.lalrpop_rule_file.specs.RuleLine.{Head, Equals, InAnyCase, From, Closed, Reads, rule_of as whole_rule};
ghost use Rattle.lalrpop_rule_file.specs.RuleFault.{StopsBefore};
ghost use Rattle.lalrpop_rule_file.specs.Internal.Values.{form_of, text_of};
ghost use Rattle.lalrpop_rule_file.specs.Internal.Stops.{IsBeforeText, IsClosed, IsNotClosed, ReadsText, StopsText};

use crate::error::LineFault;
use crate::span::{Class, split_front};
use crate::stop::Stop;
use crate::word::{behind, behind_word};
use crate::written::{Form, LineText, WrittenText};

// Enough for every `usize`, padded with zeros if it is shorter.
const MAX_DIGITS: usize = 20;

// The value of at most 20 decimal digits, if it fits a `usize`.
fn precedence_of(digits: &str) -> Option<usize>
    requires { EachByte is_ascii_digit digits.now × (0 < length digits.now) }
    ensures some { IfSome result (λ n. IsPrecedence digits.now n) }
    ensures none { IfNone result ((n : ℕ) → ¬ IsPrecedence digits.now n) }
{
    if digits.len() > MAX_DIGITS {
        return None;
    }
    digits.parse().ok()
}

// The precedence at the front, if there is one, and what follows it after blanks.
fn numbered(text: &str) -> Result<(Option<usize>, &str), Stop<'_>>
    requires { begins is_blank text.now ≡ false }
    ensures numbered { IfOk result (λ m. (head : Head)
        → Reads (Equals head None) text.now (Equals head m.0) m.1.now) }
    ensures before_text { IfOk result (λ m. IsBeforeText m.0 m.1.now) }
    ensures stops { IfErr result (λ stop. StopsText None text.now stop.rest.now stop.fault) }
{
    let (digits, behind) = split_front(text, Class::Digit);
    if digits.is_empty() {
        return Ok((None, text));
    }
    let Some(precedence) = precedence_of(digits) else {
        return Err(Stop {
            fault: LineFault::PrecedenceTooLarge,
            rest: text,
        });
    };
    let (_, rest) = split_front(behind, Class::Blank);
    Ok((Some(precedence), rest))
}

// The character on both sides of a text of this form.
fn delimiter_of(form: Form) -> char
    ensures { result ≡ delimiter (form_of form) }
{
    match form {
        Form::Literal => '\'',
        Form::Escaped => '"',
        Form::Pattern => '/',
    }
}

/// The text before the last delimiter, which only blanks may follow.
pub(crate) fn closed(inner: &str, form: Form) -> Result<&str, Stop<'_>>
    ensures closed { IfOk result (λ text.
        IsClosed (delimiter (form_of form)) inner.now text.now) }
    ensures not_closed { IfErr result (λ stop.
        IsNotClosed (delimiter (form_of form)) inner.now stop.rest.now) }
    ensures fault { IfErr result (λ stop. stop.fault ≡ LineFault.NotClosed) }
{
    let Some((text, trail)) = inner.rsplit_once(delimiter_of(form)) else {
        return Err(Stop {
            fault: LineFault::NotClosed,
            rest: "",
        });
    };
    let (_, rest) = split_front(trail, Class::Blank);
    if !rest.is_empty() {
        return Err(Stop {
            fault: LineFault::NotClosed,
            rest,
        });
    }
    Ok(text)
}

// The text of this form after its first delimiter.
fn quoted<'text>(form: Form, inner: &'text str) -> Result<LineText<'text>, Stop<'text>>
    ensures quoted { IfOk result (λ m. (written : Option ℕ)
        → ReadsText written (delimiter (form_of form) ∷ inner.now) (text_of m.text)) }
    ensures begins { IfOk result (λ m. BeginsText (text_of m.text) m.here.now) }
    ensures here { IfOk result (λ m. m.here.now ≡ inner.now) }
    ensures stops { IfErr result (λ stop. (written : Option ℕ)
        → StopsText written (delimiter (form_of form) ∷ inner.now) stop.rest.now stop.fault) }
{
    let text = closed(inner, form)?;
    Ok(LineText {
        text: WrittenText::Quoted(form, text),
        here: inner,
    })
}

// A literal in any case, from after its first apostrophe.
fn in_any_case(inner: &str) -> Result<LineText<'_>, Stop<'_>>
    ensures any_case { IfOk result (λ m. (head : Head) (written : Option ℕ)
        → Reads (InAnyCase head written) (codes "'" ++ inner.now)
        (Closed (whole_rule head written (text_of m.text))) []) }
    ensures begins { IfOk result (λ m. BeginsText (text_of m.text) m.here.now) }
    ensures here { IfOk result (λ m. m.here.now ≡ inner.now) }
    ensures stops { IfErr result (λ stop. (head : Head) (written : Option ℕ)
        → StopsBefore (InAnyCase head written) (codes "'" ++ inner.now) stop.rest.now stop.fault) }
{
    let text = closed(inner, Form::Literal)?;
    Ok(LineText {
        text: WrittenText::AnyCase(text),
        here: inner,
    })
}

// The text after the word `anycase`.
fn any_case(text: &str) -> Result<LineText<'_>, Stop<'_>>
    ensures any_case { IfOk result (λ m. (head : Head) (written : Option ℕ)
        → Reads (InAnyCase head written) text.now
        (Closed (whole_rule head written (text_of m.text))) []) }
    ensures begins { IfOk result (λ m. BeginsText (text_of m.text) m.here.now) }
    ensures here { IfOk result (λ m. (front : List ℕ) × (text.now ≡ front ++ m.here.now)) }
    ensures stops { IfErr result (λ stop. (head : Head) (written : Option ℕ)
        → StopsBefore (InAnyCase head written) text.now stop.rest.now stop.fault) }
{
    let (_, here) = split_front(text, Class::Blank);
    let Some(inner) = behind(here, '\'') else {
        return Err(Stop {
            fault: LineFault::NoLiteral,
            rest: here,
        });
    };
    in_any_case(inner)
}

// What follows `' to '` at the front.
fn behind_to(text: &str) -> Option<&str>
    ensures some { IfSome result (λ rest. IsTo text.now rest.now) }
    ensures none { IfNone result ((rest : List ℕ) → ¬ IsTo text.now rest) }
{
    let first = behind(text, '\'')?;
    let (gap, word) = split_front(first, Class::Blank);
    if gap.is_empty() {
        return None;
    }
    let second = word.strip_prefix("to")?;
    let (_, quote) = split_front(second, Class::Blank);
    behind(quote, '\'')
}

// The text before the first `' to '`, and what follows that.
fn split_at_to(inner: &str) -> Option<(&str, &str)>
    ensures some { IfSome result (λ m. IsUpToTo inner.now m.0.now m.1.now) }
    ensures none { IfNone result (NoToBefore inner.now (length inner.now)) }
{
    for at in 0..inner.len() {
        if inner.is_char_boundary(at) {
            if let Some(rest) = behind_to(&inner[at..]) {
                return Some((&inner[..at], rest));
            }
        }
    }
    None
}

// The rest of a text from its first apostrophe on; nothing if there is none.
fn from_apostrophe(inner: &str) -> &str
    ensures { (front : List ℕ) × IsSpan is_no_apostrophe inner.now front result.now }
{
    match inner.find('\'') {
        Some(at) => &inner[at..],
        None => "",
    }
}

// A and B, from after the apostrophe with which A begins.
fn joined(inner: &str) -> Result<LineText<'_>, Stop<'_>>
    ensures joined { IfOk result (λ m. (head : Head) (written : Option ℕ)
        → Reads (From head written) (codes "'" ++ inner.now)
        (Closed (whole_rule head written (text_of m.text))) []) }
    ensures begins { IfOk result (λ m. BeginsText (text_of m.text) m.here.now) }
    ensures here { IfOk result (λ m. m.here.now ≡ inner.now) }
    ensures stops { IfErr result (λ stop. (head : Head) (written : Option ℕ)
        → StopsBefore (From head written) (codes "'" ++ inner.now) stop.rest.now stop.fault) }
{
    let Some((from, rest)) = split_at_to(inner) else {
        return Err(Stop {
            fault: LineFault::NoTo,
            rest: from_apostrophe(inner),
        });
    };
    let to = closed(rest, Form::Literal)?;
    Ok(LineText {
        text: WrittenText::FromTo { from, to },
        here: inner,
    })
}

// The text after the word `from`.
fn from_to(text: &str) -> Result<LineText<'_>, Stop<'_>>
    ensures joined { IfOk result (λ m. (head : Head) (written : Option ℕ)
        → Reads (From head written) text.now
        (Closed (whole_rule head written (text_of m.text))) []) }
    ensures begins { IfOk result (λ m. BeginsText (text_of m.text) m.here.now) }
    ensures here { IfOk result (λ m. (front : List ℕ) × (text.now ≡ front ++ m.here.now)) }
    ensures stops { IfErr result (λ stop. (head : Head) (written : Option ℕ)
        → StopsBefore (From head written) text.now stop.rest.now stop.fault) }
{
    let (_, here) = split_front(text, Class::Blank);
    let Some(inner) = behind(here, '\'') else {
        return Err(Stop {
            fault: LineFault::NoFrom,
            rest: here,
        });
    };
    joined(inner)
}

// The form of the text whose first delimiter is at the front, and what follows that.
fn form_at(text: &str) -> Option<(Form, &str)>
    ensures some { IfSome result (λ m. text.now ≡ delimiter (form_of m.0) ∷ m.1.now) }
    ensures none { IfNone result ((form : TextForm) (inner : List ℕ)
        → text.now ≢ delimiter form ∷ inner) }
{
    if let Some(inner) = behind(text, '\'') {
        return Some((Form::Literal, inner));
    }
    if let Some(inner) = behind(text, '"') {
        return Some((Form::Escaped, inner));
    }
    if let Some(inner) = behind(text, '/') {
        return Some((Form::Pattern, inner));
    }
    None
}

// A text without a precedence.
fn text_at(rest: &str) -> Result<LineText<'_>, Stop<'_>>
    ensures text { IfOk result (λ m. (written : Option ℕ)
        → ReadsText written rest.now (text_of m.text)) }
    ensures begins { IfOk result (λ m. BeginsText (text_of m.text) m.here.now) }
    ensures here { IfOk result (λ m. (front : List ℕ) × (rest.now ≡ front ++ m.here.now)) }
    ensures stops { IfErr result (λ stop. (written : Option ℕ)
        → IsBeforeText written rest.now → StopsText written rest.now stop.rest.now stop.fault) }
{
    if let Some((form, inner)) = form_at(rest) {
        return quoted(form, inner);
    }
    if let Some(text) = behind_word(rest, "anycase") {
        return any_case(text);
    }
    if let Some(text) = behind_word(rest, "from") {
        return from_to(text);
    }
    Err(Stop {
        fault: LineFault::NoText,
        rest,
    })
}

// The precedence that is written, or else the default of the text.
fn precedence_or(text: &WrittenText<'_>, written: Option<usize>) -> usize
    ensures { result ≡ precedence_or_else (text_of text.now) written }
{
    match (text, written) {
        (_, Some(precedence)) => precedence,
        (WrittenText::Quoted(Form::Literal | Form::Escaped, _), None) => 1,
        (WrittenText::AnyCase(_), None) => 1,
        (WrittenText::Quoted(Form::Pattern, _) | WrittenText::FromTo { .. }, None) => 0,
    }
}

/// The precedence and the text right of the `=`.
pub(crate) fn right_part(right: &str) -> Result<(usize, LineText<'_>), Stop<'_>>
    ensures right { IfOk result (λ m. (head : Head) → Reads (Equals head None) right.now
        (Closed (record { head = head; precedence = m.0; text = text_of m.1.text })) []) }
    ensures begins { IfOk result (λ m. BeginsText (text_of m.1.text) m.1.here.now) }
    ensures here { IfOk result (λ m. (front : List ℕ) × (right.now ≡ front ++ m.1.here.now)) }
    ensures stops { IfErr result (λ stop. StopsText None right.now stop.rest.now stop.fault) }
{
    let (_, here) = split_front(right, Class::Blank);
    let (written, rest) = numbered(here)?;
    let text = text_at(rest)?;
    Ok((precedence_or(&text.text, written), text))
}
