//! A text as HTML.
ghost use Rattle.std.specs.Prelude.{◌≡◌, ◌++◌, [], List, flat_map, map, option_map, slice_get, string_bytes, unwrap_or, IfOk, OnOk};
ghost use Rattle.bajofeki_rules.specs.Stack.{Stack, start};
ghost use Rattle.lalrpop_rules.specs.Modes.{ArePiecesFrom};
ghost use Rattle.lalrpop_rules.specs.declared.piece.Piece.{Piece as PieceValue};
ghost use Rattle.bajofeki.specs.Markup.{entity, told, escaped, span, mark, marked, outside, IsTag, IsEntity};
ghost use Rattle.bajofeki.specs.Places.{EachBegins, EachEnds};

use crate::shown::{Shows, push_shown};
use lalrpop_lexer::lexer::dfa::NfaIndex;
use lalrpop_rules::{Piece, RuleLexer};
use std::alloc::{AllocError, Global};

// The entity of a character that has a meaning in HTML, or that a reader of HTML doesn't keep: the carriage return.
fn entity(c: char) -> Option<&'static str>
    ensures { option_map (λ text. text.now) result ≡ entity c }
{
    match c {
        '<' => Some("&lt;"),
        '>' => Some("&gt;"),
        '&' => Some("&amp;"),
        '"' => Some("&quot;"),
        '\r' => Some("&#13;"),
        _ => None,
    }
}

// The characters of a text in HTML.
#[derive(Drop)]
struct InHtml;

impl Shows for InHtml {
    ghost shown = { λ style c. told c };

    // Most characters come after the last that has an entity.
    fn is_plain(&self, c: char) -> bool {
        c > '>' || entity(c).is_none()
    }

    fn push(&self, page: &mut String, c: char) -> Result<(), AllocError> {
        match entity(c) {
            Some(text) => page.push_str(text),
            None => page.push(c),
        }
    }
}

fn push_escaped(page: &mut String, text: &str) -> Result<(), AllocError>
    ensures { OnOk result (string_bytes page.new ≡ string_bytes page.old ++ escaped text.now) }
{
    push_shown(page, &InHtml, text)
}

fn push_span(page: &mut String, class: &str, text: &str) -> Result<(), AllocError>
    ensures { OnOk result (string_bytes page.new
        ≡ string_bytes page.old ++ span class.now text.now) }
{
    page.push_str("<span class=\"")?;
    push_escaped(page, class)?;
    page.push_str("\">")?;
    push_escaped(page, text)?;
    page.push_str("</span>")
}

fn push_mark(page: &mut String, fault: &str) -> Result<(), AllocError>
    ensures { OnOk result (string_bytes page.new ≡ string_bytes page.old ++ mark fault.now) }
{
    page.push_str("<mark>")?;
    push_escaped(page, fault)?;
    page.push_str("</mark>")
}

// The name of a rule. The rule of a token always has one.
fn name_at(names: &[String], index: NfaIndex) -> &str
    ensures { result.now ≡ unwrap_or (slice_get (map string_bytes names.now) index) [] }
{
    match names.get(index.index()) {
        Some(name) => name.as_str(),
        None => "",
    }
}

/// Appends one piece of a text as HTML, as `html` does with each, so that a page can be written while the text is cut. The rules of the
/// lexer that cut it have these names.
///
/// ```
/// use bajofeki::push_html;
///
/// let mut page = String::new(alloc);
/// for piece in lexer.pieces(alloc, "do it")? {
///     match piece {
///         Ok(piece) => push_html(&mut page, lexer.names(), &piece)?,
///         Err(error) => return Err(error),
///     }
/// }
/// ```
///
/// # Errors
///
/// `AllocError` if a request for memory was refused: part of the piece may have been appended.
pub fn push_html(page: &mut String, names: &[String], piece: &Piece) -> Result<(), AllocError>
    ensures marked { OnOk result (string_bytes page.new
        ≡ string_bytes page.old ++ marked (map string_bytes names.now) piece.now) }
{
    match piece {
        Piece::Token(token) => push_span(page, name_at(names, token.index), token.slice),
        Piece::Skipped(token) => push_escaped(page, token.slice),
        Piece::Fault { start: _, slice } => push_mark(page, slice),
    }
}

/// The text as HTML: each token in a `span` whose class is the name of its rule, each fault in a `mark`, and skipped text in
/// neither. The page has no `<`, `>` or `&` but those of these tags and of entities. Strip the tags and decode the entities, and
/// you have the text again.
///
/// HTML can't hold NUL: a reader shows U+FFFD or nothing. In a `pre`, put a newline in front of the page, since a reader drops
/// one there.
///
/// # Errors
///
/// `AllocError` if a request for memory was refused.
pub fn html(alloc: Global, lexer: &RuleLexer, text: &str) -> Result<String, AllocError>
    ensures pieces { IfOk result (λ page. (xs : List PieceValue) × ((end : Stack)
        × (ArePiecesFrom lexer.now text.now 0 start xs end
        × (string_bytes page ≡ flat_map (marked lexer.now.names) xs)))) }
    ensures text { IfOk result (λ page. outside (string_bytes page) ≡ text.now) }
    ensures tags { IfOk result (λ page. EachBegins 60 IsTag (string_bytes page)
        × EachEnds 62 IsTag (string_bytes page)) }
    ensures entities { IfOk result (λ page. EachBegins 38 IsEntity (string_bytes page)) }
{
    let mut page = String::new(alloc);
    for piece in lexer.pieces(alloc, text)? {
        match piece {
            Ok(piece) => push_html(&mut page, lexer.names(), &piece)?,
            Err(error) => return Err(error),
        }
    }
    Ok(page)
}
