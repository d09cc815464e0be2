//! A text as HTML, and in colours for a terminal.
ghost use Rattle.std.specs.Prelude.{◌≡◌, ◌++◌, List, false, flat_map, map, string_bytes, IfOk};
ghost use Rattle.lalrpop_rules.specs.declared.piece.Piece.{Piece as PieceValue};
ghost use Rattle.bajofeki.specs.Markup.{marked, outside};
ghost use Rattle.bajofeki.specs.Terminal.{painted, unpainted};

use bajofeki::{Painter, ansi, html, push_html};
use lalrpop_rules::{Piece, RuleLexer};
use std::alloc::{AllocError, Global};

// Needs bajofeki::html: text, pieces.
/// A text as HTML, from which the text can be read back.
///
/// # Errors
///
/// `AllocError` if a request for memory was refused.
pub fn page_of(alloc: Global, lexer: &RuleLexer, text: &str) -> Result<String, AllocError>
    ensures read { IfOk result (λ page. outside (string_bytes page) ≡ text.now) }
    ensures marked { IfOk result (λ page. (xs : List PieceValue)
        × (string_bytes page ≡ flat_map (marked lexer.now.names) xs)) }
{
    html(alloc, lexer, text)
}

// Needs bajofeki::ansi: text, pieces.
/// A text in colours, from which the text can be read back.
///
/// # Errors
///
/// `AllocError` if a request for memory was refused.
pub fn in_colours(alloc: Global, lexer: &RuleLexer, text: &str) -> Result<String, AllocError>
    ensures read { IfOk result (λ page. unpainted (string_bytes page) ≡ text.now) }
    ensures painted { IfOk result (λ page. (xs : List PieceValue)
        × (string_bytes page ≡ flat_map (painted lexer.now.names) xs)) }
{
    ansi(alloc, lexer, text)
}

// Needs bajofeki::html: tags, entities.
/// Whether the page has a script, whether it ends a comment of HTML that it is put into, and whether an ampersand stands before a
/// space. It never has, and never does.
///
/// # Errors
///
/// `AllocError` if a request for memory was refused.
pub fn is_unsafe(
    alloc: Global,
    lexer: &RuleLexer,
    text: &str,
) -> Result<(bool, bool, bool), AllocError>
    ensures no_script { IfOk result (λ has. has.0 ≡ false) }
    ensures no_end { IfOk result (λ has. has.1 ≡ false) }
    ensures no_ampersand { IfOk result (λ has. has.2 ≡ false) }
{
    let page = html(alloc, lexer, text)?;
    let page = page.as_str();
    Ok((
        page.contains("<script"),
        page.contains("-->"),
        page.contains("& "),
    ))
}

// Needs bajofeki::ansi: sequences.
/// Whether the page clears the screen. It never does.
///
/// # Errors
///
/// `AllocError` if a request for memory was refused.
pub fn clears_the_screen(alloc: Global, lexer: &RuleLexer, text: &str) -> Result<bool, AllocError>
    ensures never { IfOk result (λ clears. clears ≡ false) }
{
    let page = ansi(alloc, lexer, text)?;
    Ok(page.contains("\x1b[2J"))
}

// Needs bajofeki::push_html: marked.
/// Two pieces as HTML, one after the other.
///
/// # Errors
///
/// `AllocError` if a request for memory was refused.
pub fn two_marked(
    alloc: Global,
    names: &[String],
    one: &Piece<'_>,
    two: &Piece<'_>,
) -> Result<String, AllocError>
    ensures marked { IfOk result (λ page. string_bytes page
        ≡ marked (map string_bytes names.now) one.now ++ marked (map string_bytes names.now)
        two.now) }
{
    let mut page = String::new(alloc);
    push_html(&mut page, names, one)?;
    push_html(&mut page, names, two)?;
    Ok(page)
}

// Needs bajofeki::Painter::new: names.
// Needs bajofeki::Painter::push: painted, names.
/// Two pieces in colours, one after the other.
///
/// # Errors
///
/// `AllocError` if a request for memory was refused.
pub fn two_painted(
    alloc: Global,
    names: &[String],
    one: &Piece<'_>,
    two: &Piece<'_>,
) -> Result<String, AllocError>
    ensures painted { IfOk result (λ page. string_bytes page
        ≡ painted (map string_bytes names.now) one.now ++ painted (map string_bytes names.now)
        two.now) }
{
    let mut painter = Painter::new(alloc, names)?;
    let mut page = String::new(alloc);
    painter.push(&mut page, one)?;
    painter.push(&mut page, two)?;
    Ok(page)
}
