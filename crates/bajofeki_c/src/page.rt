//! A text as HTML or in colours for a terminal, into an array.
ghost use Rattle.std.specs.Prelude.{◌≡◌, ◌++◌, map, string_bytes, IfOk, OnOk};
ghost use Rattle.bajofeki_c.specs.declared.page.Markup.TheVariants.{Ansi, Html};
ghost use Rattle.bajofeki_c.specs.Page.{IsPageOf, IsShown, piece_in};

use crate::held::Held;
use crate::rules::write_to;
use bajofeki::{Painter, push_html};
use lalrpop_rules::{Piece, RuleLexer};
use std::alloc::{AllocError, Global};
use std::str;

/// How a text is shown.
#[derive(Copy, Clone)]
pub enum Markup {
    /// As `push_html` of `bajofeki` writes its pieces.
    Html,
    /// As `Painter` of `bajofeki` paints them.
    Ansi,
}

/// What became of the page of a text, or of a source file.
#[repr(C)]
#[derive(Copy, Clone)]
pub struct Page {
    /// 0: there is one. 1: a name can't stand in the source file. 3: the text isn't UTF-8. 7: a request for memory was refused. 9:
    /// there is no lexer.
    pub code: u32,
    /// The number of its bytes (0).
    pub length: usize,
}

// The markup of a piece.
fn push_piece(
    page: &mut String,
    names: &[String],
    painter: &mut Painter<'_>,
    markup: Markup,
    piece: &Piece<'_>,
) -> Result<(), AllocError>
    requires names { painter.old ≡ map string_bytes names.now }
    ensures piece { OnOk result (string_bytes page.new
        ≡ string_bytes page.old ++ piece_in markup (map string_bytes names.now) piece.now) }
    ensures names { painter.new ≡ painter.old }
{
    match markup {
        Markup::Html => push_html(page, names, piece),
        Markup::Ansi => painter.push(page, piece),
    }
}

// The page of the whole text.
fn page_of(
    alloc: Global,
    rules: &RuleLexer,
    markup: Markup,
    text: &str,
) -> Result<String, AllocError>
    ensures page { IfOk result (λ page. IsPageOf rules.now markup text.now (string_bytes page)) }
{
    let names = rules.names();
    let mut painter = Painter::new(alloc, names)?;
    let mut page = String::new(alloc);
    for piece in rules.pieces(alloc, text)? {
        match piece {
            Ok(piece) => push_piece(&mut page, names, &mut painter, markup, &piece)?,
            Err(error) => return Err(error),
        }
    }
    Ok(page)
}

fn show(held: &Held, alloc: Global, markup: Markup, text: &[u8], out: &mut [u8]) -> Page
    ensures shown { IsShown held.now markup text.now out.old result out.new }
{
    let Ok(lexer) = &held.made else {
        return Page { code: 9, length: 0 };
    };
    let Ok(text) = str::from_utf8(text) else {
        return Page { code: 3, length: 0 };
    };
    match page_of(alloc, &lexer.rules, markup, text) {
        Ok(page) => Page {
            code: 0,
            length: write_to(page.as_bytes(), out),
        },
        Err(_) => Page { code: 7, length: 0 },
    }
}

/// Writes the text as HTML, as many bytes as fit, and says how many there are.
pub fn html_into(held: &Held, alloc: Global, text: &[u8], out: &mut [u8]) -> Page
    ensures shown { IsShown held.now Html text.now out.old result out.new }
{
    show(held, alloc, Markup::Html, text, out)
}

/// Writes the text in colours for a terminal, as many bytes as fit, and says how many there are.
pub fn ansi_into(held: &Held, alloc: Global, text: &[u8], out: &mut [u8]) -> Page
    ensures shown { IsShown held.now Ansi text.now out.old result out.new }
{
    show(held, alloc, Markup::Ansi, text, out)
}
