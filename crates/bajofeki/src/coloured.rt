//! A text in colours for a terminal.
ghost use Rattle.std.specs.Prelude.{◌≡◌, ◌++◌, ◌∷◌, ◌%◌, ◌+◌, ◌<◌, ℕ, [], List, Some, flat_map, chars, length, map, slice_get, slice_index_or, string_bytes, IfOk, OnOk, true};
ghost use Rattle.std.specs.List.{position_or_len};
ghost use Rattle.std.specs.Str.{bytes_eq};
ghost use Rattle.bajofeki_rules.specs.Stack.{Stack, start};
ghost use Rattle.lalrpop_rules.specs.Modes.{ArePiecesFrom};
ghost use Rattle.lalrpop_rules.specs.declared.piece.Piece.{Piece as PieceValue};
ghost use Rattle.bajofeki.specs.Internal.Colours.{AreColours};
ghost use Rattle.bajofeki.specs.Terminal.{sequence, is_hidden as is_hidden_of, sign, letter, visible, visible_in, coloured, colour_of, painted, unpainted, IsSequence};
ghost use Rattle.bajofeki.specs.Places.{EachBegins};

use crate::shown::{Shows, push_shown};
use lalrpop_lexer::lexer::dfa::NfaIndex;
use lalrpop_rules::{Piece, RuleLexer};
use std::alloc::{AllocError, Global};
use std::marker::Model;

// The parameters of the escape sequences that end colours and begin the colour of faults.
const RESET: &str = "0";

const FAULT: &str = "41";

// Whether this character must not be sent to a terminal.
fn is_hidden(c: char) -> bool
    ensures { result ≡ is_hidden_of c }
{
    c.is_control() && c != '\n' && c != '\t'
}

// The two letters that stand for a control character.
fn letters(c: char) -> (char, char)
    requires { is_hidden_of c ≡ true }
    ensures values { (result.0 ≡ sign c) × (result.1 ≡ letter c) }
    ensures ascii { (result.0 < 128) × (result.1 < 128) }
{
    let code = c as u8;
    if code < 128 {
        ('^', ((code + 64) % 128) as char)
    } else {
        ('~', (code - 64) as char)
    }
}

fn push_sequence(page: &mut String, parameters: &str) -> Result<(), AllocError>
    ensures { OnOk result (string_bytes page.new
        ≡ string_bytes page.old ++ sequence parameters.now) }
{
    page.push_str("\x1b[")?;
    page.push_str(parameters)?;
    page.push('m')
}

fn push_visible(page: &mut String, c: char) -> Result<(), AllocError>
    ensures { OnOk result (string_bytes page.new ≡ string_bytes page.old ++ visible c) }
{
    if is_hidden(c) {
        let (first, second) = letters(c);
        push_sequence(page, "7")?;
        page.push(first)?;
        page.push(second)?;
        push_sequence(page, "27")
    } else {
        page.push(c)
    }
}

// The characters of a text without a colour.
#[derive(Drop)]
struct Uncoloured;

impl Shows for Uncoloured {
    ghost shown = { λ style c. visible c };

    fn is_plain(&self, c: char) -> bool {
        !is_hidden(c)
    }

    fn push(&self, page: &mut String, c: char) -> Result<(), AllocError> {
        push_visible(page, c)
    }
}

// The characters of a text in the colour with these parameters.
#[derive(Drop)]
struct InColour(&'static str);

impl Shows for InColour {
    ghost shown = { λ style c. visible_in style.0.now c };

    fn is_plain(&self, c: char) -> bool {
        c != '\n' && !is_hidden(c)
    }

    // No colour runs past the end of a line, since a pager that begins at the next would not show it.
    fn push(&self, page: &mut String, c: char) -> Result<(), AllocError> {
        if c != '\n' {
            return push_visible(page, c);
        }
        push_sequence(page, RESET)?;
        page.push('\n')?;
        push_sequence(page, self.0)
    }
}

fn push_plain(page: &mut String, text: &str) -> Result<(), AllocError>
    ensures { OnOk result (string_bytes page.new
        ≡ string_bytes page.old ++ flat_map visible (chars text.now)) }
{
    push_shown(page, &Uncoloured, text)
}

fn push_coloured(page: &mut String, colour: &'static str, text: &str) -> Result<(), AllocError>
    ensures { OnOk result (string_bytes page.new
        ≡ string_bytes page.old ++ coloured colour.now text.now) }
{
    push_sequence(page, colour)?;
    push_shown(page, &InColour(colour), text)?;
    push_sequence(page, RESET)
}

// Whether the rule with this index has this name.
fn has_name(names: &[String], number: usize, name: &str) -> bool
    requires { number < length names.now }
    ensures { result ≡ bytes_eq name.now (slice_index_or (map string_bytes names.now) number []) }
{
    name == names[number].as_str()
}

// The index of the first rule with this name.
fn first_of_name(names: &[String], index: NfaIndex, name: &str) -> usize
    requires { slice_get (map string_bytes names.now) index ≡ Some name.now }
    ensures { result ≡ position_or_len (bytes_eq name.now) (map string_bytes names.now) }
{
    for number in 0..index.index() {
        if has_name(names, number, name) {
            return number;
        }
    }
    index.index()
}

// Red, green, yellow, blue, magenta and cyan, in turn.
fn colour_at(number: usize) -> &'static str
    ensures { result.now ≡ 51 ∷ (49 + number % 6) ∷ [] }
{
    match number % 6 {
        0 => "31",
        1 => "32",
        2 => "33",
        3 => "34",
        4 => "35",
        _ => "36",
    }
}

// The colour of the rule with this number and name, which is noted for its next token.
fn colour_of_rule(
    colours: &mut [Option<&'static str>],
    names: &[String],
    index: NfaIndex,
    name: &str,
) -> &'static str
    requires name { slice_get (map string_bytes names.now) index ≡ Some name.now }
    requires noted { AreColours (map string_bytes names.now) colours.old }
    ensures colour { result.now ≡ colour_of (map string_bytes names.now) name.now }
    ensures noted { AreColours (map string_bytes names.now) colours.new }
{
    let number = index.index();
    if let Some(Some(colour)) = colours.get(number) {
        return colour;
    }
    let colour = colour_at(first_of_name(names, index, name));
    if number < colours.len() {
        colours[number] = Some(colour);
    }
    colour
}

/// Paints the pieces of a text for a terminal, one after another, as `ansi` does, so that a page can be written while the text is
/// cut. Contracts see a painter as the names of its rules.
///
/// ```
/// use bajofeki::Painter;
///
/// let mut painter = Painter::new(alloc, lexer.names())?;
/// let mut page = String::new(alloc);
/// for piece in lexer.pieces(alloc, "do it")? {
///     match piece {
///         Ok(piece) => painter.push(&mut page, &piece)?,
///         Err(error) => return Err(error),
///     }
/// }
/// ```
#[derive(Drop)]
pub struct Painter<'rules> {
    names: &'rules [String],
    // The colour of each rule, from its first token on.
    colours: Vec<Option<&'static str>>,
}

impl<'rules> Model for Painter<'rules> {
    ghost use Rattle.std.specs.Prelude.{ℕ, List, map, string_bytes};
    ghost use Rattle.bajofeki.specs.Internal.Colours.{AreColours};

    ghost Value = { List (List ℕ) };

    ghost view = { λ p. map string_bytes p.names.now };

    ghost invariant = { λ p. AreColours (map string_bytes p.names.now) p.colours.items };
}

impl<'rules> Painter<'rules> {
    /// A painter of the pieces that rules with these names cut.
    ///
    /// # Errors
    ///
    /// `AllocError` if a request for memory was refused.
    pub fn new(alloc: Global, names: &'rules [String]) -> Result<Painter<'rules>, AllocError>
        ensures names { IfOk result (λ painter. painter ≡ map string_bytes names.now) }
    {
        let colours = vec![in alloc; None; names.len()]?;
        Ok(Painter { names, colours })
    }

    /// Appends one piece of a text.
    ///
    /// # Errors
    ///
    /// `AllocError` if a request for memory was refused: part of the piece may have been appended.
    pub fn push(&mut self, page: &mut String, piece: &Piece) -> Result<(), AllocError>
        ensures painted { OnOk result (string_bytes page.new
            ≡ string_bytes page.old ++ painted self.old piece.now) }
        ensures names { self.new ≡ self.old }
    {
        match piece {
            Piece::Token(token) => match self.names.get(token.index.index()) {
                Some(name) => {
                    let name = name.as_str();
                    let colour = colour_of_rule(&mut self.colours, self.names, token.index, name);
                    push_coloured(page, colour, token.slice)
                }
                None => push_plain(page, token.slice),
            },
            Piece::Skipped(token) => push_plain(page, token.slice),
            Piece::Fault { start: _, slice } => push_coloured(page, FAULT, slice),
        }
    }
}

/// The text in colours for a terminal, by escape sequences. The tokens of a rule have one of six colours, by the index of the
/// first rule with its name: red, green, yellow, blue, magenta, cyan, and then red again. Faults have a red background, and
/// skipped text has no colour. No colour runs past the end of a line, so a pager can begin at any line.
///
/// The text can't control the terminal: each control character but the newline and the tab is shown as two characters in
/// reverse video, such as `^[` for ESC, `^M` for a carriage return and `~[` for the character with code value 155. Take out the
/// escape sequences and put the control characters back, and you have the text again.
///
/// # Errors
///
/// `AllocError` if a request for memory was refused.
pub fn ansi(alloc: Global, lexer: &RuleLexer, text: &str) -> Result<String, AllocError>
    ensures pieces { IfOk result (λ page. (xs : List PieceValue) × ((end : Stack)
        × (ArePiecesFrom lexer.now text.now 0 start xs end
        × (string_bytes page ≡ flat_map (painted lexer.now.names) xs)))) }
    ensures text { IfOk result (λ page. unpainted (string_bytes page) ≡ text.now) }
    ensures sequences { IfOk result (λ page. (c : ℕ) → is_hidden_of c ≡ true
        → EachBegins c IsSequence (chars (string_bytes page))) }
{
    let mut painter = Painter::new(alloc, lexer.names())?;
    let mut page = String::new(alloc);
    for piece in lexer.pieces(alloc, text)? {
        match piece {
            Ok(piece) => painter.push(&mut page, &piece)?,
            Err(error) => return Err(error),
        }
    }
    Ok(page)
}
