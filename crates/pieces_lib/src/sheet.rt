//! What is written for the pieces of a text.
ghost use Rattle.std.specs.Prelude.{◌≡◌, ◌++◌, ◌+◌, ◌≤◌, ℕ, List, [], true, length, map, option_map, string_bytes, OnOk};
ghost use Rattle.bajofeki.specs.Given.{piece_of};
ghost use Rattle.reports_lib.specs.PieceLines.{line_in, mode_named as mode_named_of};
ghost use Rattle.pieces_lib.specs.Internal.CutTexts.{goes_on, has_lines, line_here, markup_of, piece_shown};

use crate::cutter::Cut;
use bajofeki::{Painter, push_html};
use lalrpop_lexer::Position;
use lalrpop_lexer::lexer::dfa::NfaIndex;
use lalrpop_rules::{Piece, RuleLexer};
use reports_lib::{Layout, LineForm, Shown, mode_named, name_of, push_json, push_plain};
use std::alloc::{AllocError, Global};

/// What is written for the pieces of a text.
#[derive(Drop)]
pub(crate) enum Form<'rules, 'file, 'modes> {
    /// Lines.
    Lines(Layout<'file, 'modes>),
    /// HTML.
    Html,
    /// Text in colours, for a terminal.
    Ansi(Painter<'rules>),
}

/// What is written for the pieces of a text, and what of it waits to be written.
#[derive(Drop)]
pub(crate) struct Sheet<'rules, 'file, 'modes> {
    pub(crate) lexer: &'rules RuleLexer,
    form: Form<'rules, 'file, 'modes>,
    // The markup of one piece, while it is made.
    markup: String,
    pub(crate) waiting: Vec<u8>,
}

fn push_line(
    alloc: Global,
    lines: &mut Vec<u8>,
    layout: &Layout<'_, '_>,
    position: Position,
    shown: &Shown<'_, '_, '_>,
) -> Result<(), AllocError>
    requires fits { shown.now.start + length shown.now.slice.now ≤ usize.MAX }
    ensures { OnOk result (lines.new.items ≡ lines.old.items
        ++ line_in layout.now.form (option_map (λ f. f.now) layout.now.file) position
        shown.now.start (option_map (λ n. n.now) shown.now.name)
        (option_map (λ m. m.now) shown.now.mode) shown.now.slice.now) }
{
    match layout.form {
        LineForm::Plain => push_plain(alloc, lines, layout.file, position, shown),
        LineForm::Json => push_json(alloc, lines, layout.file, position, shown),
    }
}

// The line of a piece, if it has one.
fn push_shown(
    alloc: Global,
    lines: &mut Vec<u8>,
    lexer: &RuleLexer,
    layout: &Layout<'_, '_>,
    cut: &Cut,
    slice: &[u8],
) -> Result<(), AllocError>
    requires fits { cut.now.piece.start + length slice.now ≤ usize.MAX }
    ensures line { OnOk result (lines.new.items ≡ lines.old.items
        ++ line_here layout.now.form layout.now.recovers
        (option_map (λ f. f.now) layout.now.file) lexer.now.names
        (mode_named_of (map string_bytes layout.now.modes.now) cut.now.mode) cut.now.place
        (piece_of cut.now.piece slice.entry)) }
{
    let name = match cut.piece.rule {
        Some(_) if cut.piece.is_skipped => return Ok(()),
        Some(rule) => Some(name_of(lexer, NfaIndex::new(rule))),
        None if layout.recovers => None,
        None => return Ok(()),
    };
    let shown = Shown {
        start: cut.piece.start,
        name,
        mode: mode_named(layout.modes, cut.mode),
        slice,
    };
    push_line(alloc, lines, layout, cut.place, &shown)
}

impl<'rules, 'file, 'modes> Sheet<'rules, 'file, 'modes> {
    /// Nothing is to be written yet.
    pub(crate) fn new(
        alloc: Global,
        lexer: &'rules RuleLexer,
        form: Form<'rules, 'file, 'modes>,
    ) -> Sheet<'rules, 'file, 'modes>
        ensures lexer { result.lexer.now ≡ lexer.now }
        ensures form { result.form ≡ form.entry }
        ensures none { result.waiting.items ≡ [] }
    {
        Sheet {
            lexer,
            form,
            markup: String::new(alloc),
            waiting: Vec::new(alloc),
        }
    }

    /// Whether cutting goes on after a fault.
    pub(crate) fn goes_on(&self) -> bool
        ensures goes { result ≡ goes_on self.now.form }
    {
        match &self.form {
            Form::Lines(layout) => layout.recovers,
            Form::Html | Form::Ansi(_) => true,
        }
    }

    /// Whether lines are written.
    pub(crate) fn has_lines(&self) -> bool
        ensures lines { result ≡ has_lines self.now.form }
    {
        matches!(self.form, Form::Lines(_))
    }

    /// Appends the line of a piece with this slice, if it has one. Markup has no lines.
    ///
    /// # Errors
    ///
    /// `AllocError` if a request for memory was refused, or if the piece ends past 2^64 bytes.
    pub(crate) fn push_line(
        &mut self,
        alloc: Global,
        cut: &Cut,
        slice: &[u8],
    ) -> Result<(), AllocError>
        ensures shown { OnOk result (has_lines self.old.form ≡ true
            → self.new.waiting.items ≡ self.old.waiting.items
            ++ piece_shown self.old.form self.old.lexer.now.names cut.now.place cut.now.mode
            (piece_of cut.now.piece slice.entry)) }
        ensures form { OnOk result (self.new.form ≡ self.old.form) }
        ensures lexer { OnOk result (self.new.lexer ≡ self.old.lexer) }
    {
        let Some(_) = cut.piece.start.checked_add(slice.len()) else {
            return Err(AllocError);
        };
        match &self.form {
            Form::Lines(layout) => {
                push_shown(alloc, &mut self.waiting, self.lexer, layout, cut, slice)
            }
            Form::Html | Form::Ansi(_) => Ok(()),
        }
    }

    /// Appends the markup of a piece. Lines have none.
    ///
    /// # Errors
    ///
    /// `AllocError` if a request for memory was refused.
    pub(crate) fn push_markup(&mut self, item: &Piece<'_>) -> Result<(), AllocError>
        ensures shown { OnOk result (self.new.waiting.items ≡ self.old.waiting.items
            ++ markup_of self.old.form self.old.lexer.now.names item.now) }
        ensures form { OnOk result (self.new.form ≡ self.old.form) }
        ensures lexer { OnOk result (self.new.lexer ≡ self.old.lexer) }
    {
        self.markup.clear();
        match &mut self.form {
            Form::Lines(_) => {}
            Form::Html => push_html(&mut self.markup, self.lexer.names(), item)?,
            Form::Ansi(painter) => painter.push(&mut self.markup, item)?,
        }
        self.waiting.extend_from_slice(self.markup.as_bytes())
    }
}
