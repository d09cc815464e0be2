//! A text that is cut piece by piece as it comes, and what is known of its pieces so far.
ghost use Rattle.std.specs.Prelude.{◌≡◌, ◌≢◌, ◌+◌, ◌⊎◌, ◌||◌, ℕ, List, [], is_none, length, reverse, false, true, None, Some, Ok, IfOk, IfNone, IfSome, OnOk, OnErr};
ghost use Rattle.std.specs.Borrow.{Bor};
ghost use Rattle.bajofeki.specs.Begun.{IsBegun};
ghost use Rattle.bajofeki.specs.Chunked.{nothing_come, GivesFinal, BeginsFault, MayMatch};
ghost use Rattle.bajofeki.specs.Given.{piece_of};
ghost use Rattle.bajofeki_rules.specs.Position.{byte_place, moved};
ghost use Rattle.lexdfa_lib.specs.Streams.{Reading, Reads};
ghost use Rattle.pieces_lib.specs.CutEnds.{IsFound, IsFoundNext};
ghost use Rattle.pieces_lib.specs.OpenModes.{pushed, pushed_all};
ghost use Rattle.pieces_lib.specs.Internal.CutTexts.{Comes, GivesCut, IsCutInto, end_by, open_place, opened_by};
ghost use Rattle.pieces_lib.specs.Internal.Incoming.{IsIncoming};
ghost use Rattle.pieces_lib.specs.declared.cut_end.Found.{Found as FoundValue};

use crate::cut_end::{CutEnd, OpenMode};
use crate::found::{found_in, is_begun};
use crate::incoming::{Brought, Incoming};
use bajofeki::GivenPiece;
use lalrpop_lexer::Position;
use lalrpop_lexer::lexer::dfa::NfaIndex;
use lalrpop_rules::{Action, RuleLexer};
use lexdfa_lib::{Reader, Source};
use std::alloc::{AllocError, Global};

/// Cuts a text piece by piece as it comes, and knows whether a fault was among the pieces, where the modes were entered that
/// have one below them, and where the next piece begins.
#[derive(Drop)]
pub(crate) struct Cutter<'rules> {
    lexer: &'rules RuleLexer,
    incoming: Incoming<'rules>,
    has_fault: bool,
    // The mode on top is the last one.
    places: Vec<Position>,
    // Where the next piece begins: its line and column, and in bytes.
    here: Position,
    at: usize,
}

/// A piece, where it begins, and the mode in which it was read.
#[derive(Clone, Copy)]
pub(crate) struct Cut {
    pub piece: GivenPiece,
    pub place: Position,
    pub mode: usize,
}

// Notes where a token begins that pushes a mode.
fn note_action(
    places: &mut Vec<Position>,
    action: &Action,
    place: Position,
) -> Result<(), AllocError>
    ensures noted { OnOk result
        (reverse places.new.items ≡ pushed place action.now (reverse places.old.items)) }
{
    match action {
        Action::Mode(_) => {}
        Action::Push(_) => places.push(place)?,
        Action::Pop => {
            let _ = places.pop();
        }
    }
    Ok(())
}

// Notes what the actions of a token do, one after another.
#[tactic(auto, using(std::proofs::lemmas::List::Sums::fold_more))]
fn note_actions(
    places: &mut Vec<Position>,
    actions: &[Action],
    place: Position,
) -> Result<(), AllocError>
    ensures noted { OnOk result
        (reverse places.new.items ≡ pushed_all place actions.now (reverse places.old.items)) }
{
    for action in actions {
        note_action(places, action, place)?;
    }
    Ok(())
}

// Notes what a piece by this rule does that begins at this place. A fault does nothing.
fn note_rule(
    places: &mut Vec<Position>,
    lexer: &RuleLexer,
    rule: Option<usize>,
    place: Position,
) -> Result<(), AllocError>
    ensures noted { OnOk result (reverse places.new.items
        ≡ opened_by lexer.now.actions place rule (reverse places.old.items)) }
{
    match rule {
        Some(rule) => note_actions(places, lexer.actions(NfaIndex::new(rule)), place),
        None => Ok(()),
    }
}

/// How cutting ends at a fault that begins here.
pub(crate) fn stopped(place: Position, fault: &[u8]) -> CutEnd
    requires some { fault.now ≢ [] }
    ensures stopped { (found : FoundValue) × ((result ≡ CutEnd.Stopped place found)
        × IsFound fault.now found) }
{
    CutEnd::Stopped {
        place,
        found: found_in(fault),
    }
}

impl<'rules> Cutter<'rules> {
    /// Nothing has come yet.
    pub(crate) fn new(alloc: Global, lexer: &'rules RuleLexer) -> Cutter<'rules>
        ensures nothing { IsCutInto lexer.now [] [] result }
        ensures incoming { IsIncoming [] [] result.incoming }
        ensures goes { result.incoming.chunks ≡ nothing_come lexer.now }
    {
        Cutter {
            lexer,
            incoming: Incoming::new(alloc, lexer),
            has_fault: false,
            places: Vec::new(alloc),
            here: Position { line: 1, column: 1 },
            at: 0,
        }
    }

    /// The slice of the last piece.
    pub(crate) fn slice(&self) -> &[u8]
        ensures slice { result.now ≡ self.now.incoming.chunks.last }
    {
        self.incoming.chunks.slice()
    }

    // Notes the last piece.
    fn note(&mut self, piece: &GivenPiece) -> Result<(), AllocError>
        ensures incoming { OnOk result (self.new.incoming ≡ self.old.incoming) }
        ensures lexer { OnOk result (self.new.lexer ≡ self.old.lexer) }
        ensures here { OnOk result (self.new.here
            ≡ moved self.old.here (byte_place self.old.incoming.chunks.last)) }
        ensures at { OnOk result (self.new.at
            ≡ self.old.at + length self.old.incoming.chunks.last) }
        ensures fault { OnOk result (self.new.has_fault
            ≡ (self.old.has_fault || is_none piece.now.rule)) }
        ensures places { OnOk result (reverse self.new.places.items
            ≡ opened_by self.old.lexer.now.actions self.old.here piece.now.rule
            (reverse self.old.places.items)) }
    {
        let slice = self.incoming.chunks.slice();
        let Some(here) = self.here.after_bytes(slice) else {
            return Err(AllocError);
        };
        let Some(at) = self.at.checked_add(slice.len()) else {
            return Err(AllocError);
        };
        note_rule(&mut self.places, self.lexer, piece.rule, self.here)?;
        self.has_fault = self.has_fault || piece.rule.is_none();
        self.here = here;
        self.at = at;
        Ok(())
    }

    /// The next piece, or none if what comes may change it, or all has come and was given.
    ///
    /// # Errors
    ///
    /// `AllocError` if a request for memory was refused, or if 2^64 bytes have come.
    pub(crate) fn next_piece(&mut self) -> Result<Option<Cut>, AllocError>
        ensures none { IfOk result (λ found. IfNone found ((self.new ≡ self.old)
            × GivesFinal self.old.incoming.chunks None self.new.incoming.chunks)) }
        ensures gives { IfOk result (λ found. IfSome found (λ cut.
            (slice : Bor (List ℕ)) → slice.now ≡ self.new.incoming.chunks.last
            → GivesCut self.old (piece_of cut.piece slice) cut.place cut.mode self.new)) }
    {
        let mode = self.incoming.chunks.mode();
        let place = self.here;
        let piece = match self.incoming.chunks.next_piece() {
            Ok(Some(piece)) => piece,
            Ok(None) => return Ok(None),
            Err(_) => return Err(AllocError),
        };
        self.note(&piece)?;
        Ok(Some(Cut { piece, place, mode }))
    }

    /// How cutting ends at the next piece, if a fault begins there, whatever comes.
    pub(crate) fn stopped_next(&self) -> Option<CutEnd>
        ensures fault { IfSome result (λ end. (found : FoundValue)
            × ((end ≡ CutEnd.Stopped self.now.here found)
            × (IsFoundNext self.now.incoming.chunks found
            × BeginsFault self.now.incoming.chunks))) }
        ensures none { IfNone result (IsBegun self.now.incoming.chunks.rest
            ⊎ MayMatch self.now.incoming.chunks) }
    {
        let chunks = &self.incoming.chunks;
        if !chunks.begins_fault() {
            return None;
        }
        // A character that has only begun is shown once it is whole.
        if !chunks.is_ended() && is_begun(chunks.rest()) {
            return None;
        }
        Some(stopped(self.here, chunks.rest()))
    }

    /// Reads more of the text, and says what that brought. If nothing more comes, or a read failed, all was fed.
    ///
    /// # Errors
    ///
    /// `AllocError` if a request for memory was refused. Then what was read may be lost.
    pub(crate) fn read_on<S: Source>(
        &mut self,
        reader: &mut Reader<S>,
    ) -> Result<Brought, AllocError>
        requires goes { self.old.incoming.chunks.is_ended ≡ false }
        ensures comes { IfOk result (λ brought.
            Comes self.old.lexer.now reader.old reader.new self.old self.new brought) }
        ensures same { OnOk result (self.new.lexer ≡ self.old.lexer) }
        ensures lost { OnErr result ((reading : Reading)
            × Reads reader.old reader.new reading) }
    {
        match self.incoming.read_on(reader)? {
            Brought::More => Ok(Brought::More),
            Brought::Nothing => {
                self.incoming.release()?;
                self.incoming.chunks.finish();
                Ok(Brought::Nothing)
            }
            Brought::Failure => {
                self.incoming.release()?;
                Ok(Brought::Failure)
            }
        }
    }

    // The mode on top, and where it was entered, if it has one below it.
    fn open_mode(&self) -> Option<OpenMode>
        ensures inside { result
            ≡ open_place self.now.incoming.chunks.stack.mode (reverse self.now.places.items) }
    {
        match self.places.last() {
            Some(place) => Some(OpenMode {
                mode: self.incoming.chunks.mode(),
                place: *place,
            }),
            None => None,
        }
    }

    /// How cutting ends after what reading brought, once all pieces were given that can be; none if more may come.
    pub(crate) fn end(&self, brought: Brought) -> Option<CutEnd>
        ensures end { result ≡ end_by self.now brought }
    {
        match brought {
            Brought::More => None,
            Brought::Nothing => Some(CutEnd::Whole {
                has_fault: self.has_fault,
                inside: self.open_mode(),
            }),
            Brought::Failure => Some(CutEnd::Unread),
        }
    }
}
