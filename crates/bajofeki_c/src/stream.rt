//! A text that comes in chunks.
ghost use Rattle.std.specs.Prelude.{◌≡◌};
ghost use Rattle.bajofeki.specs.Given.{piece_of};
ghost use Rattle.bajofeki_c.specs.Document.{told as told_piece};
ghost use Rattle.bajofeki_c.specs.Stream.{GivesOn, GivesPieces, IsFed, IsFedOpen, IsStreamBegun};

use crate::cut::Piece;
use crate::document::{Count, edit_code};
use crate::held::Held;
use bajofeki::{GivenPiece, Stream as CutStream};
use std::alloc::Global;

/// A text that comes in chunks; none if there is no lexer.
#[derive(Drop)]
pub struct Stream<'rules> {
    pub going: Option<CutStream<'rules>>,
}

/// A text of which nothing has come, which is cut by this lexer.
pub fn begin_stream<'rules>(held: &'rules Held, alloc: Global) -> Stream<'rules>
    ensures begun { IsStreamBegun held.now result }
{
    match &held.made {
        Ok(lexer) => Stream {
            going: Some(CutStream::new(alloc, &lexer.rules)),
        },
        Err(_) => Stream { going: None },
    }
}

// More bytes come to a text that goes on.
fn feed_open(chunks: &mut CutStream<'_>, bytes: &[u8], is_last: bool) -> u32
    ensures fed { IsFedOpen chunks.old bytes.now is_last result chunks.new }
{
    if chunks.is_ended() {
        return 8;
    }
    if chunks.feed(bytes).is_err() {
        return 7;
    }
    if is_last {
        chunks.finish();
    }
    0
}

/// More bytes of the text come. Where memory is refused, none has.
pub fn feed_stream(stream: &mut Stream<'_>, _alloc: Global, bytes: &[u8], is_last: bool) -> u32
    ensures fed { IsFed stream.old bytes.now is_last result stream.new }
{
    match &mut stream.going {
        Some(chunks) => feed_open(chunks, bytes, is_last),
        None => 9,
    }
}

// A piece in numbers.
fn told(piece: GivenPiece, slice: &[u8]) -> Piece
    ensures told { result ≡ told_piece (piece_of piece slice.entry) }
{
    let (kind, rule) = match piece.rule {
        Some(rule) => (if piece.is_skipped { 1 } else { 0 }, rule),
        None => (2, 0),
    };
    Piece {
        kind,
        rule,
        start: piece.start,
        length: slice.len(),
    }
}

// Gives pieces until the array is full or no further one is final.
fn fill(chunks: &mut CutStream<'_>, out: &mut [Piece]) -> Count
    ensures given { GivesPieces chunks.old out.old result out.new chunks.new }
{
    let mut count = 0;
    'filling: while count < out.len() {
        match chunks.next_piece() {
            Ok(Some(piece)) => {
                out[count] = told(piece, chunks.slice());
                count += 1;
            }
            Ok(None) => {
                return Count { code: 0, count };
            }
            Err(error) => {
                return Count {
                    code: edit_code(error),
                    count,
                };
            }
        }
    }
    Count { code: 2, count }
}

/// Writes the next pieces that no later byte can change, as many as the array has room for.
pub fn next_in_stream(stream: &mut Stream<'_>, out: &mut [Piece]) -> Count
    ensures given { GivesOn stream.old out.old result out.new stream.new }
{
    match &mut stream.going {
        Some(chunks) => fill(chunks, out),
        None => Count { code: 9, count: 0 },
    }
}

/// Gives the memory of a stream back.
pub fn let_stream_go(_stream: Stream<'_>) {}
