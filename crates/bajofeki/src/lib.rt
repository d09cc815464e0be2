//! Lexers from rules, by one crate. `RuleLexer` is built from rules, or from a file of them, and cuts texts into `Piece`s; a
//! `Document` is a text that is edited, and a `Stream` one that comes in chunks; `html` and `ansi` show a text in colours.
//!
//! After an edit only those pieces are cut anew that depend on what was replaced, and those up to the first place after it where
//! an old piece begins in the same modes.
#![tactic(auto)]

mod block;
mod change;
mod coloured;
mod cutter;
mod document;
mod edit;
mod error;
mod found_ahead;
mod front;
mod given_piece;
mod held_run;
mod kept;
mod lines;
mod meet;
mod memo;
mod next_front;
mod page;
mod parts;
mod pieces;
mod place;
mod run;
mod settled_token;
mod shown;
mod stream;
mod text_front;
mod walker;
mod whole;

pub use bajofeki_rules::{Action, ModeRule, Position, Positions, Rule};
pub use change::Change;
pub use coloured::{Painter, ansi};
pub use document::Document;
pub use error::EditError;
pub use given_piece::GivenPiece;
pub use lalrpop_lexer::Token;
pub use lalrpop_rules::{FileError, Piece, Pieces, RuleLexer, RulesError};
pub use page::{html, push_html};
pub use settled_token::SettledToken;
pub use stream::Stream;
