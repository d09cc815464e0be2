//! A lexer as one source file: the numbers of its table, the names of its rules, and code that is the same for all rules.
//!
//! The numbers are proved to be right for the automaton, and the text to depend on these numbers alone. The code that is the
//! same for all rules is proved in the form that it has in this crate, for texts of any bytes. A source in Rust has its text,
//! without the contracts. That its lines in C say the same is trusted: both stand function by function in the same order.
#![tactic(auto)]

mod action_lists;
mod ahead_columns;
mod ahead_driver;
mod ahead_rows;
mod ahead_table;
mod byte_cutter;
mod byte_pieces;
mod byte_positions;
mod c_file;
mod c_text;
mod class_order;
mod classes;
mod driver;
mod error;
mod flag_ends;
mod lane_ends;
mod longest_match;
mod made_table;
mod naming;
mod numbered_piece;
mod numbers;
mod patterns;
mod regular_ahead;
mod run;
mod rust_file;
mod rust_text;
mod standing;
mod table_lists;

pub use byte_cutter::{ByteCutter, TooDeep};
pub use byte_pieces::BytePieces;
pub use byte_positions::{BytePosition, byte_position};
pub use c_file::c_source;
pub use error::EmitError;
pub use numbered_piece::NumberedPiece;
pub use numbers::LexerNumbers;
pub use rust_file::rust_source;
