//! What `tokens` writes of texts: the lines of their pieces or their markup, and what it says if a text can't be read or cut.
#![tactic(auto)]

mod console;
mod cut_end;
mod cut_files;
mod cutter;
mod fault;
mod found;
mod incoming;
mod lines;
mod page;
mod pieces;
mod progress;
mod sheet;

pub use console::Console;
pub use cut_end::{CutEnd, Found, OpenMode};
pub use cut_files::{Task, cut_all};
pub use lines::write_lines;
pub use page::write_page;
pub use progress::reading_message;
