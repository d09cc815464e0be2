//! A block of a text that a table has run through.
ghost use Rattle.std.specs.Prelude.{◌≡◌, ◌*◌, ◌/◌, ◌≤◌, length, min, OnOk};
ghost use Rattle.lalrpop_emit.specs.Internal.Running.{HasRoom, HasNoEnd};

use std::alloc::{AllocError, Global};

/// A cell of a table that runs ahead.
pub(crate) type AheadCell = u32;

/// No block has more bytes than this.
pub(crate) const MOST: usize = 6144;

/// The least bytes of a block: a word for each of the six walks. Each block has a multiple of them.
pub(crate) const LEAST: usize = 384;

/// A block of a text that a table has run through, ahead of the tokens that are cut in it.
#[derive(Debug, Drop)]
pub(crate) struct Run {
    /// Where the block begins in the text.
    pub(crate) base: usize,
    /// How many bytes it has; 0 if there is none.
    pub(crate) length: usize,
    /// By whose table.
    pub(crate) mode: u16,
    /// Where in the text the mode on top came there.
    pub(crate) since: usize,
    /// The word of `ends` that is looked at; after the last one if none is.
    pub(crate) word: usize,
    /// What is left of it: the ends after the place where the next token begins.
    pub(crate) bits: u64,
    /// The column of each byte.
    pub(crate) columns: Vec<u16>,
    /// The row after each byte.
    pub(crate) rows: Vec<AheadCell>,
    /// A bit for each byte: whether a token ends before it.
    pub(crate) ends: Vec<u64>,
}

impl Run {
    /// No block, and no room for one.
    pub(crate) fn new(alloc: Global) -> Run
        ensures room { HasRoom result }
        ensures none { HasNoEnd result }
        ensures begins { (result.length ≡ 0) × (result.base ≡ 0) × (result.since ≡ 0) }
    {
        Run {
            base: 0,
            length: 0,
            mode: 0,
            since: 0,
            word: 0,
            bits: 0,
            columns: Vec::new(alloc),
            rows: Vec::new(alloc),
            ends: Vec::new(alloc),
        }
    }

    /// Leaves the block, and makes room for those of a text of `size` bytes, if there is less.
    ///
    /// # Errors
    ///
    /// `AllocError` if a request for memory was refused.
    pub(crate) fn restart(&mut self, size: usize) -> Result<(), AllocError>
        requires room { HasRoom self.old }
        ensures room { HasRoom self.new }
        ensures none { HasNoEnd self.new }
        ensures enough { OnOk result (min 6144 size / 384 * 384 ≤ length self.new.rows.items) }
        ensures begins { (self.new.length ≡ 0) × (self.new.base ≡ 0) × (self.new.since ≡ 0) }
    {
        self.base = 0;
        self.length = 0;
        self.mode = 0;
        self.since = 0;
        self.word = 0;
        self.bits = 0;
        let room = MOST.min(size) / LEAST * LEAST;
        if self.rows.len() < room {
            self.columns.resize(room, 0)?;
            self.ends.resize(room / 64, 0)?;
            self.rows.resize(room, 0)?;
        }
        Ok(())
    }
}
