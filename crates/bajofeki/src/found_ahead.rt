//! Tokens that are found ahead.

ghost use Rattle.std.specs.Prelude.{◌≡◌, ◌≢◌, ◌<◌, ℕ, List, [], true, false, slice_get, Some, IfSome, IfNone};
ghost use Rattle.lalrpop_dfa.specs.Dfa.{Row};
ghost use Rattle.bajofeki.specs.Internal.Ahead.{IsFirst, LeadOn};

use crate::parts::FrontPiece;
use lalrpop_dense::TokenEnds;
use lalrpop_hir::Steps;
use lalrpop_rules::RuleLexer;

// A block has at least this many bytes.
const LEAST: usize = 32;

// A block has at most this many bytes.
const MOST: usize = 2048;

/// Tokens from the front of a text on, each settled by the character after it. They are found a block at a time, which is quicker than
/// a run for each.
#[derive(Drop)]
pub(crate) struct FoundAhead {
    // Those that are still ahead, in the text in which they were found.
    pub(crate) ends: TokenEnds,
    // Where the first of them begins in that text.
    pub(crate) at: usize,
    // How many bytes may be read in vain: no more than were given and one block, so the time is linear.
    pub(crate) credit: usize,
    // The next block has at most twice as many bytes.
    pub(crate) half: usize,
    // How many bytes are to be given before the next block is read.
    pub(crate) wait: usize,
}

impl FoundAhead {
    /// None are ahead.
    pub(crate) fn new() -> FoundAhead
        ensures none { result.ends ≡ [] }
    {
        FoundAhead {
            ends: TokenEnds::new(),
            at: 0,
            credit: MOST,
            half: MOST,
            wait: 0,
        }
    }

    /// Forgets those that are ahead. The next block has no more bytes than this one gave. If those were few, it is read late: where
    /// the mode changes at nearly every token, blocks don't pay.
    pub(crate) fn forget(&mut self)
        ensures none { self.new.ends ≡ [] }
    {
        let mut last = self.at;
        'forgetting: while let Some(found) = self.ends.next() {
            last = found.end;
        }
        if last <= self.at {
            return;
        }
        self.half = self.at / 2;
        if self.at < LEAST {
            self.wait = (last - self.at).saturating_mul(8);
        }
    }

    /// Counts a piece of this size that was given. If the mode is another one after it, those that are ahead are forgotten.
    #[inline(always)]
    pub(crate) fn pass(&mut self, size: usize, is_same_mode: bool)
        ensures kept { is_same_mode ≡ true
            → (self.new.ends ≡ self.old.ends) × (self.new.at ≡ self.old.at) }
        ensures none { is_same_mode ≡ false → self.new.ends ≡ [] }
    {
        self.credit = self.credit.saturating_add(size).min(MOST);
        self.wait = self.wait.saturating_sub(size);
        if !is_same_mode {
            self.forget();
        }
    }

    /// The token at the front of the text, if it is found ahead. Then the next one begins after it.
    #[inline(always)]
    pub(crate) fn next(&mut self) -> Option<FrontPiece>
        ensures first { IfSome result (λ f. (d : List Row) (text : List ℕ) → LeadOn d text self.old
            → IsFirst d text f self.new) }
        ensures some { IfSome result (λ f. self.old.ends ≢ []) }
        ensures none { IfNone result (self.new.ends ≡ []) }
    {
        match self.ends.next() {
            Some(found) => {
                let size = found.end.saturating_sub(self.at);
                self.at = found.end;
                Some(FrontPiece {
                    rule: Some(found.index),
                    size,
                })
            }
            None => None,
        }
    }

    /// Whether a block is to be read.
    #[inline(always)]
    pub(crate) fn is_due(&self) -> bool {
        self.wait == 0 && self.may_read(LEAST)
    }

    /// Whether this many bytes may be read in vain.
    #[inline(always)]
    pub(crate) fn may_read(&self, vain: usize) -> bool {
        self.credit >= vain
    }

    /// Counts bytes that were read in vain.
    pub(crate) fn spend(&mut self, vain: usize)
        ensures same { (self.new.ends ≡ self.old.ends) × (self.new.at ≡ self.old.at) }
    {
        self.credit = self.credit.saturating_sub(vain);
    }

    /// Finds tokens from the front of the text on.
    #[inline(never)]
    pub(crate) fn find(&mut self, lexer: &RuleLexer, mode: usize, text: &str)
        requires there { mode < lexer.now.modes }
        ensures found { (d : List Row) → slice_get lexer.now.automata mode ≡ Some d
            → LeadOn d text.now self.new }
    {
        let block = self.half.saturating_mul(2).clamp(LEAST, MOST);
        self.half = block;
        let limit = self.credit.min(block);
        let dense = lexer.lexer(mode).dense();
        self.at = 0;
        let vain = dense.find_ends(text, 0, limit, &mut self.ends, &mut Steps::new());
        self.spend(vain);
    }

    /// Finds tokens from the front of the text on, if a block is to be read and none are ahead, and gives the first.
    pub(crate) fn first_of(
        &mut self,
        lexer: &RuleLexer,
        mode: usize,
        text: &str,
    ) -> Option<FrontPiece>
        requires there { mode < lexer.now.modes }
        requires none { self.old.ends ≡ [] }
        ensures first { IfSome result (λ f. (d : List Row)
            → slice_get lexer.now.automata mode ≡ Some d → IsFirst d text.now f self.new) }
        ensures none { IfNone result (self.new.ends ≡ []) }
    {
        if !self.is_due() {
            return None;
        }
        self.find(lexer, mode, text);
        self.next()
    }
}
