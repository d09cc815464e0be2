//! What a text is cut with, beside the rules.

ghost use Rattle.std.specs.Prelude.{◌≡◌, ℕ, ◌<◌, List, slice_get, Some, IfOk, IfSome, IsSome, OnOk};
ghost use Rattle.lalrpop_dfa.specs.Dfa.{Row};
ghost use Rattle.lalrpop_rules.specs.Modes.{ModeRules};
ghost use Rattle.bajofeki.specs.Internal.Noted.{IsCutter};

use crate::memo::Memo;
use crate::walker::Walker;
use lalrpop_rules::RuleLexer;
use std::alloc::{AllocError, Global};

/// A walk for each mode, and what its runs read in vain in this text.
#[derive(Drop)]
pub(crate) struct Cutter<'a> {
    pub(crate) walkers: Vec<Walker<'a>>,
    pub(crate) memo: Memo,
}

impl<'a> Cutter<'a> {
    /// Nothing was read.
    ///
    /// # Errors
    ///
    /// `AllocError` if a request for memory was refused.
    pub(crate) fn new(alloc: Global, lexer: &'a RuleLexer) -> Result<Cutter<'a>, AllocError>
        ensures ready { IfOk result (λ c. (at : ℕ) (text : List ℕ) → IsCutter lexer.now c at text) }
        ensures automata { OnOk result ((m : ℕ) → m < lexer.now.modes
            → (d : List Row) × (slice_get lexer.now.automata m ≡ Some d)) }
    {
        let mut walkers = Vec::new(alloc);
        for mode in 0..lexer.modes() {
            walkers.push(Walker::of(lexer.lexer(mode).dense()))?;
        }
        Ok(Cutter {
            walkers,
            memo: Memo::new(alloc),
        })
    }

    /// Forgets what runs read in vain, as in another text, or in one that goes on.
    pub(crate) fn forget(&mut self, alloc: Global)
        ensures right { (r : ModeRules) (at at2 : ℕ) (text text2 : List ℕ)
            → IsCutter r self.old at text → IsCutter r self.new at2 text2 }
    {
        self.memo = Memo::new(alloc);
    }
}

/// Keeps a new cutter, which has read nothing, if none is kept.
///
/// # Errors
///
/// `AllocError` if a request for memory was refused.
pub(crate) fn keep_cutter<'a>(
    alloc: Global,
    kept: &mut Option<Cutter<'a>>,
    lexer: &'a RuleLexer,
) -> Result<(), AllocError>
    ensures some { OnOk result (IsSome kept.new) }
    ensures ready { (at : ℕ) (text : List ℕ) → IfSome kept.old (λ c. IsCutter lexer.now c at text)
        → IfSome kept.new (λ c. IsCutter lexer.now c at text) }
{
    if kept.is_none() {
        *kept = Some(Cutter::new(alloc, lexer)?);
    }
    Ok(())
}
