//! The automaton of a mode, and how many states one needs at least.
ghost use Rattle.std.specs.Prelude.{◌<◌, ℕ, List, IfOk};
ghost use Rattle.lalrpop_hir.specs.Tree.{Tree};
ghost use Rattle.lalrpop_dfa.specs.Dfa.{RecognizesAll};
ghost use Rattle.lalrpop_rules.specs.Modes.{trees_in};
ghost use Rattle.lalrpop_review.specs.Review.{IsLeastStates};

use lalrpop_dfa::Dfa;
use lalrpop_rules::RuleLexer;
use lalrpop_verdicts::least_state_count;
use std::alloc::{AllocError, Global};

/// The automaton of the mode.
pub(crate) fn automaton(lexer: &RuleLexer, mode: usize) -> &Dfa
    requires there { mode < lexer.now.modes }
    ensures recognizes { RecognizesAll result.now (trees_in lexer.now mode) lexer.now.precedences }
{
    lexer.lexer(mode).dense().dfa()
}

/// The least number of states of an automaton that recognizes what this one does.
pub(crate) fn fewest_states(alloc: Global, dfa: &Dfa) -> Result<usize, AllocError>
    ensures least { IfOk result (λ n. (ts : List Tree) (ps : List ℕ)
        → RecognizesAll dfa.now ts ps → IsLeastStates ts ps n) }
{
    least_state_count(alloc, dfa)
}
