//! How far past its tokens a lexer reads, mode by mode.
ghost use Rattle.std.specs.Prelude.{◌≡◌, ◌<◌};
ghost use Rattle.lalrpop_hir.specs.Winners.{Matched};
ghost use Rattle.lalrpop_dfa.specs.Lookahead.{IsLookahead};
ghost use Rattle.lalrpop_rules.specs.Modes.{trees_in};
ghost use Rattle.bajofeki_c.specs.Look.{IsLookOf, mode_count};

use crate::held::Held;
use lalrpop_rules::RuleLexer;

/// How far a token of a mode can stay open.
#[repr(C)]
#[derive(Copy, Clone)]
pub struct Look {
    /// 0: up to `count` characters after it can leave open whether a longer one comes. 1: any number of them can. 9: there is no
    /// lexer or no such mode.
    pub code: u32,
    /// The greatest number of such characters (0).
    pub count: usize,
}

/// How many modes there are: 0 if there is no lexer.
pub fn modes_of(held: &Held) -> usize
    ensures count { result ≡ mode_count held.now }
{
    match &held.made {
        Ok(lexer) => lexer.rules.modes(),
        Err(_) => 0,
    }
}

// The greatest number of characters after a token of this mode that leave it open; `None` if any number can.
fn lookahead_in(rules: &RuleLexer, mode: usize) -> Option<usize>
    requires there { mode < rules.now.modes }
    ensures answer { IsLookahead (Matched (trees_in rules.now mode)) result }
{
    rules.lexer(mode).lookahead()
}

/// How many characters after a token of this mode can leave open whether a longer one comes.
pub fn look_of(held: &Held, mode: usize) -> Look
    ensures look { IsLookOf held.now mode result }
{
    let none = Look { code: 9, count: 0 };
    let Ok(lexer) = &held.made else {
        return none;
    };
    if mode >= lexer.rules.modes() {
        return none;
    }
    match lookahead_in(&lexer.rules, mode) {
        Some(count) => Look { code: 0, count },
        None => Look { code: 1, count: 0 },
    }
}
