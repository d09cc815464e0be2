//! The actions of rules in numbers.
ghost use Rattle.std.specs.Prelude.{◌≡◌, ◌++◌, ◌∷◌, [], ◌<◌, ◌≤◌, ◌^◌, length, map, IfOk, IfErr, OnOk};
ghost use Rattle.std.specs.List.{All};
ghost use Rattle.lalrpop_emit.specs.EmitErrors.{IsNumbersError};
ghost use Rattle.lalrpop_emit.specs.NumberedRules.{action_number as number_of, action_numbers, first_places, actions_of_rules};
ghost use Rattle.lalrpop_emit.specs.Internal.Lists.{AreSmall, HasSmallMode, LeadBelow};

use crate::error::EmitError;
use lalrpop_lexer::lexer::dfa::NfaIndex;
use lalrpop_rules::{Action, RuleLexer};
use std::alloc::{AllocError, Global};

// How many numbers there are at most, so that each place fits 32 bits.
const MOST: usize = 4_294_967_295;

/// The actions of all rules in numbers, a 0 after those of each rule, and for each rule where its actions begin.
#[derive(Debug, Drop)]
pub(crate) struct ActionLists {
    pub(crate) first_places: Vec<u32>,
    pub(crate) numbers: Vec<u32>,
}

// The action in one number.
fn action_number(action: Action) -> u32
    requires { HasSmallMode action }
    ensures number { result ≡ number_of action }
    ensures small { result < 2 ^ 18 }
{
    match action {
        Action::Pop => 1,
        Action::Mode(mode) => 2 * mode as u32 + 2,
        Action::Push(mode) => 2 * mode as u32 + 3,
    }
}

// Adds the actions of a rule in numbers, and a 0.
fn push_actions(numbers: &mut Vec<u32>, actions: &[Action]) -> Result<(), AllocError>
    requires small { AreSmall numbers.old.items }
    requires below { LeadBelow (2 ^ 16) actions.now }
    ensures numbers { OnOk result (numbers.new.items
        ≡ numbers.old.items ++ (map number_of actions.now ++ 0 ∷ [])) }
    ensures small { OnOk result (AreSmall numbers.new.items) }
{
    for action in actions {
        numbers.push(action_number(*action))?;
    }
    numbers.push(0)?;
    Ok(())
}

/// The actions of all rules in numbers.
///
/// # Errors
///
/// `TooManyActions` if a place doesn't fit 32 bits, `OutOfMemory` if a request for memory was refused.
pub(crate) fn action_lists(alloc: Global, rules: &RuleLexer) -> Result<ActionLists, EmitError>
    requires modes { rules.now.modes ≤ 2 ^ 16 }
    ensures first { IfOk result (λ lists.
        lists.first_places.items ≡ first_places 0 (actions_of_rules rules.now)) }
    ensures numbers { IfOk result (λ lists.
        lists.numbers.items ≡ action_numbers (actions_of_rules rules.now)) }
    ensures small { IfOk result (λ lists.
        AreSmall lists.first_places.items × AreSmall lists.numbers.items) }
    ensures few { OnOk result (length (action_numbers (actions_of_rules rules.now)) < 2 ^ 32) }
    ensures below { OnOk result (All (LeadBelow rules.now.modes) (actions_of_rules rules.now)) }
    ensures error { IfErr result (IsNumbersError rules.now) }
{
    let mut first_places = Vec::new(alloc);
    let mut numbers = Vec::new(alloc);
    for rule in 0..rules.names().len() {
        first_places.push(numbers.len() as u32)?;
        push_actions(&mut numbers, rules.actions(NfaIndex::new(rule)))?;
        if numbers.len() > MOST {
            return Err(EmitError::TooManyActions);
        }
    }
    Ok(ActionLists {
        first_places,
        numbers,
    })
}
