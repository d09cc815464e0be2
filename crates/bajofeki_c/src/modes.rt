//! The modes of a lexer by their names, and what a token of a rule does to the stack of them.
ghost use Rattle.std.specs.Prelude.{◌≡◌, Some};
ghost use Rattle.bajofeki_c.specs.Modes.{action_at, action_told, mode_name_of};
ghost use Rattle.bajofeki_c.specs.Rules.{IsWritten};

use crate::held::Held;
use crate::rules::write_to;
use lalrpop_lexer::lexer::dfa::NfaIndex;
use lalrpop_rules::Action as RuleAction;

/// What a token of a rule does to the stack of modes.
#[repr(C)]
#[derive(Copy, Clone)]
pub struct Action {
    /// 0: the mode takes the place of the one on top. 1: it comes on top. 2: the one on top is taken away, and the last one stays.
    /// 3: nothing more.
    pub kind: u32,
    /// The number of the mode (0 and 1); else 0.
    pub mode: usize,
}

// The name of the mode with this number, or none.
fn mode_name(held: &Held, mode: usize) -> &str
    ensures name { result.now ≡ mode_name_of held.now mode }
{
    match &held.made {
        Ok(lexer) => match lexer.rules.mode_names().get(mode) {
            Some(name) => name.as_str(),
            None => "",
        },
        Err(_) => "",
    }
}

/// Writes the name of a mode, as many bytes as fit, and says how many there are: 0 if there is no such mode.
pub fn mode_name_into(held: &Held, mode: usize, out: &mut [u8]) -> usize
    ensures written { IsWritten (mode_name_of held.now mode) out.old out.new result }
{
    write_to(mode_name(held, mode).as_bytes(), out)
}

fn told(action: RuleAction) -> Action
    ensures told { result ≡ action_told (Some action) }
{
    match action {
        RuleAction::Mode(mode) => Action { kind: 0, mode },
        RuleAction::Push(mode) => Action { kind: 1, mode },
        RuleAction::Pop => Action { kind: 2, mode: 0 },
    }
}

/// What a token of the rule does to the stack, by the place of the action among those of the rule.
pub fn action_of(held: &Held, rule: usize, place: usize) -> Action
    ensures action { result ≡ action_at held.now rule place }
{
    let none = Action { kind: 3, mode: 0 };
    let Ok(lexer) = &held.made else {
        return none;
    };
    match lexer.rules.actions(NfaIndex::new(rule)).get(place) {
        Some(action) => told(*action),
        None => none,
    }
}
