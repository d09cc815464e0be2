//! Pictures of automata, into an array.
ghost use Rattle.std.specs.Prelude.{◌≡◌, option_map};
ghost use Rattle.bajofeki_c.specs.Draw.{IsDrawing, given as given_by};

use crate::answered::{answer_into, not_checked};
use crate::check::Checked;
use lexdfa_lib::Verbosity;
use reviews_lib::picture_answer;
use std::alloc::Global;
use std::str;

// The name of the rules that are drawn alone, if there is one.
fn given(name: &str) -> Option<&str>
    ensures { option_map (λ n. n.now) result ≡ given_by name.now }
{
    if name.is_empty() { None } else { Some(name) }
}

/// Draws the automata of the rules of a file of this name, as `tokens --dot` does: of each mode; or, if the name of a rule isn't empty, of
/// the rules that have it. Writes as many bytes as fit, and says how many there are.
pub fn draw_into(alloc: Global, name: &[u8], rules: &[u8], rule: &[u8], out: &mut [u8]) -> Checked
    ensures drawn { IsDrawing name.now rules.now rule.now out.old result out.new }
{
    let Ok(name) = str::from_utf8(name) else {
        return not_checked(10);
    };
    let Ok(rule) = str::from_utf8(rule) else {
        return not_checked(10);
    };
    let answer = picture_answer(alloc, Verbosity::Warnings, name, rules, given(rule));
    answer_into(alloc, answer, out)
}
