//! What a check of rules finds, into an array.
ghost use Rattle.std.specs.Prelude.{◌≡◌};
ghost use Rattle.bajofeki_c.specs.Check.{IsChecked, form_of};

use crate::answered::{answer_into, not_checked};
use reviews_lib::{LineForm, check_answer};
use std::alloc::Global;
use std::str;

/// What a check of rules writes: a line for each thing that was found and for each automaton, and then what is said: why there are no
/// rules, or, unless lines are JSON, the warnings. A comparison writes differences, and a drawing pictures, and then what is said.
#[repr(C)]
#[derive(Copy, Clone)]
pub struct Checked {
    /// 0: nothing is wrong or differs. 1: something was found or differs. 2: rules clash, or one can't be compiled. 3: a line is wrong,
    /// or a rule's text doesn't parse. 4: no rule has the name. 7: a request for memory was refused. 10: a name isn't UTF-8.
    pub code: u32,
    /// How many bytes the lines have, or the pictures.
    pub found: usize,
    /// How many bytes there are in all.
    pub length: usize,
}

// The form of the lines.
fn form_of(is_json: bool) -> LineForm
    ensures { result ≡ form_of is_json }
{
    if is_json {
        LineForm::Json
    } else {
        LineForm::Plain
    }
}

/// Checks the rules of a file of this name, as `tokens --check` does. Writes as many bytes as fit, and says how many there are.
pub fn check_into(
    alloc: Global,
    name: &[u8],
    rules: &[u8],
    is_json: bool,
    out: &mut [u8],
) -> Checked
    ensures checked { IsChecked name.now rules.now is_json out.old result out.new }
{
    let Ok(name) = str::from_utf8(name) else {
        return not_checked(10);
    };
    let answer = check_answer(alloc, form_of(is_json), name, rules);
    answer_into(alloc, answer, out)
}
