//! Two files of rules that are compared, into an array.
ghost use Rattle.bajofeki_c.specs.Compare.{IsCompared};

use crate::answered::{answer_into, not_checked};
use crate::check::Checked;
use lexdfa_lib::Verbosity;
use reviews_lib::difference_answer;
use std::alloc::Global;
use std::str;

/// Compares the rules of two files of these names, as `tokens --diff` does. Writes as many bytes as fit, and says how many there are.
pub fn compare_into(
    alloc: Global,
    name: &[u8],
    rules: &[u8],
    other_name: &[u8],
    other: &[u8],
    out: &mut [u8],
) -> Checked
    ensures compared { IsCompared name.now rules.now other_name.now other.now
        out.old result out.new }
{
    let Ok(name) = str::from_utf8(name) else {
        return not_checked(10);
    };
    let Ok(other_name) = str::from_utf8(other_name) else {
        return not_checked(10);
    };
    let answer = difference_answer(alloc, Verbosity::Warnings, name, rules, other_name, other);
    answer_into(alloc, answer, out)
}
