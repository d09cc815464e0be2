//! Kernel sets: equal kernels get one number, and the place goes over them in the order of their numbers. A set that is refused memory is
//! as before, and goes on.

use crate::calls::{Call, expect, number};
use crate::without::from_here_on;
use lalrpop_lexer::kernel_set::{Kernel, KernelSet};
use std::alloc::{AllocError, Global};
use std::fmt::Write;

// A kernel that holds a number in memory of its own.
#[derive(Clone, PartialEq, Eq, PartialOrd, Ord, Drop)]
pub(crate) struct Held {
    numbers: Vec<usize>,
}

impl Kernel for Held {
    type Index = usize;

    ghost index_of = { λ n. n };

    fn index(c: usize) -> usize {
        c
    }
}

fn make_held(alloc: Global, number: usize) -> Result<Held, AllocError> {
    let numbers = vec![in alloc; number]?;
    Ok(Held { numbers })
}

// Adds the kernel of a `+` and a number, and writes its number in the set; or takes the next kernel, and writes that.
fn write_step(
    alloc: Global,
    set: &mut KernelSet<Held>,
    line: &mut String,
    step: &str,
) -> Result<(), AllocError> {
    if let Some(digits) = step.strip_prefix('+') {
        let index = set.add_state(make_held(alloc, number(digits))?)?;
        return write!(line, "{index} ");
    }
    match set.next()? {
        Some(kernel) => write!(line, "{:?} ", kernel.numbers),
        None => line.push_str("none "),
    }
}

/// What these steps write, each made again if it was refused memory; the line has room before. After `!` no step takes memory.
pub(crate) fn gone(alloc: Global, steps: &str) -> Result<String, AllocError> {
    let mut line = String::with_capacity(alloc, 100)?;
    if steps.starts_with('!') {
        from_here_on(alloc);
    }
    let mut set: KernelSet<Held> = KernelSet::new(alloc);
    for step in steps.trim_start_matches('!').split_whitespace() {
        if write_step(alloc, &mut set, &mut line, step).is_err() {
            write_step(alloc, &mut set, &mut line, step)?;
        }
    }
    Ok(line)
}

#[test]
fn kernels_are_numbered(rt: HostRuntime) {
    let row = ("+7 +9 +7 - - - +3 - -", "0 1 0 [7] [9] none 2 [3] none ");
    expect(&rt, rt.alloc(), Call::Kernels, &[row]);
}
