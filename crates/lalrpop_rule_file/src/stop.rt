//! Where a line stops.
ghost use Rattle.std.specs.Prelude.{◌≡◌};
ghost use Rattle.lalrpop_rule_file.specs.declared.stop.Unread.TheVariants.{Stopped, OutOfMemory};

use crate::error::LineFault;
use std::alloc::{AllocError, AllocFailed};

/// Where a line stops being a section or a rule: before `rest`, with which it ends.
#[derive(Clone, Copy)]
pub(crate) struct Stop<'text> {
    pub fault: LineFault,
    pub rest: &'text str,
}

/// Why a line isn't read: it stops being a section or a rule, or a request for memory was refused.
#[derive(Drop)]
pub(crate) enum Unread<'text> {
    Stopped(Stop<'text>),
    OutOfMemory,
}

impl<'text> From<Stop<'text>> for Unread<'text> {
    ghost from_gives = { λ s e. e ≡ Stopped s };

    fn from(stop: Stop<'text>) -> Unread<'text> {
        Unread::Stopped(stop)
    }
}

impl<'text> From<AllocError> for Unread<'text> {
    ghost from_gives = { λ _ e. e ≡ OutOfMemory };

    fn from(_error: AllocError) -> Unread<'text> {
        Unread::OutOfMemory
    }
}

impl<'text, T: Drop> From<AllocFailed<T>> for Unread<'text> {
    ghost from_gives = { λ _ e. e ≡ OutOfMemory };

    fn from(_error: AllocFailed<T>) -> Unread<'text> {
        Unread::OutOfMemory
    }
}
