//! The blocks of the values that lie in the same labels.

ghost use Rattle.std.specs.Prelude.{◌≡◌, ◌-◌, ◌^◌, ◌↔◌, IsTrue, ◌<◌, ◌≤◌, ◌++◌, ◌∷◌, [], OnOk};

use super::origin::Origin;
use crate::DfaStateIndex;
use crate::alphabet::Cell;
use lalrpop_dfa::RowWriter;
use lalrpop_hir::Test;
use std::alloc::AllocError;

/// No value lies before the first boundary, so no edge ends there.
pub(super) const BEFORE_ALL: Cell = Cell {
    first: u64::MAX,
    class: 0,
};

/// The values from a boundary up to the next one, which lie in the same labels.
#[derive(Clone, Copy)]
pub(super) struct Block {
    pub(super) from: Cell,
    pub(super) to: Cell,
}

impl Block {
    /// Whether there are no such values.
    pub(super) fn is_empty(&self) -> bool
        ensures { IsTrue result ↔ (self.now.to.first ≤ self.now.from.first) }
    {
        self.to.first <= self.from.first
    }

    /// The origin of a set that is first met when these values lead to it from a number.
    pub(super) fn origin(&self, number: usize) -> Origin
        requires { self.now.from.first < 2 ^ 32 }
        ensures { result ≡ (number, self.now.from.first) }
    {
        Origin::new(number, self.from.first as u32)
    }

    // The label of an edge that exactly these values take.
    fn label(&self) -> Test
        requires some { self.now.from.first < self.now.to.first }
        requires small { self.now.to.first ≤ 2 ^ 32 }
        ensures { result ≡ record { start = self.now.from.first; end = self.now.to.first - 1 } }
    {
        Test::new(self.from.first as u32..=(self.to.first - 1) as u32)
    }

    /// Writes the test edge by which the values lead to a number.
    pub(super) fn write_edge(
        &self,
        target: DfaStateIndex,
        writer: &mut RowWriter,
    ) -> Result<(), AllocError>
        requires some { self.now.from.first < self.now.to.first }
        requires small { self.now.to.first ≤ 2 ^ 32 }
        ensures rows { OnOk result (writer.new.rows ≡ writer.old.rows) }
        ensures tests { OnOk result (writer.new.tests ≡ writer.old.tests
            ++ (record { start = self.now.from.first; end = self.now.to.first - 1 }, target) ∷ []) }
    {
        writer.add_edge(self.label(), target)
    }
}
