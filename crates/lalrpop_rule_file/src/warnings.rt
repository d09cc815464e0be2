//! The warnings about a file.
ghost use Rattle.std.specs.Prelude.{◌≡◌, ◌↔◌, ◌<◌, ℕ, Some, true, length, slice_get, Contains, IfOk, IsTrue, OnOk};
ghost use Rattle.lalrpop_rule_file.specs.Warnings.{AreInOrder, IsEnteredMode, IsUnused, IsWarning};
ghost use Rattle.lalrpop_rule_file.specs.LeftModes.{CanBeLeft};
ghost use Rattle.lalrpop_rule_file.specs.Internal.Found.{HasFound};
ghost use Rattle.lalrpop_rule_file.specs.declared.warning.Warning.{Warning as WarningValue};

use crate::file::RuleFile;
use crate::goes_on::is_going_on;
use crate::left_modes::can_be_left;
use crate::outside_class::has_outside_class;
use crate::passed_end::has_passed_end;
use crate::used_parts::{reference, stands_in_part, stands_in_rule};
use crate::warning::Warning;
use bajofeki_rules::entered_modes;
use std::alloc::{AllocError, Global};

impl<'text> RuleFile<'text> {
    // Adds `NoRules`, if that is so.
    fn add_no_rules(&self, found: &mut Vec<Warning>) -> Result<(), AllocError>
        ensures { OnOk result (HasFound self.now 0 0 found.old.items
            → HasFound self.now 1 0 found.new.items) }
    {
        if self.rules.is_empty() {
            found.push(Warning::NoRules)?;
        }
        Ok(())
    }

    // Whether the part with this index isn't used.
    fn is_unused(&self, alloc: Global, part: usize) -> Result<bool, AllocError>
        requires within { part < length self.now.part_lines.items }
        ensures { IfOk result (λ unused. IsTrue unused ↔ IsUnused self.now part) }
    {
        let reference = reference(alloc, self.part_lines[part].name)?;
        if stands_in_part(&self.part_lines, part, &reference) {
            return Ok(false);
        }
        Ok(!stands_in_rule(&self.rules, part, &reference))
    }

    // Adds the parts that aren't used.
    fn add_unused_parts(&self, alloc: Global, found: &mut Vec<Warning>) -> Result<(), AllocError>
        ensures { OnOk result (HasFound self.now 1 0 found.old.items
            → HasFound self.now 2 0 found.new.items) }
    {
        for part in 0..self.part_lines.len() {
            let unused = self.is_unused(alloc, part)?;
            if unused {
                found.push(Warning::PartUnused { part })?;
            }
        }
        Ok(())
    }

    // For each mode, in order, whether it can be entered.
    fn entered(&self, alloc: Global) -> Result<Vec<bool>, AllocError>
        ensures same_length { IfOk result (λ marks.
            length marks.items ≡ length self.now.modes.items) }
        ensures each { IfOk result (λ marks. (m : ℕ) → m < length self.now.modes.items
            → (slice_get marks.items m ≡ Some true) ↔ IsEnteredMode self.now m) }
    {
        let rules = self.mode_rules(alloc)?;
        entered_modes(alloc, &rules, self.modes.len())
    }

    // Adds the modes that can't be entered.
    fn add_modes_not_entered(
        &self,
        alloc: Global,
        found: &mut Vec<Warning>,
    ) -> Result<(), AllocError>
        ensures { OnOk result (HasFound self.now 2 0 found.old.items
            → HasFound self.now 3 0 found.new.items) }
    {
        let entered = self.entered(alloc)?;
        for mode in 0..entered.len() {
            if !entered[mode] {
                found.push(Warning::ModeNotEntered { mode })?;
            }
        }
        Ok(())
    }

    // Whether this mode isn't the first, can be entered, and can't be left.
    fn is_never_left(&self, mode: usize, is_entered: bool) -> bool
        ensures { IsTrue result ↔ ((0 < mode) × (IsTrue is_entered
            × ¬ CanBeLeft self.now.rules.items mode)) }
    {
        if !is_entered {
            return false;
        }
        if can_be_left(&self.rules, mode) {
            return false;
        }
        mode > 0
    }

    // Adds the modes that are never left.
    fn add_modes_not_left(&self, alloc: Global, found: &mut Vec<Warning>) -> Result<(), AllocError>
        ensures { OnOk result (HasFound self.now 3 0 found.old.items
            → HasFound self.now 4 0 found.new.items) }
    {
        let entered = self.entered(alloc)?;
        for mode in 0..entered.len() {
            if self.is_never_left(mode, entered[mode]) {
                found.push(Warning::ModeNotLeft { mode })?;
            }
        }
        Ok(())
    }

    // Adds the texts that go on after they seem to end.
    fn add_texts_going_on(&self, found: &mut Vec<Warning>) -> Result<(), AllocError>
        ensures { OnOk result (HasFound self.now 4 0 found.old.items
            → HasFound self.now 5 0 found.new.items) }
    {
        for rule in 0..self.rules.len() {
            if is_going_on(&self.rules[rule].rule.text) {
                found.push(Warning::TextGoesOn { rule })?;
            }
        }
        Ok(())
    }

    // Adds the classes outside of brackets.
    fn add_classes_outside(&self, found: &mut Vec<Warning>) -> Result<(), AllocError>
        ensures { OnOk result (HasFound self.now 5 0 found.old.items
            → HasFound self.now 6 0 found.new.items) }
    {
        for rule in 0..self.rules.len() {
            if has_outside_class(&self.rules[rule].rule.text) {
                found.push(Warning::ClassOutside { rule })?;
            }
        }
        Ok(())
    }

    // Adds the patterns that pass their end.
    fn add_ends_passed(&self, found: &mut Vec<Warning>) -> Result<(), AllocError>
        ensures { OnOk result (HasFound self.now 6 0 found.old.items
            → HasFound self.now 7 0 found.new.items) }
    {
        for rule in 0..self.rules.len() {
            if has_passed_end(&self.rules[rule].rule.text) {
                found.push(Warning::EndPassed { rule })?;
            }
        }
        Ok(())
    }

    /// What the file says, but surely doesn't mean: all warnings, each once, in the order of the kinds as `Warning` has them;
    /// those of one kind are in ascending order.
    ///
    /// ```
    /// use lalrpop_rule_file::{Warning, read_rules};
    ///
    /// let file = read_rules(alloc, b"A = 'a'\n[TEXT]\nB push TEXT = 'b'\n")?;
    /// let warnings = file.warnings(alloc)?; // [Warning::ModeNotEntered { mode: 1 }]
    /// ```
    ///
    /// # Errors
    ///
    /// `AllocError` if a request for memory was refused.
    pub fn warnings(&self, alloc: Global) -> Result<Vec<Warning>, AllocError>
        ensures all { IfOk result (λ found. (w : WarningValue)
            → Contains found.items w ↔ IsWarning self.now w) }
        ensures in_order { IfOk result (λ found. AreInOrder found.items) }
    {
        let mut found = Vec::new(alloc);
        self.add_no_rules(&mut found)?;
        self.add_unused_parts(alloc, &mut found)?;
        self.add_modes_not_entered(alloc, &mut found)?;
        self.add_modes_not_left(alloc, &mut found)?;
        self.add_texts_going_on(&mut found)?;
        self.add_classes_outside(&mut found)?;
        self.add_ends_passed(&mut found)?;
        Ok(found)
    }
}
