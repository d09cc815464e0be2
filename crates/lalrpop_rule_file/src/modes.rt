//! The modes of a file. An action may name a mode further down, so they are known only once all lines are read.
ghost use Rattle.std.specs.Prelude.{◌≡◌, [], codes, IfOk, IfErr, OnOk};
ghost use Rattle.bajofeki_rules.specs.Lines.{lines};
ghost use Rattle.lalrpop_rule_file.specs.FileModes.{initial, named_by, or_initial as or_initial_of};
ghost use Rattle.lalrpop_rule_file.specs.RuleFile.{IsRuleFileError};
ghost use Rattle.lalrpop_rule_file.specs.Internal.Values.{said_of, section_of};
ghost use Rattle.lalrpop_rule_file.specs.Internal.Lines.{HasModes, add_name as with_name, add_names as with_names, named_at, names_in, section_after};

use crate::content::read_line;
use crate::error::RuleFileError;
use crate::numbers::number_of;
use crate::written::{Said, Section};
use bajofeki_rules::split_line;
use std::alloc::{AllocError, Global};

/// The mode of the rules above the first section.
pub(crate) const INITIAL: &str = "INITIAL";

// The section of the rules above the first one.
fn initial_section<'text>(alloc: Global) -> Result<Section<'text>, AllocError>
    ensures section { IfOk result (λ section. section_of section ≡ initial) }
{
    let mut modes = Vec::new(alloc);
    modes.push(INITIAL)?;
    Ok(Section::These(modes))
}

// Adds the name, unless it is there.
fn add_name<'text>(modes: &mut Vec<&'text str>, name: &'text str) -> Result<(), AllocError>
    ensures added { OnOk result
        (names_in modes.new.items ≡ with_name (names_in modes.old.items) name.now) }
{
    if number_of(modes, name).is_none() {
        modes.push(name)?;
    }
    Ok(())
}

// Adds those of the names that aren't there yet.
fn add_names<'text>(modes: &mut Vec<&'text str>, names: &[&'text str]) -> Result<(), AllocError>
    ensures added { OnOk result
        (names_in modes.new.items ≡ with_names (names_in modes.old.items) (names_in names.now)) }
{
    for name in names {
        add_name(modes, name)?;
    }
    Ok(())
}

// Adds the modes that the section names.
fn add_modes<'text>(modes: &mut Vec<&'text str>, section: &Section<'text>) -> Result<(), AllocError>
    ensures added { OnOk result (names_in modes.new.items
        ≡ with_names (names_in modes.old.items) (named_by (section_of section.now))) }
{
    match section {
        Section::These(names) => add_names(modes, names),
        Section::Every => Ok(()),
    }
}

// Adds the modes that a line in this section names. The section of the next line.
fn add_line<'text>(
    modes: &mut Vec<&'text str>,
    section: Section<'text>,
    said: Said<'text>,
) -> Result<Section<'text>, AllocError>
    ensures added { OnOk result (names_in modes.new.items ≡ with_names (names_in modes.old.items)
        (named_at (section_of section.entry) (said_of said.entry))) }
    ensures section { IfOk result (λ next.
        section_of next ≡ section_after (section_of section.entry) (said_of said.entry)) }
{
    match said {
        Said::Nothing | Said::Define(_) => Ok(section),
        Said::Heading(next) => {
            add_modes(modes, &next)?;
            Ok(next)
        }
        Said::Rule(_) => {
            add_modes(modes, &section)?;
            Ok(section)
        }
    }
}

// These modes, or INITIAL if there are none.
fn or_initial(modes: Vec<&str>) -> Result<Vec<&str>, AllocError>
    ensures modes { IfOk result (λ all.
        names_in all.items ≡ or_initial_of (names_in modes.entry.items)) }
{
    let mut modes = modes;
    if modes.is_empty() {
        modes.push(INITIAL)?;
    }
    Ok(modes)
}

/// The names of the modes of a file with these lines, in the order in which they first appear.
pub(crate) fn modes_of_lines(alloc: Global, bytes: &[u8]) -> Result<Vec<&str>, RuleFileError>
    ensures modes { IfOk result (λ modes. HasModes (lines bytes.now) (names_in modes.items)) }
    ensures error { IfErr result (λ e. IsRuleFileError bytes.now e) }
{
    let mut modes = Vec::new(alloc);
    let mut section = initial_section(alloc)?;
    let mut number = 0;
    let mut rest = bytes;
    while let Some((line, after)) = split_line(rest) {
        number += 1;
        let line = read_line(alloc, number, line)?;
        section = add_line(&mut modes, section, line.said)?;
        rest = after;
    }
    let modes = or_initial(modes)?;
    Ok(modes)
}
