//! A section of a file of rules: `[A B]` or `[*]`.
ghost use Rattle.std.specs.Prelude.{◌≡◌, ◌<◌, ℕ, List, [], false, length, map, IfOk, OnOk, IfErr};
ghost use Rattle.lalrpop_rule_file.specs.Words.{begins, begins_name as can_begin_name, is_blank};
ghost use Rattle.lalrpop_rule_file.specs.RuleLine.{Listing, Headed, Reads};
ghost use Rattle.lalrpop_rule_file.specs.RuleFault.{StopsBefore};
ghost use Rattle.lalrpop_rule_file.specs.Internal.Values.{section_of};
ghost use Rattle.lalrpop_rule_file.specs.Internal.Stops.{IsListed, IsUnread, before_end};

use crate::error::LineFault;
use crate::span::{Class, split_front};
use crate::stop::{Stop, Unread};
use crate::word::{begins_name, behind};
use crate::written::Section;
use std::alloc::Global;

// The names of modes at the front, and what follows them.
fn mode_names<'text>(
    alloc: Global,
    text: &'text str,
) -> Result<(Vec<&'text str>, &'text str), Unread<'text>>
    requires { begins is_blank text.now ≡ false }
    ensures names { IfOk result (λ m.
        Reads (Listing []) text.now (Listing (map (λ n. n.now) m.0.items)) m.1.now) }
    ensures no_blank { IfOk result (λ m. begins is_blank m.1.now ≡ false) }
    ensures none { IfOk result (λ m. begins can_begin_name m.1.now ≡ false) }
    ensures same { IfOk result (λ m. m.0.items ≡ [] → m.1.now ≡ text.now) }
    ensures unread { IfErr result (λ e. IsUnread (Listing []) text.now e) }
{
    let mut modes = Vec::new(alloc);
    let mut rest = text;
    while begins_name(rest) {
        let (mode, behind) = split_front(rest, Class::Name);
        modes.push(mode)?;
        let (_, here) = split_front(behind, Class::Blank);
        rest = here;
    }
    Ok((modes, rest))
}

// The modes after the `[` of a section, and what follows them.
fn modes_at<'text>(
    alloc: Global,
    text: &'text str,
) -> Result<(Section<'text>, &'text str), Unread<'text>>
    requires { begins is_blank text.now ≡ false }
    ensures modes { IfOk result (λ m.
        Reads (Listing []) text.now (before_end (section_of m.0)) m.1.now) }
    ensures no_blank { IfOk result (λ m. begins is_blank m.1.now ≡ false) }
    ensures listed { IfOk result (λ m. IsListed (section_of m.0) m.1.now) }
    ensures unread { IfErr result (λ e. IsUnread (Listing []) text.now e) }
{
    if let Some(behind) = behind(text, '*') {
        let (_, rest) = split_front(behind, Class::Blank);
        return Ok((Section::Every, rest));
    }
    let (modes, rest) = mode_names(alloc, text)?;
    if modes.is_empty() {
        return Err(Unread::Stopped(Stop {
            fault: LineFault::NoMode,
            rest,
        }));
    }
    Ok((Section::These(modes), rest))
}

// The `]` at the front, which only blanks may follow. A section of these modes stands before it.
fn ended<'text>(section: &Section<'_>, text: &'text str) -> Result<(), Stop<'text>>
    requires no_blank { begins is_blank text.now ≡ false }
    requires listed { IsListed (section_of section.now) text.now }
    ensures ended { OnOk result
        (Reads (before_end (section_of section.now)) text.now
        (Headed (section_of section.now)) []) }
    ensures stops { IfErr result (λ stop.
        StopsBefore (before_end (section_of section.now)) text.now stop.rest.now stop.fault) }
{
    let Some(behind) = behind(text, ']') else {
        return Err(Stop {
            fault: LineFault::NoBracket,
            rest: text,
        });
    };
    let (_, rest) = split_front(behind, Class::Blank);
    if !rest.is_empty() {
        return Err(Stop {
            fault: LineFault::AfterSection,
            rest,
        });
    }
    Ok(())
}

/// The section whose `[` stands before the text.
pub(crate) fn section_behind<'text>(
    alloc: Global,
    text: &'text str,
) -> Result<Section<'text>, Unread<'text>>
    ensures section { IfOk result (λ section.
        Reads (Listing []) text.now (Headed (section_of section)) []) }
    ensures unread { IfErr result (λ e. IsUnread (Listing []) text.now e) }
{
    let (_, here) = split_front(text, Class::Blank);
    let (section, rest) = modes_at(alloc, here)?;
    ended(&section, rest)?;
    Ok(section)
}
