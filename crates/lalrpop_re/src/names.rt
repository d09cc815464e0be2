//! The names of a pattern's groups, which must differ.
ghost use Rattle.std.specs.Prelude.{◌≡◌, ◌++◌, map, length, not, is_some, option_map, IfSome, IfOk, OnOk};
ghost use Rattle.lalrpop_hir.specs.Parts.{trees};
ghost use Rattle.lalrpop_re.specs.GroupName.{name_of, names, all_names, are_distinct, IsFirstRepeated};

use lalrpop_hir::{Hir, HirKind};
use std::alloc::{AllocError, Global};
use std::collections::BTreeSet;

/// The index of the first name that equals an earlier one, among the names of the tree's groups from left to right.
///
/// # Errors
///
/// `AllocError` if a request for memory was refused.
pub fn repeated_name(alloc: Global, tree: &Hir) -> Result<Option<usize>, AllocError>
    ensures repeated { IfOk result (λ place. is_some place ≡ not (are_distinct (names tree.now))) }
    ensures first { IfOk result (λ place. IfSome place (IsFirstRepeated (names tree.now))) }
{
    let mut found = Vec::new(alloc);
    collect_names(tree, &mut found)?;
    first_repeated(alloc, &found)
}

/// How many of the tree's groups have names.
///
/// # Errors
///
/// `AllocError` if a request for memory was refused.
pub fn count_names(alloc: Global, tree: &Hir) -> Result<usize, AllocError>
    ensures { IfOk result (λ count. count ≡ length (names tree.now)) }
{
    let mut found = Vec::new(alloc);
    collect_names(tree, &mut found)?;
    Ok(found.len())
}

// Adds the names of the tree's groups, from left to right.
#[cycle(names)]
#[tactic(auto, unfolding(crate::specs::GroupName::names, crate::specs::GroupName::all_names))]
fn collect_names<'a>(tree: &'a Hir, found: &mut Vec<&'a str>) -> Result<(), AllocError>
    ensures { OnOk result (map (λ n. n.now) found.new.items
        ≡ map (λ n. n.now) found.old.items ++ names tree.now) }
{
    match tree.kind() {
        HirKind::Repetition(repetition) => collect_names(repetition.sub(), found),
        HirKind::Capture(capture) => {
            add_name(capture.name(), found)?;
            collect_names(capture.sub(), found)
        }
        HirKind::Concat(parts) => collect_all(parts, found),
        HirKind::Alternation(parts) => collect_all(parts, found),
        _ => Ok(()),
    }
}

#[cycle(names)]
fn collect_all<'a>(parts: &'a [Hir], found: &mut Vec<&'a str>) -> Result<(), AllocError>
    ensures { OnOk result (map (λ n. n.now) found.new.items
        ≡ map (λ n. n.now) found.old.items ++ all_names (trees parts.now)) }
{
    for part in parts {
        collect_names(part, found)?;
    }
    Ok(())
}

fn add_name<'a>(name: Option<&'a str>, found: &mut Vec<&'a str>) -> Result<(), AllocError>
    ensures { OnOk result (map (λ n. n.now) found.new.items
        ≡ map (λ n. n.now) found.old.items ++ name_of (option_map (λ n. n.now) name.entry)) }
{
    if let Some(name) = name {
        found.push(name)?;
    }
    Ok(())
}

// The index of the first name that equals an earlier one.
fn first_repeated(alloc: Global, found: &[&str]) -> Result<Option<usize>, AllocError>
    ensures repeated { IfOk result (λ place.
        is_some place ≡ not (are_distinct (map (λ n. n.now) found.now))) }
    ensures first { IfOk result (λ place.
        IfSome place (IsFirstRepeated (map (λ n. n.now) found.now))) }
{
    let mut seen = BTreeSet::new(alloc);
    for i in 0..found.len() {
        let is_new = seen.insert(found[i])?;
        if !is_new {
            return Ok(Some(i));
        }
    }
    Ok(None)
}
