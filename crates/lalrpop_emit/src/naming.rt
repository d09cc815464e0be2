//! The names of rules.
ghost use Rattle.std.specs.Prelude.{◌≡◌, ◌<◌, ◌≤◌, ◌^◌, ℕ, List, map, string_bytes, length, IfOk, IsTrue, ◌↔◌, MatchOption, Some, slice_get};
ghost use Rattle.std.specs.List.{All, list_all};
ghost use Rattle.lalrpop_emit.specs.Names.{IsIdentifier, IsName, is_name_byte, place_of_name, distinct_names as distinct_of, kinds_of};
ghost use Rattle.lalrpop_emit.specs.EmitErrors.{IsFirstBadName};

use std::alloc::{AllocError, Global};

// Whether all bytes can stand in a name.
fn are_name_bytes(bytes: &[u8]) -> bool
    ensures { result ≡ list_all is_name_byte bytes.now }
{
    bytes
        .iter()
        .all(|byte| byte.is_ascii_alphanumeric() || *byte == b'_')
}

// Whether the name can be part of an identifier.
fn is_name(name: &str) -> bool
    ensures { IsTrue result ↔ IsName name.now }
{
    !name.is_empty() && are_name_bytes(name.as_bytes())
}

/// Whether the name is an identifier.
pub(crate) fn is_identifier(name: &str) -> bool
    ensures { IsTrue result ↔ IsIdentifier name.now }
{
    is_name(name) && !name.as_bytes()[0].is_ascii_digit()
}

/// The first name that can't be part of an identifier, if there is one.
pub(crate) fn first_bad_name(names: &[String]) -> Option<usize>
    ensures { MatchOption result (All IsName (map string_bytes names.now))
        (λ i. IsFirstBadName (map string_bytes names.now) i) }
{
    for (rule, name) in names.iter().enumerate() {
        if !is_name(name) {
            return Some(rule);
        }
    }
    None
}

// Where the name stands among the others, or how many they are.
fn place_of(names: &[String], name: &str) -> usize
    ensures place { result ≡ place_of_name (map string_bytes names.now) name.now }
    ensures within { result ≤ length names.now }
{
    for (place, other) in names.iter().enumerate() {
        if name == other.as_str() {
            return place;
        }
    }
    names.len()
}

/// Each name once, in the order in which they first come.
///
/// # Errors
///
/// `AllocError` if a request for memory was refused.
pub(crate) fn distinct_names(alloc: Global, names: &[String]) -> Result<Vec<String>, AllocError>
    ensures { IfOk result
        (λ all. map string_bytes all.items ≡ distinct_of (map string_bytes names.now)) }
{
    let mut distinct = Vec::new(alloc);
    for name in names {
        if place_of(&distinct, name) == distinct.len() {
            let name = String::from_str(alloc, name)?;
            distinct.push(name)?;
        }
    }
    Ok(distinct)
}

/// For each name its place among the distinct ones.
///
/// # Errors
///
/// `AllocError` if a request for memory was refused.
pub(crate) fn kind_list(
    alloc: Global,
    distinct: &[String],
    names: &[String],
) -> Result<Vec<u32>, AllocError>
    requires distinct { map string_bytes distinct.now ≡ distinct_of (map string_bytes names.now) }
    requires few { length names.now < 2 ^ 16 }
    ensures kinds { IfOk result (λ kinds. kinds.items ≡ kinds_of (map string_bytes names.now)) }
    ensures small { IfOk result (λ kinds. All (λ n. n < 2 ^ 16) kinds.items) }
{
    let mut kinds = Vec::new(alloc);
    for name in names {
        kinds.push(place_of(distinct, name) as u32)?;
    }
    Ok(kinds)
}
