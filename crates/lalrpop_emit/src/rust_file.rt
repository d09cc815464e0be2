//! The source file of a lexer in Rust.
ghost use Rattle.std.specs.List.{All, list_any};
ghost use Rattle.std.specs.Str.{bytes_eq};
ghost use Rattle.std.specs.Prelude.{◌≡◌, ◌↔◌, ◌++◌, map, string_bytes, IfOk, IfErr, OnOk, IsTrue, MatchOption};
ghost use Rattle.lalrpop_emit.specs.RustSource.{IsVariant, IsFirstBadVariant, IsRustError, ahead_text, ahead_texts, cell_type, kind_enum, list_field, name_fields, name_lines, number_field, numbers_text, reserved, rust_file, table_text, table_texts};
ghost use Rattle.lalrpop_emit.specs.NumberedRules.{AreSameInFile, IsStorable, NumberedRules};
ghost use Rattle.lalrpop_emit.specs.Internal.Lists.{ahead_numbers, list_numbers};

use crate::ahead_table::AheadLists;
use crate::c_file::{are_narrow_ahead, flag_numbers, push_decimal, push_listed};
use crate::error::EmitError;
use crate::naming::is_identifier;
use crate::numbers::LexerNumbers;
use crate::rust_text::{DRIVER, HEAD, INTERFACE};
use crate::table_lists::TableLists;
use std::alloc::{AllocError, Global};

// Whether the word names nothing even after `r#`.
fn is_reserved(name: &str) -> bool
    ensures { result ≡ list_any (bytes_eq name.now) reserved }
{
    name == "_" || name == "self" || name == "super" || name == "crate" || name == "Self"
}

// Whether the name can be that of a variant after `r#`.
fn is_variant(name: &str) -> bool
    ensures { IsTrue result ↔ IsVariant name.now }
{
    is_identifier(name) && !is_reserved(name)
}

// The first name that can't be that of a variant, if there is one.
fn first_bad_variant(names: &[String]) -> Option<usize>
    ensures { MatchOption result (All IsVariant (map string_bytes names.now))
        (λ k. IsFirstBadVariant (map string_bytes names.now) k) }
{
    for (kind, name) in names.iter().enumerate() {
        if !is_variant(name) {
            return Some(kind);
        }
    }
    None
}

fn push_name_lines(
    source: &mut String,
    before: &str,
    behind: &str,
    names: &[String],
) -> Result<(), AllocError>
    ensures { OnOk result (string_bytes source.new
        ≡ string_bytes source.old ++ name_lines before.now behind.now
        (map string_bytes names.now)) }
{
    for name in names {
        source.push_str(before)?;
        source.push_str(name)?;
        source.push_str(behind)?;
    }
    Ok(())
}

#[tactic(auto, unfolding(crate::specs::RustSource::kind_enum))]
fn push_kind_enum(source: &mut String, names: &[String]) -> Result<(), AllocError>
    ensures { OnOk result (string_bytes source.new
        ≡ string_bytes source.old ++ kind_enum (map string_bytes names.now)) }
{
    source.push_str("pub enum Kind {\n")?;
    push_name_lines(source, "    r#", ",\n", names)?;
    source.push_str("}\n")?;
    Ok(())
}

#[tactic(auto, unfolding(crate::specs::RustSource::name_fields))]
fn push_name_fields(source: &mut String, names: &[String]) -> Result<(), AllocError>
    ensures { OnOk result (string_bytes source.new
        ≡ string_bytes source.old ++ name_fields (map string_bytes names.now)) }
{
    source.push_str("    variants: &[\n")?;
    push_name_lines(source, "        Kind::r#", ",\n", names)?;
    source.push_str("    ],\n    names: &[\n")?;
    push_name_lines(source, "        \"", "\",\n", names)?;
    source.push_str("    ],\n")?;
    Ok(())
}

#[tactic(auto, unfolding(crate::specs::RustSource::number_field))]
fn push_number_field(source: &mut String, name: &str, number: usize) -> Result<(), AllocError>
    ensures { OnOk result (string_bytes source.new
        ≡ string_bytes source.old ++ number_field name.now number) }
{
    source.push_str(name)?;
    source.push_str(": ")?;
    push_decimal(source, number as u64)?;
    source.push_str(",\n")
}

#[tactic(auto, unfolding(crate::specs::RustSource::list_field))]
fn push_list_field(source: &mut String, name: &str, numbers: &[u32]) -> Result<(), AllocError>
    ensures { OnOk result (string_bytes source.new
        ≡ string_bytes source.old ++ list_field name.now numbers.now) }
{
    source.push_str(name)?;
    source.push_str(": &[\n")?;
    push_listed(source, numbers)?;
    source.push_str("],\n")
}

#[tactic(auto, unfolding(crate::specs::RustSource::table_text))]
fn push_table(source: &mut String, table: &TableLists) -> Result<(), AllocError>
    ensures { OnOk result (string_bytes source.new
        ≡ string_bytes source.old ++ table_text (list_numbers table.now)) }
{
    source.push_str("        Table {\n")?;
    push_list_field(source, "            blocks", &table.blocks)?;
    push_list_field(source, "            pages", &table.pages)?;
    source.push_str("        },\n")?;
    Ok(())
}

fn push_tables(source: &mut String, tables: &[TableLists]) -> Result<(), AllocError>
    ensures { OnOk result (string_bytes source.new
        ≡ string_bytes source.old ++ table_texts (map list_numbers tables.now)) }
{
    for table in tables {
        push_table(source, table)?;
    }
    Ok(())
}

// The type of the cells.
#[tactic(auto, unfolding(crate::specs::RustSource::cell_type))]
fn cell_type_of(narrow: bool) -> &'static str
    ensures { result.now ≡ cell_type narrow }
{
    if narrow { "u16" } else { "u32" }
}

#[tactic(auto, unfolding(crate::specs::RustSource::ahead_text))]
fn push_ahead(source: &mut String, ahead: &AheadLists) -> Result<(), AllocError>
    ensures { OnOk result (string_bytes source.new
        ≡ string_bytes source.old ++ ahead_text (ahead_numbers ahead.now)) }
{
    source.push_str("        Ahead {\n")?;
    push_number_field(source, "            start", ahead.start)?;
    push_number_field(source, "            width", ahead.width)?;
    push_number_field(source, "            ends", ahead.ends)?;
    push_number_field(source, "            waiting", ahead.waiting)?;
    push_number_field(source, "            before", ahead.before)?;
    push_list_field(source, "            cells", &ahead.cells)?;
    source.push_str("        },\n")?;
    Ok(())
}

fn push_aheads(source: &mut String, aheads: &[AheadLists]) -> Result<(), AllocError>
    ensures { OnOk result (string_bytes source.new
        ≡ string_bytes source.old ++ ahead_texts (map ahead_numbers aheads.now)) }
{
    for ahead in aheads {
        push_ahead(source, ahead)?;
    }
    Ok(())
}

#[tactic(auto, unfolding(crate::specs::RustSource::numbers_text))]
fn push_numbers(
    alloc: Global,
    source: &mut String,
    numbers: &LexerNumbers,
) -> Result<(), AllocError>
    ensures text { OnOk result (string_bytes source.new
        ≡ string_bytes source.old ++ numbers_text numbers.now) }
    ensures storable { OnOk result (IsStorable numbers.now) }
{
    let skipped = flag_numbers(alloc, numbers.skips())?;
    source.push_str("#[rustfmt::skip]\nstatic NUMBERS: Numbers = Numbers {\n")?;
    push_name_fields(source, numbers.names())?;
    push_list_field(source, "    kinds", numbers.kinds())?;
    push_list_field(source, "    skipped", &skipped)?;
    push_list_field(source, "    first_actions", numbers.first_actions())?;
    push_list_field(source, "    actions", numbers.actions())?;
    source.push_str("    tables: &[\n")?;
    push_tables(source, numbers.tables())?;
    source.push_str("    ],\n    ahead: &[\n")?;
    push_aheads(source, numbers.ahead())?;
    source.push_str("    ],\n};\n")?;
    Ok(())
}

#[tactic(auto, unfolding(crate::specs::RustSource::rust_file))]
fn source_text(alloc: Global, numbers: &LexerNumbers) -> Result<String, AllocError>
    ensures file { IfOk result (λ source. string_bytes source ≡ rust_file numbers.now) }
    ensures storable { IfOk result (λ source. IsStorable numbers.now) }
{
    let mut source = String::from_str(alloc, HEAD)?;
    push_kind_enum(&mut source, numbers.names())?;
    source.push_str(INTERFACE)?;
    source.push_str(DRIVER)?;
    source.push_str("\ntype AheadCell = ")?;
    source.push_str(cell_type_of(are_narrow_ahead(numbers.ahead())))?;
    source.push_str(";\n\n")?;
    push_numbers(alloc, &mut source, numbers)?;
    Ok(source)
}

/// The source file of the lexer in Rust, one module. It is for Rust 1.81 or later and the editions from 2018 on, uses `core`
/// alone, has no `unsafe`, and takes no memory.
///
/// `Lexer::new(text.as_bytes())` is an iterator of `Result<Piece, TooDeep>`. A piece has its `kind`, the index of its `rule`,
/// and its `start` and `length` in bytes; `range()` is where its bytes stand. Rules named `IF` have the kind `Kind::IF`, rules
/// named `if` the kind `Kind::r#if`, like all names that are words of Rust, and a fault, which is bytes at none of which a rule
/// matches, has the kind `None`. `is_skipped` says whether a piece's rule is skipped, and `name` what a kind is
/// called. Bytes that aren't UTF-8 match nothing. `TooDeep`, the last item where it comes, means that more than 1024 modes
/// would lie below the one on top. `LexerNumbers::pieces` has the same pieces.
///
/// The file has the numbers that it cuts by. No others have this file: whoever reads it has them.
///
/// ```
/// use lalrpop_emit::{LexerNumbers, rust_source};
///
/// let numbers = LexerNumbers::new(alloc, &rules)?;
/// let source = rust_source(alloc, &numbers)?; // `// A lexer in Rust, ..`
/// ```
///
/// # Errors
///
/// `BadVariant` if a name can't be that of a variant, or out of memory.
pub fn rust_source(alloc: Global, numbers: &LexerNumbers) -> Result<String, EmitError>
    ensures file { IfOk result (λ source. string_bytes source ≡ rust_file numbers.now) }
    ensures variants { OnOk result (All IsVariant numbers.now.names) }
    ensures only { IfOk result (λ source. (r : NumberedRules) → IsStorable r
        → string_bytes source ≡ rust_file r → AreSameInFile r numbers.now) }
    ensures error { IfErr result (IsRustError numbers.now.names) }
{
    if let Some(kind) = first_bad_variant(numbers.names()) {
        return Err(EmitError::BadVariant { kind });
    }
    let source = source_text(alloc, numbers)?;
    Ok(source)
}
