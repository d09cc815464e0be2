//! The source file of a lexer in C.
ghost use Rattle.std.specs.List.{list_all};
ghost use Rattle.std.specs.Prelude.{◌≡◌, ◌++◌, ℕ, List, map, decimal, string_bytes, IfOk, IfErr, OnOk};
ghost use Rattle.lalrpop_emit.specs.CSource.{ahead_arrays, ahead_cells, ahead_row, ahead_rows, ahead_text, array, c_file, cell_type, cell_typedef, enumerators, field, filled, flags, is_narrow_ahead, kind_enum, listed, listing, mode_array, mode_arrays, mode_count, name_array, quoted_names, row_arrays, rules_text, table_arrays, table_row, table_rows, tables_text};
ghost use Rattle.lalrpop_emit.specs.NumberedRules.{AreSameInFile, IsStorable, NumberedRules};
ghost use Rattle.lalrpop_emit.specs.Names.{IsIdentifier};
ghost use Rattle.lalrpop_emit.specs.EmitErrors.{IsSourceError};
ghost use Rattle.lalrpop_emit.specs.Internal.Lists.{ahead_numbers, list_numbers};

use crate::ahead_table::AheadLists;
use crate::c_text::{AHEAD, DRIVER, HEAD, TABLE};
use crate::error::EmitError;
use crate::naming::is_identifier;
use crate::numbers::LexerNumbers;
use crate::table_lists::TableLists;
use itoa::Buffer;
use std::alloc::{AllocError, Global};

// How many numbers stand on a line.
const LINE: usize = 16;

/// Writes the number in decimal digits.
///
/// # Errors
///
/// `AllocError` if a request for memory was refused.
pub(crate) fn push_decimal(source: &mut String, number: u64) -> Result<(), AllocError>
    ensures { OnOk result (string_bytes source.new ≡ string_bytes source.old ++ decimal number) }
{
    let mut buffer = Buffer::new();
    source.push_str(buffer.format(number))
}

// A fixed text, with the prefix where it has a `$`.
#[tactic(auto, unfolding(crate::specs::CSource::filled))]
fn push_filled(source: &mut String, prefix: &str, text: &str) -> Result<(), AllocError>
    ensures { OnOk result (string_bytes source.new
        ≡ string_bytes source.old ++ filled prefix.now text.now) }
{
    for c in text.chars() {
        if c == '$' {
            source.push_str(prefix)?;
        } else {
            source.push(c)?;
        }
    }
    Ok(())
}

/// Writes the numbers, each with a comma after it, sixteen on a line.
///
/// # Errors
///
/// `AllocError` if a request for memory was refused.
pub(crate) fn push_listed(source: &mut String, numbers: &[u32]) -> Result<(), AllocError>
    ensures { OnOk result
        (string_bytes source.new ≡ string_bytes source.old ++ listed 0 numbers.now) }
{
    for (place, number) in numbers.iter().enumerate() {
        push_decimal(source, u64::from(*number))?;
        source.push_str(if place % LINE == LINE - 1 {
            ",\n"
        } else {
            ", "
        })?;
    }
    Ok(())
}

#[tactic(auto, unfolding(crate::specs::CSource::listing))]
fn push_listing(source: &mut String, numbers: &[u32]) -> Result<(), AllocError>
    ensures { OnOk result
        (string_bytes source.new ≡ string_bytes source.old ++ listing numbers.now) }
{
    source.push_str("[")?;
    push_decimal(source, numbers.len() as u64)?;
    source.push_str("] = {\n")?;
    push_listed(source, numbers)?;
    source.push_str("};\n")
}

#[tactic(auto, unfolding(crate::specs::CSource::array))]
fn push_array(
    source: &mut String,
    prefix: &str,
    head: &str,
    numbers: &[u32],
) -> Result<(), AllocError>
    ensures { OnOk result (string_bytes source.new
        ≡ string_bytes source.old ++ array prefix.now head.now numbers.now) }
{
    source.push_str("static const ")?;
    push_filled(source, prefix, head)?;
    push_listing(source, numbers)
}

fn push_quoted_names(source: &mut String, names: &[String]) -> Result<(), AllocError>
    ensures { OnOk result (string_bytes source.new
        ≡ string_bytes source.old ++ quoted_names (map string_bytes names.now)) }
{
    for name in names {
        source.push_str("    \"")?;
        source.push_str(name)?;
        source.push_str("\",\n")?;
    }
    Ok(())
}

#[tactic(auto, unfolding(crate::specs::CSource::name_array))]
fn push_name_array(source: &mut String, prefix: &str, names: &[String]) -> Result<(), AllocError>
    ensures { OnOk result (string_bytes source.new
        ≡ string_bytes source.old ++ name_array prefix.now (map string_bytes names.now)) }
{
    push_filled(
        source,
        prefix,
        "#ifndef $_header\nstatic const char *const $_names[",
    )?;
    push_decimal(source, names.len() as u64)?;
    source.push_str("] = {\n")?;
    push_quoted_names(source, names)?;
    source.push_str("};\n")?;
    Ok(())
}

fn push_enumerators(source: &mut String, prefix: &str, names: &[String]) -> Result<(), AllocError>
    ensures { OnOk result (string_bytes source.new
        ≡ string_bytes source.old ++ enumerators prefix.now 0 (map string_bytes names.now)) }
{
    for (kind, name) in names.iter().enumerate() {
        push_filled(source, prefix, "    $_kind_")?;
        source.push_str(name)?;
        source.push_str(" = ")?;
        push_decimal(source, kind as u64)?;
        source.push_str(",\n")?;
    }
    Ok(())
}

#[tactic(auto, unfolding(crate::specs::CSource::kind_enum))]
fn push_kind_enum(source: &mut String, prefix: &str, names: &[String]) -> Result<(), AllocError>
    ensures { OnOk result (string_bytes source.new
        ≡ string_bytes source.old ++ kind_enum prefix.now (map string_bytes names.now)) }
{
    source.push_str("#endif\nenum {\n")?;
    push_enumerators(source, prefix, names)?;
    push_filled(source, prefix, "    $_fault = -1\n};\n#ifndef $_header\n")?;
    Ok(())
}

/// 1 for true, and 0 for false.
///
/// # Errors
///
/// `AllocError` if a request for memory was refused.
pub(crate) fn flag_numbers(alloc: Global, bits: &[bool]) -> Result<Vec<u32>, AllocError>
    ensures { IfOk result (λ numbers. numbers.items ≡ flags bits.now) }
{
    bits.iter()
        .map(|bit| if *bit { 1 } else { 0 })
        .collect(alloc)
}

// The names, kinds, skips and actions of the rules.
#[tactic(auto, unfolding(crate::specs::CSource::rules_text))]
fn push_rules(
    alloc: Global,
    source: &mut String,
    prefix: &str,
    numbers: &LexerNumbers,
) -> Result<(), AllocError>
    ensures { OnOk result (string_bytes source.new
        ≡ string_bytes source.old ++ rules_text prefix.now numbers.now) }
{
    push_name_array(source, prefix, numbers.names())?;
    push_kind_enum(source, prefix, numbers.names())?;
    let skipped = flag_numbers(alloc, numbers.skips())?;
    let first_actions = numbers.first_actions();
    push_array(source, prefix, "uint16_t $_kinds", numbers.kinds())?;
    push_array(source, prefix, "uint8_t $_skipped", &skipped)?;
    push_array(source, prefix, "uint32_t $_first_actions", first_actions)?;
    push_array(source, prefix, "uint32_t $_actions", numbers.actions())?;
    Ok(())
}

// Whether all cells of the table fit 16 bits.
fn is_narrow_ahead(ahead: &AheadLists) -> bool
    ensures { result ≡ is_narrow_ahead (ahead_numbers ahead.now) }
{
    ahead.cells.iter().all(|cell| *cell < 65536)
}

/// Whether all cells of all tables that run ahead fit 16 bits.
pub(crate) fn are_narrow_ahead(aheads: &[AheadLists]) -> bool
    ensures { result ≡ list_all is_narrow_ahead (map ahead_numbers aheads.now) }
{
    for ahead in aheads {
        if !is_narrow_ahead(ahead) {
            return false;
        }
    }
    true
}

// The type of the cells.
#[tactic(auto, unfolding(crate::specs::CSource::cell_type))]
fn cell_type_of(narrow: bool) -> &'static str
    ensures { result.now ≡ cell_type narrow }
{
    if narrow { "uint16_t" } else { "uint32_t" }
}

#[tactic(auto, unfolding(crate::specs::CSource::cell_typedef))]
fn push_cell_typedef(
    source: &mut String,
    prefix: &str,
    narrow: bool,
    name: &str,
) -> Result<(), AllocError>
    ensures { OnOk result (string_bytes source.new
        ≡ string_bytes source.old ++ cell_typedef prefix.now narrow name.now) }
{
    source.push_str("#endif\ntypedef ")?;
    source.push_str(cell_type_of(narrow))?;
    source.push_str(" ")?;
    push_filled(source, prefix, name)
}

#[tactic(auto, unfolding(crate::specs::CSource::mode_count))]
fn push_mode_count(source: &mut String, prefix: &str, count: usize) -> Result<(), AllocError>
    ensures { OnOk result (string_bytes source.new
        ≡ string_bytes source.old ++ mode_count prefix.now count) }
{
    push_filled(source, prefix, "enum { $_modes = ")?;
    push_decimal(source, count as u64)?;
    source.push_str(" };\n")?;
    Ok(())
}

#[tactic(auto, unfolding(crate::specs::CSource::mode_array))]
fn push_mode_array(
    source: &mut String,
    prefix: &str,
    head: &str,
    mode: usize,
    numbers: &[u32],
) -> Result<(), AllocError>
    ensures { OnOk result (string_bytes source.new
        ≡ string_bytes source.old ++ mode_array prefix.now head.now mode numbers.now) }
{
    source.push_str("static const ")?;
    push_filled(source, prefix, head)?;
    push_decimal(source, mode as u64)?;
    push_listing(source, numbers)
}

#[tactic(auto, unfolding(crate::specs::CSource::mode_arrays))]
fn push_mode_arrays(
    source: &mut String,
    prefix: &str,
    mode: usize,
    table: &TableLists,
) -> Result<(), AllocError>
    ensures { OnOk result (string_bytes source.new
        ≡ string_bytes source.old ++ mode_arrays prefix.now mode (list_numbers table.now)) }
{
    push_mode_array(source, prefix, "uint8_t $_blocks_", mode, &table.blocks)?;
    push_mode_array(source, prefix, "uint16_t $_pages_", mode, &table.pages)?;
    Ok(())
}

fn push_table_arrays(
    source: &mut String,
    prefix: &str,
    tables: &[TableLists],
) -> Result<(), AllocError>
    ensures { OnOk result (string_bytes source.new
        ≡ string_bytes source.old ++ table_arrays prefix.now 0 (map list_numbers tables.now)) }
{
    for (mode, table) in tables.iter().enumerate() {
        push_mode_arrays(source, prefix, mode, table)?;
    }
    Ok(())
}

#[tactic(auto, unfolding(crate::specs::CSource::field))]
fn push_field(source: &mut String, number: usize) -> Result<(), AllocError>
    ensures { OnOk result (string_bytes source.new ≡ string_bytes source.old ++ field number) }
{
    source.push_str(", ")?;
    push_decimal(source, number as u64)
}

#[tactic(auto, unfolding(crate::specs::CSource::row_arrays))]
fn push_row_arrays(source: &mut String, prefix: &str, mode: usize) -> Result<(), AllocError>
    ensures { OnOk result (string_bytes source.new
        ≡ string_bytes source.old ++ row_arrays prefix.now mode) }
{
    push_filled(source, prefix, "    {$_blocks_")?;
    push_decimal(source, mode as u64)?;
    push_filled(source, prefix, ", $_pages_")?;
    push_decimal(source, mode as u64)?;
    Ok(())
}

#[tactic(auto, unfolding(crate::specs::CSource::table_row))]
fn push_table_row(
    source: &mut String,
    prefix: &str,
    mode: usize,
    table: &TableLists,
) -> Result<(), AllocError>
    ensures { OnOk result (string_bytes source.new
        ≡ string_bytes source.old ++ table_row prefix.now mode (list_numbers table.now)) }
{
    push_row_arrays(source, prefix, mode)?;
    push_field(source, table.pages.len().saturating_sub(1))?;
    source.push_str("},\n")?;
    Ok(())
}

fn push_table_rows(
    source: &mut String,
    prefix: &str,
    tables: &[TableLists],
) -> Result<(), AllocError>
    ensures { OnOk result (string_bytes source.new
        ≡ string_bytes source.old ++ table_rows prefix.now 0 (map list_numbers tables.now)) }
{
    for (mode, table) in tables.iter().enumerate() {
        push_table_row(source, prefix, mode, table)?;
    }
    Ok(())
}

#[tactic(auto, unfolding(crate::specs::CSource::tables_text))]
fn push_tables(source: &mut String, prefix: &str, tables: &[TableLists]) -> Result<(), AllocError>
    ensures { OnOk result (string_bytes source.new
        ≡ string_bytes source.old ++ tables_text prefix.now (map list_numbers tables.now)) }
{
    push_filled(source, prefix, TABLE)?;
    push_mode_count(source, prefix, tables.len())?;
    push_table_arrays(source, prefix, tables)?;
    push_filled(
        source,
        prefix,
        "static const $_table $_tables[$_modes] = {\n",
    )?;
    push_table_rows(source, prefix, tables)?;
    source.push_str("};\n")?;
    Ok(())
}

fn push_ahead_cells(
    source: &mut String,
    prefix: &str,
    mode: usize,
    ahead: &AheadLists,
) -> Result<(), AllocError>
    ensures { OnOk result (string_bytes source.new
        ≡ string_bytes source.old ++ ahead_cells prefix.now mode (ahead_numbers ahead.now)) }
{
    push_mode_array(
        source,
        prefix,
        "$_ahead_cell $_ahead_cells_",
        mode,
        &ahead.cells,
    )?;
    Ok(())
}

fn push_ahead_arrays(
    source: &mut String,
    prefix: &str,
    aheads: &[AheadLists],
) -> Result<(), AllocError>
    ensures { OnOk result (string_bytes source.new
        ≡ string_bytes source.old ++ ahead_arrays prefix.now 0 (map ahead_numbers aheads.now)) }
{
    for (mode, ahead) in aheads.iter().enumerate() {
        push_ahead_cells(source, prefix, mode, ahead)?;
    }
    Ok(())
}

fn push_ahead_row(
    source: &mut String,
    prefix: &str,
    mode: usize,
    ahead: &AheadLists,
) -> Result<(), AllocError>
    ensures { OnOk result (string_bytes source.new
        ≡ string_bytes source.old ++ ahead_row prefix.now mode (ahead_numbers ahead.now)) }
{
    push_filled(source, prefix, "    {$_ahead_cells_")?;
    push_decimal(source, mode as u64)?;
    push_field(source, ahead.start)?;
    push_field(source, ahead.width)?;
    push_field(source, ahead.ends)?;
    push_field(source, ahead.waiting)?;
    push_field(source, ahead.before)?;
    source.push_str("},\n")?;
    Ok(())
}

fn push_ahead_rows(
    source: &mut String,
    prefix: &str,
    aheads: &[AheadLists],
) -> Result<(), AllocError>
    ensures { OnOk result (string_bytes source.new
        ≡ string_bytes source.old ++ ahead_rows prefix.now 0 (map ahead_numbers aheads.now)) }
{
    for (mode, ahead) in aheads.iter().enumerate() {
        push_ahead_row(source, prefix, mode, ahead)?;
    }
    Ok(())
}

#[tactic(auto, unfolding(crate::specs::CSource::ahead_text))]
fn push_ahead(source: &mut String, prefix: &str, aheads: &[AheadLists]) -> Result<(), AllocError>
    ensures { OnOk result (string_bytes source.new
        ≡ string_bytes source.old ++ ahead_text prefix.now (map ahead_numbers aheads.now)) }
{
    push_cell_typedef(source, prefix, are_narrow_ahead(aheads), "$_ahead_cell;\n")?;
    push_filled(source, prefix, AHEAD)?;
    push_ahead_arrays(source, prefix, aheads)?;
    push_filled(
        source,
        prefix,
        "static const $_ahead $_aheads[$_modes] = {\n",
    )?;
    push_ahead_rows(source, prefix, aheads)?;
    source.push_str("};\n")?;
    Ok(())
}

#[tactic(auto, unfolding(crate::specs::CSource::c_file))]
fn source_text(alloc: Global, numbers: &LexerNumbers, prefix: &str) -> Result<String, AllocError>
    ensures file { IfOk result (λ source. string_bytes source ≡ c_file prefix.now numbers.now) }
    ensures storable { IfOk result (λ source. IsStorable numbers.now) }
{
    let mut source = String::from_str(alloc, "/* ")?;
    source.push_str(prefix)?;
    source.push_str(":")?;
    source.push_str(HEAD)?;
    push_rules(alloc, &mut source, prefix, numbers)?;
    push_tables(&mut source, prefix, numbers.tables())?;
    push_ahead(&mut source, prefix, numbers.ahead())?;
    push_filled(&mut source, prefix, DRIVER)?;
    Ok(source)
}

/// The source file of the lexer in C, one file to include or compile. It is C99 and C++, and takes no memory.
///
/// All names in it begin with the prefix, here `lex`. `lex_begin` gives a `lex_lexer` at the beginning of a text. `lex_next`
/// writes one `lex_piece` after another and returns 1; at the end of the text it returns 0. A piece has its `kind`, the index
/// of its `rule`, and its `start` and `length` in bytes. The kind of the rules named `IF` is `lex_kind_IF`; that of a fault,
/// which is bytes at none of which a rule matches, is `lex_fault`. `lex_skips` says whether a rule is skipped, and `lex_name`
/// what a kind is called. Bytes that aren't UTF-8 match nothing.
///
/// The lexer does the actions of the rules, with room for 1,024 modes below the one on top. Where a token puts on more,
/// `lex_next` returns -1, and stays before that token. `LexerNumbers::pieces` has the same pieces.
///
/// The file has the numbers that it cuts by. No others have this file: whoever reads it has them.
///
/// ```
/// use lalrpop_emit::{LexerNumbers, c_source};
///
/// let numbers = LexerNumbers::new(alloc, &rules)?;
/// let source = c_source(alloc, &numbers, "lex")?; // `/* lex: a lexer in C, ..`
/// ```
///
/// # Errors
///
/// `BadPrefix` if the prefix isn't an identifier, or out of memory.
pub fn c_source(alloc: Global, numbers: &LexerNumbers, prefix: &str) -> Result<String, EmitError>
    ensures file { IfOk result (λ source. string_bytes source ≡ c_file prefix.now numbers.now) }
    ensures identifier { IfOk result (λ source. IsIdentifier prefix.now) }
    ensures only { IfOk result (λ source. (p : List ℕ) (r : NumberedRules) → IsIdentifier p
        → IsStorable r → string_bytes source ≡ c_file p r
        → (p ≡ prefix.now) × AreSameInFile r numbers.now) }
    ensures error { IfErr result (IsSourceError prefix.now) }
{
    if !is_identifier(prefix) {
        return Err(EmitError::BadPrefix);
    }
    let source = source_text(alloc, numbers, prefix)?;
    Ok(source)
}
