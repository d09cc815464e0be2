//! A lexer as a source file, into an array.
ghost use Rattle.bajofeki_c.specs.Source.{IsCSource, IsRustSource};

use crate::held::Held;
use crate::page::Page;
use crate::rules::write_to;
use lalrpop_emit::{EmitError, c_source, rust_source};
use std::alloc::Global;
use std::str;

/// Writes the lexer as a source file in C, as `c_source` of `lalrpop_emit` does: as many bytes as fit. Says how many there are.
pub fn c_source_into(held: &Held, alloc: Global, prefix: &[u8], out: &mut [u8]) -> Page
    ensures source { IsCSource held.now prefix.now out.old result out.new }
{
    let Ok(lexer) = &held.made else {
        return Page { code: 9, length: 0 };
    };
    let Ok(prefix) = str::from_utf8(prefix) else {
        return Page { code: 1, length: 0 };
    };
    match c_source(alloc, &lexer.numbers, prefix) {
        Ok(source) => Page {
            code: 0,
            length: write_to(source.as_bytes(), out),
        },
        Err(EmitError::BadPrefix) => Page { code: 1, length: 0 },
        Err(_) => Page { code: 7, length: 0 },
    }
}

/// The same in Rust, as `rust_source` of `lalrpop_emit` does.
pub fn rust_source_into(held: &Held, alloc: Global, out: &mut [u8]) -> Page
    ensures source { IsRustSource held.now out.old result out.new }
{
    let Ok(lexer) = &held.made else {
        return Page { code: 9, length: 0 };
    };
    match rust_source(alloc, &lexer.numbers) {
        Ok(source) => Page {
            code: 0,
            length: write_to(source.as_bytes(), out),
        },
        Err(EmitError::BadVariant { .. }) => Page { code: 1, length: 0 },
        Err(_) => Page { code: 7, length: 0 },
    }
}
