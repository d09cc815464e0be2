//! A text's cut, as it is kept between calls.
ghost use Rattle.std.specs.Prelude.{◌≡◌};
ghost use Rattle.bajofeki_c.specs.Cutting.{IsBegun, WasBegun, begin_code};

use crate::held::Held;
use lalrpop_emit::ByteCutter;
use std::alloc::Global;

/// Why there is no cut.
#[derive(Drop)]
pub enum BeginError {
    /// There is no lexer.
    NoLexer,
    /// A request for memory was refused.
    OutOfMemory,
}

/// A cut, or why there is none.
#[derive(Drop)]
pub struct Cutting {
    pub cutter: Result<ByteCutter, BeginError>,
}

/// Before the first piece of a text of `size` bytes.
pub fn begin(held: &Held, alloc: Global, size: usize) -> Cutting
    ensures begun { IsBegun held.now size result }
{
    let Ok(lexer) = &held.made else {
        return Cutting {
            cutter: Err(BeginError::NoLexer),
        };
    };
    match ByteCutter::new(alloc, &lexer.numbers, size) {
        Ok(cutter) => Cutting { cutter: Ok(cutter) },
        Err(_) => Cutting {
            cutter: Err(BeginError::OutOfMemory),
        },
    }
}

/// 0 if there is a cut, 7 if memory was refused, 9 if there is no lexer.
pub fn code_of(cutting: &Cutting) -> u32
    ensures code { result ≡ begin_code cutting.now }
{
    match &cutting.cutter {
        Ok(_) => 0,
        Err(BeginError::OutOfMemory) => 7,
        Err(BeginError::NoLexer) => 9,
    }
}

/// Before the first piece of another text, of `size` bytes, by this lexer or another. The memory of the cut that there is serves again.
/// Gives its code.
pub fn begin_again(held: &Held, cutting: &mut Cutting, alloc: Global, size: usize) -> u32
    requires cut { WasBegun cutting.old }
    ensures begun { IsBegun held.now size cutting.new }
    ensures code { result ≡ begin_code cutting.new }
{
    if let (Ok(lexer), Ok(cutter)) = (&held.made, &mut cutting.cutter) {
        if cutter.restart(&lexer.numbers, size).is_err() {
            cutting.cutter = Err(BeginError::OutOfMemory);
        }
    } else {
        *cutting = begin(held, alloc, size);
    }
    code_of(cutting)
}

/// Gives the memory of a cut back.
pub fn let_cutting_go(_cutting: Cutting) {}
