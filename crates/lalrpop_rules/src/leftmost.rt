//! The leftmost longest match of a text.

ghost use Rattle.std.specs.Prelude.{IfSome, IfNone};
ghost use Rattle.lalrpop_rules.specs.Found.{IsFound, NothingFound};

use lalrpop_lexer::{Lexer, Token};

/// The token at the first place of the text where some pattern matches: the longest nonempty match there, with the one
/// pattern of the greatest precedence that matches it. `None` if no pattern matches anywhere.
///
/// It takes no memory. From each place before the match it reads as far as some pattern could still match, so the cost is at
/// most quadratic in the length of the text.
pub(crate) fn find<'text>(lexer: &Lexer, text: &'text str) -> Option<Token<'text>>
    ensures found { IfSome result (λ token.
        IsFound lexer.now.trees lexer.now.precedences text.now token) }
    ensures none { IfNone result (NothingFound lexer.now.trees text.now) }
{
    for (start, _) in text.char_indices() {
        if let Some(token) = lexer.token(&text[start..]) {
            return Some(Token {
                index: token.index,
                slice: token.slice,
                start,
            });
        }
    }
    None
}
