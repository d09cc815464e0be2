//! The leftmost longest match anywhere in a text.
ghost use Rattle.std.specs.Prelude.{◌≡◌, Some, IfSome, IfNone, slice_get};
ghost use Rattle.lalrpop_rules.specs.Found.{IsFound, NothingFound};
ghost use Rattle.lalrpop_rules.specs.Modes.{trees_in};
ghost use Rattle.lalrpop_hir.specs.declared.token.Token.{Token as TokenValue};

use lalrpop_rules::RuleLexer;

// Needs lalrpop_rules::RuleLexer::find: found, none, named.
/// Where the first match of some rule begins, and the name of the rule.
pub fn first_name<'rules>(lexer: &'rules RuleLexer, text: &str) -> Option<(usize, &'rules str)>
    ensures found { IfSome result (λ m. (token : TokenValue)
        × (IsFound (trees_in lexer.now 0) lexer.now.precedences text.now token
        × (m.0 ≡ token.start) × (slice_get lexer.now.names token.index ≡ Some m.1.now))) }
    ensures none { IfNone result (NothingFound (trees_in lexer.now 0) text.now) }
{
    match lexer.find(text) {
        Some(token) => match lexer.name(token.index) {
            Some(name) => Some((token.start, name)),
            None => None,
        },
        None => None,
    }
}
