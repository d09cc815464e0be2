//! How strong a pattern is.

/// The strength of a pattern: if two patterns match a word, the one with the greater precedence wins.
///
/// ```
/// use lalrpop_lexer::Lexer;
/// use lalrpop_lexer::lexer::dfa::Precedence;
///
/// // A keyword is a name too, and the stronger of the two.
/// let precedences = vec![in alloc; Precedence(1), Precedence(0)]?;
/// let lexer = Lexer::new(alloc, vec![in alloc; keyword, name]?, precedences)?;
/// ```
#[derive(Copy, Clone, Debug, PartialEq, Eq, PartialOrd, Ord)]
pub struct Precedence(pub usize);
