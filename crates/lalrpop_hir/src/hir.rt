//! Trees of patterns: their constructors, and a view of one level.
ghost use Rattle.std.specs.Prelude.{◌≡◌, ◌≢◌, ◌≤◌, IfOk, map, Option, option_map, List, [], string_bytes};
ghost use Rattle.std.specs.Str.{chars};
ghost use Rattle.lalrpop_hir.specs.Counts.{AreOrdered};
ghost use Rattle.lalrpop_hir.specs.Level.{class_of, kind_tree};
ghost use Rattle.lalrpop_hir.specs.Tree.{empty, literal, class, look, repetition, capture, concat, alternation};
ghost use Rattle.lalrpop_hir.specs.Parts.{trees, of_text};

mod group;
mod repetitions;

use crate::class::Class;
use crate::look::Look;
use std::alloc::{AllocError, Global};
use std::marker::Model;

/// A text that matches itself. It is never empty.
///
/// ```
/// use lalrpop_lexer::lexer::re::{Hir, HirKind};
///
/// let tree = Hir::literal(alloc, "if")?;
/// if let HirKind::Literal(literal) = tree.kind() {
///     let text = literal.as_str(); // "if"
/// }
/// ```
#[derive(Clone, Debug, Drop)]
pub struct Literal {
    text: String,
}

impl Model for Literal {
    ghost use Rattle.std.specs.Prelude.{List, ℕ, ◌≢◌, [], string_bytes};

    ghost Value = { List ℕ };

    ghost view = { λ a. string_bytes a.text };

    ghost invariant = { λ a. string_bytes a.text ≢ [] };
}

impl Literal {
    /// The text, never empty.
    pub fn as_str(&self) -> &str
        ensures value { result.now ≡ self.now }
        ensures not_empty { self.now ≢ [] }
    {
        self.text.as_str()
    }
}

/// A pattern as a tree. It is immutable, and made by the constructors below.
///
/// ```
/// use lalrpop_lexer::lexer::re::Hir;
///
/// // The tree of `if|`, which matches "if" and the empty text.
/// let branches = vec![in alloc; Hir::literal(alloc, "if")?, Hir::empty()]?;
/// let tree = Hir::alternation(branches);
/// ```
#[derive(Debug, Drop)]
#[cycle(tree)]
pub struct Hir {
    pub(crate) kind: HirKind,
}

/// A regular expression, under the name that the layers above use.
pub type Regex = Hir;

/// The top of a tree, with the trees below it.
///
/// ```
/// use lalrpop_lexer::lexer::re::{Hir, HirKind};
///
/// let tree = Hir::alternation(vec![in alloc; Hir::literal(alloc, "if")?, Hir::empty()]?);
/// let count = match tree.kind() {
///     HirKind::Alternation(branches) => branches.len(), // 2
///     _ => 0,
/// };
/// ```
#[derive(Debug, Drop)]
#[cycle(tree)]
pub enum HirKind {
    /// Matches only the empty text.
    Empty,
    /// Matches only its text.
    Literal(Literal),
    /// Matches one value of the set.
    Class(Class),
    /// Requires something of a position.
    Look(Look),
    /// Matches a number of pieces, one after another, each matched by its part.
    Repetition(Repetition),
    /// Matches what its part matches.
    Capture(Capture),
    /// Matches one piece for each part, in order; with no parts, only the empty text.
    Concat(Vec<Hir>),
    /// Matches what any of its parts matches; with no parts, nothing.
    Alternation(Vec<Hir>),
}

/// A part that is matched a number of times in a row: at least `min` times, and at most `max` times if there is
/// a `max`, which is never below `min`.
///
/// ```
/// use lalrpop_lexer::lexer::re::{Hir, Repetition};
///
/// // The tree of `a{2,3}`.
/// let part = Box::new(alloc, Hir::literal(alloc, "a")?)?;
/// let tree = Hir::repetition(Repetition::new(2, Some(3), true, part));
/// ```
#[derive(Debug, Drop)]
#[cycle(tree)]
pub struct Repetition {
    pub(crate) min: u32,
    pub(crate) max: Option<u32>,
    pub(crate) greedy: bool,
    pub(crate) sub: Box<Hir>,
}

/// A group, with or without a name.
///
/// ```
/// use lalrpop_lexer::lexer::re::{Capture, Hir};
///
/// // The tree of `(if)`.
/// let part = Box::new(alloc, Hir::literal(alloc, "if")?)?;
/// let tree = Hir::capture(Capture::new(None, part));
/// ```
#[derive(Debug, Drop)]
#[cycle(tree)]
pub struct Capture {
    pub(crate) name: Option<String>,
    pub(crate) sub: Box<Hir>,
}

impl Model for Hir {
    ghost use Rattle.std.proofs.Common.{arith};
    ghost use Rattle.lalrpop_hir.specs.Tree.{Tree};
    ghost use Rattle.lalrpop_hir.specs.Internal.Depth.{depth};
    ghost use Rattle.lalrpop_hir.specs.Internal.Code.{tree_code};

    ghost Value = { Tree };

    ghost coded = { tree_code };

    ghost use Rattle.lalrpop_hir.specs.Level.{kind_tree};

    ghost view = { λ a. kind_tree a.kind };

    ghost size = { depth };

    ghost use Rattle.lalrpop_hir.specs.Internal.TreeFalls.{deep-le-depth};

    ghost size_decreases = { λ a h. Prim.omega (arith, deep-le-depth a.kind) };
}

impl Model for Repetition {
    ghost use Rattle.std.specs.Prelude.{◌+◌};
    ghost use Rattle.std.proofs.Common.{arith};
    ghost use Rattle.lalrpop_hir.specs.Counts.{AreOrdered};
    ghost use Rattle.lalrpop_hir.specs.Parts.{Repeated};
    ghost use Rattle.lalrpop_hir.specs.Internal.Depth.{depth};
    ghost use Rattle.lalrpop_hir.specs.Internal.Code.{repeated_code};

    ghost Value = { Repeated };

    ghost coded = { repeated_code };

    ghost view = { λ a. record { min = a.min; max = a.max; greedy = a.greedy; sub = a.sub.value } };

    ghost invariant = { λ a. AreOrdered a.min a.max };

    ghost size = { λ r. depth r.sub + 1 };

    ghost size_decreases = { λ a h. Prim.omega arith };
}

impl Model for Capture {
    ghost use Rattle.std.specs.Prelude.{◌+◌, option_map, string_bytes};
    ghost use Rattle.std.proofs.Common.{arith};
    ghost use Rattle.lalrpop_hir.specs.Parts.{Captured};
    ghost use Rattle.lalrpop_hir.specs.Internal.Depth.{depth};
    ghost use Rattle.lalrpop_hir.specs.Internal.Code.{captured_code};

    ghost Value = { Captured };

    ghost coded = { captured_code };

    ghost view = { λ a. record { name = option_map string_bytes a.name; sub = a.sub.value } };

    ghost size = { λ r. depth r.sub + 1 };

    ghost size_decreases = { λ a h. Prim.omega arith };
}

impl Hir {
    /// The tree that matches only the empty text.
    pub fn empty() -> Hir
        ensures tree { result ≡ empty }
    {
        Hir {
            kind: HirKind::Empty,
        }
    }

    /// The tree that matches only the text `s`: a literal, or the empty tree if `s` is empty.
    ///
    /// # Errors
    ///
    /// `AllocError` if a request for memory was refused.
    pub fn literal(alloc: Global, s: &str) -> Result<Hir, AllocError>
        ensures tree { IfOk result (λ t. t ≡ of_text s.now) }
    {
        if s.is_empty() {
            return Ok(Hir::empty());
        }
        let text = String::from_str(alloc, s)?;
        Ok(Hir {
            kind: HirKind::Literal(Literal { text }),
        })
    }

    /// The tree that matches one value of `members`: the code value of a character, or a byte.
    pub fn class(members: Class) -> Hir
        ensures tree { result ≡ class (class_of members) }
    {
        Hir {
            kind: HirKind::Class(members),
        }
    }

    /// The tree that requires `at` of a position. By itself it matches no word.
    pub fn look(at: Look) -> Hir
        ensures tree { result ≡ look at }
    {
        Hir {
            kind: HirKind::Look(at),
        }
    }

    /// The tree that matches the part of `r` repeated, a number of times that the counts of `r` allow.
    pub fn repetition(r: Repetition) -> Hir
        ensures tree { result ≡ repetition r.min r.max r.greedy r.sub }
    {
        Hir {
            kind: HirKind::Repetition(r),
        }
    }

    /// The tree that matches what the part of `c` matches, and keeps the name of `c`.
    pub fn capture(c: Capture) -> Hir
        ensures tree { result ≡ capture c.name c.sub }
    {
        Hir {
            kind: HirKind::Capture(c),
        }
    }

    /// The tree that matches one piece for each of `subs`, in order. It is kept as given, even with one part
    /// or none.
    pub fn concat(subs: Vec<Hir>) -> Hir
        ensures tree { result ≡ concat (trees subs.items) }
    {
        Hir {
            kind: HirKind::Concat(subs),
        }
    }

    /// The tree that matches what any of `subs` matches. It is kept as given, even with one part or none.
    pub fn alternation(subs: Vec<Hir>) -> Hir
        ensures tree { result ≡ alternation (trees subs.items) }
    {
        Hir {
            kind: HirKind::Alternation(subs),
        }
    }

    /// The top of the tree, with the trees below it.
    pub fn kind(&self) -> &HirKind
        ensures level { kind_tree result.now ≡ self.now }
    {
        &self.kind
    }
}
