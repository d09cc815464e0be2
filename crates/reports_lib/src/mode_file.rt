//! The rules of a file with their modes, as a lexer takes them.
ghost use Rattle.std.specs.Prelude.{◌≡◌, map, IfOk};
ghost use Rattle.reports_lib.specs.FileRules.{AreFileRules};

use lalrpop_lexer::Position;
use lalrpop_rule_file::{FileRule, RuleFile};
use lalrpop_rules::ModeRule;
use std::alloc::{AllocError, Global};

/// The rules of a file as `RuleLexer::with_modes` takes them, their modes, and where their texts begin.
///
/// ```
/// use tokens_lib::{ModeFile, RuleLexer, read_rules};
///
/// let read = read_rules(alloc, b"IF = 'if'\nNAME = 1 /[a-z]+/\n")?;
/// let file = ModeFile::of(alloc, &read)?;
/// let lexer = RuleLexer::with_modes(alloc, &file.rules, &file.modes)?;
/// ```
#[derive(Debug, Drop)]
pub struct ModeFile<'text> {
    /// The names of the modes, in order.
    pub modes: Vec<&'text str>,
    /// The rules, in order.
    pub rules: Vec<ModeRule<'text>>,
    /// For each rule, where its text begins.
    pub places: Vec<Position>,
}

// Where the texts of the rules begin.
fn places_of(alloc: Global, rules: &[FileRule<'_>]) -> Result<Vec<Position>, AllocError>
    ensures places { IfOk result (λ all. all.items ≡ map (λ f. f.place) rules.now) }
{
    let mut all = Vec::new(alloc);
    for rule in rules {
        all.push(rule.place)?;
    }
    Ok(all)
}

impl<'file> ModeFile<'file> {
    /// The rules of a file as a lexer takes them: each pattern with the parts that it knows.
    ///
    /// ```
    /// use tokens_lib::{ModeFile, read_rules};
    ///
    /// let read = read_rules(alloc, b"A = 'a'\n[M]\nB = 'b'\n")?;
    /// let file = ModeFile::of(alloc, &read)?;
    /// let modes = file.modes.len(); // 2: INITIAL and M
    /// ```
    ///
    /// # Errors
    ///
    /// `AllocError` if a request for memory was refused.
    pub fn of(alloc: Global, file: &'file RuleFile<'_>) -> Result<ModeFile<'file>, AllocError>
        ensures rules { IfOk result (λ all.
            AreFileRules file.now.parts.items file.now.rules.items all.rules.items) }
        ensures modes { IfOk result (λ all. all.modes.items ≡ file.now.modes.items) }
        ensures places { IfOk result (λ all.
            all.places.items ≡ map (λ f. f.place) file.now.rules.items) }
    {
        let modes = Vec::from_slice(alloc, &file.modes)?;
        let rules = file.mode_rules(alloc)?;
        let places = places_of(alloc, &file.rules)?;
        Ok(ModeFile {
            modes,
            rules,
            places,
        })
    }
}
