//! A file of rules that a report speaks of.
ghost use Rattle.std.specs.Prelude.{◌≡◌, map, option_map};
ghost use Rattle.lalrpop_rules.specs.ModeSet.{rules_of};
ghost use Rattle.lalrpop_rules.specs.RuleSet.{names_of};

use crate::named_clashes::{mode_named, name_of};
use lalrpop_lexer::Position;
use lalrpop_lexer::lexer::dfa::NfaIndex;
use lalrpop_rules::ModeRule;
use std::marker::Model;

/// A place for a number that no rule, part or mode has.
pub(crate) const NO_PLACE: Position = Position { line: 1, column: 1 };

/// What a report says of a file of rules.
///
/// ```
/// use lalrpop_lexer::lexer::dfa::NfaIndex;
/// use reports_lib::ReportedFile;
///
/// let reported = ReportedFile::new("my.rules", &file.modes, &file.rules, &file.places);
/// let place = reported.place(NfaIndex::new(0)); // where the text of the first rule begins
/// ```
#[derive(Debug, Drop)]
pub struct ReportedFile<'text> {
    /// The name of the file.
    pub file: &'text str,
    /// The names of the modes, in order.
    pub modes: &'text [&'text str],
    /// The rules.
    pub rules: &'text [ModeRule<'text>],
    /// Where the text of each rule begins.
    pub places: &'text [Position],
}

impl<'text> Model for ReportedFile<'text> {
    ghost use Rattle.std.specs.Prelude.{map};
    ghost use Rattle.lalrpop_rules.specs.ModeSet.{rules_of};
    ghost use Rattle.lalrpop_rules.specs.RuleSet.{names_of};
    ghost use Rattle.reports_lib.specs.ReportedFile.{ReportedFile};

    ghost Value = { ReportedFile };

    ghost view = { λ r. record {
      file = r.file.now;
      modes = map (λ m. m.now) r.modes.now;
      names = names_of (rules_of r.rules.now);
      places = r.places.now;
    } };
}

impl<'text> ReportedFile<'text> {
    ghost use Rattle.reports_lib.specs.PieceLines.{mode_named as mode_named_of, name_at};
    ghost use Rattle.reports_lib.specs.Reasons.{place_at};

    /// The file with this name.
    pub fn new(
        file: &'text str,
        modes: &'text [&'text str],
        rules: &'text [ModeRule<'text>],
        places: &'text [Position],
    ) -> ReportedFile<'text>
        ensures { result ≡ record {
          file = file.now;
          modes = map (λ m. m.now) modes.now;
          names = names_of (rules_of rules.now);
          places = places.now;
        } }
    {
        ReportedFile {
            file,
            modes,
            rules,
            places,
        }
    }

    /// The name of the file.
    pub fn file(&self) -> &'text str
        ensures { result.now ≡ self.now.file }
    {
        self.file
    }

    /// The name of a rule.
    pub fn name(&self, rule: NfaIndex) -> &'text str
        ensures { result.now ≡ name_at self.now.names rule }
    {
        name_of(self.rules, rule.index())
    }

    /// Where the text of a rule begins.
    pub fn place(&self, rule: NfaIndex) -> Position
        ensures { result ≡ place_at self.now.places rule }
    {
        match self.places.get(rule.index()) {
            Some(place) => *place,
            None => NO_PLACE,
        }
    }

    /// The name of a mode, if there are several.
    pub fn mode(&self, mode: usize) -> Option<&'text str>
        ensures { option_map (λ m. m.now) result ≡ mode_named_of self.now.modes mode }
    {
        mode_named(self.modes, mode)
    }
}
