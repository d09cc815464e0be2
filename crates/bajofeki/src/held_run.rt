//! The run of a piece that is held back.

ghost use Rattle.std.specs.Prelude.{◌≡◌, ◌<◌, ℕ, List, length, true, false, IfSome};
ghost use Rattle.lalrpop_rules.specs.Modes.{ModeRules, trees_in};
ghost use Rattle.lalrpop_rules.specs.Found.{NoMatchBefore};
ghost use Rattle.bajofeki.specs.Lexed.{BeginsLonger};
ghost use Rattle.lalrpop_dfa.specs.declared.Kind.TheVariants.{Accepts};
ghost use Rattle.bajofeki.specs.Internal.Held.{IsHeld};
ghost use Rattle.bajofeki.specs.Internal.Walking.{IsMet, IsRight, says};

use crate::walker::Walker;
use lalrpop_dfa::Kind;
use lalrpop_rules::RuleLexer;

/// A run from the front of a text that grows: how many bytes it has read, the place of its walk after them, and whether something
/// has matched. So a token that comes in many chunks isn't read from its beginning whenever more has come.
#[derive(Clone, Copy)]
pub(crate) struct HeldRun<'a> {
    pub(crate) walker: Walker<'a>,
    pub(crate) read: usize,
    pub(crate) place: usize,
    pub(crate) has_match: bool,
}

// Whether something has matched, here or before.
fn has_matched(walker: &Walker<'_>, place: usize, before: bool) -> bool
    requires right { IsRight walker.now }
    requires met { IsMet walker.now place }
    ensures none { result ≡ false
        → (before ≡ false) × ((i : ℕ) → ¬ (says walker.now place ≡ Accepts i)) }
{
    before || matches!(walker.kind(place), Kind::Accepts(_))
}

impl<'a> HeldRun<'a> {
    /// A run in the mode that has read nothing.
    pub(crate) fn new(lexer: &'a RuleLexer, mode: usize) -> HeldRun<'a>
        requires there { mode < lexer.now.modes }
        ensures held { (text : List ℕ) → IsHeld lexer.now mode text result }
    {
        let walker = Walker::of(lexer.lexer(mode).dense());
        HeldRun {
            walker,
            read: 0,
            place: walker.start(),
            has_match: false,
        }
    }

    // Reads on to the end of the text, or until nothing can match any more.
    fn read_on(&mut self, text: &str)
        requires held { (r : ModeRules) × ((mode : ℕ) × IsHeld r mode text.now self.old) }
        ensures held { (r : ModeRules) (mode : ℕ) → IsHeld r mode text.now self.old
            → IsHeld r mode text.now self.new }
    {
        let walker = self.walker;
        let mut place = self.place;
        let mut read = self.read;
        let mut has_match = self.has_match;
        'reading: while read < text.len() && !matches!(walker.kind(place), Kind::Reject) {
            place = walker.read(place, text, &mut read);
            has_match = has_matched(&walker, place, has_match);
        }
        self.place = place;
        self.read = read;
        self.has_match = has_match;
    }

    // Whether all of the text was read, and some longer word that begins with it matches.
    fn is_open(&self, lexer: &RuleLexer, mode: usize, text: &str) -> bool
        requires there { mode < lexer.now.modes }
        requires held { IsHeld lexer.now mode text.now self.now }
        ensures open { result ≡ true → BeginsLonger (trees_in lexer.now mode) text.now }
        ensures none { result ≡ true → self.now.has_match ≡ false
            → NoMatchBefore (trees_in lexer.now mode) text.now 1 }
    {
        // What is known of the automaton.
        let _dense = lexer.lexer(mode).dense();
        self.read == text.len() && !self.walker.is_last(self.place)
    }
}

/// Reads on, if a run is held. Whether the piece is still held back: the run may go on past the end of the text; and nothing has
/// matched, if a match would end a fault before it.
#[inline(always)]
pub(crate) fn is_held(
    lexer: &RuleLexer,
    mode: usize,
    text: &str,
    is_after_fault: bool,
    held: &mut Option<HeldRun<'_>>,
) -> bool
    requires there { mode < lexer.now.modes }
    requires held { IfSome held.old (IsHeld lexer.now mode text.now) }
    ensures held { IfSome held.new (IsHeld lexer.now mode text.now) }
    ensures open { result ≡ true → BeginsLonger (trees_in lexer.now mode) text.now }
    ensures none { result ≡ true → is_after_fault ≡ true
        → NoMatchBefore (trees_in lexer.now mode) text.now 1 }
{
    let Some(run) = held else {
        return false;
    };
    run.read_on(text);
    !(is_after_fault && run.has_match) && run.is_open(lexer, mode, text)
}

/// Whether a run is held that has read the text, and may go on past its end.
pub(crate) fn is_open(
    lexer: &RuleLexer,
    mode: usize,
    text: &str,
    held: &Option<HeldRun<'_>>,
) -> bool
    requires there { mode < lexer.now.modes }
    requires held { IfSome held.now (IsHeld lexer.now mode text.now) }
    ensures open { result ≡ true → BeginsLonger (trees_in lexer.now mode) text.now }
{
    match held {
        Some(run) => run.is_open(lexer, mode, text),
        None => false,
    }
}
