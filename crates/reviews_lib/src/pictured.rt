//! Pictures of the automata of a file of rules.
ghost use Rattle.std.specs.Prelude.{◌≡◌, ◌<◌, ◌∷◌, [], ℕ, List, None, Some, false, true, map, option_map, slice_get, string_bytes, IfOk, IfSome, IfNone};
ghost use Rattle.std.specs.List.{range_with_len};
ghost use Rattle.lalrpop_dfa.specs.Dfa.{RecognizesAll, Row};
ghost use Rattle.lalrpop_rules.specs.Modes.{trees_in};
ghost use Rattle.lalrpop_verdicts.specs.Picture.{dot};
ghost use Rattle.lexdfa_lib.specs.Streams.{GivesWhole};
ghost use Rattle.reports_lib.specs.Answer.{about, refusal};
ghost use Rattle.reports_lib.specs.PieceLines.{mode_named};
ghost use Rattle.lexdfa_lib.specs.Command.{has};
ghost use Rattle.reports_lib.specs.NamedRules.{ByLexer};
ghost use Rattle.reviews_lib.specs.Pictured.{ArePictures, BytesPictured, IsDrawn, IsMissing, IsModePicture, IsRulePicture, IsSmallestIn, IsSmallestOf, PictureAnswer, label, labels, no_rule, rules_named};

use crate::compared::push_token;
use bajofeki_rules::quoted;
use lalrpop_lexer::lexer::dfa::{Dfa, NfaIndex, Precedence, build_dfa};
use lalrpop_lexer::lexer::re::Regex;
use lalrpop_rules::RuleLexer;
use lalrpop_verdicts::{dot, minimized};
use lexdfa_lib::{Files, Verbosity, WRONG_ARGUMENTS, bytes_of};
use reports_lib::{Reply, about, lexer_of_bytes, mode_named, name_of, unread};
use std::alloc::{AllocError, Global};
use std::slice;

// The automaton of a mode.
fn automaton(lexer: &RuleLexer, mode: usize) -> &Dfa
    requires there { mode < lexer.now.modes }
    ensures { RecognizesAll result.now (trees_in lexer.now mode) lexer.now.precedences }
{
    lexer.lexer(mode).dense().dfa()
}

// What stands at a state that accepts a rule: its token, and what it does, as files of rules write it.
fn label(alloc: Global, rules: &RuleLexer, rule: NfaIndex) -> Result<String, AllocError>
    ensures { IfOk result (λ text. string_bytes text
        ≡ label rules.now rules.now.mode_names rule) }
{
    let mut text = String::new(alloc);
    push_token(&mut text, rules.mode_names(), rules, Some(rule))?;
    Ok(text)
}

// The label of each rule.
fn labels(alloc: Global, rules: &RuleLexer) -> Result<Vec<String>, AllocError>
    ensures { IfOk result (λ all. map string_bytes all.items
        ≡ labels rules.now rules.now.mode_names) }
{
    let mut all = Vec::new(alloc);
    for rule in 0..rules.names().len() {
        let text = label(alloc, rules, NfaIndex::new(rule))?;
        all.push(text)?;
    }
    Ok(all)
}

// The picture of the smallest automaton of a mode, with its name, if there are several.
fn mode_picture(
    alloc: Global,
    rules: &RuleLexer,
    labels: &[String],
    mode: usize,
) -> Result<String, AllocError>
    requires there { mode < rules.now.modes }
    ensures { IfOk result (λ text. (least : List Row)
        × (IsSmallestIn rules.now mode least
        × (string_bytes text ≡ dot (mode_named rules.now.mode_names mode)
        (map string_bytes labels.now) least))) }
{
    let least = minimized(alloc, automaton(rules, mode))?;
    dot(alloc, mode_named(rules.mode_names(), mode), &least, labels)
}

// The pictures of all modes, one after the other.
fn mode_pictures(alloc: Global, rules: &RuleLexer) -> Result<String, AllocError>
    ensures { IfOk result (λ text. ArePictures
        (IsModePicture rules.now rules.now.mode_names)
        (range_with_len 0 rules.now.modes) (string_bytes text)) }
{
    let labels = labels(alloc, rules)?;
    let mut text = String::new(alloc);
    for mode in 0..rules.modes() {
        let one = mode_picture(alloc, rules, &labels, mode)?;
        text.push_str(&one)?;
    }
    Ok(text)
}

// The picture of the smallest automaton of a rule's tree alone.
fn rule_picture(alloc: Global, label: &String, tree: &Regex) -> Result<String, AllocError>
    ensures { IfOk result (λ text. (least : List Row) × (IsSmallestOf tree.now least
        × (string_bytes text ≡ dot None (string_bytes label.now ∷ []) least))) }
{
    match build_dfa(alloc, slice::from_ref(tree), &[Precedence(0)]) {
        Ok(dfa) => {
            let least = minimized(alloc, &dfa)?;
            dot(alloc, None, &least, slice::from_ref(label))
        }
        // The tree of a rule can be compiled, and alone it clashes with none, so only memory can be refused.
        Err(_) => Err(AllocError),
    }
}

// The pictures of the rules with this name, one after the other.
fn rule_pictures(alloc: Global, rules: &RuleLexer, name: &str) -> Result<String, AllocError>
    ensures { IfOk result (λ text. ArePictures
        (IsRulePicture rules.now rules.now.mode_names)
        (rules_named rules.now name.now) (string_bytes text)) }
{
    let mut text = String::new(alloc);
    for (index, tree) in rules.regexs().iter().enumerate() {
        let rule = NfaIndex::new(index);
        if name_of(rules, rule) == name {
            let label = label(alloc, rules, rule)?;
            let one = rule_picture(alloc, &label, tree)?;
            text.push_str(&one)?;
        }
    }
    Ok(text)
}

// Whether some rule has the name.
fn has_name(names: &[String], name: &str) -> bool
    ensures { result ≡ has (map string_bytes names.now) name.now }
{
    for own in names {
        if own.as_str() == name {
            return true;
        }
    }
    false
}

// The given name, if no rule has it.
fn missing<'name>(lexer: &RuleLexer, given: Option<&'name str>) -> Option<&'name str>
    ensures missing { IfSome result (λ name.
        IsMissing lexer.now (option_map (λ n. n.now) given.entry) name.now) }
    ensures there { IfNone result (IfSome given.entry (λ name.
        has lexer.now.names name.now ≡ true)) }
{
    let name = given?;
    if has_name(lexer.names(), name) {
        return None;
    }
    Some(name)
}

// What is drawn: each mode; or, if a name is given, the rules that have it.
fn drawing(alloc: Global, rules: &RuleLexer, given: Option<&str>) -> Result<String, AllocError>
    requires there { IfSome given (λ name. has rules.now.names name.now ≡ true) }
    ensures drawn { IfOk result (λ text.
        IsDrawn rules.now rules.now.mode_names
        (option_map (λ n. n.now) given.entry) (string_bytes text)) }
{
    match given {
        Some(name) => rule_pictures(alloc, rules, name),
        None => mode_pictures(alloc, rules),
    }
}

// What is said if no rule has the name.
fn no_rule(alloc: Global, name: &str) -> Result<String, AllocError>
    ensures { IfOk result (λ reason. string_bytes reason ≡ no_rule name.now) }
{
    let shown = quoted(alloc, name)?;
    format!(in alloc; "no rule has the name {shown}; leave it out to draw each mode")
}

// What is answered if no rule of the file has the name.
fn refused(alloc: Global, file: &str, name: &str) -> Result<Reply, AllocError>
    ensures answer { IfOk result (λ reply.
        reply ≡ refusal 4 (about file.now (no_rule name.now))) }
{
    let reason = no_rule(alloc, name)?;
    let message = about(alloc, file, reason.as_str())?;
    Ok(Reply::refusal(alloc, WRONG_ARGUMENTS, message))
}

// The first name, if there is one.
fn first<'name>(names: &[&'name str]) -> Option<&'name str>
    ensures { option_map (λ n. n.now) result ≡ slice_get (map (λ n. n.now) names.now) 0 }
{
    names.first().copied()
}

// What is answered where pictures are wanted for Graphviz: of the smallest automata of all modes; or, if a name is given, of each
// rule of this name alone. If no rule has it, this is said of the file.
fn picture_reply(
    alloc: Global,
    file: &str,
    rules: &RuleLexer,
    given: Option<&str>,
) -> Result<Reply, AllocError>
    ensures answer { IfOk result (PictureAnswer file.now (option_map (λ n. n.now) given.entry)
        rules.now rules.now.mode_names) }
{
    if let Some(name) = missing(rules, given) {
        return refused(alloc, file, name);
    }
    let text = drawing(alloc, rules, given)?;
    Ok(Reply::written(alloc, 0, text.into_bytes()))
}

/// What is answered where pictures are wanted of the automata of the rules that these bytes are, in a file of this name: of each mode; or,
/// if the name of a rule is given, of the rules that have it.
///
/// ```
/// use lexdfa_lib::Verbosity;
/// use reviews_lib::picture_answer;
///
/// let reply = picture_answer(alloc, Verbosity::Warnings, "my.rules", b"A = 'a'\n", None)?; // as `tokens --dot my.rules`
/// assert_eq!(reply.status(), 0);
/// ```
///
/// # Errors
///
/// `AllocError` if a request for memory was refused.
pub fn picture_answer(
    alloc: Global,
    verbosity: Verbosity,
    name: &str,
    bytes: &[u8],
    given: Option<&str>,
) -> Result<Reply, AllocError>
    ensures answer { IfOk result
        (BytesPictured verbosity (option_map (λ n. n.now) given.entry) name.now bytes.now) }
{
    match lexer_of_bytes(alloc, verbosity, name, bytes)? {
        Ok(found) => { picture_reply(alloc, name, &found.lexer, given)?.after(0, found.said) }
        Err(reply) => Ok(reply),
    }
}

/// What is answered where pictures of the automata of a file of rules are wanted.
///
/// # Errors
///
/// `AllocError` if a request for memory was refused.
pub fn draw<F: Files>(
    alloc: Global,
    verbosity: Verbosity,
    files: &F,
    rules: &str,
    names: &[&str],
) -> Result<Reply, AllocError>
    ensures answer { IfOk result (ByLexer (GivesWhole (F.gives files.now)) verbosity
        (PictureAnswer rules.now (slice_get (map (λ n. n.now) names.now) 0)) rules.now) }
{
    match bytes_of(alloc, files, rules)? {
        Ok(bytes) => picture_answer(alloc, verbosity, rules, &bytes, first(names)),
        Err(reason) => unread(alloc, rules, reason.as_str()),
    }
}
