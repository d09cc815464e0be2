//! What the arguments of `tokens` ask for.
ghost use Rattle.std.specs.Prelude.{codes, ◌≡◌, ◌≢◌, [], ◌∷◌, ◌++◌, not, map, find, filter, option_map, string_bytes, IfOk, IfErr, IfSome, IfNone};
ghost use Rattle.lexdfa_lib.specs.Options.{options, names};
ghost use Rattle.lexdfa_lib.specs.Command.{action_options, asks_colours, asks_help, asks_version, given, IsCommand, IsFilesRun, IsFilesError, IsRun, IsRunError, IsArgumentsError, has, is_known, is_prefix_option, most_names, options_of, said, verbosity_of};
ghost use Rattle.lexdfa_lib.specs.Internal.Prefixes.{HasPrefix};
ghost use Rattle.lexdfa_lib.specs.declared.command.Action.{Action as AnAction};
ghost use Rattle.lexdfa_lib.specs.declared.command.ArgumentsError.TheVariants.{OutOfMemory};

use crate::layout::LineForm;
use crate::options::{Parted, part};
use std::alloc::{AllocError, Global};

/// How a text is shown.
///
/// ```
/// use tokens_lib::{Console, Markup, Reader, write_page};
///
/// let mut reader = Reader::new("let x".as_bytes());
/// let mut console = Console::new(Vec::new(alloc), Vec::new(alloc));
/// let end = write_page(alloc, &lexer, Markup::Html, &mut reader, &mut console)?;
/// ```
#[derive(Clone, Copy, Debug, PartialEq, Eq)]
pub enum Markup {
    /// As HTML.
    Html,
    /// In colours for a terminal.
    Ansi,
}

/// The language in which a lexer is written.
///
/// ```
/// use tokens_lib::{Action, Language};
///
/// let action = Action::Emit { language: Language::C { prefix: Some("json") } }; // `--emit c --prefix json`
/// ```
#[derive(Clone, Copy, Debug, PartialEq, Eq)]
pub enum Language<'words> {
    /// In C.
    C {
        /// What all names begin with, `lex` if it isn't given.
        prefix: Option<&'words str>,
    },
    /// In Rust.
    Rust,
}

/// What is done with a file of rules.
///
/// ```
/// use tokens_lib::{Action, LineForm};
///
/// let action = Action::Cut { form: LineForm::Json, recovers: false }; // `--json`
/// ```
#[derive(Clone, Copy, Debug, PartialEq, Eq)]
pub enum Action<'words> {
    /// The texts are cut, and the lines of their pieces are written.
    Cut {
        /// What a line looks like.
        form: LineForm,
        /// Whether cutting goes on after a fault.
        recovers: bool,
    },
    /// The texts are cut, and shown.
    Show {
        markup: Markup,
    },
    /// The pairs of rules that clash are listed.
    Clashes,
    /// The lexer of the rules is written as a source file.
    Emit {
        language: Language<'words>,
    },
    /// The smallest automaton of each mode, or of each rule of a name, is written for Graphviz.
    Picture,
    /// The rules are reviewed, and the lines of the review are written.
    Check {
        /// What a line looks like.
        form: LineForm,
    },
    /// Two files of rules are compared, and a text is told from which they make different tokens, if there is one.
    Difference,
}

/// What is said on standard error beside what is wrong.
///
/// ```
/// use tokens_lib::{Command, Verbosity, command_of};
///
/// let words = vec![in alloc; String::from_str(alloc, "--quiet")?, String::from_str(alloc, "c.rules")?]?;
/// let is_quiet = matches!(
///     command_of(alloc, &words),
///     Ok(Command::Run { verbosity: Verbosity::Quiet, .. })
/// ); // true
/// ```
#[derive(Clone, Copy, Debug, PartialEq, Eq)]
pub enum Verbosity {
    /// Nothing.
    Quiet,
    /// Warnings about the rules.
    Warnings,
    /// Warnings, and what is being worked on.
    Progress,
}

/// What the program has to do.
///
/// ```
/// use tokens_lib::{Action, Command, command_of};
///
/// let words = vec![in alloc; String::from_str(alloc, "c.rules")?, String::from_str(alloc, "--clashes")?]?;
/// let lists = matches!(command_of(alloc, &words), Ok(Command::Run { action: Action::Clashes, .. })); // true
/// ```
#[derive(Debug, Drop)]
pub enum Command<'words> {
    /// Write which options there are.
    Help,
    /// Write the version.
    Version,
    /// Do this by the file `rules` with each of the files, or with standard input if there are none. A file `-` is standard
    /// input.
    Run {
        action: Action<'words>,
        /// What is said beside what is wrong.
        verbosity: Verbosity,
        rules: &'words str,
        /// What stands after RULES: the file of the other rules for `Action::Difference`, at most the name of a rule for
        /// `Action::Picture`, and nothing for the other actions about rules alone.
        files: Vec<&'words str>,
    },
}

/// Why arguments ask for nothing that the program does.
///
/// ```
/// use tokens_lib::{ArgumentsError, command_of};
///
/// let lacks_rules = matches!(command_of(alloc, &[]), Err(ArgumentsError::NoRules)); // true
/// ```
#[derive(Debug, Drop)]
pub enum ArgumentsError<'words> {
    /// A request for memory was refused.
    OutOfMemory,
    /// This option, or the language that it says, is unknown.
    Unknown { option: &'words str },
    /// No file of rules is named.
    NoRules,
    /// Nothing is done by just these options.
    Apart { options: Vec<&'words str> },
    /// No file is read by such a command. This is the first name too many.
    NoFiles { file: &'words str },
    /// The file of the other rules is missing.
    NoOther,
}

impl From<AllocError> for ArgumentsError<'_> {
    ghost from_gives = { λ _ e. e ≡ OutOfMemory };

    fn from(_error: AllocError) -> Self {
        ArgumentsError::OutOfMemory
    }
}

/// The status of wrong arguments.
pub const WRONG_ARGUMENTS: u8 = 4;

// The options of actions, in the order in which specs/Command.antt has them.
const ACTION_OPTIONS: [&str; 9] = [
    "--recover",
    "--json",
    "--html",
    "--clashes",
    "--emit=c",
    "--emit=rust",
    "--dot",
    "--check",
    "--diff",
];

// What an option that says a prefix begins with.
const PREFIX: &str = "--prefix=";

// The option of text in colours.
const COLOURS: &str = "--color=always";

// The options that go with all others.
const COMMON_OPTIONS: [&str; 6] = [
    "--quiet",
    "--progress",
    "--ansi",
    "--color=auto",
    COLOURS,
    "--color=never",
];

// Whether a word is among others.
fn has(words: &[&str], word: &str) -> bool
    ensures { result ≡ has (map (λ w. w.now) words.now) word.now }
{
    for other in words {
        if *other == word {
            return true;
        }
    }
    false
}

fn is_prefix_option(option: &str) -> bool
    ensures { result ≡ is_prefix_option option.now }
{
    option.starts_with(PREFIX)
}

fn is_known(option: &str) -> bool
    ensures { result ≡ is_known option.now }
{
    has(&ACTION_OPTIONS, option) || has(&COMMON_OPTIONS, option) || is_prefix_option(option)
}

// The first unknown option.
fn unknown<'words>(options: &[&'words str]) -> Option<&'words str>
    ensures { option_map (λ w. w.now) result
        ≡ find (λ option. not (is_known option)) (map (λ w. w.now) options.now) }
{
    for option in options {
        if !is_known(option) {
            return Some(option);
        }
    }
    None
}

// Those of all options that are given.
fn among<'all>(
    alloc: Global,
    options: &[&str],
    all: &[&'all str],
) -> Result<Vec<&'all str>, AllocError>
    ensures { IfOk result (λ found. map (λ w. w.now) found.items
        ≡ filter (has (map (λ w. w.now) options.now)) (map (λ w. w.now) all.now)) }
{
    let mut found = Vec::new(alloc);
    for option in all {
        if has(options, option) {
            found.push(*option)?;
        }
    }
    Ok(found)
}

// The options of actions that are given.
fn of_actions(alloc: Global, options: &[&str]) -> Result<Vec<&'static str>, AllocError>
    ensures { IfOk result (λ found. map (λ w. w.now) found.items
        ≡ filter (has (map (λ w. w.now) options.now)) action_options) }
{
    among(alloc, options, &ACTION_OPTIONS)
}

// The options of actions that are given, and then all prefixes.
fn said<'words>(alloc: Global, options: &[&'words str]) -> Result<Vec<&'words str>, AllocError>
    ensures { IfOk result (λ found.
        map (λ w. w.now) found.items ≡ said (map (λ w. w.now) options.now)) }
{
    let of_actions = of_actions(alloc, options)?;
    let mut found = Vec::new(alloc);
    for known in &of_actions {
        found.push(*known)?;
    }
    for option in options {
        if is_prefix_option(option) {
            found.push(*option)?;
        }
    }
    Ok(found)
}

// Whether colours are asked for.
fn asks_colours(options: &[&str]) -> bool
    ensures { result ≡ asks_colours (map (λ w. w.now) options.now) }
{
    (has(options, COLOURS) || has(options, "--ansi")) && !has(options, "--color=never")
}

// What the options ask for: those of actions, or colours if there are none.
fn given<'words>(alloc: Global, options: &[&'words str]) -> Result<Vec<&'words str>, AllocError>
    ensures { IfOk result (λ found.
        map (λ w. w.now) found.items ≡ given (map (λ w. w.now) options.now)) }
{
    let mut found = said(alloc, options)?;
    if found.is_empty() && asks_colours(options) {
        found.push(COLOURS)?;
    }
    Ok(found)
}

impl Action<'_> {
    // How many names at most stand after RULES, if no FILE is read.
    fn most_names(&self) -> Option<usize>
        ensures { result ≡ most_names self.now }
    {
        match self {
            Action::Cut { .. } | Action::Show { .. } => None,
            Action::Picture | Action::Difference => Some(1),
            Action::Clashes | Action::Emit { .. } | Action::Check { .. } => Some(0),
        }
    }
}

fn action_of_one(option: &str) -> Option<Action<'static>>
    ensures some { IfSome result (λ action. option.now ∷ [] ≡ options_of action) }
    ensures none { IfNone result ((action : AnAction) → option.now ∷ [] ≢ options_of action) }
{
    match option {
        "--recover" => Some(Action::Cut {
            form: LineForm::Plain,
            recovers: true,
        }),
        "--json" => Some(Action::Cut {
            form: LineForm::Json,
            recovers: false,
        }),
        "--html" => Some(Action::Show {
            markup: Markup::Html,
        }),
        "--color=always" => Some(Action::Show {
            markup: Markup::Ansi,
        }),
        "--clashes" => Some(Action::Clashes),
        "--emit=c" => Some(Action::Emit {
            language: Language::C { prefix: None },
        }),
        "--emit=rust" => Some(Action::Emit {
            language: Language::Rust,
        }),
        "--dot" => Some(Action::Picture),
        "--check" => Some(Action::Check {
            form: LineForm::Plain,
        }),
        "--diff" => Some(Action::Difference),
        _ => None,
    }
}

// The action that writes a lexer in C with the prefix that the option says, if it says one.
fn emit_with(option: &str) -> Option<Action<'_>>
    ensures some { IfSome result (λ action.
        codes "--emit=c" ∷ option.now ∷ [] ≡ options_of action) }
    ensures none { IfNone result ((action : AnAction)
        → codes "--emit=c" ∷ option.now ∷ [] ≢ options_of action) }
{
    match option.strip_prefix(PREFIX) {
        Some(prefix) => Some(Action::Emit {
            language: Language::C {
                prefix: Some(prefix),
            },
        }),
        None => None,
    }
}

fn action_of_two(first: &str, second: &str) -> Option<Action<'static>>
    ensures some { IfSome result (λ action.
        first.now ∷ second.now ∷ [] ≡ options_of action) }
    ensures none { IfNone result ((action : AnAction)
        → first.now ∷ second.now ∷ [] ≡ options_of action → HasPrefix action) }
{
    match (first, second) {
        ("--recover", "--json") => Some(Action::Cut {
            form: LineForm::Json,
            recovers: true,
        }),
        ("--json", "--check") => Some(Action::Check {
            form: LineForm::Json,
        }),
        _ => None,
    }
}

// The action with just these options, in the order of the table, if it has no prefix.
fn plain_action_of(options: &[&str]) -> Option<Action<'static>>
    ensures some { IfSome result (λ action. map (λ w. w.now) options.now ≡ options_of action) }
    ensures none { IfNone result ((action : AnAction)
        → map (λ w. w.now) options.now ≡ options_of action → HasPrefix action) }
{
    match options {
        [] => Some(Action::Cut {
            form: LineForm::Plain,
            recovers: false,
        }),
        [option] => action_of_one(option),
        [first, second] => action_of_two(first, second),
        _ => None,
    }
}

// The action with just these options, in the order of the table.
fn action_of<'words>(options: &[&'words str]) -> Option<Action<'words>>
    ensures some { IfSome result (λ action. map (λ w. w.now) options.now ≡ options_of action) }
    ensures none { IfNone result ((action : AnAction)
        → map (λ w. w.now) options.now ≢ options_of action) }
{
    if let [first, second] = options {
        if *first == "--emit=c" {
            return emit_with(second);
        }
    }
    plain_action_of(options)
}

// What these options ask to be said.
fn verbosity_of(options: &[&str]) -> Verbosity
    ensures { result ≡ verbosity_of (map (λ w. w.now) options.now) }
{
    if has(options, "--quiet") {
        Verbosity::Quiet
    } else if has(options, "--progress") {
        Verbosity::Progress
    } else {
        Verbosity::Warnings
    }
}

// This action, if these names may stand after RULES.
fn run_by<'words>(
    action: Action<'words>,
    verbosity: Verbosity,
    rules: &'words str,
    files: Vec<&'words str>,
) -> Result<Command<'words>, ArgumentsError<'words>>
    ensures command { IfOk result (IsFilesRun action.entry verbosity rules.entry.now
        (map (λ w. w.now) files.entry.items)) }
    ensures error { IfErr result (IsFilesError action.entry (map (λ w. w.now) files.entry.items)) }
{
    if let Some(most) = action.most_names() {
        if let Some(file) = files.get(most) {
            return Err(ArgumentsError::NoFiles { file });
        }
    }
    if matches!(action, Action::Difference) && files.is_empty() {
        return Err(ArgumentsError::NoOther);
    }
    Ok(Command::Run {
        action,
        verbosity,
        rules,
        files,
    })
}

// The first name, which the file of rules has, and the others.
fn rules_and_files<'words>(names: Vec<&'words str>) -> Option<(&'words str, Vec<&'words str>)>
    ensures none { IfNone result (names.entry.items ≡ []) }
    ensures some { IfSome result (λ found. map (λ w. w.now) names.entry.items
        ≡ found.0.now ∷ map (λ w. w.now) found.1.items) }
{
    let mut files = names;
    if files.is_empty() {
        return None;
    }
    let rules = files.remove(0);
    Some((rules, files))
}

// The command with a file of rules and files.
fn command_by_rules<'words>(
    alloc: Global,
    options: &[&'words str],
    names: Vec<&'words str>,
) -> Result<Command<'words>, ArgumentsError<'words>>
    ensures command { IfOk result (IsRun (map (λ w. w.now) options.now)
        (map (λ w. w.now) names.entry.items)) }
    ensures error { IfErr result (λ e. e ≢ OutOfMemory →
        IsRunError (map (λ w. w.now) options.now) (map (λ w. w.now) names.entry.items) e) }
{
    let Some((rules, files)) = rules_and_files(names) else {
        return Err(ArgumentsError::NoRules);
    };
    let of_action = given(alloc, options)?;
    match action_of(&of_action) {
        Some(action) => run_by(action, verbosity_of(options), rules, files),
        None => Err(ArgumentsError::Apart { options: of_action }),
    }
}

// Whether the help is asked for.
fn asks_help(options: &[&str]) -> bool
    ensures { result ≡ asks_help (map (λ w. w.now) options.now) }
{
    has(options, "--help") || has(options, "-h")
}

// Whether the version is asked for.
fn asks_version(options: &[&str]) -> bool
    ensures { result ≡ asks_version (map (λ w. w.now) options.now) }
{
    has(options, "--version") || has(options, "-V")
}

// The command that these options and names ask for.
fn command_with<'words>(
    alloc: Global,
    options: &[&'words str],
    names: Vec<&'words str>,
) -> Result<Command<'words>, ArgumentsError<'words>>
    ensures command { IfOk result (IsCommand (map (λ w. w.now) options.now)
        (map (λ w. w.now) names.entry.items)) }
    ensures error { IfErr result (λ e. e ≢ OutOfMemory →
        IsArgumentsError (map (λ w. w.now) options.now) (map (λ w. w.now) names.entry.items) e) }
{
    if asks_help(options) {
        return Ok(Command::Help);
    }
    if asks_version(options) {
        return Ok(Command::Version);
    }
    match unknown(options) {
        Some(option) => Err(ArgumentsError::Unknown { option }),
        None => command_by_rules(alloc, options, names),
    }
}

/// The command that the arguments ask for, in which an option and its value are one word: `--emit=c`. An argument that begins
/// with a dash, is more than it and stands before the first `--` is an option; the others are RULES and files. The order of
/// options, and how often each stands, don't matter, but there is at most one prefix. `--ansi` is `--color=always`, which writes
/// colours if no option of an action is given, nor `--color=never`; `--color=auto` asks for nothing.
///
/// # Errors
///
/// What is wrong with the arguments; `OutOfMemory` if a request for memory was refused.
pub fn command_of(alloc: Global, words: &[String]) -> Result<Command<'_>, ArgumentsError<'_>>
    ensures command { IfOk result (IsCommand (options (map string_bytes words.now))
        (names (map string_bytes words.now))) }
    ensures error { IfErr result (λ e. e ≢ OutOfMemory → IsArgumentsError
        (options (map string_bytes words.now)) (names (map string_bytes words.now)) e) }
{
    let Parted { options, names } = part(alloc, words)?;
    command_with(alloc, &options, names)
}
