//! Lexers of named rules, by hand and from files, and what they are asked: pieces of texts, first matches, and texts as HTML and in colours.

use crate::calls::{Call, expect, expect_lines, halves};
use crate::{emit, great, texts};
use bajofeki::{ansi, html};
use lalrpop_rule_file::RuleFileError;
use lalrpop_rules::{Action, FileError, ModeRule, Piece, Pieces, Rule, RuleLexer, RulesError};
use std::alloc::{AllocError, Global};
use std::fmt::Write;

/// What a lexer is asked.
#[derive(Clone, Copy)]
pub(crate) enum Asked {
    Pieces,
    First,
    Page,
    Colours,
    Change,
    Edited,
    Between,
    Stream,
    Numbers,
    Cutter,
    Again,
    Sources,
    Counts,
    Depth,
}

/// A file of rules.
#[derive(Clone, Copy)]
pub(crate) enum Lines {
    Names,
    Seven,
    Kinds,
    Nested,
    Parts,
    Keywords,
    Brackets,
    Edits,
    Bytes,
    Characters,
    Numbers,
    Read,
}

// A keyword, names, spaces, which are skipped, operators, and comments. A comment stays open for as long as it isn't closed.
const NAMES: &[u8] = b"IF = 'if'
NAME = /[a-z]+/
SPACE skip = / +/
EQUAL = '=='
SLASH = '/'
STAR = '*'
COMMENT = /\\/\\*([^*]|\\*+[^*\\/])*\\*+\\//";

// Two rules have the first one's name, and the seventh has the first colour again.
const SEVEN: &[u8] = b"A = 'a'\nB = 'b'\nA = 'c'\nC = 'd'\nD = 'e'\nE = 'f'\nF = 'g'";

// Numbers of three forms, words, and spaces of two.
const KINDS: &[u8] = b"NUMBER = /[0-9]+/
IF = 'if'
NUMBER = /[0-9a-f]+/
SPACE skip = / +/
NUMBER = /0x[0-9a-f]+/
SPACE skip = /\\t+/";

const NESTED: &[u8] = b"NAME = /[a-z]+/
OPEN skip push COMMENT = '/*'
[COMMENT]
OPEN skip push COMMENT = '/*'
CLOSE skip pop = '*/'
REST skip = /(?s:.)/";

/// A part in a part, a rule with the name of a part, and braces in brackets, which are three members.
pub(crate) const PARTS: &[u8] = b"D part = /[0-9]/
[A]
E part = /[eE][+-]?{D}+/
part part = /x|z/
NUM = /{D}+(\\.{D}+)?{E}?/
[*]
part = /{part}y/
SET = /[{D}]/
";

// Keywords in any case beside names, and literals that are escapes.
const KEYWORDS: &[u8] = b"SELECT = anycase 'select'
NAME = /[a-z]+/
QUOTE = \"\\\"\"
LINE_FEED = \"\\n\"
LETTER = \"\\u{5d0}'\"";

const BRACKETS: &[u8] = b"A = /a+/
OPEN push C = '('
[C]
IN push C = '('
OUT pop = ')'
B = /b+/";

// Words with spaces between them, and comments, in which each character is a piece.
const EDITS: &[u8] = b"WORD = /[a-z\xc3\xa4]+/
SPACE skip = / +/
OPEN push COMMENT = '<'
[COMMENT]
CLOSE pop = '>'
INSIDE = /[^>]/";

// The keyword `if`, and names of `a` to `z` and `é`, which are weaker and are skipped.
const BYTES: &[u8] = b"IF = 'if'\nNAME skip = /[a-z\xc3\xa9]+/";

const CHARACTERS: &[u8] = b"CHARACTER = /(?s)./";

// Numbers, and words between `<` and `>`, which can be nested.
const NUMBERS: &[u8] = b"NUMBER = /[0-9]+/
[INITIAL WORDS]
OPEN push WORDS = '<'
[WORDS]
CLOSE pop = '>'
WORD = /[a-z]+/";

impl Lines {
    pub(crate) fn bytes(self) -> &'static [u8] {
        match self {
            Lines::Names => NAMES,
            Lines::Seven => SEVEN,
            Lines::Kinds => KINDS,
            Lines::Nested => NESTED,
            Lines::Parts => PARTS,
            Lines::Keywords => KEYWORDS,
            Lines::Brackets => BRACKETS,
            Lines::Edits => EDITS,
            Lines::Bytes => BYTES,
            Lines::Characters => CHARACTERS,
            Lines::Numbers => NUMBERS,
            Lines::Read => crate::files::FILE,
        }
    }
}

/// Adds a piece: the number of its rule, in parentheses if it is skipped, or `!`, what it is and where it begins.
pub(crate) fn add_piece(line: &mut String, piece: &Piece) -> Result<(), AllocError> {
    let (slice, start) = (piece.slice(), piece.start());
    match piece {
        Piece::Token(token) => write!(line, "{} {slice:?} {start}, ", token.index.index()),
        Piece::Skipped(token) => write!(line, "({} {slice:?} {start}), ", token.index.index()),
        Piece::Fault { .. } => write!(line, "! {slice:?} {start}, "),
    }
}

// Pieces up to the end or an error, after which a loop gives nothing more.
fn add_pieces(pieces: &mut Pieces<'_>, line: &mut String) -> Result<(), AllocError> {
    let mut is_refused = false;
    for piece in pieces.by_ref() {
        match piece {
            Ok(_) if is_refused => return line.push_str("a piece after an error"),
            Ok(piece) => add_piece(line, &piece)?,
            Err(AllocError) => is_refused = true,
        }
    }
    Ok(())
}

// The pieces that are left after an error, which `next_piece` gives, beginning with the one that was refused. A piece has one byte at least.
fn add_rest(pieces: &mut Pieces<'_>, line: &mut String, most: usize) -> Result<(), AllocError> {
    for _ in 0..=most {
        match pieces.next_piece() {
            Ok(Some(piece)) => add_piece(line, &piece)?,
            Ok(None) => return Ok(()),
            Err(AllocError) => return Err(AllocError),
        }
    }
    line.push_str("more pieces than bytes")
}

fn pieces<'text>(
    alloc: Global,
    lexer: &'text RuleLexer,
    text: &'text str,
) -> Result<String, AllocError> {
    let mut line = String::new(alloc);
    let mut pieces = lexer.pieces(alloc, text)?;
    add_pieces(&mut pieces, &mut line)?;
    add_rest(&mut pieces, &mut line, text.len())?;
    Ok(line)
}

// The name of the rule that matches first, and where it does.
fn first(alloc: Global, lexer: &RuleLexer, text: &str) -> Result<String, AllocError> {
    match lexer.find(text) {
        Some(token) => {
            let name = lexer.name(token.index).unwrap_or("no name");
            format!(in alloc; "{name} {:?} {}", token.slice, token.start)
        }
        None => String::from_str(alloc, "None"),
    }
}

fn asked_of_text(
    alloc: Global,
    asked: Asked,
    lexer: &RuleLexer,
    text: &str,
) -> Result<String, AllocError> {
    match asked {
        Asked::Pieces => pieces(alloc, lexer, text),
        Asked::First => first(alloc, lexer, text),
        Asked::Page => html(alloc, lexer, text),
        Asked::Colours => ansi(alloc, lexer, text),
        Asked::Change | Asked::Edited | Asked::Between => texts::edited(alloc, asked, lexer, text),
        Asked::Stream => texts::in_chunks(alloc, lexer, text),
        Asked::Counts => great::counts(alloc, lexer, text),
        _ => great::depth(alloc, lexer, text),
    }
}

fn asked_of(
    alloc: Global,
    asked: Asked,
    lexer: &RuleLexer,
    given: &[u8],
) -> Result<String, AllocError> {
    let text = str::from_utf8(given).unwrap_or("?");
    match asked {
        Asked::Numbers | Asked::Cutter | Asked::Again | Asked::Sources => {
            emit::cut(alloc, asked, lexer, given)
        }
        _ => asked_of_text(alloc, asked, lexer, text),
    }
}

/// What the lexer of a file answers for a text, or why there is none.
pub(crate) fn by_file(
    alloc: Global,
    asked: Asked,
    file: &[u8],
    given: &[u8],
) -> Result<String, AllocError> {
    match RuleLexer::from_file(alloc, file) {
        Ok(lexer) => asked_of(alloc, asked, &lexer, given),
        Err(FileError::File(RuleFileError::OutOfMemory)) => Err(AllocError),
        Err(
            FileError::Rules {
                error: RulesError::OutOfMemory,
                ..
            },
        ) => Err(AllocError),
        Err(error) => format!(in alloc; "{error}"),
    }
}

// The rule of `NAME l TEXT`, `NAME e TEXT` with escapes, `NAME c TEXT` in any case, `NAME r PATTERN`, `NAME u FROM to TO`, or,
// skipped, `NAME s PATTERN`.
fn rule_of(row: &str) -> Rule {
    let (name, rest) = halves(row, " ");
    let (letter, text) = halves(rest, " ");
    let (from, to) = halves(text, " to ");
    match letter {
        "l" => Rule::literal(name, text),
        "e" => Rule::escaped(name, text),
        "c" => Rule::any_case(name, text),
        "s" => Rule::pattern(name, text).skipped(),
        "u" => Rule::from_to(name, from, to),
        _ => Rule::pattern(name, text),
    }
}

fn lexer_of(alloc: Global, rows: &str) -> Result<RuleLexer, RulesError> {
    let mut rules = Vec::new(alloc);
    for row in rows.split(" / ") {
        rules.push(rule_of(row))?;
    }
    RuleLexer::from_rules(alloc, &rules)
}

fn asked_if_made(
    alloc: Global,
    asked: Asked,
    made: Result<RuleLexer, RulesError>,
    given: &[u8],
) -> Result<String, AllocError> {
    match made {
        Ok(lexer) => asked_of(alloc, asked, &lexer, given),
        Err(RulesError::OutOfMemory) => Err(AllocError),
        Err(error) => format!(in alloc; "{error}"),
    }
}

/// What the lexer of the rules in `RULES <- TEXT` answers for the text, or why there is none.
pub(crate) fn by_hand(alloc: Global, asked: Asked, row: &[u8]) -> Result<String, AllocError> {
    let (rows, text) = halves(str::from_utf8(row).unwrap_or("?"), " <- ");
    asked_if_made(alloc, asked, lexer_of(alloc, rows), text.as_bytes())
}

/// The pieces of a text: in mode 1 a word is a word of both forms, and in mode 0 only of the second.
pub(crate) fn in_modes(alloc: Global, given: &[u8]) -> Result<String, AllocError> {
    let rules = [
        ModeRule {
            rule: Rule::pattern("WORD", "[a-z]+"),
            modes: &[1],
            actions: &[],
        },
        ModeRule {
            rule: Rule::literal("IN", "<"),
            modes: &[0],
            actions: &[Action::Push(1)],
        },
        ModeRule {
            rule: Rule::pattern("WORD", "[a-c]+|[0-9]+"),
            modes: &[0, 1],
            actions: &[],
        },
    ];
    asked_if_made(
        alloc,
        Asked::Pieces,
        RuleLexer::with_modes(alloc, &rules, &["CODE", "COMMENT"]),
        given,
    )
}

const NAMED: &str = r#"
if a => 0 "if" 0, (2 " " 2), 1 "a" 3, 
iffy! => 1 "iffy" 0, ! "!" 4, 
a  == 12 => 1 "a" 0, (2 "  " 1), 3 "==" 3, (2 " " 5), ! "12" 6, 
a===b => 1 "a" 0, 3 "==" 1, ! "=" 3, 1 "b" 4, 
é!x! => ! "é!" 0, 1 "x" 3, ! "!" 4, 
/*/*x*/ => 6 "/*/*x*/" 0, 
/*/*x* => 4 "/" 0, 5 "*" 1, 4 "/" 2, 5 "*" 3, 1 "x" 4, 5 "*" 5, 
 => 
"#;

const OF_KINDS: &[(&[u8], &str)] = &[(
    b"12 1f\t0x1f if ff",
    "0 \"12\" 0, (3 \" \" 2), 0 \"1f\" 3, (3 \"\\t\" 5), 0 \"0x1f\" 6, (3 \" \" 10), 1 \"if\" 11, (3 \" \" 13), 0 \"ff\" 14, ",
)];

// The file, the text, and its pieces.
const CUT: &[(Lines, &[u8], &str)] = &[
    (
        Lines::Parts,
        b"12.5e+3zy{D}xy7",
        "0 \"12.5e+3\" 0, 1 \"zy\" 7, 2 \"{\" 9, 2 \"D\" 10, 2 \"}\" 11, 1 \"xy\" 12, 0 \"7\" 14, ",
    ),
    (
        Lines::Keywords,
        b"SeLeCT\nselects\"\xd7\x90'",
        "0 \"SeLeCT\" 0, 3 \"\\n\" 6, 1 \"selects\" 7, 2 \"\\\"\" 14, 4 \"\u{5d0}'\" 15, ",
    ),
    (
        Lines::Read,
        b"if a'",
        "0 \"if\" 0, (2 \" \" 2), 1 \"a\" 3, 3 \"'\" 4, ",
    ),
    (
        Lines::Nested,
        b"a/*b/*c*/d*/e",
        "0 \"a\" 0, (1 \"/*\" 1), (4 \"b\" 3), (2 \"/*\" 4), (4 \"c\" 6), (3 \"*/\" 7), (4 \"d\" 9), (3 \"*/\" 10), 0 \"e\" 12, ",
    ),
    (
        Lines::Brackets,
        b"a((bb)b)!a",
        "0 \"a\" 0, 1 \"(\" 1, 2 \"(\" 2, 4 \"bb\" 3, 3 \")\" 5, 4 \"b\" 6, 3 \")\" 7, ! \"!\" 8, 0 \"a\" 9, ",
    ),
];

#[test]
fn texts_are_cut_by_files(rt: HostRuntime) {
    expect_lines(
        &rt,
        rt.alloc(),
        Call::By(Lines::Names, Asked::Pieces),
        NAMED,
    );
    expect(
        &rt,
        rt.alloc(),
        Call::By(Lines::Kinds, Asked::Pieces),
        OF_KINDS,
    );
    for (lines, text, wanted) in CUT {
        expect(
            &rt,
            rt.alloc(),
            Call::By(*lines, Asked::Pieces),
            &[(*text, *wanted)],
        );
    }
}

const BY_HAND: &str = r##"
NAME r [a-z]+ / COMMENT u /* to */ <- a/* b **/c*/ => 0 "a" 0, 1 "/* b **/" 1, 0 "c" 9, ! "*/" 10, 
NAME r [a-z]+ / COMMENT u /* to */ <- /*/ => ! "/*/" 0, 
NAME r [a-z]+ / COMMENT u /* to  <- a => the text of rule 1 has no tree: the end is empty
NOTE u # to ; / SPACE s \x20+ <- #a #; #; => 0 "#a #;" 0, (1 " " 5), 0 "#;" 6, 
NAME r [a-z]+ / KEY c kσ / MARK e \x21 <- KΣ!kςkσ => 1 "KΣ" 0, 2 "!" 3, 1 "kς" 4, 1 "kσ" 7, 
NAME r [a-z]+ / KEY c kσ / MARK e \" <- keys" => 0 "keys" 0, 2 "\"" 4, 
NAME r [a-z]+ / KEY c kσ / MARK e \u{e9}. <- é.k => 2 "é." 0, 0 "k" 3, 
NAME r [a-z]+ / KEY c kσ / MARK e é\d <- é1 => the text of rule 2 does not parse: EscapeUnrecognized at byte 2
A l (a / B r b) <-  => the text of rule 1 does not parse: UnopenedGroup at byte 1
A r a / OTHER r b <-  => 
A r a / OTHER r [a-c] <-  => in mode 0 rules 0 and 1 clash on "a"
A r a / OTHER r (b <-  => the text of rule 1 does not parse: UnclosedGroup at byte 0
A r a / OTHER r b*? <-  => rule 1 can't be compiled: NonGreedy
IF l if / NAME r [a-z]+ / SPACE s \x20+ <- if iffy ! a => 0 "if" 0, (2 " " 2), 1 "iffy" 3, (2 " " 7), ! "!" 8, (2 " " 9), 1 "a" 10, 
A r a / LONG r a*b / SPACE s \x20+ <- aa  !!b?aab => 0 "a" 0, 0 "a" 1, (2 "  " 2), ! "!!" 4, 1 "b" 6, ! "?" 7, 1 "aab" 8, 
"##;

#[test]
fn texts_are_cut_by_all_kinds_of_rules(rt: HostRuntime) {
    expect_lines(&rt, rt.alloc(), Call::Rules(Asked::Pieces), BY_HAND);
    let cut = "2 \"abc\" 0, 1 \"<\" 3, 0 \"abc\" 4, 0 \"12\" 7, ";
    expect(&rt, rt.alloc(), Call::InModes, &[(b"abc<abc12", cut)]);
}

// Why a file makes no lexer, or nothing. A name in braces is refused if no part above has it.
const NO_LEXER: &[(&[u8], &str)] = &[
    (
        b"A = /a{P}/\nP part = /p/",
        "the text of rule 0 does not parse: PartUnknown at byte 1",
    ),
    (
        b"Q part = /q/\nA = /a{P}/",
        "the text of rule 0 does not parse: PartUnknown at byte 1",
    ),
    (b"P part = /p/\nA = /a{P}/", ""),
    (
        b"A = 'a'\nB = \"\xc3\xa9\\q\"",
        "the text of rule 1 does not parse: EscapeUnrecognized at byte 2",
    ),
    (b"A = \"\\x41\"", ""),
    (
        b"A = /a/\nB = anycase 'A'\nC = 1 /(?i)a/",
        "in mode 0 rules 1 and 2 clash on \"A\"",
    ),
    (b"A mode B = 'a'\n[B]\nC = 'a'", ""),
];

#[test]
fn a_file_makes_a_lexer_or_none(rt: HostRuntime) {
    expect(&rt, rt.alloc(), Call::File(Asked::Pieces), NO_LEXER);
}

const FIRST: &str = r#"
if a => IF "if" 0
?? iffy => SPACE " " 2
é==if => EQUAL "==" 2
?!? => None
 => None
"#;

#[test]
fn first_matches_are_found(rt: HostRuntime) {
    expect_lines(&rt, rt.alloc(), Call::By(Lines::Names, Asked::First), FIRST);
}

const PAGES: &[(&[u8], &str)] = &[
    (
        b"if a",
        r#"<span class="IF">if</span> <span class="NAME">a</span>"#,
    ),
    (
        b"a<&\">",
        r#"<span class="NAME">a</span><mark>&lt;&amp;&quot;&gt;</mark>"#,
    ),
    (
        b"\xc3\xa9 ==",
        r#"<mark>é</mark> <span class="EQUAL">==</span>"#,
    ),
    (
        b"a\ra",
        r#"<span class="NAME">a</span><mark>&#13;</mark><span class="NAME">a</span>"#,
    ),
];

const PAGES_BY_HAND: &str = r#"
IF l if / LESS l < <- if < => <span class="IF">if</span><mark> </mark><span class="LESS">&lt;</span>
A s a+ <- a!a => a<mark>!</mark>a
"#;

// What is sent to a terminal.
const PAINTED: &[(&[u8], &str)] = &[
    (b"if a", "\x1b[31mif\x1b[0m \x1b[32ma\x1b[0m"),
    (b"==\xc3\xa9", "\x1b[34m==\x1b[0m\x1b[41mé\x1b[0m"),
    (
        b"a\n\t\nb",
        "\x1b[32ma\x1b[0m\x1b[41m\x1b[0m\n\x1b[41m\t\x1b[0m\n\x1b[41m\x1b[0m\x1b[32mb\x1b[0m",
    ),
    (
        b"\x1b[7ma",
        "\x1b[41m\x1b[7m^[\x1b[27m[7\x1b[0m\x1b[32mma\x1b[0m",
    ),
    (
        b"\0\r\x7f\xc2\x9b",
        "\x1b[41m\x1b[7m^@\x1b[27m\x1b[7m^M\x1b[27m\x1b[7m^?\x1b[27m\x1b[7m~[\x1b[27m\x1b[0m",
    ),
    (b"", ""),
];

const SEVEN_PAINTED: &[(&[u8], &str)] = &[(
    b"cbg",
    "\x1b[31mc\x1b[0m\x1b[32mb\x1b[0m\x1b[31mg\x1b[0m",
)];

#[test]
fn texts_are_shown(rt: HostRuntime) {
    expect(&rt, rt.alloc(), Call::By(Lines::Names, Asked::Page), PAGES);
    expect_lines(&rt, rt.alloc(), Call::Rules(Asked::Page), PAGES_BY_HAND);
    expect(
        &rt,
        rt.alloc(),
        Call::By(Lines::Names, Asked::Colours),
        PAINTED,
    );
    expect(
        &rt,
        rt.alloc(),
        Call::By(Lines::Seven, Asked::Colours),
        SEVEN_PAINTED,
    );
}
