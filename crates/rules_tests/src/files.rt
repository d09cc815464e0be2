//! Files of rules: what they are read as, what is wrong with them, and what they are warned of.

use crate::calls::{Call, expect, expect_lines};
use crate::rules::PARTS;
use lalrpop_rule_file::{FileRule, RuleFile, RuleFileError, read_rules};
use std::alloc::{AllocError, Global};
use std::fmt::Write;

/// What is asked of a file that is read: its rules, the names of its modes, its parts, how many of them its rules know, and warnings; and
/// of one that isn't, the place and the kind of its error, or the error in words.
#[derive(Clone, Copy)]
pub(crate) enum Side {
    Rules,
    Modes,
    Parts,
    Known,
    Warnings,
    Kind,
    Words,
}

fn add_rule(lines: &mut String, rule: &FileRule) -> Result<(), AllocError> {
    let (written, place) = (rule.rule, rule.place);
    write!(
        lines,
        "{} {:?} {} {} {:?} {:?} {}:{}\n",
        written.name,
        written.text,
        written.precedence.0,
        written.is_skipped,
        rule.modes,
        rule.actions,
        place.line,
        place.column
    )
}

// The rules, one a line.
fn rules(alloc: Global, rules: &[FileRule]) -> Result<String, AllocError> {
    let mut lines = String::new(alloc);
    for rule in rules {
        add_rule(&mut lines, rule)?;
    }
    Ok(lines)
}

// How many parts there are, and how many of them each rule knows.
fn known(alloc: Global, parts: usize, rules: &[FileRule]) -> Result<String, AllocError> {
    let mut line = format!(in alloc; "{parts}:")?;
    for rule in rules {
        write!(line, " {}", rule.known)?;
    }
    Ok(line)
}

fn warnings(alloc: Global, file: &RuleFile) -> Result<String, AllocError> {
    let warnings = file.warnings(alloc)?;
    format!(in alloc; "{warnings:?}")
}

fn asked_of(alloc: Global, side: Side, file: &RuleFile) -> Result<String, AllocError> {
    match side {
        Side::Rules => rules(alloc, &file.rules),
        Side::Modes => format!(in alloc; "{:?}", file.modes),
        Side::Parts => format!(in alloc; "{:?}", file.part_lines),
        Side::Known => known(alloc, file.parts.len(), &file.rules),
        Side::Warnings => warnings(alloc, file),
        Side::Kind | Side::Words => String::from_str(alloc, "none"),
    }
}

fn kind_of(alloc: Global, error: &RuleFileError) -> Result<String, AllocError> {
    match error {
        RuleFileError::BadLine {
            line,
            column,
            fault,
        } => format!(in alloc; "{line} {column} {fault:?}"),
        RuleFileError::BadPart { line, column, kind } => {
            format!(in alloc; "{line} {column} BadPart {kind:?}")
        }
        RuleFileError::RepeatedPart { line, column } => {
            format!(in alloc; "{line} {column} RepeatedPart")
        }
        RuleFileError::NoSuchMode { line, column } => {
            format!(in alloc; "{line} {column} NoSuchMode")
        }
        RuleFileError::OutOfMemory => Err(AllocError),
    }
}

/// What is asked of the file, or of its error.
pub(crate) fn read(alloc: Global, side: Side, bytes: &[u8]) -> Result<String, AllocError> {
    match read_rules(alloc, bytes) {
        Ok(file) => asked_of(alloc, side, &file),
        Err(RuleFileError::OutOfMemory) => Err(AllocError),
        Err(error) if matches!(side, Side::Words) => format!(in alloc; "{error}"),
        Err(error) => kind_of(alloc, &error),
    }
}

/// The same, where `;` stands for a line feed.
pub(crate) fn read_line(alloc: Global, side: Side, line: &[u8]) -> Result<String, AllocError> {
    let lines = str::from_utf8(line)
        .unwrap_or("?")
        .replace(alloc, ';', "\n")?;
    read(alloc, side, lines.as_bytes())
}

/// Names, and what is between them.
pub(crate) const FILE: &[u8] = b"# Names, and what is between them\r
\r
IF = 'if'\r
NAME=/[a-z]+/
 \tSPACE\tskip = 2 / +/ \t
QUOTE = 007'''
   # no rule = 'x'
skip = '\xc3\xa9 '";

const READ: &str = r#"IF Literal("if") 1 false [0] [] 3:7
NAME Pattern("[a-z]+") 0 false [0] [] 4:7
SPACE Pattern(" +") 2 true [0] [] 5:19
QUOTE Literal("'") 7 false [0] [] 6:13
skip Literal("é ") 1 false [0] [] 8:9
"#;

const MODES: &[u8] = b"OPEN push COMMENT = '/*'
mode mode INITIAL = from'x y ' to 'z' 
[ COMMENT STRING ]
pop skip pop push STRING mode INITIAL = from ''' to '''
[*]\r
ALL=/a/
[STRING]\t
LAST = from ' to' to ' to ''
[INITIAL COMMENT]
END mode COMMENT = 3 from '' to '\xc3\xa9'";

const IN_MODES: &str = r#"OPEN Literal("/*") 1 false [0] [Push(1)] 1:22
mode FromTo { from: "x y ", to: "z" } 0 false [0] [Mode(0)] 2:26
pop FromTo { from: "'", to: "'" } 0 true [1, 2] [Pop, Push(2), Mode(0)] 4:47
ALL Pattern("a") 0 false [0, 1, 2] [] 6:6
LAST FromTo { from: " to", to: " to '" } 0 false [2] [] 8:14
END FromTo { from: "", to: "é" } 3 false [0, 1] [Mode(1)] 10:28
"#;

// Names that are words, delimiters inside, and escapes, which stay as they are written.
const LITERALS: &[u8] = b"SELECT = anycase 'select'
FROM=anycase'from'  
anycase skip = 7 anycase ''' '
LINE_FEED = \"\\n\"
STRING = 3 \"a\"b\\\" 
from = \"'/\"
";

const LITERALS_READ: &str = r#"SELECT AnyCase("select") 1 false [0] [] 1:19
FROM AnyCase("from") 1 false [0] [] 2:14
anycase AnyCase("'' ") 7 true [0] [] 3:27
LINE_FEED Escaped("\\n") 1 false [0] [] 4:14
STRING Escaped("a\"b\\") 3 false [0] [] 5:13
from Escaped("'/") 1 false [0] [] 6:9
"#;

const ALL_READ: &[(&[u8], &str)] = &[
    (FILE, READ),
    (b"", ""),
    (b"\xef\xbb\xbf", ""),
    (
        b"\xef\xbb\xbfA skip= 'x'",
        "A Literal(\"x\") 1 true [0] [] 1:10\n",
    ),
    (LITERALS, LITERALS_READ),
    (MODES, IN_MODES),
];

const NUMBERED: &[(&[u8], &str)] = &[
    (b"", "[\"INITIAL\"]"),
    (b"[*]\nA = 'a'", "[\"INITIAL\"]"),
    (MODES, "[\"INITIAL\", \"COMMENT\", \"STRING\"]"),
    (b"[B]\n[A B]\n[C]\n[B]", "[\"B\", \"A\", \"C\"]"),
    (b"# no rule\n[B INITIAL]", "[\"B\", \"INITIAL\"]"),
    (b"A = 'a'\n[B INITIAL]", "[\"INITIAL\", \"B\"]"),
    (b"[*]\n[B]", "[\"B\"]"),
];

const KNOWN: &[(&[u8], &str)] = &[
    (b"", "0:"),
    (b"A = 'a'\n# P part = /p/\nB = 'b'", "0: 0 0"),
    (
        b"A = /a/\nP part = /p/\nB = /{P}/\n\nQ part = /{P}q/\nC = 'c'",
        "2: 0 1 2",
    ),
    (PARTS, "3: 3 3 3"),
];

const PLACES: &str = r#"
D part = /[0-9]/ => [PartLine { name: "D", pattern: "[0-9]", place: Position { line: 1, column: 1 } }]
A = 'a';  E  part  = /x/ ;# no;F part=/f// => [PartLine { name: "E", pattern: "x", place: Position { line: 2, column: 3 } }, PartLine { name: "F", pattern: "f/", place: Position { line: 4, column: 1 } }]
"#;

#[test]
fn files_are_read(rt: HostRuntime) {
    expect(&rt, rt.alloc(), Call::Read(Side::Rules), ALL_READ);
    expect(&rt, rt.alloc(), Call::Read(Side::Modes), NUMBERED);
    expect(&rt, rt.alloc(), Call::Read(Side::Known), KNOWN);
    expect_lines(&rt, rt.alloc(), Call::ReadLine(Side::Parts), PLACES);
}

const BAD: &str = r#"
= 'x' => 1 1 NoName
  1a = 'x' => 1 3 NoName
é = 'x' => 1 1 NoName
A => 1 2 NoEquals
A 'x' => 1 3 NoEquals
A-B = 'x' => 1 2 NoEquals
A skip 'x' => 1 8 NoEquals
A skipped = 'x' => 1 3 NoEquals
A skip1 = 'x' => 1 3 NoEquals
A = 18446744073709551616 'x' => 1 5 PrecedenceTooLarge
A = 000000000000000000000 'x' => 1 5 PrecedenceTooLarge
A = x => 1 5 NoText
A = 1 1 'x' => 1 7 NoText
A = 'x => 1 7 NotClosed
A = ' => 1 6 NotClosed
A = 'é' y => 1 9 NotClosed
A = 'x/ => 1 8 NotClosed
A mode = 'x' => 1 8 NoMode
A push 1 = 'x' => 1 8 NoMode
A pop push => 1 11 NoMode
A pop skip = 'x' => 1 7 NoEquals
A popper = 'x' => 1 3 NoEquals
[ => 1 2 NoMode
[ ] => 1 3 NoMode
[1] => 1 2 NoMode
[A => 1 3 NoBracket
[A, B] => 1 3 NoBracket
[A *] => 1 4 NoBracket
[* A] => 1 4 NoBracket
[A] B => 1 5 AfterSection
[*] # all => 1 5 AfterSection
A part => 1 7 NoEquals
A part 'x' => 1 8 NoEquals
A parts = /x/ => 1 3 NoEquals
A skip part = /x/ => 1 8 NoEquals
A part skip = /x/ => 1 8 NoEquals
A part = 'x' => 1 10 NoPattern
A part = 2 /x/ => 1 10 NoPattern
A part =  => 1 10 NoPattern
A part = /x => 1 12 NotClosed
A part = /é/ y => 1 14 NotClosed
part = /x/ => none
part part = /x/ => none
A = "x => 1 7 NotClosed
A = "x' => 1 8 NotClosed
A = "x" # y => 1 9 NotClosed
A = anycase => 1 12 NoLiteral
A = anycase "x" => 1 13 NoLiteral
A = 2 anycase x => 1 15 NoLiteral
A = anycase x 'x' => 1 13 NoLiteral
A = anycases 'x' => 1 5 NoText
A = AnyCase 'x' => 1 5 NoText
A = anycase 2 'x' => 1 13 NoLiteral
A = anycase 'x => 1 15 NotClosed
A = anycase 'x' y => 1 17 NotClosed
A part = anycase 'x' => 1 10 NoPattern
A part = "x" => 1 10 NoPattern
A = from "x" to "y" => 1 10 NoFrom
A = from => 1 9 NoFrom
A = from x => 1 10 NoFrom
A = from1 'x' to 'y' => 1 5 NoText
A = from 'x => 1 12 NoTo
A = from 'x' 'y' => 1 12 NoTo
A = from 'x'to 'y' => 1 12 NoTo
A = from 'x' to y => 1 12 NoTo
A = from 'x' to 'y => 1 19 NotClosed
A = from 'x' to 'y' z => 1 21 NotClosed
"#;

const BAD_BYTES: &[(&[u8], &str)] = &[
    (b"\xef\xbb\xbfA 'x'", "1 3 NoEquals"),
    (b"\xef\xbb\xbf\xef\xbb\xbfA = 'x'", "1 1 NoName"),
    (b"A = 'x'\n\xef\xbb\xbfB = 'y'", "2 1 NoName"),
    (b"A = 'x'\n\nB\nC\n", "3 2 NoEquals"),
    (b"# \xc3\xa9\xff", "1 4 NotUtf8"),
    (b"A = 'x'\rB = 'y'\r", "1 8 CarriageReturn"),
    (b"A = 'x'\n# \xc3\xa9\r\r\n", "2 4 CarriageReturn"),
    (b"A push B = 'x'\n[b]", "1 8 NoSuchMode"),
    (b"[B]\n\xc3\xa9", "2 1 NoName"),
    (
        b"[B]\nA push B  mode INITIAL = 'x'\nA push C = 'x'",
        "2 16 NoSuchMode",
    ),
    (b"A push B = 'x'\nA", "2 2 NoEquals"),
    // Parts.
    (
        b"C part = /c/\nB part = /\xc3\xa9{A}/\nA part = /a/",
        "2 12 BadPart PartUnknown",
    ),
    (b"  A part = /a(b/", "1 14 BadPart UnclosedGroup"),
    (b"A part = /a/\n  A part = /b/", "2 3 RepeatedPart"),
    (b"A part = /a/\nA part = /(/", "2 1 RepeatedPart"),
    (b"B part = /(/\nB part = /b/", "1 11 BadPart UnclosedGroup"),
    (b"[B]\nA part = /a/\n[C]\nA part = /a/", "4 1 RepeatedPart"),
    (
        b"R push X = 'r'\nA part = /a/\nA part = /a/",
        "3 1 RepeatedPart",
    ),
    (b"A part = /a/\nA part = /a/\n=", "3 1 NoName"),
    (b"A = 'a'\nA part = /a/", "none"),
];

const IN_WORDS: &str = r#"
1 => line 1, column 1: a line is a rule, as NAME = 'TEXT' or NAME = /PATTERN/, a section, as [A], or a comment, as # TEXT; a name has ASCII letters, digits and `_`, and doesn't begin with a digit
A 'x' => line 1, column 3: `=` is missing: a name has only ASCII letters, digits and `_`, and only `part`, or `skip`, then `mode M`, `push M` and `pop` may follow it
A = x => line 1, column 5: a text is missing: 'LITERAL', "LITERAL", anycase 'LITERAL', /PATTERN/ or from 'A' to 'B'; before it only the digits of a precedence may stand
A = anycase x => line 1, column 13: an apostrophe is missing after `anycase`: write anycase 'TEXT'
A = /a/i => line 1, column 8: the line must end with the apostrophe, quote or slash of its text: a comment is a line of its own, and flags stand in the pattern, as in /(?i)a/
"#;

const REPEATED: &[(&[u8], &str)] = &[(
    b"A part = /a/\nA part = /a/",
    "line 2, column 1: a part above has this name",
)];

#[test]
fn faults_of_files_are_told(rt: HostRuntime) {
    expect_lines(&rt, rt.alloc(), Call::Read(Side::Kind), BAD);
    expect(&rt, rt.alloc(), Call::Read(Side::Kind), BAD_BYTES);
    expect_lines(&rt, rt.alloc(), Call::Read(Side::Words), IN_WORDS);
    expect(&rt, rt.alloc(), Call::Read(Side::Words), REPEATED);
}

// Files, with `;` between their lines, and their warnings.
const WARNED: &str = r#"
A = 'a' => []
D part = /[0-9]/;NUM = /{D}+/;[C];X pop = 'x';[INITIAL];IN push C = '(' => []
# nothing => [NoRules]
D part = /[0-9]/ => [NoRules, PartUnused { part: 0 }]
[A B] => [NoRules, ModeNotEntered { mode: 1 }]
D part = /[0-9]/;E part = /e{D}/;F part = /f/;A = /{E}/ => [PartUnused { part: 2 }]
A = /{D}/;D part = /d/;E part = /{D}/ => [PartUnused { part: 1 }]
D part = /d/;A = '{D}' => [PartUnused { part: 0 }]
A = 'a';[B];C push D = 'c';[D];E = 'e' => [ModeNotEntered { mode: 1 }, ModeNotEntered { mode: 2 }]
A mode C = 'a';[B];D pop = 'd';[C];E push B = 'e' => [ModeNotLeft { mode: 2 }]
A = 'a';[B];C push B = 'c' => [ModeNotEntered { mode: 1 }]
A = '';B = "";C = anycase '';D = // => []
A mode C = 'a';[B];D pop = 'd';[C];E mode INITIAL = 'e';F push B = 'f' => []
A push C = 'a';[B];D pop mode C pop = 'd';[C];E push B = 'e' => []
A push C = 'a';[B];D pop mode C = 'd';[C];E push B mode C = 'e' => [ModeNotLeft { mode: 2 }]
A = 'a' # 'b';B = 'b#' c';C = 'c' D = 'd' => [TextGoesOn { rule: 0 }, TextGoesOn { rule: 2 }]
A = "a\" # ";B = "a" # ";C = anycase 'c'  D  = 'd';D = from ' # ' to '' E=' => [TextGoesOn { rule: 1 }, TextGoesOn { rule: 2 }, TextGoesOn { rule: 3 }]
A = /[:alpha:]+/;B = /[[:alpha:]]+/;C = /a[:^word:]/;D = /\[:word:]/;E = /[:Alpha:]/;F = '[:alpha:]' => [ClassOutside { rule: 0 }, ClassOutside { rule: 2 }]
A = /[a][:alpha:]/;B = /\\[b[:digit:]]?[:digit:]|é/;C = /[^]\]][:^word:]]/;D = /[^][:space:]]*/;E = /[]\]][:alpha:]/ => [ClassOutside { rule: 0 }, ClassOutside { rule: 1 }, ClassOutside { rule: 2 }, ClassOutside { rule: 4 }]
A = /".*"/;B = /\/\*.+\*\//;C = /(?s)<!--.*-->/;D = /a\.\?.*b/;E = /ä.*ö/ => [EndPassed { rule: 0 }, EndPassed { rule: 1 }, EndPassed { rule: 2 }, EndPassed { rule: 3 }, EndPassed { rule: 4 }]
A = /\/\*(?s:.)*\*\//;B = /<!--(.|\n)*-->/;C = /'[\s\S]+'/;D = /\((?s:.*)\)/;E = /a(?:.|\n)*b/ => [EndPassed { rule: 0 }, EndPassed { rule: 1 }, EndPassed { rule: 2 }, EndPassed { rule: 3 }, EndPassed { rule: 4 }]
A = /#.*/;B = /#.*\n/;C = /"[^"]*"/;D = /\".\*"/;E = /.*x/;F = /a.*b+/;G = '".*"';H = /a.?b/;I = /a\.*b/;J = /".*\"?/;K = /(a).*b/;L = /a(.|\n)*/;M = /a[\S\n]*b/ => []
D part = /d/;[A];B = /a.*b/;[C];E pop = 'e' => [PartUnused { part: 0 }, ModeNotEntered { mode: 1 }, EndPassed { rule: 0 }]
"#;

#[test]
fn files_are_warned_of(rt: HostRuntime) {
    expect_lines(&rt, rt.alloc(), Call::ReadLine(Side::Warnings), WARNED);
}
