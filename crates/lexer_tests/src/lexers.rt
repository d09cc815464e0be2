//! Lexers of patterns that are given in one text, and what they are asked: tokens, lookaheads, neighbours, clashes and verdicts.

use crate::calls::{Call, expect, expect_lines, halves, number};
use lalrpop_dense::{DenseDfa, TokenEnds};
use lalrpop_lexer::lexer::dfa::{Dfa, DfaConstructionError, DfaStateIndex, NfaIndex, Precedence};
use lalrpop_lexer::lexer::nfa::Steps;
use lalrpop_lexer::lexer::re::Hir;
use lalrpop_lexer::{Form, JoinError, Lexer, LexerError, Neighbours, Token, TokenFault};
use lalrpop_re::from_to;
use lalrpop_verdicts::{beside, least_difference, minimized, verdicts};
use std::alloc::{AllocError, Global};
use std::fmt::Write;

/// What a lexer is asked.
#[derive(Clone, Copy)]
pub(crate) enum Asked {
    States,
    Copy,
    First,
    ByTable,
    AtOnce,
    Cut,
    Lookahead,
    Open,
    Witness,
    Apart,
    Joined,
    Verdicts,
    Difference,
    LeastStates,
    Beside,
}

// The pattern of a word: in apostrophes it is a literal. It has the precedence of digits and `@` in front of it, or 0.
fn pattern_of(word: &str) -> (Precedence, Form, &str) {
    let (digits, text) = halves(word, "@");
    let (precedence, text) = match digits.parse() {
        Ok(precedence) => (Precedence(precedence), text),
        Err(_) => (Precedence(0), word),
    };
    if text.starts_with('\'') {
        (precedence, Form::Literal, text.trim_matches('\''))
    } else {
        (precedence, Form::Pattern, text)
    }
}

/// The lexer of words with blanks between them, each a pattern.
pub(crate) fn lexer_of(alloc: Global, words: &str) -> Result<Lexer, LexerError> {
    let mut patterns = Vec::new(alloc);
    for word in words.split_whitespace() {
        patterns.push(pattern_of(word))?;
    }
    Lexer::from_patterns(alloc, &patterns)
}

fn write_states(out: &mut String, dfa: &Dfa) -> Result<(), AllocError> {
    for state in dfa.states() {
        let kind = state.kind();
        let other = state.other_edge();
        write!(out, "{kind:?} {other}\n")?;
    }
    Ok(())
}

fn write_edges_of(out: &mut String, dfa: &Dfa, state: DfaStateIndex) -> Result<(), AllocError> {
    if state.index() < dfa.states().len() {
        for (label, target) in dfa.test_edges(state) {
            write!(out, "{state} -{label:?}-> {target}\n")?;
        }
    }
    Ok(())
}

fn states(alloc: Global, dfa: &Dfa) -> Result<String, AllocError> {
    let mut out = String::new(alloc);
    write_states(&mut out, dfa)?;
    for number in 0..dfa.states().len() {
        write_edges_of(&mut out, dfa, DfaStateIndex::new(number))?;
    }
    Ok(out)
}

// Whether copies of the automaton and of each of its states are equal to them.
fn is_copied(dfa: &Dfa) -> Result<bool, AllocError> {
    for state in dfa.states() {
        if state.clone()? != *state {
            return Ok(false);
        }
    }
    Ok(dfa.clone()? == *dfa)
}

fn copied(alloc: Global, dfa: &Dfa) -> Result<String, AllocError> {
    String::from_str(
        alloc,
        if is_copied(dfa)? {
            "copied"
        } else {
            "not copied"
        },
    )
}

fn first(alloc: Global, lexer: &Lexer, text: &str) -> Result<String, AllocError> {
    match lexer.token(text) {
        Some(token) => format!(in alloc; "{} {}", token.index.index(), token.slice),
        None => String::from_str(alloc, "none"),
    }
}

// What is found by the table, if the automaton is run by one: by one, an empty text is settled at once.
fn by_table(alloc: Global, dense: &DenseDfa, text: &str) -> Result<String, AllocError> {
    if dense.longest_within("", 0, &mut Steps::new()).is_none() {
        return String::from_str(alloc, "no table");
    }
    match dense.longest(text) {
        Some((index, matched)) => format!(in alloc; "{} {matched}", index.index()),
        None => String::from_str(alloc, "none"),
    }
}

// How many tokens are found at once.
fn first_block(dense: &DenseDfa, text: &str) -> usize {
    let mut ends = TokenEnds::new();
    let _vain = dense.find_ends(text, 0, text.len(), &mut ends, &mut Steps::new());
    for count in 0..text.len() {
        if ends.next().is_none() {
            return count;
        }
    }
    text.len()
}

fn write_item(
    out: &mut String,
    item: &Result<(NfaIndex, &str), TokenFault>,
    start: usize,
) -> Result<(), AllocError> {
    match item {
        Ok(token) => write!(out, "{} {} {start}, ", token.0.index(), token.1),
        Err(fault) => write!(out, "{fault}, "),
    }
}

// What the calls of `next` return, and whether the one after the first `None` returns it too.
fn cut<'text>(alloc: Global, lexer: &'text Lexer, text: &'text str) -> Result<String, AllocError> {
    let mut line = String::new(alloc);
    let mut items = lexer.tokens(alloc, text)?;
    // A token has one byte at least, and after a fault nothing comes.
    for _ in 0..=text.len().saturating_add(1) {
        let start = items.offset();
        match items.next() {
            Some(item) => write_item(&mut line, &item, start)?,
            None if items.next().is_none() && items.offset() == start => {
                line.push_str("None")?;
                return Ok(line);
            }
            None => return String::from_str(alloc, "more"),
        }
    }
    Ok(line)
}

fn open(alloc: Global, lexer: &Lexer) -> Result<String, AllocError> {
    let open = lexer.unbounded_patterns(alloc)?;
    format!(in alloc; "{open:?}")
}

fn witness(alloc: Global, lexer: &Lexer, count: usize) -> Result<String, AllocError> {
    let found = lexer.lookahead_witness(alloc, count)?;
    format!(in alloc; "{found:?}")
}

fn apart_by(
    alloc: Global,
    neighbours: &Neighbours<'_>,
    count: usize,
) -> Result<String, AllocError> {
    let mut line = String::new(alloc);
    for first in 0..count {
        for second in 0..count {
            if !neighbours.can_follow(NfaIndex::new(first), NfaIndex::new(second)) {
                write!(line, "{first}{second} ")?;
            }
        }
    }
    Ok(line)
}

// The pairs of patterns whose tokens may not stand side by side.
fn apart(alloc: Global, lexer: &Lexer) -> Result<String, AllocError> {
    let neighbours = lexer.neighbours(alloc)?;
    apart_by(alloc, &neighbours, lexer.regexs().len())
}

fn token_of(row: &str) -> Token<'_> {
    let (index, slice) = halves(row, " ");
    Token {
        index: NfaIndex::new(number(index)),
        slice,
        start: 0,
    }
}

fn joined_by(
    alloc: Global,
    neighbours: &Neighbours<'_>,
    tokens: &[Token<'_>],
    separator: &Token<'_>,
) -> Result<String, AllocError> {
    match neighbours.joined(alloc, tokens, separator) {
        Ok(text) => Ok(text),
        Err(JoinError::OutOfMemory) => Err(AllocError),
        Err(error) => format!(in alloc; "{error}"),
    }
}

// The text of the tokens in `TOKENS / SEPARATOR`, or why there is none.
fn join(alloc: Global, lexer: &Lexer, row: &str) -> Result<String, AllocError> {
    let (parts, separator) = halves(row, " / ");
    let neighbours = lexer.neighbours(alloc)?;
    let mut tokens = Vec::new(alloc);
    for part in parts.split(", ") {
        if tokens.push(token_of(part)).is_err() {
            return Err(AllocError);
        }
    }
    joined_by(alloc, &neighbours, &tokens, &token_of(separator))
}

fn verdicts_of(alloc: Global, trees: &[Hir], dfa: &Dfa) -> Result<String, AllocError> {
    match verdicts(alloc, trees, dfa) {
        Ok(found) => format!(in alloc; "{found:?}"),
        Err(DfaConstructionError::OutOfMemory) => Err(AllocError),
        Err(error) => format!(in alloc; "{error:?}"),
    }
}

// The least text by which two automata differ, and both answers.
fn difference(alloc: Global, left: &Dfa, right: &Dfa) -> Result<String, AllocError> {
    let labels = [0, 1, 2];
    let found = least_difference(alloc, left, &labels, right, &labels)?;
    format!(in alloc; "{found:?}")
}

fn difference_to(alloc: Global, left: &Dfa, words: &str) -> Result<String, AllocError> {
    match lexer_of(alloc, words) {
        Ok(lexer) => difference(alloc, left, lexer.dense().dfa()),
        Err(_) => Err(AllocError),
    }
}

// How many states the smallest automaton has.
fn least_states(alloc: Global, dfa: &Dfa) -> Result<String, AllocError> {
    let least = minimized(alloc, dfa)?;
    format!(in alloc; "{}", least.states().len())
}

// The least tokens of the two patterns whose join is kept, and those whose join is lost.
fn side_by_side(alloc: Global, dfa: &Dfa, pair: &str) -> Result<String, AllocError> {
    let (first, second) = halves(pair, " ");
    let joins = beside(
        alloc,
        dfa,
        NfaIndex::new(number(first)),
        NfaIndex::new(number(second)),
    )?;
    format!(in alloc; "{joins:?}")
}

fn asked_of(alloc: Global, asked: Asked, lexer: &Lexer, text: &str) -> Result<String, AllocError> {
    let dense = lexer.dense();
    match asked {
        Asked::States => states(alloc, dense.dfa()),
        Asked::Copy => copied(alloc, dense.dfa()),
        Asked::First => first(alloc, lexer, text),
        Asked::ByTable => by_table(alloc, dense, text),
        Asked::AtOnce => format!(in alloc; "{}", first_block(dense, text)),
        Asked::Cut => cut(alloc, lexer, text),
        Asked::Lookahead => format!(in alloc; "{:?}", lexer.lookahead()),
        Asked::Open => open(alloc, lexer),
        Asked::Witness => witness(alloc, lexer, number(text)),
        Asked::Apart => apart(alloc, lexer),
        Asked::Joined => join(alloc, lexer, text),
        Asked::Verdicts => verdicts_of(alloc, lexer.regexs(), dense.dfa()),
        Asked::Difference => difference_to(alloc, dense.dfa(), text),
        Asked::LeastStates => least_states(alloc, dense.dfa()),
        Asked::Beside => side_by_side(alloc, dense.dfa(), text),
    }
}

fn answer_by(alloc: Global, asked: Asked, words: &str, text: &str) -> Result<String, AllocError> {
    match lexer_of(alloc, words) {
        Ok(lexer) => asked_of(alloc, asked, &lexer, text),
        Err(LexerError::OutOfMemory) => Err(AllocError),
        Err(error) => format!(in alloc; "{error}"),
    }
}

/// What the lexer of the words in `WORDS <- TEXT` answers for the text, or why there is none.
pub(crate) fn answer(alloc: Global, asked: Asked, row: &str) -> Result<String, AllocError> {
    let (words, text) = halves(row, " <- ");
    answer_by(alloc, asked, words, text)
}

const WORDS: &str = r"1@'if' [a-z]+ [0-9]+ '+' '+=' '=' _+";

/// The same of these tokens.
pub(crate) fn joined(alloc: Global, tokens: &str) -> Result<String, AllocError> {
    answer_by(alloc, Asked::Joined, WORDS, tokens)
}

fn lexer_from_to(alloc: Global, from: &str, to: &str) -> Result<Lexer, AllocError> {
    let Ok(tree) = from_to(alloc, from, to) else {
        return Err(AllocError);
    };
    match Lexer::new(alloc, vec![in alloc; tree]?, vec![in alloc; Precedence(0)]?) {
        Ok(lexer) => Ok(lexer),
        Err(_) => Err(AllocError),
    }
}

/// The token from a beginning up to the first end at the front of the text in `FROM to TO <- TEXT`.
pub(crate) fn delimited(alloc: Global, row: &str) -> Result<String, AllocError> {
    let (ends, text) = halves(row, " <- ");
    let (from, to) = halves(ends, " to ");
    let lexer = lexer_from_to(alloc, from, to)?;
    first(alloc, &lexer, text)
}

// What each state is for and where it leads by all values without an edge of their own, and then all edges: no other state has one. States
// are numbered by the least words that lead to them, the shorter before the longer.
const AUTOMATA: &[(&str, &str)] = &[
    ("", "Reject Dfa0\n"),
    (
        "'a'",
        "Neither Dfa2\nAccepts(NfaIndex(0)) Dfa2\nReject Dfa2\nDfa0 -a-> Dfa1\n",
    ),
    (
        "'b' 'a'",
        "Neither Dfa3\nAccepts(NfaIndex(1)) Dfa3\nAccepts(NfaIndex(0)) Dfa3\nReject Dfa3\n\
        Dfa0 -a-> Dfa1\nDfa0 -b-> Dfa2\n",
    ),
    (
        "[a-b]|c",
        "Neither Dfa2\nAccepts(NfaIndex(0)) Dfa2\nReject Dfa2\n\
        Dfa0 -['a'..='b']-> Dfa1\nDfa0 -c-> Dfa1\n",
    ),
    (
        "'ab' 'abc'",
        "Neither Dfa2\nNeither Dfa2\nReject Dfa2\nAccepts(NfaIndex(0)) Dfa2\nAccepts(NfaIndex(1)) Dfa2\n\
        Dfa0 -a-> Dfa1\nDfa1 -b-> Dfa3\nDfa3 -c-> Dfa4\n",
    ),
];

#[test]
fn automata_have_these_states(rt: HostRuntime) {
    expect(&rt, rt.alloc(), Call::Lexer(Asked::States), AUTOMATA);
    let words = "1@class [a-zA-Z_][a-zA-Z0-9_]* [0-9]+ \\x20+ >> >";
    expect(
        &rt,
        rt.alloc(),
        Call::Lexer(Asked::Copy),
        &[(words, "copied")],
    );
}

// The longest match at the front of a text, the stronger of two.
const FOUND: &str = r"
1@class [a-zA-Z_][a-zA-Z0-9_]* [0-9]+ \x20+ >> > <- class Foo => 0 class
1@class [a-zA-Z_][a-zA-Z0-9_]* [0-9]+ \x20+ >> > <- classz Foo => 1 classz
1@class [a-zA-Z_][a-zA-Z0-9_]* [0-9]+ \x20+ >> > <- >> => 4 >>
1@class [a-zA-Z_][a-zA-Z0-9_]* [0-9]+ \x20+ >> > <- >a => 5 >
1@class [a-zA-Z_][a-zA-Z0-9_]* [0-9]+ \x20+ >> > <- é => none
1@'if' [a-z]+ <- iffy => 1 iffy
abc|abcd <- abcd => 0 abcd
 <- a => none
a* <- b => none
a* <-  => none
1@a* b* <- b => 1 b
[a-j] 1@[a-u] 3@[f-h] 2@[f-p] <- i => 3 i
[a-j] 1@[a-u] 3@[f-h] 2@[f-p] <- g => 2 g
[a-j] 1@[a-u] 3@[f-h] 2@[f-p] <- q => 1 q
[^\x{0}-\x{10FFFF}] <- a => none
[^\x{0}-\x{10FFFF}] <-  => none
(a(b))c <- abc => 0 abc
1@'ab' 'abc' <- abcd => 1 abc
((a*)*)* <- aab => 0 aa
(a+)+ <- aab => 0 aa
(|a)+ <- aab => 0 aa
(?:)* <- a => none
a(?i)b|c <- C => 0 C
a(?i)b|c <- aB => 0 aB
a(?i)b|c <- A => none
";

const FOUND_PAST_ASCII: &[(&str, &str)] = &[
    ("'\0a' <- \0ab", "0 \0a"),
    ("(?i)k <- \u{212A}", "0 \u{212A}"),
    ("\\d <- \u{660}1", "0 \u{660}"),
];

const BY_TABLE: &str = r"
1@class [a-zé]+ [0-9]+ <- classé 1 => 1 classé
a <- b => none
";

// There is a fused table: without one no token would be found ahead. Whether a longer match comes is open at the end.
const AT_ONCE: &str = r"
1@'class' [a-z]+ \x20+ '>>' <- class >>classes => 3
";

#[test]
fn longest_and_strongest(rt: HostRuntime) {
    expect(&rt, rt.alloc(), Call::Lexer(Asked::First), FOUND_PAST_ASCII);
    expect_lines(&rt, rt.alloc(), Call::Lexer(Asked::First), FOUND);
    expect_lines(&rt, rt.alloc(), Call::Lexer(Asked::ByTable), BY_TABLE);
    expect_lines(&rt, rt.alloc(), Call::Lexer(Asked::AtOnce), AT_ONCE);
}

// The first text that isn't a pattern, or pattern that isn't compiled, or the least word on which two patterns clash.
const REFUSED: &str = r#"
'(a' (a => the text of pattern 1 does not parse: UnclosedGroup at byte 0
'a' ^ => pattern 1 can't be compiled: LookAround
a a b?? \bc => pattern 2 can't be compiled: NonGreedy
'a' [a-b]+ => patterns 0 and 1 clash on "a"
a* b* => patterns 0 and 1 clash on ""
aa aa b b => patterns 2 and 3 clash on "b"
b b a a => patterns 2 and 3 clash on "a"
class [a-zA-Z_][a-zA-Z0-9_]* => patterns 0 and 1 clash on "class"
.* [-+]?[0-9]*\.?[0-9]+ => patterns 0 and 1 clash on "0"
[b-d] [c-f] => patterns 0 and 1 clash on "c"
(?s). (?s). 1@[\x{0}-\x{D7FF}] 1@[\x{E000}-\x{10FFFF}] => patterns 0 and 1 clash on "\u{d800}"
"#;

#[test]
fn patterns_without_a_lexer(rt: HostRuntime) {
    expect_lines(&rt, rt.alloc(), Call::Lexer(Asked::First), REFUSED);
}

// A text, and what it is cut into.
const CUT: &str = r"
1@'class' [a-zA-Z_]+ \x20+ '>>' '>' <- class Foo>>> => 0 class 0, 2   5, 1 Foo 6, 3 >> 9, 4 > 11, None
1@'class' [a-zA-Z_]+ <- é => no pattern matches at byte 0, None
'a' ab <-  => None
'a' ab <- aabc => 0 a 0, 1 ab 1, no pattern matches at byte 3, None
a* <- b => no pattern matches at byte 0, None
 <- b => no pattern matches at byte 0, None
'a' 'abcd' <- aabcdabc => 0 a 0, 1 abcd 1, 0 a 5, no pattern matches at byte 6, None
'm' ma*[a&&b] <- maa => 0 m 0, no pattern matches at byte 1, None
'a' a*b <- aac => 0 a 0, 0 a 1, no pattern matches at byte 2, None
'a' a*b <- aab => 1 aab 0, None
é é*b <- éé => 0 é 0, 0 é 2, None
";

// From a beginning up to the first end.
const DELIMITED: &str = r#"
/* to */ <- /* a **/ b */ => 0 /* a **/
/* to */ <- /*/ a */ b => 0 /*/ a */
/* to */ <- /* a => none
<!-- to --> <- <!-- a -- b ---> c --> => 0 <!-- a -- b --->
""" to """ <- """a "b" ""c"""" => 0 """a "b" ""c"""
x to aab <- xaaab aab => 0 xaaab
x to aab <- xababaab => 0 xababaab
x to aa <- xaaa => 0 xaa
x to abab <- xabaabababab => 0 xabaabab
 to ; <- a;; => 0 a;
« to »» <- «é»é»»» => 0 «é»é»»
"#;

#[test]
fn texts_are_cut(rt: HostRuntime) {
    expect_lines(&rt, rt.alloc(), Call::Lexer(Asked::Cut), CUT);
    expect_lines(&rt, rt.alloc(), Call::Delimited, DELIMITED);
}

// The greatest number of characters that leave a match open. Of the patterns in the last four lines, one waits in vain after a match, and
// three match the empty word, after which nothing counts.
const LOOKAHEADS: &str = r"
 => Some(0)
'a' 'abcd' => Some(2)
1@'if' [a-z]+ [0-9]+ [0-9]+\.[0-9]+ '.' '..' => Some(1)
1@'class' [a-zA-Z_]+ \x20+ '>>' '>' => Some(0)
'a' 'ab' 'abc' => Some(0)
a* => Some(0)
'a' a*b => None
é é*b => None
'/' /\*([^*]|\*+[^*/])*\*+/ => None
/\*([^*]|\*+[^*/])*\*+/ => Some(0)
é éàüx => Some(2)
'm' ma*[a&&b] => Some(0)
(/x*/)? => Some(0)
(|abc) => Some(0)
1@(|a*b) b => Some(0)
";

// Which patterns have no such number.
const OPEN: &str = r"
'a' a*b => [true, false]
x '/' /\*([^*]|\*+[^*/])*\*+/ => [false, true, false]
1@'if' [a-z]+ '.' '..' => [false, false, false, false]
'm' ma*[a&&b] (/x*/)? => [false, false, false]
 => []
";

// A number of characters, and by their code values a match and as many that leave it open.
const WITNESSES: &str = r"
'a' 'abcd' <- 2 => Some(Witness { word: [97], after: [98, 99] })
'a' 'abcd' <- 1 => Some(Witness { word: [97], after: [98] })
'a' 'abcd' <- 0 => Some(Witness { word: [97], after: [] })
'a' 'abcd' <- 3 => None
1@'if' [a-z]+ [0-9]+ [0-9]+\.[0-9]+ '.' '..' <- 1 => Some(Witness { word: [48], after: [46] })
1@'if' [a-z]+ [0-9]+ [0-9]+\.[0-9]+ '.' '..' <- 2 => None
[0-9]+ [0-9]+e[+-][0-9]+ <- 2 => Some(Witness { word: [48], after: [101, 43] })
a* <- 0 => Some(Witness { word: [97], after: [] })
a* <- 1 => None
(|abc) <- 0 => Some(Witness { word: [97, 98, 99], after: [] })
(|abc) <- 1 => None
'm' ma*[a&&b] <- 1 => None
'a' a*b <- 3 => Some(Witness { word: [97], after: [97, 97, 97] })
'/' /\*([^*]|\*+[^*/])*\*+/ <- 2 => Some(Witness { word: [47], after: [42, 0] })
é éàüx <- 2 => Some(Witness { word: [233], after: [224, 252] })
'b' 'ab' 'abcd' 'bcd' <- 1 => Some(Witness { word: [98], after: [99] })
'bb' 'ab' 'abcd' 'bbcd' <- 1 => Some(Witness { word: [97, 98], after: [99] })
 <- 0 => None
";

#[test]
fn characters_that_leave_a_match_open(rt: HostRuntime) {
    expect_lines(&rt, rt.alloc(), Call::Lexer(Asked::Lookahead), LOOKAHEADS);
    expect_lines(&rt, rt.alloc(), Call::Lexer(Asked::Open), OPEN);
    expect_lines(&rt, rt.alloc(), Call::Lexer(Asked::Witness), WITNESSES);
}

const APART: &[(&str, &str)] = &[
    (WORDS, "00 01 10 11 22 35 66 "),
    // After `1` no match goes on with only a point, but one may begin so; a dead state waits for nothing.
    (r"[0-9]+(\.[0-9]+)? '.'", "00 01 "),
    ("'m' ma*[a&&b] 'a'", ""),
    ("'a' 'aa'", "00 01 "),
    ("é éàü à", "02 "),
    ("", ""),
];

const JOINED: &str = r"
0 if, 1 x, 3 +, 5 =, 2 1 / 6 _ => if_x+_=1
4 +=, 5 =, 3 +, 3 + / 6 __ => +==++
1 a, 1 b, 2 1 / 2 0 => a0b1
6 _, 1 a, 6 _, 6 _ / 3 + => _a_+_
1 x, 1 if / 6 _ => token 1 is not what is cut from its text
2 1, 1 xy_ / 6 _ => token 1 is not what is cut from its text
1 x / 6 a => the separator is not what is cut from its text
2 1, 1 x, 0 if / 1 y => token 1 can't be kept apart from the next one
";

const APART_BY_NEED: &[(&str, &str)] = &[("[0-9]+([.][0-9]+)? [.] _ <- 0 1, 1 . / 2 _", "1_.")];

#[test]
fn tokens_with_what_keeps_them_apart(rt: HostRuntime) {
    expect(&rt, rt.alloc(), Call::Lexer(Asked::Apart), APART);
    expect(&rt, rt.alloc(), Call::Lexer(Asked::Joined), APART_BY_NEED);
    expect_lines(&rt, rt.alloc(), Call::Joined, JOINED);
}

const VERDICTS: &str = r"
1@class [a-z]+ => [Wins([99, 108, 97, 115, 115]), Wins([97])]
class 1@[a-z]+ => [Shadowed([WonWord { by: NfaIndex(1), word: [99, 108, 97, 115, 115] }]), Wins([97])]
[ab] 1@b 1@a => [Shadowed([WonWord { by: NfaIndex(1), word: [98] }, WonWord { by: NfaIndex(2), word: [97] }]), Wins([98]), Wins([97])]
a* b => [Wins([97]), Wins([98])]
() a => [Unmatched, Wins([97])]
[\x{D7FF}-\x{E000}] 1@\x{D7FF} => [Wins([57344]), Wins([55295])]
";

const DIFFERENCES: &str = r"
a b <- b a => Some(Difference { word: [97], left: Some(NfaIndex(0)), right: Some(NfaIndex(1)) })
ab [a-c]{3} <- ab [ab]{3} => Some(Difference { word: [97, 97, 99], left: Some(NfaIndex(1)), right: None })
a+ <- aa* => None
a* <- a+ => None
";

const LEAST_STATES: &str = "
ab|cb => 4
a b => 4
a* => 2
[a&&b] => 1
";

const BESIDE: &str = r"
[0-9]+ [0-9]+\.[0-9]+ \.[a-z]+ <- 0 2 => Joins { kept: Some(TokenPair { first: [48], second: [46, 97] }), lost: None }
[0-9]+ [0-9]+\.[0-9]+ \.[a-z]+ <- 0 0 => Joins { kept: None, lost: Some(TokenPair { first: [48], second: [48] }) }
[0-9]+ [0-9]+\.[0-9]+ \.[a-z]+ <- 0 1 => Joins { kept: None, lost: Some(TokenPair { first: [48], second: [48, 46, 48] }) }
a|ab b|c <- 0 1 => Joins { kept: Some(TokenPair { first: [97], second: [99] }), lost: Some(TokenPair { first: [97], second: [98] }) }
a|bc d ad <- 0 1 => Joins { kept: Some(TokenPair { first: [98, 99], second: [100] }), lost: Some(TokenPair { first: [97], second: [100] }) }
a b <- 0 7 => Joins { kept: None, lost: None }
";

#[test]
fn patterns_are_judged(rt: HostRuntime) {
    expect_lines(&rt, rt.alloc(), Call::Lexer(Asked::Verdicts), VERDICTS);
    expect_lines(&rt, rt.alloc(), Call::Lexer(Asked::Difference), DIFFERENCES);
    expect_lines(
        &rt,
        rt.alloc(),
        Call::Lexer(Asked::LeastStates),
        LEAST_STATES,
    );
    expect_lines(&rt, rt.alloc(), Call::Lexer(Asked::Beside), BESIDE);
}
