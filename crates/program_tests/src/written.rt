//! The lines and pages of texts that named rules cut, however the texts come: in chunks, with a byte order mark, with bytes that aren't
//! UTF-8, and into a writer that fails.

use crate::cutting::{
    ANSI, CLEAN, Ended, FAULTY, HTML, JSON, PLAIN, PLAIN_RULES, RECOVERING, RECOVERING_JSON, Run,
    Shape, WORD_RULES, holds,
};
use lalrpop_lexer::Position;
use std::alloc::{AllocError, Global};
use std::io;
use tokens_lib::Found;

// Bytes, what is written for them, and how cutting ends.
type Row = (Shape, &'static [u8], &'static [u8], Ended);

// By `PLAIN_RULES`.
const TEXTS: &[Row] = &[
    (
        PLAIN,
        b"if\n iffy",
        b"1:1 IF \"if\"\n2:2 NAME \"iffy\"\n",
        CLEAN,
    ),
    (
        PLAIN,
        b"a 1 b",
        b"1:1 NAME \"a\"\n",
        Ended::Stopped {
            place: Position { line: 1, column: 3 },
            found: Found::Character('1'),
        },
    ),
    (
        RECOVERING,
        b"\xc3\xa91 b\"",
        b"f:1:1 ! \"\xc3\xa91\"\nf:1:4 NAME \"b\"\nf:1:5 ! \"\\\"\"\n",
        FAULTY,
    ),
    (
        JSON,
        b" a",
        b"{\"line\":1,\"column\":2,\"start\":1,\"end\":2,\"rule\":\"NAME\",\"text\":\"a\"}\n",
        CLEAN,
    ),
    (
        RECOVERING_JSON,
        b"\n\"\x01",
        b"{\"file\":\"\\\"f\\\"\",\"line\":2,\"column\":1,\"start\":1,\"end\":3,\"rule\":null,\"text\":\"\\\"\\u0001\"}\n",
        FAULTY,
    ),
    (
        HTML,
        b"a <\"b>",
        b"<span class=\"NAME\">a</span> <mark>&lt;&quot;</mark><span class=\"NAME\">b</span><mark>&gt;</mark>",
        FAULTY,
    ),
    (
        ANSI,
        b"\x1b1a2",
        b"\x1b[41m\x1b[7m^[\x1b[27m1\x1b[0m\x1b[32ma\x1b[0m\x1b[41m2\x1b[0m",
        FAULTY,
    ),
];

// By `WORD_RULES`: characters that may come in two.
const WORDS: &[Row] = &[
    // é, €, an emoji and a; a space; an emoji.
    (
        PLAIN,
        b"\xc3\xa9\xe2\x82\xac\xf0\x9f\x98\x80a \xf0\x9f\x98\x80",
        b"1:1 WORD \"\xc3\xa9\xe2\x82\xac\xf0\x9f\x98\x80a\"\n1:6 WORD \"\xf0\x9f\x98\x80\"\n",
        CLEAN,
    ),
    (
        JSON,
        b" \xe2\x82\xac\xc3\xa9 ",
        b"{\"line\":1,\"column\":2,\"start\":1,\"end\":6,\"rule\":\"WORD\",\"text\":\"\xe2\x82\xac\xc3\xa9\"}\n",
        CLEAN,
    ),
    // §, U+20AD and U+1F601 lie in a fault.
    (
        RECOVERING,
        b"a\xc2\xa7\xe2\x82\xad\xf0\x9f\x98\x81a",
        b"f:1:1 WORD \"a\"\nf:1:2 ! \"\xc2\xa7\xe2\x82\xad\xf0\x9f\x98\x81\"\nf:1:5 WORD \"a\"\n",
        FAULTY,
    ),
    (
        HTML,
        b"\xf0\x9f\x98\x80\xe2\x82\xad\xc3\xa9",
        b"<span class=\"WORD\">\xf0\x9f\x98\x80</span><mark>\xe2\x82\xad</mark><span class=\"WORD\">\xc3\xa9</span>",
        FAULTY,
    ),
];

// By `PLAIN_RULES`: what isn't UTF-8 lies in a fault. A column counts the bytes with which a character begins: all but 0x80 to 0xBF.
const BYTES: &[Row] = &[
    (
        RECOVERING,
        b"ab?\xff if",
        b"f:1:1 NAME \"ab\"\nf:1:3 ! \"?\\xff\"\nf:1:6 IF \"if\"\n",
        FAULTY,
    ),
    // A byte of no character ends the token before it.
    (
        RECOVERING,
        b"a\x80\x80\nb\xe2\x82c",
        b"f:1:1 NAME \"a\"\nf:1:2 ! \"\\x80\\x80\"\nf:2:1 NAME \"b\"\nf:2:2 ! \"\\xe2\\x82\"\nf:2:3 NAME \"c\"\n",
        FAULTY,
    ),
    // A fault that isn't UTF-8 is written byte by byte.
    (
        RECOVERING,
        b"\xc3\xa9\xff\"",
        b"f:1:1 ! \"\\xc3\\xa9\\xff\\\"\"\n",
        FAULTY,
    ),
    (
        RECOVERING_JSON,
        b"\n?\xff\xe2\x82",
        b"{\"file\":\"\\\"f\\\"\",\"line\":2,\"column\":1,\"start\":1,\"end\":5,\"rule\":null,\"text\":\"?\xef\xbf\xbd\xef\xbf\xbd\"}\n",
        FAULTY,
    ),
    (
        HTML,
        b"if\xffa",
        b"<span class=\"IF\">if</span><mark>\xef\xbf\xbd</mark><span class=\"NAME\">a</span>",
        FAULTY,
    ),
    // A byte order mark is left out; the text ends within a character.
    (
        PLAIN,
        b"\xef\xbb\xbfa\xc3",
        b"1:1 NAME \"a\"\n",
        Ended::Stopped {
            place: Position { line: 1, column: 2 },
            found: Found::Byte(0xc3),
        },
    ),
    // A part of a byte order mark is none.
    (
        PLAIN,
        b"\xef\xbb",
        b"",
        Ended::Stopped {
            place: Position { line: 1, column: 1 },
            found: Found::Byte(0xef),
        },
    ),
    (
        RECOVERING,
        b"\xef\xbba",
        b"f:1:1 ! \"\\xef\\xbb\"\nf:1:2 NAME \"a\"\n",
        FAULTY,
    ),
];

fn run_of<'a>(rules: &'a [u8], row: &Row) -> Run<'a> {
    Run {
        rules,
        shape: row.0,
        text: row.1,
        breaks: false,
        written: row.2,
        end: row.3,
        failure: None,
        settled: None,
    }
}

fn marked(alloc: Global, bytes: &[u8]) -> Result<Vec<u8>, AllocError> {
    let mut all = Vec::new(alloc);
    all.extend_from_slice(b"\xef\xbb\xbf")?;
    all.extend_from_slice(bytes)?;
    Ok(all)
}

// Whether the run goes as well after a byte order mark.
fn holds_with_mark(alloc: Global, run: Run<'_>) -> bool {
    match marked(alloc, run.text) {
        Ok(bytes) => holds(
            alloc,
            &Run {
                text: &bytes,
                ..run
            },
        ),
        Err(_) => false,
    }
}

fn makes_no_difference(alloc: Global, run: Run<'_>) -> bool {
    holds(alloc, &run) && holds_with_mark(alloc, run)
}

#[test]
fn chunks_and_marks_make_no_difference(rt: HostRuntime) {
    for row in TEXTS {
        assert!(rt; makes_no_difference(rt.alloc(), run_of(PLAIN_RULES, row)));
    }
    for row in WORDS {
        assert!(rt; makes_no_difference(rt.alloc(), run_of(WORD_RULES, row)));
    }
}

#[test]
fn what_is_no_text_lies_in_faults(rt: HostRuntime) {
    for row in BYTES {
        assert!(rt; holds(rt.alloc(), &run_of(PLAIN_RULES, row)));
    }
}

// Wherever the writer fails, it has what stands before.
fn leaves_prefixes(alloc: Global, run: Run<'_>, failure: Option<io::ErrorKind>) -> bool {
    for room in 0..run.written.len() {
        let written = run.written.get(..room).unwrap_or(b"?");
        let end = Ended::Unwritten;
        if !holds(
            alloc,
            &Run {
                written,
                end,
                failure,
                ..run
            },
        ) {
            return false;
        }
    }
    true
}

#[test]
fn a_failed_write_leaves_a_prefix_of_lines_and_pages(rt: HostRuntime) {
    for row in TEXTS {
        for failure in [None, Some(io::ErrorKind::Other)] {
            assert!(rt; leaves_prefixes(rt.alloc(), run_of(PLAIN_RULES, row), failure));
        }
    }
}
