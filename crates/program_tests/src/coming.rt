//! Texts that named rules cut as they come, up to a failed read or a fault; and that what nothing that comes can change is written
//! before more is read.

use crate::cutting::{
    COMMENT_RULES, Ended, JSON, PLAIN, PLAIN_RULES, RECOVERING, Run, Shape, WORD_RULES, holds,
    stopped,
};
use std::alloc::Global;
use std::io;
use tokens_lib::Found;

// A text and the lines of its pieces but the last. `written` says of which number of bytes on what is written: nothing that comes can
// change a line once the first character has come that can't be part of its piece; at once, if no longer piece begins so.
#[derive(Clone, Copy)]
struct Coming {
    rules: &'static [u8],
    shape: Shape,
    text: &'static [u8],
    written: &'static [(usize, &'static [u8])],
}

const COMING: &[Coming] = &[
    Coming {
        rules: PLAIN_RULES,
        shape: PLAIN,
        text: b"if\n iffy a",
        written: &[
            (0, b""),
            (3, b"1:1 IF \"if\"\n"),
            (9, b"1:1 IF \"if\"\n2:2 NAME \"iffy\"\n"),
        ],
    },
    Coming {
        rules: PLAIN_RULES,
        shape: RECOVERING,
        text: b"?\xc3\xa9 a?",
        written: &[
            (0, b""),
            (4, b"f:1:1 ! \"?\xc3\xa9\"\n"),
            (6, b"f:1:1 ! \"?\xc3\xa9\"\nf:1:4 NAME \"a\"\n"),
        ],
    },
    Coming {
        rules: PLAIN_RULES,
        shape: JSON,
        text: b" a ",
        written: &[
            (0, b""),
            (
                3,
                b"{\"line\":1,\"column\":2,\"start\":1,\"end\":2,\"rule\":\"NAME\",\"text\":\"a\"}\n",
            ),
        ],
    },
    Coming {
        rules: WORD_RULES,
        shape: PLAIN,
        text: b"\xc3\xa9\xe2\x82\xac \xf0\x9f\x98\x80 a",
        written: &[
            (0, b""),
            (6, b"1:1 WORD \"\xc3\xa9\xe2\x82\xac\"\n"),
            (
                11,
                b"1:1 WORD \"\xc3\xa9\xe2\x82\xac\"\n1:4 WORD \"\xf0\x9f\x98\x80\"\n",
            ),
        ],
    },
    Coming {
        rules: COMMENT_RULES,
        shape: PLAIN,
        text: b"a/*b*/c",
        written: &[
            (0, b""),
            (2, b"1:1 NAME \"a\"\n"),
            (3, b"1:1 NAME \"a\"\n1:2 OPEN \"/*\"\n"),
            (6, b"1:1 NAME \"a\"\n1:2 OPEN \"/*\"\n1:5 CLOSE \"*/\"\n"),
        ],
    },
];

fn run_of<'a>(job: &Coming, text: &'a [u8], written: &'a [u8], size: usize) -> Run<'a> {
    Run {
        rules: job.rules,
        shape: job.shape,
        text,
        breaks: true,
        written,
        end: Ended::Unread,
        failure: Some(io::ErrorKind::Other),
        settled: Some(size),
    }
}

// What is written of as many bytes of the text.
fn written_of(job: &Coming, size: usize) -> &'static [u8] {
    let mut written: &'static [u8] = b"?";
    for (from, lines) in job.written {
        if *from <= size {
            written = *lines;
        }
    }
    written
}

// The first bytes come, then a read fails.
fn breaks_off_anywhere(alloc: Global, job: &Coming) -> bool {
    for size in 0..=job.text.len() {
        let bytes = job.text.get(..size).unwrap_or(b"");
        if !holds(alloc, &run_of(job, bytes, written_of(job, size), size)) {
            return false;
        }
    }
    true
}

#[test]
fn a_failed_read_leaves_the_lines_in_front(rt: HostRuntime) {
    for job in COMING {
        assert!(rt; breaks_off_anywhere(rt.alloc(), job));
    }
}

// A writer that fails at the first byte of the next line is called before more is read than that line needs, which this many bytes
// settle.
fn lines_are_answered(alloc: Global, job: &Coming) -> bool {
    let mut before: &'static [u8] = b"";
    for (size, lines) in job.written {
        let run = Run {
            breaks: false,
            end: Ended::Unwritten,
            ..run_of(job, job.text, before, *size)
        };
        if *size > 0 && !holds(alloc, &run) {
            return false;
        }
        before = *lines;
    }
    true
}

// Each line is written as soon as nothing that comes can change it.
#[test]
fn a_line_is_written_before_more_is_read(rt: HostRuntime) {
    for job in COMING {
        assert!(rt; lines_are_answered(rt.alloc(), job));
    }
}

// The rules, a text, what is written of it, the column of its first fault, the character there, and how many bytes show that there is one.
type Fault = (
    &'static [u8],
    &'static [u8],
    &'static [u8],
    usize,
    char,
    usize,
);

const FAULTS: &[Fault] = &[
    (PLAIN_RULES, b"a ?b", b"1:1 NAME \"a\"\n", 3, '?', 3),
    (PLAIN_RULES, b"\xc3\xa9 b", b"", 1, '\u{e9}', 2),
    // What comes after the fault needn't be a text.
    (PLAIN_RULES, b"if!\xff", b"1:1 IF \"if\"\n", 3, '!', 3),
    (PLAIN_RULES, b"!\xe2\x82", b"", 1, '!', 1),
    // Only the first byte order mark is left out.
    (
        PLAIN_RULES,
        b"\xef\xbb\xbf\xef\xbb\xbfa",
        b"",
        1,
        '\u{feff}',
        6,
    ),
    // What has come may go on as a token until the next character has come.
    (COMMENT_RULES, b"a/b", b"1:1 NAME \"a\"\n", 2, '/', 3),
    (COMMENT_RULES, b"//*", b"", 1, '/', 2),
    (
        COMMENT_RULES,
        b"/*/*b*//a",
        b"1:1 OPEN \"/*\"\n1:3 OPEN \"/*\"\n1:6 CLOSE \"*/\"\n",
        8,
        '/',
        9,
    ),
];

fn stops(alloc: Global, fault: &Fault, text: &[u8], breaks: bool) -> bool {
    let (rules, _, written, column, found, size) = *fault;
    let run = Run {
        rules,
        shape: PLAIN,
        text,
        breaks,
        written,
        end: stopped(column, Found::Character(found)),
        failure: None,
        settled: Some(size),
    };
    holds(alloc, &run)
}

// The fault is told, and nothing is read once it is seen: neither what comes after it, nor the end or a failure.
fn always_stops(alloc: Global, fault: &Fault) -> bool {
    let front = fault.1.get(..fault.5).unwrap_or(b"");
    stops(alloc, fault, fault.1, false)
        && stops(alloc, fault, front, false)
        && stops(alloc, fault, front, true)
}

#[test]
fn reading_stops_at_a_fault(rt: HostRuntime) {
    for fault in FAULTS {
        assert!(rt; always_stops(rt.alloc(), fault));
    }
}
