//! The program over files in memory whose reads fail after some bytes. What it does over files that can be read is shown by
//! examples/sessions.

use crate::cutting::{ALL, Fed};
use std::alloc::{AllocError, Global};
use tokens_lib::{Console, Files, LineForm, NoBytes, Reader, Watched, check_answer, run};

const RULES: &[u8] = b"WORD = /[a-z]+/\nSPACE skip = / /\n";

// Files in memory. A read of a file whose name begins with `torn` fails after its bytes.
struct Named;

fn bytes_of(name: &str) -> Option<&'static [u8]> {
    match name {
        "r" | "torn.rules" => Some(RULES),
        "g" => Some(b"x"),
        "torn" => Some(b"if a"),
        "torn.fault" => Some(b"if !"),
        _ => None,
    }
}

impl Files for Named {
    ghost gives = { λ files name given. Unit {0} };

    type Reader = Watched<Fed<'static>>;

    fn open(&self, alloc: Global, name: &str) -> Result<Watched<Fed<'static>>, NoBytes> {
        match bytes_of(name) {
            Some(bytes) if name.starts_with("torn") => Ok(Watched::new(Fed::new(bytes, ALL, true))),
            Some(bytes) => Ok(Watched::new(Fed::new(bytes, ALL, false))),
            None => Err(NoBytes::Because(String::from_str(alloc, "not found")?)),
        }
    }
}

// Arguments with a space between them, what standard input gives before it fails, what the program writes and says, and its status.
#[derive(Clone, Copy)]
struct Row {
    words: &'static str,
    input: &'static [u8],
    out: &'static [u8],
    err: &'static [u8],
    status: u8,
}

fn words_of(alloc: Global, words: &str) -> Result<Vec<String>, AllocError> {
    let mut all = Vec::new(alloc);
    for word in words.split_whitespace() {
        all.push(String::from_str(alloc, word)?)?;
    }
    Ok(all)
}

fn is_answered(alloc: Global, row: &Row, words: &[String], at_once: usize) -> bool {
    let mut input = Reader::new(Watched::new(Fed::new(row.input, at_once, true)));
    let mut console = Console::new(Vec::new(alloc), Vec::new(alloc));
    let status = run(alloc, words, &Named, &mut input, &mut console);
    let (out, err) = console.into_sinks();
    matches!(&status, Ok(status) if *status == row.status)
        && out.as_slice() == row.out
        && err.as_slice() == row.err
}

fn holds(alloc: Global, row: &Row) -> bool {
    match words_of(alloc, row.words) {
        Ok(words) => is_answered(alloc, row, &words, 1) && is_answered(alloc, row, &words, ALL),
        Err(_) => false,
    }
}

const ROWS: &[Row] = &[
    // Standard input isn't read again after a failure. The line of `in` isn't written before more has come, since it may go on; that of
    // a word with a space after it is.
    Row {
        words: "r - g -",
        input: b"in",
        out: b"g:1:1 WORD \"x\"\n",
        err: b"tokens: <stdin>: read failed\ntokens: <stdin>: read failed\n",
        status: 6,
    },
    Row {
        words: "r - g -",
        input: b"in a",
        out: b"<stdin>:1:1 WORD \"in\"\ng:1:1 WORD \"x\"\n",
        err: b"tokens: <stdin>: read failed\ntokens: <stdin>: read failed\n",
        status: 6,
    },
    Row {
        words: "r torn g",
        input: b"",
        out: b"torn:1:1 WORD \"if\"\ng:1:1 WORD \"x\"\n",
        err: b"tokens: torn: read failed\n",
        status: 6,
    },
    Row {
        words: "--html r torn",
        input: b"",
        out: b"<span class=\"WORD\">if</span> ",
        err: b"tokens: torn: read failed\n",
        status: 6,
    },
    Row {
        words: "torn.rules g",
        input: b"",
        out: b"",
        err: b"tokens: torn.rules: read failed\n",
        status: 6,
    },
    // Nothing after a fault changes it, so it is told before the failure; and with --recover what comes after it.
    Row {
        words: "r torn.fault",
        input: b"",
        out: b"1:1 WORD \"if\"\n",
        err: b"tokens: torn.fault:1:4: no rule matches \"!\"\n",
        status: 1,
    },
    Row {
        words: "r --recover torn.fault",
        input: b"",
        out: b"1:1 WORD \"if\"\n",
        err: b"tokens: torn.fault: read failed\n",
        status: 6,
    },
];

#[test]
fn reads_may_fail(rt: HostRuntime) {
    for row in ROWS {
        assert!(rt; holds(rt.alloc(), row));
    }
}

// Whether a check of these bytes has this status, writes this and says this.
fn answers(alloc: Global, bytes: &[u8], status: u8, out: &str, err: &str) -> bool {
    match check_answer(alloc, LineForm::Json, "f", bytes) {
        Ok(reply) => {
            reply.status() == status && reply.out() == out.as_bytes() && reply.err() == err
        }
        Err(_) => false,
    }
}

const CHECKED: &[(&[u8], u8, &str, &str)] = &[
    (
        b"A = 'a'\nB = 'a'\n",
        2,
        "{\"file\":\"f\",\"line\":2,\"column\":6,\"kind\":\"clash\",\"rule\":\"B\",\"other\":\"A\",\"text\":\"a\"}\n",
        "",
    ),
    (
        b"D part = /0/\nA = 'a'\n",
        1,
        "{\"file\":\"f\",\"line\":1,\"column\":1,\"kind\":\"part-unused\",\"part\":\"D\"}\n{\"file\":\"f\",\"kind\":\"automaton\",\"least_states\":3,\"past\":1}\n",
        "",
    ),
    (
        b"A = /(/\n",
        3,
        "",
        "tokens: f:1:6: this group isn't closed\n    A = /(/\n         ^\n",
    ),
];

#[test]
fn rules_are_checked(rt: HostRuntime) {
    for (bytes, status, out, err) in CHECKED {
        assert!(rt; answers(rt.alloc(), *bytes, *status, *out, *err));
    }
}
