//! What named rules cut, what is written for it and how cutting ends, with a reader that gives bytes bit by bit and may fail, and a writer
//! that may fail.

use lalrpop_lexer::Position;
use lexdfa_lib::RunError;
use std::alloc::Global;
use std::io;
use std::io::{Read, Write};
use tokens_lib::{
    Console, CutEnd, Found, Layout, LineForm, Markup, OpenMode, Reader, RuleLexer, Watched,
    write_lines, write_page,
};

/// More bytes than any text here has.
pub(crate) const ALL: usize = 1000;

// How many bytes a read gives.
const SIZES: &[usize] = &[1, 2, 3, 5, ALL];

/// Gives some of its bytes a call, then ends or fails, and counts its calls.
#[derive(Drop)]
pub(crate) struct Fed<'a> {
    left: &'a [u8],
    // How many bytes a call gives at most.
    at_once: usize,
    // Whether a call fails that has no bytes left; if it doesn't, the bytes end.
    fails: bool,
    calls: usize,
}

impl<'a> Fed<'a> {
    pub(crate) fn new(left: &'a [u8], at_once: usize, fails: bool) -> Fed<'a> {
        Fed {
            left,
            at_once,
            fails,
            calls: 0,
        }
    }
}

impl<'a> Read for Fed<'a> {
    fn read(&mut self, buf: &mut [u8]) -> io::Result<usize> {
        self.calls = self.calls.saturating_add(1);
        if self.fails && self.left.is_empty() {
            return Err(io::Error::from(io::ErrorKind::Other));
        }
        let most = self.at_once.min(buf.len());
        self.left.read(&mut buf[..most])
    }
}

// Takes one byte a call while it has room, then fails, and counts its calls. It takes no memory: it compares the bytes with those that it
// should get.
#[derive(Drop)]
struct Full<'a> {
    wanted: &'a [u8],
    // How a call fails that finds no room; if it doesn't, it takes nothing.
    failure: Option<io::ErrorKind>,
    // Whether another byte came than was wanted.
    is_wrong: bool,
    calls: usize,
}

impl<'a> Write for Full<'a> {
    fn write(&mut self, buf: &[u8]) -> io::Result<usize> {
        self.calls = self.calls.saturating_add(1);
        match (buf.first(), self.wanted.split_first()) {
            (Some(byte), Some((wanted, left))) => {
                self.is_wrong = self.is_wrong || byte != wanted;
                self.wanted = left;
                Ok(1)
            }
            _ => match self.failure {
                Some(kind) => Err(io::Error::from(kind)),
                None => Ok(0),
            },
        }
    }

    fn flush(&mut self) -> io::Result<()> {
        Ok(())
    }
}

/// A keyword, names of ASCII letters, and spaces and line feeds, which are skipped.
pub(crate) const PLAIN_RULES: &[u8] = b"IF = 'if'\nNAME = /[a-z]+/\nSPACE skip = /[ \\n]+/";

/// Words of characters of one, two, three and four bytes, and spaces, which are skipped.
pub(crate) const WORD_RULES: &[u8] =
    b"WORD = /[a-z\xc3\xa9\xe2\x82\xac\xf0\x9f\x98\x80]+/\nSPACE skip = / /";

/// Names, and comments in comments.
pub(crate) const COMMENT_RULES: &[u8] =
    b"NAME = /[a-z]+/\n[INITIAL COMMENT]\nOPEN push COMMENT = '/*'\n[COMMENT]\nCLOSE pop = '*/'\nREST skip = /[a-z]/";

/// How cutting a text ends.
#[derive(Clone, Copy, PartialEq, Eq)]
pub(crate) enum Ended {
    Whole {
        has_fault: bool,
        inside: Option<OpenMode>,
    },
    Stopped {
        place: Position,
        found: Found,
    },
    Unread,
    // A write failed.
    Unwritten,
    // There was no memory.
    Refused,
}

/// The text was cut to its end, and is in order.
pub(crate) const CLEAN: Ended = Ended::Whole {
    has_fault: false,
    inside: None,
};

/// The text was cut to its end, and has a fault.
pub(crate) const FAULTY: Ended = Ended::Whole {
    has_fault: true,
    inside: None,
};

/// Cutting stops at this column of the first line.
pub(crate) fn stopped(column: usize, found: Found) -> Ended {
    let place = Position { line: 1, column };
    Ended::Stopped { place, found }
}

fn end_of(end: &Result<CutEnd, RunError>) -> Ended {
    match end {
        Ok(CutEnd::Whole { has_fault, inside }) => Ended::Whole {
            has_fault: *has_fault,
            inside: *inside,
        },
        Ok(CutEnd::Stopped { place, found }) => Ended::Stopped {
            place: *place,
            found: *found,
        },
        Ok(CutEnd::Unread) => Ended::Unread,
        Err(RunError::Write) => Ended::Unwritten,
        Err(_) => Ended::Refused,
    }
}

/// What is written: lines, with those of faults too where they have a file; or a page.
#[derive(Clone, Copy)]
pub(crate) enum Shape {
    Lines(LineForm, Option<&'static str>),
    Page(Markup),
}

/// Plain lines, up to the first fault.
pub(crate) const PLAIN: Shape = Shape::Lines(LineForm::Plain, None);

/// Plain lines of a file, and of its faults too.
pub(crate) const RECOVERING: Shape = Shape::Lines(LineForm::Plain, Some("f"));

/// Lines of JSON, up to the first fault.
pub(crate) const JSON: Shape = Shape::Lines(LineForm::Json, None);

/// Lines of JSON of a file, and of its faults too.
pub(crate) const RECOVERING_JSON: Shape = Shape::Lines(LineForm::Json, Some("\"f\""));

pub(crate) const HTML: Shape = Shape::Page(Markup::Html);

pub(crate) const ANSI: Shape = Shape::Page(Markup::Ansi);

// The lines or the page of what is read, by rules whose modes have no names.
fn write_shape(
    alloc: Global,
    lexer: &RuleLexer,
    shape: Shape,
    reader: &mut Reader<Watched<Fed<'_>>>,
    console: &mut Console<Watched<Full<'_>>, Vec<u8>>,
) -> Ended {
    match shape {
        Shape::Lines(form, file) => {
            let layout = Layout {
                form,
                recovers: file.is_some(),
                file,
                modes: &[],
            };
            end_of(&write_lines(alloc, lexer, &layout, reader, console))
        }
        Shape::Page(markup) => end_of(&write_page(alloc, lexer, markup, reader, console)),
    }
}

/// A text, whether a read fails after it, what is written of it, and how cutting ends. If a write fails, it is the first one after that.
/// `settled` says how many bytes decide that it ends so, if it matters, since no more are read then.
#[derive(Clone, Copy)]
pub(crate) struct Run<'a> {
    pub(crate) rules: &'a [u8],
    pub(crate) shape: Shape,
    pub(crate) text: &'a [u8],
    pub(crate) breaks: bool,
    pub(crate) written: &'a [u8],
    pub(crate) end: Ended,
    pub(crate) failure: Option<io::ErrorKind>,
    pub(crate) settled: Option<usize>,
}

// How many reads give as many bytes, and one more that fails.
fn reads(run: &Run<'_>, settled: usize, at_once: usize) -> usize {
    let rounded = settled.saturating_add(at_once).saturating_sub(1);
    let reads = rounded.checked_div(at_once).unwrap_or(0);
    reads.saturating_add(usize::from(run.end == Ended::Unread))
}

// Whether the ends were called as often as they should be: the writer not after it failed, the reader no more than is needed.
fn are_called(run: &Run<'_>, at_once: usize, source: &Fed<'_>, sink: &Full<'_>) -> bool {
    let failed = usize::from(run.end == Ended::Unwritten);
    sink.calls == run.written.len().saturating_add(failed)
        && match run.settled {
            Some(settled) => source.calls == reads(run, settled, at_once),
            None => true,
        }
}

fn is_so(alloc: Global, lexer: &RuleLexer, run: &Run<'_>, at_once: usize) -> bool {
    let sink = Full {
        wanted: run.written,
        failure: run.failure,
        is_wrong: false,
        calls: 0,
    };
    let mut reader = Reader::new(Watched::new(Fed::new(run.text, at_once, run.breaks)));
    let mut console = Console::new(Watched::new(sink), Vec::new(alloc));
    let end = write_shape(alloc, lexer, run.shape, &mut reader, &mut console);
    let (sink, _) = console.into_sinks();
    let sink = sink.into_inner();
    let source = reader.into_source().into_inner();
    end == run.end
        && sink.wanted.is_empty()
        && !sink.is_wrong
        && are_called(run, at_once, &source, &sink)
}

/// Whether the run goes so, however many bytes a read gives.
pub(crate) fn holds(alloc: Global, run: &Run<'_>) -> bool {
    let Ok(lexer) = RuleLexer::from_file(alloc, run.rules) else {
        return false;
    };
    for at_once in SIZES {
        if !is_so(alloc, &lexer, run, *at_once) {
            return false;
        }
    }
    true
}
