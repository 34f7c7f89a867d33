// The program under faults: words that are no request, text that is not UTF-8, and readers and writers that are slow or
// fail.
use super::{TEXT, assert_outcome, assert_same, run_in_memory};
use crate::engine::run;
use crate::faults::Fault;
use std::alloc::Global;
use std::io;
use std::io::{ErrorKind, Read, Write};
use std::process::Abort;

/// Gives one byte a read, but one error of this kind at the read of number `fails_at`. The first has number 0.
#[derive(Drop)]
struct FaultyReader<'a> {
    rest: &'a [u8],
    reads: usize,
    fails_at: Option<usize>,
    kind: ErrorKind,
}

impl Read for FaultyReader<'_> {
    fn read(&mut self, buf: &mut [u8]) -> io::Result<usize> {
        let number = self.reads;
        self.reads = number.saturating_add(1);
        if self.fails_at == Some(number) {
            return Err(self.kind.into());
        }
        match (self.rest.split_first(), buf.first_mut()) {
            (Some((byte, rest)), Some(place)) => {
                *place = *byte;
                self.rest = rest;
                Ok(1)
            }
            _ => Ok(0),
        }
    }
}

/// A fault of a writer. The first write has number 0.
#[derive(Clone, Copy, Debug)]
enum WriterFault {
    None,
    Fails(usize),
    TakesNothing(usize),
    FlushFails,
}

/// Takes at most `most` bytes a write, but for its fault, which comes once.
#[derive(Drop)]
struct FaultyWriter {
    taken: Vec<u8>,
    writes: usize,
    most: usize,
    fault: WriterFault,
}

impl Write for FaultyWriter {
    fn write(&mut self, buf: &[u8]) -> io::Result<usize> {
        let number = self.writes;
        self.writes = number.saturating_add(1);
        match self.fault {
            WriterFault::Fails(n) if n == number => return Err(ErrorKind::Interrupted.into()),
            WriterFault::TakesNothing(n) if n == number => return Ok(0),
            _ => {}
        }
        let count = self.most.min(buf.len());
        self.taken.extend_from_slice(&buf[..count])?;
        Ok(count)
    }

    fn flush(&mut self) -> io::Result<()> {
        match self.fault {
            WriterFault::FlushFails => Err(ErrorKind::Other.into()),
            _ => Ok(()),
        }
    }
}

/// A reader of this text that never fails.
fn slow_reader(text: &[u8]) -> FaultyReader<'_> {
    FaultyReader {
        rest: text,
        reads: 0,
        fails_at: None,
        kind: ErrorKind::Other,
    }
}

/// Runs these words over this reader, and compares what it says and writes.
fn assert_run(
    rt: &impl Abort,
    alloc: Global,
    words: &[&str],
    input: &mut FaultyReader<'_>,
    wanted: Result<(), Fault>,
    written: &[u8],
) {
    let mut output = Vec::new(alloc);
    let found = run(alloc, words, input, &mut output);
    assert_outcome(rt, found, &output, wanted, written, &words);
}

/// Words that are no request.
const OTHER_WORDS: &[&[&str]] = &[
    &[],
    &["chars"],
    &["Chars.count"],
    &["chars.count "],
    &["chars.count_breaks"],
    &["chars.count", "0"],
    &["chars.to_byte_idx"],
    &["lines.to_byte_idx"],
    &["chars.from_byte_idx", ""],
    &["chars.from_byte_idx", "+1"],
    &["chars.from_byte_idx", "-1"],
    &["chars.from_byte_idx", " 1"],
    &["chars.from_byte_idx", "1 "],
    &["chars.from_byte_idx", "1_000"],
    &["chars.from_byte_idx", "0x1"],
    &["chars.from_byte_idx", "٣"],
    &["chars.from_byte_idx", "18446744073709551616"],
    &["chars.from_byte_idx", "1", "2"],
    &["Chars.from_byte_idx", "1"],
    &["chars.from_char_idx", "1"],
    &["1", "chars.from_byte_idx"],
    &["chars.count", "-"],
    &["chars.count", "-", "word"],
    &["chars.count", "word", "0"],
    &["utf16.count", "0", "word", "7"],
    &["chars.from_byte_idx", "-", "word", "0"],
    &["chars.count", "-", "short", "0"],
    &["chars.count", "-", "WORD", "0"],
    &["chars.count", "-", "word", "-1"],
    &["chars.count", "-", "word", "-"],
    &["chars.count", "-", "word", "18446744073709551616"],
    &["chars.count", "-", "word", "0", "0"],
];

fn assert_usage(rt: &impl Abort, alloc: Global, words: &[&str]) {
    let mut input = slow_reader(TEXT.as_bytes());
    input.fails_at = Some(0);
    assert_run(rt, alloc, words, &mut input, Err(Fault::Usage), b"");
    assert_same(rt, input.reads, 0, &words);
}

#[test]
fn refuses_other_words(rt: HostRuntime) {
    for words in OTHER_WORDS {
        assert_usage(&rt, rt.alloc(), words);
    }
}

#[test]
fn reads_to_the_end(rt: HostRuntime) {
    const ROWS: [(&str, &str); 3] = [(TEXT, "54\n"), ("せa", "2\n"), ("", "0\n")];
    for (text, written) in ROWS {
        let input = &mut slow_reader(text.as_bytes());
        let written = written.as_bytes();
        assert_run(&rt, rt.alloc(), &["chars.count"], input, Ok(()), written);
    }
}

fn assert_not_utf8(rt: &impl Abort, alloc: Global, text: &[u8]) {
    let refused = Err(Fault::NotUtf8);
    let (found, output) = run_in_memory(alloc, &["chars.count"], text);
    assert_outcome(rt, found, &output, refused, b"", &text);
    let input = &mut slow_reader(text);
    assert_run(rt, alloc, &["chars.count"], input, refused, b"");
}

#[test]
fn refuses_text_that_is_not_utf8(rt: HostRuntime) {
    const TEXTS: [&[u8]; 6] = [
        b"\xFF",
        b"\xE3\x81",
        b"\xF0\x9F\x90",
        b"\xED\xA0\x80",
        b"\xC0\x80",
        b"a\xFFb",
    ];
    for text in TEXTS {
        assert_not_utf8(&rt, rt.alloc(), text);
    }
}

/// Runs over a reader that fails at this read, and wants no read after it. The reader would go on, so a run that read
/// again would answer otherwise.
fn assert_no_read_again(rt: &impl Abort, alloc: Global, text: &[u8], kind: ErrorKind, n: usize) {
    let mut input = slow_reader(text);
    input.fails_at = Some(n);
    input.kind = kind;
    assert_run(
        rt,
        alloc,
        &["chars.count"],
        &mut input,
        Err(Fault::Read),
        b"",
    );
    assert_same(rt, input.reads, n.saturating_add(1), &text);
}

fn assert_reads_end(rt: &impl Abort, alloc: Global, text: &[u8], kind: ErrorKind) {
    for n in 0..=text.len() {
        assert_no_read_again(rt, alloc, text, kind, n);
    }
}

#[test]
fn tries_no_read_again(rt: HostRuntime) {
    for kind in [
        ErrorKind::BrokenPipe,
        ErrorKind::Interrupted,
        ErrorKind::OutOfMemory,
    ] {
        assert_reads_end(&rt, rt.alloc(), TEXT.as_bytes(), kind);
        assert_reads_end(&rt, rt.alloc(), b"a\xFFb", kind);
        assert_reads_end(&rt, rt.alloc(), b"", kind);
    }
}

/// How many bytes a writer takes at most, what it does wrong, what a run over it says, and what is written.
type WriterRow = (usize, WriterFault, Result<(), Fault>, &'static str);

fn assert_writes(rt: &impl Abort, alloc: Global, row: WriterRow) {
    let (most, fault, wanted, written) = row;
    let mut output = FaultyWriter {
        taken: Vec::new(alloc),
        writes: 0,
        most,
        fault,
    };
    let found = run(alloc, &["chars.count"], &mut TEXT.as_bytes(), &mut output);
    let written = written.as_bytes();
    assert_outcome(rt, found, &output.taken, wanted, written, &(most, fault));
}

#[test]
fn writes_to_the_end(rt: HostRuntime) {
    const ROWS: &[WriterRow] = &[
        (1, WriterFault::None, Ok(()), "54\n"),
        (2, WriterFault::None, Ok(()), "54\n"),
        (3, WriterFault::None, Ok(()), "54\n"),
        (1, WriterFault::Fails(0), Err(Fault::Write), ""),
        (1, WriterFault::Fails(1), Err(Fault::Write), "5"),
        (1, WriterFault::Fails(2), Err(Fault::Write), "54"),
        (1, WriterFault::TakesNothing(0), Err(Fault::Write), ""),
        (1, WriterFault::TakesNothing(1), Err(Fault::Write), "5"),
        (1, WriterFault::TakesNothing(2), Err(Fault::Write), "54"),
        (1, WriterFault::FlushFails, Err(Fault::Write), "54\n"),
        (3, WriterFault::FlushFails, Err(Fault::Write), "54\n"),
    ];
    for row in ROWS {
        assert_writes(&rt, rt.alloc(), *row);
    }
}

fn assert_told(rt: &impl Abort, fault: Fault, status: u8, line: &str) {
    assert_eq!(rt; fault.status(), status);
    assert_eq!(rt; fault.line(), line);
}

#[test]
fn tells_faults_apart(rt: HostRuntime) {
    const ROWS: [(Fault, u8, &str); 5] = [
        (Fault::Usage, 2, "idx: bad usage"),
        (Fault::NotUtf8, 3, "idx: input is not UTF-8"),
        (Fault::Read, 1, "idx: cannot read input"),
        (Fault::Write, 1, "idx: cannot write output"),
        (Fault::NoMemory, 1, "idx: out of memory"),
    ];
    for (fault, status, line) in ROWS {
        assert_told(&rt, fault, status, line);
    }
}
