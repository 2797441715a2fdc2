//! Runs whose input or output fails.
use crate::comparison::expect;
use cfi_programs::run::run;
use std::alloc::Global;
use std::io;
use std::io::{ErrorKind, Read, Write};
use std::process::Abort;

const WORDS: &[&str] = &["debug_frame", "le", "8", "0x1000"];

const WORDS_WITH_HEADER: &[&str] = &["eh_frame", "le", "8", "0x1000", "header=0"];

/// A CIE and an FDE without instructions.
const SECTION: &[u8] =
    b"10000000 ffffffff 04000800 017810 0c0708 9001 14000000 00000000 0010000000000000 2000000000000000";

const ROW: &[u8] = b"0x1000 0x1020 cfa=r7+8 args=0 r16=offset(-8)\n";

/// Gives the bytes one at a time, and fails at the given call.
#[derive(Drop)]
struct FailsAt {
    bytes: &'static [u8],
    calls: usize,
    kind: ErrorKind,
}

impl Read for FailsAt {
    fn read(&mut self, buf: &mut [u8]) -> io::Result<usize> {
        if self.calls == 0 {
            return Err(self.kind.into());
        }
        self.calls -= 1;
        if self.bytes.is_empty() || buf.is_empty() {
            return Ok(0);
        }
        buf[0] = self.bytes[0];
        self.bytes = &self.bytes[1..];
        Ok(1)
    }
}

/// Takes one byte a call, and fails at the given call; and at each flush, where it is to.
#[derive(Drop)]
pub(crate) struct RefusesAt {
    pub(crate) taken: usize,
    calls: usize,
    kind: ErrorKind,
    fails_to_flush: bool,
}

impl RefusesAt {
    pub(crate) fn call(calls: usize, kind: ErrorKind) -> Self {
        RefusesAt {
            taken: 0,
            calls,
            kind,
            fails_to_flush: false,
        }
    }
}

impl Write for RefusesAt {
    fn write(&mut self, buf: &[u8]) -> io::Result<usize> {
        if self.calls == 0 {
            self.calls = usize::MAX;
            return Err(self.kind.into());
        }
        self.calls -= 1;
        if buf.is_empty() {
            return Ok(0);
        }
        self.taken = self.taken.wrapping_add(1);
        Ok(1)
    }

    fn flush(&mut self) -> io::Result<()> {
        if self.fails_to_flush {
            return Err(self.kind.into());
        }
        Ok(())
    }
}

/// What a run prints, and its status.
fn printed<R: Read>(alloc: Global, words: &[&str], input: &mut R) -> (Vec<u8>, u8) {
    let mut output = Vec::new(alloc);
    let status = run(alloc, Some(words), input, &mut output);
    (output, status)
}

/// How many bytes of a section's line an output takes, and the status of the run.
fn taken(alloc: Global, section: &[u8], output: RefusesAt) -> (usize, u8) {
    let mut input = section;
    let mut output = output;
    let status = run(alloc, Some(WORDS), &mut input, &mut output);
    (output.taken, status)
}

/// Words and inputs that are no hexadecimal, in the section or in the header.
const NO_HEXADECIMAL: [(&[&str], &[u8]); 2] = [
    (WORDS, b"0g"),
    (WORDS_WITH_HEADER, b"00000000\n01 1b 03 fg"),
];

/// The line of an input of so many bytes that is no hexadecimal, where so many reads come before
/// one that fails.
fn line_after(reads: usize, bytes: usize) -> &'static [u8] {
    if reads <= bytes {
        b"wrong input\n"
    } else {
        b"wrong hexadecimal\n"
    }
}

/// Fails at each call, and last reads the input to its end.
fn check_reads(
    rt: &(impl Abort + AllocGlobal),
    words: &[&str],
    bytes: &'static [u8],
    kind: ErrorKind,
) {
    for calls in 0..bytes.len() + 2 {
        let mut input = FailsAt { bytes, calls, kind };
        let (output, status) = printed(rt.alloc(), words, &mut input);
        let expected = (line_after(calls, bytes.len()), 2);
        expect(rt, calls, &(output.as_slice(), status), &expected);
    }
}

/// Read to its end the input is no hexadecimal, in the section or in the header.
#[test]
fn a_failed_read(rt: HostRuntime) {
    for (words, bytes) in &NO_HEXADECIMAL {
        check_reads(&rt, words, bytes, ErrorKind::Other);
        check_reads(&rt, words, bytes, ErrorKind::Interrupted);
    }
}

/// Sections, their lines and the statuses of those.
const WRITTEN: [(&[u8], &[u8], u8); 2] = [
    (SECTION, ROW, 0),
    (b"", b"refused NoUnwindInfoForAddress\n", 1),
];

/// At each byte of a row's line or of a refusal's, the line feed among them. An interrupted write
/// is tried again.
#[test]
fn a_failed_write(rt: HostRuntime) {
    for (section, line, status) in &WRITTEN {
        for calls in 0..line.len() {
            let failed = taken(
                rt.alloc(),
                section,
                RefusesAt::call(calls, ErrorKind::Other),
            );
            let interrupted = RefusesAt::call(calls, ErrorKind::Interrupted);
            let repeated = taken(rt.alloc(), section, interrupted);
            let expected = ((calls, 2), (line.len(), *status));
            expect(&rt, calls, &(failed, repeated), &expected);
        }
    }
}

#[test]
fn a_failed_flush(rt: HostRuntime) {
    for (section, line, _) in &WRITTEN {
        let mut output = RefusesAt::call(usize::MAX, ErrorKind::Other);
        output.fails_to_flush = true;
        let found = taken(rt.alloc(), section, output);
        expect(&rt, "a flush", &found, &(line.len(), 2));
    }
}
