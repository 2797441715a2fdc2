//! What is printed of a file with a function in each of `.eh_frame` and `.debug_frame`. The
//! expected rows and instructions are readelf's.
ghost use Rattle.std.specs.Prelude.{None};

use crate::comparison::expect;
use crate::rows::failing::RefusesAt;
use cfi_files::{CheckStyle, Finding, Printed, Request, check_file, run_on_file};
use cfi_guide::hexadecimal::bytes_of;
use cfi_object::FileInput;
use cfi_object::input::copy_part;
use cfi_text::reading::InputError;
use cfi_text::style::Format;
use std::alloc::Global;
use std::io::ErrorKind;
use std::process::Abort;
use std::test::Fail;

/// For x86-64, linked. `pushes`, from 0x4000b0 on, has its call frames in `.eh_frame`, and `waits`,
/// from 0x4000b6 on, in `.debug_frame`.
pub(crate) const FILE: &str = "\
    7f454c4602010100000000000000000002003e0001000000b00040000000000040000000000000006002000000000000\
    000000004000380002004000080007000100000007000000b000000000000000b000400000000000b000400000000000\
    58000000000000005800000000000000080000000000000050e5746404000000b800000000000000b800400000000000\
    b800400000000000140000000000000014000000000000000400000000000000554889e55dc390c3011b033b14000000\
    01000000f8ffffff30000000000000001400000000000000017a5200017810011b0c0708900100001c0000001c000000\
    c0ffffff0600000000410e108602430d06410c070800000014000000ffffffff01000178100c07089001000000000000\
    1400000000000000b6004000000000000200000000000000000000000000000000000000000000000000000000000000\
    0100000000000200b80040000000000000000000000000001400000012000100b6004000000000000200000000000000\
    1a00000012000100b0004000000000000600000000000000210000001000030008014000000000000000000000000000\
    2d0000001000030008014000000000000000000000000000340000001000030008014000000000000000000000000000\
    005f5f474e555f45485f4652414d455f48445200776169747300707573686573005f5f6273735f7374617274005f6564\
    617461005f656e6400002e73796d746162002e737472746162002e7368737472746162002e74657874002e65685f6672\
    616d655f686472002e65685f6672616d65002e64656275675f6672616d65000000000000000000000000000000000000\
    000000000000000000000000000000000000000000000000000000000000000000000000000000000000000000000000\
    1b000000010000000700000000000000b000400000000000b00000000000000008000000000000000000000000000000\
    0100000000000000000000000000000021000000010000000200000000000000b800400000000000b800000000000000\
    14000000000000000000000000000000040000000000000000000000000000002f000000010000000200000000000000\
    d000400000000000d0000000000000003800000000000000000000000000000008000000000000000000000000000000\
    390000000100000000000000000000000000000000000000080100000000000030000000000000000000000000000000\
    080000000000000000000000000000000100000002000000000000000000000000000000000000003801000000000000\
    a80000000000000006000000020000000800000000000000180000000000000009000000030000000000000000000000\
    0000000000000000e0010000000000003900000000000000000000000000000001000000000000000000000000000000\
    110000000300000000000000000000000000000000000000190200000000000046000000000000000000000000000000\
    01000000000000000000000000000000";

pub(crate) const ALL_ROWS: &str = ".eh_frame
fde 0x4000b0 0x4000b6 pushes
0x4000b0 0x4000b1 cfa=rsp+8 args=0 ra=offset(-8)
0x4000b1 0x4000b4 cfa=rsp+16 args=0 rbp=offset(-16) ra=offset(-8)
0x4000b4 0x4000b5 cfa=rbp+16 args=0 rbp=offset(-16) ra=offset(-8)
0x4000b5 0x4000b6 cfa=rsp+8 args=0 rbp=offset(-16) ra=offset(-8)
.debug_frame
fde 0x4000b6 0x4000b8 waits
0x4000b6 0x4000b8 cfa=rsp+8 args=0 ra=offset(-8)
";

pub(crate) const DUMP: &str = ".eh_frame
cie 0x0 length=20 version=1 size=8 code=1 data=-8 return=ra addresses=0x1b
  DW_CFA_def_cfa register=rsp offset=8
  DW_CFA_offset register=ra factored_offset=1
  DW_CFA_nop
  DW_CFA_nop
fde 0x18 length=28 cie=0x0 0x4000b0 0x4000b6 pushes
  DW_CFA_advance_loc delta=1 to=0x4000b1
  DW_CFA_def_cfa_offset offset=16
  DW_CFA_offset register=rbp factored_offset=2
  DW_CFA_advance_loc delta=3 to=0x4000b4
  DW_CFA_def_cfa_register register=rbp
  DW_CFA_advance_loc delta=1 to=0x4000b5
  DW_CFA_def_cfa register=rsp offset=8
  DW_CFA_nop
  DW_CFA_nop
  DW_CFA_nop
0x4000b0 0x4000b1 cfa=rsp+8 args=0 ra=offset(-8)
0x4000b1 0x4000b4 cfa=rsp+16 args=0 rbp=offset(-16) ra=offset(-8)
0x4000b4 0x4000b5 cfa=rbp+16 args=0 rbp=offset(-16) ra=offset(-8)
0x4000b5 0x4000b6 cfa=rsp+8 args=0 rbp=offset(-16) ra=offset(-8)
.debug_frame
cie 0x0 length=20 version=1 size=8 code=1 data=-8 return=ra
  DW_CFA_def_cfa register=rsp offset=8
  DW_CFA_offset register=ra factored_offset=1
  DW_CFA_nop
  DW_CFA_nop
  DW_CFA_nop
  DW_CFA_nop
  DW_CFA_nop
  DW_CFA_nop
fde 0x18 length=20 cie=0x0 0x4000b6 0x4000b8 waits
0x4000b6 0x4000b8 cfa=rsp+8 args=0 ra=offset(-8)
";

/// A file that gives so many parts, and then fails, or whose length can't be told. It counts the
/// parts that are read, and their bytes.
#[derive(Drop)]
pub(crate) struct FailsAfter<'a> {
    bytes: &'a [u8],
    has_length: bool,
    left: usize,
    pub(crate) parts: usize,
    pub(crate) read: u64,
}

impl<'a> FailsAfter<'a> {
    pub(crate) fn parts(bytes: &'a [u8], left: usize) -> Self {
        FailsAfter {
            bytes,
            has_length: true,
            left,
            parts: 0,
            read: 0,
        }
    }

    fn without_length() -> Self {
        FailsAfter {
            bytes: &[],
            has_length: false,
            left: 0,
            parts: 0,
            read: 0,
        }
    }
}

impl FileInput for FailsAfter<'_> {
    ghost bytes = { λ _. None };

    fn length(&mut self, _alloc: Global) -> Result<u64, InputError> {
        if self.has_length {
            Ok(self.bytes.len() as u64)
        } else {
            Err(InputError::Unreadable)
        }
    }

    fn read_part(&mut self, alloc: Global, offset: u64, size: u64) -> Result<Vec<u8>, InputError> {
        if self.left == 0 {
            return Err(InputError::Unreadable);
        }
        self.left -= 1;
        self.parts = self.parts.saturating_add(1);
        self.read = self.read.saturating_add(size);
        copy_part(alloc, self.bytes, offset, size)
    }
}

/// Compares what is printed of the input with the names of registers, and the status.
pub(crate) fn prints<I: FileInput>(
    rt: &(impl Abort + AllocGlobal),
    printed: Printed<'_>,
    input: &mut I,
    text: &str,
    status: u8,
) -> Result<(), Fail> {
    let mut output = Vec::new(rt.alloc());
    let request = Request {
        printed,
        raw: false,
    };
    let found = run_on_file(rt.alloc(), request, input, &mut output)?;
    let found = (str::from_utf8(output.as_slice()), found);
    expect(rt, "a file", &found, &(Ok(text), status));
    Ok(())
}

/// Compares what is printed of the check of the input, and what was found.
fn finds<I: FileInput>(
    rt: &(impl Abort + AllocGlobal),
    format: Format,
    input: &mut I,
    text: &str,
    finding: Finding,
) -> Result<(), Fail> {
    let mut output = Vec::new(rt.alloc());
    let style = CheckStyle {
        format,
        quiet: false,
        elf_alone: false,
    };
    let found = check_file(rt.alloc(), style, "a file", input, &mut output)?;
    let found = (str::from_utf8(output.as_slice()), found);
    expect(rt, "a file", &found, &(Ok(text), finding));
    Ok(())
}

const NOT_ELF: &str = "refused NotElf: not an ELF file\n";

const WRONG_INPUT_JSON: &str = "{\"file\":\"a file\",\"result\":\"unreadable\",\
\"reason\":\"wrong input\"}
";

#[test]
fn files_that_cannot_be_checked(rt: HostRuntime) -> Result<(), Fail> {
    let (line, unreadable) = ("a file: wrong input\n", Finding::Unreadable);
    let input = &mut FailsAfter::without_length();
    finds(&rt, Format::Text, input, line, unreadable)?;
    finds(&rt, Format::Json, input, WRONG_INPUT_JSON, unreadable)
}

#[test]
fn files_that_cannot_be_read(rt: HostRuntime) -> Result<(), Fail> {
    let json = Printed::Rows(None, Format::Json);
    let input = &mut FailsAfter::without_length();
    prints(&rt, Printed::Dump, input, "wrong input\n", 2)?;
    prints(&rt, json, input, "{\"error\":\"wrong input\"}\n", 2)
}

#[test]
fn outputs_that_fail(rt: HostRuntime) -> Result<(), Fail> {
    let bytes = bytes_of(rt.alloc(), FILE)?;
    for left in 0..ALL_ROWS.len() {
        let mut output = RefusesAt::call(left, ErrorKind::BrokenPipe);
        let printed = run_on_file(
            rt.alloc(),
            Request {
                printed: Printed::Rows(None, Format::Text),
                raw: false,
            },
            &mut bytes.as_slice(),
            &mut output,
        );
        expect(&rt, left, &(printed.is_err(), output.taken), &(true, left));
    }
    Ok(())
}

/// What is printed of a file that ends in its identification, in its header, and before the end of
/// its section headers, which come last.
const CUT: [(usize, usize, &str); 3] = [
    (0, 3, NOT_ELF),
    (4, 63, "refused HeaderCut: the file ends in its header\n"),
    (64, 1119, CUT_SECTIONS),
];

const CUT_SECTIONS: &str = ".eh_frame
refused SectionTableOutOfBounds: the section header table goes past the file's end
.debug_frame
refused SectionTableOutOfBounds: the section header table goes past the file's end
";

#[test]
fn files_cut_at_every_length(rt: HostRuntime) -> Result<(), Fail> {
    let bytes = bytes_of(rt.alloc(), FILE)?;
    for (first, last, text) in &CUT {
        for count in *first..=*last {
            let cut = bytes.get(..count).unwrap_or_default();
            prints(&rt, Printed::Rows(None, Format::Text), &mut &*cut, text, 1)?;
        }
    }
    Ok(())
}
