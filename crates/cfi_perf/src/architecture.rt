//! The machine on which a profile was recorded.
ghost use Rattle.std.specs.Prelude.{◌≡◌, option_map};
ghost use Rattle.cfi_read_core.specs.ByteOrder.{is_big};
ghost use Rattle.cfi_read_core.specs.ReaderCalls.{map_ok};
ghost use Rattle.cfi_perf.specs.Architectures.{machine_by, text_in};

use crate::bytes::{before_zero, read_header_text};
use crate::error::PerfError;
use crate::layout::has_any;
use cfi_read_core::{EndianSlice, Endianity, RunTimeEndian};

const X86_64_IP: u64 = 1 << 8;

/// All but the segment registers DS, ES, FS and GS, which 64-bit programs don't have there.
const X86_64_REGISTERS: u64 = 0xff_0fff;

const AARCH64_PC: u64 = 1 << 32;

/// X0 to X29, LR, SP and PC.
const AARCH64_REGISTERS: u64 = (1 << 33) - 1;

/// The text that a section begins with.
pub(crate) fn text_in(endian: RunTimeEndian, contents: &[u8]) -> Result<&[u8], PerfError>
    ensures { map_ok (λ text. text.now) result ≡ text_in (is_big endian) contents.now }
{
    let mut input = EndianSlice::new(contents, endian);
    let Ok(text) = read_header_text(&mut input) else {
        return Err(PerfError::FeatureOutOfBounds);
    };
    match before_zero(text) {
        Some(text) => Ok(text),
        None => Err(PerfError::FeatureOutOfBounds),
    }
}

/// The machine on which samples have these registers, as `uname -m` prints it.
pub(crate) fn machine_by(endian: RunTimeEndian, mask: u64) -> Option<&'static [u8]>
    ensures { option_map (λ name. name.now) result ≡ machine_by (is_big endian) mask }
{
    if endian.is_big_endian() {
        None
    } else if has_any(X86_64_IP, mask) && mask & X86_64_REGISTERS == mask {
        Some(b"x86_64".as_slice())
    } else if has_any(AARCH64_PC, mask) && mask & AARCH64_REGISTERS == mask {
        Some(b"aarch64".as_slice())
    } else {
        None
    }
}
