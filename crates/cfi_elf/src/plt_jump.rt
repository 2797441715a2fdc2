//! The jump of an entry of the procedure linkage table (System V psABI for x86-64, "Procedure
//! Linkage Table"; Intel 64 and IA-32 Architectures Software Developer's Manual, "JMP", "ENDBR64";
//! Arm Architecture Reference Manual for A-profile, "ADRP", "LDR (immediate)", "BTI").
ghost use Rattle.std.specs.Prelude.{◌≡◌, ◌<◌, ◌≤◌, option_map, length, find, nat_eq};
ghost use Rattle.std.specs.List.{starts_with};
ghost use Rattle.cfi_elf.specs.PltJumps.{aarch64_slot, byte_offset, is_adrp_x16, is_ldr_x17};
ghost use Rattle.cfi_elf.specs.PltJumps.{indirect_jumps, loaded_from, page_distance, pages};
ghost use Rattle.cfi_elf.specs.PltJumps.{pair_slot, slot_after, jump_slot, x86_64_slot};

use crate::bytes::{Record, bytes_from, part};
use crate::constants::{EM_AARCH64, EM_X86_64};
use crate::relocation::sign_extended;

/// The instruction BTI c.
const BTI_C: &[u8; 4] = b"\x5f\x24\x03\xd5";

/// The address of the entry of the global offset table that is read by the jump with which these
/// bytes at an address begin. `None` where they don't begin with such a jump, and on other machines
/// than x86-64 and AArch64.
pub(crate) fn jump_slot(e_machine: u16, address: u64, bytes: &[u8]) -> Option<u64>
    ensures { result ≡ jump_slot e_machine address bytes.now }
{
    if e_machine == EM_X86_64 {
        x86_64_slot(address, bytes)
    } else if e_machine == EM_AARCH64 {
        aarch64_slot(address, bytes)
    } else {
        None
    }
}

/// That of x86-64.
fn x86_64_slot(address: u64, bytes: &[u8]) -> Option<u64>
    ensures { result ≡ x86_64_slot address bytes.now }
{
    let size = jump_size(bytes)?;
    slot_after(address, bytes, size)
}

/// How many bytes are before the distance in the jump with which these bytes begin: those of the
/// opcode, of its prefix and of ENDBR64.
fn jump_size(bytes: &[u8]) -> Option<u64>
    ensures value { result ≡ option_map (λ jump. length jump)
        (find (λ jump. starts_with nat_eq bytes.now jump) indirect_jumps) }
{
    if bytes.starts_with(b"\xff\x25") {
        Some(2)
    } else if bytes.starts_with(b"\xf2\xff\x25") {
        Some(3)
    } else if bytes.starts_with(b"\xf3\x0f\x1e\xfa\xff\x25") {
        Some(6)
    } else if bytes.starts_with(b"\xf3\x0f\x1e\xfa\xf2\xff\x25") {
        Some(7)
    } else {
        None
    }
}

/// The operand's address, where its distance is after so many bytes.
fn slot_after(address: u64, bytes: &[u8], size: u64) -> Option<u64>
    requires { size ≤ 7 }
    ensures { result ≡ slot_after address bytes.now size }
{
    let found = part(bytes, size, 4)?;
    let distance = Record {
        bytes: found,
        big_endian: false,
    };
    let next = address.wrapping_add(size + 4);
    Some(next.wrapping_add(sign_extended(distance.word(0))))
}

/// That of AArch64.
fn aarch64_slot(address: u64, bytes: &[u8]) -> Option<u64>
    ensures { result ≡ aarch64_slot address bytes.now }
{
    if bytes.starts_with(BTI_C) {
        pair_slot(address.wrapping_add(4), bytes_from(bytes, 4))
    } else {
        pair_slot(address, bytes)
    }
}

/// That of the two instructions with which these bytes begin.
fn pair_slot(address: u64, bytes: &[u8]) -> Option<u64>
    ensures { result ≡ pair_slot address bytes.now }
{
    let found = part(bytes, 0, 8)?;
    let pair = Record {
        bytes: found,
        big_endian: false,
    };
    loaded_from(address, pair.word(0), pair.word(4))
}

/// Where the second of two instructions loads from, if they are ADRP x16 and LDR x17, [x16, n].
fn loaded_from(address: u64, adrp: u32, ldr: u32) -> Option<u64>
    ensures { result ≡ loaded_from address adrp ldr }
{
    if !is_adrp_x16(adrp) || !is_ldr_x17(ldr) {
        return None;
    }
    let page = address - address % 4096;
    let base = page.wrapping_add(page_distance(pages(adrp)));
    Some(base.wrapping_add(byte_offset(ldr)))
}

/// Whether the instruction is ADRP x16.
fn is_adrp_x16(word: u32) -> bool
    ensures { result ≡ is_adrp_x16 word }
{
    word / 0x8000_0000 == 1 && word / 0x100_0000 % 32 == 16 && word % 32 == 16
}

/// Whether the instruction is LDR x17, [x16, n].
fn is_ldr_x17(word: u32) -> bool
    ensures { result ≡ is_ldr_x17 word }
{
    word / 0x40_0000 == 0x3e5 && word / 32 % 32 == 16 && word % 32 == 17
}

/// The number of pages of an ADRP, 21 bits in two's complement.
fn pages(word: u32) -> u64
    ensures value { result ≡ pages word }
    ensures below { result < 0x20_0000 }
{
    u64::from(word / 32 % 0x8_0000 * 4 + word / 0x2000_0000 % 4)
}

/// The bytes of so many pages, in two's complement of 64 bits.
fn page_distance(count: u64) -> u64
    requires { count < 0x20_0000 }
    ensures { result ≡ page_distance count }
{
    if count < 0x10_0000 {
        count * 4096
    } else {
        (count * 4096).wrapping_sub(0x2_0000_0000)
    }
}

/// The number of bytes that are added to the register.
fn byte_offset(word: u32) -> u64
    ensures { result ≡ byte_offset word }
{
    u64::from(word / 0x400 % 0x1000 * 8)
}
