//! Sums of addresses, registers by their numbers, and which section is which.
use crate::comparison::expect;
use crate::readers::Slice;
use cfi_read_core::{Error, Reader, ReaderAddress, Register, Section, SectionId};
use cfi_unwind::unwind_section::{DebugFrame, EhFrame};

/// An address plus 1 in eight bytes and in four, and plus 2 modulo 2^32.
type Sums<A> = ([Result<A, Error>; 2], A);

fn sums<A: ReaderAddress>(address: A) -> Sums<A> {
    (
        [address.add_sized(1, 8), address.add_sized(1, 4)],
        address.wrapping_add_sized(2, 4),
    )
}

const SUMS: Sums<u64> = ([Ok(0x1_0000_0000), Err(Error::AddressOverflow)], 1);

fn ids<R: Reader>() -> [SectionId; 2] {
    [
        <DebugFrame<R> as Section<R>>::id(),
        <EhFrame<R> as Section<R>>::id(),
    ]
}

#[test]
fn sums_registers_and_sections(rt: HostRuntime) {
    let registers = [Register::from_u64(0xffff), Register::from_u64(0x1_0000)];
    let found = (sums(0xffff_ffffu64), registers, ids::<Slice<'_>>());
    let registers = [
        Ok(Register(0xffff)),
        Err(Error::UnsupportedRegister(0x1_0000)),
    ];
    let ids = [SectionId::DebugFrame, SectionId::EhFrame];
    expect(&rt, "values", &found, &(SUMS, registers, ids));
}
