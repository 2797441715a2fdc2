//! Encoded pointers (LSB Core, "DWARF Exception Header Encoding").
ghost use Rattle.std.specs.Prelude.{◌≡◌, ◌≤◌, ℕ};
ghost use Rattle.cfi_read_core.specs.ReaderCalls.{ReadsBy, ReadsValue};
ghost use Rattle.cfi_parts.specs.ReadingParameters.{NotBeforeSection, pointer_context};
ghost use Rattle.cfi_parts.specs.Pointers.{IsBase, IsRareApplication, IsRareFormat, PointerContext};
ghost use Rattle.cfi_parts.specs.Pointers.{base_of, direct, encoding_byte, encoded_value};
ghost use Rattle.cfi_parts.specs.Pointers.{pointer_value, pointer};

use cfi_read_core::address::AddressSize;
use cfi_read_core::constants::{
    DW_EH_PE_absptr, DW_EH_PE_aligned, DW_EH_PE_datarel, DW_EH_PE_funcrel, DW_EH_PE_omit,
    DW_EH_PE_pcrel, DW_EH_PE_sdata2, DW_EH_PE_sdata4, DW_EH_PE_sdata8, DW_EH_PE_sleb128,
    DW_EH_PE_textrel, DW_EH_PE_udata2, DW_EH_PE_udata4, DW_EH_PE_udata8, DW_EH_PE_uleb128,
};
use cfi_read_core::{DwEhPe, Error, Reader, ReaderAddress, ReaderOffset, Result};

/// A decoded pointer: a value, or the address at which the value is stored.
#[derive(Clone, Copy, Debug, PartialEq, Eq)]
pub enum Pointer {
    /// The value.
    Direct(u64),
    /// The address of the value.
    Indirect(u64),
}

impl Default for Pointer {
    ghost use Rattle.cfi_parts.specs.declared.pointer.Pointer.TheVariants.{Direct};

    ghost is_default = { λ p. p ≡ Direct 0 };

    #[inline(always)]
    fn default() -> Pointer {
        Pointer::Direct(0)
    }
}

impl Pointer {
    /// The value of a direct pointer. Returns `Error::UnsupportedIndirectPointer` for an indirect
    /// one, since the memory to which it points is not available.
    #[inline(always)]
    pub fn direct(self) -> Result<u64>
        ensures { result ≡ direct self }
    {
        match self {
            Pointer::Direct(address) => Ok(address),
            Pointer::Indirect(_) => Err(Error::UnsupportedIndirectPointer),
        }
    }

    /// The value of a direct pointer, or the address at which that of an indirect one is stored.
    #[inline(always)]
    pub fn pointer(self) -> u64
        ensures { result ≡ pointer_value self }
    {
        match self {
            Pointer::Direct(address) => address,
            Pointer::Indirect(address) => address,
        }
    }
}

/// The bases of the pointers in one section.
#[derive(Clone, Copy, Debug, Default, PartialEq, Eq)]
pub struct SectionBaseAddresses {
    /// The address of the section, the base of `DW_EH_PE_pcrel`.
    pub section: Option<u64>,
    /// The address of the code, the base of `DW_EH_PE_textrel`.
    pub text: Option<u64>,
    /// The base of `DW_EH_PE_datarel`.
    pub data_base: Option<u64>,
}

/// The bases of the pointers in the header and in the entries.
///
/// A pointer that needs a base that is not set fails to parse. None is set by default.
#[derive(Clone, Copy, Debug, Default, PartialEq, Eq)]
pub struct BaseAddresses {
    /// The bases of the pointers in `.eh_frame_hdr`.
    pub eh_frame_hdr: SectionBaseAddresses,
    /// The bases of the pointers in `.eh_frame` and `.debug_frame`.
    pub eh_frame: SectionBaseAddresses,
}

impl BaseAddresses {
    /// Sets the address of `.eh_frame_hdr`, which is also the base of its data-relative pointers.
    #[inline(always)]
    pub fn set_eh_frame_hdr(self, addr: u64) -> BaseAddresses
        ensures { result ≡ record self {
          eh_frame_hdr = record self.eh_frame_hdr { section = Some addr; data_base = Some addr };
        } }
    {
        let mut bases = self;
        bases.eh_frame_hdr.section = Some(addr);
        bases.eh_frame_hdr.data_base = Some(addr);
        bases
    }

    /// Sets the address of `.eh_frame`.
    #[inline(always)]
    pub fn set_eh_frame(self, addr: u64) -> BaseAddresses
        ensures { result ≡ record self { eh_frame = record self.eh_frame { section = Some addr } } }
    {
        let mut bases = self;
        bases.eh_frame.section = Some(addr);
        bases
    }

    /// Sets the text base, the address of the code, for the header and the entries.
    #[inline(always)]
    pub fn set_text(self, addr: u64) -> BaseAddresses
        ensures { result ≡ record self {
          eh_frame_hdr = record self.eh_frame_hdr { text = Some addr };
          eh_frame = record self.eh_frame { text = Some addr };
        } }
    {
        let mut bases = self;
        bases.eh_frame_hdr.text = Some(addr);
        bases.eh_frame.text = Some(addr);
        bases
    }

    /// Sets the base of the data-relative pointers of entries, usually the address of `.got`.
    #[inline(always)]
    pub fn set_got(self, addr: u64) -> BaseAddresses
        ensures { result ≡ record self {
          eh_frame = record self.eh_frame { data_base = Some addr };
        } }
    {
        let mut bases = self;
        bases.eh_frame.data_base = Some(addr);
        bases
    }
}

/// The parameters for reading the pointers of a section.
#[derive(Clone, Copy, Debug)]
pub struct PointerEncodingParameters<'a, R> {
    /// The bases of the section.
    pub bases: &'a SectionBaseAddresses,
    /// The first address of the function, the base of `DW_EH_PE_funcrel`.
    pub func_base: Option<u64>,
    /// The size of an address.
    pub address_size: AddressSize,
    /// The section. `DW_EH_PE_pcrel` adds the distance from its start.
    pub section: &'a R,
}

/// Reads a byte that is a pointer encoding. Returns `Error::UnknownPointerEncoding` for another
/// byte; the reader is then after it.
#[tactic(auto, unfolding(crate::specs::Pointers::encoding_byte))]
#[inline(always)]
pub fn parse_pointer_encoding<R: Reader>(input: &mut R) -> Result<DwEhPe>
    ensures { ReadsBy R.position (λ e. e.0) encoding_byte input.old result input.new }
{
    let encoding = DwEhPe(input.read_u8()?);
    if encoding.is_valid_encoding() {
        Ok(encoding)
    } else {
        Err(Error::UnknownPointerEncoding(encoding))
    }
}

/// Reads a value by the format of an encoding alone, and ignores its base and its indirection. A
/// signed value is extended to 64 bits.
///
/// Returns `Error::UnknownPointerEncoding` for an unknown format, and
/// `Error::UnsupportedAddressSize` for an address whose size is not 1, 2, 4 or 8, both before any
/// byte is read.
#[tactic(auto, unfolding(crate::specs::Pointers::encoded_value))]
#[inline(always)]
pub fn parse_encoded_value<R: Reader>(
    encoding: DwEhPe,
    address_size: u8,
    input: &mut R,
) -> Result<u64>
    ensures { ReadsValue R.position (encoded_value encoding.0 address_size)
        input.old result input.new }
{
    if encoding.format() == DW_EH_PE_sdata4 {
        return Ok(i64::from(input.read_i32()?).cast_unsigned());
    }
    // A copy is lent to the call, so that only it has to be in memory.
    let mut apart = *input;
    let found = parse_rare_value(encoding, address_size, &mut apart);
    *input = apart;
    found
}

/// Reads a value of another format than `DW_EH_PE_sdata4`, in which linkers write most pointers.
// Not inlined, since pointers are read in many places.
#[tactic(auto, unfolding(crate::specs::Pointers::encoded_value))]
#[inline(never)]
fn parse_rare_value<R: Reader>(encoding: DwEhPe, address_size: u8, input: &mut R) -> Result<u64>
    requires { IsRareFormat encoding.0 }
    ensures { ReadsValue R.position (encoded_value encoding.0 address_size)
        input.old result input.new }
{
    match encoding.format() {
        DW_EH_PE_absptr => input.read_address(address_size),
        DW_EH_PE_uleb128 => input.read_uleb128(),
        DW_EH_PE_udata2 => Ok(u64::from(input.read_u16()?)),
        DW_EH_PE_udata4 => Ok(u64::from(input.read_u32()?)),
        DW_EH_PE_udata8 => input.read_u64(),
        DW_EH_PE_sleb128 => Ok(input.read_sleb128()?.cast_unsigned()),
        DW_EH_PE_sdata2 => Ok(i64::from(input.read_i16()?).cast_unsigned()),
        DW_EH_PE_sdata8 => Ok(input.read_i64()?.cast_unsigned()),
        _ => Err(Error::UnknownPointerEncoding(encoding)),
    }
}

/// The base that is added to a value at the place of the input.
#[tactic(auto, unfolding(crate::specs::Pointers::base_of))]
#[inline(always)]
fn pointer_base<R: Reader>(
    encoding: DwEhPe,
    parameters: &PointerEncodingParameters<'_, R>,
    input: &R,
) -> Result<u64>
    requires { NotBeforeSection R.position parameters.now input.now }
    ensures { ReadsValue R.position
        (base_of encoding.0 (pointer_context R.position parameters.now))
        input.now result input.now }
{
    let bases = parameters.bases;
    match encoding.application() {
        DW_EH_PE_absptr => Ok(0),
        DW_EH_PE_pcrel => {
            let base = bases
                .section
                .ok_or(Error::PcRelativePointerButSectionBaseIsUndefined)?;
            let place = input.offset_from(parameters.section).into_u64();
            Ok(base.wrapping_add_sized(place, parameters.address_size.bytes()))
        }
        _ => rare_base(encoding, bases, parameters.func_base),
    }
}

/// The base that is added to a value by another application than `DW_EH_PE_absptr` and
/// `DW_EH_PE_pcrel`, which most pointers have.
// Not inlined, since pointers are read in many places.
#[tactic(auto, unfolding(crate::specs::Pointers::base_of))]
#[inline(never)]
fn rare_base(encoding: DwEhPe, bases: &SectionBaseAddresses, func_base: Option<u64>) -> Result<u64>
    requires { IsRareApplication encoding.0 }
    ensures { (context : PointerContext) → context.bases ≡ bases.now →
        context.function ≡ func_base → IsBase encoding.0 context result }
{
    match encoding.application() {
        DW_EH_PE_textrel => bases
            .text
            .ok_or(Error::TextRelativePointerButTextBaseIsUndefined),
        DW_EH_PE_datarel => bases
            .data_base
            .ok_or(Error::DataRelativePointerButDataBaseIsUndefined),
        DW_EH_PE_funcrel => func_base.ok_or(Error::FuncRelativePointerInBadContext),
        DW_EH_PE_aligned => Err(Error::UnsupportedPointerEncoding(encoding)),
        _ => Err(Error::UnknownPointerEncoding(encoding)),
    }
}

/// Reads a pointer: the sum of its base and its value, which wraps at the size of an address.
///
/// Returns `Error::CannotParseOmitPointerEncoding` if the encoding is `DW_EH_PE_omit`. Then, before
/// any byte is read, fails if the base that the encoding names is not set (the error says which),
/// with `Error::UnsupportedPointerEncoding` for an aligned value, and with
/// `Error::UnknownPointerEncoding` for an unknown application. Then fails as `parse_encoded_value`
/// does.
#[tactic(auto, unfolding(crate::specs::Pointers::pointer))]
#[inline(always)]
pub fn parse_encoded_pointer<R: Reader>(
    encoding: DwEhPe,
    parameters: &PointerEncodingParameters<'_, R>,
    input: &mut R,
) -> Result<Pointer>
    requires { NotBeforeSection R.position parameters.now input.old }
    ensures { ReadsValue R.position
        (pointer encoding.0 (pointer_context R.position parameters.now))
        input.old result input.new }
{
    if encoding == DW_EH_PE_omit {
        return Err(Error::CannotParseOmitPointerEncoding);
    }
    let base = pointer_base(encoding, parameters, input)?;
    let size = parameters.address_size.bytes();
    let value = parse_encoded_value(encoding, size, input)?;
    let address = base.wrapping_add_sized(value, size);
    if encoding.is_indirect() {
        Ok(Pointer::Indirect(address))
    } else {
        Ok(Pointer::Direct(address))
    }
}
