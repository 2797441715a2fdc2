//! Constants of DWARF 5 and of the LSB: pointer encodings and call frame opcodes.
ghost use Rattle.std.specs.Prelude.{◌≡◌, ◌*◌};
ghost use Rattle.cfi_read_core.specs.PointerEncodings.{application_of, format_of, is_indirect};
ghost use Rattle.cfi_read_core.specs.PointerEncodings.{is_valid_encoding};

/// The encoding of a pointer (LSB Core, "DWARF Exception Header Encoding").
#[derive(Clone, Copy, Debug, PartialEq, Eq)]
pub struct DwEhPe(pub u8);

/// The opcode of a call frame instruction (DWARF 5 section 7.24).
#[derive(Clone, Copy, Debug, PartialEq, Eq)]
pub struct DwCfa(pub u8);

/// An address, in the section's address size.
pub const DW_EH_PE_absptr: DwEhPe = DwEhPe(0x00);
/// An unsigned LEB128 number.
pub const DW_EH_PE_uleb128: DwEhPe = DwEhPe(0x01);
/// Two bytes, unsigned.
pub const DW_EH_PE_udata2: DwEhPe = DwEhPe(0x02);
/// Four bytes, unsigned.
pub const DW_EH_PE_udata4: DwEhPe = DwEhPe(0x03);
/// Eight bytes, unsigned.
pub const DW_EH_PE_udata8: DwEhPe = DwEhPe(0x04);
/// A signed LEB128 number.
pub const DW_EH_PE_sleb128: DwEhPe = DwEhPe(0x09);
/// Two bytes, signed.
pub const DW_EH_PE_sdata2: DwEhPe = DwEhPe(0x0a);
/// Four bytes, signed.
pub const DW_EH_PE_sdata4: DwEhPe = DwEhPe(0x0b);
/// Eight bytes, signed.
pub const DW_EH_PE_sdata8: DwEhPe = DwEhPe(0x0c);
/// Relative to the address of the value itself.
pub const DW_EH_PE_pcrel: DwEhPe = DwEhPe(0x10);
/// Relative to the text section.
pub const DW_EH_PE_textrel: DwEhPe = DwEhPe(0x20);
/// Relative to the data section, or to the header.
pub const DW_EH_PE_datarel: DwEhPe = DwEhPe(0x30);
/// Relative to the function.
pub const DW_EH_PE_funcrel: DwEhPe = DwEhPe(0x40);
/// Aligned to an address.
pub const DW_EH_PE_aligned: DwEhPe = DwEhPe(0x50);
/// The value is the address at which the pointer is stored.
pub const DW_EH_PE_indirect: DwEhPe = DwEhPe(0x80);
/// There is no value.
pub const DW_EH_PE_omit: DwEhPe = DwEhPe(0xff);

/// Advances the location by a delta in the low six bits.
pub const DW_CFA_advance_loc: DwCfa = DwCfa(0x40);
/// The register of the low six bits is saved at an offset.
pub const DW_CFA_offset: DwCfa = DwCfa(0x80);
/// Restores the rule that the initial instructions gave the register of the low six bits.
pub const DW_CFA_restore: DwCfa = DwCfa(0xc0);
/// No operation, for padding.
pub const DW_CFA_nop: DwCfa = DwCfa(0x00);
/// Sets the location to an address.
pub const DW_CFA_set_loc: DwCfa = DwCfa(0x01);
/// Advances the location by a one-byte delta.
pub const DW_CFA_advance_loc1: DwCfa = DwCfa(0x02);
/// Advances the location by a two-byte delta.
pub const DW_CFA_advance_loc2: DwCfa = DwCfa(0x03);
/// Advances the location by a four-byte delta.
pub const DW_CFA_advance_loc4: DwCfa = DwCfa(0x04);
/// A register is saved at an offset.
pub const DW_CFA_offset_extended: DwCfa = DwCfa(0x05);
/// Restores the rule that the initial instructions gave the register.
pub const DW_CFA_restore_extended: DwCfa = DwCfa(0x06);
/// The previous value of the register cannot be recovered.
pub const DW_CFA_undefined: DwCfa = DwCfa(0x07);
/// A register keeps its previous value.
pub const DW_CFA_same_value: DwCfa = DwCfa(0x08);
/// A register is saved in another register.
pub const DW_CFA_register: DwCfa = DwCfa(0x09);
/// Pushes the current rules.
pub const DW_CFA_remember_state: DwCfa = DwCfa(0x0a);
/// Pops the rules that were pushed last.
pub const DW_CFA_restore_state: DwCfa = DwCfa(0x0b);
/// The CFA is a register plus an offset.
pub const DW_CFA_def_cfa: DwCfa = DwCfa(0x0c);
/// Sets the register of the CFA.
pub const DW_CFA_def_cfa_register: DwCfa = DwCfa(0x0d);
/// Sets the offset of the CFA.
pub const DW_CFA_def_cfa_offset: DwCfa = DwCfa(0x0e);
/// The CFA is the value of an expression.
pub const DW_CFA_def_cfa_expression: DwCfa = DwCfa(0x0f);
/// A register is saved at the address of an expression.
pub const DW_CFA_expression: DwCfa = DwCfa(0x10);
/// A register is saved at a signed offset.
pub const DW_CFA_offset_extended_sf: DwCfa = DwCfa(0x11);
/// The CFA is a register plus a signed offset.
pub const DW_CFA_def_cfa_sf: DwCfa = DwCfa(0x12);
/// Sets the signed offset of the CFA.
pub const DW_CFA_def_cfa_offset_sf: DwCfa = DwCfa(0x13);
/// A register's value is the CFA plus an offset.
pub const DW_CFA_val_offset: DwCfa = DwCfa(0x14);
/// A register's value is the CFA plus a signed offset.
pub const DW_CFA_val_offset_sf: DwCfa = DwCfa(0x15);
/// A register's value is the value of an expression.
pub const DW_CFA_val_expression: DwCfa = DwCfa(0x16);
/// Toggles the signing state of the return address (AArch64).
pub const DW_CFA_AARCH64_negate_ra_state: DwCfa = DwCfa(0x2d);
/// The size of the arguments on the stack (GNU).
pub const DW_CFA_GNU_args_size: DwCfa = DwCfa(0x2e);
/// A register is saved at the CFA minus an offset (GNU).
pub const DW_CFA_GNU_negative_offset_extended: DwCfa = DwCfa(0x2f);

impl DwEhPe {
    /// The format: the low four bits.
    #[inline(always)]
    pub fn format(self) -> DwEhPe
        ensures { result.0 ≡ format_of self.0 }
    {
        DwEhPe(self.0 % 16)
    }

    /// The application: bits 4 to 6.
    #[inline(always)]
    pub fn application(self) -> DwEhPe
        ensures { result.0 ≡ 16 * application_of self.0 }
    {
        DwEhPe(self.0 / 16 % 8 * 16)
    }

    /// Whether bit 7 is set: the value is the address at which the pointer is stored.
    #[inline(always)]
    pub fn is_indirect(self) -> bool
        ensures { result ≡ is_indirect self.0 }
    {
        self.0 >= DW_EH_PE_indirect.0
    }

    /// Whether the encoding is `DW_EH_PE_omit`, or its format and its application are known.
    #[inline(always)]
    pub fn is_valid_encoding(self) -> bool
        ensures { result ≡ is_valid_encoding self.0 }
    {
        self.0 == DW_EH_PE_omit.0
            || (matches!(self.0 % 16, 0 | 1 | 2 | 3 | 4 | 9 | 10 | 11 | 12) && self.0 / 16 % 8 <= 5)
    }
}
