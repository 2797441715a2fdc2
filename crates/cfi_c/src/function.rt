//! Functions as C sees them.
ghost use Rattle.std.specs.Prelude.{◌≡◌, None, Some};
ghost use Rattle.cfi_step.specs.PackedRows.{function_packed};
ghost use Rattle.cfi_c.specs.WrittenFunctions.{is_pointer_indirect, pointer_address};
ghost use Rattle.cfi_c.specs.WrittenFunctions.{written_function};

use cfi_step::{Function, PackedRow};
use gimli_cfi::Pointer;

/// What an FDE and its CIE say of a function, beside its rows.
#[repr(C)]
#[derive(Clone, Copy)]
pub struct CfiFunction {
    /// The first address, and the first after it.
    pub start: u64,
    pub end: u64,
    /// 0 if there is none.
    pub lsda: u64,
    pub personality: u64,
    /// The offset of the FDE in the section.
    pub fde: u64,
    /// The register that holds the return address.
    pub return_address: u16,
    /// Whether there is an FDE; else all of this is 0.
    pub is_known: bool,
    pub has_lsda: bool,
    pub has_personality: bool,
    /// Whether it is the address of the pointer.
    pub lsda_is_indirect: bool,
    pub personality_is_indirect: bool,
    pub is_signal_trampoline: bool,
}

/// The function as C sees it.
pub fn written_function(function: Option<Function>) -> CfiFunction
    ensures { result ≡ written_function function }
{
    match function {
        Some(function) => CfiFunction {
            start: function.start,
            end: function.end,
            lsda: address_of(function.lsda),
            personality: address_of(function.personality),
            fde: function.offset,
            return_address: function.return_address.0,
            is_known: true,
            has_lsda: function.lsda.is_some(),
            has_personality: function.personality.is_some(),
            lsda_is_indirect: is_indirect(function.lsda),
            personality_is_indirect: is_indirect(function.personality),
            is_signal_trampoline: function.is_signal_trampoline,
        },
        None => CfiFunction {
            start: 0,
            end: 0,
            lsda: 0,
            personality: 0,
            fde: 0,
            return_address: 0,
            is_known: false,
            has_lsda: false,
            has_personality: false,
            lsda_is_indirect: false,
            personality_is_indirect: false,
            is_signal_trampoline: false,
        },
    }
}

/// What a pointer points to, or where the pointer is; 0 if there is none.
fn address_of(pointer: Option<Pointer>) -> u64
    ensures { result ≡ pointer_address pointer }
{
    match pointer {
        Some(pointer) => pointer.pointer(),
        None => 0,
    }
}

/// Whether a pointer is given by the address where it is.
fn is_indirect(pointer: Option<Pointer>) -> bool
    ensures { result ≡ is_pointer_indirect pointer }
{
    match pointer {
        Some(Pointer::Indirect(_address)) => true,
        _ => false,
    }
}

/// Writes what the row says of the function.
#[inline(always)]
pub fn write_function(row: &PackedRow, function: &mut CfiFunction)
    ensures { function.new ≡ written_function (Some (function_packed row.now)) }
{
    match row.plain_function() {
        Some(plain) => write_plain(plain, function),
        None => write_any_function(row, function),
    }
}

/// Writes a function that has no pointers.
#[inline(always)]
fn write_plain(plain: Function, function: &mut CfiFunction)
    requires lsda { plain.lsda ≡ None }
    requires personality { plain.personality ≡ None }
    ensures { function.new ≡ written_function (Some plain) }
{
    // a field at a time, as in `packed_registers`
    function.start = plain.start;
    function.end = plain.end;
    function.lsda = 0;
    function.personality = 0;
    function.fde = plain.offset;
    function.return_address = plain.return_address.0;
    function.is_known = true;
    function.has_lsda = false;
    function.has_personality = false;
    function.lsda_is_indirect = false;
    function.personality_is_indirect = false;
    function.is_signal_trampoline = plain.is_signal_trampoline;
}

/// Writes any function.
#[inline(never)]
fn write_any_function(row: &PackedRow, function: &mut CfiFunction)
    ensures { function.new ≡ written_function (Some (function_packed row.now)) }
{
    *function = written_function(Some(row.function()));
}
