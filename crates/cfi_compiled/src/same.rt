//! Whether what rows say is equal.
ghost use Rattle.std.specs.Prelude.{◌≡◌, IsTrue};
ghost use Rattle.cfi_read_core.specs.ReaderCalls.{map_ok};

use crate::facts::CieFacts;
use crate::rests::KeptRow;
use cfi_read_core::{Error, Register, Result};
use cfi_state::table::rules::{CfaRule, RegisterRule};

/// Whether two results are the same.
#[inline(always)]
pub(crate) fn is_same(a: Result<&KeptRow>, b: Result<KeptRow>) -> bool
    ensures { IsTrue result → map_ok (λ row. row.now) a.entry ≡ b }
{
    match a {
        Ok(a) => match b {
            Ok(b) => is_same_row(*a, b),
            Err(_) => false,
        },
        Err(a) => match b {
            Ok(_) => false,
            Err(b) => is_same_error(a, b),
        },
    }
}

/// Whether two kept rows are the same.
fn is_same_row(a: KeptRow, b: KeptRow) -> bool
    ensures { IsTrue result → a ≡ b }
{
    a.rest == b.rest && is_same_cfa(a.cfa, b.cfa)
}

/// Whether both are the error for an address that no FDE contains.
fn is_same_error(a: Error, b: Error) -> bool
    ensures { IsTrue result → a ≡ b }
{
    match a {
        Error::NoUnwindInfoForAddress => match b {
            Error::NoUnwindInfoForAddress => true,
            _ => false,
        },
        _ => false,
    }
}

/// Whether two rules of the CFA are equal.
#[inline(always)]
pub(crate) fn is_same_cfa(a: CfaRule<usize>, b: CfaRule<usize>) -> bool
    ensures { IsTrue result → a ≡ b }
{
    a == b
}

/// Whether two CIEs say the same of the return.
#[inline(always)]
pub(crate) fn is_same_facts(a: CieFacts, b: CieFacts) -> bool
    ensures { IsTrue result → a ≡ b }
{
    a.return_address.0 == b.return_address.0 && a.is_signal_trampoline == b.is_signal_trampoline
}

/// Whether two rules of a register are equal.
#[inline(always)]
fn is_same_rule(a: RegisterRule<usize>, b: RegisterRule<usize>) -> bool
    ensures { IsTrue result → a ≡ b }
{
    if let RegisterRule::Offset(a) = a {
        if let RegisterRule::Offset(b) = b {
            return a == b;
        }
        return false;
    }
    a == b
}

/// Whether two registers with their rules are equal.
#[inline(always)]
pub(crate) fn is_same_pair(
    a: (Register, RegisterRule<usize>),
    b: (Register, RegisterRule<usize>),
) -> bool
    ensures { IsTrue result → a ≡ b }
{
    a.0.0 == b.0.0 && is_same_rule(a.1, b.1)
}
