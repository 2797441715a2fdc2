//! Lists of the addresses that are found for a name.
ghost use Rattle.std.specs.Prelude.{◌≡◌, OnOk, IfErr};
ghost use Rattle.cfi_elf.specs.declared.error.ElfError.TheVariants.{OutOfMemory};
ghost use Rattle.cfi_elf.specs.Options.{with_more};
ghost use Rattle.cfi_elf.specs.SymbolAddresses.{with_address};

use crate::error::ElfError;

/// Adds an address where there is one. Fails with `OutOfMemory`.
pub(crate) fn add(found: &mut Vec<u64>, address: Option<u64>) -> Result<(), ElfError>
    ensures ok { OnOk result (found.new.items ≡ with_more found.old.items address) }
    ensures err { IfErr result (λ e. e ≡ OutOfMemory) }
{
    let Some(address) = address else {
        return Ok(());
    };
    match found.push(address) {
        Ok(()) => Ok(()),
        Err(_) => Err(ElfError::OutOfMemory),
    }
}

/// Adds an address that isn't in the list. Fails with `OutOfMemory`.
pub(crate) fn add_distinct(addresses: &mut Vec<u64>, address: u64) -> Result<(), ElfError>
    ensures ok { OnOk result (addresses.new.items ≡ with_address addresses.old.items address) }
    ensures err { IfErr result (λ e. e ≡ OutOfMemory) }
{
    if addresses.contains(&address) {
        return Ok(());
    }
    add(addresses, Some(address))
}
