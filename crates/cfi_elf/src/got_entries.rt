//! The entries of the global offset table where the address of a symbol is stored (System V ABI
//! chapter 5, "Global Offset Table"; System V psABI for x86-64, "Relocation Types"; ELF for the Arm
//! 64-bit architecture, "Dynamic relocations").
ghost use Rattle.std.specs.Prelude.{◌≡◌, ◌++◌, IfErr, IfOk, OnOk};
ghost use Rattle.cfi_elf.specs.declared.error.ElfError.TheVariants.{OutOfMemory};
ghost use Rattle.cfi_elf.specs.ElfFiles.{file_view};
ghost use Rattle.cfi_elf.specs.GotEntries.{names_symbol, slot_of, slots_in, slots_of};
ghost use Rattle.cfi_elf.specs.GotEntries.{stores_address};
ghost use Rattle.cfi_elf.specs.PltSections.{got_relocations_view};

use crate::address_list::add;
use crate::constants::{
    EM_AARCH64, EM_X86_64, R_AARCH64_GLOB_DAT, R_AARCH64_JUMP_SLOT, R_X86_64_GLOB_DAT,
    R_X86_64_JUMP_SLOT,
};
use crate::elf_file::ElfFile;
use crate::error::ElfError;
use crate::plt_sections::GotRelocations;
use crate::relocation::Relocation;
use crate::string_table::is_name;
use std::alloc::Global;

impl<'input> ElfFile<'input> {
    /// The addresses of the entries for the symbols of this name. Fails with `OutOfMemory`.
    pub(crate) fn slots_of(
        &self,
        alloc: Global,
        got: &GotRelocations<'input>,
        name: &[u8],
    ) -> Result<Vec<u64>, ElfError>
        ensures ok { IfOk result (λ found. found.items
            ≡ slots_of (file_view self.now) (got_relocations_view got.now) name.now) }
        ensures err { IfErr result (λ e. e ≡ OutOfMemory) }
    {
        let mut found = Vec::new(alloc);
        self.add_slots(&mut found, got, got.rela_plt, name)?;
        self.add_slots(&mut found, got, got.rela_dyn, name)?;
        Ok(found)
    }

    /// Adds those of a section of relocations. Fails with `OutOfMemory`.
    fn add_slots(
        &self,
        found: &mut Vec<u64>,
        got: &GotRelocations<'input>,
        entries: &'input [u8],
        name: &[u8],
    ) -> Result<(), ElfError>
        ensures ok { OnOk result (found.new.items ≡ found.old.items
            ++ slots_in (file_view self.now) (got_relocations_view got.now) name.now entries.now) }
        ensures err { IfErr result (λ e. e ≡ OutOfMemory) }
    {
        for index in 0..entries.len() {
            let Some(relocation) = self.relocation_in(entries, true, index) else {
                return Ok(());
            };
            add(found, self.slot_of(got, &relocation, name))?;
        }
        Ok(())
    }

    /// Where a relocation stores the address of a symbol of this name.
    fn slot_of(
        &self,
        got: &GotRelocations<'input>,
        relocation: &Relocation,
        name: &[u8],
    ) -> Option<u64>
        ensures { result ≡ slot_of (file_view self.now) (got_relocations_view got.now) name.now
            relocation.now }
    {
        if stores_address(self.header.kind.e_machine, relocation.kind)
            && self.names_symbol(got, relocation, name)
        {
            Some(relocation.r_offset)
        } else {
            None
        }
    }

    /// Whether the symbol of a relocation has this name.
    fn names_symbol(
        &self,
        got: &GotRelocations<'input>,
        relocation: &Relocation,
        name: &[u8],
    ) -> bool
        ensures { result ≡ names_symbol (file_view self.now) (got_relocations_view got.now) name.now
            relocation.now }
    {
        match self.symbol_in(got.dynsym, relocation.symbol as usize) {
            Some(symbol) => is_name(got.dynstr, symbol.st_name, name),
            None => false,
        }
    }
}

/// Whether relocations of this type store the address of their symbol.
fn stores_address(e_machine: u16, kind: u32) -> bool
    ensures { result ≡ stores_address e_machine kind }
{
    if e_machine == EM_X86_64 {
        kind == R_X86_64_GLOB_DAT || kind == R_X86_64_JUMP_SLOT
    } else if e_machine == EM_AARCH64 {
        kind == R_AARCH64_GLOB_DAT || kind == R_AARCH64_JUMP_SLOT
    } else {
        false
    }
}
