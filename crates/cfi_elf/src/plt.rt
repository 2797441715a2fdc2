//! The entries of the procedure linkage table (System V ABI chapter 5, "Procedure Linkage Table").
ghost use Rattle.std.specs.Prelude.{◌≡◌, ◌++◌, ◌⊎◌, ◌*◌, ◌≤◌, Ok, Err, IfErr, IfOk, OnOk, length};
ghost use Rattle.cfi_elf.specs.declared.error.ElfError.TheVariants.{OutOfMemory};
ghost use Rattle.cfi_elf.specs.ElfFiles.{file_view};
ghost use Rattle.cfi_elf.specs.PltAddresses.{entries_in, entries_to, entry_in, if_among};
ghost use Rattle.cfi_elf.specs.PltAddresses.{plt_addresses};
ghost use Rattle.cfi_elf.specs.PltSections.{plt_parts_view};
ghost use Rattle.cfi_elf.specs.Sections.{section_view};

use crate::address_list::add;
use crate::bytes::bytes_from;
use crate::elf_file::ElfFile;
use crate::error::ElfError;
use crate::plt_jump::jump_slot;
use crate::plt_sections::{PltParts, PltSections};
use crate::sections::Section;
use std::alloc::Global;

impl<'input> ElfFile<'input> {
    /// The addresses of the entries of the procedure linkage table that go to the symbols of this
    /// name, as `objdump -d` names them with `@plt`: those in `.plt`, `.plt.sec` and `.plt.got`
    /// whose jump reads the address that a relocation in `.rela.plt` or `.rela.dyn` has stored
    /// there, of type `R_X86_64_JUMP_SLOT`, `R_X86_64_GLOB_DAT`, `R_AARCH64_JUMP_SLOT` or
    /// `R_AARCH64_GLOB_DAT` and with a symbol of `.dynsym` of this name. They are in the order of
    /// the sections and of their bytes. There are none on other machines than x86-64 and AArch64.
    ///
    /// Fails as `section` for each of these sections; with `OutOfMemory`. Allocates the list, and
    /// another of the slots where addresses are stored (System V psABI for x86-64, "Procedure
    /// Linkage Table"; ELF for the Arm 64-bit architecture, "Dynamic relocations").
    #[tactic(auto, unfolding(crate::specs::PltAddresses::plt_addresses))]
    pub fn plt_addresses(&self, alloc: Global, name: &[u8]) -> Result<Vec<u64>, ElfError>
        ensures ok { IfOk result (λ found. plt_addresses (file_view self.now) name.now
            ≡ Ok found.items) }
        ensures err { IfErr result (λ e. (e ≡ OutOfMemory)
            ⊎ (plt_addresses (file_view self.now) name.now ≡ Err e)) }
    {
        let parts = self.plt_parts()?;
        self.entries_to(alloc, &parts, name)
    }

    /// The entries that read an address of a symbol of this name. Fails with `OutOfMemory`.
    fn entries_to(
        &self,
        alloc: Global,
        parts: &PltParts<'input>,
        name: &[u8],
    ) -> Result<Vec<u64>, ElfError>
        ensures ok { IfOk result (λ found. found.items
            ≡ entries_to (file_view self.now) name.now (plt_parts_view parts.now)) }
        ensures err { IfErr result (λ e. e ≡ OutOfMemory) }
    {
        let slots = self.slots_of(alloc, &parts.got, name)?;
        self.entries_among(alloc, slots.as_slice(), &parts.plt)
    }

    /// The entries that read one of these slots. Fails with `OutOfMemory`.
    fn entries_among(
        &self,
        alloc: Global,
        slots: &[u64],
        sections: &PltSections<'input>,
    ) -> Result<Vec<u64>, ElfError>
        ensures ok { IfOk result (λ found. found.items
            ≡ entries_in (file_view self.now) slots.now (section_view sections.now.plt)
            ++ (entries_in (file_view self.now) slots.now (section_view sections.now.plt_sec)
            ++ entries_in (file_view self.now) slots.now (section_view sections.now.plt_got))) }
        ensures err { IfErr result (λ e. e ≡ OutOfMemory) }
    {
        let mut found = Vec::new(alloc);
        self.add_entries(&mut found, slots, &sections.plt)?;
        self.add_entries(&mut found, slots, &sections.plt_sec)?;
        self.add_entries(&mut found, slots, &sections.plt_got)?;
        Ok(found)
    }

    /// Adds the entries of a section that read one of these slots. Fails with `OutOfMemory`.
    fn add_entries(
        &self,
        found: &mut Vec<u64>,
        slots: &[u64],
        section: &Section<'input>,
    ) -> Result<(), ElfError>
        ensures ok { OnOk result (found.new.items ≡ found.old.items
            ++ entries_in (file_view self.now) slots.now (section_view section.now)) }
        ensures err { IfErr result (λ e. e ≡ OutOfMemory) }
    {
        for index in 0..section.bytes.len() / 8 {
            add(found, self.entry_in(slots, section, index))?;
        }
        Ok(())
    }

    /// The address of the entry at a multiple of 8 bytes in a section, if it reads one of these
    /// slots.
    fn entry_in(&self, slots: &[u64], section: &Section<'input>, index: usize) -> Option<u64>
        requires { index * 8 ≤ length section.now.bytes.now }
        ensures { result ≡ entry_in (file_view self.now) slots.now (section_view section.now)
            index }
    {
        let offset = index as u64 * 8;
        let address = section.address.wrapping_add(offset);
        let bytes = bytes_from(section.bytes, offset);
        let slot = jump_slot(self.header.kind.e_machine, address, bytes)?;
        if_among(slots, address, slot)
    }
}

/// The address, if the slot is one of these.
fn if_among(slots: &[u64], address: u64, slot: u64) -> Option<u64>
    ensures { result ≡ if_among slots.now address slot }
{
    if slots.contains(&slot) {
        Some(address)
    } else {
        None
    }
}
