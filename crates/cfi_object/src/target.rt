//! The addresses that a word names in an ELF file.
ghost use Rattle.std.specs.Prelude.{◌≡◌, ◌∷◌, [], IfErr, IfOk, Ok, option_map};
ghost use Rattle.cfi_elf.specs.declared.error.ElfError.TheVariants.{OutOfMemory};
ghost use Rattle.cfi_elf.specs.ElfFiles.{file_view};
ghost use Rattle.cfi_object.specs.Targets.{IsOrNoMemory, addresses_by_name, addresses_named};
ghost use Rattle.cfi_object.specs.Targets.{before_plt, by_ending, each_offset, ends_with_plt};
ghost use Rattle.cfi_object.specs.Targets.{entries_named, names_entry, offset_from_name};
ghost use Rattle.cfi_object.specs.Targets.{offset_if_number, section_addresses, symbols_named};
ghost use Rattle.cfi_object.specs.Targets.{symbols_or_section, target_addresses};
ghost use Rattle.cfi_object.specs.Targets.{with_version_or_not, without_version};

use crate::number_in;
use cfi_elf::{ElfError, ElfFile};
use std::alloc::Global;

/// The addresses that the word names: a number, as `crate::number_in` reads it; the name of
/// symbols, or where no symbol has it of a section; or such a name, a plus sign and an offset from
/// what it names. Where neither a symbol nor a section has a name that ends with
/// `@plt`, it names the entries of the procedure linkage table that go to the symbols of the name
/// before that, as `objdump -d` prints them. Where none has any other name with an `@`, what stands
/// before the first one is the name of symbols: so `nm -D` prints a symbol with its version. No
/// version is compared. The addresses of symbols are in the order of the symbols, each once, those
/// of entries as `ElfFile::plt_addresses` has them.
///
/// There are none where nothing has the name, what is after the plus sign is no number, or no sum
/// is below 2^64. The first plus sign ends the name.
///
/// Fails as `ElfFile::symbol_addresses` and `ElfFile::section_address`, unless the word is a
/// number, and as `ElfFile::plt_addresses` where it names entries; with `OutOfMemory`. Allocates
/// the list.
pub fn target_addresses(alloc: Global, file: &ElfFile<'_>, word: &str) -> Result<Vec<u64>, ElfError>
    ensures ok { IfOk result (λ found. target_addresses (file_view file.now) word.now
        ≡ Ok found.items) }
    ensures err { IfErr result (λ e.
        IsOrNoMemory (target_addresses (file_view file.now) word.now) e) }
{
    match number_in(word) {
        Some(address) => alone(alloc, address),
        None => addresses_by_name(alloc, file, word),
    }
}

/// Returns whether the word names entries of the procedure linkage table, or an offset from these:
/// whether its name ends with `@plt`. Does not allocate.
pub fn names_entry(word: &str) -> bool
    ensures { result ≡ names_entry word.now }
{
    match word.split_once('+') {
        Some((name, _)) => ends_with_plt(name),
        None => ends_with_plt(word),
    }
}

/// Whether the name ends with `@plt`.
fn ends_with_plt(name: &str) -> bool
    ensures { result ≡ ends_with_plt name.now }
{
    before_plt(name).is_some()
}

/// What stands before `@plt` at the end of a name.
fn before_plt(name: &str) -> Option<&[u8]>
    ensures { option_map (λ found. found.now) result ≡ before_plt name.now }
{
    name.as_bytes().strip_suffix(b"@plt")
}

/// The list of an address. Fails with `OutOfMemory`.
fn alone(alloc: Global, address: u64) -> Result<Vec<u64>, ElfError>
    ensures ok { IfOk result (λ found. found.items ≡ address ∷ []) }
    ensures err { IfErr result (λ e. e ≡ OutOfMemory) }
{
    let mut addresses = Vec::new(alloc);
    match addresses.push(address) {
        Ok(()) => Ok(addresses),
        Err(_) => Err(ElfError::OutOfMemory),
    }
}

/// The addresses of what has a name, or at an offset from it.
fn addresses_by_name(alloc: Global, file: &ElfFile<'_>, word: &str) -> Result<Vec<u64>, ElfError>
    ensures ok { IfOk result (λ found. addresses_by_name (file_view file.now) word.now
        ≡ Ok found.items) }
    ensures err { IfErr result (λ e.
        IsOrNoMemory (addresses_by_name (file_view file.now) word.now) e) }
{
    match word.split_once('+') {
        Some((name, digits)) => offset_from_name(alloc, file, name, number_in(digits)),
        None => addresses_named(alloc, file, word),
    }
}

/// The addresses at an offset from what has this name.
#[tactic(auto, unfolding(crate::specs::Targets::offset_from_name))]
fn offset_from_name(
    alloc: Global,
    file: &ElfFile<'_>,
    name: &str,
    offset: Option<u64>,
) -> Result<Vec<u64>, ElfError>
    ensures ok { IfOk result (λ found. offset_from_name (file_view file.now) name.now offset
        ≡ Ok found.items) }
    ensures err { IfErr result (λ e.
        IsOrNoMemory (offset_from_name (file_view file.now) name.now offset) e) }
{
    let addresses = addresses_named(alloc, file, name)?;
    offset_if_number(alloc, offset, addresses.as_slice())
}

/// These addresses with an offset; none where it is no number. Fails with
/// `OutOfMemory`.
fn offset_if_number(
    alloc: Global,
    offset: Option<u64>,
    addresses: &[u64],
) -> Result<Vec<u64>, ElfError>
    ensures ok { IfOk result (λ found. found.items ≡ offset_if_number offset addresses.now) }
    ensures err { IfErr result (λ e. e ≡ OutOfMemory) }
{
    match offset {
        Some(offset) => each_offset(alloc, offset, addresses),
        None => Ok(Vec::new(alloc)),
    }
}

/// Each of these addresses with an offset, where that is below 2^64. Fails with `OutOfMemory`.
fn each_offset(alloc: Global, offset: u64, addresses: &[u64]) -> Result<Vec<u64>, ElfError>
    ensures ok { IfOk result (λ found. found.items ≡ each_offset offset addresses.now) }
    ensures err { IfErr result (λ e. e ≡ OutOfMemory) }
{
    let mut all = Vec::new(alloc);
    for address in addresses {
        if let Some(sum) = address.checked_add(offset) {
            if all.push(sum).is_err() {
                return Err(ElfError::OutOfMemory);
            }
        }
    }
    Ok(all)
}

/// The addresses of the symbols or the section of this name. Nothing is meant by the empty name,
/// which the symbols of sections have.
fn addresses_named(alloc: Global, file: &ElfFile<'_>, name: &str) -> Result<Vec<u64>, ElfError>
    ensures ok { IfOk result (λ found. addresses_named (file_view file.now) name.now
        ≡ Ok found.items) }
    ensures err { IfErr result (λ e.
        IsOrNoMemory (addresses_named (file_view file.now) name.now) e) }
{
    if name.is_empty() {
        return Ok(Vec::new(alloc));
    }
    with_version_or_not(alloc, file, name)
}

/// The addresses of the symbols or the section of this name, or else of what its ending says.
#[tactic(auto, unfolding(crate::specs::Targets::with_version_or_not))]
fn with_version_or_not(alloc: Global, file: &ElfFile<'_>, name: &str) -> Result<Vec<u64>, ElfError>
    ensures ok { IfOk result (λ found. with_version_or_not (file_view file.now) name.now
        ≡ Ok found.items) }
    ensures err { IfErr result (λ e.
        IsOrNoMemory (with_version_or_not (file_view file.now) name.now) e) }
{
    let found = symbols_or_section(alloc, file, name.as_bytes())?;
    if found.as_slice().is_empty() {
        by_ending(alloc, file, name)
    } else {
        Ok(found)
    }
}

/// The addresses of the entries of the procedure linkage table, or of the symbols without the
/// version.
fn by_ending(alloc: Global, file: &ElfFile<'_>, name: &str) -> Result<Vec<u64>, ElfError>
    ensures ok { IfOk result (λ found. by_ending (file_view file.now) name.now
        (before_plt name.now) ≡ Ok found.items) }
    ensures err { IfErr result (λ e.
        IsOrNoMemory (by_ending (file_view file.now) name.now (before_plt name.now)) e) }
{
    match before_plt(name) {
        Some(symbol) => entries_named(alloc, file, symbol),
        None => without_version(alloc, file, name),
    }
}

/// The addresses of the entries that go to the symbols of this name, unless it is empty.
fn entries_named(alloc: Global, file: &ElfFile<'_>, name: &[u8]) -> Result<Vec<u64>, ElfError>
    ensures ok { IfOk result (λ found. entries_named (file_view file.now) name.now
        ≡ Ok found.items) }
    ensures err { IfErr result (λ e.
        IsOrNoMemory (entries_named (file_view file.now) name.now) e) }
{
    if name.is_empty() {
        return Ok(Vec::new(alloc));
    }
    file.plt_addresses(alloc, name)
}

/// The addresses of the symbols whose name stands before the first `@`.
fn without_version(alloc: Global, file: &ElfFile<'_>, name: &str) -> Result<Vec<u64>, ElfError>
    ensures ok { IfOk result (λ found. without_version (file_view file.now) name.now
        ≡ Ok found.items) }
    ensures err { IfErr result (λ e.
        IsOrNoMemory (without_version (file_view file.now) name.now) e) }
{
    match name.split_once('@') {
        Some((symbol, _)) => symbols_named(alloc, file, symbol),
        None => Ok(Vec::new(alloc)),
    }
}

/// The addresses of the symbols of this name, unless it is empty.
fn symbols_named(alloc: Global, file: &ElfFile<'_>, name: &str) -> Result<Vec<u64>, ElfError>
    ensures ok { IfOk result (λ found. symbols_named (file_view file.now) name.now
        ≡ Ok found.items) }
    ensures err { IfErr result (λ e.
        IsOrNoMemory (symbols_named (file_view file.now) name.now) e) }
{
    if name.is_empty() {
        return Ok(Vec::new(alloc));
    }
    file.symbol_addresses(alloc, name.as_bytes())
}

/// The addresses of the symbols of this name, or else of the section.
#[tactic(auto, unfolding(crate::specs::Targets::symbols_or_section))]
fn symbols_or_section(alloc: Global, file: &ElfFile<'_>, name: &[u8]) -> Result<Vec<u64>, ElfError>
    ensures ok { IfOk result (λ found. symbols_or_section (file_view file.now) name.now
        ≡ Ok found.items) }
    ensures err { IfErr result (λ e.
        IsOrNoMemory (symbols_or_section (file_view file.now) name.now) e) }
{
    let found = file.symbol_addresses(alloc, name)?;
    if found.as_slice().is_empty() {
        section_addresses(alloc, file, name)
    } else {
        Ok(found)
    }
}

/// The address of the section of this name, alone in a list.
#[tactic(auto, unfolding(crate::specs::Targets::section_addresses))]
fn section_addresses(alloc: Global, file: &ElfFile<'_>, name: &[u8]) -> Result<Vec<u64>, ElfError>
    ensures ok { IfOk result (λ found. section_addresses (file_view file.now) name.now
        ≡ Ok found.items) }
    ensures err { IfErr result (λ e.
        IsOrNoMemory (section_addresses (file_view file.now) name.now) e) }
{
    match file.section_address(name)? {
        Some(address) => alone(alloc, address),
        None => Ok(Vec::new(alloc)),
    }
}
