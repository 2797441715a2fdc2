//! Numbers of ELF files, by the names of `elf.h` (System V ABI, chapters 4 and 5; the psABIs for
//! machines).

/// A relocatable file (`e_type`).
pub const ET_REL: u16 = 1;

/// A core file (`e_type`).
pub const ET_CORE: u16 = 4;

/// The version of the format (`EI_VERSION`, `e_version`).
pub const EV_CURRENT: u32 = 1;

/// SPARC (`e_machine`).
pub const EM_SPARC: u16 = 2;

/// Intel 80386 (`e_machine`).
pub const EM_386: u16 = 3;

/// Motorola 68000 (`e_machine`).
pub const EM_68K: u16 = 4;

/// MIPS (`e_machine`).
pub const EM_MIPS: u16 = 8;

/// SPARC v8+ (`e_machine`).
pub const EM_SPARC32PLUS: u16 = 18;

/// PowerPC of 64 bits (`e_machine`).
pub const EM_PPC64: u16 = 21;

/// IBM System/390 (`e_machine`).
pub const EM_S390: u16 = 22;

/// Arm of 32 bits (`e_machine`).
pub const EM_ARM: u16 = 40;

/// SPARC of 64 bits (`e_machine`).
pub const EM_SPARCV9: u16 = 43;

/// x86-64 (`e_machine`).
pub const EM_X86_64: u16 = 62;

/// AArch64 (`e_machine`).
pub const EM_AARCH64: u16 = 183;

/// RISC-V (`e_machine`).
pub const EM_RISCV: u16 = 243;

/// A segment that is loaded (`p_type`).
pub const PT_LOAD: u32 = 1;

/// A segment of notes (`p_type`).
pub const PT_NOTE: u32 = 4;

/// The segment of `.eh_frame_hdr` (`p_type`; LSB Core).
pub const PT_GNU_EH_FRAME: u32 = 0x6474_e550;

/// The segment can be executed (`p_flags`).
pub const PF_X: u32 = 1;

/// The number of program headers is in section 0 (`e_phnum`).
pub const PN_XNUM: u16 = 0xffff;

/// The identification of a file's build (`n_type` of the name `GNU`).
pub const NT_GNU_BUILD_ID: u32 = 3;

/// A section header that is of no section (`sh_type`).
pub const SHT_NULL: u32 = 0;

/// The symbol table (`sh_type`).
pub const SHT_SYMTAB: u32 = 2;

/// Relocations with addends (`sh_type`).
pub const SHT_RELA: u32 = 4;

/// A section that has no bytes in the file (`sh_type`).
pub const SHT_NOBITS: u32 = 8;

/// Relocations without addends (`sh_type`).
pub const SHT_REL: u32 = 9;

/// The symbol table for dynamic linking (`sh_type`).
pub const SHT_DYNSYM: u32 = 11;

/// No section (`st_shndx`, `sh_link`).
pub const SHN_UNDEF: u16 = 0;

/// The index of the section is elsewhere (`e_shstrndx`, `st_shndx`).
pub const SHN_XINDEX: u16 = 0xffff;

/// No symbol (the index in `r_info`).
pub const STN_UNDEF: u32 = 0;

/// A symbol that all files see (the binding in `st_info`).
pub const STB_GLOBAL: u8 = 1;

/// A symbol that all files see where no global one has its name (the binding in `st_info`).
pub const STB_WEAK: u8 = 2;

/// A symbol that is a function (the type in `st_info`).
pub const STT_FUNC: u8 = 2;

/// A symbol of a function that says which one is called for it (the type in `st_info`; `elf.h`).
pub const STT_GNU_IFUNC: u8 = 10;

/// A section that is in memory when the program runs (`sh_flags`).
pub const SHF_ALLOC: u64 = 2;

/// A section whose bytes are compressed (`sh_flags`).
pub const SHF_COMPRESSED: u64 = 0x800;

/// The address of a symbol (the type of a relocation of x86-64).
pub const R_X86_64_GLOB_DAT: u32 = 6;

/// The address of a symbol that is called (the type of a relocation of x86-64).
pub const R_X86_64_JUMP_SLOT: u32 = 7;

/// The address of a symbol (the type of a relocation of AArch64).
pub const R_AARCH64_GLOB_DAT: u32 = 1025;

/// The address of a symbol that is called (the type of a relocation of AArch64).
pub const R_AARCH64_JUMP_SLOT: u32 = 1026;
