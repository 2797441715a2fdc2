#![tactic(auto)]
//! ELF files: the sections, segments and symbols that call frames need of a program, a library, a
//! relocatable or a core file (System V ABI, chapter 4 "Object Files" and chapter 5 "Program
//! Loading and Dynamic Linking").
//!
//! `image` is a file that may be read by parts. `elf_file` reads the file header, `sections` finds
//! sections by name, `segments` what is loaded at an address, `notes` reads notes, `build_id` and
//! `debug_link` what leads to a debug file, `symbol_addresses` finds addresses by name, `functions`
//! functions by address, `plt` entries of the procedure linkage table, `relocate` gives a
//! relocatable file addresses. `checksum` has the CRC-32 of bytes. Nothing is copied, and only
//! lists of functions and addresses are allocated.

mod address_list;
mod best_name;
mod build_id;
pub mod bytes;
pub mod checksum;
mod class_fields;
pub mod constants;
pub mod debug_link;
pub mod elf_file;
pub mod error;
pub mod file_header;
mod function_entry;
mod function_names;
mod function_place;
mod functions;
mod got_entries;
pub mod image;
pub mod notes;
mod placement;
mod plt;
mod plt_jump;
mod plt_sections;
pub mod program_header;
mod relocate;
mod relocated_field;
mod relocation;
mod relocation_kind;
mod section_contents;
mod section_header;
mod section_table;
mod sections;
mod segment_list;
mod segments;
mod string_table;
mod symbol;
mod symbol_addresses;
mod symbol_table;

pub use checksum::crc32;
pub use debug_link::DebugLink;
pub use elf_file::ElfFile;
pub use error::ElfError;
pub use file_header::{Class, FileHeader};
pub use function_names::FunctionNames;
pub use function_place::FunctionPlace;
pub use functions::Function;
pub use image::{FilePart, Image};
pub use notes::{Note, Notes};
pub use program_header::ProgramHeader;
pub use sections::Section;
pub use segment_list::Segments;
