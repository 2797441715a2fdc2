#![tactic(auto)]
//! The two call frame sections and their entries, up to common information entries.
//!
//! `debug_frame` and `eh_frame` have the sections, `in_section` a section with the bases of its
//! pointers. `prefix` reads what each entry begins with, `cie` and `augmentation` read CIEs, and
//! `fde_reads` the fields of FDEs.

pub mod augmentation;
pub mod cie;
pub mod debug_frame;
pub mod eh_frame;
pub mod fde_reads;
pub mod in_section;
pub mod prefix;
