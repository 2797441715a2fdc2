//! Tests of what the programs print, over memory, where stored runs can't say it: failing input
//! and output, cut files, files that are read by parts; the longest lines, and what errors say.
//! Tests of ELF files.
#![tactic(auto)]

#[cfg(test)]
mod comparison;
#[cfg(test)]
mod elf;
#[cfg(test)]
mod errors;
#[cfg(test)]
mod rows;
