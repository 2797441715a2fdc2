//! Tests of compiled tables, of expressions, of the unwinder, of profiles, and of what is mapped in
//! processes; and runs of the programs of CALLING.md. The expected values are those of the
//! standard, of Linux or of `perf script`, or were worked out by hand. What a compiled table
//! returns for each address is proved: the tests are of its size, and of refused memory.
#![tactic(auto)]

#[cfg(test)]
mod comparison;
#[cfg(test)]
mod expressions;
#[cfg(test)]
mod frames;
#[cfg(test)]
mod functions;
#[cfg(test)]
mod mappings;
#[cfg(test)]
mod profiles;
#[cfg(test)]
mod programs;
#[cfg(test)]
mod tables;
