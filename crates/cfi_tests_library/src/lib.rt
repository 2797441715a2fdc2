//! Tests of the library: readers, sums of addresses, and each call on sections, entries and
//! instructions once; rows over several storages, a section of the tests' own, and the header's
//! calls. The expected values are those of the standards, or were worked out by hand.
#![tactic(auto)]

#[cfg(test)]
mod changing_cies;
#[cfg(test)]
mod comparison;
#[cfg(test)]
mod derives;
#[cfg(test)]
mod entries;
#[cfg(test)]
mod header;
#[cfg(test)]
mod in_turn;
#[cfg(test)]
mod instructions;
#[cfg(test)]
mod offsets;
#[cfg(test)]
mod own_section;
#[cfg(test)]
mod readers;
#[cfg(test)]
mod reads;
#[cfg(test)]
mod refused_growth;
#[cfg(test)]
mod rows;
#[cfg(test)]
mod storages;
#[cfg(test)]
mod values;
