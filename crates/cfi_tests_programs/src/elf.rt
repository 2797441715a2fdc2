//! Tests of ELF files: what is found in four small files, each error, and files that are cut at
//! every length; what is printed of a fifth, and what is read of it. The expected values are
//! readelf's.

mod bytes;
mod errors;
mod found;
mod parts;
mod printed;
