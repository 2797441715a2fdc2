//! Tests of the header's calls, and of how often a call asks for CIEs and reads starts. The
//! expected values were worked out by hand.

pub(crate) mod asked;
mod counted;
mod long;
mod passed;
mod searches;
mod with_context;
