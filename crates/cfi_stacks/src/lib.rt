//! The stacks of a profile that `perf record` wrote: handed to a visitor, or printed.
//!
//! `visits` hands the stack of each sample that is chosen (`choice`) to a `visitor`, by what stands
//! around the profile's records (`around`), where these are (`profile_index`) and the files that
//! they name. `sample_visits` follows the records (`turns`). `sample_stack` is the stack of a
//! sample as a value, by what was known when it was taken (`taken_sample`) and what `sample_walk`
//! finds.
//!
//! `run` prints stacks as a `Listing` says. `sample_stacks` prints them one after another, and
//! `folding` counts them by their folded stacks, whose text `folded_text` makes. `sample_text` and
//! `sample_object` put a stack into a text, `sample_head` or `sample_members` what comes before the
//! frames, and `profile_errors` why there are no more.
#![tactic(auto)]

mod around;
pub mod choice;
mod folded_text;
pub mod folding;
pub mod listing;
mod profile_errors;
pub mod profile_index;
pub mod run;
mod sample_head;
mod sample_members;
mod sample_object;
pub mod sample_stack;
mod sample_stacks;
mod sample_text;
mod sample_visits;
mod sample_walk;
pub mod taken_sample;
mod turns;
pub mod visitor;
pub mod visits;

pub use choice::Choice;
pub use listing::Listing;
pub use run::list_profile;
pub use sample_stack::SampleStack;
pub use visitor::{VisitError, Visitor};
pub use visits::visit_profile;
