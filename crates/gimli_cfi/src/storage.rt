//! Lists with a limit, and the storages of unwind contexts.

pub use cfi_read_core::StoreOnHeap;
pub use cfi_state::storage::{
    ArrayLike, CapacityFull, CopyList, Refused, StoreGrowing, UnwindContextStorage, Why,
};
