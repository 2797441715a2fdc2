//! The auxiliary vector: pairs of a type and a value that the kernel gives each process.
ghost use Rattle.std.specs.Prelude.{◌≡◌};
ghost use Rattle.cfi_elf.specs.Fields.{entries};
ghost use Rattle.cfi_cores.specs.AuxiliaryVectors.{value_in};

use cfi_elf::bytes::{Record, entry};

const AT_NULL: u64 = 0;

/// The bytes of a pair.
const PAIR_SIZE: u64 = 16;

/// The value of the first pair of this type before the one that ends the vector.
pub(crate) fn value_in(vector: &[u8], kind: u64) -> Option<u64>
    ensures { result ≡ value_in kind (entries 16 vector.now) }
{
    for index in 0..vector.len() {
        let Some(bytes) = entry(vector, PAIR_SIZE, index) else {
            return None;
        };
        let fields = Record {
            bytes,
            big_endian: false,
        };
        let found = fields.xword(0);
        if found == AT_NULL {
            return None;
        }
        if found == kind {
            return Some(fields.xword(8));
        }
    }
    None
}
