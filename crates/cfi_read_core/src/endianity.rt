//! Byte orders.
ghost use Rattle.std.specs.Prelude.{◌≡◌, Bool, true, false};
ghost use Rattle.cfi_read_core.specs.ByteOrder.{is_big};

use std::fmt::Debug;

/// The order of the bytes of a number.
pub trait Endianity: Copy + Debug + Eq {
    /// Whether the most significant byte comes first.
    ghost big_endian: { Self → Bool };

    /// Whether the most significant byte comes first.
    fn is_big_endian(self) -> bool
        ensures { result ≡ big_endian self };
}

/// The least significant byte comes first.
#[derive(Clone, Copy, Debug, PartialEq, Eq)]
pub struct LittleEndian;

/// The most significant byte comes first.
#[derive(Clone, Copy, Debug, PartialEq, Eq)]
pub struct BigEndian;

/// A byte order that is chosen at run time.
#[derive(Clone, Copy, Debug, PartialEq, Eq)]
pub enum RunTimeEndian {
    /// The least significant byte comes first.
    Little,
    /// The most significant byte comes first.
    Big,
}

impl Endianity for LittleEndian {
    ghost big_endian = { λ _. false };

    #[inline(always)]
    fn is_big_endian(self) -> bool {
        false
    }
}

impl Endianity for BigEndian {
    ghost big_endian = { λ _. true };

    #[inline(always)]
    fn is_big_endian(self) -> bool {
        true
    }
}

impl Endianity for RunTimeEndian {
    ghost big_endian = { is_big };

    #[inline(always)]
    fn is_big_endian(self) -> bool {
        match self {
            RunTimeEndian::Little => false,
            RunTimeEndian::Big => true,
        }
    }
}
