//! Readers over a slice.
ghost use Rattle.std.specs.Prelude.{◌≡◌, ◌≤◌, ⊤, length, refl};

use crate::bytes::{u16_at, u32_at, u64_at};
use crate::endianity::Endianity;
use crate::error::{Error, ReaderOffsetId, Result};
use crate::offset::ReaderOffset;
use crate::reader::Reader;
use std::alloc::AllocError;
use std::marker::PhantomData;

/// A reader over a slice, with offsets of type `usize`.
pub type EndianSlice<'input, E> = SliceReader<'input, E, usize>;

/// A reader over a slice of less than 4 GiB, with offsets of type `u32`.
pub type NarrowSlice<'input, E> = SliceReader<'input, E, u32>;

/// A reader over a slice, with offsets of type `O`.
#[derive(Debug)]
pub struct SliceReader<'input, E, O: ReaderOffset> {
    whole: &'input [u8],
    first: usize,
    last: usize,
    endian: E,
    offset: PhantomData<O>,
    ghost ordered: { first ≤ last },
    ghost within: { last ≤ length whole.now },
    ghost fits: { length whole.now ≤ O.GREATEST },
}

impl<E: Copy, O: ReaderOffset> Clone for SliceReader<'_, E, O> {
    ghost is_clone = { λ x y. y ≡ x };

    ghost is_infallible = { λ _. ⊤ };

    #[inline(always)]
    fn clone(&self) -> std::result::Result<Self, AllocError> {
        Ok(SliceReader {
            whole: self.whole,
            first: self.first,
            last: self.last,
            endian: self.endian,
            offset: PhantomData,
        })
    }
}

impl<E: Copy, O: ReaderOffset> Copy for SliceReader<'_, E, O> {}

impl<'input, E: Endianity> EndianSlice<'input, E> {
    ghost use Rattle.cfi_read_core.specs.SliceReaders.{slice_over, slice_position};

    /// A reader over the whole slice.
    #[inline(always)]
    pub fn new(slice: &'input [u8], endian: E) -> Self
        ensures { slice_position E.big_endian result
            ≡ slice_over slice.now (E.big_endian endian) }
    {
        SliceReader {
            whole: slice,
            first: 0,
            last: slice.len(),
            endian,
            offset: PhantomData,
        }
    }
}

impl<'input, E: Endianity> NarrowSlice<'input, E> {
    ghost use Rattle.cfi_read_core.specs.ReaderCalls.{map_ok};
    ghost use Rattle.cfi_read_core.specs.SliceReaders.{narrow_over, slice_position};

    /// A reader over the whole slice. Returns `Error::UnsupportedOffset` if the slice has 4 GiB or
    /// more.
    #[inline(always)]
    pub fn new(slice: &'input [u8], endian: E) -> Result<Self>
        ensures made { map_ok (slice_position E.big_endian) result
            ≡ narrow_over slice.now (E.big_endian endian) }
    {
        if slice.len() > 4294967295 {
            return Err(Error::UnsupportedOffset);
        }
        Ok(SliceReader {
            whole: slice,
            first: 0,
            last: slice.len(),
            endian,
            offset: PhantomData,
        })
    }
}

impl<'input, E: Endianity, O: ReaderOffset> SliceReader<'input, E, O> {
    ghost use Rattle.std.specs.Prelude.{◌-◌};
    ghost use Rattle.cfi_read_core.specs.ReaderCalls.{bytes_left, remaining};
    ghost use Rattle.cfi_read_core.specs.SliceReaders.{slice_position};

    /// The bytes that are left.
    #[inline(always)]
    pub fn slice(&self) -> &'input [u8]
        ensures { result.now ≡ bytes_left (slice_position E.big_endian self.now) }
    {
        &self.whole[self.first..self.last]
    }

    /// The number of bytes that are left.
    #[inline(always)]
    fn count(&self) -> usize
        ensures { result ≡ remaining (slice_position E.big_endian self.now) }
    {
        self.last - self.first
    }
}

impl<E: Endianity, O: ReaderOffset> PartialEq for SliceReader<'_, E, O> {
    ghost use Rattle.std.specs.Ordering.{on};
    ghost use Rattle.std.specs.Cmp.{on_per};
    ghost use Rattle.cfi_read_core.specs.ReaderCalls.{same_reader, same_reader-per};
    ghost use Rattle.cfi_read_core.specs.SliceReaders.{slice_position};

    ghost eq = { on (slice_position E.big_endian) same_reader };

    ghost laws = { on_per (slice_position E.big_endian) same_reader-per };

    #[inline(always)]
    fn eq(&self, other: &Self) -> bool {
        self.slice() == other.slice() && self.endian.is_big_endian() == other.endian.is_big_endian()
    }
}

impl<E: Endianity, O: ReaderOffset> Eq for SliceReader<'_, E, O> {
    ghost use Rattle.std.specs.Cmp.{on_equiv};
    ghost use Rattle.cfi_read_core.specs.ReaderCalls.{same_reader-equiv};
    ghost use Rattle.cfi_read_core.specs.SliceReaders.{slice_position};

    ghost laws = { on_equiv (slice_position E.big_endian) same_reader-equiv };
}

impl<'input, E: Endianity, O: ReaderOffset> Reader for SliceReader<'input, E, O> {
    ghost use Rattle.cfi_read_core.specs.SliceReaders.{slice_position};

    type Offset = O;

    type Endian = E;

    ghost position = { slice_position E.big_endian };

    #[inline(always)]
    fn endian(&self) -> E {
        self.endian
    }

    #[inline(always)]
    fn len(&self) -> O {
        offset(self.count())
    }

    #[inline(always)]
    fn place(&self) -> O {
        offset(self.first)
    }

    #[inline(always)]
    fn find(&self, byte: u8) -> Result<O> {
        match self.slice().iter().position(|x| *x == byte) {
            Some(before) => Ok(offset(before)),
            None => Err(Error::UnexpectedEof(ReaderOffsetId(self.first as u64))),
        }
    }

    #[inline(always)]
    fn skip(&mut self, len: O) -> Result<()> {
        let len = len.into_u64() as usize;
        if self.count() < len {
            return Err(Error::UnexpectedEof(ReaderOffsetId(self.first as u64)));
        }
        self.first += len;
        Ok(())
    }

    #[inline(always)]
    fn split(&mut self, len: O) -> Result<Self> {
        let first = self.first;
        self.skip(len)?;
        Ok(SliceReader {
            whole: self.whole,
            first,
            last: self.first,
            endian: self.endian,
            offset: PhantomData,
        })
    }

    #[tactic(auto, unfolding(crate::specs::Numbers::unsigned))]
    #[inline(always)]
    fn read_u8(&mut self) -> Result<u8> {
        if self.first == self.last {
            return Err(Error::UnexpectedEof(ReaderOffsetId(self.first as u64)));
        }
        let value = self.whole[self.first];
        self.first += 1;
        Ok(value)
    }

    #[tactic(auto, unfolding(crate::specs::Numbers::unsigned))]
    #[inline(always)]
    fn read_u16(&mut self) -> Result<u16> {
        if self.count() < 2 {
            return Err(Error::UnexpectedEof(ReaderOffsetId(self.first as u64)));
        }
        let value = u16_at(self.whole, self.first, self.endian.is_big_endian());
        self.first += 2;
        Ok(value)
    }

    #[tactic(auto, unfolding(crate::specs::Numbers::unsigned))]
    #[inline(always)]
    fn read_u32(&mut self) -> Result<u32> {
        if self.count() < 4 {
            return Err(Error::UnexpectedEof(ReaderOffsetId(self.first as u64)));
        }
        let value = u32_at(self.whole, self.first, self.endian.is_big_endian());
        self.first += 4;
        Ok(value)
    }

    #[tactic(auto, unfolding(crate::specs::Numbers::unsigned))]
    #[inline(always)]
    fn read_u64(&mut self) -> Result<u64> {
        if self.count() < 8 {
            return Err(Error::UnexpectedEof(ReaderOffsetId(self.first as u64)));
        }
        let value = u64_at(self.whole, self.first, self.endian.is_big_endian());
        self.first += 8;
        Ok(value)
    }

    ghost sound = { λ r. record {
      ordered = r.ordered;
      within = r.within;
      fits = r.fits;
    } };

    ghost equal = { λ x y. refl };

    ghost greatest = { λ r. refl };
}

/// A number of the reader's bytes as an offset.
#[inline(always)]
fn offset<O: ReaderOffset>(number: usize) -> O
    requires { number ≤ O.GREATEST }
    ensures { O.number result ≡ number }
{
    match O::from_u64(number as u64) {
        Ok(offset) => offset,
        Err(_) => unreachable!(),
    }
}
