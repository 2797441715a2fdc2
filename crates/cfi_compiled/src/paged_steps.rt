//! Steps of three bytes each.
ghost use Rattle.std.specs.Prelude.{◌≡◌, ◌≤◌, ◌<◌, ◌+◌, ◌/◌, ◌^◌, ◌∷◌, ◌++◌, [], length};
ghost use Rattle.std.specs.Prelude.{IfErr, IfOk, IfSome, IsTrue, OnOk};
ghost use Rattle.cfi_compiled.specs.CompiledTables.{EndsWith};
ghost use Rattle.cfi_compiled.specs.PagedSteps.{IsSplitIn, Rising, begin_of, step_number};
ghost use Rattle.cfi_compiled.specs.PagedSteps.{step_offset, pages_passed};
ghost use Rattle.cfi_compiled.specs.SearchedSteps.{IsNumberAt, IsSplit, IsStepAt, StartsAscend};

use crate::step_list::NumberedStep;
use crate::steps::NoMemory;
use std::alloc::Global;
use std::marker::Model;

/// How many addresses a page has: as many as an offset of 9 bits tells apart.
const PAGE: u64 = 512;

/// How many numbers 15 bits tell apart.
const NUMBERS: usize = 32768;

/// How many steps are counted beyond those there are, when pages are compared with steps while a
/// table is made: the first steps may lie far apart.
const SPARE_STEPS: u64 = 16;

/// A step, in three bytes: its distance from the beginning of its page in the lower 9 bits, and its
/// number in the others.
#[derive(Clone, Copy, Debug)]
struct PagedStep {
    low: u8,
    middle: u8,
    high: u8,
}

impl PagedStep {
    /// The step with this offset and this number.
    fn of(offset: u64, number: usize) -> PagedStep
        requires offset { offset < 512 }
        requires number { number < 32768 }
        ensures offset { step_offset result ≡ offset }
        ensures number { step_number result ≡ number }
    {
        PagedStep {
            low: (offset % 256) as u8,
            middle: (offset / 256) as u8 + 2 * (number % 128) as u8,
            high: (number / 128) as u8,
        }
    }

    /// The distance from the beginning of the page.
    #[inline(always)]
    fn offset(self) -> u16
        ensures { result ≡ step_offset self }
    {
        u16::from(self.low) + 256 * u16::from(self.middle % 2)
    }

    /// The number.
    #[inline(always)]
    fn number(self) -> usize
        ensures { result ≡ step_number self }
    {
        usize::from(self.middle / 2) + 128 * usize::from(self.high)
    }
}

/// Steps by pages of 512 addresses, from the page `first` on.
///
/// The first step is at address 0, and only its number is kept, as `lead`. For each page but the
/// last `ends` has the number of steps up to its end, without the first step.
#[derive(Debug, Drop)]
pub(crate) struct PagedSteps {
    lead: usize,
    first: u64,
    ends: Vec<u32>,
    steps: Vec<PagedStep>,
}

impl Model for PagedSteps {
    ghost use Rattle.cfi_compiled.specs.PagedSteps.{IsPaged, PagedView, view_of};

    ghost Value = { PagedView };

    ghost view = { λ s. view_of s.lead s.first s.ends.items s.steps.items };

    ghost invariant = { λ s. IsPaged s.first s.ends.items s.steps.items };
}

impl PagedSteps {
    /// These steps in pages; `None` if they don't begin at 0, if a number has more than 15 bits, or
    /// if there are three times as many pages as steps.
    pub(crate) fn of(alloc: Global, steps: &[NumberedStep]) -> Result<Option<Self>, NoMemory>
        requires { StartsAscend 0 steps.now }
        ensures { IfOk result (λ paged. IfSome paged (λ paged. paged.steps ≡ steps.now)) }
    {
        if steps.len() < 2 || steps.len() > u32::MAX as usize || steps[0].start != 0 {
            return Ok(None);
        }
        let first = steps[1].start / PAGE;
        let pages = steps[steps.len() - 1].start / PAGE - first;
        if pages / 3 >= steps.len() as u64 {
            return Ok(None);
        }
        let lead = steps[0].number;
        let mut paged = PagedSteps::new(alloc, lead, first, pages as usize, steps.len() - 1)?;
        for index in 1..steps.len() {
            let step = steps[index];
            if step.number >= NUMBERS {
                return Ok(None);
            }
            paged.push(step.start, step.number)?;
        }
        Ok(Some(paged))
    }

    /// The first step alone, with room for as many pages more and as many steps.
    fn new(
        alloc: Global,
        lead: usize,
        first: u64,
        pages: usize,
        steps: usize,
    ) -> Result<Self, NoMemory>
        requires { first < 2 ^ 55 }
        ensures { IfOk result (λ paged. paged ≡ record {
          page = first;
          steps = record { start = 0; number = lead } ∷ [];
        }) }
    {
        Ok(PagedSteps {
            lead,
            first,
            ends: Vec::with_capacity(alloc, pages)?,
            steps: Vec::with_capacity(alloc, steps)?,
        })
    }

    /// Whether one more step may be pushed: its number has at most 15 bits, its page is that of the
    /// last step or a later one, and there are not many more than three pages a step then.
    #[inline(always)]
    pub(crate) fn takes(&self, start: u64, number: usize) -> bool
        ensures page { IsTrue result → self.now.page ≤ start / 512 }
        ensures room { IsTrue result → length self.now.steps < 2 ^ 32 }
        ensures number { IsTrue result → number < 32768 }
    {
        let count = self.steps.len();
        if number >= NUMBERS || count >= u32::MAX as usize {
            return false;
        }
        let page = start / PAGE;
        if page < self.first + self.ends.len() as u64 {
            return false;
        }
        (page - self.first) / 3 <= count as u64 + SPARE_STEPS
    }

    /// One more step, in the page of the last one or a later one.
    #[inline(always)]
    pub(crate) fn push(&mut self, start: u64, number: usize) -> Result<(), NoMemory>
        requires page { self.old.page ≤ start / 512 }
        requires room { length self.old.steps < 2 ^ 32 }
        requires number { number < 32768 }
        ensures page { OnOk result (self.new.page ≡ start / 512) }
        ensures steps { OnOk result (self.new.steps
            ≡ self.old.steps ++ record { start = start; number = number } ∷ []) }
        ensures kept { IfErr result (λ _. self.new.steps ≡ self.old.steps) }
    {
        let pages = start / PAGE - self.first;
        let count = self.steps.len() as u32;
        while (self.ends.len() as u64) < pages {
            self.ends.push(count)?;
        }
        self.steps.push(PagedStep::of(start % PAGE, number))?;
        Ok(())
    }

    /// Whether the last step has this number.
    #[inline(always)]
    pub(crate) fn ends_with(&self, number: usize) -> bool
        ensures { IsTrue result → EndsWith number self.now.steps }
    {
        let count = self.steps.len();
        if count == 0 {
            return self.lead == number;
        }
        let last = self.steps[count - 1];
        last.number() == number
    }

    /// The steps in a list.
    pub(crate) fn to_list(&self, alloc: Global) -> Result<Vec<NumberedStep>, NoMemory>
        ensures { IfOk result (λ list. list.items ≡ self.now.steps) }
    {
        let mut list = Vec::new(alloc);
        while let Some(step) = self.get(list.len()) {
            list.push(step)?;
        }
        Ok(list)
    }

    /// Frees what the lists have in reserve.
    pub(crate) fn shrink(&mut self)
        ensures { self.new ≡ self.old }
    {
        self.ends.shrink_to_fit();
        self.steps.shrink_to_fit();
    }

    /// The number of the last step at or below an address.
    #[inline(always)]
    pub(crate) fn number_at(&self, address: u64) -> usize
        ensures { IsNumberAt self.now.steps address (Some result) }
    {
        let count = self.count_to(address);
        if count == 0 {
            return self.lead;
        }
        self.steps[count - 1].number()
    }

    /// How many steps after the first one are at or below an address. Only those of the address's
    /// page are looked at.
    #[inline(always)]
    fn count_to(&self, address: u64) -> usize
        ensures { IsSplit self.now.steps address (result + 1) }
    {
        let page = address / PAGE;
        if page < self.first {
            return 0;
        }
        let ends = self.ends.as_slice();
        let begin = begin_of(ends, self.steps.len(), page - self.first);
        let end = begin_of(ends, self.steps.len(), page - self.first + 1);
        let offset = (address % PAGE) as u16;
        count_up_to(self.steps.as_slice(), begin, end, offset)
    }

    /// How many steps there are.
    pub(crate) fn len(&self) -> usize
        ensures { result ≡ length self.now.steps }
    {
        self.steps.len() + 1
    }

    /// The step with an index.
    pub(crate) fn get(&self, index: usize) -> Option<NumberedStep>
        ensures step { IsStepAt self.now.steps index result }
        ensures room { IfSome result (λ _. index + 1 < 2 ^ 64) }
    {
        if index == 0 {
            let number = self.lead;
            return Some(NumberedStep { start: 0, number });
        }
        if index > self.steps.len() {
            return None;
        }
        let step = self.steps[index - 1];
        let page = self.first + pages_passed(self.ends.as_slice(), index - 1) as u64;
        Some(NumberedStep {
            start: page * PAGE + u64::from(step.offset()),
            number: step.number(),
        })
    }
}

/// The index of the first step of a page: where the page before it ends.
#[inline(always)]
fn begin_of(ends: &[u32], count: usize, page: u64) -> usize
    ensures { result ≡ begin_of ends.now count page }
{
    if page == 0 {
        return 0;
    }
    if page > ends.len() as u64 {
        return count;
    }
    ends[(page - 1) as usize] as usize
}

/// The index behind the last of the steps from `begin` up to `end` whose offset is at or below this
/// one.
#[inline(always)]
fn count_up_to(steps: &[PagedStep], begin: usize, end: usize, offset: u16) -> usize
    requires order { begin ≤ end }
    requires inside { end ≤ length steps.now }
    ensures { IsSplitIn steps.now begin end offset result }
{
    let mut low = begin;
    let mut high = end;
    while low < high {
        let middle = low + (high - low) / 2;
        if steps[middle].offset() <= offset {
            low = middle + 1;
        } else {
            high = middle;
        }
    }
    low
}

/// How many pages end at or before the step with an index.
fn pages_passed(ends: &[u32], index: usize) -> usize
    requires { Rising ends.now }
    ensures { result ≡ pages_passed ends.now index }
{
    let mut low = 0;
    let mut high = ends.len();
    while low < high {
        let middle = low + (high - low) / 2;
        if ends[middle] as usize <= index {
            low = middle + 1;
        } else {
            high = middle;
        }
    }
    low
}
