//! The steps of a table: in pages where they fit in these, else one by one.
ghost use Rattle.std.specs.Prelude.{◌≡◌, ◌<◌, ◌+◌, ◌^◌, length, IfOk, IfSome, IsTrue};
ghost use Rattle.cfi_compiled.specs.CompiledTables.{EndsWith};
ghost use Rattle.cfi_compiled.specs.SearchedSteps.{IsNumberAt, IsSplit, IsStepAt, StartsAscend};

use crate::paged_steps::PagedSteps;
use crate::steps::NoMemory;
use std::alloc::Global;

/// From an address on, up to the next step, the result has this number.
#[derive(Clone, Copy, Debug)]
pub(crate) struct NumberedStep {
    pub(crate) start: u64,
    pub(crate) number: usize,
}

/// Steps in the order of their addresses.
#[derive(Debug, Drop)]
pub(crate) enum StepList {
    Wide(Vec<NumberedStep>),
    Paged(PagedSteps),
}

impl StepList {
    ghost use Rattle.std.specs.Prelude.{◌≡◌, ◌<◌, ◌+◌, ◌^◌, ◌∷◌, ◌++◌, [], length};
    ghost use Rattle.std.specs.Prelude.{IfOk, IfSome, IsTrue, OnOk};
    ghost use Rattle.cfi_compiled.specs.CompiledTables.{EndsWith, IsAdded};
    ghost use Rattle.cfi_compiled.specs.SearchedSteps.{IsNumberAt, IsStepAt, StartsAscend};
    ghost use Rattle.cfi_compiled.specs.StepLists.{numbered_steps};

    /// No step yet.
    pub(crate) fn new(alloc: Global) -> StepList
        ensures { numbered_steps result ≡ [] }
    {
        StepList::Wide(Vec::new(alloc))
    }

    /// Whether the last step has this number.
    #[inline(always)]
    pub(crate) fn ends_with(&self, number: usize) -> bool
        ensures { IsTrue result → EndsWith number (numbered_steps self.now) }
    {
        match self {
            StepList::Wide(steps) => ends_with(steps.as_slice(), number),
            StepList::Paged(paged) => paged.ends_with(number),
        }
    }

    /// One more step, above the others. Steps are put in pages as soon as there are two, and one by
    /// one from the first on that doesn't fit in these.
    #[inline(always)]
    pub(crate) fn push(&mut self, alloc: Global, step: NumberedStep) -> Result<(), NoMemory>
        requires { StartsAscend 0 (numbered_steps self.old ++ step ∷ []) }
        ensures pushed { OnOk result
            (numbered_steps self.new ≡ numbered_steps self.old ++ step ∷ []) }
        ensures added { IsAdded step (numbered_steps self.old) (numbered_steps self.new) }
    {
        if let StepList::Paged(paged) = self {
            if paged.takes(step.start, step.number) {
                return paged.push(step.start, step.number);
            }
        }
        self.push_apart(alloc, step)
    }

    /// One more step, which doesn't fit in the pages, or where there are none yet.
    fn push_apart(&mut self, alloc: Global, step: NumberedStep) -> Result<(), NoMemory>
        requires { StartsAscend 0 (numbered_steps self.old ++ step ∷ []) }
        ensures pushed { OnOk result
            (numbered_steps self.new ≡ numbered_steps self.old ++ step ∷ []) }
        ensures added { IsAdded step (numbered_steps self.old) (numbered_steps self.new) }
    {
        match self {
            StepList::Paged(paged) => {
                let mut steps = paged.to_list(alloc)?;
                steps.push(step)?;
                *self = StepList::Wide(steps);
            }
            StepList::Wide(steps) => {
                steps.push(step)?;
                if steps.len() == 2 {
                    if let Some(paged) = PagedSteps::of(alloc, steps.as_slice())? {
                        *self = StepList::Paged(paged);
                    }
                }
            }
        }
        Ok(())
    }

    /// The steps in as little memory as they need: in pages if all fit.
    pub(crate) fn finish(self, alloc: Global) -> Result<StepList, NoMemory>
        requires { StartsAscend 0 (numbered_steps self) }
        ensures { IfOk result (λ list. numbered_steps list ≡ numbered_steps self) }
    {
        match self {
            StepList::Wide(steps) => StepList::of(alloc, steps),
            StepList::Paged(mut paged) => {
                paged.shrink();
                Ok(StepList::Paged(paged))
            }
        }
    }

    /// These steps, in pages if they fit.
    fn of(alloc: Global, steps: Vec<NumberedStep>) -> Result<StepList, NoMemory>
        requires { StartsAscend 0 steps.items }
        ensures { IfOk result (λ list. numbered_steps list ≡ steps.items) }
    {
        match PagedSteps::of(alloc, steps.as_slice())? {
            Some(paged) => Ok(StepList::Paged(paged)),
            None => Ok(StepList::Wide(steps)),
        }
    }

    /// The number of the last step at or below an address, if there is one.
    #[inline(always)]
    pub(crate) fn number_at(&self, address: u64) -> Option<usize>
        ensures { IsNumberAt (numbered_steps self.now) address result }
    {
        match self {
            StepList::Wide(steps) => number_in(steps.as_slice(), address),
            StepList::Paged(paged) => Some(paged.number_at(address)),
        }
    }

    /// How many steps there are.
    pub(crate) fn len(&self) -> usize
        ensures { result ≡ length (numbered_steps self.now) }
    {
        match self {
            StepList::Wide(steps) => steps.len(),
            StepList::Paged(paged) => paged.len(),
        }
    }

    /// The step with an index.
    pub(crate) fn get(&self, index: usize) -> Option<NumberedStep>
        ensures step { IsStepAt (numbered_steps self.now) index result }
        ensures room { IfSome result (λ _. index + 1 < 2 ^ 64) }
    {
        match self {
            StepList::Wide(steps) => step_at(steps.as_slice(), index),
            StepList::Paged(paged) => paged.get(index),
        }
    }
}

/// Whether the last step has this number.
#[inline(always)]
fn ends_with(steps: &[NumberedStep], number: usize) -> bool
    ensures { IsTrue result → EndsWith number steps.now }
{
    if steps.is_empty() {
        return false;
    }
    let last = steps[steps.len() - 1];
    last.number == number
}

/// Returns the step with an index, if there is one.
fn step_at(steps: &[NumberedStep], index: usize) -> Option<NumberedStep>
    ensures step { IsStepAt steps.now index result }
    ensures room { IfSome result (λ _. index + 1 < 2 ^ 64) }
{
    if index < steps.len() {
        Some(steps[index])
    } else {
        None
    }
}

/// Finds the last step at or below an address by halving.
fn number_in(steps: &[NumberedStep], address: u64) -> Option<usize>
    ensures { IsNumberAt steps.now address result }
{
    let count = count_to(steps, address);
    if count == 0 {
        return None;
    }
    Some(steps[count - 1].number)
}

/// How many steps are at or below an address.
fn count_to(steps: &[NumberedStep], address: u64) -> usize
    ensures { IsSplit steps.now address result }
{
    let mut low = 0;
    let mut high = steps.len();
    while low < high {
        let middle = low + (high - low) / 2;
        if steps[middle].start <= address {
            low = middle + 1;
        } else {
            high = middle;
        }
    }
    low
}
