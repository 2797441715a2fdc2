//! Where in a core file the parts are that its stacks need.
use crate::core_heads::{CoreHeads, core_heads};
use crate::partial_cores::is_head;
use crate::stack_window::window_start;
use cfi_elf::{Image, ProgramHeader};
use cfi_text::reading::InputError;
use std::alloc::{AllocError, Global};

/// What lies between two offsets of a file.
#[derive(Clone, Copy, Debug)]
pub(crate) struct Range {
    pub(crate) start: u64,
    pub(crate) end: u64,
}

/// The parts that are to be read, by the headers and the notes; none where these weren't read.
pub(crate) fn ranges_of(alloc: Global, image: Image<'_>) -> Result<Vec<Range>, InputError> {
    match ranges_in(alloc, image) {
        Ok(ranges) => Ok(ranges),
        Err(_) => Err(InputError::OutOfMemory),
    }
}

/// The same. Fails where memory is refused.
fn ranges_in(alloc: Global, image: Image<'_>) -> Result<Vec<Range>, AllocError> {
    let mut ranges = Vec::new(alloc);
    if let Some(heads) = core_heads(alloc, image)? {
        push_heads(&mut ranges, image.length, &heads)?;
        push_stacks(alloc, &mut ranges, image.length, &heads)?;
    }
    Ok(ranges)
}

/// Appends the segments where the first byte of a file is mapped.
fn push_heads(
    ranges: &mut Vec<Range>,
    length: u64,
    heads: &CoreHeads<'_>,
) -> Result<(), AllocError> {
    let mapped = heads.mapped.as_slice();
    for place in heads.places.as_slice() {
        if is_head(mapped, place.p_vaddr) {
            ranges.push(Range {
                start: place.p_offset,
                end: end_of(length, place),
            })?;
        }
    }
    Ok(())
}

/// Where the bytes of a segment end in a file of this length.
pub(crate) fn end_of(length: u64, place: &ProgramHeader) -> u64 {
    place.p_offset.saturating_add(place.p_filesz).min(length)
}

/// Appends what lies from the stack pointer of each thread on in the segment of its stack. Of
/// several in one segment the lowest counts.
fn push_stacks(
    alloc: Global,
    ranges: &mut Vec<Range>,
    length: u64,
    heads: &CoreHeads<'_>,
) -> Result<(), AllocError> {
    let places = heads.places.as_slice();
    let pointers = stack_pointers(alloc, heads)?;
    let mut above = 0;
    for pointer in pointers.as_slice() {
        if *pointer >= above {
            let count = places.partition_point(|place| place.p_vaddr <= *pointer);
            if count > 0 && count <= places.len() {
                let place = &places[count - 1];
                above = place.p_vaddr.saturating_add(place.p_filesz);
                ranges.push(Range {
                    start: place.p_offset.saturating_add(window_start(place, *pointer)),
                    end: end_of(length, place),
                })?;
            }
        }
    }
    Ok(())
}

/// The stack pointers of the threads, the lowest first.
fn stack_pointers(alloc: Global, heads: &CoreHeads<'_>) -> Result<Vec<u64>, AllocError> {
    let number = heads.machine.abi().stack_pointer.0 as usize;
    let mut pointers = Vec::new(alloc);
    for thread in heads.threads.as_slice() {
        if let Some(pointer) = thread.register(heads.machine, number) {
            pointers.push(pointer)?;
        }
    }
    pointers.sort_by_key(|pointer| *pointer)?;
    Ok(pointers)
}
