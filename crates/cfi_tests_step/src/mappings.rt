//! What is mapped in processes. The expected rows are those of Linux: the lines of `/proc/PID/maps`
//! after the same calls of mmap(2) with `MAP_FIXED`, and of fork(2).
use crate::comparison::expect;
use cfi_mapped::{MappedCode, Processes};
use std::alloc::{AllocError, Global};
use std::test::Fail;

/// The first address, the first one after it, the place in the file, and the file.
type Row = (u64, u64, u64, Option<usize>);

/// What is mapped before another process is made: inside the first one, over its end, over two of
/// no file, over the beginning of the first one, and apart from all.
const BEFORE: [Row; 6] = [
    (0x1000_1000, 0x1000_9000, 0, Some(0)),
    (0x1000_3000, 0x1000_5000, 0x1_0000, Some(1)),
    (0x1000_8000, 0x1000_c000, 0x4000, Some(2)),
    (0x1000_4000, 0x1000_6000, 0, None),
    (0x1000_1000, 0x1000_2000, 0x7000, Some(1)),
    (0x1000_f000, 0x1001_0000, 0, Some(0)),
];

/// What is mapped afterwards: over several, and below all.
const AFTERWARDS: [Row; 2] = [
    (0x1000_2000, 0x1000_a000, 0x9000, Some(1)),
    (0x1000_0000, 0x1000_1000, 0, Some(2)),
];

const IN_THE_CHILD: [Row; 7] = [
    (0x1000_1000, 0x1000_2000, 0x7000, Some(1)),
    (0x1000_2000, 0x1000_3000, 0x1000, Some(0)),
    (0x1000_3000, 0x1000_4000, 0x1_0000, Some(1)),
    (0x1000_4000, 0x1000_6000, 0, None),
    (0x1000_6000, 0x1000_8000, 0x5000, Some(0)),
    (0x1000_8000, 0x1000_c000, 0x4000, Some(2)),
    (0x1000_f000, 0x1001_0000, 0, Some(0)),
];

const IN_THE_PARENT: [Row; 5] = [
    (0x1000_0000, 0x1000_1000, 0, Some(2)),
    (0x1000_1000, 0x1000_2000, 0x7000, Some(1)),
    (0x1000_2000, 0x1000_a000, 0x9000, Some(1)),
    (0x1000_a000, 0x1000_c000, 0x6000, Some(2)),
    (0x1000_f000, 0x1001_0000, 0, Some(0)),
];

/// Process 10 makes 11, and 11 makes 12 and runs another program.
fn changed(alloc: Global) -> Result<Processes, AllocError> {
    let mut processes = Processes::new(alloc);
    map_all(&mut processes, &BEFORE)?;
    processes.fork(11, 10)?;
    map_all(&mut processes, &AFTERWARDS)?;
    processes.fork(10, 10)?;
    processes.fork(12, 11)?;
    processes.exec(11);
    Ok(processes)
}

fn map_all(processes: &mut Processes, rows: &[Row]) -> Result<(), AllocError> {
    for (start, end, offset, object) in rows {
        let mapped = MappedCode {
            start: *start,
            end: *end,
            offset: *offset,
            object: *object,
        };
        processes.map(10, mapped)?;
    }
    Ok(())
}

fn are_rows(mappings: &[MappedCode], rows: &[Row]) -> bool {
    if mappings.len() != rows.len() {
        return false;
    }
    for (mapped, row) in mappings.iter().zip(rows) {
        if (mapped.start, mapped.end, mapped.offset, mapped.object) != *row {
            return false;
        }
    }
    true
}

#[test]
fn as_linux_maps(rt: HostRuntime) -> Result<(), Fail> {
    let processes = changed(rt.alloc())?;
    let found = [
        are_rows(processes.mappings(10), &IN_THE_PARENT),
        are_rows(processes.mappings(11), &[]),
        are_rows(processes.mappings(12), &IN_THE_CHILD),
        are_rows(processes.mappings(13), &[]),
    ];
    expect(&rt, "processes", &found, &[true; 4]);
    Ok(())
}
