//! Samples, field by field (perf_event_open(2), `PERF_RECORD_SAMPLE`).
ghost use Rattle.std.specs.Prelude.{◌≡◌, option_map};
ghost use Rattle.cfi_read_core.specs.ByteOrder.{is_big};
ghost use Rattle.cfi_read_core.specs.ReaderCalls.{ReadsBy, ReadsValue};
ghost use Rattle.cfi_read_core.specs.SliceReaders.{slice_position};
ghost use Rattle.cfi_perf.specs.CallChains.{chain_view};
ghost use Rattle.cfi_perf.specs.Samples.{branch_size, branch_stack, call_chain, call_chain_if};
ghost use Rattle.cfi_perf.specs.Samples.{copied_stack, copies_stack, is_in_kernel, lists};
ghost use Rattle.cfi_perf.specs.EventTables.{profile_event_view};
ghost use Rattle.cfi_perf.specs.Samples.{group_values, later_numbers, number_if, passed_if};
ghost use Rattle.cfi_perf.specs.Samples.{period_of, processor, processor_if};
ghost use Rattle.cfi_perf.specs.Samples.{raw_data, read_values, registers};
ghost use Rattle.cfi_perf.specs.Samples.{registers_of_abi, registers_view, sample, sample_numbers};
ghost use Rattle.cfi_perf.specs.Samples.{single_value, stack, stack_of_size, thread, thread_if};
ghost use Rattle.cfi_perf.specs.Samples.{timed_view, user_registers, user_stack, user_state};
ghost use Rattle.cfi_perf.specs.Samples.{user_view};

use crate::bytes::{Input, first_bytes, read_items};
use crate::call_chain::CallChain;
use crate::event_table::ProfileEvent;
use crate::layout::{
    EventLayout, PERF_SAMPLE_ADDR, PERF_SAMPLE_BRANCH_STACK, PERF_SAMPLE_CALLCHAIN,
    PERF_SAMPLE_CPU, PERF_SAMPLE_ID, PERF_SAMPLE_IDENTIFIER, PERF_SAMPLE_IP, PERF_SAMPLE_PERIOD,
    PERF_SAMPLE_RAW, PERF_SAMPLE_READ, PERF_SAMPLE_REGS_USER, PERF_SAMPLE_STACK_USER,
    PERF_SAMPLE_STREAM_ID, PERF_SAMPLE_TID, PERF_SAMPLE_TIME, has_any,
};
use crate::sample::{Sample, UserRegisters, UserState};
use cfi_read_core::{Reader, Result};

const PERF_FORMAT_GROUP: u64 = 1 << 3;

/// `PERF_FORMAT_TOTAL_TIME_ENABLED` and `PERF_FORMAT_TOTAL_TIME_RUNNING`.
const FORMAT_TIMES: u64 = 1 << 0 | 1 << 1;

/// `PERF_FORMAT_ID` and `PERF_FORMAT_LOST`.
const FORMAT_OF_EACH: u64 = 1 << 2 | 1 << 4;

/// `PERF_RECORD_MISC_CPUMODE_MASK`.
const PROCESSOR_MODE: u64 = 7;

const PERF_RECORD_MISC_KERNEL: u64 = 1;

const PERF_SAMPLE_BRANCH_HW_INDEX: u64 = 1 << 17;

const PERF_SAMPLE_BRANCH_COUNTERS: u64 = 1 << 19;

/// A process and one of its threads.
#[derive(Clone, Copy, Debug, PartialEq, Eq)]
pub(crate) struct Thread {
    pub(crate) pid: u32,
    pub(crate) tid: u32,
}

/// The fields that a sample begins with.
#[derive(Clone, Copy, Debug, PartialEq, Eq)]
pub(crate) struct SampleNumbers {
    pub(crate) ip: u64,
    pub(crate) thread: Thread,
    pub(crate) time: u64,
}

/// The numbers after the time of which a sample keeps something.
#[derive(Clone, Copy, Debug, PartialEq, Eq)]
pub(crate) struct LaterNumbers {
    pub(crate) cpu: Option<u32>,
    pub(crate) period: u64,
}

/// A sample and its time.
#[derive(Clone, Copy, Debug)]
pub(crate) struct TimedSample<'input> {
    pub(crate) time: u64,
    pub(crate) sample: Sample<'input>,
}

/// Reads a sample, whose record has this `misc`. Fails where its fields go past the end.
#[tactic(auto, unfolding(crate::specs::Samples::sample))]
pub(crate) fn read_sample<'input>(
    event: &ProfileEvent<'input>,
    misc: u16,
    input: &mut Input<'input>,
) -> Result<TimedSample<'input>>
    ensures { ReadsBy (slice_position is_big) timed_view
        (sample (profile_event_view event.now) misc)
        input.old result input.new }
{
    let layout = &event.layout;
    let numbers = read_sample_numbers(layout, input)?;
    let later = read_later_numbers(layout, input)?;
    let call_chain = read_lists(layout, input)?;
    let user = read_user_state(layout, input)?;
    Ok(TimedSample {
        time: numbers.time,
        sample: Sample {
            pid: numbers.thread.pid,
            tid: numbers.thread.tid,
            ip: numbers.ip,
            cpu: later.cpu,
            period: later.period,
            event: event.name,
            in_kernel: is_in_kernel(misc),
            call_chain,
            copies_stack: copies_stack(layout),
            user,
        },
    })
}

/// Whether the instruction of a sample is the kernel's, by the `misc` of its record.
fn is_in_kernel(misc: u16) -> bool
    ensures { result ≡ is_in_kernel misc }
{
    u64::from(misc) & PROCESSOR_MODE == PERF_RECORD_MISC_KERNEL
}

/// Whether samples have registers and a copy of the stack.
fn copies_stack(layout: &EventLayout) -> bool
    ensures { result ≡ copies_stack layout.now }
{
    layout.has(PERF_SAMPLE_REGS_USER) && layout.has(PERF_SAMPLE_STACK_USER)
}

/// Reads a number of eight bytes where there is one, or else gives 0.
#[inline(always)]
pub(crate) fn read_number_if<R: Reader>(is_there: bool, input: &mut R) -> Result<u64>
    ensures { ReadsValue R.position (number_if is_there) input.old result input.new }
{
    if is_there { input.read_u64() } else { Ok(0) }
}

/// Reads a process and a thread.
#[tactic(auto, unfolding(crate::specs::Samples::thread))]
pub(crate) fn read_thread<R: Reader>(input: &mut R) -> Result<Thread>
    ensures { ReadsValue R.position thread input.old result input.new }
{
    let pid = input.read_u32()?;
    let tid = input.read_u32()?;
    Ok(Thread { pid, tid })
}

/// Reads the process and the thread, which are 0 where the sample has neither.
#[inline(always)]
fn read_thread_if<R: Reader>(is_there: bool, input: &mut R) -> Result<Thread>
    ensures { ReadsValue R.position (thread_if is_there) input.old result input.new }
{
    if is_there {
        read_thread(input)
    } else {
        Ok(Thread { pid: 0, tid: 0 })
    }
}

/// Reads the fields up to the time.
#[tactic(auto, unfolding(crate::specs::Samples::sample_numbers))]
fn read_sample_numbers<R: Reader>(layout: &EventLayout, input: &mut R) -> Result<SampleNumbers>
    ensures { ReadsValue R.position (sample_numbers layout.now) input.old result input.new }
{
    let _identifier = read_number_if(layout.has(PERF_SAMPLE_IDENTIFIER), input)?;
    let ip = read_number_if(layout.has(PERF_SAMPLE_IP), input)?;
    let thread = read_thread_if(layout.has(PERF_SAMPLE_TID), input)?;
    let time = read_number_if(layout.has(PERF_SAMPLE_TIME), input)?;
    Ok(SampleNumbers { ip, thread, time })
}

/// Reads the numbers after the time.
#[tactic(auto, unfolding(crate::specs::Samples::later_numbers))]
fn read_later_numbers<R: Reader>(layout: &EventLayout, input: &mut R) -> Result<LaterNumbers>
    ensures { ReadsValue R.position (later_numbers layout.now) input.old result input.new }
{
    let _addr = read_number_if(layout.has(PERF_SAMPLE_ADDR), input)?;
    let _id = read_number_if(layout.has(PERF_SAMPLE_ID), input)?;
    let _stream_id = read_number_if(layout.has(PERF_SAMPLE_STREAM_ID), input)?;
    let cpu = read_processor_if(layout.has(PERF_SAMPLE_CPU), input)?;
    let period = read_period(layout, input)?;
    Ok(LaterNumbers { cpu, period })
}

/// Reads the processor, where the sample has it.
fn read_processor_if<R: Reader>(is_there: bool, input: &mut R) -> Result<Option<u32>>
    ensures { ReadsValue R.position (processor_if is_there) input.old result input.new }
{
    if !is_there {
        return Ok(None);
    }
    let cpu = read_processor(input)?;
    Ok(Some(cpu))
}

/// Reads the processor, and four bytes that say nothing.
#[tactic(auto, unfolding(crate::specs::Samples::processor))]
fn read_processor<R: Reader>(input: &mut R) -> Result<u32>
    ensures { ReadsValue R.position processor input.old result input.new }
{
    let cpu = input.read_u32()?;
    let _res = input.read_u32()?;
    Ok(cpu)
}

/// Reads how many events the sample stands for, or else gives what the event's attributes say.
fn read_period<R: Reader>(layout: &EventLayout, input: &mut R) -> Result<u64>
    ensures { ReadsValue R.position (period_of layout.now) input.old result input.new }
{
    if layout.has(PERF_SAMPLE_PERIOD) {
        input.read_u64()
    } else {
        Ok(layout.sample_period)
    }
}

/// Reads the call chain, and passes what a sample has of counts, raw data and branches.
#[tactic(auto, unfolding(crate::specs::Samples::lists))]
fn read_lists<'input>(
    layout: &EventLayout,
    input: &mut Input<'input>,
) -> Result<Option<CallChain<'input>>>
    ensures { ReadsBy (slice_position is_big) (option_map chain_view) (lists layout.now)
        input.old result input.new }
{
    pass_values(layout, input)?;
    let chain = read_call_chain_if(layout.has(PERF_SAMPLE_CALLCHAIN), input)?;
    pass_raw_data(layout.has(PERF_SAMPLE_RAW), input)?;
    let branches = layout.has(PERF_SAMPLE_BRANCH_STACK);
    pass_branch_stack(branches, layout.branch_sample_type, input)?;
    Ok(chain)
}

/// Passes the counts of the sample's event or of its group, if they are there.
fn pass_values(layout: &EventLayout, input: &mut Input<'_>) -> Result<()>
    ensures { ReadsValue (slice_position is_big) (read_values layout.now)
        input.old result input.new }
{
    if !layout.has(PERF_SAMPLE_READ) {
        Ok(())
    } else if has_any(PERF_FORMAT_GROUP, layout.read_format) {
        pass_group_values(layout.read_format, input)
    } else {
        pass_single_value(layout.read_format, input)
    }
}

/// Passes the counts of a group of events.
#[tactic(auto, unfolding(crate::specs::Samples::group_values))]
fn pass_group_values(format: u64, input: &mut Input<'_>) -> Result<()>
    ensures { ReadsValue (slice_position is_big) (group_values format)
        input.old result input.new }
{
    let count = input.read_u64()?;
    let times = (format & FORMAT_TIMES).count_ones();
    let of_each = (format & FORMAT_OF_EACH).count_ones();
    let _times = read_items(u64::from(times), 8, input)?;
    let _values = read_items(count, 8 * (1 + u64::from(of_each)), input)?;
    Ok(())
}

/// Passes the count of one event.
#[tactic(auto, unfolding(crate::specs::Samples::single_value))]
fn pass_single_value(format: u64, input: &mut Input<'_>) -> Result<()>
    ensures { ReadsValue (slice_position is_big) (single_value format)
        input.old result input.new }
{
    let others = (format & (FORMAT_TIMES | FORMAT_OF_EACH)).count_ones();
    let _value = read_items(1 + u64::from(others), 8, input)?;
    Ok(())
}

/// Reads the calls that the kernel recorded, where the sample has them.
fn read_call_chain_if<'input>(
    is_there: bool,
    input: &mut Input<'input>,
) -> Result<Option<CallChain<'input>>>
    ensures { ReadsBy (slice_position is_big) (option_map chain_view) (call_chain_if is_there)
        input.old result input.new }
{
    if !is_there {
        return Ok(None);
    }
    let chain = read_call_chain(input)?;
    Ok(Some(chain))
}

/// Reads the calls that the kernel recorded.
#[tactic(auto, unfolding(crate::specs::Samples::call_chain))]
fn read_call_chain<'input>(input: &mut Input<'input>) -> Result<CallChain<'input>>
    ensures { ReadsBy (slice_position is_big) chain_view call_chain input.old result input.new }
{
    let count = input.read_u64()?;
    let entries = read_items(count, 8, input)?;
    Ok(CallChain::new(entries, input.endian()))
}

/// Passes the raw data, if they are there.
#[tactic(auto, unfolding(crate::specs::Samples::raw_data))]
fn pass_raw_data(is_there: bool, input: &mut Input<'_>) -> Result<()>
    ensures { ReadsValue (slice_position is_big) (passed_if is_there raw_data)
        input.old result input.new }
{
    if !is_there {
        return Ok(());
    }
    let size = input.read_u32()?;
    let _bytes = read_items(u64::from(size), 1, input)?;
    Ok(())
}

/// Passes the branches of a sample, of which the chosen parts are there.
#[tactic(auto, unfolding(crate::specs::Samples::branch_stack))]
fn pass_branch_stack(is_there: bool, chosen: u64, input: &mut Input<'_>) -> Result<()>
    ensures { ReadsValue (slice_position is_big) (passed_if is_there (branch_stack chosen))
        input.old result input.new }
{
    if !is_there {
        return Ok(());
    }
    let count = input.read_u64()?;
    let _hw_idx = read_number_if(has_any(PERF_SAMPLE_BRANCH_HW_INDEX, chosen), input)?;
    let _branches = read_items(count, branch_size(chosen), input)?;
    Ok(())
}

/// The size of a branch in bytes.
fn branch_size(chosen: u64) -> u64
    ensures { result ≡ branch_size chosen }
{
    if has_any(PERF_SAMPLE_BRANCH_COUNTERS, chosen) {
        32
    } else {
        24
    }
}

/// Reads the registers and the stack of user space.
#[tactic(auto, unfolding(crate::specs::Samples::user_state))]
fn read_user_state<'input>(
    layout: &EventLayout,
    input: &mut Input<'input>,
) -> Result<UserState<'input>>
    ensures { ReadsBy (slice_position is_big) user_view (user_state layout.now)
        input.old result input.new }
{
    let registers = read_user_registers(layout, input)?;
    let stack = read_user_stack(layout, input)?;
    Ok(UserState { registers, stack })
}

/// Reads the registers of user space; `None` where the sample has none.
fn read_user_registers<'input>(
    layout: &EventLayout,
    input: &mut Input<'input>,
) -> Result<Option<UserRegisters<'input>>>
    ensures { ReadsBy (slice_position is_big) (option_map registers_view)
        (user_registers layout.now) input.old result input.new }
{
    if layout.has(PERF_SAMPLE_REGS_USER) {
        read_registers(layout.sample_regs_user, input)
    } else {
        Ok(None)
    }
}

/// Reads the registers whose bits are set in the mask.
#[tactic(auto, unfolding(crate::specs::Samples::registers))]
fn read_registers<'input>(
    mask: u64,
    input: &mut Input<'input>,
) -> Result<Option<UserRegisters<'input>>>
    ensures { ReadsBy (slice_position is_big) (option_map registers_view) (registers mask)
        input.old result input.new }
{
    let abi = input.read_u64()?;
    if abi == 0 {
        return Ok(None);
    }
    let values = read_items(u64::from(mask.count_ones()), 8, input)?;
    Ok(Some(UserRegisters::new(abi, mask, values, input.endian())))
}

/// Reads the bytes of the stack that were copied; none where the sample has no stack.
fn read_user_stack<'input>(layout: &EventLayout, input: &mut Input<'input>) -> Result<&'input [u8]>
    ensures { ReadsBy (slice_position is_big) (λ bytes. bytes.now) (user_stack layout.now)
        input.old result input.new }
{
    if layout.has(PERF_SAMPLE_STACK_USER) {
        read_stack(input)
    } else {
        Ok(&[])
    }
}

/// Reads the bytes of a stack that were copied.
#[tactic(auto, unfolding(crate::specs::Samples::stack))]
fn read_stack<'input>(input: &mut Input<'input>) -> Result<&'input [u8]>
    ensures { ReadsBy (slice_position is_big) (λ bytes. bytes.now) stack
        input.old result input.new }
{
    let size = input.read_u64()?;
    if size == 0 {
        return Ok(&[]);
    }
    read_copied_stack(size, input)
}

/// Reads a room of this size, and how many bytes of it were copied.
#[tactic(auto, unfolding(crate::specs::Samples::copied_stack))]
fn read_copied_stack<'input>(size: u64, input: &mut Input<'input>) -> Result<&'input [u8]>
    ensures { ReadsBy (slice_position is_big) (λ bytes. bytes.now) (copied_stack size)
        input.old result input.new }
{
    let bytes = read_items(size, 1, input)?;
    let dyn_size = input.read_u64()?;
    Ok(first_bytes(bytes, dyn_size))
}
