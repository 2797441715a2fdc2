//! The attributes of an event, as they are written (perf_event_open(2), `struct perf_event_attr`).
ghost use Rattle.cfi_read_core.specs.ReaderCalls.{ReadsValue};
ghost use Rattle.cfi_perf.specs.Attributes.{attribute, chosen, sized_attribute, sample_format};
ghost use Rattle.cfi_perf.specs.Attributes.{sample_id_all};

use crate::layout::{EventLayout, has_any};
use cfi_read_core::{Endianity, Reader, Result};

/// `sample_id_all` in a little-endian number: its bit fields begin at the least significant bit.
const SAMPLE_ID_ALL_LITTLE: u64 = 1 << 18;

/// `sample_id_all` in a big-endian number: its bit fields begin at the most significant bit.
const SAMPLE_ID_ALL_BIG: u64 = 1 << 45;

/// What an event is, and what its samples have in them.
#[derive(Clone, Copy, Debug, PartialEq, Eq)]
pub(crate) struct Attribute {
    /// The kind of event (`PERF_TYPE_HARDWARE` and others).
    pub(crate) kind: u32,
    /// The event among those of its kind.
    pub(crate) config: u64,
    pub(crate) layout: EventLayout,
}

/// What an event is, and the size of all its attributes.
#[derive(Clone, Copy, Debug, PartialEq, Eq)]
pub(crate) struct SizedAttribute {
    pub(crate) size: u32,
    pub(crate) attribute: Attribute,
}

/// The event, and the formats of samples and counts.
#[derive(Clone, Copy, Debug, PartialEq, Eq)]
pub(crate) struct SampleFormat {
    /// The size of the attributes.
    pub(crate) size: u32,
    pub(crate) kind: u32,
    pub(crate) config: u64,
    pub(crate) sample_period: u64,
    pub(crate) sample_type: u64,
    pub(crate) read_format: u64,
}

/// Which branches and registers were chosen.
#[derive(Clone, Copy, Debug, PartialEq, Eq)]
pub(crate) struct Chosen {
    pub(crate) branch_sample_type: u64,
    pub(crate) sample_regs_user: u64,
}

/// Reads the attributes of an event as far as `sample_regs_user`.
#[tactic(auto, unfolding(crate::specs::Attributes::attribute))]
pub(crate) fn read_attribute<R: Reader>(input: &mut R) -> Result<Attribute>
    ensures { ReadsValue R.position attribute input.old result input.new }
{
    let sized = read_sized_attribute(input)?;
    Ok(sized.attribute)
}

/// Reads the same, and the size of all attributes.
#[tactic(auto, unfolding(crate::specs::Attributes::sized_attribute))]
pub(crate) fn read_sized_attribute<R: Reader>(input: &mut R) -> Result<SizedAttribute>
    ensures { ReadsValue R.position sized_attribute input.old result input.new }
{
    let format = read_sample_format(input)?;
    let sample_id_all = read_sample_id_all(input)?;
    let chosen = read_chosen(input)?;
    Ok(SizedAttribute {
        size: format.size,
        attribute: Attribute {
            kind: format.kind,
            config: format.config,
            layout: EventLayout {
                sample_type: format.sample_type,
                sample_period: format.sample_period,
                read_format: format.read_format,
                sample_id_all,
                branch_sample_type: chosen.branch_sample_type,
                sample_regs_user: chosen.sample_regs_user,
            },
        },
    })
}

/// Reads the fields of an attribute up to `read_format`.
#[tactic(auto, unfolding(crate::specs::Attributes::sample_format))]
fn read_sample_format<R: Reader>(input: &mut R) -> Result<SampleFormat>
    ensures { ReadsValue R.position sample_format input.old result input.new }
{
    let kind = input.read_u32()?;
    let size = input.read_u32()?;
    let config = input.read_u64()?;
    let sample_period = input.read_u64()?;
    let sample_type = input.read_u64()?;
    let read_format = input.read_u64()?;
    Ok(SampleFormat {
        size,
        kind,
        config,
        sample_period,
        sample_type,
        read_format,
    })
}

/// Reads the bit fields.
#[tactic(auto, unfolding(crate::specs::Attributes::sample_id_all))]
fn read_sample_id_all<R: Reader>(input: &mut R) -> Result<bool>
    ensures { ReadsValue R.position sample_id_all input.old result input.new }
{
    let bits = input.read_u64()?;
    if input.endian().is_big_endian() {
        Ok(has_any(SAMPLE_ID_ALL_BIG, bits))
    } else {
        Ok(has_any(SAMPLE_ID_ALL_LITTLE, bits))
    }
}

/// Reads the fields of an attribute from `wakeup_events` up to `sample_regs_user`.
#[tactic(auto, unfolding(crate::specs::Attributes::chosen))]
fn read_chosen<R: Reader>(input: &mut R) -> Result<Chosen>
    ensures { ReadsValue R.position chosen input.old result input.new }
{
    let _wakeup_events = input.read_u32()?;
    let _bp_type = input.read_u32()?;
    let _config1 = input.read_u64()?;
    let _config2 = input.read_u64()?;
    let branch_sample_type = input.read_u64()?;
    let sample_regs_user = input.read_u64()?;
    Ok(Chosen {
        branch_sample_type,
        sample_regs_user,
    })
}
