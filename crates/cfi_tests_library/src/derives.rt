//! What can be copied, printed and compared.
use crate::comparison::expect;
use gimli_cfi::{
    Augmentation, BaseAddresses, BigEndian, CallFrameInstruction, CallFrameInstructionIter,
    CapacityFull, CfaRule, CfiEntriesIter, CieOffsetEncoding, CieOrFde, CommonInformationEntry,
    DebugFrame, EhFrame, EndianSlice, Endianity, FrameDescriptionEntry, LittleEndian,
    PartialFrameDescriptionEntry, Pointer, Register, RegisterRule, RegisterRuleIter, RunTimeEndian,
    SectionBaseAddresses, StoreGrowing, StoreOnHeap, UnwindContext, UnwindExpression, UnwindTable,
    Why,
};
use std::fmt::Debug;

type Slice<'a> = EndianSlice<'a, LittleEndian>;

// The checker rejects a struct if the type of a field doesn't meet its bounds, so these say which
// types have which traits.
struct HasDefault<T: Default>(Option<T>);

struct IsShown<T: Debug>(Option<T>);

struct IsCompared<T: Debug + Eq>(Option<T>);

struct IsCopied<T: Copy + Debug>(Option<T>);

struct IsValue<T: Copy + Debug + Eq>(Option<T>);

struct Values<'a>(
    IsValue<Pointer>,
    IsValue<BaseAddresses>,
    IsValue<SectionBaseAddresses>,
    IsValue<CieOffsetEncoding>,
    IsValue<DebugFrame<Slice<'a>>>,
    IsValue<EhFrame<Slice<'a>>>,
    IsValue<Augmentation>,
    IsValue<CommonInformationEntry<Slice<'a>>>,
    IsValue<FrameDescriptionEntry<Slice<'a>>>,
    IsValue<PartialFrameDescriptionEntry<'a, DebugFrame<Slice<'a>>, Slice<'a>>>,
    IsValue<CieOrFde<'a, EhFrame<Slice<'a>>, Slice<'a>>>,
    IsValue<UnwindExpression<usize>>,
    IsValue<CallFrameInstruction<u32>>,
    IsValue<CfaRule<usize>>,
    IsValue<RegisterRule<u32>>,
);

struct Copied<'a>(
    IsCopied<CfiEntriesIter<'a, DebugFrame<Slice<'a>>, Slice<'a>>>,
    IsCopied<CallFrameInstructionIter<'a, Slice<'a>>>,
    IsCopied<RegisterRuleIter<'a, usize>>,
    IsCopied<CapacityFull>,
    IsCopied<Why>,
);

struct Compared(
    IsCompared<UnwindContext<usize, StoreOnHeap>>,
    IsCompared<UnwindContext<u32, StoreGrowing>>,
);

struct Shown<'a>(IsShown<UnwindTable<'a, 'a, Slice<'a>, StoreOnHeap>>);

struct Defaults(
    HasDefault<Pointer>,
    HasDefault<BaseAddresses>,
    HasDefault<SectionBaseAddresses>,
    HasDefault<Augmentation>,
    HasDefault<CfaRule<usize>>,
);

/// Whether three defaults are as they should be.
fn three_defaults() -> [bool; 3] {
    let cfa = CfaRule::<usize>::default();
    [
        matches!(Pointer::default(), Pointer::Direct(0)),
        matches!(RegisterRule::<usize>::default(), RegisterRule::Undefined),
        matches!(
            cfa,
            CfaRule::RegisterAndOffset {
                register: Register(0),
                offset: 0
            }
        ),
    ]
}

fn orders_of_bytes() -> [bool; 4] {
    [
        LittleEndian.is_big_endian(),
        BigEndian.is_big_endian(),
        RunTimeEndian::Little.is_big_endian(),
        RunTimeEndian::Big.is_big_endian(),
    ]
}

#[test]
fn values_that_stand_beside_their_body(rt: HostRuntime) {
    expect(&rt, "defaults", &three_defaults(), &[true; 3]);
    expect(
        &rt,
        "orders of bytes",
        &orders_of_bytes(),
        &[false, true, false, true],
    );
}
