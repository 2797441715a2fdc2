//! What takes a few bits each in a packed row.
ghost use Rattle.std.specs.Prelude.{◌≡◌};
ghost use Rattle.cfi_step.specs.Marks.{kind_by};

use gimli_cfi::Pointer;

/// What a pointer leads to.
#[derive(Clone, Copy, Debug, PartialEq, Eq)]
pub enum PointerKind {
    /// There is none.
    Absent,
    /// The address that it has.
    Direct,
    /// The one that stands at the address that it has.
    Indirect,
}

/// Of a packed row: how many rules it has, what the pointers of its function lead to, whether that
/// is a signal trampoline, whether there is a row at all, and how many bytes of arguments the frame
/// has pushed.
#[derive(Clone, Copy, Debug)]
pub struct Marks {
    bits: u16,
}

impl Marks {
    ghost use Rattle.std.specs.Prelude.{◌≡◌, false};
    ghost use Rattle.cfi_step.specs.Marks.{args_size, has_row, is_plain, is_trampoline, lsda_kind};
    ghost use Rattle.cfi_step.specs.Marks.{personality_kind, rule_count};

    /// Those of no row.
    pub fn none() -> Marks
        ensures { has_row result ≡ false }
    {
        Marks { bits: 0 }
    }

    /// Those of a row; of a number that has no room they have another.
    pub fn of(
        rules: usize,
        lsda: PointerKind,
        personality: PointerKind,
        is_signal_trampoline: bool,
        args_size: u64,
    ) -> Marks {
        Marks {
            bits: (rules % 16) as u16
                | number_of(lsda) << 4
                | number_of(personality) << 6
                | u16::from(is_signal_trampoline) << 8
                | 0x200
                | ((args_size / 8 % 64) as u16) << 10,
        }
    }

    /// How many rules of registers there are.
    #[inline(always)]
    pub fn rule_count(self) -> usize
        ensures { result ≡ rule_count self }
    {
        usize::from(self.bits % 16)
    }

    /// What the pointer to the language-specific data area leads to.
    #[inline(always)]
    pub fn lsda_kind(self) -> PointerKind
        ensures { result ≡ lsda_kind self }
    {
        kind_by(self.bits / 16 % 4)
    }

    /// What the pointer to the personality routine leads to.
    #[inline(always)]
    pub fn personality_kind(self) -> PointerKind
        ensures { result ≡ personality_kind self }
    {
        kind_by(self.bits / 64 % 4)
    }

    /// Whether neither pointer is there.
    #[inline(always)]
    pub fn is_plain(self) -> bool
        ensures { result ≡ is_plain self }
    {
        self.bits / 16 % 4 == 0 && self.bits / 64 % 4 == 0
    }

    /// Whether the function is a signal trampoline.
    #[inline(always)]
    pub fn is_signal_trampoline(self) -> bool
        ensures { result ≡ is_trampoline self }
    {
        self.bits / 256 % 2 == 1
    }

    /// Whether there is a row.
    #[inline(always)]
    pub fn has_row(self) -> bool
        ensures { result ≡ has_row self }
    {
        self.bits / 512 % 2 == 1
    }

    /// How many bytes of arguments the frame has pushed.
    #[inline(always)]
    pub fn args_size(self) -> u64
        ensures { result ≡ args_size self }
    {
        u64::from(self.bits / 1024) * 8
    }
}

/// The kind of this number.
#[inline(always)]
fn kind_by(number: u16) -> PointerKind
    ensures { result ≡ kind_by number }
{
    if number == 0 {
        PointerKind::Absent
    } else if number == 1 {
        PointerKind::Direct
    } else {
        PointerKind::Indirect
    }
}

/// The number of the kind.
fn number_of(kind: PointerKind) -> u16 {
    match kind {
        PointerKind::Absent => 0,
        PointerKind::Direct => 1,
        PointerKind::Indirect => 2,
    }
}

/// What the pointer leads to.
pub fn kind_of(pointer: Option<Pointer>) -> PointerKind {
    match pointer {
        None => PointerKind::Absent,
        Some(Pointer::Direct(_address)) => PointerKind::Direct,
        Some(Pointer::Indirect(_address)) => PointerKind::Indirect,
    }
}
