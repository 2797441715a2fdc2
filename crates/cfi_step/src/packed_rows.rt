//! Rows in 64 bytes, with what their FDEs say of their functions.
ghost use Rattle.std.specs.Prelude.{◌≡◌, IfSome, true};
ghost use Rattle.cfi_expression.specs.Arithmetic.{displaced};
ghost use Rattle.cfi_step.specs.Marks.{HasCounts};
ghost use Rattle.cfi_step.specs.PackedRows.{AreSmallNumbersOf, pointer_of};
ghost use Rattle.cfi_step.specs.PackedRules.{eightfold};

use crate::function::Function;
use crate::marks::{Marks, PointerKind, kind_of};
use crate::packed_rules::{PackedRule, RULES, no_rules, packed_rules};
use gimli_cfi::{
    ArrayLike, CfaRule, Pointer, ReaderAddress, Register, RegisterRule, UnwindTableRow,
};

/// The address of what is no row: no code begins there.
const NOWHERE: u64 = u64::MAX;

/// What a row and its function have but for the addresses.
#[derive(Clone, Copy, Debug)]
pub struct SmallNumbers {
    /// The offset of the FDE in the section.
    pub fde: u32,
    /// How far the CFA is from the value of a register, in eight bytes.
    pub cfa_words: i16,
    /// What takes a few bits each.
    pub marks: Marks,
    /// The register from which the CFA is counted.
    pub cfa_register: u8,
    /// The register that holds the return address.
    pub return_address: u8,
    /// The rules of registers, as many as the marks say.
    pub rules: [PackedRule; RULES],
}

/// How far the addresses of a function are from that of a row.
#[derive(Clone, Copy, Debug)]
pub struct Distances {
    /// Its first address.
    pub start: i32,
    /// The first address after it.
    pub end: i32,
    /// The language-specific data area.
    pub lsda: i32,
    /// The personality routine.
    pub personality: i32,
}

/// A row of an unwind table with what its FDE says of the function (DWARF 5 section 6.4.1), or
/// none. It has at most 13 rules of registers, and is 64 bytes.
#[derive(Drop)]
pub struct PackedRow {
    address: u64,
    file: u32,
    distances: Distances,
    numbers: SmallNumbers,
}

impl PackedRow {
    ghost use Rattle.std.specs.Prelude.{◌≡◌, ◌↔◌, IfSome, IsTrue, None, false};
    ghost use Rattle.cfi_step.specs.Marks.{has_row, is_trampoline};
    ghost use Rattle.cfi_step.specs.KeptSlots.{HoldsAtMost};
    ghost use Rattle.cfi_step.specs.PackedRows.{HoldsRow, IsPackedOf, function_packed};
    ghost use Rattle.cfi_step.specs.PackedRows.{function_with};
    ghost use Rattle.cfi_step.specs.PackedRows.{is_kept, counted_rules, parts_packed, plain_packed};
    ghost use Rattle.cfi_step.specs.PackedRules.{eightfold};

    /// No row. Does not allocate.
    pub fn new() -> PackedRow
        ensures { is_kept result ≡ false }
    {
        PackedRow {
            address: NOWHERE,
            file: 0,
            distances: Distances {
                start: 0,
                end: 0,
                lsda: 0,
                personality: 0,
            },
            numbers: SmallNumbers {
                fde: 0,
                cfa_words: 0,
                marks: Marks::none(),
                cfa_register: 0,
                return_address: 0,
                rules: no_rules(),
            },
        }
    }

    /// Forgets the row, also that one was refused.
    #[inline]
    pub fn clear(&mut self)
        ensures { is_kept self.new ≡ false }
    {
        self.address = NOWHERE;
        self.numbers.marks = Marks::none();
    }

    /// Whether it is the row of the address of the file.
    #[inline(always)]
    pub fn is_of(&self, file: u64, address: u64) -> bool
        ensures { IsTrue result ↔ HoldsRow file address self.now }
    {
        self.address == address && u64::from(self.file) == file && self.is_kept()
    }

    /// Whether that row couldn't be kept when it was found last.
    pub fn is_refused(&self, file: u64, address: u64) -> bool {
        self.address == address && u64::from(self.file) == file && !self.is_kept()
    }

    /// Whether there is a row.
    #[inline(always)]
    pub fn is_kept(&self) -> bool
        ensures { result ≡ is_kept self.now }
    {
        self.numbers.marks.has_row()
    }

    /// The register from which the CFA is counted.
    #[inline(always)]
    pub fn cfa_register(&self) -> u8
        ensures { result ≡ self.now.numbers.cfa_register }
    {
        self.numbers.cfa_register
    }

    /// How far the CFA is from the register's value.
    #[inline(always)]
    pub fn cfa_offset(&self) -> i64
        ensures { result ≡ eightfold self.now.numbers.cfa_words }
    {
        bytes_in(self.numbers.cfa_words)
    }

    /// The rules of registers. If a register occurs twice, its first rule holds.
    #[inline(always)]
    pub fn rules(&self) -> &[PackedRule]
        ensures { result.now ≡ counted_rules self.now.numbers }
    {
        let count = self.numbers.marks.rule_count();
        if count < RULES {
            &self.numbers.rules[..count]
        } else {
            &self.numbers.rules
        }
    }

    /// The register that holds the return address.
    #[inline(always)]
    pub fn return_address(&self) -> u8
        ensures { result ≡ self.now.numbers.return_address }
    {
        self.numbers.return_address
    }

    /// Whether the function is a signal trampoline.
    #[inline(always)]
    pub fn is_signal_trampoline(&self) -> bool
        ensures { result ≡ is_trampoline self.now.numbers.marks }
    {
        self.numbers.marks.is_signal_trampoline()
    }

    /// How many bytes of arguments the frame has pushed (`DW_CFA_GNU_args_size`).
    #[inline(always)]
    pub fn args_size(&self) -> u64
        ensures { result ≡ (parts_packed self.now).args_size }
    {
        self.numbers.marks.args_size()
    }

    /// What the FDE says of the function.
    #[inline(always)]
    pub fn function(&self) -> Function
        ensures { result ≡ function_packed self.now }
    {
        let marks = self.numbers.marks;
        let distances = self.distances;
        self.function_with(
            pointer_of(marks.lsda_kind(), displaced(self.address, distances.lsda)),
            pointer_of(
                marks.personality_kind(),
                displaced(self.address, distances.personality),
            ),
        )
    }

    /// The same, if the FDE has neither a language-specific data area nor a personality routine.
    #[inline(always)]
    pub fn plain_function(&self) -> Option<Function>
        ensures function { result ≡ plain_packed self.now }
        ensures plain { IfSome result (λ plain. (plain ≡ function_packed self.now)
            × (plain.lsda ≡ None) × (plain.personality ≡ None)) }
    {
        if self.numbers.marks.is_plain() {
            return Some(self.function_with(None, None));
        }
        None
    }

    /// What the FDE says of the function, with these pointers.
    #[inline(always)]
    fn function_with(&self, lsda: Option<Pointer>, personality: Option<Pointer>) -> Function
        ensures { result ≡ function_with self.now lsda personality }
    {
        Function {
            start: displaced(self.address, self.distances.start),
            end: displaced(self.address, self.distances.end),
            lsda,
            personality,
            return_address: Register(u16::from(self.numbers.return_address)),
            is_signal_trampoline: self.numbers.marks.is_signal_trampoline(),
            offset: u64::from(self.numbers.fde),
        }
    }

    /// Is then the row of the address of the file, if it has few rules and small numbers, and else
    /// none.
    pub fn keep<A: ArrayLike<Item = (Register, RegisterRule<usize>)>>(
        &mut self,
        file: u64,
        address: u64,
        row: &UnwindTableRow<usize, A>,
        function: &Function,
    )
        ensures { HoldsAtMost HoldsRow file address
            (IsPackedOf row.now.parts function.now) self.new }
    {
        self.numbers.marks = Marks::none();
        let Ok(number) = u32::try_from(file) else {
            return;
        };
        self.file = number;
        self.address = address;
        let Some(numbers) = small_numbers(row, function) else {
            return;
        };
        self.distances = distances_of(address, function);
        self.numbers = numbers;
        // all of it was near enough
        if is_same(&self.function(), function) {
            return;
        }
        self.numbers.marks = Marks::none();
    }
}

/// Whether both say the same.
fn is_same(found: &Function, function: &Function) -> bool
    ensures { result ≡ true → found.now ≡ function.now }
{
    *found == *function
}

/// How far the addresses of the function are from the address; 0 if one is too far.
fn distances_of(address: u64, function: &Function) -> Distances {
    Distances {
        start: distance(address, function.start),
        end: distance(address, function.end),
        lsda: distance(address, address_of(function.lsda)),
        personality: distance(address, address_of(function.personality)),
    }
}

/// How far it is from one address to another; 0 if it is too far.
fn distance(from: u64, to: u64) -> i32 {
    i32::try_from(to.wrapping_sub(from).cast_signed()).unwrap_or(0)
}

/// An address plus a distance.
#[inline(always)]
fn displaced(address: u64, distance: i32) -> u64
    ensures { result ≡ displaced 8 address distance }
{
    address.wrapping_add_sized(i64::from(distance).cast_unsigned(), 8)
}

/// So many words of eight bytes, in bytes.
#[inline(always)]
fn bytes_in(words: i16) -> i64
    ensures { result ≡ eightfold words }
{
    i64::from(words).wrapping_mul(8)
}

/// The small numbers of a row and of its function; `None` if one is too large, if the row has too
/// many rules or one that can't be packed, or if the CFA is that of an expression.
fn small_numbers<A: ArrayLike<Item = (Register, RegisterRule<usize>)>>(
    row: &UnwindTableRow<usize, A>,
    function: &Function,
) -> Option<SmallNumbers>
    ensures { IfSome result (AreSmallNumbersOf row.now.parts function.now) }
{
    let CfaRule::RegisterAndOffset { register, offset } = *row.cfa() else {
        return None;
    };
    let (Ok(cfa_register), Ok(cfa_words)) = (u8::try_from(register.0), i16::try_from(offset / 8))
    else {
        return None;
    };
    if bytes_in(cfa_words) != offset {
        return None;
    }
    let rules = row.registers().as_slice();
    let Some(marks) = marks_of(rules.len(), row.saved_args_size(), function) else {
        return None;
    };
    let (Ok(return_address), Ok(fde)) = (
        u8::try_from(function.return_address.0),
        u32::try_from(function.offset),
    ) else {
        return None;
    };
    let Some(rules) = packed_rules(rules) else {
        return None;
    };
    Some(SmallNumbers {
        fde,
        cfa_words,
        marks,
        cfa_register,
        return_address,
        rules,
    })
}

/// The marks of a row with so many rules and so many bytes of pushed arguments, and of its
/// function; `None` if one of these numbers is too large.
fn marks_of(rules: usize, pushed: u64, function: &Function) -> Option<Marks>
    ensures { IfSome result (λ marks. HasCounts rules pushed marks) }
{
    let marks = Marks::of(
        rules,
        kind_of(function.lsda),
        kind_of(function.personality),
        function.is_signal_trampoline,
        pushed,
    );
    if marks.rule_count() == rules && marks.args_size() == pushed {
        Some(marks)
    } else {
        None
    }
}

/// The pointer of this kind, with this address.
#[inline(always)]
fn pointer_of(kind: PointerKind, address: u64) -> Option<Pointer>
    ensures { result ≡ pointer_of kind address }
{
    match kind {
        PointerKind::Absent => None,
        PointerKind::Direct => Some(Pointer::Direct(address)),
        PointerKind::Indirect => Some(Pointer::Indirect(address)),
    }
}

/// The address that a pointer has; 0 if there is none.
fn address_of(pointer: Option<Pointer>) -> u64 {
    match pointer {
        None => 0,
        Some(pointer) => pointer.pointer(),
    }
}
