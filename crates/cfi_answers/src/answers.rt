//! Answers as numbers: one that tells the kind, and then as many as the kind has.
use gimli_cfi::{
    ArrayLike, CfaRule, CommonInformationEntry, DwEhPe, Error, FrameDescriptionEntry,
    ParsedEhFrameHdr, Pointer, Reader, ReaderOffset, Register, RegisterRule, UnwindTableRow,
};

/// Offset and length, bytes of the length, version, size of an address, the two factors, the
/// return address register, the encodings of LSDA, FDE addresses and personality routine, each plus
/// 1 or 0 without one, the pointer to the routine, and two flags.
const CIE: u64 = 1;
/// Offset and length of an FDE.
const PARTIAL: u64 = 2;
/// Offset and length of an FDE, offset of its CIE, first address, number of addresses, end, the
/// pointers to the LSDA and to the personality routine, and a flag.
const FDE: u64 = 3;
/// Number of an error, and the value that it carries.
const ERROR: u64 = 4;
/// No more.
const END: u64 = 5;
/// Start, end, size of arguments; 0 with register and offset, or 1 with place and length.
const ROW: u64 = 6;
/// A rule of the row before it: register, kind, value, and the length of an expression.
const RULE: u64 = 7;
/// The pointer to `.eh_frame`, and whether there is a table.
const HEADER: u64 = 8;
/// A pointer.
const POINTER: u64 = 9;
/// One number.
const NUMBER: u64 = 10;
/// Why a table isn't faithful: which reason, and up to three numbers. An error may follow.
const UNFAITHFUL: u64 = 11;
/// Number of an error of a frame, and the value that it carries. An error of a read may follow.
const FRAME_ERROR: u64 = 12;

/// Answers that are written one after the other, as far as there is room.
#[derive(Drop)]
pub struct Answers<'a> {
    room: &'a mut [u64],
    count: usize,
}

impl<'a> Answers<'a> {
    /// No answers yet.
    pub fn new(room: &'a mut [u64]) -> Answers<'a> {
        Answers { room, count: 0 }
    }

    /// How many numbers there are.
    pub fn count(&self) -> usize {
        self.count
    }

    fn put(&mut self, number: u64) {
        if self.count < self.room.len() {
            self.room[self.count] = number;
        }
        self.count = self.count.wrapping_add(1);
    }

    fn put_all(&mut self, numbers: &[u64]) {
        for number in numbers {
            self.put(*number);
        }
    }

    pub fn put_end(&mut self) {
        self.put(END);
    }

    pub fn put_number(&mut self, number: u64) {
        self.put_all(&[NUMBER, number]);
    }

    pub fn put_frame_error(&mut self, number: u64, value: u64) {
        self.put_all(&[FRAME_ERROR, number, value]);
    }

    pub fn put_error(&mut self, error: Error) {
        self.put_all(&[ERROR, u64::from(error.number()), error.value()]);
    }

    pub fn put_pointer(&mut self, pointer: Pointer) {
        self.put(POINTER);
        self.put_all(&target_of(Some(pointer)));
    }

    pub fn put_header<R: Reader>(&mut self, header: &ParsedEhFrameHdr<R>) {
        self.put(HEADER);
        self.put_all(&target_of(Some(header.eh_frame_ptr())));
        self.put(u64::from(header.table().is_some()));
    }

    pub fn put_cie<R: Reader>(&mut self, cie: &CommonInformationEntry<R>) {
        self.put(CIE);
        self.put_all(&place_of_cie(cie));
        self.put_all(&sizes_of(cie));
        self.put_all(&factors_of(cie));
        self.put_all(&encodings_of(cie));
        self.put_all(&personality_of(cie.personality_with_encoding()));
        self.put_all(&flags_of(cie));
    }

    pub fn put_partial(&mut self, offset: u64, length: u64) {
        self.put_all(&[PARTIAL, offset, length]);
    }

    pub fn put_fde<R: Reader>(&mut self, fde: &FrameDescriptionEntry<R>) {
        self.put(FDE);
        self.put_all(&place_of_fde(fde));
        self.put_all(&addresses_of(fde));
        self.put_all(&target_of(fde.lsda()));
        self.put_all(&target_of(fde.personality()));
        self.put(u64::from(fde.is_signal_trampoline()));
    }

    /// A row, with its rules in any order.
    pub fn put_row<T: ReaderOffset, A: ArrayLike<Item = (Register, RegisterRule<T>)>>(
        &mut self,
        row: &UnwindTableRow<T, A>,
    ) {
        self.put(ROW);
        self.put_all(&[
            row.start_address(),
            row.end_address(),
            row.saved_args_size(),
        ]);
        self.put_all(&cfa_of(*row.cfa()));
        for (register, rule) in row.registers() {
            self.put_all(&rule_of(*register, *rule));
        }
    }

    pub fn put_reason(&mut self, kind: u64, first: u64, second: u64, third: u64) {
        self.put_all(&[UNFAITHFUL, kind, first, second, third]);
    }
}

/// 1 and a direct pointer, 2 and an indirect one, or 0 and 0.
fn target_of(pointer: Option<Pointer>) -> [u64; 2] {
    match pointer {
        None => [0, 0],
        Some(Pointer::Direct(value)) => [1, value],
        Some(Pointer::Indirect(value)) => [2, value],
    }
}

/// An encoding plus 1, or 0 without one.
fn encoding_of(encoding: Option<DwEhPe>) -> u64 {
    match encoding {
        None => 0,
        Some(encoding) => u64::from(encoding.0) + 1,
    }
}

fn personality_of(personality: Option<(DwEhPe, Pointer)>) -> [u64; 3] {
    let (encoding, pointer) = match personality {
        None => (None, None),
        Some((encoding, pointer)) => (Some(encoding), Some(pointer)),
    };
    let [kind, value] = target_of(pointer);
    [encoding_of(encoding), kind, value]
}

fn place_of_cie<R: Reader>(cie: &CommonInformationEntry<R>) -> [u64; 2] {
    [cie.offset().into_u64(), cie.entry_len().into_u64()]
}

fn sizes_of<R: Reader>(cie: &CommonInformationEntry<R>) -> [u64; 3] {
    [
        u64::from(cie.encoding().format.initial_length_size()),
        u64::from(cie.version()),
        u64::from(cie.address_size()),
    ]
}

fn factors_of<R: Reader>(cie: &CommonInformationEntry<R>) -> [u64; 3] {
    [
        cie.code_alignment_factor(),
        cie.data_alignment_factor().cast_unsigned(),
        u64::from(cie.return_address_register().0),
    ]
}

fn encodings_of<R: Reader>(cie: &CommonInformationEntry<R>) -> [u64; 2] {
    [
        encoding_of(cie.lsda_encoding()),
        encoding_of(cie.fde_address_encoding()),
    ]
}

fn flags_of<R: Reader>(cie: &CommonInformationEntry<R>) -> [u64; 2] {
    [
        u64::from(cie.is_signal_trampoline()),
        u64::from(cie.has_lsda()),
    ]
}

fn place_of_fde<R: Reader>(fde: &FrameDescriptionEntry<R>) -> [u64; 3] {
    [
        fde.offset().into_u64(),
        fde.entry_len().into_u64(),
        fde.cie().offset().into_u64(),
    ]
}

fn addresses_of<R: Reader>(fde: &FrameDescriptionEntry<R>) -> [u64; 3] {
    [fde.initial_address(), fde.len(), fde.end_address()]
}

fn cfa_of<T: ReaderOffset>(cfa: CfaRule<T>) -> [u64; 3] {
    match cfa {
        CfaRule::RegisterAndOffset { register, offset } => {
            [0, u64::from(register.0), offset.cast_unsigned()]
        }
        CfaRule::Expression(e) => [1, e.offset.into_u64(), e.length.into_u64()],
    }
}

fn rule_of<T: ReaderOffset>(register: Register, rule: RegisterRule<T>) -> [u64; 5] {
    let (kind, value, length) = match rule {
        RegisterRule::Undefined => (1, 0, 0),
        RegisterRule::SameValue => (2, 0, 0),
        RegisterRule::Offset(offset) => (3, offset.cast_unsigned(), 0),
        RegisterRule::ValOffset(offset) => (4, offset.cast_unsigned(), 0),
        RegisterRule::Register(other) => (5, u64::from(other.0), 0),
        RegisterRule::Expression(e) => (6, e.offset.into_u64(), e.length.into_u64()),
        RegisterRule::ValExpression(e) => (7, e.offset.into_u64(), e.length.into_u64()),
        RegisterRule::Architectural => (8, 0, 0),
        RegisterRule::Constant(value) => (9, value, 0),
    };
    [RULE, u64::from(register.0), kind, value, length]
}
