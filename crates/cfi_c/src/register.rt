//! The registers of a frame, as C passes and gets them.
ghost use Rattle.std.specs.Prelude.{◌≡◌, ◌≤◌, length, map, take};
ghost use Rattle.cfi_c.specs.PassedRegisters.{AreValues, known_value, written_value};

/// For so many registers little of the stack is taken.
pub const FEW: usize = 32;

/// The value of a register, if it is known.
#[repr(C)]
#[derive(Clone, Copy)]
pub struct CfiValue {
    pub value: u64,
    pub known: bool,
}

/// The value of the register.
pub fn known_value(register: CfiValue) -> Option<u64>
    ensures { result ≡ known_value register }
{
    if register.known {
        Some(register.value)
    } else {
        None
    }
}

/// Writes the values of the registers.
pub fn write_values(registers: &[CfiValue], values: &mut [Option<u64>])
    requires { length values.old ≡ length registers.now }
    ensures { values.new ≡ map known_value registers.now }
{
    for k in 0..values.len() {
        values[k] = known_value(registers[k]);
    }
}

/// The registers for which there is room.
pub fn first_registers(registers: &[CfiValue]) -> &[CfiValue]
    ensures first { result.now ≡ take 256 registers.now }
    ensures room { length result.now ≤ 256 }
{
    if registers.len() > 256 {
        &registers[..256]
    } else {
        registers
    }
}

/// The value of a register as C sees it.
pub fn written_value(value: Option<u64>) -> CfiValue
    ensures { result ≡ written_value value }
{
    match value {
        Some(value) => CfiValue { value, known: true },
        None => CfiValue {
            value: 0,
            known: false,
        },
    }
}

/// Writes the values of the caller's registers.
pub fn write_registers(found: &[Option<u64>], registers: &mut [CfiValue])
    ensures { AreValues found.now registers.new }
{
    for k in 0..registers.len() {
        registers[k] = written_value(if k < found.len() { found[k] } else { None });
    }
}
