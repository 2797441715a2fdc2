//! Whole runs over memory, with failing input and output; the longest parts of a line.
pub(crate) mod failing;

use crate::comparison::expect;
use cfi_parts::instruction::UnwindExpression;
use cfi_row_text::row_text::{put_frame, put_ruled};
use cfi_state::table::rules::{CfaRule, RegisterRule};
use cfi_text::register_names::RegisterNames;
use cfi_text::text::Text;
use gimli_cfi::Register;

/// Puts the longest parts of a line, one after the other.
fn put_longest_parts(text: &mut Text) {
    let expression = UnwindExpression {
        offset: usize::MAX,
        length: usize::MAX,
    };
    let (cfa, rule) = (
        CfaRule::Expression(expression),
        RegisterRule::ValExpression(expression),
    );
    text.address(u64::MAX);
    text.put(b" ");
    text.address(u64::MAX);
    put_frame(text, RegisterNames::Numbers, cfa, u64::MAX);
    put_ruled(text, RegisterNames::Numbers, Register(u16::MAX), rule);
}

#[test]
fn puts_the_longest_parts(rt: HostRuntime) {
    let mut text = Text::new(rt.alloc());
    put_longest_parts(&mut text);
    let line =
        "0xffffffffffffffff 0xffffffffffffffff cfa=expr@18446744073709551615:18446744073709551615 args=18446744073709551615 r65535=val_expr@18446744073709551615:18446744073709551615";
    expect(&rt, "a part", &text.as_bytes(), &line.as_bytes());
}
