//! The functions of folded stacks as objects of JSON (RFC 8259).
ghost use Rattle.std.specs.Prelude.{◌++◌, [], ◌∷◌, codes, map};
ghost use Rattle.cfi_flame.specs.Functions.{row_view};
ghost use Rattle.cfi_text.specs.JsonTexts.{json_number};
ghost use Rattle.cfi_text.specs.Texts.{Puts};
ghost use Rattle.cfi_flame.specs.FunctionObjects.{function_object, not_folded_object};
ghost use Rattle.cfi_flame.specs.FunctionObjects.{objects_text};

use crate::functions::Function;
use cfi_text::text::Text;

/// The first number that some readers of JSON don't have exactly.
const EXACT: u64 = 1 << 53;

/// Appends how many samples there are in all, and then each function with its samples, an object on
/// each line.
pub fn put_objects(text: &mut Text, all: u64, rows: &[Function<'_>])
    ensures { Puts (objects_text all (map row_view rows.now)) text.old text.new }
{
    put_ended(text, b"{\"samples\":", all);
    for row in rows {
        put_function(text, row);
    }
}

/// Appends a function with its samples.
fn put_function(text: &mut Text, row: &Function<'_>)
    ensures { Puts (function_object (row_view row.now)) text.old text.new }
{
    text.put(b"{\"function\":\"");
    text.json_escaped(row.name);
    text.put(b"\",\"self\":");
    put_number(text, row.own);
    put_ended(text, b",\"total\":", row.total);
}

/// Appends that the line of this number isn't folded.
pub fn put_not_folded(text: &mut Text, number: u64)
    ensures { Puts (not_folded_object number) text.old text.new }
{
    put_ended(text, b"{\"error\":\"NotFolded\",\"line\":", number);
}

/// Appends the end of an object: this beginning of a member, and its number.
fn put_ended(text: &mut Text, before: &[u8], number: u64)
    ensures { Puts (before.now ++ (json_number number ++ (codes "}" ++ 10 ∷ [])))
        text.old text.new }
{
    text.put(before);
    put_number(text, number);
    text.put(b"}\n");
}

/// Appends a number, as a string where not every reader of JSON has it.
fn put_number(text: &mut Text, number: u64)
    ensures { Puts (json_number number) text.old text.new }
{
    if number < EXACT {
        text.number(number);
    } else {
        text.put(b"\"");
        text.number(number);
        text.put(b"\"");
    }
}
