//! Values of JSON (RFC 8259), and their text.
ghost use Rattle.std.specs.Prelude.{true};
ghost use Rattle.cfi_text.specs.JsonTexts.{json_escaped, json_name, json_number, separated};
ghost use Rattle.cfi_text.specs.Lines.{address_text};
ghost use Rattle.cfi_text.specs.Texts.{Puts};
ghost use Rattle.cfi_json.specs.Json.{IsReadBack, NestsWithin, comma_before, flag_text};
ghost use Rattle.cfi_json.specs.Json.{items_text, json_text, members_text, quoted};
ghost use Rattle.cfi_json.specs.Printed.{value_view, items_view, members_view};

use cfi_text::escapes::Escaping;
use cfi_text::text::Text;

/// A value of JSON. Its parts are borrowed.
pub enum Value<'a> {
    /// A string: a name, which may have any bytes.
    Name(&'a [u8]),
    /// A string: a text.
    Text(&'a str),
    /// A number.
    Number(u64),
    /// A string: an address, as `0x` and lower-case digits.
    Address(u64),
    /// `true` or `false`.
    Flag(bool),
    /// An array.
    Array(&'a [Value<'a>]),
    /// An object: the name and the value of each member.
    Object(&'a [(&'a str, Value<'a>)]),
}

/// The numbers below this one are the same for every reader of JSON.
const EXACT: u64 = 1 << 53;

/// Appends the text of the value, with no space in it: U+FFFD for each byte of a name that isn't
/// UTF-8, and a number from 2^53 on as a string of its digits. A reader gets the value from it.
pub fn put_json(text: &mut Text, value: &Value<'_>)
    ensures text { Puts (json_text (value_view value.now)) text.old text.new }
    ensures read { NestsWithin (value_view value.now) → IsReadBack (value_view value.now) }
{
    put_value(text, value);
}

/// Appends the text of the value.
#[cycle(value)]
fn put_value(text: &mut Text, value: &Value<'_>)
    ensures { Puts (json_text (value_view value.now)) text.old text.new }
{
    match value {
        Value::Name(name) => put_name(text, name),
        Value::Text(characters) => put_text(text, characters),
        Value::Number(number) => put_number(text, *number),
        Value::Address(address) => put_address(text, *address),
        Value::Flag(is) => put_flag(text, *is),
        Value::Array(values) => {
            text.put(b"[");
            put_items(text, values);
            text.put(b"]");
        }
        Value::Object(members) => {
            text.put(b"{");
            put_members(text, members);
            text.put(b"}");
        }
    }
}

/// Appends the values of an array, with commas between them.
#[cycle(value)]
fn put_items(text: &mut Text, values: &[Value<'_>])
    ensures { Puts (separated true (items_text (items_view values.now))) text.old text.new }
{
    let mut is_first = true;
    for value in values {
        put_comma(text, is_first);
        put_value(text, value);
        is_first = false;
    }
}

/// Appends the members of an object, with commas between them.
#[cycle(value)]
fn put_members(text: &mut Text, members: &[(&str, Value<'_>)])
    ensures { Puts (separated true (members_text (members_view members.now))) text.old text.new }
{
    let mut is_first = true;
    for member in members {
        put_comma(text, is_first);
        put_name(text, member.0.as_bytes());
        text.put(b":");
        put_value(text, &member.1);
        is_first = false;
    }
}

/// Appends a comma, but before the first.
fn put_comma(text: &mut Text, is_first: bool)
    ensures { Puts (comma_before is_first) text.old text.new }
{
    if !is_first {
        text.put(b",");
    }
}

/// Appends a name as a string.
fn put_name(text: &mut Text, name: &[u8])
    ensures { Puts (quoted (json_name name.now)) text.old text.new }
{
    text.put(b"\"");
    text.escaped(Escaping::Json, name);
    text.put(b"\"");
}

/// Appends a text as a string.
fn put_text(text: &mut Text, characters: &str)
    ensures { Puts (quoted (json_escaped characters.now)) text.old text.new }
{
    text.put(b"\"");
    text.json_escaped(characters.as_bytes());
    text.put(b"\"");
}

/// Appends a number, or its digits as a string.
fn put_number(text: &mut Text, number: u64)
    ensures { Puts (json_number number) text.old text.new }
{
    if number < EXACT {
        text.number(number);
    } else {
        text.put(b"\"");
        text.number(number);
        text.put(b"\"");
    }
}

/// Appends an address as a string.
fn put_address(text: &mut Text, address: u64)
    ensures { Puts (quoted (address_text address)) text.old text.new }
{
    text.put(b"\"");
    text.address(address);
    text.put(b"\"");
}

/// Appends `true` or `false`.
fn put_flag(text: &mut Text, is: bool)
    ensures { Puts (flag_text is) text.old text.new }
{
    if is {
        text.put(b"true");
    } else {
        text.put(b"false");
    }
}
