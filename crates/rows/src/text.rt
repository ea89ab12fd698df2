//! Appending numbers, values and bytes to a text, as in outputs, events and reports.

ghost use Rattle.std.specs.Prelude.{◌≡◌, ◌<◌, ◌++◌, false, length, take, OnOk, OnErr};
ghost use Rattle.std.specs.Fmt.{digit_glyph};
ghost use Rattle.rows.specs.Text.{hex_text, value_text};

use crate::value::Value;
use itoa::{Buffer, Integer};
use std::alloc::AllocError;

/// Appends a number of any width in decimal, after `-` if it is below 0. Fails only if out of
/// memory.
pub fn append_number<I: Integer>(text: &mut Vec<u8>, number: I) -> Result<(), AllocError>
    ensures ok { OnOk result (text.new.items ≡ text.old.items ++ I.text number) }
    ensures err { OnErr result (text.new.items ≡ text.old.items) }
{
    let mut digits = Buffer::new();
    text.extend_from_slice(digits.format(number).as_bytes())
}

/// Appends a value: a number in decimal, octets as `x` and two lower-case hexadecimal digits a
/// byte. Fails only if out of memory; some beginning of the value may then have been appended.
pub fn append_value(text: &mut Vec<u8>, value: &Value) -> Result<(), AllocError>
    ensures ok { OnOk result (text.new.items ≡ text.old.items ++ value_text value.now) }
    ensures err { OnErr result (take (length text.old.items) text.new.items ≡ text.old.items) }
{
    match value {
        Value::Int(number) => append_number(text, *number),
        Value::Octets(bytes) => {
            text.push(b'x')?;
            append_hex(text, bytes.as_slice())
        }
    }
}

/// Appends bytes as two lower-case hexadecimal digits each. Fails only if out of memory; the digits
/// of the first bytes may then have been appended.
pub fn append_hex(text: &mut Vec<u8>, bytes: &[u8]) -> Result<(), AllocError>
    ensures ok { OnOk result (text.new.items ≡ text.old.items ++ hex_text bytes.now) }
    ensures err { OnErr result (take (length text.old.items) text.new.items ≡ text.old.items) }
{
    for byte in bytes {
        text.push(hex_digit(*byte / 16))?;
        text.push(hex_digit(*byte % 16))?;
    }
    Ok(())
}

fn hex_digit(digit: u8) -> u8
    requires { digit < 16 }
    ensures { result ≡ digit_glyph false digit }
{
    if digit < 10 {
        b'0' + digit
    } else {
        b'a' + (digit - 10)
    }
}
