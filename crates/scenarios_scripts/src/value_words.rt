//! Words that spell values, read by themselves: numbers and bytes at the ends of their ranges, and
//! words just beyond them.

use rows::{Octets, Value};
use std::test::Fail;
use world::read_value;

/// Words of numbers.
const NUMBERS: [(&str, i64); 6] = [
    ("0", 0),
    ("7", 7),
    ("-1", -1),
    ("100", 100),
    ("9223372036854775807", i64::MAX),
    ("-9223372036854775808", i64::MIN),
];

/// Words of bytes; the last one has 64.
const BYTES: [(&str, &[u8]); 3] = [
    ("x00", &[0]),
    ("x4e45", &[78, 69]),
    (
        "x00ff00ff00ff00ff00ff00ff00ff00ff00ff00ff00ff00ff00ff00ff00ff00ff00ff00ff00ff00ff00ff00ff00ff00ff00ff00ff00ff00ff00ff00ff00ff00ff",
        &[
            0, 255, 0, 255, 0, 255, 0, 255, 0, 255, 0, 255, 0, 255, 0, 255, 0, 255, 0, 255, 0, 255,
            0, 255, 0, 255, 0, 255, 0, 255, 0, 255, 0, 255, 0, 255, 0, 255, 0, 255, 0, 255, 0, 255,
            0, 255, 0, 255, 0, 255, 0, 255, 0, 255, 0, 255, 0, 255, 0, 255, 0, 255, 0, 255,
        ],
    ),
];

/// Words that spell no value; the last one has 65 bytes.
const NO_VALUES: [&str; 17] = [
    "",
    "-",
    "-0",
    "00",
    "07",
    "+7",
    "7 ",
    "seven",
    "9223372036854775808",
    "-9223372036854775809",
    "x",
    "x4",
    "x4e4",
    "x4E",
    "X4e",
    "x4g",
    "x0000000000000000000000000000000000000000000000000000000000000000000000000000000000000000000000000000000000000000000000000000000000",
];

#[test]
fn words_of_values_are_read(rt: HostRuntime) -> Result<(), Fail> {
    for (word, number) in NUMBERS {
        assert_eq!(rt; read_value(word.as_bytes()), Some(Value::Int(number)));
    }
    for (word, bytes) in BYTES {
        let value = Octets::from_slice(bytes).map(Value::Octets);
        assert!(rt; value.is_some());
        assert_eq!(rt; read_value(word.as_bytes()), value);
    }
    for word in NO_VALUES {
        assert_eq!(rt; read_value(word.as_bytes()), None);
    }
    Ok(())
}
