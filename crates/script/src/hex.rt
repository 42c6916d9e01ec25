// Bytes as lower-case hexadecimal text.
ghost use Rattle.std.specs.Prelude.{◌≡◌, ◌*◌, ◌<◌, length, IfOk, Some, None, vec_items, string_bytes};
ghost use Rattle.std.specs.Char.{digit_char};
ghost use Rattle.std.specs.Str.{IsAscii};
ghost use Rattle.std.specs.Option.{option_map};
ghost use Rattle.script.specs.Hexadecimal.{every, hex_digit, is_hex_digit, hex_byte, hex_bytes, hex_digits, hex_text, is_hex};

use std::alloc::{AllocError, Global};
use std::{fmt, str};

// `char::to_digit` would take upper case as well.
pub fn hex_digit(c: u8) -> Option<u8>
    ensures { result ≡ hex_digit c }
{
    match c {
        b'0'..=b'9' => Some(c - b'0'),
        b'a'..=b'f' => Some(c - b'a' + 10),
        _ => None,
    }
}

// The byte that two digits stand for, the higher one first.
fn byte(high: u8, low: u8) -> u8
    ensures { result ≡ hex_byte high low }
{
    hex_digit(high).unwrap_or(0) * 16 + hex_digit(low).unwrap_or(0)
}

// With no early end, so that many characters are tested at a time.
fn all_digits(text: &[u8]) -> bool
    ensures { result ≡ every is_hex_digit text.now }
{
    let mut good = true;
    for c in text {
        good = good & hex_digit(*c).is_some();
    }
    good
}

fn is_hex(text: &[u8]) -> bool
    ensures { result ≡ is_hex text.now }
{
    !text.is_empty() && text.len() % 2 == 0 && all_digits(text)
}

// The bytes that text stands for, where it is hexadecimal; `-` stands for none.
pub fn hex_bytes(heap: Global, text: &[u8]) -> Result<Option<Vec<u8>>, AllocError>
    ensures { IfOk result (λ o. option_map vec_items o ≡ hex_bytes text.now) }
{
    if text == b"-".as_slice() {
        return Ok(Some(Vec::new(heap)));
    }
    // Tested first: a text that is not hexadecimal takes no memory.
    if !is_hex(text) {
        return Ok(None);
    }
    let (pairs, _) = text.as_chunks::<2>();
    let bytes = pairs
        .iter()
        .map(|pair| byte(pair[0], pair[1]))
        .collect(heap)?;
    Ok(Some(bytes))
}

// The digit of a value below 16.
fn digit(value: u8) -> u8
    requires { value < 16 }
    ensures { result ≡ digit_char value }
{
    if value < 10 {
        b'0' + value
    } else {
        b'a' - 10 + value
    }
}

// Writes two digits for each byte.
fn write_digits(bytes: &[u8], text: &mut [u8])
    requires { length text.old ≡ 2 * length bytes.now }
    ensures text { text.new ≡ hex_digits bytes.now }
    ensures ascii { IsAscii text.new }
{
    for (i, b) in bytes.iter().enumerate() {
        text[2 * i] = digit(*b / 16);
        text[2 * i + 1] = digit(*b % 16);
    }
}

// Prints two digits for each byte; no bytes are written as `-`.
#[derive(Clone, Copy)]
pub(crate) struct Hex<'a>(pub(crate) &'a [u8]);

impl fmt::Display for Hex<'_> {
    ghost output = { λ hex. Some (hex_text hex.0.now) };

    fn fmt<W: fmt::Write>(&self, f: &mut fmt::Formatter<W>) -> fmt::Result {
        if self.0.is_empty() {
            return f.write_str("-");
        }
        // A group at a time: `{b:02x}` for each byte takes several times as long.
        let mut memory = [0u8; 128];
        for group in self.0.chunks(64) {
            let text = &mut memory[..2 * group.len()];
            write_digits(group, text);
            let Ok(text) = str::from_utf8(text) else {
                unreachable!();
            };
            f.write_str(text)?;
        }
        Ok(())
    }
}

// The text of bytes; no bytes are written as `-`. It stands for those bytes.
pub fn hex_text(heap: Global, bytes: &[u8]) -> Result<String, AllocError>
    ensures text { IfOk result (λ t. string_bytes t ≡ hex_text bytes.now) }
    ensures back { hex_bytes (hex_text bytes.now) ≡ Some bytes.now }
{
    Hex(bytes).to_string(heap)
}
