// Decimal numbers, and samples as bytes.
ghost use Rattle.std.specs.Prelude.{◌≡◌, IfOk, vec_items};
ghost use Rattle.std.specs.Option.{option_map};
ghost use Rattle.script.specs.Operands.{number_in, sample_in};

use std::alloc::{AllocError, Global};

// The number in decimal digits, where it is at most `most`.
pub(crate) fn number(text: &str, most: usize) -> Option<usize>
    ensures { result ≡ number_in most text.now }
{
    // `parse` would take a plus as well.
    if text.starts_with('+') {
        return None;
    }
    text.parse().ok().filter(|n| *n <= most)
}

// The numbers of a sample, two bytes each, highest byte first.
pub fn sample(heap: Global, bytes: &[u8]) -> Result<Option<Vec<i16>>, AllocError>
    ensures { IfOk result (λ o. option_map vec_items o ≡ sample_in bytes.now) }
{
    let (pairs, odd) = bytes.as_chunks::<2>();
    if !odd.is_empty() {
        return Ok(None);
    }
    let numbers = pairs
        .iter()
        .map(|pair| i16::from_be_bytes(*pair))
        .collect(heap)?;
    Ok(Some(numbers))
}
