// Hexadecimal text and the numbers that it stands for.
ghost use Rattle.std.specs.Prelude.{vec_items};
ghost use Rattle.cases.specs.Operands.{bytes_in, number_in};
ghost use Rattle.cases.specs.Stops.{Gives};

use crate::stop::Stop;
use script::{hex_bytes, hex_digit};
use std::alloc::Global;

// The bytes of lower-case hexadecimal text; `-` stands for none.
pub fn bytes(heap: Global, text: &[u8]) -> Result<Vec<u8>, Stop>
    ensures { Gives vec_items (bytes_in text.now) result }
{
    if text.is_empty() {
        return Ok(Vec::new(heap));
    }
    hex_bytes(heap, text)?.ok_or(Stop::Unreadable)
}

// A number in digits, where `a` to `f` count as 10 to 15, no digits are 0 and the largest number stands for every larger
// one: `parse` refuses these.
pub fn number(text: &[u8]) -> Result<usize, Stop>
    ensures { Gives (λ n. n) (number_in text.now) result }
{
    text.iter()
        .try_fold(0usize, |n, c| {
            hex_digit(*c).map(|d| n.saturating_mul(10).saturating_add(usize::from(d)))
        })
        .ok_or(Stop::Unreadable)
}
