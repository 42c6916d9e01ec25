// v = h − 2s: v as words, and the first nonzero coefficient of v1.
ghost use Rattle.std.specs.Prelude.{◌≡◌, ◌+◌, ◌≤◌, length};
ghost use Rattle.scheme.specs.Pairs.{is_positive, leader};
ghost use Rattle.verify.specs.Images.{half_point, PointWords};

use scheme::hash_bit;

// v, half by half, as words.
#[derive(Clone, Copy)]
pub(crate) struct Point<'a> {
    pub(crate) v0: &'a [i64],
    pub(crate) v1: &'a [i64],
    ghost first: { PointWords (length v0.now) v0.now },
    ghost second: { PointWords (length v0.now) v1.now },
}

// Half of v as words, where the hash's bits for it begin at `start`.
pub(crate) fn write_point(hash: &[u8], start: usize, numbers: &[i32], words: &mut [i64])
    requires long { length words.old ≡ length numbers.now }
    requires few { start + length numbers.now ≤ 2048 }
    ensures { words.new ≡ half_point start hash.now numbers.now }
{
    // `words.iter_mut().zip(numbers)` would tell the proof nothing of the words.
    for (i, number) in numbers.iter().enumerate() {
        words[i] = i64::from(hash_bit(hash, start + i)) - 2 * i64::from(*number);
    }
}

// Whether the first coefficient that is not 0 is positive.
pub(crate) fn leads_positive(words: &[i64]) -> bool
    ensures { result ≡ is_positive (leader words.now) }
{
    words
        .iter()
        .find(|word| **word != 0)
        .is_some_and(|word| *word > 0)
}
