// Rows in words: v = a·x − b·y, one coefficient at a time.
ghost use Rattle.std.specs.Prelude.{◌≡◌, ◌*◌, ◌^◌, ◌<◌, ◌≤◌, List, length, ℤ, pos, find, not, slice_index_or, unsigned_abs};
ghost use Rattle.scheme.specs.Pairs.{is_zero};
ghost use Rattle.signing.specs.Rows.{apart, SmallRow};

use ring::{coefficient, widen};
use std::marker::Model;

// Two elements of a key and the two of a sample within its bound.
#[derive(Drop)]
pub(crate) struct Row<'a> {
    a: &'a [i64],
    b: &'a [i64],
    x: &'a [i64],
    y: &'a [i64],
}

// Contracts see a row as the list v.
impl<'a> Model for Row<'a> {
    ghost Value = { List ℤ };

    ghost view = { λ r. apart r.a.now r.b.now r.x.now r.y.now };

    ghost invariant = { λ r. SmallRow r.a.now r.b.now r.x.now r.y.now };
}

impl<'a> Row<'a> {
    // A row of elements of a key; `words` holds them meanwhile.
    pub(crate) fn new(
        a: &[i8],
        b: &[i8],
        x: &'a [i64],
        y: &'a [i64],
        words: &'a mut [i64],
    ) -> Row<'a>
        requires small { SmallRow a.now b.now x.now y.now }
        requires room { length words.old ≡ 2 * length a.now }
        ensures value { result ≡ apart a.now b.now x.now y.now }
        ensures long { length result ≡ length a.now }
    {
        let (a_words, b_words) = words.split_at_mut(a.len());
        widen(a, a_words);
        widen(b, b_words);
        Row {
            a: a_words,
            b: b_words,
            x,
            y,
        }
    }

    // Coefficient k. The words of a key have a difference of their own, with other bounds in their type.
    pub(crate) fn at(&self, k: usize) -> i64
        requires { k < length self.now }
        ensures small { unsigned_abs result ≤ 2 ^ 26 }
        ensures value { result ≡ slice_index_or self.now k (pos 0) }
    {
        coefficient(self.a, self.x, k) - coefficient(self.b, self.y, k)
    }

    // The first coefficient that is not 0.
    pub(crate) fn leader(&self) -> Option<i64>
        ensures { result ≡ find (λ z. not (is_zero z)) self.now }
    {
        (0..self.a.len()).map(|k| self.at(k)).find(|v| *v != 0)
    }
}
