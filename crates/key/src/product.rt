// Products a*·b of elements of a key, by their coefficients.
ghost use Rattle.std.specs.Prelude.{◌≡◌, ◌*◌, ◌≤◌, true, map, length, unsigned_abs};
ghost use Rattle.ring.specs.Calls.{of_class};
ghost use Rattle.ring.specs.Elements.{adjoint as adjoint_of, coefficient as coefficient_of};
ghost use Rattle.ring.specs.Kinds.{word_value};
ghost use Rattle.scheme.specs.Keys.{all_within, key_limit};
ghost use Rattle.key.specs.Stored.{room_of};
ghost use Rattle.key.specs.Words.{SmallWords};

use crate::star::star;
use ring::{coefficient, widen};

// a and b, and beside them a* and b in words. What is said of each stands here and not in a type for one element, which
// would be one more wrapper round a slice.
#[derive(Clone, Copy)]
pub(crate) struct Product<'a, 'w> {
    a: &'a [i8],
    b: &'a [i8],
    a_star: &'w [i64],
    b_words: &'w [i64],
    ghost few: { length a.now ≤ room_of },
    ghost long: { length b.now ≡ length a.now },
    ghost small_a: { all_within key_limit a.now ≡ true },
    ghost small_b: { all_within key_limit b.now ≡ true },
    ghost star: { map word_value a_star.now ≡ map word_value (adjoint_of a.now) },
    ghost wide: { b_words.now ≡ b.now },
}

impl<'a, 'w> Product<'a, 'w> {
    // The words are written over.
    pub(crate) fn new(a: &'a [i8], b: &'a [i8], words: &'w mut [i64]) -> Product<'a, 'w>
        requires class { of_class (length a.now) ≡ true }
        requires a { SmallWords a.now }
        requires b { SmallWords b.now }
        requires long { length b.now ≡ length a.now }
        requires words { length words.old ≡ 2 * length a.now }
        ensures a { result.a.now ≡ a.now }
        ensures b { result.b.now ≡ b.now }
    {
        let (a_star, b_words) = words.split_at_mut(a.len());
        // `b_words` holds a meanwhile.
        star(a, b_words, a_star);
        widen(b, b_words);
        Product {
            a,
            b,
            a_star,
            b_words,
        }
    }

    // Coefficient k of a*·b.
    pub(crate) fn at(&self, k: usize) -> i64
        ensures value { result ≡ coefficient_of (adjoint_of self.now.a.now) self.now.b.now k }
        ensures small { unsigned_abs result ≤ 16516096 }
    {
        coefficient(self.a_star, self.b_words, k)
    }
}
