// The four elements of a key as words, and what their sums and their determinant are tested for.
ghost use Rattle.std.specs.Prelude.{◌≡◌, ◌*◌, ◌<◌, ◌≤◌, true, not, length, pos, MatchOption, slice_index_or};
ghost use Rattle.ring.specs.Elements.{total};
ghost use Rattle.ring.specs.Faults.{Answers};
ghost use Rattle.scheme.specs.Pairs.{is_zero};
ghost use Rattle.scheme.specs.Keys.{basis, all_within, odd, determinant, key_limit};
ghost use Rattle.std.specs.List.{prefix_len};
ghost use Rattle.key.specs.Stored.{room_of};
ghost use Rattle.key.specs.Words.{SmallWords, FourWords};

use crate::fault::KeyFault;
use ring::{coefficient, widen};

// f, g, F and G, of one length.
#[derive(Clone, Copy)]
pub(crate) struct Words<'a> {
    f: &'a [i64],
    g: &'a [i64],
    cap_f: &'a [i64],
    cap_g: &'a [i64],
    ghost few: { length f.now ≤ room_of },
    ghost long_g: { length g.now ≡ length f.now },
    ghost long_cap_f: { length cap_f.now ≡ length f.now },
    ghost long_cap_g: { length cap_g.now ≡ length f.now },
    ghost small_f: { all_within key_limit f.now ≡ true },
    ghost small_g: { all_within key_limit g.now ≡ true },
    ghost small_cap_f: { all_within key_limit cap_f.now ≡ true },
    ghost small_cap_g: { all_within key_limit cap_g.now ≡ true },
}

// Whether the sum of the numbers is odd.
fn odd_sum(numbers: &[i64]) -> bool
    requires { SmallWords numbers.now }
    ensures { result ≡ odd (total numbers.now) }
{
    let mut sum = 0;
    // The sum of signed numbers in a chain leaves its bound open.
    for x in numbers {
        sum += *x;
    }
    sum.rem_euclid(2) == 1
}

impl<'a> Words<'a> {
    ghost use Rattle.key.specs.Fours.{basis_as};
    ghost use Rattle.key.specs.Loading.{excess, sound_tests};
    ghost use Rattle.key.specs.Refusals.{key_fault};

    // The four elements over 4n lent words.
    pub(crate) fn new(
        f: &[i8],
        g: &[i8],
        cap_f: &[i8],
        cap_g: &[i8],
        words: &'a mut [i64],
    ) -> Words<'a>
        requires elements { FourWords f.now g.now cap_f.now cap_g.now }
        requires long { length words.old ≡ 4 * length f.now }
        ensures { basis_as result ≡ basis f.now g.now cap_f.now cap_g.now }
    {
        let n = f.len();
        let (f_words, rest) = words.split_at_mut(n);
        let (g_words, rest) = rest.split_at_mut(n);
        let (cap_f_words, cap_g_words) = rest.split_at_mut(n);
        widen(f, f_words);
        widen(g, g_words);
        widen(cap_f, cap_f_words);
        widen(cap_g, cap_g_words);
        Words {
            f: f_words,
            g: g_words,
            cap_f: cap_f_words,
            cap_g: cap_g_words,
        }
    }

    // Coefficient k of f·G − g·F. A row of a signature has its own, with other bounds in its type.
    fn determinant_at(&self, k: usize) -> i64
        requires { k < length self.now.f.now }
        ensures { result ≡ slice_index_or (determinant (basis_as self.now)) k (pos 0) }
    {
        coefficient(self.f, self.cap_g, k) - coefficient(self.g, self.cap_f, k)
    }

    // Whether coefficient k of f·G − g·F differs from that of 1.
    fn is_wrong(&self, k: usize) -> bool
        requires { k < length self.now.f.now }
        ensures { result ≡ not (is_zero (slice_index_or (excess (length self.now.f.now) (basis_as self.now)) k (pos 0))) }
    {
        self.determinant_at(k) != i64::from(k == 0)
    }

    // The power of the first coefficient in which f·G − g·F differs from 1.
    fn first_wrong(&self) -> Option<usize>
        ensures { MatchOption result (prefix_len is_zero (excess (length self.now.f.now) (basis_as self.now)) ≡ length self.now.f.now) (λ k. (k ≡ prefix_len is_zero (excess (length self.now.f.now) (basis_as self.now))) × (k < length self.now.f.now)) }
    {
        (0..self.f.len()).find(|k| self.is_wrong(*k))
    }

    // Odd sums, and determinant one.
    pub(crate) fn sound(&self) -> Result<(), KeyFault>
        ensures { Answers key_fault (sound_tests (length self.now.f.now) (basis_as self.now)) (λ _. Unit {0}) result }
    {
        if !odd_sum(self.f) {
            return Err(KeyFault::EvenF);
        }
        if !odd_sum(self.g) {
            return Err(KeyFault::EvenG);
        }
        match self.first_wrong() {
            Some(power) => Err(KeyFault::Determinant(power)),
            None => Ok(()),
        }
    }
}
