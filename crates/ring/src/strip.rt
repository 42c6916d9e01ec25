// A strip turned by k reads X^k times an element out of lent numbers, without copying.
ghost use Rattle.std.specs.Prelude.{◌≡◌, [], ◌∷◌, length, pos, slice_index_or};
ghost use Rattle.ring.specs.Calls.{length_test1, range_test};
ghost use Rattle.ring.specs.Elements.{turned as turned_of};
ghost use Rattle.ring.specs.Faults.{Answers, ring_fault};
ghost use Rattle.ring.specs.Kinds.{rest, values};

use crate::class::Class;
use crate::fault::RingFault;
use crate::kind::Coefficient;

// That the turn is below n is no ghost field: a generic struct with one derives no `Clone`, and one
// by hand would be no plainer.
#[derive(Clone, Copy)]
pub struct Turned<'a, K> {
    numbers: &'a [K],
    turn: usize,
}

impl<'a, K: Coefficient> Turned<'a, K> {
    pub fn new(numbers: &'a [K], turn: usize) -> Result<Turned<'a, K>, RingFault>
        ensures { Answers ring_fault (length_test1 (length numbers.now) ∷ (range_test (length numbers.now) turn ∷ [])) (λ t. (t.numbers.now ≡ numbers.now) × (t.turn ≡ turn)) result }
    {
        if Class::with_size(numbers.len()).is_none() {
            return Err(RingFault::Length);
        }
        if turn >= numbers.len() {
            return Err(RingFault::Range);
        }
        Ok(Turned { numbers, turn })
    }

    // Coefficient i of X^k times the element.
    pub fn at(&self, i: usize) -> Result<K, RingFault>
        ensures { Answers ring_fault (range_test (length self.now.numbers.now) self.now.turn ∷ (range_test (length self.now.numbers.now) i ∷ [])) (λ x. K.residue x ≡ rest K.modulus (slice_index_or (turned_of self.now.turn (values K.residue self.now.numbers.now)) i (pos 0))) result }
    {
        let n = self.numbers.len();
        if self.turn >= n || i >= n {
            return Err(RingFault::Range);
        }
        if i < self.turn {
            Ok(self.numbers[n - (self.turn - i)].negated())
        } else {
            Ok(self.numbers[i - self.turn])
        }
    }
}
