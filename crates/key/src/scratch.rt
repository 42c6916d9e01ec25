// The guard of lent scratch: whatever way a call ends, the numbers are zero afterwards.
ghost use Rattle.std.specs.Prelude.{◌≡◌, length, replicate};

use ring::Coefficient;

// That they are zero is said by each call again: no type speaks of lent numbers after the call.
pub struct Guard<'a, K: Coefficient> {
    pub words: &'a mut [K],
}

impl<K: Coefficient> Drop for Guard<'_, K> {
    fn drop(self)
        ensures { self.exit.0.now ≡ replicate (length self.entry.words.now) K.ZERO }
    {
        // `fill` asks for a clone that cannot fail, and a kind does not say so of its numbers.
        for word in self.words.iter_mut() {
            *word = K::ZERO;
        }
        let Guard { words: _ } = self;
    }
}
