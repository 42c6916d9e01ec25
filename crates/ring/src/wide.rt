// Narrower signed numbers as words.
ghost use Rattle.std.specs.Prelude.{◌≡◌, map, ℤ};
ghost use Rattle.ring.specs.Wide.{over};

// A signed number of at most 64 bits.
pub trait Number: Copy {
    ghost value: { Self → ℤ };

    fn word(self) -> i64
        ensures { result ≡ value self };
}

impl Number for i8 {
    ghost value = { λ x. x };

    fn word(self) -> i64 {
        i64::from(self)
    }
}

impl Number for i16 {
    ghost value = { λ x. x };

    fn word(self) -> i64 {
        i64::from(self)
    }
}

impl Number for i32 {
    ghost value = { λ x. x };

    fn word(self) -> i64 {
        i64::from(self)
    }
}

impl Number for i64 {
    ghost value = { λ x. x };

    fn word(self) -> i64 {
        self
    }
}

// Writes the numbers over the front of the words, as far as there is room.
pub fn widen<S: Number>(numbers: &[S], words: &mut [i64])
    ensures { words.new ≡ over (map S.value numbers.now) words.old }
{
    // After a loop over `words.iter_mut().zip(..)` nothing is known of what was written.
    let room = numbers.len().min(words.len());
    for (i, number) in numbers[..room].iter().enumerate() {
        words[i] = number.word();
    }
}
