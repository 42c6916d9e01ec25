// Fixed memory for the numbers of an element.
ghost use Rattle.std.specs.Prelude.{◌≡◌, length, replicate, slice_set};
ghost use Rattle.ring.specs.Classes.{size_of};
ghost use Rattle.key.specs.Stored.{front, room_of};

use ring::{Class, filled};

// A constant, as an element.
pub(crate) fn constant<T: Copy>(zero: T, c: T) -> [T; 1024]
    ensures { result ≡ slice_set (replicate room_of zero) 0 c }
{
    let mut numbers = filled(zero);
    numbers[0] = c;
    numbers
}

// The numbers that an element of the class uses.
pub(crate) fn used<T>(memory: &[T], class: Class) -> &[T]
    requires { length memory.now ≡ room_of }
    ensures value { result.now ≡ front class memory.now }
    ensures len { length result.now ≡ size_of class }
{
    &memory[0..class.size()]
}
