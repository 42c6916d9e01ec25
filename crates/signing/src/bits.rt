// Numbers modulo 2.
ghost use Rattle.std.specs.Prelude.{◌≡◌, ◌+◌, ◌^◌, ◌<◌, map, length};
ghost use Rattle.std.specs.List.{range_with_len};
ghost use Rattle.ring.specs.Kinds.{rest, values, bit_value};
ghost use Rattle.scheme.specs.Hashes.{hash_bit};
ghost use Rattle.signing.specs.Rows.{BitsOf};

use ring::{Bit, Number};
use scheme::hash_bit;

// Memory for two elements of the largest class: no heap.
pub(crate) type Bits = [Bit; 2048];

// A number modulo 2: −1 gives 1.
pub(crate) fn parity<S: Number>(number: S) -> Bit
    ensures { bit_value result ≡ rest 2 (S.value number) }
{
    Bit(number.word().rem_euclid(2) == 1)
}

// The numbers of an element of a key modulo 2.
pub(crate) fn element_bits(numbers: &[i8], bits: &mut [Bit])
    requires { length bits.old ≡ length numbers.now }
    ensures { BitsOf bits.new numbers.now }
{
    // By place: of what a zip with `iter_mut` wrote, a proof learns nothing.
    for (i, bit) in bits.iter_mut().enumerate() {
        *bit = parity(numbers[i]);
    }
}

// As many bits of a hash as there is room, from a place on.
pub(crate) fn hash_bits(hash: &[u8], from: usize, bits: &mut [Bit])
    requires { from + length bits.old < 2 ^ 64 }
    ensures { values bit_value bits.new ≡ map (hash_bit hash.now) (range_with_len from (length bits.old)) }
{
    for (i, bit) in bits.iter_mut().enumerate() {
        *bit = Bit(hash_bit(hash, from + i) == 1);
    }
}
