// The first tests of a sample.
ghost use Rattle.std.specs.Prelude.{◌≡◌, ◌*◌, ◌^◌, ◌≤◌, map, length, unsigned_abs};
ghost use Rattle.std.specs.Str.{bytes_eq};
ghost use Rattle.ring.specs.Classes.{size_of};
ghost use Rattle.ring.specs.Elements.{dot};
ghost use Rattle.ring.specs.Kinds.{rest, bit_value};
ghost use Rattle.scheme.specs.Hashes.{hash_pair};
ghost use Rattle.scheme.specs.Pairs.{pair_from, parities};
ghost use Rattle.scheme.specs.Signing.{target_of};
ghost use Rattle.key.specs.Held.{basis_of};

use crate::bits::{Bits, parity};
use crate::target::target_bits;
use key::{Guard, Key};
use ring::{Bit, Coefficient, filled};

// Whether the numbers modulo 2 are these bits.
fn agree(sample: &[i16], bits: &[Bit]) -> bool
    requires { length bits.now ≡ length sample.now }
    ensures { result ≡ bytes_eq (map (rest 2) sample.now) (map bit_value bits.now) }
{
    sample
        .iter()
        .zip(bits)
        .all(|(number, bit)| parity(*number) == *bit)
}

// Whether the sample is B·h modulo 2.
pub(crate) fn in_coset(key: &Key, hash: &[u8], sample: &[i16]) -> bool
    requires { length sample.now ≡ 2 * size_of key.now.class }
    ensures { result ≡ bytes_eq (parities (pair_from (size_of key.now.class) sample.now)) (target_of (basis_of key.now) (hash_pair (size_of key.now.class) hash.now)) }
{
    let n = key.class().size();
    let mut memory: Bits = filled(Bit::ZERO);
    let guard = Guard {
        words: &mut memory[..2 * n],
    };
    target_bits(key, hash, guard.words);
    agree(sample, guard.words)
}

fn square(number: i16) -> u64
    ensures value { result ≡ unsigned_abs number * unsigned_abs number }
    ensures small { result ≤ 2 ^ 30 }
{
    let size = u64::from(number.unsigned_abs());
    size * size
}

// The sum of the squares.
pub(crate) fn squared_length(sample: &[i16]) -> u64
    requires { length sample.now ≤ 2048 }
    ensures { result ≡ unsigned_abs (dot sample.now sample.now) }
{
    sample.iter().map(|number| square(*number)).sum()
}
