// The target of a hash under a key: B·h modulo 2.
ghost use Rattle.std.specs.Prelude.{◌≡◌, ◌*◌, ◌≤◌, [], ◌∷◌, map, length, replicate, pos, OnErr};
ghost use Rattle.ring.specs.Classes.{size_of};
ghost use Rattle.ring.specs.Faults.{Answers};
ghost use Rattle.ring.specs.Kinds.{values, bit_value};
ghost use Rattle.scheme.specs.Hashes.{hash_pair};
ghost use Rattle.scheme.specs.Refusals.{session_fault};
ghost use Rattle.scheme.specs.Signing.{target_of};
ghost use Rattle.key.specs.Held.{basis_of};
ghost use Rattle.signing.specs.Rows.{BitsOf, joined};
ghost use Rattle.signing.specs.Sizes.{target_sizes};

use crate::bits::{Bits, element_bits, hash_bits};
use key::{Guard, Key};
use ring::{Bit, Coefficient, coefficient, filled};
use scheme::SessionFault;

// One row (a, b) of the basis times two elements in bits: a·x + b·y modulo 2.
fn row_bits(a: &[i8], b: &[i8], x: &[Bit], y: &[Bit], bits: &mut [Bit])
    requires in_a { length a.now ≡ length bits.old }
    requires in_b { length b.now ≡ length bits.old }
    requires few { length bits.old ≤ 1024 }
    ensures { BitsOf bits.new (joined a.now b.now (values bit_value x.now) (values bit_value y.now)) }
{
    let n = bits.len();
    let mut memory: Bits = filled(Bit::ZERO);
    let guard = Guard {
        words: &mut memory[..2 * n],
    };
    let (a_bits, b_bits) = guard.words.split_at_mut(n);
    element_bits(a, a_bits);
    element_bits(b, b_bits);
    for (k, bit) in bits.iter_mut().enumerate() {
        *bit = coefficient(a_bits, x, k).plus(coefficient(b_bits, y, k));
    }
}

// The 2n bits of the target.
pub(crate) fn target_bits(key: &Key, hash: &[u8], bits: &mut [Bit])
    requires { length bits.old ≡ 2 * size_of key.now.class }
    ensures { map bit_value bits.new ≡ target_of (basis_of key.now) (hash_pair (size_of key.now.class) hash.now) }
{
    let n = key.class().size();
    let mut memory: Bits = filled(Bit::ZERO);
    // A hash is no secret, so that no guard is needed.
    let (x, y) = memory[..2 * n].split_at_mut(n);
    hash_bits(hash, 0, x);
    hash_bits(hash, n, y);
    let (first, second) = bits.split_at_mut(n);
    row_bits(key.f(), key.cap_f(), x, y, first);
    row_bits(key.g(), key.cap_g(), x, y, second);
}

// Bits as bytes 0 or 1.
fn write_bytes(bits: &[Bit], area: &mut [u8])
    requires { length area.old ≡ length bits.now }
    ensures { area.new ≡ map bit_value bits.now }
{
    // By place: of what a zip with `iter_mut` wrote, a proof learns nothing.
    for (i, byte) in area.iter_mut().enumerate() {
        *byte = u8::from(bits[i].0);
    }
}

// The target in an area of 2n bytes.
fn write_rows(key: &Key, hash: &[u8], area: &mut [u8])
    requires { length area.old ≡ 2 * size_of key.now.class }
    ensures { area.new ≡ target_of (basis_of key.now) (hash_pair (size_of key.now.class) hash.now) }
{
    let n = key.class().size();
    let mut memory: Bits = filled(Bit::ZERO);
    let guard = Guard {
        words: &mut memory[..2 * n],
    };
    target_bits(key, hash, guard.words);
    write_bytes(guard.words, area);
}

// Writes t = B·h modulo 2 as 2n bytes 0 or 1, or refuses and leaves the area.
pub fn write_target(
    key: &Key,
    hash: &[u8],
    area: &mut [u8],
    scratch: &mut [i64],
) -> Result<(), SessionFault>
    ensures answer { Answers session_fault (target_sizes key.now.class (length hash.now) (length area.old) (length scratch.old) ∷ []) (λ _. area.new ≡ target_of (basis_of key.now) (hash_pair (size_of key.now.class) hash.now)) result }
    ensures kept { OnErr result (area.new ≡ area.old) }
    ensures wiped { scratch.new ≡ replicate (length scratch.old) (pos 0) }
{
    let guard = Guard { words: scratch };
    let class = key.class();
    let n = class.size();
    if hash.len() != class.hash_length() || area.len() != 2 * n || guard.words.len() != 4 * n {
        return Err(SessionFault::Length);
    }
    write_rows(key, hash, area);
    Ok(())
}
