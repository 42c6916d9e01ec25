// Products of elements, by the sum that defines them.
ghost use Rattle.std.specs.Prelude.{◌≡◌, [], ◌∷◌, map, length, OnErr};
ghost use Rattle.ring.specs.Calls.{length_test3};
ghost use Rattle.ring.specs.Elements.{crossed, coefficient as coefficient_of, product as product_of};
ghost use Rattle.ring.specs.Faults.{Answers, ring_fault};
ghost use Rattle.ring.specs.Kinds.{rest, values};

use crate::class::Class;
use crate::fault::RingFault;
use crate::kind::Coefficient;

// The sum of a_i · b_j over i + j = m − 1, where b has m numbers.
fn cross<K: Coefficient>(a: &[K], b: &[K]) -> K
    ensures { K.residue result ≡ rest K.modulus (crossed (values K.residue a.now) (values K.residue b.now)) }
{
    let mut sum = K::ZERO;
    for (x, y) in a.iter().zip(b.iter().rev()) {
        sum = sum.plus(x.times(*y));
    }
    sum
}

// Coefficient k of a·b: the sum of a_i · b_j over i + j = k, less the sum over i + j = k + n.
// Of lists of any lengths it answers that sum over the numbers that are there.
pub fn coefficient<K: Coefficient>(a: &[K], b: &[K], k: usize) -> K
    ensures { K.residue result ≡ rest K.modulus (coefficient_of (values K.residue a.now) (values K.residue b.now) k) }
{
    let count = k.saturating_add(1);
    let (a_low, a_high) = a.split_at(count.min(a.len()));
    let (b_low, b_high) = b.split_at(count.min(b.len()));
    let straight = cross(a_low, b_low);
    let around = cross(a_high, b_high);
    straight.plus(around.negated())
}

pub fn product<K: Coefficient>(a: &[K], b: &[K], out: &mut [K]) -> Result<(), RingFault>
    ensures answer { Answers ring_fault (length_test3 (length a.now) (length b.now) (length out.old) ∷ []) (λ _. map K.residue out.new ≡ map (rest K.modulus) (product_of (values K.residue a.now) (values K.residue b.now))) result }
    ensures kept { OnErr result (out.new ≡ out.old) }
{
    if Class::with_size(a.len()).is_none() || b.len() != a.len() || out.len() != a.len() {
        return Err(RingFault::Length);
    }
    for (k, z) in out.iter_mut().enumerate() {
        *z = coefficient(a, b, k);
    }
    Ok(())
}
