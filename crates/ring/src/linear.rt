// Sums and adjoints of elements. Each call is written out: of one that was passed in, the clause could not say what it
// works out.
ghost use Rattle.std.specs.Prelude.{◌≡◌, ◌<◌, [], ◌∷◌, map, length, pos, OnErr, slice_index_or};
ghost use Rattle.ring.specs.Calls.{length_test2, length_test3};
ghost use Rattle.ring.specs.Elements.{sum as sum_of, adjoint as adjoint_of};
ghost use Rattle.ring.specs.Faults.{Answers, ring_fault};
ghost use Rattle.ring.specs.Kinds.{rest, values};

use crate::class::Class;
use crate::fault::RingFault;
use crate::kind::Coefficient;

// out_i = a_i + b_i.
pub fn sum<K: Coefficient>(a: &[K], b: &[K], out: &mut [K]) -> Result<(), RingFault>
    ensures answer { Answers ring_fault (length_test3 (length a.now) (length b.now) (length out.old) ∷ []) (λ _. map K.residue out.new ≡ map (rest K.modulus) (sum_of (values K.residue a.now) (values K.residue b.now))) result }
    ensures kept { OnErr result (out.new ≡ out.old) }
{
    if Class::with_size(a.len()).is_none() || b.len() != a.len() || out.len() != a.len() {
        return Err(RingFault::Length);
    }
    // After a loop over `out.iter_mut().zip(..)` nothing is known of what was written.
    for (i, x) in a.iter().enumerate() {
        out[i] = x.plus(b[i]);
    }
    Ok(())
}

// out_0 = a_0 and out_i = −a_(n−i).
pub fn adjoint<K: Coefficient>(a: &[K], out: &mut [K]) -> Result<(), RingFault>
    ensures answer { Answers ring_fault (length_test2 (length a.now) (length out.old) ∷ []) (λ _. map K.residue out.new ≡ map (rest K.modulus) (adjoint_of (values K.residue a.now))) result }
    ensures kept { OnErr result (out.new ≡ out.old) }
{
    if Class::with_size(a.len()).is_none() || out.len() != a.len() {
        return Err(RingFault::Length);
    }
    for (i, z) in out.iter_mut().enumerate() {
        *z = adjoint_at(a, i);
    }
    Ok(())
}

// Coefficient i of the adjoint.
fn adjoint_at<K: Coefficient>(a: &[K], i: usize) -> K
    requires { i < length a.now }
    ensures { K.residue result ≡ rest K.modulus (slice_index_or (adjoint_of (values K.residue a.now)) i (pos 0)) }
{
    if i == 0 {
        a[0]
    } else {
        a[a.len() - i].negated()
    }
}
