// The signature of a sample.
ghost use Rattle.std.specs.Prelude.{◌≡◌, [], ◌∷◌, length, replicate, pos, OnErr};
ghost use Rattle.ring.specs.Classes.{size_of};
ghost use Rattle.ring.specs.Faults.{Answers};
ghost use Rattle.scheme.specs.Hashes.{hash_pair};
ghost use Rattle.scheme.specs.Pairs.{pair, pair_from};
ghost use Rattle.scheme.specs.Refusals.{session_fault};
ghost use Rattle.scheme.specs.Signing.{length_of};
ghost use Rattle.scheme.specs.Steps.{sample_tests};
ghost use Rattle.key.specs.Held.{basis_of};
ghost use Rattle.signing.specs.Samples.{zero_test, ShortPair, ShortSample, Signed, SizedSample};
ghost use Rattle.signing.specs.Sizes.{sign_sizes};

use crate::half::Half;
use crate::rows::Row;
use crate::sample::{in_coset, squared_length};
use key::{Guard, Key};
use ring::widen;
use scheme::SessionFault;

// The signature of the sample (x0, x1): G·x0 − F·x1 gives the first half, f·x1 − g·x0 the second and the
// sign. Answers whether the sign changed. `words` holds two elements of the key meanwhile. Key, hash and
// areas go on one by one, as the call lends them.
fn sign_pair(
    key: &Key,
    hash: &[u8],
    x0: &[i64],
    x1: &[i64],
    area: &mut [i32],
    words: &mut [i64],
) -> Result<bool, SessionFault>
    requires { ShortPair key.now.class x0.now x1.now area.old words.old }
    ensures answer { Answers session_fault (zero_test (basis_of key.now) (pair x0.now x1.now) ∷ []) (λ changed. Signed (basis_of key.now) (hash_pair (size_of key.now.class) hash.now) (pair x0.now x1.now) changed area.new) result }
    ensures kept { OnErr result (area.new ≡ area.old) }
{
    let n = key.class().size();
    let f = key.f();
    let g = key.g();
    let cap_f = key.cap_f();
    let cap_g = key.cap_g();
    let v1 = Row::new(f, g, x1, x0, words);
    let Some(leader) = v1.leader() else {
        return Err(SessionFault::Zero);
    };
    let changed = leader < 0;
    let (s0, s1) = area.split_at_mut(n);
    let second = Half {
        hash,
        from: n,
        changed,
    };
    second.write(&v1, s1);
    let v0 = Row::new(cap_g, cap_f, x0, x1, words);
    let first = Half { from: 0, ..second };
    first.write(&v0, s0);
    Ok(changed)
}

// The signature of a sample within its bound; whether the sign changed.
fn sign_short(
    key: &Key,
    hash: &[u8],
    sample: &[i16],
    area: &mut [i32],
    words: &mut [i64],
) -> Result<bool, SessionFault>
    requires { ShortSample key.now.class sample.now area.old words.old }
    ensures answer { Answers session_fault (zero_test (basis_of key.now) (pair_from (size_of key.now.class) sample.now) ∷ []) (λ changed. Signed (basis_of key.now) (hash_pair (size_of key.now.class) hash.now) (pair_from (size_of key.now.class) sample.now) changed area.new) result }
    ensures kept { OnErr result (area.new ≡ area.old) }
{
    let n = key.class().size();
    let (x0, rest) = words.split_at_mut(n);
    let (x1, row) = rest.split_at_mut(n);
    let (first, second) = sample.split_at(n);
    widen(first, x0);
    widen(second, x1);
    sign_pair(key, hash, x0, x1, area, row)
}

// The signature of a sample where all lengths are right; the squared length, and whether the sign changed.
fn sign_sized(
    key: &Key,
    hash: &[u8],
    sample: &[i16],
    area: &mut [i32],
    words: &mut [i64],
) -> Result<(u32, bool), SessionFault>
    requires { SizedSample key.now.class sample.now area.old words.old }
    ensures answer { Answers session_fault (sample_tests key.now.class (basis_of key.now) (hash_pair (size_of key.now.class) hash.now) (pair_from (size_of key.now.class) sample.now)) (λ a. (a.0 ≡ length_of (pair_from (size_of key.now.class) sample.now)) × Signed (basis_of key.now) (hash_pair (size_of key.now.class) hash.now) (pair_from (size_of key.now.class) sample.now) a.1 area.new) result }
    ensures kept { OnErr result (area.new ≡ area.old) }
{
    if !in_coset(key, hash, sample) {
        return Err(SessionFault::Coset);
    }
    let squares = squared_length(sample);
    if squares > u64::from(key.class().bound()) {
        return Err(SessionFault::Bound);
    }
    let changed = sign_short(key, hash, sample, area, words)?;
    Ok((squares as u32, changed))
}

// Writes the signature of a sample, or refuses and leaves the area. Answers the squared length of the
// sample, and whether the sign changed.
pub fn sign_sample(
    key: &Key,
    hash: &[u8],
    sample: &[i16],
    area: &mut [i32],
    scratch: &mut [i64],
) -> Result<(u32, bool), SessionFault>
    ensures answer { Answers session_fault (sign_sizes key.now.class (length hash.now) (length sample.now) (length area.old) (length scratch.old) ∷ sample_tests key.now.class (basis_of key.now) (hash_pair (size_of key.now.class) hash.now) (pair_from (size_of key.now.class) sample.now)) (λ a. (a.0 ≡ length_of (pair_from (size_of key.now.class) sample.now)) × Signed (basis_of key.now) (hash_pair (size_of key.now.class) hash.now) (pair_from (size_of key.now.class) sample.now) a.1 area.new) result }
    ensures kept { OnErr result (area.new ≡ area.old) }
    ensures wiped { scratch.new ≡ replicate (length scratch.old) (pos 0) }
{
    let guard = Guard { words: scratch };
    let class = key.class();
    let n = class.size();
    if hash.len() != class.hash_length()
        || sample.len() != 2 * n
        || area.len() != 2 * n
        || guard.words.len() != 4 * n
    {
        return Err(SessionFault::Length);
    }
    sign_sized(key, hash, sample, area, guard.words)
}
