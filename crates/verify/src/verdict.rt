// The verdict: the tests in their order, and N.
ghost use Rattle.std.specs.Prelude.{◌≡◌, ◌*◌, true, false, length, replicate, pos, MatchOption};
ghost use Rattle.ring.specs.Classes.{size_of, bound_of};
ghost use Rattle.ring.specs.Faults.{Answers};
ghost use Rattle.scheme.specs.Keys.{all_within};
ghost use Rattle.scheme.specs.Pairs.{pair, up_to};
ghost use Rattle.scheme.specs.Refusals.{check_fault};
ghost use Rattle.scheme.specs.Verdicts.{signature_limit, length_under, point_of, verdict_tests, verify_sizes, verify_tests};
ghost use Rattle.key.specs.Gramheld.{gram_of};
ghost use Rattle.verify.specs.Meanings.{LimitsHarmless, Meant};

use crate::image::length_under;
use crate::point::{Point, leads_positive, write_point};
use key::{Form, Guard};
use ring::Class;
use scheme::{CheckFault, all_within};

// The largest number of a signature in size.
const SIGNATURE_LIMIT: u32 = 524_287;

// N, where it is from 0 to L.
fn within_bound(length: i64, class: Class) -> Option<u32>
    ensures { MatchOption result (up_to (bound_of class) length ≡ false) (λ N. (up_to (bound_of class) length ≡ true) × (length ≡ pos N)) }
{
    u32::try_from(length)
        .ok()
        .filter(|count| *count <= class.bound())
}

// The verdict on v; the form's rows are written over 2n words.
fn verdict_on(form: &Form, v: &Point, rows: &mut [i64]) -> Result<u32, CheckFault>
    requires v_long { length v.now.v0.now ≡ size_of form.now.class }
    requires rows_long { length rows.old ≡ 2 * size_of form.now.class }
    ensures { Answers check_fault (verdict_tests form.now.class (gram_of form.now) (pair v.now.v0.now v.now.v1.now)) (λ N. length_under (gram_of form.now) (pair v.now.v0.now v.now.v1.now) ≡ pos N) result }
{
    let sum = length_under(form, v, rows).ok_or(CheckFault::Bound)?;
    let length = within_bound(sum, form.class()).ok_or(CheckFault::Bound)?;
    if !leads_positive(v.v1) {
        return Err(CheckFault::Sign);
    }
    Ok(length)
}

// The verdict on a signature whose numbers keep their limit. Form, hash, signature and words go on as the call lends them.
fn judged(form: &Form, hash: &[u8], signature: &[i32], words: &mut [i64]) -> Result<u32, CheckFault>
    requires signature { length signature.now ≡ 2 * size_of form.now.class }
    requires words { length words.old ≡ 4 * size_of form.now.class }
    requires range { all_within signature_limit signature.now ≡ true }
    ensures { Answers check_fault (verdict_tests form.now.class (gram_of form.now) (point_of (size_of form.now.class) hash.now signature.now)) (λ N. length_under (gram_of form.now) (point_of (size_of form.now.class) hash.now signature.now) ≡ pos N) result }
{
    let n = form.class().size();
    let (s0, s1) = signature.split_at(n);
    let (v0, rest) = words.split_at_mut(n);
    let (v1, rows) = rest.split_at_mut(n);
    write_point(hash, 0, s0, v0);
    write_point(hash, n, s1, v1);
    verdict_on(form, &Point { v0, v1 }, rows)
}

// Whether hash, signature and scratch have the lengths of the form's class.
fn sizes_fit(form: &Form, hash: &[u8], signature: &[i32], words: usize) -> bool
    ensures { result ≡ (verify_sizes form.now.class hash.now signature.now words).passes }
{
    let class = form.class();
    let n = class.size();
    hash.len() == class.hash_length() && signature.len() == 2 * n && words == 4 * n
}

// N, where the signature is accepted; otherwise the refusal of the first test that fails. The scratch is zero
// afterwards. `limits` and `issued` say what the verdict means for the keys that have the form.
pub fn verify(
    form: &Form,
    hash: &[u8],
    signature: &[i32],
    scratch: &mut [i64],
) -> Result<u32, CheckFault>
    ensures verdict { Answers check_fault (verify_tests form.now.class (gram_of form.now) hash.now signature.now (length scratch.old)) (λ N. length_under (gram_of form.now) (point_of (size_of form.now.class) hash.now signature.now) ≡ pos N) result }
    ensures wiped { scratch.new ≡ replicate (length scratch.old) (pos 0) }
    ensures limits { LimitsHarmless form.now.class (gram_of form.now) hash.now signature.now }
    ensures issued { Meant form.now.class (gram_of form.now) hash.now signature.now (length scratch.old) result }
{
    // The guard wipes the scratch.
    let guard = Guard { words: scratch };
    if !sizes_fit(form, hash, signature, guard.words.len()) {
        return Err(CheckFault::Length);
    }
    if !all_within(SIGNATURE_LIMIT, signature) {
        return Err(CheckFault::Range);
    }
    judged(form, hash, signature, guard.words)
}
