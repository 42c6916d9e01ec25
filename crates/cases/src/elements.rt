// Cases of the ring: products, sums, adjoints and turned strips, of words and of bits.
ghost use Rattle.std.specs.Prelude.{◌≡◌, ℕ, [], ◌∷◌, List, map, length, pos, Some, vec_items, slice_index_or};
ghost use Rattle.std.specs.List.{flat_map};
ghost use Rattle.ring.specs.Calls.{length_test1, range_test};
ghost use Rattle.ring.specs.Elements.{turned as turned_of};
ghost use Rattle.ring.specs.Faults.{Answers, ring_fault};
ghost use Rattle.ring.specs.Kinds.{rest, values};
ghost use Rattle.cases.specs.Stops.{Gives};
ghost use Rattle.cases.specs.Texts.{bytes_text, answered_text};
ghost use Rattle.cases.specs.Rings.{word_bytes, bit_bytes, product_text, sum_text, adjoint_text, turned_text, coefficient_text, element_outcome, ring_outcome};
ghost use Rattle.cases.specs.Packed.{unpacked};
ghost use Rattle.std.proofs.Common.{rules};

use crate::case::Case;
use crate::outcomes::{faulted, ok_bytes};
use crate::packed::{Packed, bytes_of};
use crate::stop::Stop;
use ring::{Bit, Coefficient, RingFault, Turned};
use std::alloc::Global;

// A kind of number whose bytes are those of its residue.
pub(crate) trait Element: Coefficient + Packed {
    // What a list lent for the result holds before the call.
    const LENT: Self;

    ghost residue_bytes: { ℕ → List ℕ };

    ghost same: { (x : Self) → Self.packed x ≡ residue_bytes (Self.residue x) };
}

impl Element for i64 {
    const LENT: i64 = 7;

    ghost residue_bytes = { word_bytes };

    ghost same = { Prim.search rules };
}

impl Element for Bit {
    const LENT: Bit = Bit(true);

    ghost residue_bytes = { bit_bytes };

    ghost same = { Prim.search rules };
}

// What a call wrote, or its refusal.
fn written<K: Element>(
    heap: Global,
    answer: Result<(), RingFault>,
    out: &[K],
) -> Result<Vec<u8>, Stop>
    ensures { Gives vec_items (Some (answered_text ring_fault (bytes_text (flat_map K.packed out.now)) answer)) result }
{
    match answer {
        Ok(()) => ok_bytes(heap, bytes_of(heap, out)?.as_slice()),
        Err(fault) => faulted(heap, fault.into()),
    }
}

// A function for each verb: of a call that was passed in, the clause could not say what it works out.
fn product<K: Element>(heap: Global, a: &[K], b: &[K]) -> Result<Vec<u8>, Stop>
    ensures { Gives vec_items (Some (product_text K.modulus K.residue_bytes (values K.residue a.now) (values K.residue b.now))) result }
{
    let mut out = vec![in heap; K::LENT; a.len()]?;
    let answer = ring::product(a, b, out.as_mut_slice());
    written(heap, answer, out.as_slice())
}

fn sum<K: Element>(heap: Global, a: &[K], b: &[K]) -> Result<Vec<u8>, Stop>
    ensures { Gives vec_items (Some (sum_text K.modulus K.residue_bytes (values K.residue a.now) (values K.residue b.now))) result }
{
    let mut out = vec![in heap; K::LENT; a.len()]?;
    let answer = ring::sum(a, b, out.as_mut_slice());
    written(heap, answer, out.as_slice())
}

fn adjoint<K: Element>(heap: Global, a: &[K]) -> Result<Vec<u8>, Stop>
    ensures { Gives vec_items (Some (adjoint_text K.modulus K.residue_bytes (values K.residue a.now))) result }
{
    let mut out = vec![in heap; K::LENT; a.len()]?;
    let answer = ring::adjoint(a, out.as_mut_slice());
    written(heap, answer, out.as_slice())
}

// The whole of X^k · a.
fn turn<K: Coefficient>(a: &[K], k: usize, out: &mut [K]) -> Result<(), RingFault>
    requires { length out.old ≡ length a.now }
    ensures { Answers ring_fault (length_test1 (length a.now) ∷ range_test (length a.now) k ∷ []) (λ _. map K.residue out.new ≡ map (rest K.modulus) (turned_of k (values K.residue a.now))) result }
{
    let strip = Turned::new(a, k)?;
    for (i, x) in out.iter_mut().enumerate() {
        *x = strip.at(i)?;
    }
    Ok(())
}

// Coefficient i of X^k · a.
fn coefficient<K: Coefficient>(a: &[K], k: usize, i: usize) -> Result<K, RingFault>
    ensures { Answers ring_fault (length_test1 (length a.now) ∷ range_test (length a.now) k ∷ range_test (length a.now) i ∷ []) (λ x. K.residue x ≡ rest K.modulus (slice_index_or (turned_of k (values K.residue a.now)) i (pos 0))) result }
{
    Turned::new(a, k)?.at(i)
}

fn turned<K: Element>(heap: Global, a: &[K], k: usize) -> Result<Vec<u8>, Stop>
    ensures { Gives vec_items (Some (turned_text K.modulus K.residue_bytes (values K.residue a.now) k)) result }
{
    let mut out = vec![in heap; K::LENT; a.len()]?;
    let answer = turn(a, k, out.as_mut_slice());
    written(heap, answer, out.as_slice())
}

fn turned_at<K: Element>(heap: Global, a: &[K], k: usize, i: usize) -> Result<Vec<u8>, Stop>
    ensures { Gives vec_items (Some (coefficient_text K.modulus K.residue_bytes (values K.residue a.now) k i)) result }
{
    match coefficient(a, k, i) {
        Ok(x) => ok_bytes(heap, bytes_of(heap, &[x])?.as_slice()),
        Err(fault) => faulted(heap, fault.into()),
    }
}

// A case of one kind of number.
fn of_kind<K: Element>(heap: Global, case: &Case) -> Result<Vec<u8>, Stop>
    ensures { Gives vec_items (element_outcome K.modulus K.residue_bytes (λ bytes. values K.residue (unpacked K.WIDTH K.read bytes)) case.now.verb.now case.now.fields.now) result }
{
    let a = case.numbers::<K>(heap, "a")?;
    match case.verb {
        "product" => {
            let b = case.numbers::<K>(heap, "b")?;
            product(heap, a.as_slice(), b.as_slice())
        }
        "sum" => {
            let b = case.numbers::<K>(heap, "b")?;
            sum(heap, a.as_slice(), b.as_slice())
        }
        "adjoint" => adjoint(heap, a.as_slice()),
        "turned" => turned(heap, a.as_slice(), case.number("k")?),
        "turned-at" => turned_at(heap, a.as_slice(), case.number("k")?, case.number("i")?),
        _ => Err(Stop::Unreadable),
    }
}

// Every kind but `word` stands for bits.
pub(crate) fn run(heap: Global, case: &Case) -> Result<Vec<u8>, Stop>
    ensures { Gives vec_items (ring_outcome case.now.verb.now case.now.fields.now) result }
{
    match case.field("kind")? {
        b"word" => of_kind::<i64>(heap, case),
        _ => of_kind::<Bit>(heap, case),
    }
}
