// Cases of keys and forms: loading, making, writing, verifying, and what `measure` writes.
ghost use Rattle.std.specs.Prelude.{◌≡◌, [], ◌∷◌, length, replicate, pos, Some, vec_items, codes};
ghost use Rattle.ring.specs.Classes.{size_of};
ghost use Rattle.ring.specs.Faults.{first_failing};
ghost use Rattle.scheme.specs.Keys.{form_of};
ghost use Rattle.key.specs.Gramheld.{gram_of};
ghost use Rattle.key.specs.Held.{basis_of};
ghost use Rattle.key.specs.Loading.{Loaded, scratch_test};
ghost use Rattle.key.specs.Writing.{form_slip};
ghost use Rattle.cases.specs.Stops.{Gives};
ghost use Rattle.cases.specs.Texts.{outcome_or, bytes_text};
ghost use Rattle.cases.specs.Places.{Sound, sound_file, sound_at, key_at, load_text, slip_written_text, verify_text, load_outcome, write_outcome, make_form_outcome, verify_outcome, measure_outcome};

use crate::case::Case;
use crate::files::settled;
use crate::outcomes::{all_are, faulted, ok_number, plain};
use crate::place::Place;
use crate::stop::Stop;
use key::{Form, Key};
use std::alloc::Global;

// The outcome of a call that has left its scratch zero.
fn wiped(heap: Global, scratch: &[i64], outcome: Result<Vec<u8>, Stop>) -> Result<Vec<u8>, Stop>
    ensures { scratch.now ≡ replicate (length scratch.now) (pos 0) → result ≡ outcome }
{
    if all_are(scratch, 0) {
        outcome
    } else {
        plain(heap, b"scratch not zero")
    }
}

fn load_text<P: Place>(heap: Global, file: &[u8], words: usize) -> Result<Vec<u8>, Stop>
    ensures { Gives vec_items (Some (load_text (P.tests file.now words) file.now)) result }
{
    let mut scratch = vec![in heap; 7i64; words]?;
    let mut place = P::at_rest();
    let outcome = match place.fill(file, scratch.as_mut_slice()) {
        Ok(()) => ok_number(heap, usize::from(place.class_code())),
        Err(fault) => faulted(heap, fault),
    };
    wiped(heap, scratch.as_slice(), outcome)
}

pub(crate) fn load<P: Place>(heap: Global, case: &Case) -> Result<Vec<u8>, Stop>
    ensures { Gives vec_items (load_outcome P.tests case.now.fields.now) result }
{
    let file = case.bytes(heap, "file")?;
    let words = case.number("scratch")?;
    load_text::<P>(heap, file.as_slice(), words)
}

// What a file holds, with a scratch of the right length.
fn sound_in<P: Place>(heap: Global, file: &[u8]) -> Result<P, Stop>
    ensures { Sound (sound_file P.tests P.words file.now) P.Holds result }
{
    let mut scratch = vec![in heap; 0i64; P::scratch_for(file.len())]?;
    let mut place = P::at_rest();
    match place.fill(file, scratch.as_mut_slice()) {
        Ok(()) => Ok(place),
        Err(_) => Err(Stop::Unreadable),
    }
}

fn sound<P: Place>(heap: Global, case: &Case, name: &str) -> Result<P, Stop>
    ensures { Sound (sound_at P.tests P.words name.now case.now.fields.now) P.Holds result }
{
    let file = case.bytes(heap, name)?;
    sound_in(heap, file.as_slice())
}

// The key of a slip that loads.
pub fn sound_key(heap: Global, case: &Case) -> Result<Key, Stop>
    ensures { Sound (key_at (codes "key") case.now.fields.now) (λ file key. Loaded file key) result }
{
    sound::<Key>(heap, case, "key")
}

fn write_text<P: Place>(heap: Global, place: &P, room: usize) -> Result<Vec<u8>, Stop>
    ensures { Gives vec_items (Some (slip_written_text (P.needed (size_of (P.class_of place.now))) room (P.slip_of place.now))) result }
{
    let mut area = vec![in heap; 7u8; room]?;
    let answer = place.put(area.as_mut_slice());
    settled(heap, area.as_slice(), answer)
}

pub(crate) fn write<P: Place>(heap: Global, case: &Case, name: &str) -> Result<Vec<u8>, Stop>
    ensures { Gives vec_items (write_outcome P.tests P.words P.needed P.slip_in name.now case.now.fields.now) result }
{
    let place = sound::<P>(heap, case, name)?;
    let room = case.number("area")?;
    write_text(heap, &place, room)
}

fn make_form_text(heap: Global, key: &Key, words: usize) -> Result<Vec<u8>, Stop>
    ensures { Gives vec_items (Some (outcome_or (first_failing (scratch_test (size_of key.now.class) words ∷ [])) (bytes_text (form_slip key.now.class (form_of (basis_of key.now)))))) result }
{
    let mut scratch = vec![in heap; 7i64; words]?;
    let mut form = Form::resting();
    let outcome = match key.make_form(&mut form, scratch.as_mut_slice()) {
        Ok(()) => write_text(heap, &form, 12 * form.class().size() + 8),
        Err(fault) => faulted(heap, fault.into()),
    };
    wiped(heap, scratch.as_slice(), outcome)
}

pub(crate) fn make_form(heap: Global, case: &Case) -> Result<Vec<u8>, Stop>
    ensures { Gives vec_items (make_form_outcome case.now.fields.now) result }
{
    let key = sound_key(heap, case)?;
    let words = case.number("scratch")?;
    make_form_text(heap, &key, words)
}

fn verify_text(
    heap: Global,
    form: &Form,
    hash: &[u8],
    signature: &[i32],
    words: usize,
) -> Result<Vec<u8>, Stop>
    ensures { Gives vec_items (Some (verify_text form.now.class (gram_of form.now) hash.now signature.now words)) result }
{
    let mut scratch = vec![in heap; 7i64; words]?;
    let outcome = match verify::verify(form, hash, signature, scratch.as_mut_slice()) {
        Ok(length) => ok_number(heap, length as usize),
        Err(fault) => faulted(heap, fault.into()),
    };
    wiped(heap, scratch.as_slice(), outcome)
}

pub(crate) fn verify(heap: Global, case: &Case) -> Result<Vec<u8>, Stop>
    ensures { Gives vec_items (verify_outcome case.now.fields.now) result }
{
    let form = sound::<Form>(heap, case, "form")?;
    let hash = case.bytes(heap, "hash")?;
    let signature = case.numbers::<i32>(heap, "sig")?;
    let words = case.number("scratch")?;
    verify_text(heap, &form, hash.as_slice(), signature.as_slice(), words)
}

// The line without its newline.
pub(crate) fn measure(heap: Global, case: &Case) -> Result<Vec<u8>, Stop>
    ensures { Gives vec_items (measure_outcome case.now.fields.now) result }
{
    let input = case.bytes(heap, "in")?;
    let line = answers::measure(heap, input.as_slice())?;
    let text = line.as_bytes();
    plain(heap, &text[..text.len().saturating_sub(1)])
}
