// What `measure` answers: the constants of the form of a key.
ghost use Rattle.std.specs.Prelude.{◌≡◌, length, take, IfOk, string_bytes};
ghost use Rattle.ring.specs.Faults.{Answers};
ghost use Rattle.key.specs.Gramheld.{gram_of};
ghost use Rattle.key.specs.Loading.{key_tests};
ghost use Rattle.key.specs.Refusals.{key_fault};
ghost use Rattle.answers.specs.Lines.{form_line, measure_line, file_limit};
ghost use Rattle.answers.specs.Measured.{FormIn};

use crate::refusal::refusal_line;
use key::{Form, Key, KeyFault};
use slip::{Kind, Slip};
use std::alloc::{AllocError, Global};

// The bytes of a file at most.
const LIMIT: usize = 65536;

// The form of the key in a file.
fn form_in(file: &[u8], scratch: &mut [i64]) -> Result<Form, KeyFault>
    ensures { Answers key_fault (key_tests file.now (length scratch.old)) (λ form. FormIn file.now form) result }
{
    let mut key = Key::resting();
    key.load(file, scratch)?;
    let mut form = Form::resting();
    key.make_form(&mut form, scratch)?;
    Ok(form)
}

// The line of a form.
fn form_line(heap: Global, form: &Form) -> Result<String, AllocError>
    ensures { IfOk result (λ t. string_bytes t ≡ form_line form.now.class (gram_of form.now)) }
{
    let class = form.class().code();
    let n = form.class().size();
    let (q00, q01, q11) = form.constants();
    format!(in heap; "class={class} n={n} q00={q00} q01={q01} q11={q11}\n")
}

// The line for an input, of which at most 65,536 bytes are the file.
pub fn measure(heap: Global, input: &[u8]) -> Result<String, AllocError>
    ensures { IfOk result (λ t. string_bytes t ≡ measure_line (take file_limit input.now)) }
{
    let file = &input[..input.len().min(LIMIT)];
    // A file that is no key slip is refused whatever its scratch.
    let size = Slip::read(file, Kind::Key).map_or(0, |slip| slip.class().size());
    let mut scratch = vec![in heap; 0i64; 4 * size]?;
    match form_in(file, scratch.as_mut_slice()) {
        Ok(form) => form_line(heap, &form),
        Err(fault) => refusal_line(heap, fault.into()),
    }
}
