// Loading a form slip.
ghost use Rattle.std.specs.Prelude.{◌≡◌, ◌*◌, ◌<◌, true, length, replicate, pos, MatchOption, OnErr};
ghost use Rattle.ring.specs.Calls.{of_class};
ghost use Rattle.ring.specs.Classes.{size_of};
ghost use Rattle.ring.specs.Faults.{Answers};
ghost use Rattle.scheme.specs.Keys.{all_within, form_limit};
ghost use Rattle.slip.specs.declared.kind.Kind.TheVariants.{Form as FormKind};
ghost use Rattle.key.specs.FormLoading.{adjoint_tests, first_unlike, form_body_tests, FormLoaded, form_tests};
ghost use Rattle.key.specs.Refusals.{form_fault};

use crate::fault::FormFault;
use crate::form::Form;
use crate::memory::used;
use crate::scratch::Guard;
use crate::section::{stored, tested};
use crate::star::star;
use slip::{Kind, Slip};

// The largest number of a form, in size.
const FORM_LIMIT: u32 = 33_554_431;

// The first power at which an element differs from its adjoint; `words` holds both meanwhile.
fn first_unlike(numbers: &[i32], words: &mut [i64]) -> Option<usize>
    requires class { of_class (length numbers.now) ≡ true }
    requires small { all_within form_limit numbers.now ≡ true }
    requires long { length words.old ≡ 4 * length numbers.now }
    ensures { MatchOption result (first_unlike numbers.now ≡ length numbers.now) (λ k. (k ≡ first_unlike numbers.now) × (k < length numbers.now)) }
{
    let n = numbers.len();
    let (element, rest) = words.split_at_mut(n);
    let (mirror, _) = rest.split_at_mut(n);
    star(numbers, element, mirror);
    element.iter().zip(mirror.iter()).position(|(x, y)| x != y)
}

// Whether q00 and q11 are their own adjoints.
fn selfadjoint(q00: &[i32], q11: &[i32], words: &mut [i64]) -> Result<(), FormFault>
    requires class { of_class (length q00.now) ≡ true }
    requires small_q00 { all_within form_limit q00.now ≡ true }
    requires small_q11 { all_within form_limit q11.now ≡ true }
    requires same { length q11.now ≡ length q00.now }
    requires long { length words.old ≡ 4 * length q00.now }
    ensures { Answers form_fault (adjoint_tests q00.now q11.now) (λ _. Unit {0}) result }
{
    if let Some(power) = first_unlike(q00, words) {
        return Err(FormFault::Adjoint(power));
    }
    match first_unlike(q11, words) {
        Some(power) => Err(FormFault::Adjoint(q00.len() + power)),
        None => Ok(()),
    }
}

// The form that a slip holds.
fn decoded(slip: &Slip<'_>, words: &mut [i64]) -> Result<Form, FormFault>
    requires kind { slip.now.kind ≡ FormKind }
    requires long { length words.old ≡ 4 * size_of slip.now.class }
    ensures { Answers form_fault (form_body_tests slip.now.file.now) (λ form. FormLoaded slip.now.file.now form) result }
{
    let class = slip.class();
    let q00 = stored(slip, 0);
    tested(slip, 0, FORM_LIMIT, &q00)?;
    let q01 = stored(slip, 1);
    tested(slip, 1, FORM_LIMIT, &q01)?;
    let q11 = stored(slip, 2);
    tested(slip, 2, FORM_LIMIT, &q11)?;
    selfadjoint(used(&q00, class), used(&q11, class), words)?;
    Ok(Form {
        class,
        q00,
        q01,
        q11,
    })
}

// `Key::load` is alike; one load for both would have to be told how to decode.
impl Form {
    // Replaces the form by that of a slip, or refuses and leaves it.
    pub fn load(&mut self, file: &[u8], scratch: &mut [i64]) -> Result<(), FormFault>
        ensures answer { Answers form_fault (form_tests file.now (length scratch.old)) (λ _. FormLoaded file.now self.new) result }
        ensures kept { OnErr result (self.new ≡ self.old) }
        ensures wiped { scratch.new ≡ replicate (length scratch.old) (pos 0) }
    {
        let guard = Guard { words: scratch };
        let slip = Slip::read(file, Kind::Form)?;
        if guard.words.len() != 4 * slip.class().size() {
            return Err(FormFault::Scratch);
        }
        let form = decoded(&slip, guard.words)?;
        *self = form;
        Ok(())
    }
}
