// The outcome of a case, by its verb.
ghost use Rattle.std.specs.Prelude.{vec_items};
ghost use Rattle.cases.specs.Outcomes.{outcome_of};
ghost use Rattle.cases.specs.Stops.{Gives};

use crate::case::Case;
use crate::stop::Stop;
use crate::{elements, files, keys};
use key::{Form, Key};
use std::alloc::Global;

// The outcome of a case that is no call of a session. Verbs are words of the input, each with operands of its own: a
// match is plainer than a table. The heap comes first, as the library's own functions take it.
pub fn outcome(heap: Global, case: &Case) -> Result<Vec<u8>, Stop>
    ensures { Gives vec_items (outcome_of case.now.verb.now case.now.fields.now) result }
{
    match case.verb {
        "read" => files::read(heap, case),
        "read-sig" => files::read_sig(heap, case),
        "write-sig" => files::write_sig(heap, case),
        "load-key" => keys::load::<Key>(heap, case),
        "load-form" => keys::load::<Form>(heap, case),
        "make-form" => keys::make_form(heap, case),
        "write-key" => keys::write::<Key>(heap, case, "key"),
        "write-form" => keys::write::<Form>(heap, case, "form"),
        "verify" => keys::verify(heap, case),
        "measure" => keys::measure(heap, case),
        _ => elements::run(heap, case),
    }
}
