// The text of an outcome.
ghost use Rattle.std.specs.Prelude.{◌≡◌, Some, vec_items};
ghost use Rattle.std.specs.List.{list_all};
ghost use Rattle.cases.specs.Stops.{Gives};
ghost use Rattle.cases.specs.Texts.{faulted_text, number_text, bytes_text};

use crate::stop::Stop;
use ring::Fault;
use script::hex_text;
use std::alloc::Global;

pub fn faulted(heap: Global, fault: Fault) -> Result<Vec<u8>, Stop>
    ensures { Gives vec_items (Some (faulted_text fault)) result }
{
    let Fault {
        number,
        layer,
        place,
    } = fault;
    let text = format!(in heap; "fault:{number}:{layer}:{place}")?;
    Ok(text.into_bytes())
}

pub fn plain(heap: Global, text: &[u8]) -> Result<Vec<u8>, Stop>
    ensures { Gives vec_items (Some text.now) result }
{
    Ok(text.to_vec(heap)?)
}

pub fn ok_number(heap: Global, number: usize) -> Result<Vec<u8>, Stop>
    ensures { Gives vec_items (Some (number_text number)) result }
{
    let text = format!(in heap; "ok:{number}")?;
    Ok(text.into_bytes())
}

pub fn ok_bytes(heap: Global, bytes: &[u8]) -> Result<Vec<u8>, Stop>
    ensures { Gives vec_items (Some (bytes_text bytes.now)) result }
{
    let hex = hex_text(heap, bytes)?;
    let text = format!(in heap; "ok:{hex}")?;
    Ok(text.into_bytes())
}

// Whether every item is this one.
pub fn all_are<T: PartialEq + Copy>(items: &[T], value: T) -> bool
    ensures { result ≡ list_all (λ x. T.eq x value) items.now }
{
    items.iter().all(|x| *x == value)
}
