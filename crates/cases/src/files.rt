// Cases of slips: reading and writing.
ghost use Rattle.std.specs.Prelude.{◌≡◌, Some, vec_items, string_bytes, IfOk};
ghost use Rattle.slip.specs.Refusals.{slip_fault};
ghost use Rattle.slip.specs.Reads.{Read};
ghost use Rattle.ring.specs.Classes.{size_of};
ghost use Rattle.cases.specs.Stops.{Gives};
ghost use Rattle.cases.specs.Texts.{settled_text};
ghost use Rattle.cases.specs.Slips.{kind_named, places_text, slip_text, read_text, read_signature_text, write_signature_text, read_outcome, read_signature_outcome, write_signature_outcome};

use crate::case::Case;
use crate::outcomes::{all_are, faulted, ok_bytes, plain};
use crate::packed::bytes_of;
use crate::stop::Stop;
use script::hex_text;
use slip::{Kind, Slip, SlipFault, read_signature, write_signature};
use std::alloc::{AllocError, Global};

fn kind_named(name: &[u8]) -> Result<Kind, Stop>
    ensures { Gives (λ kind. kind) (kind_named name.now) result }
{
    match name {
        b"key" => Ok(Kind::Key),
        b"form" => Ok(Kind::Form),
        b"sig" => Ok(Kind::Signature),
        _ => Err(Stop::Unreadable),
    }
}

// The first bytes of the sections of a slip that was read.
fn places_text(heap: Global, slip: &Slip) -> Result<String, AllocError>
    ensures { IfOk result (λ t. string_bytes t ≡ places_text slip.now.kind (size_of slip.now.class) slip.now.file.now) }
{
    let first = slip.section(0).unwrap().place;
    let mut text = format!(in heap; "{first}")?;
    for i in 1..slip.kind().sections() {
        let place = slip.section(i).unwrap().place;
        write!(text, ",{place}")?;
    }
    Ok(text)
}

fn described(heap: Global, slip: &Slip) -> Result<Vec<u8>, Stop>
    requires { Read slip.now.kind slip.now.file.now slip.now }
    ensures { Gives vec_items (Some (slip_text slip.now.kind slip.now.file.now)) result }
{
    let class = slip.class().code();
    let report = slip.report().bytes.len();
    let places = places_text(heap, slip)?;
    let text = format!(in heap; "ok:{class}:{report}:{places}")?;
    Ok(text.into_bytes())
}

fn read_text(heap: Global, kind: Kind, file: &[u8]) -> Result<Vec<u8>, Stop>
    ensures { Gives vec_items (Some (read_text kind file.now)) result }
{
    match Slip::read(file, kind) {
        Ok(slip) => described(heap, &slip),
        Err(fault) => faulted(heap, fault.into()),
    }
}

pub(crate) fn read(heap: Global, case: &Case) -> Result<Vec<u8>, Stop>
    ensures { Gives vec_items (read_outcome case.now.fields.now) result }
{
    let file = case.bytes(heap, "file")?;
    let kind = kind_named(case.field("kind")?)?;
    read_text(heap, kind, file.as_slice())
}

// Reads a signature into a list of sevens, which a refusal leaves.
fn read_signature_text(heap: Global, file: &[u8], room: usize) -> Result<Vec<u8>, Stop>
    ensures { Gives vec_items (Some (read_signature_text file.now room)) result }
{
    let mut list = vec![in heap; 7i32; room]?;
    let answer = read_signature(file, list.as_mut_slice());
    let list = list.as_slice();
    match answer {
        Ok(report) => {
            let report = report.bytes.len();
            let numbers = hex_text(heap, bytes_of(heap, list)?.as_slice())?;
            let text = format!(in heap; "ok:{report}:{numbers}")?;
            Ok(text.into_bytes())
        }
        Err(fault) if all_are(list, 7) => faulted(heap, fault.into()),
        Err(_) => plain(heap, b"list touched"),
    }
}

pub(crate) fn read_sig(heap: Global, case: &Case) -> Result<Vec<u8>, Stop>
    ensures { Gives vec_items (read_signature_outcome case.now.fields.now) result }
{
    let file = case.bytes(heap, "file")?;
    let room = case.number("list")?;
    read_signature_text(heap, file.as_slice(), room)
}

// What a writer did with an area of sevens: the slip, or a refusal that leaves the area.
pub(crate) fn settled(
    heap: Global,
    area: &[u8],
    answer: Result<(), SlipFault>,
) -> Result<Vec<u8>, Stop>
    ensures { Gives vec_items (Some (settled_text slip_fault area.now answer)) result }
{
    match answer {
        Ok(()) => ok_bytes(heap, area),
        Err(fault) if all_are(area, 7) => faulted(heap, fault.into()),
        Err(_) => plain(heap, b"area touched"),
    }
}

fn write_signature_text(heap: Global, numbers: &[i32], room: usize) -> Result<Vec<u8>, Stop>
    ensures { Gives vec_items (Some (write_signature_text numbers.now room)) result }
{
    let mut area = vec![in heap; 7u8; room]?;
    let answer = write_signature(numbers, area.as_mut_slice());
    settled(heap, area.as_slice(), answer)
}

pub(crate) fn write_sig(heap: Global, case: &Case) -> Result<Vec<u8>, Stop>
    ensures { Gives vec_items (write_signature_outcome case.now.fields.now) result }
{
    let numbers = case.numbers::<i32>(heap, "list")?;
    let room = case.number("area")?;
    write_signature_text(heap, numbers.as_slice(), room)
}
