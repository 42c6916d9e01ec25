// Signatures as slips.
ghost use Rattle.std.specs.Prelude.{◌≡◌, ℕ, List, ◌++◌, OnErr, OnOk};
ghost use Rattle.ring.specs.Faults.{Answers};
ghost use Rattle.slip.specs.Refusals.{slip_fault};
ghost use Rattle.slip.specs.declared.kind.Kind.TheVariants.{Signature};
ghost use Rattle.slip.specs.Reads.{IsPart};
ghost use Rattle.slip.specs.Signatures.{signature_class, signature_slip, signature_numbers, write_tests, read_tests, ReadsAs};
ghost use Rattle.slip.specs.Slips.{report_bytes, size_named};

use crate::fault::SlipFault;
use crate::kind::Kind;
use crate::numbers::{get_numbers, put_numbers};
use crate::reader::{Part, Slip, TRAILER};
use crate::writer::put_trailer;
use ring::Class;

// The class whose signatures have that many numbers.
fn class_of(count: usize) -> Option<Class>
    ensures { result ≡ signature_class count }
{
    if count % 2 != 0 {
        return None;
    }
    Class::with_size(count / 2)
}

// Writes a signature's 2n numbers as a slip over the whole area. Behind any report, the slip reads as these numbers.
pub fn write_signature(numbers: &[i32], area: &mut [u8]) -> Result<(), SlipFault>
    ensures answer { Answers slip_fault (write_tests numbers.now area.old) (λ _. area.new ≡ signature_slip numbers.now) result }
    ensures kept { OnErr result (area.new ≡ area.old) }
    ensures back { OnOk result ((report : List ℕ) → ReadsAs report numbers.now (report ++ area.new)) }
{
    let class = class_of(numbers.len()).ok_or(SlipFault::ListLength)?;
    if area.len() != Kind::Signature.body_length(class) + TRAILER {
        return Err(SlipFault::AreaLength);
    }
    put_numbers(numbers, area, 0);
    put_trailer(Kind::Signature, class, area);
    Ok(())
}

// Reads the signature at the file's end into the list, s0 and then s1, and answers the report before it.
pub fn read_signature<'a>(file: &'a [u8], numbers: &mut [i32]) -> Result<Part<'a>, SlipFault>
    ensures answer { Answers slip_fault (read_tests file.now numbers.old) (λ p. IsPart (report_bytes Signature (size_named file.now) file.now) 0 p × (numbers.new ≡ signature_numbers file.now)) result }
    ensures kept { OnErr result (numbers.new ≡ numbers.old) }
{
    let slip = Slip::read(file, Kind::Signature)?;
    let n = slip.class().size();
    if numbers.len() != 2 * n {
        return Err(SlipFault::ListLength);
    }
    let (s0, s1) = numbers.split_at_mut(n);
    get_numbers(slip.section(0).unwrap().bytes, s0);
    get_numbers(slip.section(1).unwrap().bytes, s1);
    Ok(slip.report())
}
