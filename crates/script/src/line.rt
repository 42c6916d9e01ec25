// The lines of a script.
ghost use Rattle.std.specs.Prelude.{◌≡◌, IfOk};
ghost use Rattle.script.specs.Meanings.{alone, with_bytes, with_one, with_two, words, of_words, passed_over, meaning, meaning_of};

use crate::hex::hex_bytes;
use crate::operand::{number, sample};
use std::alloc::{AllocError, Global};

// A log of this many bytes at most.
const LONGEST: usize = 16_776_960;

#[derive(Debug, Drop)]
pub enum Line {
    Skipped,
    Key(Vec<u8>),
    Form,
    Load(Vec<u8>),
    Verify(Vec<u8>, Vec<u8>),
    Open(usize),
    Announce(Vec<u8>),
    Target,
    Sign(Vec<i16>),
    Withdraw,
    Count,
    Log,
    Close,
    Bad,
}

// A verb alone. Verbs are words of the input, each with operands of its own: a match is plainer than a table.
fn bare(verb: &str) -> Line
    ensures { meaning_of result ≡ alone verb.now }
{
    match verb {
        "form" => Line::Form,
        "target" => Line::Target,
        "withdraw" => Line::Withdraw,
        "count" => Line::Count,
        "log" => Line::Log,
        "close" => Line::Close,
        _ => Line::Bad,
    }
}

// A verb and bytes.
fn with_bytes(heap: Global, verb: &str, bytes: Vec<u8>) -> Result<Line, AllocError>
    ensures { IfOk result (λ l. meaning_of l ≡ with_bytes verb.now bytes.items) }
{
    match verb {
        "key" => Ok(Line::Key(bytes)),
        "load" => Ok(Line::Load(bytes)),
        "announce" => Ok(Line::Announce(bytes)),
        "sign" => Ok(sample(heap, bytes.as_slice())?.map_or(Line::Bad, Line::Sign)),
        _ => Ok(Line::Bad),
    }
}

// A verb and one operand.
fn with_one(heap: Global, verb: &str, operand: &str) -> Result<Line, AllocError>
    ensures { IfOk result (λ l. meaning_of l ≡ with_one verb.now operand.now) }
{
    if verb == "open" {
        return Ok(number(operand, LONGEST).map_or(Line::Bad, Line::Open));
    }
    match hex_bytes(heap, operand.as_bytes())? {
        Some(bytes) => with_bytes(heap, verb, bytes),
        None => Ok(Line::Bad),
    }
}

// A verb and two operands.
fn with_two(heap: Global, verb: &str, first: &str, second: &str) -> Result<Line, AllocError>
    ensures { IfOk result (λ l. meaning_of l ≡ with_two verb.now first.now second.now) }
{
    if verb != "verify" {
        return Ok(Line::Bad);
    }
    let Some(hash) = hex_bytes(heap, first.as_bytes())? else {
        return Ok(Line::Bad);
    };
    match hex_bytes(heap, second.as_bytes())? {
        Some(bytes) => Ok(Line::Verify(hash, bytes)),
        None => Ok(Line::Bad),
    }
}

// A line that is not passed over.
fn read_words(heap: Global, line: &str) -> Result<Line, AllocError>
    ensures { IfOk result (λ l. meaning_of l ≡ of_words (words line.now)) }
{
    let Some((verb, rest)) = line.split_once(' ') else {
        return Ok(bare(line));
    };
    let Some((first, second)) = rest.split_once(' ') else {
        return with_one(heap, verb, rest);
    };
    if second.contains(' ') {
        return Ok(Line::Bad);
    }
    with_two(heap, verb, first, second)
}

// Empty, or begins with `#`.
fn passed_over(line: &str) -> bool
    ensures { result ≡ passed_over line.now }
{
    line.is_empty() || line.starts_with('#')
}

// What a line means. `FromStr` has no place for the heap.
#[tactic(auto, unfolding(crate::specs::Meanings::meaning))]
pub fn read_line(heap: Global, line: &str) -> Result<Line, AllocError>
    ensures { IfOk result (λ l. meaning_of l ≡ meaning line.now) }
{
    if passed_over(line) {
        return Ok(Line::Skipped);
    }
    read_words(heap, line)
}
