// Runs cases from standard input and writes those that come out otherwise than expected.
#![tactic(auto)]

use cases::{Case, Stop, outcome};
use std::alloc::Global;
use std::io;
use std::io::{BufRead, BufReader};

// The cases of verification are those of `replay_sessions`.
fn played(heap: Global, case: &Case) -> Result<Vec<u8>, Stop> {
    match case.verb {
        "verify" => Err(Stop::Unreadable),
        _ => outcome(heap, case),
    }
}

// Whether a case comes out as expected.
fn right(heap: Global, line: &str) -> Result<bool, Stop> {
    let case = Case::with_fields(line)?;
    let got = played(heap, &case)?;
    Ok(got.as_slice() == case.expect.as_bytes())
}

fn main(rt: HostRuntime) -> io::Result<()> {
    let heap = rt.alloc();
    // Two counts: a type for them would be no plainer.
    let mut good: u64 = 0;
    let mut bad: u64 = 0;
    for line in BufReader::new(heap, rt.stdin())?.lines(heap) {
        let line = line?;
        if let Ok(true) = right(heap, line.as_str()) {
            good = good.saturating_add(1);
        } else {
            bad = bad.saturating_add(1);
            println!(rt; "{line}")?;
        }
    }
    println!(rt; "{good} right, {bad} wrong")
}
