// Runs cases from standard input and writes those that come out otherwise than expected.
#![tactic(auto)]

mod foreign;
mod sessions;

use cases::{Case, Stop, outcome};
use std::alloc::Global;
use std::io;
use std::io::{BufRead, BufReader};

// Whether a case comes out as expected. Each program reads its lines in its own way.
fn right(heap: Global, line: &str) -> Result<bool, Stop> {
    let case = Case::read(line)?;
    let got = outcome(heap, &case)?;
    Ok(got.as_slice() == case.expect.as_bytes())
}

// Runs a block of lines, the first of which opens a session, and writes those that come out otherwise. Answers how
// many were right and how many wrong.
fn run_block(rt: HostRuntime, lines: &[String]) -> io::Result<(u64, u64)> {
    let [first, calls @ ..] = lines else {
        return Ok((0, 0));
    };
    let Ok(marks) = sessions::block(rt.alloc(), first.as_str(), calls) else {
        println!(rt; "{first}")?;
        return Ok((0, 1));
    };
    let mut good: u64 = 0;
    let mut bad: u64 = 0;
    for (line, right) in calls.iter().zip(marks.as_slice()) {
        if *right {
            good = good.saturating_add(1);
        } else {
            bad = bad.saturating_add(1);
            println!(rt; "{first}")?;
            println!(rt; "{line}")?;
        }
    }
    Ok((good, bad))
}

fn main(rt: HostRuntime) -> anyhow::Result<()> {
    let heap = rt.alloc();
    // Two counts: a type for them would be no plainer.
    let mut good: u64 = 0;
    let mut bad: u64 = 0;
    let mut block: Vec<String> = Vec::new(heap);
    for line in BufReader::new(heap, rt.stdin())?.lines(heap) {
        let line = line?;
        if line.as_str() == "end" {
            let (right, wrong) = run_block(rt, block.as_slice())?;
            good = good.saturating_add(right);
            bad = bad.saturating_add(wrong);
            block.clear();
        } else if !block.is_empty() || line.as_str().starts_with("session ") {
            block.push(line)?;
        } else if let Ok(true) = right(heap, line.as_str()) {
            good = good.saturating_add(1);
        } else {
            bad = bad.saturating_add(1);
            println!(rt; "{line}")?;
        }
    }
    println!(rt; "{good} right, {bad} wrong")?;
    Ok(())
}
