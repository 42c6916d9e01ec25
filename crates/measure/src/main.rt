// Reads a key slip from standard input and writes the constants of its form.
#![tactic(auto)]

use answers::measure;
use std::io;
use std::io::Read;

fn main(rt: HostRuntime) -> io::Result<()> {
    let heap = rt.alloc();
    let mut input = Vec::new(heap);
    rt.stdin().take(65536).read_to_end(&mut input)?;
    let line = measure(heap, input.as_slice())?;
    print!(rt; "{line}")
}
