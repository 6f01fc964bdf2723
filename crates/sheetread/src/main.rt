// Reads a sheet and an extent from standard input, and prints how the sheet's lines cut the extent and which codes each piece carries.
#![tactic(auto)]

mod report;
#[cfg(test)]
mod reports;

use report::report;
use std::io;
use std::io::Read;

// bytes of standard input that are read
const MOST_INPUT: u64 = 60_000;

fn main(rt: HostRuntime) -> io::Result<()> {
    let heap = rt.alloc();
    let mut input = Vec::new(heap);
    rt.stdin().take(MOST_INPUT).read_to_end(&mut input)?;
    let text = report(heap, &input)?;
    print!(rt; "{text}")
}
