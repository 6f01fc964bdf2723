// Takes each line of standard input on a fresh plate over bytes and prints the verdict: `taken`, or `refused` with number, layer and details.
#![tactic(auto)]

use plate::Plate;
use positions::{MOST_CLASSES, MOST_LINES, MOST_STATES};
use sheet::Refusal;
use std::io;
use std::io::BufRead;

fn print_verdict(rt: &HostRuntime, answer: Result<usize, Refusal>) -> io::Result<()> {
    match answer {
        Ok(_) => println!(rt; "taken"),
        Err(refusal) => println!(rt; "refused {refusal}"),
    }
}

fn main(rt: HostRuntime) -> io::Result<()> {
    let heap = rt.alloc();
    let mut moves = vec![in heap; 0u16; MOST_STATES * MOST_CLASSES]?;
    let mut sets = vec![in heap; 0u64; MOST_STATES * MOST_LINES]?;
    for line in rt.stdin().lock().split(heap, b'\n') {
        let mut plate = Plate::open::<u8>(&mut moves, &mut sets);
        print_verdict(&rt, plate.take::<u8>(&line?))?;
    }
    Ok(())
}
