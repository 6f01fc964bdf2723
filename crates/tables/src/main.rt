// Prints the table that a build makes of each sheet on standard input: the states, the positions of each set, and the moves.
// A sheet begins with the line `bytes` or `pieces`, its alphabet, and ends with an empty line.
#![tactic(auto)]

use meaning::Piece;
use plate::Plate;
use positions::{MOST_CLASSES, MOST_LINES, MOST_POSITIONS, MOST_STATES};
use sheet::{Alphabet, Refusal};
use std::io;

// What a sheet's lines are over.
#[derive(Clone, Copy, PartialEq, Eq, Debug)]
enum Kind {
    Bytes,
    Pieces,
}

// Takes the lines and builds; the number of states.
fn built<A: Alphabet>(
    moves: &mut [u16],
    sets: &mut [u64],
    lines: &[&str],
) -> Result<usize, Refusal> {
    let mut plate = Plate::open::<A>(moves, sets);
    for line in lines {
        plate.take::<A>(line.as_bytes())?;
    }
    plate.build::<A>()
}

// The positions of a set, which are numbered from 1.
// Stays: by the bits of a set cell as docs/PLATES.md tells them; how the engine walks over a set is its own.
fn print_positions(rt: &HostRuntime, set: u64) -> io::Result<()> {
    for p in (1..=MOST_POSITIONS).filter(|p| (set >> (*p - 1)) & 1 == 1) {
        print!(rt; " {p}")?;
    }
    Ok(())
}

// The set cells that are not 0: state, line and positions.
fn print_sets(rt: &HostRuntime, sets: &[u64]) -> io::Result<()> {
    for (state, lines) in sets.chunks(MOST_LINES).enumerate() {
        for (line, set) in lines.iter().enumerate().filter(|(_, set)| **set != 0) {
            print!(rt; "set {state} {line}")?;
            print_positions(rt, *set)?;
            println!(rt; "")?;
        }
    }
    Ok(())
}

// The move cells that are not 0: state, class and next state.
fn print_moves<A: Alphabet>(rt: &HostRuntime, moves: &[u16]) -> io::Result<()> {
    for (state, row) in moves.chunks(A::COUNT).enumerate() {
        for (class, cell) in row.iter().enumerate().filter(|(_, cell)| **cell > 0) {
            println!(rt; "move {state} {class} {}", *cell - 1)?;
        }
    }
    Ok(())
}

fn print_table<A: Alphabet>(rt: &HostRuntime, lines: &[&str]) -> io::Result<()> {
    let heap = rt.alloc();
    let mut moves = vec![in heap; 0u16; MOST_STATES * MOST_CLASSES]?;
    let mut sets = vec![in heap; 0u64; MOST_STATES * MOST_LINES]?;
    match built::<A>(&mut moves, &mut sets, lines) {
        Ok(states) => println!(rt; "states {states}")?,
        Err(refusal) => println!(rt; "refused {}", refusal.number())?,
    }
    print_sets(rt, &sets)?;
    print_moves::<A>(rt, &moves)
}

fn main(rt: HostRuntime) -> io::Result<()> {
    let heap = rt.alloc();
    let text = io::read_to_string(heap, rt.stdin())?;
    let mut lines = Vec::new(heap);
    let mut kind = Kind::Bytes;
    for line in text.as_str().lines() {
        match line {
            "" => {
                match kind {
                    Kind::Bytes => print_table::<u8>(&rt, &lines)?,
                    Kind::Pieces => print_table::<Piece>(&rt, &lines)?,
                }
                lines.clear();
            }
            "bytes" => kind = Kind::Bytes,
            "pieces" => kind = Kind::Pieces,
            _ => lines.push(line)?,
        }
    }
    Ok(())
}
