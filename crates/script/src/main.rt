// Makes the calls of a script, run by run, once on an order slip and once on a tape, and prints every answer and what the doers hold then.
// A line is a call: `take LINE`, `strike`, `build`, `read ROOM TEXT`, `long ROOM LENGTH` (a read of as many digits 1), `play TEXT`; an empty line ends a run.
#![tactic(auto)]

ghost use Rattle.std.specs.Prelude.{◌≤◌, length};

use doers::{Doer, Slip, Tape};
use meaning::Piece;
use positions::{MOST_CLASSES, MOST_LINES, MOST_STATES};
use runs::{Answer, Call, Reply, run};
use std::io;

const MOST_ROOM: usize = 64;

const MOST_LENGTH: usize = 40_000;

// the cells of the lists of a run's reads
const LISTS: usize = 12;

// what a cell of the lists holds that no read wrote: no line has its number
// Stays: a piece and no `None`, since the lists that `run` is lent are of pieces.
const UNWRITTEN: Piece = Piece {
    line: MOST_LINES,
    place: 0,
    len: 0,
};

// The number that a word is, at most `most`, or 0.
// Stays: 0 and no `None`, since a line with a word that is no number makes its call all the same.
fn number(word: &str, most: usize) -> usize
    ensures { result ≤ most }
{
    word.parse().map_or(0, |n: usize| n.min(most))
}

fn call<'a>(line: &'a str, ones: &'a [u8]) -> Option<Call<'a, u8>>
    requires { 40000 ≤ length ones.now }
{
    let (word, rest) = line.split_once(' ').unwrap_or((line, ""));
    match word {
        "take" => Some(Call::Take(rest.as_bytes())),
        "strike" => Some(Call::Strike),
        "build" => Some(Call::Build),
        "play" => Some(Call::Play(rest.as_bytes())),
        "read" => {
            let (room, text) = rest.split_once(' ')?;
            Some(Call::Read(text.as_bytes(), number(room, MOST_ROOM)))
        }
        "long" => {
            let (room, length) = rest.split_once(' ')?;
            let ones = &ones[..number(length, MOST_LENGTH)];
            Some(Call::Read(ones, number(room, MOST_ROOM)))
        }
        _ => None,
    }
}

fn print_answer(rt: &HostRuntime, answer: Answer) -> io::Result<()> {
    match answer {
        Err(refusal) => println!(rt; "refused {refusal}"),
        Ok(Reply::Number(n)) => println!(rt; "number {n}"),
        Ok(Reply::Read(pieces, place, why)) => println!(rt; "read {pieces} {place} {why}"),
        Ok(Reply::Played(pieces, place, codes, why)) => println!(rt;
            "played {pieces} {place} {codes} {why}"
        ),
    }
}

// Makes the calls on a new plate and the doer, and prints the answers and the cells of the lists.
fn make<D: Doer>(rt: &HostRuntime, calls: &[Call<'_, u8>], doer: &mut D) -> io::Result<()> {
    let heap = rt.alloc();
    let mut moves = vec![in heap; 0u16; MOST_STATES * MOST_CLASSES]?;
    let mut sets = vec![in heap; 0u64; MOST_STATES * MOST_LINES]?;
    let mut lists = vec![in heap; UNWRITTEN; LISTS]?;
    let mut answers = vec![in heap; Ok(Reply::Number(0)); calls.len()]?;
    run(&mut moves, &mut sets, doer, calls, &mut lists, &mut answers);
    for answer in &answers {
        print_answer(rt, *answer)?;
    }
    for piece in lists.iter().filter(|piece| **piece != UNWRITTEN) {
        println!(rt; "piece {piece}")?;
    }
    Ok(())
}

fn on_slip(rt: &HostRuntime, calls: &[Call<'_, u8>]) -> io::Result<()> {
    let mut slip = Slip::new();
    make(rt, calls, &mut slip)?;
    for value in slip.registers() {
        print!(rt; "{value} ")?;
    }
    println!(rt; "on the slip")
}

fn on_tape(rt: &HostRuntime, calls: &[Call<'_, u8>]) -> io::Result<()> {
    let mut cells = [0u16; 16];
    let mut tape = Tape::new(&mut cells);
    make(rt, calls, &mut tape)?;
    let held = tape.held();
    for code in cells.iter().take(held) {
        print!(rt; "{code} ")?;
    }
    println!(rt; "on the tape")
}

fn main(rt: HostRuntime) -> io::Result<()> {
    let heap = rt.alloc();
    let text = io::read_to_string(heap, rt.stdin())?;
    let ones = vec![in heap; b'1'; MOST_LENGTH]?;
    let mut calls = Vec::new(heap);
    for line in text.as_str().lines() {
        if line.is_empty() {
            on_slip(&rt, &calls)?;
            on_tape(&rt, &calls)?;
            calls.clear();
        } else if let Some(call) = call(line, &ones) {
            calls.push(call)?;
        }
    }
    Ok(())
}
