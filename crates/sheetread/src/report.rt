// What the program prints: how a sheet's lines cut an extent and which codes each piece carries, or the first refusal.
use doers::Tape;
use meaning::Piece;
use positions::{LONGEST_EXTENT, MOST_CLASSES, MOST_LINES, MOST_STATES};
use runs::{Answer, Call, Reply, run};
use std::alloc::{AllocError, Global};

// the pieces that are listed
const LIST: usize = 2_048;

// the codes of the listed pieces: a piece has two more than it has symbols
const TAPE: usize = LONGEST_EXTENT + 2 * LIST;

// The calls for a sheet and its extent, and how many lines it has: each line is taken, the plate is built, and the extent is read and played.
fn calls(heap: Global, input: &[u8]) -> Result<(Vec<Call<'_, u8>>, usize), AllocError> {
    let mut calls = Vec::new(heap);
    // what is behind the lines so far: in the end the empty line and the extent
    let mut rest = input;
    let sheet = input.split(|b| *b == b'\n');
    for line in sheet.take_while(|line| !line.is_empty()) {
        calls.push(Call::Take(line))?;
        rest = rest.get(line.len() + 1..).unwrap_or(&[]);
    }
    let lines = calls.len();
    let extent = rest.get(1..).unwrap_or(&[]);
    calls.push(Call::Build)?;
    calls.push(Call::Read(extent, LIST))?;
    calls.push(Call::Play(extent))?;
    Ok((calls, lines))
}

// One line for each piece, its codes from the tape.
fn write_pieces(text: &mut String, pieces: &[Piece], mut tape: &[u16]) -> Result<(), AllocError> {
    for piece in pieces {
        let len = piece.len.saturating_add(2).min(tape.len());
        let (codes, rest) = tape.split_at(len);
        write!(text, "piece {piece}")?;
        for code in codes {
            write!(text, " {code}")?;
        }
        writeln!(text)?;
        tape = rest;
    }
    Ok(())
}

// The first refusal, with the lines taken before it, or the pieces and where they end.
fn written(
    heap: Global,
    answers: &[Answer],
    lines: usize,
    list: &[Piece],
    tape: &[u16],
) -> Result<String, AllocError> {
    let mut text = String::new(heap);
    for (made, answer) in answers.iter().enumerate() {
        match *answer {
            Err(refusal) => {
                writeln!(text, "refused {} {refusal}", made.min(lines))?;
                break;
            }
            Ok(Reply::Read(pieces, place, why)) => {
                write_pieces(&mut text, &list[..pieces.min(list.len())], tape)?;
                writeln!(text, "end {place} {why}")?;
                break;
            }
            Ok(Reply::Number(_) | Reply::Played(..)) => {}
        }
    }
    Ok(text)
}

// What is printed for an input: sheet lines, an empty line, and the extent.
pub(crate) fn report(heap: Global, input: &[u8]) -> Result<String, AllocError> {
    let (calls, lines) = calls(heap, input)?;
    let mut moves = vec![in heap; 0u16; MOST_STATES * MOST_CLASSES]?;
    let mut sets = vec![in heap; 0u64; MOST_STATES * MOST_LINES]?;
    let mut list = vec![in heap; Piece::default(); LIST]?;
    let mut answers = vec![in heap; Ok(Reply::Number(0)); calls.len()]?;
    let mut cells = vec![in heap; 0u16; TAPE]?;
    let mut tape = Tape::new(&mut cells);
    run(
        &mut moves,
        &mut sets,
        &mut tape,
        &calls,
        &mut list,
        &mut answers,
    );
    written(heap, &answers, lines, &list, &cells)
}
