// Runs the thin program's functions on stored inputs, on the whole input and on what the program's buffer holds of it,
// and compares answers and what they write with stored texts; a slice that is too short must be refused and stay as it
// is. Standard input holds records: two little-endian words, the lengths of an input and of its text in bytes, then the
// input, then the text. Prints a line for each record that differs and, last, how many records and differences there
// were. docs/STORED-RUNS.md says how they were made.
#![tactic(auto)]

ghost use Rattle.std.specs.Prelude.{◌≤◌, length, take, ◌≡◌};

use gate_text::READ;
use rules::Answer;
use std::io::Read;
use std::{fmt, io};
use stored_runs::{MOST_RECORDS, Printed};

// How a record differs from what is stored.
#[derive(Clone, Copy)]
enum Difference {
    // It ends early or is too long.
    Broken,
    // The answer, and how many bytes are stored.
    Text(Answer, usize),
    // The answer in a slice that is too short.
    Short(Answer),
}

impl fmt::Display for Difference {
    fn fmt<W: fmt::Write>(&self, f: &mut fmt::Formatter<W>) -> fmt::Result {
        match self {
            Difference::Broken => write!(f, "is broken"),
            Difference::Text(answer, stored) => {
                write!(
                    f,
                    "differs from {stored} bytes stored: {}",
                    Printed(*answer)
                )
            }
            Difference::Short(answer) => write!(
                f,
                "in a slice that is too short: {}",
                Printed(*answer)
            ),
        }
    }
}

// Is a slice that is one byte too short refused by 2, and does it stay as it is?
fn judge_short(input: &[u8]) -> Result<(), Difference> {
    let held = stored_runs::filled::<u8, 16383>(35);
    let mut text = stored_runs::filled::<u8, 16383>(35);
    let answer = gate_text::gate(input, &mut text);
    if answer == Answer::Refused(2, 0) && text == held {
        Ok(())
    } else {
        Err(Difference::Short(answer))
    }
}

// What the thin program reads of an input: as many bytes as its buffer holds.
fn front(input: &[u8]) -> &[u8]
    ensures { result.now ≡ take 8193 input.now }
{
    &input[..input.len().min(READ)]
}

// Does the call write the bytes stored, with zeros past them, and does its answer say how many? Where nothing is
// written, the slice holds bytes that stand in no text.
fn judge_text<F: FnOnce(&mut [u8]) -> Answer>(call: F, stored: &[u8]) -> Result<(), Difference>
    requires few { length stored.now ≤ 16384 }
    requires callable { F.IsAlwaysCallable call }
{
    let mut text = stored_runs::filled::<u8, 16384>(35);
    let answer = call(&mut text);
    let (written, rest) = text.split_at(stored.len());
    // Kept (speed): slices are compared, by the library in blocks; an iterator asks for each byte, and made a run of
    // this program take 1.6 times as long.
    let zeros = stored_runs::filled::<u8, 16384>(0);
    if answer == Answer::Done(stored.len() as u32, 0, 0)
        && written == stored
        && rest == &zeros[..rest.len()]
    {
        Ok(())
    } else {
        Err(Difference::Text(answer, stored.len()))
    }
}

// That of the whole input, that of the input as the thin program reads it, and that in a slice that is too short.
fn judge(input: &[u8], stored: &[u8]) -> Result<(), Difference>
    requires { length stored.now ≤ 16384 }
{
    judge_text(|text| gate_text::gate(input, text), stored)?;
    judge_text(|text| gate_text::gate_buffer(front(input), text), stored)?;
    judge_short(input)
}

// The lengths in bytes of an input and of its text.
#[derive(Clone, Copy)]
struct Lengths {
    input: usize,
    text: usize,
    ghost few: { (input ≤ 16384) × (text ≤ 16384) },
}

// The lengths that a head says; None where it is cut short or one is too large.
fn lengths_of(head: &[u8]) -> Option<Lengths> {
    if head.len() < 8 {
        return None;
    }
    let mut lengths = [0u32; 2];
    words::read_words(head, &mut lengths);
    let [input, text] = lengths;
    if 16384 < input || 16384 < text {
        return None;
    }
    Some(Lengths {
        input: input as usize,
        text: text as usize,
    })
}

// Reads an input and its text, and compares.
fn compare<R: Read>(stdin: &mut R, lengths: Lengths) -> io::Result<Result<(), Difference>> {
    let mut input = stored_runs::filled::<u8, 16384>(0);
    let input = &mut input[..lengths.input];
    let mut stored = stored_runs::filled::<u8, 16384>(0);
    let stored = &mut stored[..lengths.text];
    if reading::read_full(stdin, input)? < input.len()
        || reading::read_full(stdin, stored)? < stored.len()
    {
        return Ok(Err(Difference::Broken));
    }
    Ok(judge(input, stored))
}

// Reads a record and compares; None where no record is left.
fn next_record<R: Read>(stdin: &mut R) -> io::Result<Option<Result<(), Difference>>> {
    let mut head = [0u8; 8];
    let size = reading::read_full(stdin, &mut head)?;
    if size == 0 {
        return Ok(None);
    }
    match lengths_of(&head[..size]) {
        Some(lengths) => compare(stdin, lengths).map(Some),
        None => Ok(Some(Err(Difference::Broken))),
    }
}

// Compares each record and prints how it differs. Answers how many there were, and how many of them differ.
// Kept (no plainer): `each_record` passes over a head that is cut short, which counts here as a record that differs.
fn compare_all<R: Read>(rt: &impl Print, stdin: &mut R) -> io::Result<(u32, u32)> {
    let mut differences = 0;
    for number in 0..MOST_RECORDS {
        let Some(judged) = next_record(stdin)? else {
            return Ok((number, differences));
        };
        if let Err(difference) = judged {
            println!(rt; "record {number} {difference}")?;
            differences += 1;
        }
    }
    Ok((MOST_RECORDS, differences))
}

fn main(rt: HostRuntime) -> io::Result<()> {
    let (records, differences) = compare_all(&rt, &mut rt.stdin())?;
    println!(rt; "{records} records, {differences} differences")
}
