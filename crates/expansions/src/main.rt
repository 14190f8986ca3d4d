// Expands stored formulas. Standard input holds records: five little-endian words, then four groups of words. The five
// say how many words the labels, the action formulas, the regular formulas and the formula have, and how many are lent;
// a length above 4,096 counts as 4,096. Each of the words lent is 7 before the call. Prints a line for each record: the
// answer as the thin program prints it, `|`, the words written, `|`, and how many of the other words lent are not as
// the call must leave them: 0 past what is written, and 7 after a refusal. docs/STORED-RUNS.md says how the records
// were made.
#![tactic(auto)]

ghost use Rattle.std.specs.Prelude.{◌≡◌, ◌+◌, ◌≤◌, length};

use rules::Answer;
use std::io;
use std::io::Read;
use stored_runs::{Printed, Row};

// The word that is lent.
const FILL: u32 = 7;

// How many words the four groups have, and how many are lent.
#[derive(Clone, Copy)]
struct Head {
    labels: usize,
    actions: usize,
    regulars: usize,
    formula: usize,
    out: usize,
    ghost few: { (labels ≤ 4096) × (actions ≤ 4096) × (regulars ≤ 4096) × (formula ≤ 4096) × (out ≤ 4096) },
}

impl From<[u8; 20]> for Head {
    fn from(bytes: [u8; 20]) -> Head {
        let mut lengths = [0u32; 5];
        words::read_words(&bytes, &mut lengths);
        let [labels, actions, regulars, formula, out] = lengths;
        Head {
            labels: stored_runs::lent_length(labels),
            actions: stored_runs::lent_length(actions),
            regulars: stored_runs::lent_length(regulars),
            formula: stored_runs::lent_length(formula),
            out: stored_runs::lent_length(out),
        }
    }
}

// The line of an outcome: so many words are written, and each of the others must be `kept`.
fn outcome_line(
    rt: &impl Print,
    answer: Answer,
    out: &[u32],
    written: usize,
    kept: u32,
) -> io::Result<()>
    requires { written ≤ length out.now }
{
    let (table, rest) = out.split_at(written);
    let others = rest.iter().filter(|word| **word != kept).count();
    println!(rt; "{} |{} | {others}", Printed(answer), Row(table))
}

// Expands what is handed over, the four groups one after the other.
fn expand_stored(rt: &impl Print, handed: &[u32], head: Head) -> io::Result<()>
    requires { length handed.now ≡ head.labels + head.actions + head.regulars + head.formula }
{
    let (labels, rest) = handed.split_at(head.labels);
    let (actions, rest) = rest.split_at(head.actions);
    let (regulars, formula) = rest.split_at(head.regulars);
    let mut out = stored_runs::filled::<u32, 4096>(FILL);
    let out = &mut out[..head.out];
    let answer = expand::expand(labels, actions, regulars, formula, out);
    match answer {
        Answer::Done(written, _, _) => outcome_line(rt, answer, out, written as usize, 0),
        _ => outcome_line(rt, answer, out, 0, FILL),
    }
}

// What is handed over is read and expanded, or nothing is printed where the input ends before.
fn expand_next<R: Read>(rt: &impl Print, stdin: &mut R, head: Head) -> io::Result<()> {
    let count = head.labels + head.actions + head.regulars + head.formula;
    let mut bytes = stored_runs::filled::<u8, 65536>(0);
    let bytes = &mut bytes[..4 * count];
    if reading::read_full(stdin, bytes)? < bytes.len() {
        return Ok(());
    }
    let mut handed = stored_runs::filled::<u32, 16384>(0);
    let handed = &mut handed[..count];
    words::read_words(bytes, handed);
    expand_stored(rt, handed, head)
}

fn main(rt: HostRuntime) -> io::Result<()> {
    stored_runs::each_record(
        &mut rt.stdin(),
        |stdin, head: Head| expand_next(&rt, stdin, head),
    )?;
    Ok(())
}
