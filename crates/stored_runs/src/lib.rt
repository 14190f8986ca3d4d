// What the programs that run stored inputs share: records read, outcomes printed, games restricted in slices of any
// lengths.
#![tactic(auto)]

ghost use Rattle.std.specs.Prelude.{◌≡◌, ◌≤◌, ◌<◌, min, length, count_by, nat_lt, IfNone, IfOk, IfSome, All};
ghost use Rattle.std.specs.Io.KnownBytes.{Consumes, IsAtEnd};
ghost use Rattle.stored_runs.specs.Records.{EachRan};

use rules::Answer;
use std::io::Read;
use std::{fmt, io};

// ---- reading

// The next bytes, or None where the input ends before there are as many.
#[tactic(auto, using(crate::proofs::Ends::rest_short))]
fn read_array<R: Read, const N: usize>(input: &mut R) -> io::Result<Option<[u8; N]>>
    ensures whole { IfOk result (λ read. IfSome read (λ bytes.
        (length bytes ≡ N) × Consumes (R.remaining input.old) (R.remaining input.new) bytes)) }
    ensures end { IfOk result (λ read. IfNone read (IsAtEnd (R.remaining input.new))) }
    ensures few { IfOk result (λ read. IfNone read
        (IfSome (R.remaining input.old) (λ bytes. length bytes < N))) }
{
    let mut bytes = filled::<u8, N>(0);
    if reading::read_full(input, &mut bytes)? < N {
        return Ok(None);
    }
    Ok(Some(bytes))
}

// The most records that a program reads, so that it ends whatever is handed to it.
pub const MOST_RECORDS: u32 = 1_000_000;

// Runs each record: it is given by its head, and the reader stands behind that. Answers how many there were; no caller
// uses that, but by it the contract says that all were run.
pub fn each_record<
    R: Read,
    const N: usize,
    H: From<[u8; N]>,
    F: FnMut(&mut R, H) -> io::Result<()>,
>(input: &mut R, mut run: F) -> io::Result<u32>
    requires short { N ≤ 4096 }
    requires callable { F.IsAlwaysCallable run }
    ensures whole { IfOk result (λ n. (n ≤ 1000000) × (n < 1000000 → IsAtEnd (R.remaining input.new))) }
    ensures ran { IfOk result (λ n. EachRan R.remaining H.from_gives F.FnMut N 1000000 n (run, input.old)) }
{
    for number in 0..MOST_RECORDS {
        let Some(head) = read_array::<R, N>(input)? else {
            return Ok(number);
        };
        run(input, H::from(head))?;
    }
    Ok(MOST_RECORDS)
}

// A stored length; one above `most` counts as `most`.
pub fn length_of(word: u32, most: usize) -> usize
    ensures { (result ≡ min word most) × (result ≤ most) }
{
    (word as usize).min(most)
}

// The length of a slice that is handed over or lent; one above 4,096 counts as 4,096.
pub fn lent_length(word: u32) -> usize
    ensures { (result ≡ min word 4096) × (result ≤ 4096) }
{
    length_of(word, 4096)
}

// The four groups of words of an input, which nothing has checked.
#[derive(Clone, Copy)]
pub struct Groups<'a> {
    pub labels: &'a [u32],
    pub system: &'a [u32],
    pub actions: &'a [u32],
    pub formula: &'a [u32],
}

// ---- printing: nothing is promised of what is written, since std's `Print` promises nothing of it

// An answer, as the thin program prints it.
#[derive(Clone, Copy)]
pub struct Printed(pub Answer);

impl fmt::Display for Printed {
    fn fmt<W: fmt::Write>(&self, f: &mut fmt::Formatter<W>) -> fmt::Result {
        match self.0 {
            Answer::Done(steps, vertices, edges) => write!(f, "done {steps} {vertices} {edges}"),
            Answer::Cut(steps, vertices, edges) => write!(f, "cut {steps} {vertices} {edges}"),
            Answer::Refused(number, place) => write!(f, "refused {number} {place}"),
        }
    }
}

// Words or bytes as numbers, a space before each.
#[derive(Drop)]
pub struct Row<'a, T>(pub &'a [T]);

impl<'a, T: fmt::Display> fmt::Display for Row<'a, T> {
    fn fmt<W: fmt::Write>(&self, f: &mut fmt::Formatter<W>) -> fmt::Result {
        for number in self.0 {
            write!(f, " {number}")?;
        }
        Ok(())
    }
}

// How many words are not 0.
fn count_set(ws: &[u32]) -> usize
    ensures { result ≡ count_by (λ w. nat_lt 0 w) ws.now }
{
    ws.iter().filter(|word| 0 < **word).count()
}

pub fn answer_line(rt: &impl Print, answer: Answer) -> io::Result<()> {
    println!(rt; "{}", Printed(answer))
}

// A line: the answer, what the slices for the game and the map hold, and how many words of the work slice are not 0. A
// text is shown in place of a game.
pub fn outcome_line<T: fmt::Display>(
    rt: &impl Print,
    answer: Answer,
    game: &[T],
    map: &[u32],
    work: &[u32],
) -> io::Result<()> {
    let set = count_set(work);
    println!(rt; "{} |{} |{} | {set}", Printed(answer), Row(game), Row(map))
}

// ---- the slices that are lent

// An array of one value. It is made here and not where it is used, since the prover would go through a list of half a
// million words there.
pub fn filled<T: Copy, const N: usize>(value: T) -> [T; N]
    ensures long { length result ≡ N }
    ensures same { All (λ x. x ≡ value) result }
{
    [value; N]
}

// How long the slices lent for a restriction are, and the word that each holds before the call.
#[derive(Clone, Copy)]
pub struct Lent {
    pub fill: u32,
    pub out: usize,
    pub map: usize,
    pub work: usize,
    ghost few: { (out ≤ 4096) × (map ≤ 4096) × (work ≤ 4096) },
}

// Restricts a game and prints the outcome.
pub fn restrict(rt: &impl Print, game: &[u32], lent: Lent) -> io::Result<()> {
    let mut out = filled::<u32, 4096>(lent.fill);
    let mut map = filled::<u32, 4096>(lent.fill);
    let mut work = filled::<u32, 4096>(lent.fill);
    let (out, map, work) = (
        &mut out[..lent.out],
        &mut map[..lent.map],
        &mut work[..lent.work],
    );
    let answer = reachability::compute_reachable(game, out, map, work);
    outcome_line(rt, answer, out, map, work)
}
