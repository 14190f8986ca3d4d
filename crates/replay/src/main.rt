// Replays stored calls: reads records of 76 little-endian words from standard input and prints, for each, the answer,
// what the lent slices for the game and the map hold afterwards, and how many words of the work slice are not 0.
// docs/STORED-RUNS.md lays out a record and a line.
#![tactic(auto)]

ghost use Rattle.std.specs.Prelude.{◌≤◌};

use rules::Room;
use std::io;
use stored_runs::{Groups, Lent, lent_length};

// The words of a record: what the call is, and what is handed over.
#[derive(Clone, Copy)]
struct Record {
    head: [u32; 12],
    handed: [u32; 64],
}

impl From<[u8; 304]> for Record {
    fn from(bytes: [u8; 304]) -> Record {
        let mut head = [0u32; 12];
        let mut handed = [0u32; 64];
        words::read_words(&bytes[..48], &mut head);
        words::read_words(&bytes[48..], &mut handed);
        Record { head, handed }
    }
}

// A run: its input, its room, and how long the lent slices are, in which each word is `fill` before the call.
#[derive(Clone, Copy)]
struct Build<'a> {
    input: Groups<'a>,
    room: Room,
    limit: u32,
    fill: u32,
    game: usize,
    work: usize,
    ghost few: { (game ≤ 149) × (work ≤ 193) },
}

// A stored call.
#[derive(Clone, Copy)]
enum Call<'a> {
    Build(Build<'a>),
    Restrict(&'a [u32], Lent),
}

// The four groups of words stand one after the other. None where fewer words are handed over than they have, or where
// more is to be lent than there is.
fn build_of(record: &Record) -> Option<Build<'_>> {
    let [
        _,
        vertices,
        edges,
        limit,
        labels,
        system,
        actions,
        formula,
        game,
        _,
        work,
        fill,
    ] = record.head;
    let (labels, rest) = record.handed.split_at_checked(labels as usize)?;
    let (system, rest) = rest.split_at_checked(system as usize)?;
    let (actions, rest) = rest.split_at_checked(actions as usize)?;
    let (formula, _) = rest.split_at_checked(formula as usize)?;
    let (game, work) = (game as usize, work as usize);
    if 149 < game || 193 < work {
        return None;
    }
    let input = Groups {
        labels,
        system,
        actions,
        formula,
    };
    let room = Room { vertices, edges };
    Some(Build {
        input,
        room,
        limit,
        fill,
        game,
        work,
    })
}

fn restriction_of(record: &Record) -> Option<Call<'_>> {
    let [_, _, _, _, game, _, _, _, out, map, work, fill] = record.head;
    let (game, _) = record.handed.split_at_checked(game as usize)?;
    let lent = Lent {
        fill,
        out: lent_length(out),
        map: lent_length(map),
        work: lent_length(work),
    };
    Some(Call::Restrict(game, lent))
}

// The call that a record stands for: word 0 says which. None for a bad record.
fn call_of(record: &Record) -> Option<Call<'_>> {
    match record.head[0] {
        0 => build_of(record).map(Call::Build),
        1 => restriction_of(record),
        _ => None,
    }
}

fn lend_build(rt: &impl Print, call: Build<'_>) -> io::Result<()> {
    let mut game = stored_runs::filled::<u32, 149>(call.fill);
    let mut work = stored_runs::filled::<u32, 193>(call.fill);
    let (game, work) = (&mut game[..call.game], &mut work[..call.work]);
    let answer = translate::translate(
        call.input.labels,
        call.input.system,
        call.input.actions,
        call.input.formula,
        call.room.vertices,
        call.room.edges,
        call.limit,
        game,
        work,
    );
    stored_runs::outcome_line(rt, answer, game, &[], work)
}

fn replay(rt: &impl Print, record: &Record) -> io::Result<()> {
    match call_of(record) {
        Some(Call::Build(call)) => lend_build(rt, call),
        Some(Call::Restrict(game, lent)) => stored_runs::restrict(rt, game, lent),
        None => println!(rt; "bad record"),
    }
}

fn main(rt: HostRuntime) -> io::Result<()> {
    stored_runs::each_record(
        &mut rt.stdin(),
        |_stdin, record: Record| replay(&rt, &record),
    )?;
    Ok(())
}
