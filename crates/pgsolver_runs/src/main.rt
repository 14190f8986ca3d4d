// Writes games as PGSolver text and reads such texts. Standard input holds records: five little-endian words, then what
// is handed over, a game's words or the bytes of a text. The words: 0 for writing, else reading; the room for vertices
// and for edges; the length in bytes of what is handed over; the length of the lent slice, in bytes for a text and in
// words for a game. A length above 4,096 counts as 4,096. Prints lines as `replay` does, with no map and 0 for the
// work; a byte of a text is shown as a number. Each byte or word of the lent slice is 7 before. docs/STORED-RUNS.md
// says how the records were made.
#![tactic(auto)]

ghost use Rattle.std.specs.Prelude.{◌≤◌, length};

use rules::Room;
use std::io;
use std::io::Read;

// What is done with what is handed over: a game is written, or a text is read in this room.
#[derive(Clone, Copy)]
enum Call {
    Write,
    Read(Room),
}

// The call, and the lengths of what is handed over and of what is lent.
#[derive(Clone, Copy)]
struct Head {
    call: Call,
    handed: usize,
    lent: usize,
    ghost few: { (handed ≤ 4096) × (lent ≤ 4096) },
}

impl From<[u8; 20]> for Head {
    fn from(bytes: [u8; 20]) -> Head {
        let mut head = [0u32; 5];
        words::read_words(&bytes, &mut head);
        let [kind, vertices, edges, handed, lent] = head;
        let call = match kind {
            0 => Call::Write,
            _ => Call::Read(Room { vertices, edges }),
        };
        Head {
            call,
            handed: stored_runs::lent_length(handed),
            lent: stored_runs::lent_length(lent),
        }
    }
}

// Writes a game as text. The game has as many words as there are whole ones.
fn write_stored(rt: &impl Print, bytes: &[u8], lent: usize) -> io::Result<()>
    requires { (length bytes.now ≤ 4096) × (lent ≤ 4096) }
{
    let mut game = stored_runs::filled::<u32, 1024>(0);
    let game = &mut game[..bytes.len() / 4];
    words::read_words(bytes, game);
    let mut text = stored_runs::filled::<u8, 4096>(7);
    let text = &mut text[..lent];
    let answer = pgsolver_writer::write_pgsolver(game, text);
    stored_runs::outcome_line(rt, answer, text, &[], &[])
}

// Reads a game from text.
fn read_stored(rt: &impl Print, text: &[u8], room: Room, lent: usize) -> io::Result<()>
    requires { lent ≤ 4096 }
{
    let mut game = stored_runs::filled::<u32, 4096>(7);
    let game = &mut game[..lent];
    let answer = pgsolver_reader::read_pgsolver(text, room.vertices, room.edges, game);
    stored_runs::outcome_line(rt, answer, game, &[], &[])
}

// What is handed over is read and the call made, or nothing is printed where the input ends before.
fn run_next<R: Read>(rt: &impl Print, stdin: &mut R, head: Head) -> io::Result<()> {
    let mut handed = stored_runs::filled::<u8, 4096>(0);
    let handed = &mut handed[..head.handed];
    if reading::read_full(stdin, handed)? < handed.len() {
        return Ok(());
    }
    match head.call {
        Call::Write => write_stored(rt, handed, head.lent),
        Call::Read(room) => read_stored(rt, handed, room, head.lent),
    }
}

fn main(rt: HostRuntime) -> io::Result<()> {
    stored_runs::each_record(
        &mut rt.stdin(),
        |stdin, head: Head| run_next(&rt, stdin, head),
    )?;
    Ok(())
}
