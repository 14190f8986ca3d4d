// Restricts games that stand on standard input as little-endian words: for each the lengths of the game and of the
// three lent slices, then the game's words. Prints lines as `replay` does; each word of the lent slices is 7 before. A
// length above 4,096 counts as 4,096. Of a longer input the first 65,536 bytes are read.
#![tactic(auto)]

ghost use Rattle.std.specs.Prelude.{◌≤◌};

use std::io;
use std::io::Read;
use stored_runs::{Lent, lent_length};

// How long the game is, and what is lent for it.
#[derive(Clone, Copy)]
struct Head {
    game: usize,
    lent: Lent,
    ghost few: { game ≤ 4096 },
}

impl From<[u8; 16]> for Head {
    fn from(bytes: [u8; 16]) -> Head {
        let mut lengths = [0u32; 4];
        words::read_words(&bytes, &mut lengths);
        let [game, out, map, work] = lengths;
        let lent = Lent {
            fill: 7,
            out: lent_length(out),
            map: lent_length(map),
            work: lent_length(work),
        };
        Head {
            game: lent_length(game),
            lent,
        }
    }
}

// The game is read and restricted, or nothing is printed where the input ends before.
fn restrict_next<R: Read>(rt: &impl Print, stdin: &mut R, head: Head) -> io::Result<()> {
    let mut bytes = stored_runs::filled::<u8, 16384>(0);
    let bytes = &mut bytes[..4 * head.game];
    if reading::read_full(stdin, bytes)? < bytes.len() {
        return Ok(());
    }
    let mut game = stored_runs::filled::<u32, 4096>(0);
    let game = &mut game[..head.game];
    words::read_words(bytes, game);
    stored_runs::restrict(rt, game, head.lent)
}

// All is read before the first game is restricted, and nothing behind the first 65,536 bytes.
fn main(rt: HostRuntime) -> io::Result<()> {
    let mut bytes = stored_runs::filled::<u8, 65536>(0);
    let size = reading::read_full(&mut rt.stdin(), &mut bytes)?;
    stored_runs::each_record(&mut &bytes[..size], |input, head: Head| {
        restrict_next(&rt, input, head)
    })?;
    Ok(())
}
