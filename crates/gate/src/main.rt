// The thin program: reads little-endian words from standard input and prints the game of the run that they describe.
#![tactic(auto)]

ghost use Rattle.std.specs.Prelude.{ℕ, ◌≤◌, ◌≡◌, List, length, take, OnOk, IfSome};
ghost use Rattle.std.specs.Io.KnownBytes.{Appends};
ghost use Rattle.rules.specs.Program.{printed, gate_text_length};

use gate_text::{READ, TEXT};
use reading::read_full;
use rules::Answer;
use std::io;
use std::io::{Read, Write};

// What is printed of an input, of which these bytes are as much as `gate_buffer` asks for, at the front of a slice that
// every text fits in, which is never refused. Answers how many bytes.
fn put_text(bytes: &[u8], text: &mut [u8]) -> usize
    requires { (length bytes.now ≤ 8193) × (gate_text_length ≤ length text.old) }
    ensures { ((input : List ℕ) → take 8193 input ≡ bytes.now
        → take result text.new ≡ printed input) × (result ≤ length text.new) }
{
    match gate_text::gate_buffer(bytes, text) {
        Answer::Done(size, _, _) => size as usize,
        // Kept (no plainer): a cut or a refusal never comes here; an Option would be a case of `run` that never comes
        // either.
        Answer::Cut(_, _, _) | Answer::Refused(_, _) => 0,
    }
}

// Writes what is printed of an input, of which it reads as much as `gate_buffer` asks for.
fn run<R: Read, W: Write>(input: &mut R, output: &mut W) -> io::Result<()>
    ensures { OnOk result (IfSome (R.remaining input.old)
        (λ bytes. Appends (W.contents output.old) (W.contents output.new) (printed bytes))) }
{
    let mut bytes = [0u8; READ];
    let count = read_full(input, &mut bytes)?;
    let mut text = [0u8; TEXT];
    let size = put_text(&bytes[..count], &mut text);
    output.write_all(&text[..size])
}

fn main(rt: HostRuntime) -> io::Result<()> {
    run(&mut rt.stdin(), &mut rt.stdout())
}
