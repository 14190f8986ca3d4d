// The thin program's text: the words that its input holds, and the lines that it prints.
#![tactic(auto)]

ghost use Rattle.std.specs.Prelude.{◌≡◌, List, ◌++◌, false, ℕ, ◌+◌, ◌≤◌, ◌<◌};
ghost use Rattle.std.specs.Prelude.{length, take, eqb, MatchOption};
ghost use Rattle.std.proofs.Math.Option.{none, some};
ghost use Rattle.rules.specs.Lists.{sum};
ghost use Rattle.rules.specs.Answers.{Accepted};
ghost use Rattle.rules.specs.Game.{vertex_count};
ghost use Rattle.rules.specs.Texts.{line, Written};
ghost use Rattle.rules.specs.Program.{disagree, slices_of, gate_run, vertex_line, vertex_lines, report};
ghost use Rattle.rules.specs.Program.{reported, printed, program_text};
ghost use Rattle.rules.specs.Words.{input_of};
ghost use Rattle.text_writer.specs.Appending.{Room, Appended};
ghost use Rattle.gate_text.specs.Reading.{accepted};
ghost use Rattle.gate_text.specs.Shown.{Shown};

use parity_game::{Game, OWNER, PRIORITY, TARGET};
use rules::Answer;
use text_writer::Text;

// ---- reading

// Are there as many words as the first four say? Those behind the four are counted: nothing is added to their sum, so
// nothing can wrap.
fn lengths_agree(words: &[u32]) -> bool
    requires { 4 ≤ length words.now }
    ensures { result ≡ eqb (length words.now) (4 + sum (take 4 words.now)) }
{
    words.len() - 4 == words::sum(&words[..4])
}

// The words of the bytes, in the room lent for them, or None where the program refuses the bytes.
fn decode<'a>(bytes: &[u8], room: &'a mut [u32]) -> Option<&'a [u32]>
    requires { 2048 ≤ length room.old }
    ensures { MatchOption result (accepted bytes.now ≡ none) (λ words. accepted bytes.now ≡ some words.now) }
{
    let size = bytes.len();
    if size % 4 != 0 || size < 16 || 8192 < size {
        return None;
    }
    let words = &mut room[..size / 4];
    words::read_words(bytes, words);
    if lengths_agree(words) {
        return Some(words);
    }
    None
}

// ---- a game's lines: each function appends to the text

// A vertex's line: its number, owner, priority, targets.
#[tactic(auto, using(text_writer::proofs::Lines::line_length, text_writer::proofs::Lines::spaced_length), unfolding(rules::specs::Program::vertex_line))]
fn put_vertex(text: &mut Text<'_>, game: &Game<'_>, vertex: usize)
    requires vertex_bound { vertex < vertex_count game.now.words.now }
    requires room { Room text.old (vertex_line game.now.words.now vertex) }
    ensures { Appended (vertex_line game.now.words.now vertex) text.old text.new }
{
    text.put_decimal(vertex);
    text.put_number(game.vertex_word(OWNER, vertex));
    text.put_number(game.vertex_word(PRIORITY, vertex));
    text.put_numbers(game.edge_words(TARGET, vertex));
    text.put_byte(b'\n');
}

// The lines of all vertices.
fn put_vertices(text: &mut Text<'_>, game: &Game<'_>)
    requires { let g = game.now.words.now in Room text.old (vertex_lines g 0 (vertex_count g)) }
    ensures { let g = game.now.words.now in Appended (vertex_lines g 0 (vertex_count g)) text.old text.new }
{
    for vertex in 0..game.vertices() {
        put_vertex(text, game, vertex);
    }
}

// A first line and the game's lines.
#[tactic(auto, using(crate::proofs::Sizes::shown_readable))]
fn put_game(text: &mut Text<'_>, name: &[u8], numbers: &[u32], game: &[u32])
    requires shown { Shown game.now }
    requires room { Room text.old (line name.now numbers.now ++ vertex_lines game.now 0 (vertex_count game.now)) }
    ensures { Appended (line name.now numbers.now ++ vertex_lines game.now 0 (vertex_count game.now))
        text.old text.new }
{
    text.put_line(name, numbers);
    put_vertices(text, &Game { words: game });
}

// What is printed of a run: its answer, and the game that it left.
// Kept (no plainer): crate `stored_runs` prints answers in the same form by `Display`, and promises nothing of what is
// written; here it is promised.
fn print(answer: Answer, game: &[u32], text: &mut Text<'_>)
    requires room { Room text.old (report answer game.now) }
    requires shown { Accepted answer → Shown game.now }
    ensures { Appended (report answer game.now) text.old text.new }
{
    match answer {
        Answer::Done(steps, vertices, edges) => {
            put_game(text, b"done", &[steps, vertices, edges], game);
        }
        Answer::Cut(steps, vertices, edges) => {
            put_game(text, b"cut", &[steps, vertices, edges], game);
        }
        Answer::Refused(number, place) => text.put_line(b"refused", &[number, place]),
    }
}

// ---- the whole program

// A run in room for 512 vertices and 1,024 edges, of at most 512 steps, and what is printed of it.
// Kept (no plainer): the four slices are parameters, as crate `inputs` says.
fn run_input(labels: &[u32], system: &[u32], actions: &[u32], formula: &[u32], text: &mut Text<'_>)
    requires { let x = input_of labels.now system.now actions.now formula.now in
        Room text.old (reported (gate_run x)) }
    ensures { let x = input_of labels.now system.now actions.now formula.now in
        Appended (reported (gate_run x)) text.old text.new }
{
    let mut game = [0u32; 4612];
    let mut work = [0u32; 6144];
    let answer = translate::translate(
        labels, system, actions, formula, 512, 1024, 512, &mut game, &mut work,
    );
    print(answer, &game, text);
}

// The run of the words: four lengths, then the four slices, one after the other.
#[tactic(auto, using(crate::proofs::Programs::four_words, crate::proofs::Programs::all_words))]
fn run_words(words: &[u32], text: &mut Text<'_>)
    requires agree { disagree words.now ≡ false }
    requires room { Room text.old (reported (gate_run (slices_of words.now))) }
    ensures { Appended (reported (gate_run (slices_of words.now))) text.old text.new }
{
    let (labels, rest) = words[4..].split_at(words::at(words, 0));
    let (system, rest) = rest.split_at(words::at(words, 1));
    let (actions, formula) = rest.split_at(words::at(words, 2));
    run_input(labels, system, actions, formula, text);
}

// What the program writes, of what it reads.
fn put_program(bytes: &[u8], text: &mut Text<'_>)
    requires { Room text.old (printed bytes.now) }
    ensures { Appended (printed bytes.now) text.old text.new }
{
    let mut room = [0u32; 2048];
    match decode(bytes, &mut room) {
        Some(words) => run_words(words, text),
        None => text.put_line(b"refused", &[2, 0]),
    }
}

// Every text fits in so many bytes.
pub const TEXT: usize = 16_384;

// What the program writes, of what it reads: the answer says how many bytes stand at the front of the text slice, with
// zeros past them. A slice in which not every text fits is refused and left as it is.
// Kept (rule): the answer is Done with two zeros, as `program_text` of the rules has it.
pub fn gate(bytes: &[u8], text: &mut [u8]) -> Answer
    ensures { record { answer = result; text = text.new }
        ≡ program_text bytes.now text.old }
{
    if text.len() < TEXT {
        return Answer::Refused(2, 0);
    }
    let mut written = Text::new(text);
    put_program(bytes, &mut written);
    written.finish()
}

// The thin program reads so many bytes of its input: one more than the largest input has, so that a longer one is
// noticed.
pub const READ: usize = 8193;

// As `gate`, of any input whose first 8,193 bytes (all, where it has fewer) are these.
// Kept (no plainer): a second clause of `gate` would promise this too, but `gate` is asked of any bytes (crate
// `texts`), and only the thin program reads a buffer that its input may go beyond: each other call would carry a clause
// over all inputs that the bytes may be the front of.
pub fn gate_buffer(bytes: &[u8], text: &mut [u8]) -> Answer
    ensures { (input : List ℕ) → take 8193 input ≡ bytes.now
        → ◌≡◌ {A = Written} (record { answer = result; text = text.new })
        (program_text input text.old) }
{
    gate(bytes, text)
}
