// Parity games written as PGSolver text (#101), which does not show the counts of a game's edges (#102).
// `write_pgsolver` is the one function for users; the others are its parts.
#![tactic(auto)]

ghost use Rattle.std.specs.Prelude.{Ok, ◌≡◌, cond, [], ◌∷◌, ◌*◌, ◌<◌, ◌≤◌, length, eqb};
ghost use Rattle.rules.specs.Answers.{said};
ghost use Rattle.rules.specs.Lists.{once};
ghost use Rattle.rules.specs.Game.{vertex_count};
ghost use Rattle.rules.specs.Texts.{decimal, Written};
ghost use Rattle.rules.specs.Pgsolver.{header_text, line_text};
ghost use Rattle.rules.specs.PgsolverWriting.{line_in, game_text, refusal98, writing_refusal, written_game};
ghost use Rattle.rules.specs.PgsolverCalls.{WritingDemand};
ghost use Rattle.text_writer.specs.Appending.{unless, Room, Appended};
ghost use Rattle.restrictions.specs.GoodGame.{GoodGame};
ghost use Rattle.bitmap.specs.Marks.{bitmap_numbers, marked, Met, Holds, Only};
ghost use Rattle.pgsolver_writer.specs.Successors.{Writable, spaced_list, Vertices};
ghost use Rattle.pgsolver_writer.specs.Told.{Told};

use bitmap::{Bitmap, WORDS};
use parity_game::{Game, OWNER, PRIORITY, TARGET};
use rules::{Answer, Fault};
use text_writer::Text;

// ---- the check

// 98: a vertex without successors.
fn check_successors(game: &[u32]) -> Result<(), Fault>
    requires { GoodGame game.now }
    ensures { result ≡ refusal98 game.now }
{
    let game = Game { words: game };
    let all_lead_on = (0..game.vertices()).all(|vertex| !game
        .edge_words(TARGET, vertex)
        .is_empty());
    faults::fault_if(98, 0, !all_lead_on)
}

// 51, 52, 53, then 98.
#[tactic(auto, unfolding(rules::specs::PgsolverWriting::writing_refusal, rules::specs::Answers::and_then))]
fn check_writing(game: &[u32]) -> Result<(), Fault>
    ensures { result ≡ writing_refusal game.now }
{
    parity_game::check_game(game)?;
    check_successors(game)
}

// ---- successors, each once: the bitmap marks those that were met, and is empty between two vertices
// Kept (no plainer): that it is empty holds between two vertices and not while one is written, so no invariant says it.

// How many bytes a successor takes, with what stands before it: none where it was met before.
fn successor_length(target: usize, bits: &mut Bitmap) -> usize
    requires { target < bitmap_numbers }
    ensures bytes { (result ≡ length (unless (marked bits.old target) (32 ∷ decimal target))) × (result ≤ 11) }
    ensures met { Met bits.old bits.new target }
{
    let new = bits.meet(target);
    if new {
        return 1 + text_writer::digit_count(target);
    }
    0
}

// Appends a successor behind its separator, unless it was met before. Answers the next one's separator.
fn put_successor(text: &mut Text<'_>, separator: u8, target: usize, bits: &mut Bitmap) -> u8
    requires small { target < bitmap_numbers }
    requires room { Room text.old (unless (marked bits.old target) (separator ∷ decimal target)) }
    ensures wrote { Appended (unless (marked bits.old target) (separator ∷ decimal target)) text.old text.new }
    ensures next { result ≡ cond (marked bits.old target) separator 44 }
    ensures met { Met bits.old bits.new target }
{
    let new = bits.meet(target);
    if new {
        text.put_byte(separator);
        text.put_decimal(target);
        return b',';
    }
    separator
}

// The successors of a vertex, as its game has them: one may stand there more than once.
// Kept (no plainer): two loops go over them, to count their bytes and to write them. In one function over a closure,
// nothing would be known of what the closure leaves in the bitmap.
#[derive(Clone, Copy)]
struct Targets<'a> {
    words: &'a [u32],
    ghost vertices: { Vertices words.now },
}

impl<'a> Targets<'a> {
    // Empties the bitmap, in which only these vertices are marked; where there are more of them than words of the
    // bitmap, by clearing all of it.
    // Kept (no plainer): `empty_list` of crate pgsolver_check chooses alike, but by the bytes of a list in a text.
    fn empty(self, bits: &mut Bitmap)
        requires { Only bits.old self.words.now }
        ensures { Holds bits.new [] }
    {
        if WORDS < self.words.len() {
            bits.clear();
        } else {
            bits.wipe_all(self.words);
        }
    }

    // How many bytes they take.
    fn length(self, bits: &mut Bitmap) -> usize
        requires { Holds bits.old [] }
        ensures bytes { let ts = self.entry.words.now in
            (result ≡ length (spaced_list (once eqb ts))) × (result ≤ 11 * length ts) }
        ensures emptied { Holds bits.new [] }
    {
        let mut size = 0;
        for target in self.words {
            size += successor_length(*target as usize, bits);
        }
        self.empty(bits);
        size
    }

    // Appends them, each once: a space before the first one, a comma before the others.
    fn put(self, text: &mut Text<'_>, bits: &mut Bitmap)
        requires holds { Holds bits.old [] }
        requires room { Room text.old (spaced_list (once eqb self.words.now)) }
        ensures wrote { Appended (spaced_list (once eqb self.entry.words.now)) text.old text.new }
        ensures emptied { Holds bits.new [] }
    {
        let mut separator = b' ';
        for target in self.words {
            separator = put_successor(text, separator, *target as usize, bits);
        }
        self.empty(bits);
    }
}

// ---- lines

// A vertex of a game, as its line shows it.
// Kept (no plainer): the owner is the number that the game's word holds and the line shows; a `Player` would be made of
// the one to be turned back for the other.
#[derive(Clone, Copy)]
struct Vertex<'a> {
    number: usize,
    priority: usize,
    owner: usize,
    targets: Targets<'a>,
}

impl<'a> Vertex<'a> {
    ghost use Rattle.pgsolver_writer.specs.Lines.{line_of};

    // How many bytes its line has: the parts, two spaces, a semicolon and a newline.
    fn line_length(&self, bits: &mut Bitmap) -> usize
        requires { Holds bits.old [] }
        ensures { (result ≡ length (line_of self.now)) × Holds bits.new [] }
    {
        let number = text_writer::digit_count(self.number);
        let priority = text_writer::digit_count(self.priority);
        let owner = text_writer::digit_count(self.owner);
        let successors = self.targets.length(bits);
        number + priority + owner + successors + 4
    }

    // Its line.
    #[tactic(auto, using(crate::proofs::Lines::line_size))]
    fn put_line(&self, text: &mut Text<'_>, bits: &mut Bitmap)
        requires holds { Holds bits.old [] }
        requires room { Room text.old (line_of self.now) }
        ensures wrote { Appended (line_of self.now) text.old text.new }
        ensures emptied { Holds bits.new [] }
    {
        text.put_decimal(self.number);
        text.put_number(self.priority);
        text.put_number(self.owner);
        self.targets.put(text, bits);
        text.put_bytes(b";\n");
    }
}

// ---- the text

// The first line.
#[tactic(auto, using(crate::proofs::Texts::header_size))]
fn put_header(text: &mut Text<'_>, highest: usize)
    requires { Room text.old (header_text highest) }
    ensures { Appended (header_text highest) text.old text.new }
{
    text.put_bytes(b"parity ");
    text.put_decimal(highest);
    text.put_bytes(b";\n");
}

// A game that can be written.
#[derive(Clone, Copy)]
struct WritableGame<'a> {
    game: Game<'a>,
    ghost writable: { Writable game.words.now },
}

impl<'a> WritableGame<'a> {
    ghost use Rattle.pgsolver_writer.specs.Lines.{line_of};

    fn vertex(self, number: usize) -> Vertex<'a>
        requires { number < vertex_count self.game.words.now }
        ensures { line_of result ≡ line_text (line_in self.entry.game.words.now number) }
    {
        Vertex {
            number,
            priority: self.game.vertex_word(PRIORITY, number),
            owner: self.game.vertex_word(OWNER, number),
            targets: Targets {
                words: self.game.edge_words(TARGET, number),
            },
        }
    }

    // How many bytes its text has; the first line has nine beside the digits.
    fn text_length(self, bits: &mut Bitmap) -> usize
        requires { Holds bits.old [] }
        ensures bytes { (result ≡ length (game_text self.entry.game.words.now)) × (result < 4294967296) }
        ensures emptied { Holds bits.new [] }
    {
        let vertices = self.game.vertices();
        let mut size = text_writer::digit_count(vertices - 1) + 9;
        for number in 0..vertices {
            size += self.vertex(number).line_length(bits);
        }
        size
    }

    // Its text.
    fn put_text(self, text: &mut Text<'_>, bits: &mut Bitmap)
        requires holds { Holds bits.old [] }
        requires room { Room text.old (game_text self.game.words.now) }
        ensures { Appended (game_text self.entry.game.words.now) text.old text.new }
    {
        let vertices = self.game.vertices();
        put_header(text, vertices - 1);
        for number in 0..vertices {
            self.vertex(number).put_line(text, bits);
        }
    }
}

// The text of a game that is not refused, and zeros past it; 2 for a slice that is too short.
fn write_checked(game: &[u32], text: &mut [u8]) -> Result<Answer, Fault>
    requires { writing_refusal game.now ≡ Ok tt }
    ensures { Told game.now text.old text.new result }
{
    let shown = WritableGame {
        game: Game { words: game },
    };
    let mut bits = Bitmap::new();
    let size = shown.text_length(&mut bits);
    faults::fault_if(2, 0, text.len() < size)?;
    let mut written = Text::new(text);
    shown.put_text(&mut written, &mut bits);
    Ok(written.finish())
}

// A game is written, or has a fault.
fn write_text(game: &[u32], text: &mut [u8]) -> Result<Answer, Fault>
    ensures { Told game.now text.old text.new result }
{
    check_writing(game)?;
    write_checked(game, text)
}

// Writes a game as PGSolver text into the text slice. Refused are 51, 52 and 53 as a restriction is, 98 for a vertex
// without successors, then 2 for a slice that is too short. For every input, refused ones included:
// - `equals` gives the answer and the slice afterwards by the rules' writing;
// - `coded`: the answer's words (`said`) are those of the rules' answer;
// - `demand` says when a game is refused, by which number and place, and else what the slice holds: bytes of the form
//   that say the game, and zeros past them.
pub fn write_pgsolver(game: &[u32], text: &mut [u8]) -> Answer
    ensures equals { ◌≡◌ {A = Written} (record { answer = result; text = text.new })
        (written_game game.now text.old) }
    ensures coded { said result ≡ said (written_game game.now text.old).answer }
    ensures demand { WritingDemand game.now text.old result text.new }
{
    write_text(game, text).unwrap_or_else(Answer::from)
}
