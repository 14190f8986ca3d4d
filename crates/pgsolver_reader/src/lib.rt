// Parity games read from PGSolver text (#101). The text is checked first (crate pgsolver_check); then the vertices are
// written in the order of their numbers, each from its line. The check found every number in its place, and small
// enough: none is asked about again. Where the lines are in another order, the place of each line is posted before, in
// the two words that will hold its vertex's owner and priority: no further memory is lent.
// Kept (no plainer): text and place stay two parameters, as in crate pgsolver_scan.
#![tactic(auto)]

ghost use Rattle.std.specs.Prelude.{◌≡◌, false, [], ◌∷◌, ◌+◌, ◌-◌, ◌*◌, ◌/◌, ◌%◌, ◌<◌, ◌≤◌, length, set, replicate, eqb};
ghost use Rattle.std.specs.declared.result.Result.TheVariants.{Ok};
ghost use Rattle.rules.specs.Lists.{from, once};
ghost use Rattle.rules.specs.Words.{most_vertices, most_edges, room_of};
ghost use Rattle.rules.specs.Answers.{said};
ghost use Rattle.rules.specs.Texts.{decimal};
ghost use Rattle.rules.specs.Game.{edge_count, game_of, padded};
ghost use Rattle.rules.specs.PgsolverReading.{Readback, numbers_of, read_game};
ghost use Rattle.rules.specs.PgsolverCalls.{ReadingDemand};
ghost use Rattle.words.specs.Stretches.{Wrote};
ghost use Rattle.text_writer.specs.Appending.{unless};
ghost use Rattle.bitmap.specs.Marks.{bitmap_numbers, marked, Met, Holds};
ghost use Rattle.pgsolver_scan.specs.Told.{past_line};
ghost use Rattle.pgsolver_check.specs.Lines.{lines_in};
ghost use Rattle.pgsolver_scan.specs.Successors.{list_at, Listed};
ghost use Rattle.pgsolver_reader.specs.Parts.{verts_to, Whole, Begins, Turn, Part, Ready, room_refusal};
ghost use Rattle.faults.specs.Answers.{answer_of};
ghost use Rattle.pgsolver_reader.specs.Facts.{whole_prop};
ghost use Rattle.pgsolver_reader.specs.Parts.{DigitBound, column_at, offsets_from, edges_begin, post_at};
ghost use Rattle.pgsolver_reader.specs.Parts.{Posted, LinesPosted, PostedFrom, PostsKept};

use bitmap::Bitmap;
use parity_game::{OWNER, PRIORITY, STATE};
use pgsolver_check::Numbering;
use pgsolver_scan::Successors;
use rules::{Answer, Fault, Room};

// A text that passed the check, as its game is written: where its lines begin, how many vertices they give, and how the
// lines are numbered. That its lines are those of the vertices, and their edges no more than a room may have, the type
// says.
// Kept (no plainer): it holds no `Plan`: the writing counts vertices, one more than the highest, which a plan names.
#[derive(Clone, Copy)]
struct Source<'a> {
    text: &'a [u8],
    first: usize,
    vertices: usize,
    numbering: Numbering,
    ghost whole: { Whole text.now vertices } by { whole_prop text.now vertices },
    ghost few: { edge_count (verts_to (lines_in text.now) vertices) ≤ most_edges },
}

// What was written of a vertex: the place past its targets in the game, and the place past its successors in the text.
#[derive(Clone, Copy)]
struct Written {
    end: usize,
    next: usize,
}

// How many digits the vertices below a bound have; the bound is the first number that has one more.
// Kept (speed): `digit_count` of crate text_writer takes a logarithm at each vertex: over 1,000,000 lines in order, of
// three successors each, reading took 11 % longer with it (46 ms for 41, both in plain Rust).
#[derive(Clone, Copy)]
struct Digits {
    count: usize,
    bound: usize,
}

// ---- successors, each once: the bitmap marks those that were met
// Kept (no plainer): game and place stay two parameters: between two lists the game is also written at its columns, so
// a struct of the two would be made and taken apart at each vertex. That the bitmap is empty holds between two
// vertices, not while one is written, so it stands in the clauses and in no invariant.

// A successor is appended, unless it was met before.
fn put_new(value: usize, game: &mut [u32], end: usize, bits: &mut Bitmap) -> usize
    requires in_bitmap { value < bitmap_numbers }
    requires fits { end + length (unless (marked bits.old value) (value ∷ [])) ≤ length game.old }
    ensures wrote { Wrote end (unless (marked bits.old value) (value ∷ []))
        game.old game.new result }
    ensures met { Met bits.old bits.new value }
{
    if bits.meet(value) {
        game[end] = value as u32;
        return end + 1;
    }
    end
}

// The different numbers of a list are appended, and stay marked.
fn put_list(text: &[u8], list: usize, game: &mut [u32], start: usize, bits: &mut Bitmap) -> Written
    requires listed { Listed text.now list × Holds bits.old [] }
    requires fits { start + length (once eqb (list_at text.now list)) ≤ length game.old }
    ensures wrote { Wrote start (once eqb (list_at text.now list))
        game.old game.new result.end }
    ensures holds { Holds bits.new (once eqb (list_at text.now list)) }
    ensures same_line { past_line text.now list ≡ past_line text.now result.next }
{
    let mut end = start;
    let mut next = list;
    for successor in Successors::new(text, list) {
        end = put_new(successor.value, game, end, bits);
        next = successor.next;
    }
    Written { end, next }
}

// ---- posting
// Kept (no plainer): game and number of vertices stay two parameters: a struct over the lent game would have to promise
// in each contract that it still holds the same game. For the same reason `PostedFrom` stands in the contracts of those
// who read what was posted, and in no type: it speaks of the game's words, and the writing between two vertices changes
// them.

// A place of the text is posted for a vertex.
// Kept (rule): no further memory is lent, so the low and the high word of a place stand in two columns of the game.
fn post(game: &mut [u32], vertices: usize, vertex: usize, place: usize)
    requires { (vertex < vertices) × (vertices ≤ most_vertices) × (edges_begin vertices ≤ length game.old) }
    ensures { game.new
        ≡ set (set game.old (column_at vertices 0 + vertex) (place % 4294967296))
        (column_at vertices 1 + vertex) (place / 4294967296) }
{
    game[parity_game::vertex_column_at(vertices, OWNER) + vertex] = (place % 4294967296) as u32;
    game[parity_game::vertex_column_at(vertices, PRIORITY) + vertex] = (place / 4294967296) as u32;
}

// The place that is posted for a vertex.
// Kept (no plainer): that the game is long enough (`edges_begin`) is a clause of those who write and of those who read:
// for the readers alone a struct would be made anew at each vertex, since the game is written between.
fn posted_at(game: &[u32], vertices: usize, vertex: usize) -> usize
    requires { (vertex < vertices) × (vertices ≤ most_vertices) × (edges_begin vertices ≤ length game.now) }
    ensures { result ≡ post_at game.now vertices vertex }
{
    let low = words::at(
        game,
        parity_game::vertex_column_at(vertices, OWNER) + vertex,
    );
    let high = words::at(
        game,
        parity_game::vertex_column_at(vertices, PRIORITY) + vertex,
    );
    low + 4294967296 * high
}

// ---- writing

// What the line of a vertex gives the game: its owner, its priority, and where its edges begin.
#[derive(Clone, Copy)]
struct VertexWords {
    owner: usize,
    priority: usize,
    offset: usize,
}

// The words that a line gives; state and item are 0 of every vertex (`clear_pairs`).
fn put_vertex(game: &mut [u32], vertices: usize, vertex: usize, words: VertexWords)
    requires in_bounds { (vertex < vertices) × (vertices ≤ most_vertices) × (edges_begin vertices ≤ length game.old) }
    requires in_words { (words.owner < 4294967296) × (words.priority < 4294967296) × (words.offset < 4294967296) }
    ensures { game.new
        ≡ set (set (set game.old (column_at vertices 0 + vertex) words.owner)
        (column_at vertices 1 + vertex) words.priority) (offsets_from vertices + vertex) words.offset }
{
    game[parity_game::vertex_column_at(vertices, OWNER) + vertex] = words.owner as u32;
    game[parity_game::vertex_column_at(vertices, PRIORITY) + vertex] = words.priority as u32;
    game[parity_game::offsets_at(vertices) + vertex] = words.offset as u32;
}

// The digits of the next vertex, from those of the vertex before it. The vertices come one by one: none is past the
// bound, and a vertex at the bound has one digit more.
fn digits_of(digits: Digits, vertex: usize) -> Digits
    requires { DigitBound digits.count digits.bound vertex × (vertex < most_vertices) }
    ensures { DigitBound result.count result.bound (vertex + 1) × (result.count ≡ length (decimal vertex)) }
{
    if vertex < digits.bound {
        return digits;
    }
    Digits {
        count: digits.count + 1,
        bound: 10 * digits.bound,
    }
}

// The states and items of all vertices: "A game read from PGSolver text has 0 in both" (#105). Their two columns stand
// one behind the other, in front of the offsets.
fn clear_pairs(game: &mut [u32], vertices: usize)
    requires { (vertices ≤ most_vertices) × (edges_begin vertices ≤ length game.old) }
    ensures { Wrote (column_at vertices 2) (replicate (2 * vertices) 0) game.old game.new (offsets_from vertices) }
{
    let first = parity_game::vertex_column_at(vertices, STATE);
    let end = parity_game::offsets_at(vertices);
    game[first..end].fill(0);
}

// The words that belong to no vertex and no edge: the first ones, and the last offset.
fn write_sizes(game: &mut [u32], vertices: usize, edges: usize)
    requires { (vertices ≤ most_vertices) × (edges < 4294967296) × (edges_begin vertices ≤ length game.old) }
    ensures { game.new
        ≡ set (set (set (set game.old 0 vertices) 1 edges) 2 0) (offsets_from vertices + vertices) edges }
{
    parity_game::write_header(vertices as u32, edges as u32, game);
    game[parity_game::offsets_at(vertices) + vertices] = edges as u32;
}

// ---- from the text to the game

// Lines out of order stand anywhere in the text: so many are looked at together before they are written.
const TOGETHER: usize = 16;

impl<'a> Source<'a> {
    // A vertex is written, its targets from `start` on, from its line, which stands at a place past its number.
    fn write_line(
        &self,
        vertex: usize,
        place: usize,
        start: usize,
        game: &mut [u32],
        bits: &mut Bitmap,
    ) -> Written
        requires turn { Turn self.now.text.now vertex place × (vertex < self.now.vertices) }
        requires part { Part self.now.text.now self.now.vertices vertex start game.old × Holds bits.old [] }
        ensures written { Part self.now.text.now self.now.vertices (vertex + 1) result.end game.new }
        ensures same_line { past_line self.now.text.now place ≡ past_line self.now.text.now result.next }
        ensures posts_kept { PostsKept self.now.vertices vertex game.old game.new }
        ensures emptied { Holds bits.new [] }
    {
        let priority = pgsolver_scan::known_field(self.text, place);
        let owner = pgsolver_scan::known_field(self.text, priority.next);
        let words = VertexWords {
            owner: owner.value,
            priority: priority.value,
            offset: start - parity_game::game_words(self.vertices, 0),
        };
        put_vertex(game, self.vertices, vertex, words);
        let written = put_list(self.text, owner.next, game, start, bits);
        bits.wipe_all(&game[start..written.end]);
        written
    }

    // All vertices are written, from lines in the order of their numbers. Answers the place past their targets. The
    // number of a line is the vertex, and how many digits that has is known: it is passed over, which is quicker than
    // reading it.
    fn write_in_order(&self, game: &mut [u32], bits: &mut Bitmap) -> usize
        requires begins { Begins self.now.text.now self.now.first }
        requires in_order { numbers_of (lines_in self.now.text.now) ≡ from 0 self.now.vertices }
        requires part { Part self.now.text.now self.now.vertices 0 (edges_begin self.now.vertices) game.old
            × Holds bits.old [] }
        ensures { Part self.now.text.now self.now.vertices self.now.vertices result game.new }
    {
        let mut end = parity_game::game_words(self.vertices, 0);
        let mut line = self.first;
        let mut digits = Digits {
            count: 1,
            bound: 10,
        };
        for vertex in 0..self.vertices {
            digits = digits_of(digits, vertex);
            let place = line + digits.count + 1;
            let written = self.write_line(vertex, place, end, game, bits);
            end = written.end;
            line = pgsolver_scan::past_line(self.text, written.next);
        }
        end
    }

    // For each line the place past its number is posted.
    fn post_lines(&self, game: &mut [u32])
        requires { Begins self.now.text.now self.now.first × (edges_begin self.now.vertices ≤ length game.old) }
        ensures { LinesPosted self.now.text.now self.now.vertices game.new }
    {
        let mut place = self.first;
        // Kept (speed): as in `window_differs` of crate pgsolver_check.
        while place < self.text.len() {
            let number = pgsolver_scan::known_field(self.text, place);
            post(game, self.vertices, number.value, number.next);
            place = pgsolver_scan::past_line(self.text, number.next);
        }
    }

    // Is the byte at the place that is posted for a vertex below the digits? It never is: a priority begins there.
    fn below_digits(&self, game: &[u32], vertex: usize) -> bool
        requires posted { (vertex < self.now.vertices) × Posted self.now.text.now self.now.vertices game.now vertex }
        requires columns_in_bounds { edges_begin self.now.vertices ≤ length game.now }
        ensures { result ≡ false }
    {
        self.text[posted_at(game, self.vertices, vertex)] < b'0'
    }

    // Is one of these bytes, for the vertices from `first` up to `end`? What counts are the loads: the processor
    // expects each answer to be no, and goes on, so the memory fetches the lines of a block at the same time, where
    // write_line would wait for each. A compiler drops a load that nothing uses; so each byte is compared.
    fn look_ahead(&self, game: &[u32], first: usize, end: usize) -> bool
        requires posted_from { PostedFrom self.now.text.now self.now.vertices first game.now
            × (end ≤ self.now.vertices) }
        requires columns_in_bounds { edges_begin self.now.vertices ≤ length game.now }
        ensures { result ≡ false }
    {
        (first..end).any(|vertex| self.below_digits(game, vertex))
    }

    // The vertices from `first` up to `last` are written, from the lines that are posted, their targets from `start`
    // on.
    fn write_block(
        &self,
        first: usize,
        last: usize,
        start: usize,
        game: &mut [u32],
        bits: &mut Bitmap,
    ) -> usize
        requires bounds { (first ≤ last) × (last ≤ self.now.vertices) }
        requires posted_from { PostedFrom self.now.text.now self.now.vertices first game.old }
        requires part { Part self.now.text.now self.now.vertices first start game.old × Holds bits.old [] }
        ensures written { Part self.now.text.now self.now.vertices last result game.new }
        ensures posted_behind { PostedFrom self.now.text.now self.now.vertices last game.new }
        ensures emptied { Holds bits.new [] }
    {
        let mut end = start;
        for vertex in first..last {
            let place = posted_at(game, self.vertices, vertex);
            let written = self.write_line(vertex, place, end, game, bits);
            end = written.end;
        }
        end
    }

    // All vertices are written, from the lines that are posted, block by block. No byte is below the digits, so no
    // vertex is left out; the test is there so that the bytes are looked at.
    fn write_posted(&self, game: &mut [u32], bits: &mut Bitmap) -> usize
        requires posted_from { PostedFrom self.now.text.now self.now.vertices 0 game.old }
        requires part { Part self.now.text.now self.now.vertices 0 (edges_begin self.now.vertices) game.old
            × Holds bits.old [] }
        ensures { Part self.now.text.now self.now.vertices self.now.vertices result game.new }
    {
        let mut end = parity_game::game_words(self.vertices, 0);
        for first in (0..self.vertices).step_by(TOGETHER) {
            let last = self.vertices.min(first + TOGETHER);
            if self.look_ahead(game, first, last) {
                return end;
            }
            end = self.write_block(first, last, end, game, bits);
        }
        end
    }

    // All vertices are written.
    fn write_vertices(&self, game: &mut [u32], bits: &mut Bitmap) -> usize
        requires ready { Ready self.now.text.now self.now.first self.now.vertices self.now.numbering (length game.old) }
        requires unmarked { Holds bits.old [] }
        ensures { Part self.now.text.now self.now.vertices self.now.vertices result game.new }
    {
        match self.numbering {
            Numbering::InOrder => self.write_in_order(game, bits),
            Numbering::Different | Numbering::Repeated => {
                self.post_lines(game);
                self.write_posted(game, bits)
            },
        }
    }

    // The game, and zeros past it. The zeros begin behind the targets, where the counts stand: "games read from text
    // carry 0" (#102). The answer is how many edges the game has.
    fn write_game(&self, game: &mut [u32], bits: &mut Bitmap) -> usize
        requires { Ready self.now.text.now self.now.first self.now.vertices self.now.numbering (length game.old) }
        ensures value { result ≡ edge_count (verts_to (lines_in self.now.text.now) self.now.vertices) }
        ensures game_after { game.new
            ≡ padded (length game.old) (game_of 0 (verts_to (lines_in self.now.text.now) self.now.vertices)) }
    {
        bits.clear();
        let end = self.write_vertices(game, bits);
        clear_pairs(game, self.vertices);
        let edges = end - parity_game::game_words(self.vertices, 0);
        write_sizes(game, self.vertices, edges);
        game[end..].fill(0);
        edges
    }
}

// ---- the call

// 1, then 2: the room, and the length of the game slice.
// Kept (no plainer): here one slice is lent, to a run two; what both ask of the room is `check_room`.
fn check_lent(room: Room, game_len: usize) -> Result<(), Fault>
    ensures { result ≡ room_refusal room game_len }
{
    parity_game::check_room(room)?;
    let length = parity_game::game_words(room.vertices as usize, room.edges as usize);
    faults::fault_if(2, 0, game_len != length)
}

// A text is read, or has a fault.
fn read_text(text: &[u8], room: Room, game: &mut [u32]) -> Result<Answer, Fault>
    ensures { record { answer = answer_of result; game = game.new }
        ≡ read_game room text.now game.old }
{
    check_lent(room, game.len())?;
    let mut bits = Bitmap::new();
    let (most, edges) = (room.vertices as usize, room.edges as usize);
    let plan = pgsolver_check::check_text(text, most, edges, &mut bits)?;
    let vertices = plan.highest + 1;
    let source = Source {
        text,
        first: plan.first,
        vertices,
        numbering: plan.numbering,
    };
    let edges = source.write_game(game, &mut bits);
    Ok(Answer::Done(vertices as u32, vertices as u32, edges as u32))
}

// Reads a game from PGSolver text into room for so many vertices and edges. Refused are 1 and 2 as a run is, 91 for a
// text that isn't of the form, 92 for a vertex missing, given twice or above the highest, 93 for what is beyond the
// room. For every input, refused ones included:
// - `equals` gives the answer and the game slice afterwards by the rules' reading;
// - `coded`: the answer's words (`said`) are those of the rules' answer;
// - `demand` says when a text is refused, by which number, and else what the slice holds: the game that the text says,
//   each vertex with state and item 0, each edge with the count 0, and zeros past it.
pub fn read_pgsolver(text: &[u8], vertices: u32, edges: u32, game: &mut [u32]) -> Answer
    ensures equals { ◌≡◌ {A = Readback} (record { answer = result; game = game.new })
        (read_game (room_of vertices edges) text.now game.old) }
    ensures coded { said result
        ≡ said (read_game (room_of vertices edges) text.now game.old).answer }
    ensures demand { ReadingDemand (room_of vertices edges) text.now game.old result
        game.new }
{
    read_text(text, Room { vertices, edges }, game).unwrap_or_else(Answer::from)
}
