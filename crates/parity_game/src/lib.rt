// The words of a parity game: where they stand, a game as it is read, the check of one that is handed over, and the
// first words of a game that is written.
#![tactic(auto)]

ghost use Rattle.std.specs.Prelude.{◌≡◌, [], ◌∷◌, ◌+◌, ◌*◌, ◌<◌, ◌≤◌, length};
ghost use Rattle.rules.specs.Game.{vertex_columns, edge_columns, game_words, vertex_count, game_end, vertex_word};
ghost use Rattle.rules.specs.Game.{edges_from, edge_words_in};
ghost use Rattle.rules.specs.Refusal.{fault_from, refusal1};
ghost use Rattle.rules.specs.GameRefusal.{falls, above_room, refusal51, refusal52, refusal53, game_refusal};
ghost use Rattle.words.specs.Stretches.{Wrote};
ghost use Rattle.parity_game.specs.Readable.{Readable};
ghost use Rattle.parity_game.specs.Sizes.{Sizes};

use rules::{Fault, Room};

// The most vertices and edges of a game, and of the room for one.
const MOST_VERTICES: usize = 1_048_576;

const MOST_EDGES: usize = 4_194_304;

// The columns of the vertices.
// Kept (no plainer): a column is its place in the rules' lists of columns (`vertex_columns`, `edge_columns`): what
// holds of a game's words is one law over that place, and each clause would turn an enum into it again.
pub const OWNER: usize = 0;

pub const PRIORITY: usize = 1;

pub const STATE: usize = 2;

pub const ITEM: usize = 3;

const VERTEX_COLUMNS: usize = 4;

// The columns of the edges.
pub const TARGET: usize = 0;

pub const COUNT: usize = 1;

const EDGE_COLUMNS: usize = 2;

// ---- where the words stand
// Kept (no plainer): sizes are `usize` with a bound: they come from `words::at`, are summed to places and index words;
// with 32 bits each function here and its callers would cast.

// The place where a column of the vertices begins, in a game of so many.
pub fn vertex_column_at(vertices: usize, column: usize) -> usize
    requires { (vertices < 4294967296) × (column ≤ length vertex_columns) }
    ensures { result ≡ 3 + column * vertices }
{
    3 + column * vertices
}

// How many columns the vertices have.
pub fn vertex_columns() -> usize
    ensures { result ≡ length vertex_columns }
{
    VERTEX_COLUMNS
}

// How many columns the edges have.
pub fn edge_columns() -> usize
    ensures { result ≡ length edge_columns }
{
    EDGE_COLUMNS
}

// The place where the offsets begin.
pub fn offsets_at(vertices: usize) -> usize
    requires { vertices < 4294967296 }
    ensures { result ≡ 3 + length vertex_columns * vertices }
{
    vertex_column_at(vertices, vertex_columns())
}

// The place where a column of the edges begins, in a game of so many vertices and edges.
fn edge_column_at(vertices: usize, edges: usize, column: usize) -> usize
    requires { (vertices < 4294967296) × (edges < 4294967296) × (column ≤ length edge_columns) }
    ensures { result ≡ 4 + (length vertex_columns + 1) * vertices + column * edges }
{
    offsets_at(vertices) + vertices + 1 + column * edges
}

// How many words a game of so many vertices and edges has: it ends behind the columns of the edges.
pub fn game_words(vertices: usize, edges: usize) -> usize
    requires { (vertices < 4294967296) × (edges < 4294967296) }
    ensures { result ≡ game_words vertices edges }
{
    edge_column_at(vertices, edges, edge_columns())
}

// The word of a vertex in a column.
// Kept (no plainer): this and `edges_from` stand beside the methods of `Game`: they ask only that the game is long
// enough, so where its words stand is proved from that alone, and the methods prove no more than that it is so long.
fn vertex_word(game: &[u32], column: usize, vertex: usize) -> usize
    requires game_in_bounds { game_end game.now ≤ length game.now }
    requires column_in_bounds { (column < length vertex_columns) × (vertex < vertex_count game.now) }
    ensures { result ≡ vertex_word game.now column vertex }
{
    let vertices = words::at(game, 0);
    words::at(game, vertex_column_at(vertices, column) + vertex)
}

// The place where the words of the edges of a vertex begin in a column; for the vertex count, the place where the last
// ones end.
fn edges_from(game: &[u32], column: usize, vertex: usize) -> usize
    requires game_in_bounds { game_end game.now ≤ length game.now }
    requires column_in_bounds { (column < length edge_columns) × (vertex ≤ vertex_count game.now) }
    ensures { result ≡ edges_from game.now column vertex }
{
    let vertices = words::at(game, 0);
    let edges = words::at(game, 1);
    edge_column_at(vertices, edges, column) + words::at(game, offsets_at(vertices) + vertex)
}

// ---- a game as it is read

// The words of a game, which are lent: whoever holds one need not ask where they end, nor where the edges of a vertex
// do.
#[derive(Clone, Copy)]
pub struct Game<'a> {
    pub words: &'a [u32],
    ghost readable: { Readable words.now },
}

impl<'a> Game<'a> {
    // How many vertices it has.
    pub fn vertices(&self) -> usize
        ensures { (result ≡ vertex_count self.now.words.now) × (result < 4294967296) }
    {
        words::at(self.words, 0)
    }

    // The word of a vertex in a column.
    pub fn vertex_word(&self, column: usize, vertex: usize) -> usize
        requires { (column < length vertex_columns) × (vertex < vertex_count self.now.words.now) }
        ensures { result ≡ vertex_word self.now.words.now column vertex }
    {
        vertex_word(self.words, column, vertex)
    }

    // The words of a vertex's edges in a column.
    pub fn edge_words(&self, column: usize, vertex: usize) -> &'a [u32]
        requires { (column < length edge_columns) × (vertex < vertex_count self.now.words.now) }
        ensures { result.now ≡ edge_words_in self.now.words.now column vertex }
    {
        let first = edges_from(self.words, column, vertex);
        let end = edges_from(self.words, column, vertex + 1);
        &self.words[first..end]
    }
}

// ---- the check

// Fault 52 at the first of the words from `first` up to `end` that is less than the one before it.
#[tactic(auto, unfolding(rules::specs::GameRefusal::falls))]
fn check_rising(ws: &[u32], first: usize, end: usize) -> Result<(), Fault>
    requires { (end ≤ length ws.now) × (end < 4294967296) × (1 ≤ first) }
    ensures { result ≡ fault_from 52 first end (falls ws.now) }
{
    faults::first_fault(
        52,
        first,
        end,
        |place| words::at(ws, place) < words::at(ws, place - 1),
    )
}

// So many vertices or edges are above the room limits.
#[tactic(auto, unfolding(rules::specs::GameRefusal::above_room))]
pub fn above_room(vertices: usize, edges: usize) -> bool
    ensures { result ≡ above_room vertices edges }
{
    MOST_VERTICES < vertices || MOST_EDGES < edges
}

// 1: room for so many vertices and edges is out of range.
#[tactic(auto, unfolding(rules::specs::Refusal::refusal1, rules::specs::Refusal::outside, rules::specs::GameRefusal::above_room, rules::specs::Answers::fault_if))]
pub fn check_room(room: Room) -> Result<(), Fault>
    ensures { result ≡ refusal1 room }
{
    let outside = room.vertices < 1
        || room.edges < 1
        || above_room(room.vertices as usize, room.edges as usize);
    faults::fault_if(1, 0, outside)
}

// 51: the length and the sizes.
#[tactic(auto, unfolding(rules::specs::GameRefusal::refusal51, rules::specs::Refusal::differ, rules::specs::Answers::fault_if))]
fn check_sizes(game: &[u32]) -> Result<(), Fault>
    ensures { result ≡ refusal51 game.now }
{
    faults::fault_if(51, 0, game.len() < 3)?;
    let vertices = words::at(game, 0);
    let edges = words::at(game, 1);
    let other = game.len() != game_words(vertices, edges)
        || vertices < 1
        || above_room(vertices, edges);
    faults::fault_if(51, 0, other)
}

// 52: the offsets.
fn check_offsets(game: &[u32]) -> Result<(), Fault>
    requires { Sizes game.now }
    ensures { result ≡ refusal52 game.now }
{
    let vertices = words::at(game, 0);
    let edges = words::at(game, 1);
    let first = offsets_at(vertices);
    let last = first + vertices;
    faults::fault_if(52, first as u32, words::at(game, first) != 0)?;
    check_rising(game, first + 1, last + 1)?;
    faults::fault_if(52, last as u32, words::at(game, last) != edges)
}

// 53: the initial vertex, the owners and the targets.
fn check_vertices(game: &[u32]) -> Result<(), Fault>
    requires { Sizes game.now }
    ensures { result ≡ refusal53 game.now }
{
    let vertices = words::at(game, 0);
    let edges = words::at(game, 1);
    faults::fault_if(53, 2, vertices <= words::at(game, 2))?;
    let first = vertex_column_at(vertices, OWNER);
    let end = vertex_column_at(vertices, PRIORITY);
    faults::check_below(game, first, end, 2, 53)?;
    let target = edge_column_at(vertices, edges, TARGET);
    let past = edge_column_at(vertices, edges, COUNT);
    faults::check_below(game, target, past, vertices, 53)
}

// 51, 52, 53: a game that is handed over.
#[tactic(auto, unfolding(rules::specs::GameRefusal::game_refusal, rules::specs::Answers::first_fault, rules::specs::Answers::and_then))]
pub fn check_game(game: &[u32]) -> Result<(), Fault>
    ensures { result ≡ game_refusal game.now }
{
    check_sizes(game)?;
    check_offsets(game)?;
    check_vertices(game)
}

// ---- writing

// The first words of a game that begins at vertex 0.
pub fn write_header(vertices: u32, edges: u32, out: &mut [u32]) -> usize
    requires { 3 ≤ length out.old }
    ensures { Wrote 0 (vertices ∷ edges ∷ 0 ∷ []) out.old out.new result }
{
    out[0] = vertices;
    out[1] = edges;
    out[2] = 0;
    3
}
