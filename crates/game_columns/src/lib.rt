// A game's words, written from left to right: column after column of the vertices, the offsets, then column after
// column of the edges. A function that appends a stretch answers the place past it.
// Kept (no plainer): slice and place apart, and no struct like `text_writer::Text`. That a lent slice stays the same
// and as long goes without saying; of a struct each function that writes a stretch, in five crates and through the
// trait, would have to say it besides, as `Appended` does, for the six calls here that go on from a place.
#![tactic(auto)]

ghost use Rattle.std.specs.Prelude.{◌≡◌, List, map, ◌+◌, ◌*◌, ◌≤◌, ◌<◌, length};
ghost use Rattle.rules.specs.Game.{Vertex, vertex_columns, edge_columns, edge_count, offsets, all_edges, columns};
ghost use Rattle.rules.specs.Game.{game_of, padded, game_words};
ghost use Rattle.games.specs.Columns.{vertex_column, edge_column, edge_column_of};
ghost use Rattle.words.specs.Stretches.{Wrote};
ghost use Rattle.game_columns.specs.Shown.{edges_of};

use parity_game::{edge_columns, vertex_columns, write_header};
use player::VertexIndex;

// Vertices of which each column can be told: those of a game that is written.
// Kept (no plainer): a column is a number, as crate `parity_game` says.
pub trait Vertices {
    // the vertices, by their numbers
    ghost shown: { Self → List Vertex };

    // How many vertices there are.
    fn count(&self) -> u32
        ensures { result ≡ length (shown self.now) };

    // How many edges a vertex has.
    fn degree(&self, vertex: VertexIndex) -> u32
        requires { vertex.0 < length (shown self.now) }
        ensures { result ≡ length (edges_of (shown self.now) vertex.0) };

    // Appends a column of the vertices.
    fn write_column(&self, column: usize, out: &mut [u32], start: usize) -> usize
        requires { (column < length vertex_columns) × (start + length (shown self.now) ≤ length out.old) }
        ensures { Wrote start (map (vertex_column column) (shown self.now)) out.old out.new result };

    // Appends the words of a vertex's edges in a column.
    fn write_edges(
        &self,
        column: usize,
        vertex: VertexIndex,
        out: &mut [u32],
        start: usize,
    ) -> usize
        requires within { (column < length edge_columns) × (vertex.0 < length (shown self.now)) }
        requires room { start + length (edges_of (shown self.now) vertex.0) ≤ length out.old }
        ensures { Wrote start (map (edge_column column) (edges_of (shown self.now) vertex.0)) out.old out.new result };
}

// How many edges the vertices have.
pub fn count_edges<V: Vertices>(vertices: &V) -> u32
    requires few { edge_count (V.shown vertices.now) < 4294967296 }
    ensures { result ≡ edge_count (V.shown vertices.now) }
{
    (0..vertices.count())
        .map(|vertex| vertices.degree(VertexIndex(vertex)))
        .sum()
}

// The columns of the vertices, one after another.
fn write_columns<V: Vertices>(vertices: &V, out: &mut [u32], start: usize) -> usize
    requires { start + length vertex_columns * length (V.shown vertices.now) ≤ length out.old }
    ensures { Wrote start (columns vertex_columns (V.shown vertices.now)) out.old out.new result }
{
    let mut next = start;
    for column in 0..vertex_columns() {
        next = vertices.write_column(column, out, next);
    }
    next
}

// Where the edges of each vertex begin, and where the last ones end.
fn write_offsets<V: Vertices>(vertices: &V, out: &mut [u32], start: usize) -> usize
    requires few { edge_count (V.shown vertices.now) < 4294967296 }
    requires room { start + length (V.shown vertices.now) < length out.old }
    ensures { Wrote start (offsets 0 (V.shown vertices.now)) out.old out.new result }
{
    let count = vertices.count();
    let mut edges: u32 = 0;
    for vertex in 0..count {
        // Kept (no plainer): the place is counted from `start`: by `iter_mut().enumerate()` the vertex would be a
        // usize, and be cast to be asked.
        out[start + vertex as usize] = edges;
        edges += vertices.degree(VertexIndex(vertex));
    }
    let last = start + count as usize;
    out[last] = edges;
    last + 1
}

// A column of the edges of all vertices.
fn write_edge_column<V: Vertices>(
    vertices: &V,
    column: usize,
    out: &mut [u32],
    start: usize,
) -> usize
    requires { (column < length edge_columns) × (start + edge_count (V.shown vertices.now) ≤ length out.old) }
    ensures { Wrote start (edge_column_of column (V.shown vertices.now)) out.old out.new result }
{
    let count = vertices.count();
    let mut next = start;
    for vertex in 0..count {
        next = vertices.write_edges(column, VertexIndex(vertex), out, next);
    }
    next
}

// The columns of the edges, one after another.
fn write_edge_columns<V: Vertices>(vertices: &V, out: &mut [u32], start: usize) -> usize
    requires { start + length edge_columns * edge_count (V.shown vertices.now) ≤ length out.old }
    ensures { Wrote start (columns edge_columns (all_edges (V.shown vertices.now))) out.old out.new result }
{
    let mut next = start;
    for column in 0..edge_columns() {
        next = write_edge_column(vertices, column, out, next);
    }
    next
}

// The game of the vertices, which have so many edges, and zeros past it.
pub fn write_game<V: Vertices>(vertices: &V, edges: u32, out: &mut [u32])
    requires counted { edges ≡ edge_count (V.shown vertices.now) }
    requires room { game_words (length (V.shown vertices.now)) edges ≤ length out.old }
    ensures { out.new ≡ padded (length out.old) (game_of 0 (V.shown vertices.now)) }
{
    let header = write_header(vertices.count(), edges, out);
    let places = write_columns(vertices, out, header);
    let targets = write_offsets(vertices, out, places);
    let end = write_edge_columns(vertices, out, targets);
    out[end..].fill(0);
}
