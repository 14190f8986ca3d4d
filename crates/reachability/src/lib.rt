// The part of a parity game that its initial vertex reaches. While it is made, the work slice holds the vertices met,
// each at its new number, and the map the new number of each vertex, UNREACHED for one that is not met.
#![tactic(auto)]

ghost use Rattle.std.specs.Prelude.{◌≡◌, map, ℕ, ◌+◌, ◌*◌, ◌≤◌, ◌<◌, length, take, eqb};
ghost use Rattle.rules.specs.Lists.{word, insert, insert_all};
ghost use Rattle.rules.specs.Answers.{said, Accepted};
ghost use Rattle.rules.specs.Game.{edge_columns, vertex_count, edge_words_in};
ghost use Rattle.faults.specs.Answers.{answer_of};
ghost use Rattle.game_columns.specs.Shown.{edges_of};
ghost use Rattle.rules.specs.Restrict.{reached_vertices, restriction_refusal, restricted_to, restriction};
ghost use Rattle.rules.specs.Restricts.{Restricts, RestrictionDemand1};
ghost use Rattle.words.specs.Stretches.{Wrote};
ghost use Rattle.restrictions.specs.GoodGame.{GoodGame};
ghost use Rattle.reachability.specs.Knowing.{Knows, Chosen, Numbered};

use game_columns::Vertices;
use parity_game::{Game, TARGET};
use player::VertexIndex;
use rules::{Answer, Fault};

// Kept (rule): the map is handed to hosts as words, in which this number says that a vertex is not reached.
const UNREACHED: u32 = 4_294_967_295;

// 51, 52, 53, then 2, for slices of these lengths.
#[tactic(auto, using(crate::proofs::Lent::first_word), unfolding(rules::specs::Restrict::restriction_refusal, rules::specs::Refusal::differ, rules::specs::Answers::fault_if, rules::specs::Answers::and_then))]
fn check_lent(game: &[u32], out: usize, mapping: usize, work: usize) -> Result<(), Fault>
    ensures { result ≡ restriction_refusal game.now out mapping work }
{
    parity_game::check_game(game)?;
    let vertices = words::at(game, 0);
    let differ = out != game.len() || mapping != vertices || work != vertices;
    faults::fault_if(2, 0, differ)
}

// ---- the search

// The slices of a search, and how many vertices are met: `work` begins with them.
// Kept (rule): there is no heap, so no Vec: the lent slice is filled from its front.
#[derive(Drop)]
struct Search<'a> {
    mapping: &'a mut [u32],
    work: &'a mut [u32],
    count: usize,
}

impl<'a> Search<'a> {
    ghost use Rattle.reachability.specs.Meets.{Ready, met_in, Met};

    // A vertex is met: it gets the next number if it is new.
    fn discover(&mut self, vertex: VertexIndex)
        requires ready { Ready self.old }
        requires is_vertex { vertex.0 < length self.old.mapping.now }
        ensures { Met (insert eqb (met_in self.old) vertex.0) self.old self.new }
    {
        let place = vertex.0 as usize;
        if self.mapping[place] == UNREACHED {
            self.mapping[place] = self.count as u32;
            self.work[self.count] = vertex.0;
            self.count += 1;
        }
    }

    // The vertices of a list are met, in order.
    fn discover_all(&mut self, targets: &[u32])
        requires ready { Ready self.old }
        requires are_vertices { (p : ℕ) → p < length targets.now → word targets.now p < length self.old.mapping.now }
        ensures { Met (insert_all eqb (met_in self.old) targets.now) self.old self.new }
    {
        for target in targets {
            self.discover(VertexIndex(*target));
        }
    }
}

// Breadth first from the initial vertex. The answer is how many vertices are reached.
fn explore(game: Game<'_>, mapping: &mut [u32], work: &mut [u32]) -> usize
    requires good_game { GoodGame game.words.now }
    requires lengths { (length mapping.old ≡ vertex_count game.words.now)
        × (length work.old ≡ vertex_count game.words.now) }
    ensures knows { Knows result mapping.new work.new }
    ensures found { take result work.new ≡ reached_vertices game.entry.words.now }
{
    mapping.fill(UNREACHED);
    let mut search = Search {
        mapping,
        work,
        count: 0,
    };
    search.discover(VertexIndex(game.words[2]));
    let mut i = 0;
    // Kept (no plainer): `work` is a queue, to which each turn of the loop appends, so it cannot be lent to a `for`,
    // and a range up to `count` would not see `count` grow.
    while i < search.count {
        let targets = game.edge_words(TARGET, search.work[i] as usize);
        search.discover_all(targets);
        i += 1;
    }
    search.count
}

// ---- the game that is written, from left to right

// Words are copied to a place on; the answer is the place past them.
// Kept (rule): word by word, since `copy_from_slice` is compiled to a call of `memmove`, which a host without a C
// library would have to bring.
fn copy(from: &[u32], out: &mut [u32], start: usize) -> usize
    requires { start + length from.now ≤ length out.old }
    ensures { Wrote start from.now out.old out.new result }
{
    for (i, word) in from.iter().enumerate() {
        out[start + i] = *word;
    }
    start + from.len()
}

// The new numbers of targets are written from a place on; the answer is the place past them.
// Kept (rule): a loop of its own, though `words::carry` does the same, so that `must-fail/first_edge_repeated` plants a
// wrong value, as it did before the rewriting.
fn write_numbers(mapping: &[u32], targets: &[u32], out: &mut [u32], start: usize) -> usize
    requires room { start + length targets.now ≤ length out.old }
    requires inside { (p : ℕ) → p < length targets.now → word targets.now p < length mapping.now }
    ensures { Wrote start (map (word mapping.now) targets.now) out.old out.new result }
{
    for (i, target) in targets.iter().enumerate() {
        out[start + i] = mapping[*target as usize];
    }
    start + targets.len()
}

// The part of a game that is reached: its vertices, in the order of their new numbers, and the map from old numbers to
// new.
#[derive(Clone, Copy)]
struct Reached<'g, 'a> {
    game: Game<'g>,
    mapping: &'a [u32],
    vertices: &'a [u32],
    ghost chosen: { Chosen game.words.now vertices.now },
    ghost numbered: { Numbered game.words.now mapping.now vertices.now },
}

impl Reached<'_, '_> {
    ghost use Rattle.reachability.specs.Parts.{kept_in};

    // The words of a vertex's edges in a column of the game, by its new number.
    fn edge_words(&self, column: usize, vertex: VertexIndex) -> &[u32]
        requires { (column < length edge_columns) × (vertex.0 < length (kept_in self.now)) }
        ensures words { result.now ≡ edge_words_in self.now.game.words.now column (word self.now.vertices.now vertex.0) }
        ensures many { length result.now ≡ length (edges_of (kept_in self.now) vertex.0) }
    {
        let old = self.vertices[vertex.0 as usize];
        self.game.edge_words(column, old as usize)
    }
}

impl Vertices for Reached<'_, '_> {
    ghost use Rattle.reachability.specs.Parts.{kept_in};

    ghost shown = { kept_in };

    fn count(&self) -> u32 {
        self.vertices.len() as u32
    }

    fn degree(&self, vertex: VertexIndex) -> u32 {
        self.edge_words(TARGET, vertex).len() as u32
    }

    fn write_column(&self, column: usize, out: &mut [u32], start: usize) -> usize {
        let base = parity_game::vertex_column_at(self.game.vertices(), column);
        words::carry(&self.game.words[base..], self.vertices, out, start)
    }

    // The targets by their new numbers, the other words as they are.
    fn write_edges(
        &self,
        column: usize,
        vertex: VertexIndex,
        out: &mut [u32],
        start: usize,
    ) -> usize {
        let held = self.edge_words(column, vertex);
        if column == TARGET {
            return write_numbers(self.mapping, held, out, start);
        }
        copy(held, out, start)
    }
}

// The restriction of a game that is not refused, into slices of the right lengths.
// Kept (no plainer): the lent slices are parameters one by one, here and below: a struct of three would have to promise
// besides, in each contract, that each slice stays the same.
fn restrict(game: &[u32], out: &mut [u32], mapping: &mut [u32], work: &mut [u32]) -> Answer
    requires { restriction_refusal game.now (length out.old) (length mapping.old) (length work.old)
        ≡ Ok tt }
    ensures { record { answer = result; out = out.new; mapping = mapping.new; work = work.new }
        ≡ restricted_to game.now (reached_vertices game.now)
        out.old work.old }
{
    let game = Game { words: game };
    let count = explore(game, mapping, work);
    let reached = Reached {
        game,
        mapping,
        vertices: &work[..count],
    };
    let edges = game_columns::count_edges(&reached);
    game_columns::write_game(&reached, edges, out);
    work.fill(0);
    let vertices = count as u32;
    Answer::Done(vertices, vertices, edges)
}

// A game is restricted, or it or a slice has a fault.
fn restrict_lent(
    game: &[u32],
    out: &mut [u32],
    mapping: &mut [u32],
    work: &mut [u32],
) -> Result<Answer, Fault>
    ensures { record { answer = answer_of result; out = out.new; mapping = mapping.new; work = work.new }
        ≡ restriction game.now out.old mapping.old work.old }
{
    check_lent(game, out.len(), mapping.len(), work.len())?;
    Ok(restrict(game, out, mapping, work))
}

// The part of the game that its initial vertex reaches; each vertex keeps its owner, priority, state and item, each
// edge its count. The map has the new number of each vertex, 4,294,967,295 for one that is not reached.
pub fn compute_reachable(game: &[u32], out: &mut [u32], map: &mut [u32], work: &mut [u32]) -> Answer
    ensures equals { record { answer = result; out = out.new; mapping = map.new; work = work.new }
        ≡ restriction game.now out.old map.old work.old }
    ensures coded { said result
        ≡ said (restriction game.now out.old map.old work.old).answer }
    ensures restricts { Accepted result
        → Restricts game.now result out.new map.new (reached_vertices game.now) }
    ensures demand1 { RestrictionDemand1
        game.now out.old map.old work.old result
        out.new map.new work.new }
{
    restrict_lent(game, out, map, work).unwrap_or_else(Answer::from)
}
