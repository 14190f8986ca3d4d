// A game's words, written from left to right out of the work words in which a walk stands and the table of items. A
// function that appends a stretch answers the place past it.
#![tactic(auto)]

ghost use Rattle.std.specs.Prelude.{◌≡◌, reverse, ◌+◌, ◌≤◌, ◌<◌, length, is_some, unwrap_or};
ghost use Rattle.rules.specs.Lists.{word};
ghost use Rattle.rules.specs.Game.{vertex_columns, edge_columns, game_of, padded};
ghost use Rattle.rules.specs.Vertices.{stuck_priority};
ghost use Rattle.words.specs.Stretches.{Wrote};
ghost use Rattle.work_slice.specs.Regions.{region_code, region, edges_end};
ghost use Rattle.compiled.specs.Tables.{kinds_in, priorities_in};
ghost use Rattle.settling.specs.Stand.{settled_in, degree_in};
ghost use Rattle.game_writer.specs.Shown.{loops_in, shown_vertices, Showing, Showable};

use compiled::Compiled;
use game_columns::Vertices;
use kinds::owner_of;
use pairs::Slots;
use parity_game::{OWNER, PRIORITY, STATE, TARGET};
use player::{Player, Priority, VertexIndex};
use rules::Room;
use settling::Counters;
use work_slice::{Region, edges_end, region_word};

// The priority of a vertex without targets: its owner loses there.
fn stuck_priority(owner: Player) -> Priority
    ensures { result.0 ≡ stuck_priority owner }
{
    let winner = owner.opponent();
    Priority(u32::from(winner))
}

// The words, the last one first, are appended.
// Kept (no plainer): slice and place apart, as crate `game_columns` says.
fn copy_down(words: &[u32], out: &mut [u32], start: usize) -> usize
    requires { start + length words.now ≤ length out.old }
    ensures { Wrote start (reverse words.now) out.old out.new result }
{
    // Kept (speed): by `copy_from_slice` and `reverse` runs on two shapes of the benchmark took 1.06 times as long, as
    // most vertices have one edge or two.
    for (i, word) in words.iter().rev().enumerate() {
        out[start + i] = *word;
    }
    start + words.len()
}

// What a walk knows: its first `known` vertices, in work words with room for so many edges, and the items that they
// hold. Every column of these vertices can be told.
#[derive(Clone, Copy)]
struct Walked<'w, 'c> {
    slots: Slots<'w>,
    edge_room: u32,
    compiled: &'c Compiled,
    known: u32,
    ghost showing: { Showing slots.work.now slots.vertices edge_room known },
}

impl<'w, 'c> Walked<'w, 'c> {
    // Where a column of the edges ends in the work slice: it is filled from there downwards.
    fn buffer_end(&self, column: usize) -> usize
        requires { column < length edge_columns }
        ensures { result ≡ edges_end self.now.slots.vertices self.now.edge_room column }
    {
        edges_end(self.slots.vertices, self.edge_room, column)
    }

    // One of the known vertices.
    fn at(&self, vertex: VertexIndex) -> KnownVertex<'w, 'c>
        requires { vertex.0 < self.now.known }
        ensures { (result.walked ≡ self.now) × (result.vertex ≡ vertex) }
    {
        KnownVertex {
            walked: *self,
            vertex,
        }
    }
}

// A vertex that a walk knows.
#[derive(Clone, Copy)]
struct KnownVertex<'w, 'c> {
    walked: Walked<'w, 'c>,
    vertex: VertexIndex,
    ghost known: { vertex.0 < walked.known },
}

impl KnownVertex<'_, '_> {
    ghost use Rattle.game_writer.specs.Walks.{player_in, owner_in, priority_in, word_in};

    // The vertex's word in a region of the work slice.
    fn region_word(self, area: Region) -> u32
        ensures { let slots = self.entry.walked.slots in
            result ≡ word (region (region_code area) slots.vertices slots.work.now) self.entry.vertex.0 }
    {
        let slots = self.walked.slots;
        region_word(slots.work, slots.vertices, area, self.vertex.0)
    }

    // How many edges it has; None before it is settled.
    fn degree(self) -> Option<u32>
        ensures settled { let slots = self.entry.walked.slots in
            is_some result ≡ settled_in slots.work.now slots.vertices self.entry.vertex.0 }
        ensures count { let slots = self.entry.walked.slots in
            unwrap_or result 0 ≡ degree_in slots.work.now slots.vertices self.entry.vertex.0 }
    {
        let held = self.region_word(Region::Degrees);
        held.checked_sub(1)
    }

    // Is it settled?
    fn is_settled(self) -> bool
        ensures { let slots = self.entry.walked.slots in
            result ≡ settled_in slots.work.now slots.vertices self.entry.vertex.0 }
    {
        self.degree().is_some()
    }

    // To whom its item belongs.
    fn player(self) -> Player
        ensures { result ≡ player_in self.entry.walked self.entry.vertex.0 }
    {
        let item = self.walked.slots.item_of(self.vertex);
        owner_of(self.walked.compiled.item_at(item).kind)
    }

    // The word that shows its owner.
    // Kept (rule): 2 is the word that document 01 has for a vertex that is not settled.
    fn owner_word(self) -> u32
        ensures { result ≡ owner_in self.entry.walked self.entry.vertex.0 }
    {
        if !self.is_settled() {
            return 2;
        }
        u32::from(self.player())
    }

    // Does its first edge lead back to it? Before it is settled it has none.
    fn first_loops(self) -> bool
        ensures { let walked = self.entry.walked in
            result ≡ loops_in walked.slots.work.now walked.slots.vertices walked.edge_room self.entry.vertex.0 }
    {
        let degree = self.degree().unwrap_or(0);
        if degree == 0 {
            return false;
        }
        let start = self.region_word(Region::Starts) as usize;
        let end = self.walked.buffer_end(TARGET);
        self.walked.slots.work[end - 1 - start] == self.vertex.0
    }

    // The priority that is shown of it.
    fn shown_priority(self) -> Priority
        ensures { result.0 ≡ priority_in self.entry.walked self.entry.vertex.0 }
    {
        if !self.is_settled() {
            return Priority(0);
        }
        if self.first_loops() {
            return stuck_priority(self.player());
        }
        let item = self.walked.slots.item_of(self.vertex);
        self.walked.compiled.priority_of(item)
    }

    // Its word in a column of the game.
    fn column_word(self, column: usize) -> u32
        requires { column < length vertex_columns }
        ensures { result ≡ word_in self.entry.walked column self.entry.vertex.0 }
    {
        match column {
            OWNER => self.owner_word(),
            PRIORITY => self.shown_priority().0,
            STATE => self.walked.slots.state_of(self.vertex),
            _ => self.walked.slots.item_of(self.vertex),
        }
    }
}

impl Vertices for Walked<'_, '_> {
    ghost use Rattle.game_writer.specs.Walks.{vertices_in};

    ghost shown = { vertices_in };

    fn count(&self) -> u32 {
        self.known
    }

    fn degree(&self, vertex: VertexIndex) -> u32 {
        self.at(vertex).degree().unwrap_or(0)
    }

    fn write_column(&self, column: usize, out: &mut [u32], start: usize) -> usize {
        for vertex in 0..self.known {
            // Kept (no plainer): as in `write_offsets` of crate `game_columns`.
            let shown = self.at(VertexIndex(vertex)).column_word(column);
            out[start + vertex as usize] = shown;
        }
        start + self.known as usize
    }

    #[tactic(auto, using(crate::proofs::Whole::shown_length))]
    fn write_edges(
        &self,
        column: usize,
        vertex: VertexIndex,
        out: &mut [u32],
        start: usize,
    ) -> usize {
        let known = self.at(vertex);
        let Some(degree) = known.degree() else {
            return start;
        };
        let first = known.region_word(Region::Starts) as usize;
        let past = self.buffer_end(column) - first;
        let edges = &self.slots.work[past - degree as usize..past];
        copy_down(edges, out, start)
    }
}

// The game of a walk that stands so: its known vertices and their edges, zeros past them.
pub fn write_game(
    game: &mut [u32],
    work: &[u32],
    compiled: &Compiled,
    room: Room,
    counters: Counters,
)
    requires { Showable work.now room.vertices room.edges counters.known counters.edges (length game.old) }
    ensures { game.new ≡ padded (length game.old) (game_of 0 (shown_vertices
        (kinds_in compiled.now) (priorities_in compiled.now)
        work.now room.vertices room.edges counters.known)) }
{
    let slots = Slots {
        work,
        vertices: room.vertices,
    };
    let walked = Walked {
        slots,
        edge_room: room.edges,
        compiled,
        known: counters.known,
    };
    game_columns::write_game(&walked, counters.edges, game);
}
