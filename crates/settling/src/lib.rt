// The parts of a step that are the same whatever a pair's targets come from: a target is numbered, pushed if it is new,
// and given an edge in the lent work slice.
// Kept (no plainer): counters, work slice and room are three parameters. A struct of slice and room could promise only
// that the slice is long enough (`Sized`): `Ready` speaks of the counters too, and does not hold between the writes of
// a step. So three functions would lose a clause, and each contract would still speak of the slice inside the struct,
// and say besides that slice and room stay the same.
// Kept (no plainer): that a state can be numbered with an item (`Fitting`) is a clause of four functions here and of
// one in `modalities`: states come from the words of the system as numbers, and a type for them would be made at each
// transition and be taken apart for the key.
#![tactic(auto)]

ghost use Rattle.std.specs.Prelude.{◌≡◌, List, [], ◌∷◌, ◌++◌, map, ℕ, ◌+◌, ◌*◌, ◌≤◌, ◌<◌, length};
ghost use Rattle.rules.specs.Lists.{word, zeros};
ghost use Rattle.work_slice.specs.Regions.{Zeroed, edge_word};
ghost use Rattle.pairs.specs.Slot.{key_of};
ghost use Rattle.settling.specs.declared.Counters.{Counters};
ghost use Rattle.settling.specs.Stand.{counts_of, put_edge, put_count};
ghost use Rattle.settling.specs.declared.MarkedBy.TheVariants.{State};
ghost use Rattle.settling.specs.Made.{Ready, Fitting, AllFit, MeetAnswer, Answer, Gathering, Gathered, Raisable};
ghost use Rattle.settling.specs.Made.{Appended, marker, CloseAnswer};

use pairs::{NoRoom, Numbered};
use player::VertexIndex;
use rules::Room;
use work_slice::{Region, edges_end, put_word, region_word};

// Where a walk stands, in numbers.
#[derive(Clone, Copy, Default)]
pub struct Counters {
    pub known: u32,
    pub settled: u32,
    pub edges: u32,
    pub waiting: u32,
}

// What meeting a pair answers: its vertex, and where the walk stands now.
#[derive(Clone, Copy)]
pub struct Met {
    pub vertex: VertexIndex,
    pub counters: Counters,
}

// Where the target of the edge at a place stands. Its count stands behind it by as many words as edges fit.
// Kept (no plainer): 0 is the column of the targets, TARGET of crate `parity_game`, on which this crate does not stand.
fn edge_word(room: Room, place: u32) -> usize
    requires { place < room.edges }
    ensures { result ≡ edge_word room.vertices room.edges 0 place }
{
    edges_end(room.vertices, room.edges, 0) - 1 - (place as usize)
}

// An edge is put at a place of the edge buffer, behind which so many transitions stand.
fn put_edge(work: &mut [u32], room: Room, place: u32, target: VertexIndex, count: u32)
    requires { (place < room.edges) × (8 * room.vertices + 2 * room.edges ≤ length work.old) }
    ensures { work.new ≡ put_edge room.vertices room.edges place target.0 count work.old }
{
    let edge = edge_word(room, place);
    work[edge] = target.0;
    work[edge + room.edges as usize] = count;
}

// One edge more is put behind those that there are. Where there is no room for it, nothing is written.
fn append_edge(
    counters: Counters,
    work: &mut [u32],
    room: Room,
    target: VertexIndex,
    count: u32,
) -> Result<Counters, NoRoom>
    requires { (counters.edges ≤ room.edges) × (8 * room.vertices + 2 * room.edges ≤ length work.old) }
    ensures { Appended room.vertices room.edges counters target.0 count work.old work.new result }
{
    let edges = counters.edges;
    if edges == room.edges {
        return Err(NoRoom);
    }
    put_edge(work, room, edges, target, count);
    Ok(Counters {
        edges: edges + 1,
        ..counters
    })
}

// One more transition stands behind the edge at a place.
fn raise_count(work: &mut [u32], room: Room, place: u32)
    requires inside { (place < room.edges) × (8 * room.vertices + 2 * room.edges ≤ length work.old) }
    requires can_rise { word (counts_of work.old room.vertices room.edges room.edges) place < 4294967295 }
    ensures { work.new ≡ put_count room.vertices room.edges place
        (word (counts_of work.old room.vertices room.edges room.edges) place + 1)
        work.old }
{
    let count = edge_word(room, place) + room.edges as usize;
    work[count] += 1;
}

// A pair is numbered, and its vertex pushed if it is new.
pub fn meet(
    counters: Counters,
    work: &mut [u32],
    room: Room,
    state: u32,
    item: u32,
) -> Result<Met, NoRoom>
    requires { Ready work.old room.vertices room.edges counters × Fitting state item }
    ensures { MeetAnswer work.old work.new room.vertices counters (key_of state item) result }
{
    let before = counters.known;
    let waiting = counters.waiting;
    let Numbered { vertex, known } = pairs::number(work, room.vertices, before, state, item)?;
    if known == before {
        return Ok(Met { vertex, counters });
    }
    put_word(work, room.vertices, Region::Stack, waiting, vertex.0);
    let counters = Counters {
        known,
        waiting: waiting + 1,
        ..counters
    };
    Ok(Met { vertex, counters })
}

// One target is met and gets an edge.
fn number_target(
    counters: Counters,
    work: &mut [u32],
    room: Room,
    state: u32,
    item: u32,
) -> Result<Counters, NoRoom>
    requires { Ready work.old room.vertices room.edges counters × Fitting state item }
    ensures { Answer work.old room.vertices room.edges counters (key_of state item ∷ [])
        (0 ∷ []) work.new result }
{
    let met = meet(counters, work, room, state, item)?;
    append_edge(met.counters, work, room, met.vertex, 0)
}

// Where a step has more marks than the region has words, those past it become 0.
pub fn clear_marks(work: &mut [u32], room: Room, marks: u32)
    requires { 7 * room.vertices + marks ≤ length work.old }
    ensures { Zeroed work.old work.new (8 * room.vertices) (7 * room.vertices + marks) }
{
    if room.vertices < marks {
        work_slice::clear(work, room.vertices, Region::Marks, room.vertices, marks);
    }
}

// What tells the mark of a target: its state, or its vertex.
#[derive(Clone, Copy, Debug, PartialEq, Eq)]
pub enum MarkedBy {
    State,
    Vertex,
}

// Which mark belongs to a target.
fn mark_index(marked_by: MarkedBy, state: u32, vertex: VertexIndex) -> u32
    ensures { result ≡ marker marked_by state vertex.0 }
{
    match marked_by {
        MarkedBy::State => state,
        MarkedBy::Vertex => vertex.0,
    }
}

// What the targets of a modality share: the item of its operand, the place where their edges begin, and what tells
// their marks.
#[derive(Clone, Copy)]
pub struct Operand {
    pub item: u32,
    pub start: u32,
    pub marked_by: MarkedBy,
}

// One target of a modality is met, by one transition. The first time it gets an edge, and its mark holds the place of
// that edge: so one word shows whether it has its edge and where, and a later transition raises the edge's count
// without a search.
// Kept (no plainer): the mark is asked here as in `target_once`, which asks it before the pair is looked up. A function
// of both would save two lines at each of the two places, and its contract would have eight: what it asks for a mark
// and for the count behind it, that it answers whether one was found, and what it left in either case.
fn meet_once(
    counters: Counters,
    work: &mut [u32],
    room: Room,
    state: u32,
    operand: Operand,
) -> Result<Counters, NoRoom>
    ghost marks: { ℕ }
    requires ready { Ready work.old room.vertices room.edges counters × Fitting state operand.item
        × Raisable work.old room.vertices room.edges marks operand counters }
    requires has_mark { operand.marked_by ≡ State → state < marks }
    ensures { (w : List ℕ) (c : Counters) (ks : List ℕ) → operand.start ≡ c.edges
        → Gathering w room.vertices room.edges marks c operand ks work.old counters
        → Gathered w room.vertices room.edges marks c operand
        (ks ++ key_of state operand.item ∷ []) work.new result }
{
    let Met { vertex, counters } = meet(counters, work, room, state, operand.item)?;
    let index = mark_index(operand.marked_by, state, vertex);
    let mark = region_word(work, room.vertices, Region::Marks, index);
    if operand.start < mark {
        raise_count(work, room, mark - 1);
        return Ok(counters);
    }
    // The mark is put before the edge: put behind it, the benchmark's `boxes` takes 1.1 % more instructions. Where
    // there is no room for the edge the walk ends, and the mark is not read.
    let edges = counters.edges;
    put_word(work, room.vertices, Region::Marks, index, edges + 1);
    append_edge(counters, work, room, vertex, 1)
}

// One target of a modality is met as in `meet_once`, but a mark that goes by the state is read first: so only the first
// of all transitions to a state looks the pair up.
pub fn target_once(
    counters: Counters,
    work: &mut [u32],
    room: Room,
    state: u32,
    operand: Operand,
) -> Result<Counters, NoRoom>
    ghost marks: { ℕ }
    requires ready { Ready work.old room.vertices room.edges counters × Fitting state operand.item
        × Raisable work.old room.vertices room.edges marks operand counters }
    requires has_mark { operand.marked_by ≡ State → state < marks }
    ensures { (w : List ℕ) (c : Counters) (ks : List ℕ) → operand.start ≡ c.edges
        → Gathering w room.vertices room.edges marks c operand ks work.old counters
        → Gathered w room.vertices room.edges marks c operand
        (ks ++ key_of state operand.item ∷ []) work.new result }
{
    if let MarkedBy::State = operand.marked_by {
        let mark = region_word(work, room.vertices, Region::Marks, state);
        if operand.start < mark {
            raise_count(work, room, mark - 1);
            return Ok(counters);
        }
    }
    meet_once(counters, work, room, state, operand)
}

// Targets with the same state, in order: a target named twice gets two edges. One loop for one operand and for two, so
// that a target is numbered at one place of the code.
pub fn settle_operands(
    counters: Counters,
    work: &mut [u32],
    room: Room,
    state: u32,
    items: &[u32],
) -> Result<Counters, NoRoom>
    requires ready { Ready work.old room.vertices room.edges counters }
    requires fitting { AllFit state items.now }
    ensures { Answer work.old room.vertices room.edges counters (map (key_of state) items.now)
        (zeros items.now) work.new result }
{
    let mut so_far = counters;
    for item in items {
        so_far = number_target(so_far, work, room, state, *item)?;
    }
    Ok(so_far)
}

// The edges of a vertex are counted, after one to itself if it has none: with that it is settled.
pub fn close(
    counters: Counters,
    work: &mut [u32],
    room: Room,
    vertex: VertexIndex,
    start: u32,
) -> Result<Counters, NoRoom>
    requires { Ready work.old room.vertices room.edges counters × (vertex.0 < room.vertices)
        × (start ≤ counters.edges) × (counters.settled + counters.waiting < counters.known) }
    ensures { CloseAnswer work.old room.vertices room.edges vertex.0 start counters
        work.new result }
{
    let settled = counters.settled + 1;
    if counters.edges == start {
        let looped = append_edge(counters, work, room, vertex, 0)?;
        put_word(work, room.vertices, Region::Degrees, vertex.0, 2);
        return Ok(Counters { settled, ..looped });
    }
    let degree = counters.edges - start + 1;
    put_word(work, room.vertices, Region::Degrees, vertex.0, degree);
    Ok(Counters {
        settled,
        ..counters
    })
}
