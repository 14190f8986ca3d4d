// One step of the walk over the pairs of an input, and the walk of at most k steps, in the lent work slice. The
// functions that are `pub` are parts of a run and are called by it alone: what holds of a whole run is said where the
// run is.
// Kept (no plainer): the work slice and its room are two parameters, as crate `settling` says.
#![tactic(auto)]

ghost use Rattle.std.specs.Prelude.{◌≡◌, map, ◌*◌, ◌<◌};
ghost use Rattle.rules.specs.Lists.{zeros};
ghost use Rattle.rules.specs.Pairs.{targets, transitions_behind};
ghost use Rattle.arena.specs.Arena.{Inside};
ghost use Rattle.lent_input.specs.Inputs.{input_in};
ghost use Rattle.node_kinds.specs.Codes.{formula_code};
ghost use Rattle.pairs.specs.Slot.{key_of};
ghost use Rattle.pairs.specs.Table.{state_at, item_at};
ghost use Rattle.settling.specs.Keys.{pair_key, key_targets, key_behind, root_key};
ghost use Rattle.settling.specs.Made.{AllFit, Answer, Ready, Sized};
ghost use Rattle.modalities.specs.Matched.{Unmarked};
ghost use Rattle.settling.specs.Good.{Good, StepAnswer, WalkMade, WalkAnswer};
ghost use Rattle.stepping.specs.Parts.{pair_in, top_of, PopAnswer, operands_of};
ghost use Rattle.stepping.specs.Answers.{TriedAnswer};

mod walk_tables;

use compiled::Item;
use lent_input::Input;
use modalities::Modality;
use pairs::{NoRoom, Slots};
use player::VertexIndex;
use rules::Room;
use settling::Counters;
pub use walk_tables::WalkTables;
use work_slice::Region;

// A state and the number of an item.
#[derive(Clone, Copy)]
pub struct Pair {
    pub state: u32,
    pub item: u32,
}

// The pair that a vertex stands for.
fn pair_of(slots: &Slots<'_>, vertex: VertexIndex) -> Pair
    requires { vertex.0 < slots.now.vertices }
    ensures { (result.state ≡ state_at slots.now.work.now slots.now.vertices vertex.0)
        × (result.item ≡ item_at slots.now.work.now slots.now.vertices vertex.0) }
{
    Pair {
        state: slots.state_of(vertex),
        item: slots.item_of(vertex),
    }
}

// A vertex taken off the stack: the counters without it, and the pair that it stands for.
#[derive(Clone, Copy)]
pub struct Popped {
    pub counters: Counters,
    pub vertex: VertexIndex,
    pub pair: Pair,
}

// Takes the vertex that was numbered last off the stack. Its edges start behind those that there are.
fn pop(counters: Counters, work: &mut [u32], room: Room) -> Popped
    requires ready { Ready work.old room.vertices room.edges counters }
    requires one_waits { (0 < counters.waiting) × (top_of work.old room.vertices counters < room.vertices) }
    ensures { PopAnswer work.old room.vertices counters work.new result }
{
    let vertices = room.vertices;
    let top = counters.waiting - 1;
    let vertex = VertexIndex(work_slice::region_word(work, vertices, Region::Stack, top));
    let pair = pair_of(&Slots { work, vertices }, vertex);
    work_slice::put_word(work, vertices, Region::Starts, vertex.0, counters.edges);
    Popped {
        counters: Counters {
            waiting: top,
            ..counters
        },
        vertex,
        pair,
    }
}

// The targets of a pair of this state and an item that is no modality are met and get their edges: they stay at the
// state.
fn settle_at_state(
    counters: Counters,
    work: &mut [u32],
    room: Room,
    state: u32,
    item: Item,
) -> Result<Counters, NoRoom>
    requires ready { Ready work.old room.vertices room.edges counters }
    requires all_fit { AllFit state (operands_of (formula_code item.kind) item.left item.right) }
    ensures { let items = operands_of (formula_code item.kind) item.left item.right in
        Answer work.old room.vertices room.edges counters (map (key_of state) items) (zeros items)
        work.new result }
{
    if item.kind.is_constant() {
        return Ok(counters);
    }
    let operands = [item.left, item.right];
    let items = &operands[..kinds::operand_count(item.kind)];
    settling::settle_operands(counters, work, room, state, items)
}

// The targets of a popped vertex are met and get their edges, by the kind of its item: crate `kinds` has the rules.
fn settle(
    popped: Popped,
    tables: &WalkTables<'_>,
    work: &mut [u32],
    room: Room,
) -> Result<Counters, NoRoom>
    requires inside { Inside (input_in tables.now.input) (pair_in popped.pair) }
    requires unmarked { Unmarked work.old room popped.counters }
    ensures { let x = input_in tables.now.input in
        let pair = pair_in popped.pair in
        Answer work.old room.vertices room.edges popped.counters (map pair_key (targets x pair))
        (map (transitions_behind x pair) (targets x pair)) work.new result }
{
    let counters = popped.counters;
    let pair = popped.pair;
    let item = tables.compiled.item_at(pair.item);
    if item.kind.is_modality() {
        let modality = Modality {
            state: pair.state,
            action: item.right,
            operand: item.left,
        };
        return modalities::settle_modality(counters, &tables.model(), work, room, modality);
    }
    settle_at_state(counters, work, room, pair.state, item)
}

// The waiting vertex that was numbered last is settled.
pub fn step(
    counters: Counters,
    tables: &WalkTables<'_>,
    work: &mut [u32],
    room: Room,
) -> Result<Counters, NoRoom>
    requires { let x = input_in tables.now.input in
        Good (key_targets x) (key_behind x) (root_key x) work.old room.vertices room.edges counters }
    ensures { let x = input_in tables.now.input in
        StepAnswer (key_targets x) (key_behind x) (root_key x) work.old room.vertices
        room.edges counters work.new result }
{
    if counters.waiting == 0 {
        return Ok(counters);
    }
    let popped = pop(counters, work, room);
    let settled = popped.counters.settled;
    let made = settle(popped, tables, work, room)?;
    // Kept (speed): `made` has the same number of settled vertices. Of counters that a call leaves in memory, four
    // words are read at once, and the processor waits until the last is written: a twentieth of a run of `alternation`.
    let made = Counters { settled, ..made };
    settling::close(made, work, room, popped.vertex, counters.edges)
}

// A step where the counters stand: at a refusal they stay as they are.
// Kept (rule): document 01 asks that each step updates the counters where they stand, thin over a step by value.
pub fn step_in_place(
    counters: &mut Counters,
    tables: &WalkTables<'_>,
    work: &mut [u32],
    room: Room,
) -> Result<(), NoRoom>
    requires { let x = input_in tables.now.input in
        Good (key_targets x) (key_behind x) (root_key x) work.old room.vertices room.edges counters.old }
    ensures { let x = input_in tables.now.input in
        TriedAnswer (key_targets x) (key_behind x) (root_key x) work.old room.vertices
        room.edges counters.old work.new counters.new result }
{
    let next = step(*counters, tables, work, room)?;
    *counters = next;
    Ok(())
}

// What a run may use: room for vertices and edges, and so many steps.
#[derive(Clone, Copy)]
pub struct Bounds {
    pub room: Room,
    pub limit: u32,
}

// At most `bounds.limit` steps from the beginning. The counters stand in one place, and each step updates them there.
pub fn walk(
    begun: Counters,
    tables: &WalkTables<'_>,
    work: &mut [u32],
    bounds: Bounds,
) -> Result<Counters, NoRoom>
    requires { let x = input_in tables.now.input in
        WalkMade (key_targets x) (key_behind x) (root_key x) bounds.room.vertices bounds.room.edges 0 work.old begun }
    ensures { let x = input_in tables.now.input in
        WalkAnswer (key_targets x) (key_behind x) (root_key x) bounds.room.vertices
        bounds.room.edges bounds.limit work.new result }
{
    let mut counters = begun;
    for _done in 0..bounds.limit {
        if counters.waiting == 0 {
            return Ok(counters);
        }
        step_in_place(&mut counters, tables, work, bounds.room)?;
    }
    Ok(counters)
}

// The walk before its first step, whatever the work words hold.
pub fn begin(input: &Input<'_>, work: &mut [u32], room: Room) -> Result<Counters, NoRoom>
    requires { Sized work.old room.vertices room.edges }
    ensures { let x = input_in input.now in
        WalkAnswer (key_targets x) (key_behind x) (root_key x) room.vertices room.edges 0
        work.new result }
{
    let vertices = room.vertices;
    pairs::start(work, vertices);
    work_slice::clear(work, vertices, Region::Marks, 0, vertices);
    work_slice::clear(work, vertices, Region::Degrees, 0, vertices);
    let initial = input.system[2];
    let none = Counters::default();
    let met = settling::meet(none, work, room, initial, 0)?;
    Ok(met.counters)
}
