// The step of a box or a diamond: an edge for each transition of the state whose label matches, once per target.
// Kept (no plainer): the work slice and its room are two parameters, as crate `settling` says.
// Kept (no plainer): that the labels lie below a bound is a clause: it is the number of the system's labels where they
// are read and decided, and that of the answers where these are looked up, and `Moves` holds neither. A type of moves
// with answers would serve two functions, and be made at two calls.
#![tactic(auto)]

ghost use Rattle.std.specs.Prelude.{◌≡◌, List, [], ◌∷◌, ◌++◌, ℕ, ◌≤◌, ◌<◌, eqb, length};
ghost use Rattle.rules.specs.Lists.{once};
ghost use Rattle.rules.specs.Words.{most_states, most_vertices, most_edges};
ghost use Rattle.rules.specs.Labels.{label_count};
ghost use Rattle.rules.specs.System.{state_count};
ghost use Rattle.rules.specs.Table.{size};
ghost use Rattle.rules.specs.Actions.{action_tree};
ghost use Rattle.settling.specs.declared.Counters.{Counters};
ghost use Rattle.settling.specs.declared.MarkedBy.TheVariants.{State};
ghost use Rattle.settling.specs.Made.{Ready, Fitting, Answer, tallies, Gathering, Gathered, Raisable};
ghost use Rattle.modalities.specs.Within.{Below};
ghost use Rattle.modalities.specs.Matched.{Unmarked, Spacious, OfState, Inside, model_in, moves_in};
ghost use Rattle.modalities.specs.Matched.{mark_count, marked_by};
ghost use Rattle.modalities.specs.Matched.{answer_count, Answered, answered_keys, matched_keys};
ghost use Rattle.modalities.specs.Matched.{modality_keys, modality_counts};

mod model;
mod moves;

use compiled::LABELS;
use match_table::ActionWords;
pub use model::ModelTables;
pub use moves::Moves;
use pairs::NoRoom;
use rules::Room;
use settling::{Counters, MarkedBy, Operand};
use words::at;

// An answer for each label that a system can have.
type Answers = [bool; LABELS];

// A modality at a state: the state, the node of its action formula, the item number of its operand.
#[derive(Clone, Copy)]
pub struct Modality {
    pub state: u32,
    pub action: u32,
    pub operand: u32,
}

// The transitions of a state: as many as its degree, from the first one on.
fn moves_of<'a>(tables: &ModelTables<'a>, state: u32) -> Moves<'a>
    requires { state < state_count tables.now.system.now }
    ensures labels { Below (label_count tables.now.labels.now) result.labels.now }
    ensures of_state { OfState tables.now.system.now state result }
{
    let system = tables.system;
    let index = state as usize;
    let first = transitions::first_transition(system, tables.compiled.samples(), index);
    let end = first + at(system, 3 + index);
    let columns = &system[3 + at(system, 0)..];
    let (labels, targets) = columns.split_at(at(system, 1));
    Moves {
        labels: &labels[first..end],
        targets: &targets[first..end],
        states: system[0],
    }
}

// One transition of a modality's state: its target is met if the answer for its label says so.
fn follow(
    counters: Counters,
    work: &mut [u32],
    room: Room,
    answers: &[bool],
    label: u32,
    target: u32,
    operand: Operand,
) -> Result<Counters, NoRoom>
    ghost marks: { ℕ }
    requires ready { Ready work.old room.vertices room.edges counters
        × Raisable work.old room.vertices room.edges marks operand counters }
    requires target { Fitting target operand.item × (operand.marked_by ≡ State → target < marks) }
    requires answer { label < length answers.now }
    ensures { (w : List ℕ) (c : Counters) (ks : List ℕ) → operand.start ≡ c.edges
        → Gathering w room.vertices room.edges marks c operand ks work.old counters
        → Gathered w room.vertices room.edges marks c operand
        (ks ++ answered_keys answers.now operand.item ((label, target) ∷ [])) work.new result }
{
    if answers[label as usize] {
        return settling::target_once(counters, work, room, target, operand);
    }
    Ok(counters)
}

// How many marks the targets of a step have: one for each vertex that fits, or for each state of the system where the
// marks past the vertices' are cheap to clear, beside so many transitions, and do not meet the edges of this step, of
// which there is at most one for each state.
// Kept (no plainer): `marked_by` tells from this number what the marks go by. A struct of both would be taken apart by
// the one caller, which clears so many marks before.
fn mark_count(room: Room, edges: u32, states: u32, transitions: usize) -> u32
    requires { (room.vertices ≤ most_vertices) × (room.edges ≤ most_edges) × (edges ≤ room.edges)
        × (states ≤ most_states) }
    ensures { result ≡ mark_count room.vertices room.edges edges states transitions }
{
    if states <= room.vertices {
        return room.vertices;
    }
    let more = states - room.vertices;
    if transitions < more as usize {
        return room.vertices;
    }
    if edges + states + more < room.edges {
        return states;
    }
    room.vertices
}

// The marks go by the states where there is one for each.
fn marked_by(states: u32, marks: u32) -> MarkedBy
    ensures { result ≡ marked_by states marks }
{
    if states <= marks {
        return MarkedBy::State;
    }
    MarkedBy::Vertex
}

// The transitions give their targets, each once, with the number of its transitions. This is where a walk spends its
// time: no label is decided here, and the words of labels and action formulas are no parameters, so that the compiler
// can keep what the loop needs in registers. The target of the next transition is read before the count of this one's
// is raised: on some machines a read waits for the place of the store before it.
// Kept (no plainer): the index: by `zip` with the targets from the second on, the last transition would be followed
// behind the loop, by a call of its own; by `windows` the last has none. By an iterator advanced beside the loop there
// would be an Option to ask in place of the index, and its rest to follow in the proof.
fn follow_all(
    counters: Counters,
    work: &mut [u32],
    room: Room,
    answers: &[bool],
    moves: Moves<'_>,
    operand: Operand,
) -> Result<Counters, NoRoom>
    ghost marks: { ℕ }
    requires ready { Ready work.old room.vertices room.edges counters × (operand.start ≡ counters.edges)
        × Spacious work.old moves.states room marks operand counters }
    requires answers { Below (length answers.now) moves.labels.now }
    requires item { operand.item < 2048 }
    ensures { let ks = answered_keys answers.now operand.item (moves_in moves.entry) in
        Answer work.old room.vertices room.edges counters (once eqb ks) (tallies ks) work.new result }
{
    let targets = moves.targets;
    if targets.is_empty() {
        return Ok(counters);
    }
    let mut so_far = counters;
    let mut ahead = targets[0];
    for (index, label) in moves.labels.iter().enumerate() {
        let target = ahead;
        if index + 1 < targets.len() {
            ahead = targets[index + 1];
        }
        so_far = follow(so_far, work, room, answers, *label, target, operand)?;
    }
    Ok(so_far)
}

// The marks of the step are cleared, then all its transitions are followed.
fn settle_matched(
    counters: Counters,
    work: &mut [u32],
    room: Room,
    answers: &[bool],
    moves: Moves<'_>,
    item: u32,
) -> Result<Counters, NoRoom>
    requires unmarked { Unmarked work.old room counters × (item < 2048) }
    requires answers { Below (length answers.now) moves.labels.now }
    ensures { let ks = answered_keys answers.now item (moves_in moves.entry) in
        Answer work.old room.vertices room.edges counters (once eqb ks) (tallies ks) work.new result }
{
    let marks = mark_count(room, counters.edges, moves.states, moves.targets.len());
    settling::clear_marks(work, room, marks);
    let operand = Operand {
        item,
        start: counters.edges,
        marked_by: marked_by(moves.states, marks),
    };
    follow_all(counters, work, room, answers, moves, operand)
}

// For the labels of the transitions it is decided whether the action formula at the node matches them. This stands in
// for a row of the table of matching labels, where the formula has none.
fn decide_labels(tables: &ModelTables<'_>, moves: Moves<'_>, node: usize, answers: &mut Answers)
    requires node { node < size tables.now.actions.now }
    requires labels { Below (label_count tables.now.labels.now) moves.labels.now }
    requires count { length answers.old ≡ answer_count }
    ensures count { length answers.new ≡ answer_count }
    ensures answered { Answered tables.now.labels.now (action_tree tables.now.labels.now tables.now.actions.now node)
        answers.new moves.entry.labels.now (length moves.entry.labels.now) }
{
    let classes = tables.compiled.classes();
    for label in moves.labels {
        let label = *label as usize;
        let multiset = at(classes, label);
        answers[label] = matching::match_action_formula(tables.actions, classes, multiset, node);
    }
}

// The targets of the transitions, where the action formula has no row: their labels are decided first.
fn settle_decided(
    counters: Counters,
    tables: &ModelTables<'_>,
    work: &mut [u32],
    room: Room,
    moves: Moves<'_>,
    modality: Modality,
) -> Result<Counters, NoRoom>
    requires unmarked { Unmarked work.old room counters }
    requires inside { Inside (model_in tables.now) modality }
    requires labels { Below (label_count tables.now.labels.now) moves.labels.now }
    ensures { let x = model_in tables.now in
        let ks = matched_keys x.labels (action_tree x.labels x.actions modality.action) modality.operand
        (moves_in moves.entry) in
        Answer work.old room.vertices room.edges counters (once eqb ks) (tallies ks) work.new result }
{
    let mut answers = [false; LABELS];
    let node = modality.action as usize;
    decide_labels(tables, moves, node, &mut answers);
    let item = modality.operand;
    settle_matched(counters, work, room, &answers, moves, item)
}

// The targets of a modality are met and get their edges, each with its count of matching transitions.
pub fn settle_modality(
    counters: Counters,
    tables: &ModelTables<'_>,
    work: &mut [u32],
    room: Room,
    modality: Modality,
) -> Result<Counters, NoRoom>
    requires { Unmarked work.old room counters × Inside (model_in tables.now) modality }
    ensures { let x = model_in tables.now in
        Answer work.old room.vertices room.edges counters (modality_keys x modality)
        (modality_counts x modality) work.new result }
{
    let moves = moves_of(tables, modality.state);
    let node = modality.action as usize;
    let words = ActionWords {
        labels: tables.labels,
        actions: tables.actions,
    };
    let Some(answers) = match_table::row(&words, tables.matched, node) else {
        return settle_decided(counters, tables, work, room, moves, modality);
    };
    let item = modality.operand;
    settle_matched(counters, work, room, answers, moves, item)
}
