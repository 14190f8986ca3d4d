// What is checked before a run begins, in the order of the refusals: the room and the lent slices, then the words.
#![tactic(auto)]

ghost use Rattle.std.specs.Prelude.{◌≡◌, ◌<◌, length};
ghost use Rattle.std.specs.declared.result.Result.TheVariants.{Ok};
ghost use Rattle.rules.specs.Words.{input_of};
ghost use Rattle.rules.specs.Answers.{and_then, first_fault};
ghost use Rattle.rules.specs.Refusal.{refusal1, refusal2, input_refusal, refusal};
ghost use Rattle.inputs.specs.Groups.{formula_checks};
ghost use Rattle.inputs.specs.Accepting.{checked};

use faults::fault_if;
use lent_input::Input;
use node_kinds::ActionKind;
use rules::{Fault, Room};

// What a run is lent to build its game in: the room, and how long the slices for the game and the work are.
#[derive(Clone, Copy)]
pub struct Lent {
    pub room: Room,
    pub game: usize,
    pub work: usize,
}

// 1: the room is out of range. 2: the game slice or the work slice is not as long as the room asks.
#[tactic(auto, unfolding(rules::specs::Answers::and_then, rules::specs::Refusal::differ, rules::specs::Refusal::refusal2, rules::specs::Words::game_length, rules::specs::Words::work_length))]
fn check_room(lent: Lent) -> Result<(), Fault>
    ensures { result ≡ and_then (refusal1 lent.room) (refusal2 lent.room lent.game lent.work) }
{
    parity_game::check_room(lent.room)?;
    let Room { vertices, edges } = lent.room;
    let wrong_length = lent.game != parity_game::game_words(vertices as usize, edges as usize)
        || lent.work != work_slice::edges_end(vertices, edges, parity_game::COUNT);
    fault_if(2, 0, wrong_length)
}

// 31 to 45: the action formulas, then the formula.
#[tactic(auto, unfolding(rules::specs::Answers::first_fault, rules::specs::Answers::and_then))]
fn check_formulas(labels: &[u32], actions: &[u32], formula: &[u32]) -> Result<(), Fault>
    requires { 0 < length labels.now }
    ensures { result
        ≡ first_fault (formula_checks labels.now actions.now formula.now) }
{
    action_words::check_actions(labels, actions)?;
    formula_words::check_formula::<ActionKind>(actions, formula)
}

// 11 to 45: the labels, the system and the formulas.
#[tactic(auto, unfolding(rules::specs::Refusal::input_refusal, rules::specs::Answers::first_fault, rules::specs::Answers::and_then))]
fn check_words(
    labels: &[u32],
    system: &[u32],
    actions: &[u32],
    formula: &[u32],
) -> Result<(), Fault>
    ensures { result ≡ input_refusal
        (input_of labels.now system.now actions.now formula.now) }
{
    label_words::check_labels(labels)?;
    system_words::check_system(labels, system)?;
    check_formulas(labels, actions, formula)
}

// All that is checked before a run begins: the room with the lengths of the game slice and the work slice, then the
// words. This answers only whether they pass; `accept` gives the checked input, too.
// Kept (no plainer): the four slices are parameters here, since an `Input` of them is made only once they passed. A
// struct of the same four fields without its invariant would be made by `translate`, be taken apart by `check_words`
// for the checks of each slice, and be made an `Input` field by field in `accept`.
#[tactic(auto, unfolding(rules::specs::Refusal::refusal, rules::specs::Answers::first_fault, rules::specs::Answers::and_then))]
pub fn check(
    labels: &[u32],
    system: &[u32],
    actions: &[u32],
    formula: &[u32],
    lent: Lent,
) -> Result<(), Fault>
    ensures { result ≡ refusal
        (input_of labels.now system.now actions.now formula.now)
        lent.room lent.game lent.work }
{
    check_room(lent)?;
    check_words(labels, system, actions, formula)
}

// The words that passed all of these checks, as an input of which the checks are known.
pub fn accept<'a>(
    labels: &'a [u32],
    system: &'a [u32],
    actions: &'a [u32],
    formula: &'a [u32],
    lent: Lent,
) -> Result<Input<'a>, Fault>
    ensures checked { checked result ≡ refusal
        (input_of labels.entry.now system.entry.now actions.entry.now formula.entry.now)
        lent.room lent.game lent.work }
    ensures same { (input : Input) → result ≡ Ok input
        → (input.labels.now ≡ labels.entry.now) × (input.system.now ≡ system.entry.now)
        × (input.actions.now ≡ actions.entry.now) × (input.formula.now ≡ formula.entry.now) }
{
    check(labels, system, actions, formula, lent)?;
    Ok(Input {
        labels,
        system,
        actions,
        formula,
    })
}
