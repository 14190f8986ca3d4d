// The check of the action formulas: m, m kinds, m operands.
#![tactic(auto)]

ghost use Rattle.std.specs.Prelude.{◌≡◌, [], ◌∷◌, ◌<◌, length};
ghost use Rattle.rules.specs.Answers.{first_fault};
ghost use Rattle.rules.specs.Table.{size};
ghost use Rattle.rules.specs.Refusal.{fault_from, bad_action_operand, refusal31, refusal32, refusal33, refusal34};
ghost use Rattle.table_words.specs.Tables.{Sized};

use faults::fault_if;
use node_kinds::ActionKind;
use rules::Fault;
use table_words::{Row, Trees};
use words::NODES;

// The operand of a node is wrong. As a name, that of a multi-action, it is a label below L.
// Kept (no plainer): labels and trees are two parameters, and that the labels have a first word is a clause. In a
// struct of the two, `check_row` would make the trees, then the struct, and `check_trees` would still be lent the row
// beside it.
#[tactic(auto, unfolding(rules::specs::Refusal::bad_action_operand))]
fn bad_operand(labels: &[u32], trees: &Trees<'_, '_, ActionKind>, node: usize) -> bool
    requires { (0 < length labels.now) × (node < size trees.now.words.now) }
    ensures { result ≡ bad_action_operand labels.now trees.now.words.now node }
{
    trees.bad_operand(node, |label| words::at(labels, 0) <= label)
}

// 34: an operand.
fn check_operands(labels: &[u32], trees: &Trees<'_, '_, ActionKind>) -> Result<(), Fault>
    requires { 0 < length labels.now }
    ensures { result ≡ fault_from 34 0 (size trees.now.words.now)
        (bad_action_operand labels.now trees.now.words.now) }
{
    faults::first_fault(34, 0, trees.size(), |node| bad_operand(labels, trees, node))
}

// 34: an operand, or an unfinished tree.
#[tactic(auto, using(tables::proofs::Pools::refusal34_scan), unfolding(rules::specs::Answers::and_then))]
fn check_trees(
    labels: &[u32],
    trees: &Trees<'_, '_, ActionKind>,
    row: &Row<'_, '_, ActionKind>,
) -> Result<(), Fault>
    requires { (0 < length labels.now) × (row.now.words.now ≡ trees.now.words.now) }
    ensures { result ≡ refusal34 labels.now trees.now.words.now }
{
    check_operands(labels, trees)?;
    fault_if(34, trees.size() as u32, !row.is_finished())
}

// 34, for which the ends of the trees and the row are kept here.
fn check_row(labels: &[u32], actions: &[u32]) -> Result<(), Fault>
    requires { (0 < length labels.now) × Sized actions.now }
    ensures { result ≡ refusal34 labels.now actions.now }
{
    let mut ends = [0usize; NODES + 2];
    let trees = Trees::<ActionKind>::of(actions, &mut ends);
    let mut firsts = [false; NODES + 1];
    let row = trees.row(&mut firsts);
    check_trees(labels, &trees, &row)
}

// 31 to 34: the action formulas.
#[tactic(auto, unfolding(rules::specs::Answers::first_fault, rules::specs::Answers::and_then, rules::specs::Refusal::outside, rules::specs::Refusal::refusal31, rules::specs::Refusal::refusal32, rules::specs::Refusal::refusal33))]
pub fn check_actions(labels: &[u32], actions: &[u32]) -> Result<(), Fault>
    requires { 0 < length labels.now }
    ensures { result ≡ first_fault (refusal31 actions.now ∷ refusal32 actions.now
        ∷ refusal33 actions.now ∷ refusal34 labels.now actions.now ∷ []) }
{
    table_words::check_table(actions, 0, 5, 31)?;
    check_row(labels, actions)
}
