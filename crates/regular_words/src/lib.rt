// The check of the regular formulas: m, m kinds, m operands (#104). It asks of them what 31 to 34 ask of the action
// formulas; whatever it finds is fault 61 at place 0.
#![tactic(auto)]

ghost use Rattle.std.specs.Prelude.{◌≡◌, not, ◌<◌};
ghost use Rattle.rules.specs.Answers.{and_then, fault_if, first_fault};
ghost use Rattle.rules.specs.Table.{size, regular_children, on_row};
ghost use Rattle.rules.specs.Refusal.{fault_from};
ghost use Rattle.table_words.specs.Tables.{Sized};
ghost use Rattle.regular_rules.specs.Refusals.{bad_regular_operand, refusal61};
ghost use Rattle.regular_words.specs.Checks.{regular_checks};

use faults::fault_if;
use node_kinds::{ActionKind, RegularKind};
use rules::Fault;
use table_words::{Row, Trees};
use words::NODES;

// The operand of a node is wrong. As a name, that of an action formula, it is the first node of a tree of the row.
#[tactic(auto, unfolding(regular_rules::specs::Refusals::bad_regular_operand))]
fn bad_operand(
    row: &Row<'_, '_, ActionKind>,
    trees: &Trees<'_, '_, RegularKind>,
    node: usize,
) -> bool
    requires { node < size trees.now.words.now }
    ensures { result ≡ bad_regular_operand row.now.words.now trees.now.words.now node }
{
    trees.bad_operand(node, |named| row.names_no_root(named))
}

// As 34 of the action formulas: an operand.
fn check_operands(
    row: &Row<'_, '_, ActionKind>,
    trees: &Trees<'_, '_, RegularKind>,
) -> Result<(), Fault>
    ensures { result ≡ fault_from 34 0 (size trees.now.words.now)
        (bad_regular_operand row.now.words.now trees.now.words.now) }
{
    faults::first_fault(34, 0, trees.size(), |node| bad_operand(row, trees, node))
}

// As 34 of the action formulas: an operand, or an unfinished tree. The ends of the trees and the rows of both tables
// are kept here.
#[tactic(auto, unfolding(rules::specs::Answers::and_then))]
fn check_trees(actions: &[u32], regulars: &[u32]) -> Result<(), Fault>
    requires { Sized actions.now × Sized regulars.now }
    ensures { result ≡ and_then (fault_from 34 0 (size regulars.now) (bad_regular_operand actions.now regulars.now))
        (fault_if 34 (size regulars.now)
        (not (on_row (regular_children regulars.now) (size regulars.now) (size regulars.now)))) }
{
    let mut ends = [0usize; NODES + 2];
    let mut action_firsts = [false; NODES + 1];
    let action_row = Trees::<ActionKind>::of(actions, &mut ends).row(&mut action_firsts);
    let trees = Trees::<RegularKind>::of(regulars, &mut ends);
    check_operands(&action_row, &trees)?;
    let mut firsts = [false; NODES + 1];
    let row = trees.row(&mut firsts);
    fault_if(34, trees.size() as u32, !row.is_finished())
}

// As 31 to 34 of the action formulas: the length, the number of nodes, the kinds, then the trees.
#[tactic(auto, unfolding(rules::specs::Answers::first_fault, rules::specs::Answers::and_then))]
fn check_as_actions(actions: &[u32], regulars: &[u32]) -> Result<(), Fault>
    requires { Sized actions.now }
    ensures { result ≡ first_fault (regular_checks actions.now regulars.now) }
{
    table_words::check_table(regulars, 0, 4, 31)?;
    check_trees(actions, regulars)
}

// 61: the regular formulas.
#[tactic(auto, using(crate::proofs::Malformed::malformed_told), unfolding(regular_rules::specs::Refusals::refusal61))]
pub fn check_regulars(actions: &[u32], regulars: &[u32]) -> Result<(), Fault>
    requires { Sized actions.now }
    ensures { result ≡ refusal61 actions.now regulars.now }
{
    let is_malformed = check_as_actions(actions, regulars).is_err();
    fault_if(61, 0, is_malformed)
}
