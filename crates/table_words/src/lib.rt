// Tables of trees as words: m, m kinds, m operands. What the checks of all tables ask of one stands here.
#![tactic(auto)]

ghost use Rattle.std.specs.Prelude.{◌≡◌, ◌<◌, ltb};
ghost use Rattle.rules.specs.Table.{size, kind};
ghost use Rattle.rules.specs.Answers.{first_fault};
ghost use Rattle.rules.specs.Refusal.{fault_from};
ghost use Rattle.table_words.specs.Tables.{Sized, table_checks};

mod shapes;
mod trees;

use faults::fault_if;
use rules::Fault;
pub use shapes::{NodeKind, OperandRule, Shape};
pub use trees::{FirstNodes, Row, TreeEnds, Trees, first_nodes, tree_ends};
use words::NODES;

// Fault `number` at the first node whose kind is above `most`.
// Kept (rule): the greatest kind is a number, here and below: the check is of any table, and by the kinds of a
// `NodeKind` it would be of three only.
fn check_kinds(ws: &[u32], most: usize, number: u32) -> Result<(), Fault>
    requires { Sized ws.now }
    ensures { result ≡ fault_from number 0 (size ws.now)
        (λ node. ltb most (kind ws.now node)) }
{
    faults::first_fault(
        number,
        0,
        words::at(ws, 0),
        |node| most < words::kind_at(ws, node) as usize,
    )
}

// The checks that all tables begin with, of the length, of the number of nodes, which is `fewest` at least, and of the
// kinds, which are `most` at most. Their faults have the numbers from `number` on.
#[tactic(auto, using(tables::proofs::Faults::if_passed), unfolding(rules::specs::Answers::first_fault, rules::specs::Answers::and_then, rules::specs::Refusal::differ, rules::specs::Refusal::outside))]
pub fn check_table(ws: &[u32], fewest: usize, most: usize, number: u32) -> Result<(), Fault>
    requires { number < 100 }
    ensures { result ≡ first_fault (table_checks number fewest most ws.now) }
{
    let wrong_length = ws.is_empty() || ws.len() != 1 + 2 * words::at(ws, 0);
    fault_if(number, 0, wrong_length)?;
    let count = words::at(ws, 0);
    let wrong_count = count < fewest || NODES < count;
    fault_if(number + 1, 0, wrong_count)?;
    check_kinds(ws, most, number + 2)
}
