// How many nodes the expanded formula has, told without writing it: there can be exponentially many. Each node of
// either table is gone through once, and counting stops at 1,025, one more than a table may have.
#![tactic(auto)]

ghost use Rattle.std.specs.Prelude.{◌≡◌, ◌+◌, ◌<◌};
ghost use Rattle.rules.specs.Table.{size};
ghost use Rattle.tables.specs.Good.{GoodFormula};
ghost use Rattle.regular_rules.specs.Good.{GoodRegulars};
ghost use Rattle.regular_rules.specs.Refusals.{expanded_size};
ghost use Rattle.regular_rules.specs.Sizes.{capped, size_at};
ghost use Rattle.expanded_sizes.specs.Growths.{CountedFrom};

mod growth;
mod growths;

use growth::{Growth, counted};
use growths::Growths;
use node_kinds::FormulaKind;
use words::NODES;

// How many nodes a node of the formula is expanded to, where this is known of the later ones.
fn node_size(growths: &Growths<'_>, formula: &[u32], sizes: &[usize; NODES], node: usize) -> usize
    requires good { GoodFormula (size growths.now.regulars.now) formula.now × (node < size formula.now) }
    requires later { CountedFrom growths.now.regulars.now formula.now (node + 1) sizes.now }
    ensures { result ≡ capped (size_at growths.now.regulars.now formula.now node) }
{
    let operand = words::operand_at(formula, node);
    match FormulaKind::of(words::kind_at(formula, node)) {
        FormulaKind::True | FormulaKind::False | FormulaKind::Reference => 1,
        FormulaKind::And | FormulaKind::Or => counted(1 + sizes[node + 1] + sizes[operand]),
        FormulaKind::Box | FormulaKind::Diamond => growths.at(operand).above(sizes[node + 1]),
        FormulaKind::Least | FormulaKind::Greatest => counted(1 + sizes[node + 1]),
    }
}

// How many nodes the expanded formula has, counted to 1,025.
pub fn expanded_size(regulars: &[u32], formula: &[u32]) -> usize
    requires { GoodRegulars regulars.now × GoodFormula (size regulars.now) formula.now }
    ensures { result ≡ capped (expanded_size regulars.now formula.now) }
{
    let mut of_node = [Growth::action(); NODES];
    let growths = Growths::of(regulars, &mut of_node);
    let mut sizes = [0; NODES];
    for node in (0..words::at(formula, 0)).rev() {
        sizes[node] = node_size(&growths, formula, &sizes, node);
    }
    sizes[0]
}
