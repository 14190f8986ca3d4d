// Writing an expanded formula, whose number of nodes is known. The table is filled from right to left, each part just
// before what stands already, so no part is moved later. The second part of a choice stands before the formula itself,
// the first before a copy of it. A reference to a fixpoint that is not written yet has a number past all nodes in place
// of the fixpoint's node. It is bound once that node is known: the number becomes the node.
#![tactic(auto)]

ghost use Rattle.std.specs.Prelude.{◌≡◌, ◌≤◌, length};
ghost use Rattle.rules.specs.Words.{most_nodes};
ghost use Rattle.rules.specs.Game.{padded};
ghost use Rattle.writing.specs.FormulaSyntax.{words_over};
ghost use Rattle.regular_rules.specs.Regular.{regular_tree};
ghost use Rattle.writing.specs.FormulaReading.{formula_syntax, itself};
ghost use Rattle.regular_rules.specs.Expand.{expansion_of};
ghost use Rattle.regular_rules.specs.Refusals.{table_length, expanded_size};
ghost use Rattle.regular_rules.specs.Good.{GoodTables};

mod formula;
mod modal;
mod table;

use formula::write_formula;

// The formula handed over, expanded, as a table of so many nodes, and zeros past it.
pub fn write_expanded(regulars: &[u32], formula: &[u32], nodes: usize, out: &mut [u32])
    requires tables { GoodTables regulars.now formula.now }
    requires room { length out.old ≡ table_length }
    requires size { (nodes ≡ expanded_size regulars.now formula.now) × (nodes ≤ most_nodes) }
    ensures { out.new ≡ padded table_length
        (words_over itself (expansion_of regulars.now formula.now)) }
{
    out[0] = nodes as u32;
    write_formula(regulars, formula, 0, nodes, out);
    out[1 + 2 * nodes..].fill(0);
}
