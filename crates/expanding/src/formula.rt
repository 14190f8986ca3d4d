// The formula handed over, expanded.

ghost use Rattle.std.specs.Prelude.{◌≡◌, ◌≤◌, ◌<◌};
ghost use Rattle.rules.specs.Table.{size};
ghost use Rattle.regular_rules.specs.Sizes.{size_at};
ghost use Rattle.regular_rules.specs.Good.{GoodTables};
ghost use Rattle.expanding.specs.Parts.{Roomy};
ghost use Rattle.expanding.specs.Formulas.{FormulaWritten};

use crate::modal::{Modality, write_modal};
use crate::table::{Part, bind, extend};
use node_kinds::FormulaKind;
use words::NODES;

// What a reference to a fixpoint of the formula handed over has for its node until it is bound: the sum of this and the
// node handed over, a number past all nodes.
const PENDING: usize = 2 * NODES;

// The formula at a node, expanded, up to node `end`. The answer is the part in which it stands.
pub fn write_formula(
    regulars: &[u32],
    formula: &[u32],
    node: usize,
    end: usize,
    out: &mut [u32],
) -> Part
    requires tables { GoodTables regulars.now formula.now × (node < size formula.now) }
    requires room { Roomy out.old × (end ≤ size out.old) }
    requires space { size_at regulars.now formula.now node ≤ end }
    ensures { FormulaWritten regulars.now formula.now node end out.old out.new result }
{
    let kind = FormulaKind::of(words::kind_at(formula, node));
    let operand = words::operand_at(formula, node);
    match kind {
        FormulaKind::True | FormulaKind::False => extend(out, Part::empty(end), kind, 0),
        FormulaKind::And | FormulaKind::Or => {
            let right = write_formula(regulars, formula, operand, end, out);
            let left = write_formula(regulars, formula, node + 1, right.start, out);
            let both = Part {
                start: left.start,
                end,
            };
            extend(out, both, kind, right.start)
        }
        FormulaKind::Box | FormulaKind::Diamond => {
            let body = write_formula(regulars, formula, node + 1, end, out);
            write_modal(regulars, Modality::of(kind), operand, body, out)
        }
        FormulaKind::Least | FormulaKind::Greatest => {
            let body = write_formula(regulars, formula, node + 1, end, out);
            bind(out, body, PENDING + node, body.start - 1);
            extend(out, body, kind, 0)
        }
        FormulaKind::Reference => extend(out, Part::empty(end), kind, PENDING + operand),
    }
}
