// The check of the formula: n, n kinds, n operands. Its modalities name trees of another table: of the action formulas,
// or of the regular formulas (#104).
#![tactic(auto)]

ghost use Rattle.std.specs.Prelude.{◌≡◌, ◌||◌, [], ◌∷◌, ◌<◌, eqb};
ghost use Rattle.tables.specs.Ends.{end_of};
ghost use Rattle.rules.specs.Answers.{first_fault};
ghost use Rattle.rules.specs.Formula.{is_fixpoint};
ghost use Rattle.rules.specs.Table.{size, kind, formula_children, formula_node, reference_of, is_some};
ghost use Rattle.rules.specs.Refusal.{fault_from, names_no_root, bad_formula_operand, wrong_reference, encloses};
ghost use Rattle.rules.specs.Refusal.{refusal41, refusal42, refusal43, refusal44, refusal45};
ghost use Rattle.node_kinds.specs.Codes.{ReadsFormula};
ghost use Rattle.table_words.specs.Tables.{Sized, children_of};

use faults::fault_if;
use node_kinds::{FormulaKind, UnknownKind};
use rules::Fault;
use table_words::{NodeKind, Row, Trees};
use words::NODES;

// A node of the formula, with the ends of its trees.
#[derive(Clone, Copy)]
struct FormulaNode<'t, 'a, 'b> {
    trees: &'t Trees<'a, 'b, FormulaKind>,
    node: usize,
    ghost inside: { node < size trees.now.words.now },
}

impl<'t, 'a, 'b> FormulaNode<'t, 'a, 'b> {
    // Its kind, if its word stands for one.
    fn kind(self) -> Result<FormulaKind, UnknownKind>
        ensures { ReadsFormula (kind self.entry.trees.now.words.now self.entry.node) result }
    {
        FormulaKind::try_from(words::kind_at(self.trees.words, self.node))
    }

    // Its operand is wrong. As a name, that of a modality, it is the first node of a tree of the row.
    #[tactic(auto, unfolding(rules::specs::Refusal::bad_formula_operand))]
    fn has_bad_operand<K: NodeKind>(self, row: &Row<'_, '_, K>) -> bool
        ensures { result ≡ bad_formula_operand
            (names_no_root (children_of K.node_shape row.now.words.now) (size row.now.words.now))
            self.entry.trees.now.words.now self.entry.node }
    {
        self.trees
            .bad_operand(self.node, |named| row.names_no_root(named))
    }

    // It is a fixpoint.
    fn is_fixpoint(self) -> bool
        ensures { result ≡ is_fixpoint (formula_node self.entry.trees.now.words.now self.entry.node) }
    {
        self.kind().is_ok_and(|kind| kind.is_fixpoint())
    }

    // It is a reference.
    fn is_reference(self) -> bool
        ensures { result ≡ is_some (reference_of (formula_node self.entry.trees.now.words.now self.entry.node)) }
    {
        self.kind().is_ok_and(|kind| kind == FormulaKind::Reference)
    }

    // It stands in the tree of another node, `outer`, below it.
    fn is_inside(self, outer: usize) -> bool
        ensures { result ≡ encloses self.entry.trees.now.words.now outer self.entry.node }
    {
        if self.node <= outer {
            return false;
        }
        let end = self.trees.end(outer);
        end <= self.trees.size() && self.node < end
    }

    // It is a reference to something other than an enclosing fixpoint.
    fn is_bad_reference(self) -> bool
        ensures { result ≡ wrong_reference self.entry.trees.now.words.now self.entry.node
            (reference_of (formula_node self.entry.trees.now.words.now self.entry.node)) }
    {
        if !self.is_reference() {
            return false;
        }
        let named = words::operand_at(self.trees.words, self.node);
        if !self.is_inside(named) {
            return true;
        }
        let outer = FormulaNode {
            trees: self.trees,
            node: named,
        };
        !outer.is_fixpoint()
    }
}

// 44: an operand, or nodes left over, of which the one at which the formula's tree ends is the first.
// Kept (no plainer): row and trees are two parameters: the row is of the table whose trees are named, and
// `check_references` reads the trees alone.
fn check_operands<K: NodeKind>(
    row: &Row<'_, '_, K>,
    trees: &Trees<'_, '_, FormulaKind>,
) -> Result<(), Fault>
    ensures { result ≡ fault_from 44 0 (size trees.now.words.now)
        (λ node. bad_formula_operand
        (names_no_root (children_of K.node_shape row.now.words.now) (size row.now.words.now))
        trees.now.words.now node
        || eqb node (end_of (formula_children trees.now.words.now) (size trees.now.words.now) 0)) }
{
    let end = trees.end(0);
    faults::first_fault(
        44,
        0,
        trees.size(),
        |node|
            requires { node < size trees.now.words.now }
        { FormulaNode { trees, node }.has_bad_operand(row) || node == end },
    )
}

// 44: an operand, nodes left over, or an unfinished tree.
#[tactic(auto, using(tables::proofs::Pools::refusal44_scan), unfolding(rules::specs::Answers::and_then))]
fn check_tree<K: NodeKind>(
    row: &Row<'_, '_, K>,
    trees: &Trees<'_, '_, FormulaKind>,
) -> Result<(), Fault>
    ensures { result ≡ refusal44
        (names_no_root (children_of K.node_shape row.now.words.now) (size row.now.words.now))
        trees.now.words.now }
{
    check_operands(row, trees)?;
    let count = trees.size();
    fault_if(44, count as u32, count < trees.end(0))
}

// 45: a reference.
#[tactic(auto, unfolding(rules::specs::Refusal::refusal45))]
fn check_references(trees: &Trees<'_, '_, FormulaKind>) -> Result<(), Fault>
    ensures { result ≡ refusal45 trees.now.words.now }
{
    faults::first_fault(
        45,
        0,
        trees.size(),
        |node|
            requires { node < size trees.now.words.now }
        { FormulaNode { trees, node }.is_bad_reference() },
    )
}

// 44 and 45, for which the ends of the trees and the row of the table whose trees are named are kept here.
#[tactic(auto, unfolding(rules::specs::Answers::first_fault, rules::specs::Answers::and_then))]
fn check_trees<K: NodeKind>(named: &[u32], formula: &[u32]) -> Result<(), Fault>
    requires { Sized named.now × Sized formula.now }
    ensures { result ≡ first_fault (refusal44
        (names_no_root (children_of K.node_shape named.now) (size named.now)) formula.now
        ∷ refusal45 formula.now ∷ []) }
{
    let mut ends = [0usize; NODES + 2];
    let mut firsts = [false; NODES + 1];
    let row = Trees::<K>::of(named, &mut ends).row(&mut firsts);
    let trees = Trees::<FormulaKind>::of(formula, &mut ends);
    check_tree(&row, &trees)?;
    check_references(&trees)
}

// 41 to 45: the formula, whose modalities name trees of a table of kinds K.
#[tactic(auto, unfolding(rules::specs::Answers::first_fault, rules::specs::Answers::and_then, rules::specs::Refusal::outside, rules::specs::Refusal::refusal41, rules::specs::Refusal::refusal42, rules::specs::Refusal::refusal43))]
pub fn check_formula<K: NodeKind>(named: &[u32], formula: &[u32]) -> Result<(), Fault>
    requires { Sized named.now }
    ensures { result ≡ first_fault (refusal41 formula.now ∷ refusal42 formula.now ∷ refusal43 formula.now
        ∷ refusal44 (names_no_root (children_of K.node_shape named.now) (size named.now)) formula.now
        ∷ refusal45 formula.now ∷ []) }
{
    table_words::check_table(formula, 1, 8, 41)?;
    check_trees::<K>(named, formula)
}
