// Numbers for the nodes of the action formulas and of the formula: nodes with equal trees have one number. The nodes
// are gone through from the last to the first, so that a node's children have their numbers already and two nodes are
// compared by their kinds and two words each.
#![tactic(auto)]

ghost use Rattle.std.specs.Prelude.{◌≡◌, ℕ, ◌+◌, ◌≤◌, ◌<◌, true, length};
ghost use Rattle.std.proofs.Common.{rules};
ghost use Rattle.rules.specs.Words.{most_nodes};
ghost use Rattle.rules.specs.Labels.{label_count};
ghost use Rattle.rules.specs.Table.{size};
ghost use Rattle.rules.specs.Actions.{Action, action_tree};
ghost use Rattle.rules.specs.Formula.{Formula, formula_tree};
ghost use Rattle.tables.specs.Good.{GoodActions};
ghost use Rattle.labels.specs.Classes.{Classes};
ghost use Rattle.lent_input.specs.Inputs.{input_in};
ghost use Rattle.node_kinds.specs.declared.Shape.{Shape};
ghost use Rattle.alike_nodes.specs.Nodes.{Numbered, NumberGiven, ActionNumbers, EquationNumbers};
ghost use Rattle.alike_nodes.specs.Nodes.{NodeShown, ActionShows, FormulaShows};
ghost use Rattle.alike_nodes.specs.Facts.{action_numbers_prop, equation_numbers_prop};
ghost use Rattle.alike_nodes.specs.Laws.{action_one_shape, action_one_tree, formula_one_shape, formula_one_tree};

use lent_input::Input;
use node_kinds::{ActionKind, FormulaKind, Shape};
use words::{NODES, at, kind_at, operand_at};

// Nodes of a table of trees. Two nodes have one tree exactly where the shapes that show them are equal: a shape has the
// numbers of later nodes.
pub trait Nodes {
    type Kind: Copy + Eq;

    ghost Tree: { Type 0 };

    // the tree of a node, how many nodes there are, which shape shows a tree
    ghost tree: { Self → ℕ → Tree };

    ghost count: { Self → ℕ };

    ghost Shown: { Self → Tree → Shape Self.Kind → Type 0 };

    // How many nodes there are.
    fn count(&self) -> usize
        ensures { (result ≡ count self.now) × (result ≤ most_nodes) };

    // The shape of a node, where `numbers` has the later nodes.
    fn shape(&self, numbers: &[u32], node: usize) -> Shape<Self::Kind>
        requires inside { node < count self.now }
        requires numbered { Numbered (tree self.now) (count self.now) (node + 1) numbers.now }
        ensures { Shown self.now (tree self.now node) result };

    ghost one_kind: { (a b : Self.Kind) → Self.Kind.eq a b ≡ true → a ≡ b };

    ghost one_shape: { (x : Self) (t : Tree) (a b : Shape Self.Kind) → Shown x t a → Shown x t b → a ≡ b };

    ghost one_tree: { (x : Self) (s t : Tree) (a : Shape Self.Kind) → Shown x s a → Shown x t a → s ≡ t };
}

// ---- the nodes of the action formulas

// `classes` has the labels' multisets.
#[derive(Clone, Copy)]
pub struct ActionNodes<'a, 'c> {
    pub labels: &'a [u32],
    pub classes: &'c [u32],
    pub actions: &'a [u32],
    ghost good: { GoodActions (label_count labels.now) actions.now },
    ghost known: { Classes labels.now classes.now },
}

impl<'a, 'c> Nodes for ActionNodes<'a, 'c> {
    type Kind = ActionKind;

    ghost Tree = { Action };

    ghost tree = { λ x. action_tree x.labels.now x.actions.now };

    ghost count = { λ x. size x.actions.now };

    ghost Shown = { λ x. ActionShows x.labels.now x.actions.now };

    fn count(&self) -> usize {
        at(self.actions, 0)
    }

    #[tactic(auto, using(crate::proofs::ActionShapes::read_leaf, crate::proofs::ActionShapes::read_multi, crate::proofs::ActionShapes::read_one, crate::proofs::ActionShapes::read_two))]
    fn shape(&self, numbers: &[u32], node: usize) -> Shape<ActionKind> {
        let kind = ActionKind::of(kind_at(self.actions, node));
        let named = operand_at(self.actions, node);
        match kind {
            ActionKind::True | ActionKind::False => Shape::new(kind, 0, 0),
            ActionKind::MultiAction => Shape::new(kind, self.classes[named], 0),
            ActionKind::Union | ActionKind::Intersection => {
                Shape::new(kind, numbers[node + 1], numbers[named])
            }
            ActionKind::Negation => Shape::new(kind, numbers[node + 1], 0),
        }
    }

    ghost one_kind = { Prim.search rules };

    ghost one_shape = { λ x. action_one_shape x.labels.now x.actions.now };

    ghost one_tree = { λ x. action_one_tree x.labels.now x.actions.now };
}

// ---- the nodes of the formula

// `acts` has the numbers of the nodes of the action formulas, `equations` those of the fixpoints' equations.
#[derive(Clone, Copy)]
pub struct FormulaNodes<'a, 'n> {
    pub input: Input<'a>,
    pub acts: &'n [u32],
    pub equations: &'a [u32],
    ghost action_numbers: { ActionNumbers (input_in input) acts.now } by { action_numbers_prop (input_in input) acts.now },
    ghost equation_numbers: { EquationNumbers input.formula.now equations.now } by { equation_numbers_prop input.formula.now equations.now },
}

impl<'a, 'n> FormulaNodes<'a, 'n> {
    // The shape of a node as it stands in a body. Its operands are shown by their numbers, its action formula by the
    // number in `acts`.
    #[tactic(auto, using(crate::proofs::FormulaShapes::body_leaf, crate::proofs::FormulaShapes::body_fixpoint, crate::proofs::FormulaShapes::body_reference, crate::proofs::FormulaShapes::body_two, crate::proofs::FormulaShapes::body_modal))]
    pub fn shape_in_body(&self, numbers: &[u32], node: usize) -> Shape<FormulaKind>
        requires inside { let x = input_in self.now.input in
            (node < size x.formula) × (size x.formula ≤ length numbers.now) }
        ensures { NodeShown (input_in self.now.input) numbers.now node result }
    {
        let formula = self.input.formula;
        let kind = FormulaKind::of(kind_at(formula, node));
        let operand = operand_at(formula, node);
        match kind {
            FormulaKind::True | FormulaKind::False => Shape::new(kind, 0, 0),
            FormulaKind::And | FormulaKind::Or => {
                Shape::new(kind, numbers[node + 1], numbers[operand])
            }
            FormulaKind::Box | FormulaKind::Diamond => Shape::new(
                kind,
                numbers[node + 1],
                self.acts[operand],
            ),
            FormulaKind::Least | FormulaKind::Greatest => {
                Shape::new(FormulaKind::Reference, self.equations[node], 0)
            }
            FormulaKind::Reference => Shape::new(kind, self.equations[operand], 0),
        }
    }
}

impl<'a, 'n> Nodes for FormulaNodes<'a, 'n> {
    type Kind = FormulaKind;

    ghost Tree = { Formula };

    ghost tree = { λ x. formula_tree (input_in x.input) };

    ghost count = { λ x. size x.input.formula.now };

    ghost Shown = { λ x. FormulaShows (input_in x.input) };

    fn count(&self) -> usize {
        at(self.input.formula, 0)
    }

    fn shape(&self, numbers: &[u32], node: usize) -> Shape<FormulaKind> {
        self.shape_in_body(numbers, node)
    }

    ghost one_kind = { Prim.search rules };

    ghost one_shape = { λ x. formula_one_shape (input_in x.input) };

    ghost one_tree = { λ x. formula_one_tree (input_in x.input) };
}

// ---- the number of a node

// The number of a node of this shape, given the shapes of the later nodes: the number of the first that has it, or its
// own.
fn number_of<T: Nodes>(
    later: &[Shape<T::Kind>],
    numbers: &[u32],
    node: usize,
    shape: Shape<T::Kind>,
) -> u32
    requires { (node + 1 + length later.now ≤ length numbers.now) × (node < most_nodes) }
    ensures { NumberGiven later.now numbers.now node shape result }
{
    match later.iter().position(|other| *other == shape) {
        Some(ahead) => numbers[node + 1 + ahead],
        None => node as u32,
    }
}

// Numbers the nodes, with `shapes` to work in.
// Kept (rule): shapes and numbers lie in two arrays that the caller lends: the numbers go out to it, the shapes only
// tell what number a node gets. There is no heap, and so no map from shapes to numbers.
// Kept (rule): `numbers` may be longer than NODES words: an array of that length would ask more of a caller.
pub fn number_nodes<T: Nodes>(nodes: &T, shapes: &mut [Shape<T::Kind>; NODES], numbers: &mut [u32])
    requires room { most_nodes ≤ length numbers.old }
    ensures { Numbered (T.tree nodes.now) (T.count nodes.now) 0 numbers.new }
{
    let count = nodes.count();
    // Kept (no plainer): by index: the later nodes' numbers are read while the node's is written.
    for node in (0..count).rev() {
        let shape = nodes.shape(numbers, node);
        let shown = &shapes[..];
        numbers[node] = number_of::<T>(&shown[node + 1..count], numbers, node, shape);
        shapes[node] = shape;
    }
}
