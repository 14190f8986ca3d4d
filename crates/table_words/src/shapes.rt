// What the kind of a node says of it: how many children it has, and what its operand is.

ghost use Rattle.std.specs.Prelude.{◌≡◌, List, ℕ, ◌<◌, Result};
ghost use Rattle.rules.specs.Table.{Shape as NodeShape, size, kind};
ghost use Rattle.rules.specs.Table.{action_node, action_shape, regular_node, regular_shape};
ghost use Rattle.rules.specs.Table.{formula_node, formula_shape};
ghost use Rattle.node_kinds.specs.declared.UnknownKind.{UnknownKind};
ghost use Rattle.node_kinds.specs.Codes.{ReadsAction, ReadsRegular, ReadsFormula};
ghost use Rattle.table_words.specs.Shapes.{shape_in, shape_read};
ghost use Rattle.table_words.specs.Shapes.{action_kind_shape, regular_kind_shape, formula_kind_shape};
ghost use Rattle.table_words.specs.Laws.{action_reads, regular_reads, formula_reads};

use node_kinds::{ActionKind, FormulaKind, RegularKind, UnknownKind};

// How many children a node has.
#[derive(Clone, Copy, Debug, PartialEq, Eq)]
pub enum Arity {
    Leaf,
    Single,
    Pair,
}

// What the operand of a node is: 0, the right child, the name of something outside the table, or judged elsewhere.
#[derive(Clone, Copy, Debug, PartialEq, Eq)]
pub enum OperandRule {
    Zero,
    RightChild,
    OutsideName,
    NotJudged,
}

#[derive(Clone, Copy, Debug, PartialEq, Eq)]
pub struct Shape {
    pub arity: Arity,
    pub rule: OperandRule,
}

// The kinds of the nodes of a table.
// Kept (no plainer): `read` is `try_from` under the law of this trait: with `TryFrom` as a bound, its error would be a
// type to be bound as well, and what it answers be said of that.
pub trait NodeKind: Copy {
    // what is read for a word
    ghost read_gives: { ℕ → Result Self UnknownKind → Type 0 };

    // what the rules say of a node of a table
    ghost node_shape: { List ℕ → ℕ → NodeShape };

    // and of a kind
    ghost kind_shape: { Self → NodeShape };

    fn read(word: u32) -> Result<Self, UnknownKind>
        ensures { read_gives word result };

    fn shape(self) -> Shape
        ensures { shape_in result ≡ kind_shape self };

    // a node has the shape of the kind that its word is read as
    ghost reads: { (ws : List ℕ) (node : ℕ) (read : Result Self UnknownKind) → node < size ws
        → read_gives (kind ws node) read → node_shape ws node ≡ shape_read kind_shape read };
}

impl NodeKind for ActionKind {
    ghost read_gives = { ReadsAction };

    ghost node_shape = { λ ws node. action_shape (action_node ws node) };

    ghost kind_shape = { action_kind_shape };

    ghost reads = { action_reads };

    fn read(word: u32) -> Result<Self, UnknownKind> {
        ActionKind::try_from(word)
    }

    #[tactic(auto, unfolding(rules::specs::Table::decode_action, rules::specs::Table::action_shape))]
    fn shape(self) -> Shape {
        let (arity, rule) = match self {
            ActionKind::True | ActionKind::False => (Arity::Leaf, OperandRule::Zero),
            ActionKind::MultiAction => (Arity::Leaf, OperandRule::OutsideName),
            ActionKind::Union | ActionKind::Intersection => (Arity::Pair, OperandRule::RightChild),
            ActionKind::Negation => (Arity::Single, OperandRule::Zero),
        };
        Shape { arity, rule }
    }
}

impl NodeKind for RegularKind {
    ghost read_gives = { ReadsRegular };

    ghost node_shape = { λ ws node. regular_shape (regular_node ws node) };

    ghost kind_shape = { regular_kind_shape };

    ghost reads = { regular_reads };

    fn read(word: u32) -> Result<Self, UnknownKind> {
        RegularKind::try_from(word)
    }

    #[tactic(auto, unfolding(rules::specs::Table::decode_regular, rules::specs::Table::regular_shape))]
    fn shape(self) -> Shape {
        let (arity, rule) = match self {
            RegularKind::Action => (Arity::Leaf, OperandRule::OutsideName),
            RegularKind::Sequence | RegularKind::Choice => (Arity::Pair, OperandRule::RightChild),
            RegularKind::Star | RegularKind::Plus => (Arity::Single, OperandRule::Zero),
        };
        Shape { arity, rule }
    }
}

impl NodeKind for FormulaKind {
    ghost read_gives = { ReadsFormula };

    ghost node_shape = { λ ws node. formula_shape (formula_node ws node) };

    ghost kind_shape = { formula_kind_shape };

    ghost reads = { formula_reads };

    fn read(word: u32) -> Result<Self, UnknownKind> {
        FormulaKind::try_from(word)
    }

    #[tactic(auto, unfolding(rules::specs::Table::decode_formula, rules::specs::Table::formula_shape))]
    fn shape(self) -> Shape {
        let (arity, rule) = match self {
            FormulaKind::True | FormulaKind::False => (Arity::Leaf, OperandRule::Zero),
            FormulaKind::And | FormulaKind::Or => (Arity::Pair, OperandRule::RightChild),
            FormulaKind::Box | FormulaKind::Diamond => (Arity::Single, OperandRule::OutsideName),
            FormulaKind::Least | FormulaKind::Greatest => (Arity::Single, OperandRule::Zero),
            FormulaKind::Reference => (Arity::Leaf, OperandRule::NotJudged),
        };
        Shape { arity, rule }
    }
}
