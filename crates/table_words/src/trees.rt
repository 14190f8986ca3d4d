// A table of trees with the ends of its trees, and which of its nodes begin a tree of the row.

ghost use Rattle.std.specs.Prelude.{◌≡◌, Bool, true, false, ℕ, ◌+◌, ◌≤◌, ◌<◌, get_or};
ghost use Rattle.rules.specs.Table.{size, operand, tree_end, is_not_end, on_row};
ghost use Rattle.tables.specs.Ends.{end_of};
ghost use Rattle.table_words.specs.Shapes.{shape_in};
ghost use Rattle.rules.specs.Words.{most_nodes};
ghost use Rattle.rules.specs.Refusal.{names_no_root};
ghost use Rattle.table_words.specs.Tables.{Sized, children_of, bad_in, Ends, SomeEnds, Firsts};

use crate::shapes::{Arity, NodeKind, OperandRule, Shape};
use std::marker::PhantomData;
use words::NODES;

// Where the tree of each node ends, and of the two places past the nodes.
// Kept (no plainer): an unfinished tree has a number past the nodes as its end, for the reason at `node_end`: an Option
// would need a case of its own at each child.
pub type TreeEnds = [usize; NODES + 2];

// Whether a tree of the row begins at each node, and at the place past the nodes.
pub type FirstNodes = [bool; NODES + 1];

// What the rules say of a node, by the kind that its word is read as.
fn shape_at<K: NodeKind>(ws: &[u32], node: usize) -> Shape
    requires { Sized ws.now × (node < size ws.now) }
    ensures { shape_in result ≡ K.node_shape ws.now node }
{
    match K::read(ws[1 + node]) {
        Ok(kind) => kind.shape(),
        Err(_) => Shape {
            arity: Arity::Leaf,
            rule: OperandRule::NotJudged,
        },
    }
}

// The end of the tree of a node, where the ends of the later nodes are known. The end of an unfinished tree is one more
// than the number of nodes, which is its own end: a second child needs no case of its own for it.
fn node_end<K: NodeKind>(ws: &[u32], ends: &TreeEnds, node: usize) -> usize
    requires sized { Sized ws.now × (node < size ws.now) }
    requires by_index { (j : ℕ) → node + 1 ≤ j → j ≤ size ws.now + 1
        → get_or ends.now j 0 ≡ end_of (children_of K.node_shape ws.now) (size ws.now) j }
    ensures { result ≡ end_of (children_of K.node_shape ws.now) (size ws.now) node }
{
    match shape_at::<K>(ws, node).arity {
        Arity::Leaf => node + 1,
        Arity::Single => ends[node + 1],
        Arity::Pair => ends[ends[node + 1]],
    }
}

// The end of each node's tree, from right to left. At the two places past the nodes it is that of an unfinished tree.
pub fn tree_ends<K: NodeKind>(ws: &[u32], ends: &mut TreeEnds)
    requires { Sized ws.now }
    ensures { Ends (children_of K.node_shape ws.now) (size ws.now) ends.new }
{
    let count = words::at(ws, 0);
    ends[count + 1] = count + 1;
    ends[count] = count + 1;
    for node in (0..count).rev() {
        ends[node] = node_end::<K>(ws, ends, node);
    }
}

// The words of a table whose nodes have kinds K, with the ends of its trees.
#[derive(Drop)]
pub struct Trees<'a, 'b, K: NodeKind> {
    pub words: &'a [u32],
    ends: &'b TreeEnds,
    kinds: PhantomData<K>,
    ghost sized: { Sized words.now },
    ghost ends_known: { Ends (children_of K.node_shape words.now) (size words.now) ends.now },
}

impl<'a, 'b, K: NodeKind> Trees<'a, 'b, K> {
    // A table with the ends of its trees, for which a place is lent.
    pub fn of(words: &'a [u32], ends: &'b mut TreeEnds) -> Trees<'a, 'b, K>
        requires { Sized words.now }
        ensures { result.words.now ≡ words.entry.now }
    {
        tree_ends::<K>(words, ends);
        Trees {
            words,
            ends,
            kinds: PhantomData,
        }
    }

    // How many nodes there are.
    pub fn size(&self) -> usize
        ensures { result ≡ size self.now.words.now }
    {
        words::at(self.words, 0)
    }

    // Where the tree of a node ends, one more than the number of nodes if it is unfinished.
    pub fn end(&self, node: usize) -> usize
        requires { node ≤ size self.now.words.now }
        ensures { result
            ≡ end_of (children_of K.node_shape self.now.words.now) (size self.now.words.now) node }
    {
        self.ends[node]
    }

    // The operand `right` of a node with two children is not the second one, just past the tree of the first. It is not
    // judged if that tree is unfinished.
    fn is_not_right_child(&self, node: usize, right: usize) -> bool
        requires { node < size self.now.words.now }
        ensures { result ≡ is_not_end right (tree_end (children_of K.node_shape self.now.words.now)
            (size self.now.words.now) (node + 1)) }
    {
        let end = self.end(node + 1);
        end <= self.size() && right != end
    }

    // The operand of a node is wrong, by the rule of its kind. `unnamed` says of a name that it is that of nothing, and
    // is asked only where the operand is a name.
    pub fn bad_operand<F: Fn(usize) -> bool>(&self, node: usize, unnamed: F) -> bool
        requires node_bound { node < size self.now.words.now }
        requires callable { F.pre unnamed (operand self.now.words.now node) }
        ensures { (unnamed_at : ℕ → Bool)
            → ((r : Bool) → F.post unnamed (operand self.now.words.now node) r
            → r ≡ unnamed_at (operand self.now.words.now node))
            → result ≡ bad_in K.node_shape unnamed_at self.now.words.now node }
    {
        let operand = words::operand_at(self.words, node);
        match shape_at::<K>(self.words, node).rule {
            OperandRule::Zero => operand != 0,
            OperandRule::RightChild => self.is_not_right_child(node, operand),
            OperandRule::OutsideName => unnamed(operand),
            OperandRule::NotJudged => false,
        }
    }

    // The row of the table's trees, for which a place is lent.
    pub fn row<'c>(&self, firsts: &'c mut FirstNodes) -> Row<'a, 'c, K>
        ensures { result.words.now ≡ self.now.words.now }
    {
        first_nodes(self.ends, self.size(), firsts);
        Row {
            words: self.words,
            firsts,
            kinds: PhantomData,
        }
    }
}

// Marks which of `count` nodes begin a tree of the row, and, at the place past the nodes, whether the row's last tree
// is finished. Only the ends of their trees are read, whatever numbers of children the nodes have.
pub fn first_nodes(ends: &TreeEnds, count: usize, firsts: &mut FirstNodes)
    requires few { count ≤ most_nodes }
    requires ends_known { SomeEnds count ends.now }
    ensures { (c : ℕ → ℕ) → Ends c count ends.now → Firsts c count firsts.new }
{
    firsts.fill(false);
    let mut node = 0;
    // Kept (no plainer): each node is told by the end of the tree before it. By `successors` the closure would need a
    // clause of its own that its node lies in the row, beside the test that its answer does.
    while node <= count {
        firsts[node] = true;
        node = ends[node];
    }
}

// The words of a table, with the first nodes of the trees of its row.
// Kept (no plainer): `size` is asked of this and of `Trees`. A row cannot hold the trees: it is read, too, when their
// ends are lent on to another table (crate `formula_words`). A struct for the words would be one more to go through for
// all that read `words`, in code and in clauses; so that they are a table (`Sized`) is a clause of those who are handed
// words before their `Trees` are made.
#[derive(Drop)]
pub struct Row<'a, 'c, K: NodeKind> {
    pub words: &'a [u32],
    firsts: &'c FirstNodes,
    kinds: PhantomData<K>,
    ghost sized: { Sized words.now },
    ghost firsts_known: { Firsts (children_of K.node_shape words.now) (size words.now) firsts.now },
}

impl<'a, 'c, K: NodeKind> Row<'a, 'c, K> {
    // How many nodes there are.
    pub fn size(&self) -> usize
        ensures { result ≡ size self.now.words.now }
    {
        self.words[0] as usize
    }

    // A tree of the row begins at a node.
    pub fn has_tree_at(&self, node: usize) -> bool
        requires { node < size self.now.words.now }
        ensures { result ≡ on_row (children_of K.node_shape self.now.words.now) (size self.now.words.now) node }
    {
        self.firsts[node]
    }

    // A number is not that of a node at which a tree of the row begins.
    #[tactic(auto, unfolding(rules::specs::Refusal::names_no_root))]
    pub fn names_no_root(&self, named: usize) -> bool
        ensures { result ≡ names_no_root (children_of K.node_shape self.now.words.now) (size self.now.words.now) named }
    {
        self.size() <= named || !self.has_tree_at(named)
    }

    // The row's last tree is finished.
    pub fn is_finished(&self) -> bool
        ensures { result ≡ on_row (children_of K.node_shape self.now.words.now) (size self.now.words.now)
            (size self.now.words.now) }
    {
        self.firsts[self.size()]
    }
}
