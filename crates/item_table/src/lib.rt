// The formula compiled once into a table of items, which the steps of a run read.
#![tactic(auto)]

ghost use Rattle.std.specs.Prelude.{◌≡◌, ◌≤◌, ◌<◌, length};
ghost use Rattle.rules.specs.Lists.{zeros};
ghost use Rattle.rules.specs.Formula.{equation_count, first_body_node};
ghost use Rattle.rules.specs.Depth.{by_depth};
ghost use Rattle.rules.specs.Items.{items};
ghost use Rattle.labels.specs.Classes.{Classes};
ghost use Rattle.lent_input.specs.Inputs.{input_in};
ghost use Rattle.compiled.specs.Tables.{kinds_in, lefts_in, rights_in, priorities_in, classes_in};
ghost use Rattle.modal_equation_system.specs.System.{Good, Listed, Entered, RankedBy};
ghost use Rattle.alike_nodes.specs.Nodes.{ActionNumbers, FormulaNumbers};
ghost use Rattle.alike_nodes.specs.Facts.{action_numbers_prop};
ghost use Rattle.item_table.specs.Entries.{ItemTable, Ranks, ItemNumbers, NodeNumbered};
ghost use Rattle.item_table.specs.Entries.{ShownIn, KindsRoom, EntryPut, ItemsOnly, PrioritiesOnly};

use alike_nodes::{ActionNodes, FormulaNodes, number_nodes};
use compiled::{Compiled, Item};
use lent_input::Input;
use modal_equation_system::{EquationTable, Equations, is_fixpoint_at};
use node_kinds::{ActionKind, FormulaKind, Shape};
use words::{NODES, at};

// ---- numbers

// The first node that stands in a body: node 1 if node 0 is a fixpoint.
#[tactic(auto, using(modal_equation_system::proofs::Listing::byte_of), unfolding(rules::specs::Formula::first_body_node))]
fn first_body_node(formula: &[u32]) -> usize
    requires { Good formula.now }
    ensures { result ≡ first_body_node formula.now }
{
    usize::from(is_fixpoint_at(formula, 0))
}

// A node gets the number of its class, or the next one if its class has none (0) yet. Returns the number after those
// given.
// Kept (no plainer): 0 stands for no number, since item 0 is an equation, and the table is read as numbers.
fn number_node(numbers: &mut [u32], node: usize, class: usize, next: usize) -> usize
    requires { (node < length numbers.old) × (class < length numbers.old) × (next ≤ 2048) }
    ensures { NodeNumbered numbers.old numbers.new node class next result }
{
    let old = numbers[class];
    if old != 0 {
        numbers[node] = old;
        return next;
    }
    numbers[class] = next as u32;
    numbers[node] = next as u32;
    next + 1
}

// ---- the table

// Writes what an item is.
fn put_entry(compiled: &mut Compiled, index: usize, item: Item)
    requires { index < 2048 }
    ensures { EntryPut compiled.old compiled.new index item }
{
    compiled.items[index] = item;
}

// ---- what the items are made from: an input, and the equations of its formula

#[derive(Clone, Copy)]
struct Source<'a> {
    input: Input<'a>,
    table: &'a EquationTable,
    ghost listed: { Listed input.formula.now table.now },
    ghost entered: { Entered input.formula.now table.now },
}

impl<'a> Source<'a> {
    // The nodes of the formula, where `acts` has the numbers of the nodes of the action formulas.
    fn formula_nodes<'n>(&self, acts: &'n [u32]) -> FormulaNodes<'a, 'n>
        requires { ActionNumbers (input_in self.now.input) acts.now }
        ensures { result.input ≡ self.now.input }
    {
        FormulaNodes {
            input: self.input,
            acts,
            equations: &self.table.links,
        }
    }

    // Numbers the items: the equations come first, then the subformulas by the lowest node that carries them. The words
    // of `nodes` stand for the nodes' trees. Returns how many items there are.
    fn number_items(&self, nodes: &[u32], numbers: &mut [u32; NODES]) -> usize
        requires { FormulaNumbers (input_in self.now.input) nodes.now }
        ensures { let x = input_in self.now.input in
            (result ≡ length (items x)) × ItemNumbers x numbers.new }
    {
        numbers.fill(0);
        let formula = self.input.formula;
        let mut next = self.table.count;
        for node in first_body_node(formula)..at(formula, 0) {
            // Kept (no plainer): by index: `number_node` writes at the node and at its class, so an iterator over
            // either does not do.
            let class = at(nodes, node);
            next = number_node(numbers, node, class, next);
        }
        next
    }

    // Numbers the nodes of the action formulas, those of the formula, and the items. Returns how many items there are.
    fn number_all(
        &self,
        compiled: &Compiled,
        acts: &mut [u32; NODES],
        numbers: &mut [u32; NODES],
    ) -> usize
        requires { Classes self.now.input.labels.now (classes_in compiled.now) }
        ensures value { result ≡ length (items (input_in self.now.input)) }
        ensures item_numbers { ItemNumbers (input_in self.now.input) numbers.new }
        ensures action_numbers { ActionNumbers (input_in self.now.input) acts.new }
    {
        let mut action_shapes = [Shape::new(ActionKind::True, 0, 0); NODES];
        let action_nodes = ActionNodes {
            labels: self.input.labels,
            classes: compiled.classes(),
            actions: self.input.actions,
        };
        number_nodes(&action_nodes, &mut action_shapes, acts);
        let mut shapes = [Shape::new(FormulaKind::True, 0, 0); NODES];
        let mut nodes = [0u32; NODES];
        number_nodes(&self.formula_nodes(acts), &mut shapes, &mut nodes);
        self.number_items(&nodes, numbers)
    }

    // Numbers the nodes and puts all items into the table, with `acts` and `numbers` to work in. Returns how many items
    // there are.
    // Kept (no plainer): that the table has the labels' multisets is a clause of three functions: the table is lent to
    // be written, and a type that says it would have to promise besides that it stays the same.
    fn make_items(
        &self,
        acts: &mut [u32; NODES],
        numbers: &mut [u32; NODES],
        out: &mut Compiled,
    ) -> usize
        requires { Classes self.now.input.labels.now (classes_in out.old) }
        ensures value { result ≡ length (items (input_in self.now.input)) }
        ensures shown_in { let x = input_in self.now.input in ShownIn x (length (items x)) out.new }
        ensures kinds_room { KindsRoom out.new }
        ensures items_only { ItemsOnly out.old out.new }
    {
        let items = self.number_all(out, acts, numbers);
        let numbered = NumberedSource {
            source: *self,
            acts,
            numbers,
        };
        numbered.put_equations(out);
        numbered.put_subformulas(out);
        items
    }

    // Puts the priorities into the table: those of the equations, by depth, 0 elsewhere.
    #[tactic(auto, using(crate::proofs::Sources::source_few))]
    fn put_priorities(&self, compiled: &mut Compiled)
        ensures ranked_by { RankedBy by_depth self.now.input.formula.now self.now.table.now.count
            (zeros (priorities_in compiled.old)) (priorities_in compiled.new) }
        ensures priorities_only { PrioritiesOnly compiled.old compiled.new }
    {
        compiled.priorities.fill(0);
        let equations = Equations {
            formula: self.input.formula,
            table: self.table,
        };
        equations.list_priorities(self.table.count, &mut compiled.priorities);
    }
}

// ---- the same with its numbers: those of the nodes of the action formulas, and the items' of the formula's nodes

#[derive(Clone, Copy)]
struct NumberedSource<'a, 'n> {
    source: Source<'a>,
    acts: &'n [u32],
    numbers: &'n [u32],
    ghost action_numbers: { ActionNumbers (input_in source.input) acts.now } by { action_numbers_prop (input_in source.input) acts.now },
    ghost item_numbers: { ItemNumbers (input_in source.input) numbers.now },
}

impl<'a, 'n> NumberedSource<'a, 'n> {
    // Puts the equations into the table, least or greatest, with the item of its body at the left.
    #[tactic(auto, using(crate::proofs::Sources::source_few))]
    fn put_equations(&self, compiled: &mut Compiled)
        ensures { ShownIn (input_in self.now.source.input) self.now.source.table.now.count compiled.new
            × ItemsOnly compiled.old compiled.new × KindsRoom compiled.new }
    {
        let table = self.source.table;
        for equation in 0..table.count {
            let body = table.body_of(equation);
            let item = Item {
                kind: table.operator_of(equation),
                left: self.numbers[body],
                right: 0,
            };
            put_entry(compiled, equation, item);
        }
    }

    // Puts the subformulas into the table, after the equations: each node writes the entry of its item.
    fn put_subformulas(&self, compiled: &mut Compiled)
        requires { let x = input_in self.now.source.input in
            ShownIn x (equation_count x.formula) compiled.old }
        ensures { let x = input_in self.now.source.input in
            ShownIn x (length (items x)) compiled.new
            × ItemsOnly compiled.old compiled.new }
    {
        let formula = self.source.input.formula;
        let nodes = self.source.formula_nodes(self.acts);
        for node in first_body_node(formula)..at(formula, 0) {
            let shape = nodes.shape_in_body(self.numbers, node);
            put_entry(compiled, at(self.numbers, node), shape);
        }
    }
}

// Compiles the formula: fills the tables of the items and of their priorities (by depth), and leaves the others. The
// table of the labels' multisets is among these, and is read. Returns how many items there are.
pub fn compile(input: &Input<'_>, compiled: &mut Compiled) -> usize
    requires { Classes input.now.labels.now (classes_in compiled.old) }
    ensures value { result ≡ length (items (input_in input.now)) }
    ensures item_table { ItemTable (input_in input.now)
        (kinds_in compiled.new) (lefts_in compiled.new) (rights_in compiled.new) }
    ensures ranks { Ranks by_depth (input_in input.now) (priorities_in compiled.new) }
    ensures items_only { ItemsOnly compiled.old compiled.new }
{
    let mut table = EquationTable::zeros();
    let mut acts = [0u32; NODES];
    let mut numbers = [0u32; NODES];
    table.list_equations(input.formula);
    let source = Source {
        input: *input,
        table: &table,
    };
    let items = source.make_items(&mut acts, &mut numbers, compiled);
    source.put_priorities(compiled);
    items
}
