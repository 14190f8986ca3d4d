// The table of matching labels. It is made once before the walk, so that the walk reads one answer for each transition
// instead of deciding an action formula there.
#![tactic(auto)]

ghost use Rattle.std.specs.Prelude.{◌≡◌, ◌≤◌, ◌<◌, length, IfSome};
ghost use Rattle.rules.specs.Labels.{label_count};
ghost use Rattle.rules.specs.Table.{size};
ghost use Rattle.tables.specs.Good.{GoodLabels, GoodActions};
ghost use Rattle.labels.specs.Classes.{Classes};
ghost use Rattle.compiled.specs.Tables.{classes_in};
ghost use Rattle.match_table.specs.Rows.{Row, MatchTable, NoRows, FirstRows};

use compiled::{Compiled, Item};
use matching::match_action_formula;
use words::{NODES, at};

// How many answers the rows have in all.
pub const ROW_ANSWERS: usize = 16384;

// The count of the rows is a byte.
const MOST_ROWS: u8 = 255;

// The labels and the action formulas of an input: all that the table is made of.
#[derive(Clone, Copy)]
pub struct ActionWords<'a> {
    pub labels: &'a [u32],
    pub actions: &'a [u32],
    ghost good: { GoodLabels labels.now × GoodActions (label_count labels.now) actions.now },
}

#[derive(Clone, Copy)]
pub struct MatchRows {
    // The row of a node of the action formulas, if it has one.
    pub numbers: [Option<u8>; NODES],
    // How many rows are given.
    // Kept (rule): there is no heap, so no Vec: the array of the rows is filled from its front.
    pub given: u8,
    // The rows, one after the other.
    // Kept (no plainer): flat, for how long a row is, is known at run time only.
    pub rows: [bool; ROW_ANSWERS],
}

// ---- making the table

// The words and the labels' multisets: all that a row is made of.
// Kept (no plainer): not the type `ActionNodes` of crate `alike_nodes`: this crate does not stand on that one, and a
// row is read by `ActionWords` alone (crate `modalities` makes one). In `ActionNodes` it would ask besides that the
// label words are good.
#[derive(Clone, Copy)]
struct RowSource<'a> {
    words: ActionWords<'a>,
    classes: &'a [u32],
    ghost known: { Classes words.labels.now classes.now },
}

impl<'a> RowSource<'a> {
    // Writes a row: for each label whether the action formula at the node matches it.
    // Kept (no plainer): the node is a number, here and below: it comes from an item's word, and a struct of the table
    // and the node would be taken apart for `match_action_formula`.
    fn fill_row(&self, node: usize, row: &mut [bool])
        requires inside { node < size self.now.words.actions.now }
        requires room { length row.old ≡ label_count self.now.words.labels.now }
        ensures { Row self.now.words.labels.now self.now.words.actions.now node row.new }
    {
        // Kept (proof): the index, where a `zip` with the classes needs none: after a `zip` over `iter_mut` nothing is
        // known of the words that it went over, and the goal `Row` is left.
        for (label, answer) in row.iter_mut().enumerate() {
            let multiset = at(self.classes, label);
            *answer = match_action_formula(self.words.actions, self.classes, multiset, node);
        }
    }
}

impl MatchRows {
    // The table before any node has a row.
    pub fn blank() -> MatchRows
        ensures { NoRows result }
    {
        MatchRows {
            numbers: [None; NODES],
            given: 0,
            rows: [false; ROW_ANSWERS],
        }
    }

    // A node gets the next row, if it has none and there is room for another.
    fn give_row(&mut self, source: &RowSource<'_>, node: usize)
        requires inside { node < size source.now.words.actions.now }
        requires first_rows { FirstRows source.now.words.labels.now source.now.words.actions.now self.old }
        ensures { FirstRows source.now.words.labels.now source.now.words.actions.now self.new }
    {
        if self.numbers[node].is_some() || self.given == MOST_ROWS {
            return;
        }
        let count = at(source.words.labels, 0);
        let start = usize::from(self.given) * count;
        let end = start + count;
        if ROW_ANSWERS < end {
            return;
        }
        source.fill_row(node, &mut self.rows[start..end]);
        self.numbers[node] = Some(self.given);
        self.given += 1;
    }

    // The action formula of an item gets a row, if the item is a modality: a modality has a node of the action formulas
    // at the right.
    fn give_item_row(&mut self, source: &RowSource<'_>, item: Item)
        requires { FirstRows source.now.words.labels.now source.now.words.actions.now self.old }
        ensures { FirstRows source.now.words.labels.now source.now.words.actions.now self.new }
    {
        let node = item.right as usize;
        if item.kind.is_modality() && node < at(source.words.actions, 0) {
            self.give_row(source, node);
        }
    }
}

// Makes the table, in which no node has a row before: the action formulas of the modalities among the items get rows
// as long as there is room.
pub fn make_match_table(
    words: &ActionWords<'_>,
    compiled: &Compiled,
    items: usize,
    matched: &mut MatchRows,
)
    requires classes { Classes words.now.labels.now (classes_in compiled.now) × (items ≤ 2048) }
    requires no_rows { NoRows matched.old }
    ensures { MatchTable words.now.labels.now words.now.actions.now matched.new }
{
    matched.given = 0;
    let source = RowSource {
        words: *words,
        classes: compiled.classes(),
    };
    for item in &compiled.items[..items] {
        matched.give_item_row(&source, *item);
    }
}

// ---- reading it

// The row of a node, an answer for each label, if the node has one.
pub fn row<'a>(words: &ActionWords<'_>, matched: &'a MatchRows, node: usize) -> Option<&'a [bool]>
    requires { (node < size words.now.actions.now)
        × MatchTable words.now.labels.now words.now.actions.now matched.now }
    ensures { IfSome result (λ r. Row words.now.labels.now words.now.actions.now node r.now) }
{
    let number = usize::from(matched.numbers[node]?);
    let count = at(words.labels, 0);
    let start = number * count;
    let row = &matched.rows[start..start + count];
    Some(row)
}
