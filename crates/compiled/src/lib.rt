// What a run compiles before it walks: the items and their priorities, the labels' multisets and the first transitions.
#![tactic(auto)]

ghost use Rattle.std.specs.Prelude.{◌≡◌, ◌<◌};
ghost use Rattle.rules.specs.Lists.{word};
ghost use Rattle.node_kinds.specs.Codes.{formula_code};
ghost use Rattle.compiled.specs.Tables.{kinds_in, lefts_in, rights_in, priorities_in, classes_in, samples_in, Blank};

use node_kinds::{FormulaKind, Shape};
use player::Priority;

// As many items as there may be: equations and subformulas.
pub const ITEMS: usize = 2048;

// As many labels as there may be.
pub const LABELS: usize = 4096;

// As many first transitions as are noted: that of every sixteenth state.
const SAMPLES: usize = 4096;

// What an item is: its kind, and its operands by their numbers.
pub type Item = Shape<FormulaKind>;

// What stands where no item is compiled yet.
const BLANK: Item = Shape {
    kind: FormulaKind::True,
    left: 0,
    right: 0,
};

#[derive(Clone, Copy)]
pub struct Compiled {
    // The items.
    // Kept (no plainer): how many are compiled is the answer of `compile`, which goes on to `make_match_table` alone: a
    // field for it would need a fact that it is at most 2,048, and what writes the priorities behind the items would
    // have to promise that it stays.
    pub items: [Item; ITEMS],
    // The priority of each item.
    // Kept (rule): a column of words of their own: `list_priorities` of crate `modal_equation_system` is public and
    // fills words that are lent, and a slice of `Priority` would ask more of a caller.
    pub priorities: [u32; ITEMS],
    // The multiset of each label.
    pub classes: [u32; LABELS],
    // The first transition of every sixteenth state.
    pub samples: [u32; SAMPLES],
}

impl Compiled {
    // The tables before anything is compiled.
    pub fn blank() -> Compiled
        ensures { Blank result }
    {
        Compiled {
            items: [BLANK; ITEMS],
            priorities: [0; ITEMS],
            classes: [0; LABELS],
            samples: [0; SAMPLES],
        }
    }

    // What an item is.
    // Kept (no plainer): the item is an index here and below: a struct of the lent tables and the item would be made
    // and taken apart at each call.
    pub fn item_at(&self, item: u32) -> Item
        requires { item < 2048 }
        ensures kind { formula_code result.kind ≡ word (kinds_in self.now) item }
        ensures left { result.left ≡ word (lefts_in self.now) item }
        ensures right { result.right ≡ word (rights_in self.now) item }
    {
        self.items[item as usize]
    }

    // The priority of an item.
    pub fn priority_of(&self, item: u32) -> Priority
        requires { item < 2048 }
        ensures { result.0 ≡ word (priorities_in self.now) item }
    {
        Priority(self.priorities[item as usize])
    }

    // The labels' multisets.
    pub fn classes(&self) -> &[u32]
        ensures { result.now ≡ classes_in self.now }
    {
        &self.classes
    }

    // The first transitions.
    pub fn samples(&self) -> &[u32]
        ensures { result.now ≡ samples_in self.now }
    {
        &self.samples
    }
}
