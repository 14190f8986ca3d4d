// How large a modality of a regular formula makes the formula above which it stands.

ghost use Rattle.std.specs.Prelude.{◌≡◌, ℕ, ◌≤◌};
ghost use Rattle.regular_rules.specs.Regular.{Regular, action, sequence, choice, star, plus};
ghost use Rattle.regular_rules.specs.Sizes.{capped, modal_size};
ghost use Rattle.expanded_sizes.specs.declared.growth.TheConstants.{TOO_MANY};

use words::NODES;

// The first number of nodes that is too large: counting stops there.
pub const TOO_MANY: usize = NODES + 1;

// A number of nodes, counted to that one.
#[tactic(auto, unfolding(regular_rules::specs::Sizes::capped))]
pub fn counted(nodes: usize) -> usize
    ensures value { result ≡ capped nodes }
    ensures few { result ≤ TOO_MANY }
{
    nodes.min(TOO_MANY)
}

// What a modality of a regular formula makes of a formula of s nodes has offset + factor * s nodes. Both numbers are
// counted to 1,025.
#[derive(Clone, Copy, Debug, PartialEq, Eq)]
pub struct Growth {
    offset: usize,
    factor: usize,
    ghost few: { (offset ≤ TOO_MANY) × (factor ≤ TOO_MANY) },
}

impl Growth {
    ghost use Rattle.expanded_sizes.specs.Growths.{GrowsBy};

    // Of an action formula: one node more.
    pub fn action() -> Growth
        ensures { (a : ℕ) → GrowsBy (action a) result }
    {
        Growth {
            offset: 1,
            factor: 1,
        }
    }

    // Of a sequence: the modality of its first part stands above that of its second.
    pub fn then(self, next: Growth) -> Growth
        ensures { (r t : Regular) → GrowsBy r self → GrowsBy t next → GrowsBy (sequence r t) result }
    {
        Growth {
            offset: self.above(next.offset),
            factor: counted(self.factor * next.factor),
        }
    }

    // Of a choice: a node joins the modalities of its parts, which both stand above the formula.
    pub fn or(self, other: Growth) -> Growth
        ensures { (r t : Regular) → GrowsBy r self → GrowsBy t other → GrowsBy (choice r t) result }
    {
        Growth {
            offset: counted(1 + self.offset + other.offset),
            factor: counted(self.factor + other.factor),
        }
    }

    // Of a star: a fixpoint, and a node that joins the formula and the modality of one pass above a reference.
    pub fn again(self) -> Growth
        ensures { (r : Regular) → GrowsBy r self → GrowsBy (star r) result }
    {
        Growth {
            offset: counted(2 + self.above(1)),
            factor: 1,
        }
    }

    // Of a plus: one pass, and then its star.
    pub fn once_and_again(self) -> Growth
        ensures { (r : Regular) → GrowsBy r self → GrowsBy (plus r) result }
    {
        self.then(self.again())
    }

    // How many nodes the modality makes of a formula of so many.
    pub fn above(self, nodes: usize) -> usize
        requires { nodes ≤ TOO_MANY }
        ensures value { (r : Regular) (s : ℕ) → GrowsBy r self → nodes ≡ capped s → result ≡ capped (modal_size r s) }
        ensures few { result ≤ TOO_MANY }
    {
        counted(self.offset + self.factor * nodes)
    }
}
