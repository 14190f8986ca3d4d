// The table that is written: parts of it, nodes put before them, parts copied and bound.

ghost use Rattle.std.specs.Prelude.{◌≡◌, suc, ◌+◌, ◌-◌, ◌≤◌, ◌<◌};
ghost use Rattle.rules.specs.Words.{most_nodes};
ghost use Rattle.rules.specs.Table.{size, kind, operand};
ghost use Rattle.node_kinds.specs.Codes.{formula_code};
ghost use Rattle.regular_rules.specs.Moving.{names_node, moved_operand};
ghost use Rattle.expanding.specs.Parts.{Roomy, Within, part_size, Put, Extended, renumbered, Carried, Copied, Bound};

use node_kinds::FormulaKind;

// The nodes from `start` up to `end`.
#[derive(Clone, Copy, Debug, PartialEq, Eq)]
pub struct Part {
    pub start: usize,
    pub end: usize,
}

impl Part {
    // No nodes: what is put before this part ends at node `end`.
    pub fn empty(end: usize) -> Part
        ensures { result ≡ record { start = end; end = end } }
    {
        Part { start: end, end }
    }
}

// The numbers from `low` up to `high` become those from `target` on.
#[derive(Clone, Copy, Debug, PartialEq, Eq)]
struct Renumbering {
    low: usize,
    high: usize,
    target: usize,
}

impl Renumbering {
    // What the operand of a node of this kind becomes.
    #[tactic(auto, using(regular_rules::proofs::Moves::carried_inside, regular_rules::proofs::Moves::carried_below, regular_rules::proofs::Moves::carried_above), unfolding(regular_rules::specs::Moving::moved_operand))]
    fn moved(&self, kind: u32, operand: usize) -> usize
        requires { (self.now.high + self.now.target ≤ 4294967296) × (operand < 4294967296) }
        ensures moved { result ≡ moved_operand (renumbered self.now) kind operand }
        ensures small { result < 4294967296 }
    {
        if names_node(kind) && self.low <= operand && operand < self.high {
            operand - self.low + self.target
        } else {
            operand
        }
    }
}

// The operand of a node of this kind is a node of the table.
#[tactic(auto, unfolding(regular_rules::specs::Moving::names_node))]
fn names_node(kind: u32) -> bool
    ensures { result ≡ names_node kind }
{
    matches!(
        FormulaKind::try_from(kind),
        Ok(FormulaKind::And | FormulaKind::Or | FormulaKind::Reference)
    )
}

// A node becomes this one.
fn put_node(out: &mut [u32], node: usize, kind: u32, operand: usize)
    requires { Roomy out.old × (node < size out.old) × (operand < 4294967296) }
    ensures { Put node kind operand out.old out.new }
{
    let nodes = words::at(out, 0);
    out[1 + node] = kind;
    out[1 + nodes + node] = operand as u32;
}

// A node is put just before a part. The answer is the part with it.
pub fn extend(out: &mut [u32], part: Part, kind: FormulaKind, operand: usize) -> Part
    requires { Roomy out.old × (1 ≤ part.start) × (part.start ≤ size out.old) × (operand < 4294967296) }
    ensures { Extended part (formula_code kind) operand out.old out.new result }
{
    let start = part.start - 1;
    put_node(out, start, kind as u32, operand);
    Part {
        start,
        end: part.end,
    }
}

// The node at `from` is carried to `to`.
fn carry_node(out: &mut [u32], from: usize, to: usize, renumbering: Renumbering)
    requires room { Roomy out.old × (to ≤ from) × (from < size out.old) }
    requires small { renumbering.high + renumbering.target ≤ 4294967296 }
    ensures { Put to (kind out.old from)
        (moved_operand (renumbered renumbering) (kind out.old from) (operand out.old from))
        out.old out.new }
{
    let kind = words::kind_at(out, from);
    let operand = words::at(out, 1 + words::at(out, 0) + from);
    put_node(out, to, kind, renumbering.moved(kind, operand));
}

// The nodes of a part are carried to those from `to` on, from left to right: these begin no later.
fn carry(out: &mut [u32], part: Part, to: usize, renumbering: Renumbering)
    requires room { Within part out.old × (to ≤ part.start) }
    requires small { renumbering.high + renumbering.target ≤ 4294967296 }
    ensures { Carried part to (part_size part) renumbering out.old out.new }
{
    for i in 0..part.end - part.start {
        carry_node(out, part.start + i, to + i, renumbering);
    }
}

// A part is copied, up to node `end`. The answer is the copy.
#[tactic(auto, using(crate::proofs::Standing::copied))]
pub fn copy(out: &mut [u32], part: Part, end: usize) -> Part
    requires { Within part out.old × (part_size part ≤ end) × (end ≤ part.start) }
    ensures { Copied part end out.old out.new result }
{
    let start = end - (part.end - part.start);
    let renumbering = Renumbering {
        low: part.start,
        high: part.end,
        target: start,
    };
    carry(out, part, start, renumbering);
    Part { start, end }
}

// The references in a part to the fixpoint with this number, which no node has, are bound to its node.
pub fn bind(out: &mut [u32], part: Part, mark: usize, fixpoint: usize)
    requires { Within part out.old × (most_nodes ≤ mark) × (mark + fixpoint < 4294967296) }
    ensures { Bound part mark fixpoint out.old out.new }
{
    let renumbering = Renumbering {
        low: mark,
        high: mark + 1,
        target: fixpoint,
    };
    carry(out, part, part.start, renumbering);
}
