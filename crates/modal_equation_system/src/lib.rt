// The equations of a formula, their alternation depth and their priorities (modal_equation_system.rs).
#![tactic(auto)]

ghost use Rattle.std.specs.Prelude.{◌≡◌, ◌+◌, ◌≤◌, ◌<◌, length, replicate};
ghost use Rattle.rules.specs.Lists.{one};
ghost use Rattle.rules.specs.Words.{most_nodes};
ghost use Rattle.rules.specs.Table.{size, kind, formula_node};
ghost use Rattle.rules.specs.Formula.{is_fixpoint, equation_count};
ghost use Rattle.rules.specs.Depth.{depth, by_depth};
ghost use Rattle.node_kinds.specs.Codes.{formula_code};
ghost use Rattle.modal_equation_system.specs.System.{formula_only, Good};
ghost use Rattle.modal_equation_system.specs.System.{zero_entry, placeholder_entry};
ghost use Rattle.modal_equation_system.specs.System.{link_in, kind_in, body_in, operator_in, least_in};
ghost use Rattle.modal_equation_system.specs.System.{Listed, Entered, ListedNode, ListedEquation};
ghost use Rattle.modal_equation_system.specs.System.{ReadsBody, ReadsEquation, RankedBy};
ghost use Rattle.modal_equation_system.specs.Listing.{Listing, LinkBy, Linkable};

use formula_reader::FormulaReader;
use node_kinds::FormulaKind;
use player::Priority;
use words::{NODES, at, kind_at};

// Is a node a fixpoint?
// Kept (no plainer): four functions ask that a formula is in order (`Good`): this one, the two that list below, and
// `first_body_node` of crate `item_table`. A struct that says it would be made at each call from an `Input`, whose own
// fact is of the action formulas too, and be taken apart for the reader at once.
#[tactic(auto, using(crate::proofs::Listing::fixpoint_read))]
pub fn is_fixpoint_at(formula: &[u32], node: usize) -> bool
    requires good { Good formula.now }
    requires inside { node < size formula.now }
    ensures { result ≡ is_fixpoint (formula_node formula.now node) }
{
    FormulaKind::of(kind_at(formula, node)).is_fixpoint()
}

// ---- the table of the equations

// The most equations: one for each node, and the placeholder.
pub const EQUATIONS: usize = NODES + 1;

// An equation: the kind of its fixpoint, and the first node of its body.
#[derive(Clone, Copy)]
pub struct EquationEntry {
    pub kind: FormulaKind,
    pub body: u32,
}

impl EquationEntry {
    // The placeholder's entry.
    const PLACEHOLDER: EquationEntry = EquationEntry {
        kind: FormulaKind::Least,
        body: 0,
    };

    // The entry that is made of zeros.
    const ZEROS: EquationEntry = EquationEntry {
        kind: FormulaKind::True,
        body: 0,
    };
}

#[derive(Clone, Copy)]
pub struct EquationTable {
    // The link of each node: the right operand of an and or an or, the equation that a fixpoint or a reference stands
    // for.
    // Kept (no plainer): a column of their own, for `alike_nodes` is lent the links as words.
    pub links: [u32; NODES],
    // The kind of each node.
    pub kinds: [FormulaKind; NODES],
    // The equations, in their order.
    // Kept (rule): there is no heap, so no Vec: the array is filled from its front.
    pub equations: [EquationEntry; EQUATIONS],
    // How many there are.
    pub count: usize,
}

impl EquationTable {
    // A table of zeros: each node and each entry is one of true.
    // Kept (speed): `compile` lists equations in it, not in a blank one, whose entries are not zeros: such a table is
    // made elsewhere and copied, by `memcpy`, which a host without a C library would have to bring.
    pub fn zeros() -> EquationTable
        ensures nodes { (result.links ≡ replicate 1024 0) × (result.kinds ≡ replicate 1024 FormulaKind.True) }
        ensures equations { result.equations ≡ replicate 1025 zero_entry }
        ensures count { result.count ≡ 0 }
    {
        EquationTable {
            links: [0; NODES],
            kinds: [FormulaKind::True; NODES],
            equations: [EquationEntry::ZEROS; EQUATIONS],
            count: 0,
        }
    }

    // A table whose entries are all the placeholder's.
    pub fn blank() -> EquationTable
        ensures nodes { (result.links ≡ replicate 1024 0) × (result.kinds ≡ replicate 1024 FormulaKind.True) }
        ensures equations { result.equations ≡ replicate 1025 placeholder_entry }
    {
        EquationTable {
            equations: [EquationEntry::PLACEHOLDER; EQUATIONS],
            ..EquationTable::zeros()
        }
    }

    // The link of a node.
    fn link_of(&self, node: usize) -> usize
        requires { node < most_nodes }
        ensures { result ≡ link_in self.now node }
    {
        self.links[node] as usize
    }

    // The kind of a node.
    fn kind_of(&self, node: usize) -> FormulaKind
        requires { node < most_nodes }
        ensures { formula_code result ≡ kind_in self.now node }
    {
        self.kinds[node]
    }

    // The first node of an equation's body.
    // Kept (no plainer): an equation is a number here and below; the bound is that of the array.
    pub fn body_of(&self, equation: usize) -> usize
        requires { equation < 1025 }
        ensures { result ≡ body_in self.now equation }
    {
        self.equations[equation].body as usize
    }

    // The kind of an equation's fixpoint.
    pub fn operator_of(&self, equation: usize) -> FormulaKind
        requires { equation < 1025 }
        ensures { formula_code result ≡ operator_in self.now equation }
    {
        self.equations[equation].kind
    }

    // Is an equation a least one?
    #[tactic(auto, using(crate::proofs::Listing::least_bit_of))]
    pub fn is_least(&self, equation: usize) -> bool
        requires { equation < 1025 }
        ensures { one result ≡ least_in self.now equation }
    {
        self.operator_of(equation) == FormulaKind::Least
    }

    // The link that a node gets once the nodes before it have theirs, and the equations before it are listed.
    fn link_at(&self, kind: FormulaKind, operand: usize) -> u32
        requires { Linkable self.now (formula_code kind) operand }
        ensures { LinkBy self.now (formula_code kind) operand result }
    {
        match kind {
            FormulaKind::And | FormulaKind::Or => operand as u32,
            FormulaKind::Least | FormulaKind::Greatest => self.count as u32,
            FormulaKind::Reference => self.links[operand],
            FormulaKind::True | FormulaKind::False | FormulaKind::Box | FormulaKind::Diamond => 0,
        }
    }

    // Lists the node at which a reader stands.
    fn list_node<'a>(&mut self, reader: FormulaReader<'a>)
        requires good { Good reader.words.now }
        requires inside { reader.node < size reader.words.now }
        requires listing { Listing reader.words.now reader.node self.old }
        ensures { Listing reader.entry.words.now (reader.entry.node + 1) self.new }
    {
        let node = reader.node;
        let kind = FormulaKind::of(reader.kind());
        self.links[node] = self.link_at(kind, reader.operand());
        self.kinds[node] = kind;
        // the entry counts only if the node is a fixpoint: else it stands past the equations, and the next node writes
        // over it
        self.equations[self.count] = EquationEntry {
            kind,
            body: node as u32 + 1,
        };
        // Kept (no plainer): the truth value as 0 or 1 counts the entry or does not; an `if` around both statements
        // would say no more.
        self.count += usize::from(kind.is_fixpoint());
    }

    // Lists the equations of a formula, node by node. Returns how many there are.
    pub fn list_equations(&mut self, formula: &[u32]) -> usize
        requires { Good formula.now }
        ensures value { result ≡ equation_count formula.now }
        ensures listed { Listed formula.now self.new }
        ensures entered { Entered formula.now self.new }
    {
        // it counts only if node 0 is no fixpoint
        self.equations[0] = EquationEntry::PLACEHOLDER;
        self.count = usize::from(!is_fixpoint_at(formula, 0));
        let reader = FormulaReader::new(formula);
        for node in 0..at(formula, 0) {
            self.list_node(reader.moved(node));
        }
        self.count
    }

    // ---- reading: `read_body` and `read_equation` call each other down to the leaves. They are passed the table alone,
    // by one pointer, so that a call keeps little on the stack; what they promise holds for every formula of which this
    // is the table.

    // Reads the subformula of `node` for `target`, in the body of `equation`.
    // Kept (no plainer): the equation is a number here and below: that it is one of the formula's could be said by a
    // struct that has the formula too, and a call is to keep little on the stack.
    #[cycle(read_body_read_equation)]
    #[tactic(auto, using(crate::proofs::Reading::formula_few, crate::proofs::Reading::next_listed, crate::proofs::Reading::right_listed, crate::proofs::Reading::right_later, crate::proofs::Reading::at_target, crate::proofs::Reading::at_outer))]
    fn read_body(&self, node: usize, equation: usize, target: usize) -> u32
        requires { ListedNode self.now node equation }
        ensures { ReadsBody self.now node equation target result }
    {
        match self.kind_of(node) {
            // This arm stands first, and only a sum comes after its call: so the compiler turns the calls for nested
            // fixpoints into a loop, and they take no stack.
            FormulaKind::Least | FormulaKind::Greatest | FormulaKind::Reference => {
                let referred = self.link_of(node);
                if referred == target {
                    return 1;
                }
                if referred <= equation {
                    return 0;
                }
                let alternates = self.is_least(equation) != self.is_least(referred);
                self.read_equation(referred, target) + u32::from(alternates)
            }
            FormulaKind::True | FormulaKind::False => 0,
            FormulaKind::And | FormulaKind::Or => {
                // read before the first call, so that less is kept over it
                let operand = self.link_of(node);
                let left = self.read_body(node + 1, equation, target);
                let right = self.read_body(operand, equation, target);
                left.max(right)
            }
            FormulaKind::Box | FormulaKind::Diamond => self.read_body(node + 1, equation, target),
        }
    }

    // Reads an equation for `target`.
    #[cycle(read_body_read_equation)]
    #[tactic(auto, using(crate::proofs::Reading::formula_few, crate::proofs::Reading::body_listed))]
    fn read_equation(&self, equation: usize, target: usize) -> u32
        requires { ListedEquation self.now equation }
        ensures { ReadsEquation self.now equation target result }
    {
        self.read_body(self.body_of(equation), equation, target)
    }
}

// ---- the equations of a formula, listed in a table

#[derive(Clone, Copy)]
pub struct Equations<'a> {
    pub formula: &'a [u32],
    pub table: &'a EquationTable,
    ghost listed: { Listed formula.now table.now },
}

impl<'a> Equations<'a> {
    // The alternation depth of an equation.
    #[tactic(auto, unfolding(rules::specs::Depth::depth))]
    pub fn alternation_depth(&self, equation: usize) -> u32
        requires { equation < equation_count self.now.formula.now }
        ensures { result ≡ depth (formula_only self.now.formula.now) equation }
    {
        self.table.read_equation(equation, equation)
    }

    // The priority of an equation: its depth made even, plus 1 for a least equation.
    #[tactic(auto, using(crate::proofs::Reading::count_few, crate::proofs::Listing::byte_of), unfolding(rules::specs::Depth::by_depth))]
    pub fn priority_of(&self, equation: usize) -> Priority
        requires { equation < equation_count self.now.formula.now }
        ensures { result.0 ≡ by_depth (formula_only self.now.formula.now) equation }
    {
        let depth = self.alternation_depth(equation);
        Priority(2 * (depth / 2) + u32::from(self.table.is_least(equation)))
    }

    // Lists the priorities of the first equations, by depth, at the front of a slice, and leaves the rest of it as it
    // is.
    // Kept (rule): a longer slice may be lent, of which the rest stays; one that has the count as its length would ask
    // more of a caller.
    pub fn list_priorities(&self, count: usize, priorities: &mut [u32])
        requires few { count ≤ equation_count self.now.formula.now }
        requires room { count ≤ length priorities.old }
        ensures { RankedBy by_depth self.now.formula.now count priorities.old priorities.new }
    {
        for (equation, priority) in priorities[..count].iter_mut().enumerate() {
            *priority = self.priority_of(equation).0;
        }
    }
}
