// The modality of a regular formula, written before the formula that it is a modality of.

ghost use Rattle.std.specs.Prelude.{◌≡◌, ◌≤◌, ◌<◌, ◌+◌};
ghost use Rattle.rules.specs.Table.{size, kind};
ghost use Rattle.node_kinds.specs.Codes.{formula_code};
ghost use Rattle.regular_rules.specs.Regular.{regular_tree, star};
ghost use Rattle.regular_rules.specs.Sizes.{modal_size};
ghost use Rattle.regular_rules.specs.Good.{GoodRegulars};
ghost use Rattle.expanding.specs.Parts.{Within, part_size};
ghost use Rattle.expanding.specs.Modalities.{modality_of, modal_kind, both_kind, again_kind, ModalWritten};

use crate::table::{Part, bind, copy, extend};
use node_kinds::{FormulaKind, RegularKind};
use words::NODES;

// What a reference to the fixpoint of a star has for its node until it is bound: a number past all nodes.
// Kept (rule): the operand of a reference is a word of the table, so that of an unbound one is a number as well.
const STAR: usize = NODES;

#[derive(Clone, Copy, Debug, PartialEq, Eq)]
pub enum Modality {
    Box,
    Diamond,
}

impl Modality {
    // The modality with this kind.
    pub fn of(kind: FormulaKind) -> Modality
        requires { (4 ≤ formula_code kind) × (formula_code kind ≤ 5) }
        ensures { modal_kind (modality_of result) ≡ formula_code kind }
    {
        match kind {
            FormulaKind::Box => Modality::Box,
            _ => Modality::Diamond,
        }
    }

    // The kind of the modality of an action formula.
    fn kind(self) -> FormulaKind
        ensures { formula_code result ≡ modal_kind (modality_of self) }
    {
        match self {
            Modality::Box => FormulaKind::Box,
            Modality::Diamond => FormulaKind::Diamond,
        }
    }

    // The kind of what joins the two parts of a choice.
    fn both(self) -> FormulaKind
        ensures { formula_code result ≡ both_kind (modality_of self) }
    {
        match self {
            Modality::Box => FormulaKind::And,
            Modality::Diamond => FormulaKind::Or,
        }
    }

    // The kind of the fixpoint of a star.
    fn again(self) -> FormulaKind
        ensures { formula_code result ≡ again_kind (modality_of self) }
    {
        match self {
            Modality::Box => FormulaKind::Greatest,
            Modality::Diamond => FormulaKind::Least,
        }
    }
}

// The modality of the choice at a node: see `write_modal`.
#[cycle(modal)]
fn write_choice(
    regulars: &[u32],
    modality: Modality,
    node: usize,
    part: Part,
    out: &mut [u32],
) -> Part
    requires regular { GoodRegulars regulars.now × (node < size regulars.now) × (kind regulars.now node ≡ 2) }
    requires room { Within part out.old }
    requires space { modal_size (regular_tree regulars.now node) (part_size part) ≤ part.end }
    ensures { ModalWritten (modality_of modality) (regular_tree regulars.now node) part out.old out.new result }
{
    let right = words::operand_at(regulars, node);
    let second = write_modal(regulars, modality, right, part, out);
    let copied = copy(out, part, second.start);
    let first = write_modal(regulars, modality, node + 1, copied, out);
    let both = Part {
        start: first.start,
        end: second.end,
    };
    extend(out, both, modality.both(), second.start)
}

// The modality of the star of the regular formula at a node: see `write_modal`.
#[cycle(modal)]
fn write_star(
    regulars: &[u32],
    modality: Modality,
    node: usize,
    part: Part,
    out: &mut [u32],
) -> Part
    requires regular { GoodRegulars regulars.now × (node < size regulars.now) }
    requires room { Within part out.old }
    requires space { modal_size (star (regular_tree regulars.now node)) (part_size part) ≤ part.end }
    ensures { ModalWritten (modality_of modality) (star (regular_tree regulars.now node)) part out.old out.new result }
{
    let reference = extend(out, Part::empty(part.start), FormulaKind::Reference, STAR);
    let pass = write_modal(regulars, modality, node, reference, out);
    bind(out, pass, STAR, pass.start - 2);
    let both = Part {
        start: pass.start,
        end: part.end,
    };
    let body = extend(out, both, modality.both(), part.start);
    extend(out, body, modality.again(), 0)
}

// The modality of the regular formula at a node, just before the formula that stands in a part. The answer is the part
// in which both stand.
#[cycle(modal)]
pub fn write_modal(
    regulars: &[u32],
    modality: Modality,
    node: usize,
    part: Part,
    out: &mut [u32],
) -> Part
    requires regular { GoodRegulars regulars.now × (node < size regulars.now) }
    requires room { Within part out.old }
    requires space { modal_size (regular_tree regulars.now node) (part_size part) ≤ part.end }
    ensures { ModalWritten (modality_of modality) (regular_tree regulars.now node) part out.old out.new result }
{
    let operand = words::operand_at(regulars, node);
    match RegularKind::of(words::kind_at(regulars, node)) {
        RegularKind::Action => extend(out, part, modality.kind(), operand),
        RegularKind::Sequence => {
            let second = write_modal(regulars, modality, operand, part, out);
            write_modal(regulars, modality, node + 1, second, out)
        }
        RegularKind::Choice => write_choice(regulars, modality, node, part, out),
        RegularKind::Star => write_star(regulars, modality, node + 1, part, out),
        RegularKind::Plus => {
            let star = write_star(regulars, modality, node + 1, part, out);
            write_modal(regulars, modality, node + 1, star, out)
        }
    }
}
