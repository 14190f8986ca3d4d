// The growths of the regular formulas of a table.

ghost use Rattle.std.specs.Prelude.{◌≡◌, ◌+◌, ◌<◌};
ghost use Rattle.rules.specs.Table.{size};
ghost use Rattle.regular_rules.specs.Good.{GoodRegulars};
ghost use Rattle.regular_rules.specs.Regular.{regular_tree};
ghost use Rattle.expanded_sizes.specs.Growths.{GrowsBy, GrowFrom};

use crate::growth::Growth;
use node_kinds::RegularKind;
use words::NODES;

// The growth of a regular formula, where those of the later nodes are known.
fn growth_at(regulars: &[u32], growths: &[Growth; NODES], node: usize) -> Growth
    requires good { GoodRegulars regulars.now × (node < size regulars.now) }
    requires later { GrowFrom regulars.now (node + 1) growths.now }
    ensures { GrowsBy (regular_tree regulars.now node) result }
{
    let operand = words::operand_at(regulars, node);
    match RegularKind::of(words::kind_at(regulars, node)) {
        RegularKind::Action => Growth::action(),
        RegularKind::Sequence => growths[node + 1].then(growths[operand]),
        RegularKind::Choice => growths[node + 1].or(growths[operand]),
        RegularKind::Star => growths[node + 1].again(),
        RegularKind::Plus => growths[node + 1].once_and_again(),
    }
}

// The growth of each regular formula of a table, at its node, in an array that is lent: so no array is copied.
#[derive(Clone, Copy)]
pub struct Growths<'a> {
    pub regulars: &'a [u32],
    of_node: &'a [Growth; NODES],
    ghost good: { GoodRegulars regulars.now },
    ghost known: { GrowFrom regulars.now 0 of_node.now },
}

impl<'a> Growths<'a> {
    // Fills the array, from right to left: the parts of a regular formula stand at later nodes.
    pub fn of(regulars: &'a [u32], of_node: &'a mut [Growth; NODES]) -> Growths<'a>
        requires { GoodRegulars regulars.now }
        ensures { result.regulars.now ≡ regulars.entry.now }
    {
        for node in (0..words::at(regulars, 0)).rev() {
            of_node[node] = growth_at(regulars, of_node, node);
        }
        Growths { regulars, of_node }
    }

    // The growth of the regular formula at a node.
    pub fn at(&self, node: usize) -> Growth
        requires { node < size self.now.regulars.now }
        ensures { GrowsBy (regular_tree self.now.regulars.now node) result }
    {
        // Kept (proof): the `let`: how long the lent array is, is known only once the reference is read by itself.
        let growths = self.of_node;
        growths[node]
    }
}
