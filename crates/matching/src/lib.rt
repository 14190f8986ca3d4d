// Action formulas, decided at labels (translate.rs, `match_action_formula`).
#![tactic(auto)]

ghost use Rattle.std.specs.Prelude.{◌≡◌, List, ℕ, ◌<◌, length};
ghost use Rattle.rules.specs.Labels.{label_count};
ghost use Rattle.rules.specs.Table.{size};
ghost use Rattle.rules.specs.Actions.{action_tree, matches};
ghost use Rattle.tables.specs.Good.{GoodActions};
ghost use Rattle.labels.specs.Classes.{Classes};

use node_kinds::ActionKind;
use words::at;

// Does the action formula at a node match a label? `multiset` is what `classes` has for the label: the lowest label
// with the same actions. A multi-action matches exactly if `classes` has the same for it, so no actions are compared
// here, and the labels are no parameter, which each call of the recursion would keep on the stack: the answer is right
// for whatever labels `classes` belongs to.
#[tactic(auto, using(crate::proofs::Nodes::at_true, crate::proofs::Nodes::at_false, crate::proofs::Nodes::at_label, crate::proofs::Nodes::at_union, crate::proofs::Nodes::at_intersection, crate::proofs::Nodes::at_negation))]
pub fn match_action_formula(actions: &[u32], classes: &[u32], multiset: usize, node: usize) -> bool
    requires { GoodActions (length classes.now) actions.now × (node < size actions.now) }
    ensures { (labels : List ℕ) → Classes labels classes.now
        → GoodActions (label_count labels) actions.now
        → result ≡ matches multiset (action_tree labels actions.now node) }
{
    let word = words::kind_at(actions, node);
    match ActionKind::of(word) {
        ActionKind::True => true,
        ActionKind::False => false,
        ActionKind::MultiAction => at(classes, words::operand_at(actions, node)) == multiset,
        ActionKind::Union => {
            match_action_formula(actions, classes, multiset, node + 1)
                || match_action_formula(
                    actions,
                    classes,
                    multiset,
                    words::operand_at(actions, node),
                )
        }
        ActionKind::Intersection => {
            match_action_formula(actions, classes, multiset, node + 1)
                && match_action_formula(
                    actions,
                    classes,
                    multiset,
                    words::operand_at(actions, node),
                )
        }
        ActionKind::Negation => !match_action_formula(actions, classes, multiset, node + 1),
    }
}
