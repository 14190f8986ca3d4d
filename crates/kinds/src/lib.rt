// What the rules say of an item by its kind (translate.rs, translate_vertex): the owner of its vertices, and where
// their edges lead from a state s. A vertex without a target gets an edge to itself when it is closed.
//
//     kind         owner   edges
//     true         Odd     none
//     false        Even    none
//     f and g      Odd     (s, f), (s, g)
//     f or g       Even    (s, f), (s, g)
//     [a] f        Odd     (t, f) for each transition from s to t whose label a matches, each t once
//     <a> f        Even    the same
//     least        Odd     (s, the body)
//     greatest     Even    (s, the body)
//     reference    Odd     (s, its equation)
#![tactic(auto)]

ghost use Rattle.std.specs.Prelude.{◌≡◌, ◌≤◌, ◌<◌};
ghost use Rattle.node_kinds.specs.Codes.{formula_code};
ghost use Rattle.item_table.specs.Entries.{kind_owner};

use node_kinds::FormulaKind;
use player::Player;

// The owner.
#[tactic(auto, unfolding(item_table::specs::Entries::kind_owner))]
pub fn owner_of(kind: FormulaKind) -> Player
    ensures { result ≡ kind_owner (formula_code kind) }
{
    match kind {
        FormulaKind::False | FormulaKind::Or | FormulaKind::Diamond | FormulaKind::Greatest => {
            Player::Even
        }
        FormulaKind::True
        | FormulaKind::And
        | FormulaKind::Box
        | FormulaKind::Least
        | FormulaKind::Reference => Player::Odd,
    }
}

// The owner, by the word of a kind; a word past the last kind counts as that one.
#[tactic(auto, using(crate::proofs::Past::owner_past))]
pub fn owner_of_word(word: u32) -> Player
    ensures { result ≡ kind_owner word }
{
    owner_of(FormulaKind::of(word))
}

// How many edges stay at the state, where the kind is no constant and no modality.
// Kept (rule): 2 for a constant too, as was promised of every kind; callers ask `is_constant` of it first.
pub fn operand_count(kind: FormulaKind) -> usize
    ensures { (formula_code kind < 4 → result ≡ 2) × (4 ≤ formula_code kind → result ≡ 1) }
{
    match kind {
        FormulaKind::True | FormulaKind::False | FormulaKind::And | FormulaKind::Or => 2,
        FormulaKind::Box
        | FormulaKind::Diamond
        | FormulaKind::Least
        | FormulaKind::Greatest
        | FormulaKind::Reference => 1,
    }
}

// The same by the word of a kind, as `owner_of_word`.
#[tactic(auto, using(crate::proofs::Past::operands_past))]
pub fn operand_count_of_word(word: u32) -> usize
    ensures { (word < 4 → result ≡ 2) × (4 ≤ word → result ≡ 1) }
{
    operand_count(FormulaKind::of(word))
}
