// The check of the label words: L, A, then A label numbers and A action numbers.
#![tactic(auto)]

ghost use Rattle.std.specs.Prelude.{◌≡◌, [], ◌∷◌, ◌+◌, ◌*◌, ◌<◌, ◌≤◌, length};
ghost use Rattle.rules.specs.Words.{most_actions};
ghost use Rattle.rules.specs.Answers.{first_fault};
ghost use Rattle.rules.specs.Labels.{action_count};
ghost use Rattle.rules.specs.Refusal.{bad_label, refusal11, refusal12, refusal13};

use faults::fault_if;
use rules::Fault;

// The label number at word `place` is L or more, or less than the one before it.
#[tactic(auto, unfolding(rules::specs::Refusal::bad_label))]
fn bad_label(labels: &[u32], place: usize) -> bool
    requires { (2 ≤ place) × (place < length labels.now) }
    ensures { result ≡ bad_label labels.now place }
{
    labels[0] <= labels[place] || 2 < place && labels[place] < labels[place - 1]
}

// 13: the label numbers, of words with the right length.
#[tactic(auto, unfolding(rules::specs::Refusal::refusal13))]
fn check_numbers(labels: &[u32]) -> Result<(), Fault>
    requires { (length labels.now ≡ 2 + 2 * action_count labels.now) × (action_count labels.now ≤ most_actions) }
    ensures { result ≡ refusal13 labels.now }
{
    let end = 2 + words::at(labels, 1);
    faults::first_fault(13, 2, end, |place| bad_label(labels, place))
}

// The most labels, and the most actions that they have together.
// Kept (no plainer): crate `compiled` has 4,096 too, as the length of its tables: the checks would stand on that crate
// for this number alone.
const MOST_LABELS: usize = 4_096;

const MOST_ACTIONS: usize = 16_384;

// 11, 12, 13: the label words.
#[tactic(auto, using(tables::proofs::Faults::if_passed), unfolding(rules::specs::Answers::first_fault, rules::specs::Answers::and_then, rules::specs::Refusal::differ, rules::specs::Refusal::refusal11, rules::specs::Refusal::refusal12))]
pub fn check_labels(labels: &[u32]) -> Result<(), Fault>
    ensures { result ≡ first_fault (refusal11 labels.now ∷ refusal12 labels.now
        ∷ refusal13 labels.now ∷ []) }
{
    let wrong_length = labels.len() < 2 || labels.len() != 2 + 2 * words::at(labels, 1);
    fault_if(11, 0, wrong_length)?;
    let too_many = MOST_LABELS < words::at(labels, 0) || MOST_ACTIONS < words::at(labels, 1);
    fault_if(12, 0, too_many)?;
    check_numbers(labels)
}
