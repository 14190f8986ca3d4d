// The check of the system words: S, T, the initial state, S out-degrees, then T labels and T targets.
#![tactic(auto)]

ghost use Rattle.std.specs.Prelude.{◌≡◌, [], ◌∷◌, ◌+◌, ◌*◌, ◌<◌, ◌≤◌, length};
ghost use Rattle.rules.specs.Words.{most_states, most_transitions};
ghost use Rattle.rules.specs.Answers.{first_fault};
ghost use Rattle.rules.specs.System.{state_count, transition_count};
ghost use Rattle.rules.specs.Refusal.{refusal21, refusal22, refusal23, refusal24, refusal25, refusal26};

use faults::fault_if;
use rules::Fault;

// The most states and transitions of a system.
const MOST_STATES: usize = 65_535;

const MOST_TRANSITIONS: usize = 262_144;

// 21, 22: the length and the sizes.
#[tactic(auto, using(tables::proofs::Faults::if_passed), unfolding(rules::specs::Answers::first_fault, rules::specs::Answers::and_then, rules::specs::Refusal::differ, rules::specs::Refusal::outside, rules::specs::Refusal::refusal21, rules::specs::Refusal::refusal22))]
fn check_sizes(system: &[u32]) -> Result<(), Fault>
    ensures { result ≡ first_fault (refusal21 system.now ∷ refusal22 system.now ∷ []) }
{
    let wrong_length = system.len() < 3
        || system.len() != 3 + words::at(system, 0) + 2 * words::at(system, 1);
    fault_if(21, 0, wrong_length)?;
    let states = words::at(system, 0);
    let wrong_sizes = states < 1 || MOST_STATES < states || MOST_TRANSITIONS < words::at(system, 1);
    fault_if(22, 0, wrong_sizes)
}

// 23 to 26, of words with the right sizes.
#[tactic(auto, using(crate::proofs::System::degrees_summed), unfolding(rules::specs::Answers::first_fault, rules::specs::Answers::and_then, rules::specs::Refusal::differ, rules::specs::Refusal::refusal23, rules::specs::Refusal::refusal24, rules::specs::Refusal::refusal25, rules::specs::Refusal::refusal26))]
fn check_transitions(labels: &[u32], system: &[u32]) -> Result<(), Fault>
    requires sized { (0 < length labels.now)
        × (length system.now ≡ 3 + state_count system.now + 2 * transition_count system.now) }
    requires few { (state_count system.now ≤ most_states) × (transition_count system.now ≤ most_transitions) }
    ensures { result ≡ first_fault (refusal23 system.now ∷ refusal24 system.now
        ∷ refusal25 labels.now system.now ∷ refusal26 system.now ∷ []) }
{
    let states = words::at(system, 0);
    let transitions = words::at(system, 1);
    fault_if(23, 2, states <= words::at(system, 2))?;
    let numbers = 3 + states;
    fault_if(24, 1, words::sum(&system[3..numbers]) != transitions)?;
    let targets = numbers + transitions;
    faults::check_below(system, numbers, targets, words::at(labels, 0), 25)?;
    faults::check_below(system, targets, targets + transitions, states, 26)
}

// 21 to 26: the system words.
#[tactic(auto, unfolding(rules::specs::Answers::first_fault, rules::specs::Answers::and_then))]
pub fn check_system(labels: &[u32], system: &[u32]) -> Result<(), Fault>
    requires { 0 < length labels.now }
    ensures { result ≡ first_fault (refusal21 system.now ∷ refusal22 system.now
        ∷ refusal23 system.now ∷ refusal24 system.now
        ∷ refusal25 labels.now system.now ∷ refusal26 system.now ∷ []) }
{
    check_sizes(system)?;
    check_transitions(labels, system)
}
