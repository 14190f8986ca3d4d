// The first transition of a state: a sum of out-degrees, of which every sixteenth is kept, so that no state's is a long
// sum.
#![tactic(auto)]

ghost use Rattle.std.specs.Prelude.{◌≡◌, ◌≤◌, ◌<◌, length};
ghost use Rattle.rules.specs.System.{state_count, first_transition};
ghost use Rattle.transitions.specs.Samples.{System, Samples, sample_count};

use words::at;

// Of how many states one is kept: 4,096 samples reach past the last of 65,535 states.
const STRIDE: usize = 16;

// Writes the first transition of every sixteenth state.
// Kept (proof): the index, where `samples.iter_mut().zip(degrees.chunks(STRIDE))` needs none: of a slice that was lent
// to a `zip` only the length is known afterwards, so the goal `Samples system.now samples.new` (`returns`) stays open.
pub fn sample_transitions(system: &[u32], samples: &mut [u32])
    requires system { System system.now }
    requires sample_count_in_bounds { sample_count ≤ length samples.old }
    ensures { Samples system.now samples.new }
{
    let states = at(system, 0);
    let mut sum = 0;
    for s in 0..states {
        if s % STRIDE == 0 {
            samples[s / STRIDE] = sum as u32;
        }
        sum += at(system, 3 + s);
    }
}

// The first transition of a state: the sample before it and the out-degrees from there on.
// Kept (no plainer): the system and its samples are two parameters, for one caller, whose own struct holds both and
// says of them what is asked here. That the system words are in order (`System`) is a clause of this and of the two
// that make the samples: a struct of the words would be made for one call of each.
pub fn first_transition(system: &[u32], samples: &[u32], state: usize) -> usize
    requires system { System system.now }
    requires samples { Samples system.now samples.now }
    requires state_bound { state < state_count system.now }
    ensures { result ≡ first_transition system.now state }
{
    let sample = state / STRIDE;
    let sampled = sample * STRIDE;
    samples[sample] as usize + words::sum(&system[3 + sampled..3 + state])
}
