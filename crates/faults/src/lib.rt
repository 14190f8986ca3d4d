// What all checks answer by: a fault at a place that is known, and the search for the first place that is refused.
#![tactic(auto)]

ghost use Rattle.std.specs.Prelude.{◌≡◌, Bool, ℕ, ◌<◌, ◌≤◌, length};
ghost use Rattle.rules.specs.Answers.{fault_if};
ghost use Rattle.rules.specs.Refusal.{too_large, fault_from};

use rules::Fault;

// Fault `number` at a place if what is checked is bad.
#[tactic(auto, unfolding(rules::specs::Answers::fault_if))]
pub fn fault_if(number: u32, place: u32, bad: bool) -> Result<(), Fault>
    ensures { result ≡ fault_if number place bad }
{
    if bad {
        Err(Fault { number, place })
    } else {
        Ok(())
    }
}

// Fault `number` at the first of the places from `first` up to `end` that is bad.
// Kept (no plainer): two numbers, here and in `check_below`: every clause speaks of both ends, and a `Range` would be
// made at each call and taken apart in each clause.
pub fn first_fault<F: Fn(usize) -> bool>(
    number: u32,
    first: usize,
    end: usize,
    bad: F,
) -> Result<(), Fault>
    requires callable { (place : ℕ) → first ≤ place → place < end → F.pre bad place }
    requires end_fits { end < 4294967296 }
    ensures { (test : ℕ → Bool)
        → ((place : ℕ) (r : Bool) → first ≤ place → place < end → F.post bad place r → r ≡ test place)
        → result ≡ fault_from number first end test }
{
    // Kept (proof): by `find` over the range the goals find-requires and `returns-in-Some` were left.
    for place in first..end {
        if bad(place) {
            return Err(Fault {
                number,
                place: place as u32,
            });
        }
    }
    Ok(())
}

// Fault `number` at the first of the words from `first` up to `end` that is not below the bound.
#[tactic(auto, unfolding(rules::specs::Refusal::too_large))]
pub fn check_below(
    ws: &[u32],
    first: usize,
    end: usize,
    bound: usize,
    number: u32,
) -> Result<(), Fault>
    requires { (end ≤ length ws.now) × (end < 4294967296) }
    ensures { result ≡ fault_from number first end (too_large ws.now bound) }
{
    first_fault(number, first, end, |place| bound <= words::at(ws, place))
}
