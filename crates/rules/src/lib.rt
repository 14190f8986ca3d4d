// Document 01 as definitions: see specs/, in the order of specs/Lib.antt. Here stand the answers that calls give, and
// the room that a run is lent.
#![tactic(auto)]

ghost use Rattle.std.specs.Prelude.{◌≡◌};
ghost use Rattle.rules.specs.declared.Answer.TheVariants.{Refused};
ghost use Rattle.rules.specs.Answers.{said};

// What a call answers: Done (steps, vertices, edges), Cut (steps, vertices known, edges) or Refused (number, place).
// Kept (rule): an answer has the papers' three cases, for each of which `said` has the four words of the C interface.
#[derive(Clone, Copy, Debug, PartialEq, Eq)]
pub enum Answer {
    Done(u32, u32, u32),
    Cut(u32, u32, u32),
    Refused(u32, u32),
}

// The four words of an answer, as the calls for hosts give them.
impl From<Answer> for [u32; 4] {
    ghost from_gives = { λ answer ws. ws ≡ said answer };

    #[tactic(auto, unfolding(crate::specs::Answers::said))]
    fn from(answer: Answer) -> [u32; 4] {
        match answer {
            Answer::Done(steps, vertices, edges) => [0, steps, vertices, edges],
            Answer::Cut(steps, vertices, edges) => [1, steps, vertices, edges],
            Answer::Refused(number, place) => [2, number, place, 0],
        }
    }
}

// A refusal is the answer of the call that finds the fault.
impl From<Fault> for Answer {
    ghost from_gives = { λ fault answer. answer ≡ Refused fault.number fault.place };

    fn from(fault: Fault) -> Answer {
        Answer::Refused(fault.number, fault.place)
    }
}

// Why an input is refused.
// Kept (rule): its number is a number. The papers and the C interface know a refusal by it alone, and the checks of
// the tables of trees are one function whose numbers go up from one that it is given.
#[derive(Clone, Copy, Debug, PartialEq, Eq)]
pub struct Fault {
    pub number: u32,
    pub place: u32,
}

// The room lent for a game: so many vertices and edges.
#[derive(Clone, Copy)]
pub struct Room {
    pub vertices: u32,
    pub edges: u32,
}
