// The transitions of one state, as they are read.

ghost use Rattle.modalities.specs.Within.{Within};

// The transitions of a state: of each in order its label and its target, which is one of so many states.
// Kept (rule): two slices side by side, as document 01 lays the system words out.
#[derive(Clone, Copy)]
pub struct Moves<'a> {
    pub labels: &'a [u32],
    pub targets: &'a [u32],
    pub states: u32,
    ghost within: { Within labels.now targets.now states },
}
