// The words of an input that has passed the checks, lent together. What the checks show of them is said once, by the
// type: whoever holds one need not ask for it.
#![tactic(auto)]

ghost use Rattle.rules.specs.Words.{input_of};
ghost use Rattle.tables.specs.Good.{GoodInput};

#[derive(Clone, Copy)]
pub struct Input<'a> {
    pub labels: &'a [u32],
    pub system: &'a [u32],
    pub actions: &'a [u32],
    pub formula: &'a [u32],
    ghost good: { GoodInput (input_of labels.now system.now actions.now formula.now) },
}
