// What a walk reads: the input and the tables that are made of it before. What holds of them is said once, by the type.

ghost use Rattle.std.specs.Prelude.{◌≡◌};
ghost use Rattle.lent_input.specs.Inputs.{input_in};
ghost use Rattle.stepping.specs.Tables.{Tables};
ghost use Rattle.stepping.specs.Facts.{tables_prop};

use compiled::Compiled;
use lent_input::Input;
use match_table::MatchRows;
use modalities::ModelTables;

// An input, what was compiled of it, and the table of matching labels.
#[derive(Clone, Copy)]
pub struct WalkTables<'a> {
    pub input: Input<'a>,
    pub compiled: &'a Compiled,
    pub matched: &'a MatchRows,
    ghost made: { Tables (input_in input) compiled.now matched.now } by { tables_prop (input_in input) compiled.now matched.now },
}

impl<'a> WalkTables<'a> {
    // What the step of a modality reads of them: all but the formula and the items.
    pub fn model(&self) -> ModelTables<'a>
        ensures words { (result.labels.now ≡ self.now.input.labels.now)
            × (result.system.now ≡ self.now.input.system.now)
            × (result.actions.now ≡ self.now.input.actions.now) }
        ensures tables { (result.compiled.now ≡ self.now.compiled.now) × (result.matched.now ≡ self.now.matched.now) }
    {
        ModelTables {
            labels: self.input.labels,
            system: self.input.system,
            actions: self.input.actions,
            compiled: self.compiled,
            matched: self.matched,
        }
    }
}
