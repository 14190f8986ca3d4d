// What the step of a modality reads: the model and the tables that are made of it before. What holds of them is said
// once, by the type.

ghost use Rattle.std.specs.Prelude.{◌≡◌};
ghost use Rattle.modalities.specs.Tables.{Tables};
ghost use Rattle.modalities.specs.Facts.{tables_prop};

use compiled::Compiled;
use match_table::MatchRows;

// The words of a model, what was compiled of them, and the table of matching labels. The formula is not among them:
// successors do not depend on it.
#[derive(Clone, Copy)]
pub struct ModelTables<'a> {
    pub labels: &'a [u32],
    pub system: &'a [u32],
    pub actions: &'a [u32],
    pub compiled: &'a Compiled,
    pub matched: &'a MatchRows,
    ghost made: { Tables labels.now system.now actions.now compiled.now matched.now } by { tables_prop labels.now system.now actions.now compiled.now matched.now },
}
