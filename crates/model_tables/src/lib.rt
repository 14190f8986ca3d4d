// The compiled tables that go by the model alone: the labels' multisets and the first transitions.
#![tactic(auto)]

ghost use Rattle.tables.specs.Good.{GoodLabels};
ghost use Rattle.compiled.specs.Tables.{classes_in, samples_in};
ghost use Rattle.labels.specs.Classes.{Classes};
ghost use Rattle.transitions.specs.Samples.{System, Samples};

use compiled::Compiled;

// Writes them.
pub fn write_model_tables(labels: &[u32], system: &[u32], compiled: &mut Compiled)
    requires { GoodLabels labels.now × System system.now }
    ensures { Classes labels.now (classes_in compiled.new)
        × Samples system.now (samples_in compiled.new) }
{
    labels::label_classes(labels, &mut compiled.classes);
    transitions::sample_transitions(system, &mut compiled.samples);
}
