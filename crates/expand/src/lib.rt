// Formulas whose modalities name regular formulas, written as formulas of document 01 (#104). `expand` is the one
// function for users; the others are its parts.
#![tactic(auto)]

ghost use Rattle.std.specs.Prelude.{◌≡◌, length};
ghost use Rattle.rules.specs.Answers.{first_fault};
ghost use Rattle.faults.specs.Answers.{answer_of};
ghost use Rattle.regular_rules.specs.Good.{GoodTables};
ghost use Rattle.regular_rules.specs.Refusals.{regular_input, table_length};
ghost use Rattle.regular_rules.specs.Expansion.{Expansion, expansion};
ghost use Rattle.regular_rules.specs.Accepts.{ExpansionDemand};
ghost use Rattle.regular_meaning.specs.Claims.{WrittenMeans};
ghost use Rattle.expand.specs.Parts.{first_checks, table_expansion};

use faults::fault_if;
use node_kinds::RegularKind;
use rules::{Answer, Fault};
use words::NODES;

// How many words are lent for the formula that is written: room for the most nodes.
const TABLE_WORDS: usize = 1 + 2 * NODES;

// 2, 11 to 13, 31 to 34, 61, 41 to 45: the length of the slice lent, the labels, the action formulas, the regular
// formulas, and the formula, whose modalities name trees of the regular formulas.
#[tactic(auto, unfolding(rules::specs::Answers::first_fault, rules::specs::Answers::and_then, rules::specs::Refusal::differ, regular_rules::specs::Refusals::refusal_out))]
fn check(
    labels: &[u32],
    actions: &[u32],
    regulars: &[u32],
    formula: &[u32],
    out_len: usize,
) -> Result<(), Fault>
    ensures { result ≡ first_fault
        (first_checks (regular_input labels.now actions.now regulars.now formula.now) out_len) }
{
    fault_if(2, 0, out_len != TABLE_WORDS)?;
    label_words::check_labels(labels)?;
    action_words::check_actions(labels, actions)?;
    regular_words::check_regulars(actions, regulars)?;
    formula_words::check_formula::<RegularKind>(regulars, formula)
}

// 62 for an expanded formula of more than 1,024 nodes; else it is written, and zeros past it.
fn write_checked(regulars: &[u32], formula: &[u32], out: &mut [u32]) -> Result<Answer, Fault>
    requires tables { GoodTables regulars.now formula.now }
    requires room { length out.old ≡ table_length }
    ensures { record { answer = answer_of result; out = out.new }
        ≡ table_expansion regulars.now formula.now out.old }
{
    let nodes = expanded_sizes::expanded_size(regulars, formula);
    fault_if(62, 0, NODES < nodes)?;
    expanding::write_expanded(regulars, formula, nodes, out);
    Ok(Answer::Done((1 + 2 * nodes) as u32, 0, 0))
}

// A formula is expanded, or has a fault.
fn write_formula(
    labels: &[u32],
    actions: &[u32],
    regulars: &[u32],
    formula: &[u32],
    out: &mut [u32],
) -> Result<Answer, Fault>
    ensures { record { answer = answer_of result; out = out.new }
        ≡ expansion (regular_input labels.now actions.now regulars.now formula.now) out.old }
{
    check(labels, actions, regulars, formula, out.len())?;
    write_checked(regulars, formula, out)
}

// Expands a formula whose modalities name regular formulas: writes it into the slice `out`, of 2,049 words, as a
// formula whose modalities name action formulas. Refused are 2 for a slice of another length, 11 to 13 and 31 to 34 as
// a run is, 61 for a malformed table of regular formulas, 41 to 45 for the formula, and 62 for a result of more than
// 1,024 nodes. For every input, refused ones included:
// - `equals` gives the answer and the slice afterwards by the rules' expansion;
// - `demand` says when an input is refused, by which number and place, and else what the slice holds: a table that the
//   checks of document 01 accept, which reads as the expanded formula, and zeros past it;
// - `means` says that what is written says of every system what the formula handed over says by paths, and that an
//   accepted verdict on its game is no false pass for that one.
pub fn expand(
    labels: &[u32],
    actions: &[u32],
    regulars: &[u32],
    formula: &[u32],
    out: &mut [u32],
) -> Answer
    ensures equals { ◌≡◌ {A = Expansion} (record { answer = result; out = out.new })
        (expansion (regular_input labels.now actions.now regulars.now formula.now) out.old) }
    ensures demand { ExpansionDemand (regular_input labels.now actions.now regulars.now formula.now)
        out.old result out.new }
    ensures means { WrittenMeans (regular_input labels.now actions.now regulars.now formula.now)
        result out.new }
{
    write_formula(labels, actions, regulars, formula, out).unwrap_or_else(Answer::from)
}
