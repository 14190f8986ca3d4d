// The run: from a model and a formula to a parity game (translate.rs, Translation::translate and from_edges with
// make_total). `translate` is the one function for users; the others are its parts.
#![tactic(auto)]

ghost use Rattle.std.specs.Prelude.{◌≡◌, length};
ghost use Rattle.std.specs.declared.result.Result.TheVariants.{Ok};
ghost use Rattle.rules.specs.Words.{input_of, room_of};
ghost use Rattle.rules.specs.Answers.{said};
ghost use Rattle.rules.specs.Depth.{by_depth};
ghost use Rattle.rules.specs.Refusal.{refusal};
ghost use Rattle.rules.specs.Run.{Outcome, run};
ghost use Rattle.rules.specs.Demands.{Demand1, Demand3};
ghost use Rattle.satisfaction.specs.Claims.{NoFalsePass};
ghost use Rattle.faults.specs.Answers.{answer_of};
ghost use Rattle.compiled.specs.Tables.{kinds_in, priorities_in};
ghost use Rattle.lent_input.specs.Inputs.{input_in};
ghost use Rattle.settling.specs.Keys.{key_targets, key_behind, root_key};
ghost use Rattle.settling.specs.Made.{Sized};
ghost use Rattle.settling.specs.Good.{WalkAnswer};
ghost use Rattle.translate.specs.Runs.{Prepared, Writable, WroteOut, RunBy, RunByRanks};

use compiled::Compiled;
use inputs::Lent;
use lent_input::Input;
use match_table::{ActionWords, MatchRows};
use pairs::NoRoom;
use rules::{Answer, Fault, Room};
use settling::Counters;
use stepping::{Bounds, WalkTables};

// The walk of at most `bounds.limit` steps, whatever the work words hold.
fn explore(tables: &WalkTables<'_>, work: &mut [u32], bounds: Bounds) -> Result<Counters, NoRoom>
    requires { Sized work.old bounds.room.vertices bounds.room.edges }
    ensures { let x = input_in tables.now.input in
        WalkAnswer (key_targets x) (key_behind x) (root_key x) bounds.room.vertices bounds.room.edges
        bounds.limit work.new result }
{
    let begun = stepping::begin(&tables.input, work, bounds.room)?;
    stepping::walk(begun, tables, work, bounds)
}

// The walk's game is written out and the work slice cleared, or both are cleared where there was no room.
// Kept (no plainer): game and work are two parameters, here and below: a struct of two lent slices would have to
// promise besides, in each contract, that each slice stays the same.
fn write_out(
    walked: Result<Counters, NoRoom>,
    compiled: &Compiled,
    room: Room,
    game: &mut [u32],
    work: &mut [u32],
) -> Answer
    requires { Writable room (length game.old) work.old walked }
    ensures { WroteOut (kinds_in compiled.now) (priorities_in compiled.now) room
        game.old work.old result game.new work.new walked }
{
    match walked {
        Ok(counters) => {
            let known = counters.known;
            let edges = counters.edges;
            game_writer::write_game(game, work, compiled, room, counters);
            work.fill(0); // nothing of the walk stays
            if counters.waiting == 0 {
                return Answer::Done(counters.settled, known, edges);
            }
            Answer::Cut(counters.settled, known, edges)
        }
        Err(NoRoom) => {
            game.fill(0);
            work.fill(0);
            Answer::Refused(60, 0)
        }
    }
}

// The walk over the tables, and its game by whatever ranking the priorities show. The table of matching labels is made
// here: what the compiler worked in has left the stack by now.
fn build_game(
    input: &Input<'_>,
    compiled: &Compiled,
    items: usize,
    bounds: Bounds,
    game: &mut [u32],
    work: &mut [u32],
) -> Answer
    requires prepared { Prepared (input_in input.now) compiled.now items }
    requires accepted { refusal (input_in input.now) bounds.room (length game.old) (length work.old) ≡ Ok tt }
    ensures { RunByRanks (priorities_in compiled.now) (input_in input.now) bounds.room bounds.limit
        game.old work.old result game.new work.new }
{
    let mut matched = MatchRows::blank();
    let words = ActionWords {
        labels: input.labels,
        actions: input.actions,
    };
    match_table::make_match_table(&words, compiled, items, &mut matched);
    let tables = WalkTables {
        input: *input,
        compiled,
        matched: &matched,
    };
    let walked = explore(&tables, work, bounds);
    write_out(walked, compiled, bounds.room, game, work)
}

// An accepted input is compiled, with the priorities by depth, and its game is built.
fn build(input: &Input<'_>, bounds: Bounds, game: &mut [u32], work: &mut [u32]) -> Answer
    requires { refusal (input_in input.now) bounds.room (length game.old) (length work.old) ≡ Ok tt }
    ensures { RunBy by_depth (input_in input.now) bounds.room bounds.limit
        game.old work.old result game.new work.new }
{
    let mut compiled = Compiled::blank();
    model_tables::write_model_tables(input.labels, input.system, &mut compiled);
    let items = item_table::compile(input, &mut compiled);
    build_game(input, &compiled, items, bounds, game, work)
}

// The words are accepted and their game is built, or they, the room or a length have a fault.
fn run_lent(
    labels: &[u32],
    system: &[u32],
    actions: &[u32],
    formula: &[u32],
    bounds: Bounds,
    game: &mut [u32],
    work: &mut [u32],
) -> Result<Answer, Fault>
    ensures { RunBy by_depth (input_of labels.now system.now actions.now formula.now) bounds.room bounds.limit
        game.old work.old (answer_of result) game.new work.new }
{
    let lent = Lent {
        room: bounds.room,
        game: game.len(),
        work: work.len(),
    };
    let input = inputs::accept(labels, system, actions, formula, lent)?;
    Ok(build(&input, bounds, game, work))
}

// Builds the parity game of a model and a formula: document 01's run. The words handed over are `labels`, `system`,
// `actions` and `formula`; there is room for so many vertices and edges, and at most `limit` steps are made. For every
// input, refused ones included:
// - `equals` gives the answer and both slices afterwards by the rules' run;
// - `coded`: the answer's words (`said`) are those of the rules' answer;
// - `demand1` says when a run is refused, by which number and place, and what it leaves;
// - `demand3` is the cut theorem, of the answer and the words in the game slice, which show the pair of each vertex;
// - `no_false_pass`: where the run is Done and a verdict on the game slice's words is accepted with its reasons, the
//   initial state satisfies the formula (after Bradfield and Stirling's mu-calculus).
// Kept (rule): the parameters are those of the C interface; the numbers are made a `Bounds` at once.
pub fn translate(
    labels: &[u32],
    system: &[u32],
    actions: &[u32],
    formula: &[u32],
    vertices: u32,
    edges: u32,
    limit: u32,
    game: &mut [u32],
    work: &mut [u32],
) -> Answer
    ensures equals { ◌≡◌ {A = Outcome} (record { answer = result; game = game.new; work = work.new })
        (run by_depth (input_of labels.now system.now actions.now formula.now)
        (room_of vertices edges) limit game.old work.old) }
    ensures coded { said result ≡ said (run by_depth
        (input_of labels.now system.now actions.now formula.now)
        (room_of vertices edges) limit game.old work.old).answer }
    ensures demand1 { Demand1 (input_of labels.now
        system.now actions.now formula.now) (room_of vertices edges) limit
        game.old work.old result game.new work.new }
    ensures demand3 { Demand3 by_depth (input_of labels.now system.now
        actions.now formula.now) limit result game.new }
    ensures no_false_pass { NoFalsePass (input_of labels.now system.now
        actions.now formula.now) result game.new }
{
    let room = Room { vertices, edges };
    let bounds = Bounds { room, limit };
    run_lent(labels, system, actions, formula, bounds, game, work).unwrap_or_else(Answer::from)
}
