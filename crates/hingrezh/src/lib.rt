// The static library: the calls open to users, for C and Rust hosts. A slice passes as a pointer and a length in words
// (a text: in bytes); the answer goes to four words that the host lends: 0 Done, 1 Cut, 2 Refused, then the values,
// unused ones 0.
#![tactic(auto)]

ghost use Rattle.std.specs.Prelude.{◌≡◌};
ghost use Rattle.rules.specs.Words.{input_of, room_of};
ghost use Rattle.rules.specs.Answers.{said, Says, Accepted};
ghost use Rattle.rules.specs.Depth.{by_depth};
ghost use Rattle.rules.specs.Run.{Outcome, run};
ghost use Rattle.rules.specs.Demands.{Demand1, Demand3};
ghost use Rattle.rules.specs.Restrict.{Restricted, reached_vertices, restriction};
ghost use Rattle.rules.specs.Restricts.{Restricts, RestrictionDemand1};
ghost use Rattle.rules.specs.Texts.{Written};
ghost use Rattle.rules.specs.PgsolverWriting.{written_game};
ghost use Rattle.rules.specs.PgsolverReading.{Readback, read_game};
ghost use Rattle.rules.specs.PgsolverCalls.{WritingDemand, ReadingDemand};
ghost use Rattle.satisfaction.specs.Claims.{NoFalsePass};
ghost use Rattle.regular_rules.specs.Refusals.{regular_input};
ghost use Rattle.regular_rules.specs.Expansion.{Expansion, expansion};
ghost use Rattle.regular_rules.specs.Accepts.{ExpansionDemand};
ghost use Rattle.regular_meaning.specs.Claims.{WrittenMeans};

// Kept (rule): the C interface is made of these parameters and words.

// The run: see `translate` of the crate translate, whose contract this is of the answer that the lent words say.
#[unsafe(no_mangle)]
pub extern "C" fn hingrezh_translate(
    labels: &[u32],
    system: &[u32],
    actions: &[u32],
    formula: &[u32],
    vertices: u32,
    edges: u32,
    limit: u32,
    game: &mut [u32],
    work: &mut [u32],
    answer: &mut [u32; 4],
)
    ensures coded { answer.new ≡ said (run by_depth (input_of labels.now system.now
        actions.now formula.now) (room_of vertices edges) limit game.old work.old).answer }
    ensures equals { Says answer.new (λ a.
        ◌≡◌ {A = Outcome} (record { answer = a; game = game.new; work = work.new })
        (run by_depth (input_of labels.now system.now actions.now formula.now)
        (room_of vertices edges) limit game.old work.old)) }
    ensures demand1 { Says answer.new (λ a. Demand1 (input_of labels.now
        system.now actions.now formula.now) (room_of vertices edges) limit
        game.old work.old a game.new work.new) }
    ensures demand3 { Says answer.new (λ a. Demand3 by_depth (input_of labels.now
        system.now actions.now formula.now) limit a game.new) }
    ensures no_false_pass { Says answer.new (λ a. NoFalsePass (input_of labels.now
        system.now actions.now formula.now) a game.new) }
{
    let result = translate::translate(
        labels, system, actions, formula, vertices, edges, limit, game, work,
    );
    *answer = result.into();
}

// The restriction: see `compute_reachable` of the crate reachability, whose contract this is of the answer that the
// lent words say.
#[unsafe(no_mangle)]
pub extern "C" fn hingrezh_compute_reachable(
    game: &[u32],
    out: &mut [u32],
    map: &mut [u32],
    work: &mut [u32],
    answer: &mut [u32; 4],
)
    ensures coded { answer.new
        ≡ said (restriction game.now out.old map.old work.old).answer }
    ensures equals { Says answer.new (λ a. ◌≡◌ {A = Restricted}
        (record { answer = a; out = out.new; mapping = map.new; work = work.new })
        (restriction game.now out.old map.old work.old)) }
    ensures restricts { Says answer.new (λ a. Accepted a
        → Restricts game.now a out.new map.new (reached_vertices game.now)) }
    ensures demand1 { Says answer.new (λ a. RestrictionDemand1
        game.now out.old map.old work.old a
        out.new map.new work.new) }
{
    let result = reachability::compute_reachable(game, out, map, work);
    *answer = result.into();
}

// A game as PGSolver text: see `write_pgsolver` of the crate pgsolver_writer, whose contract this is of the answer that
// the lent words say.
#[unsafe(no_mangle)]
pub extern "C" fn hingrezh_write_pgsolver(game: &[u32], text: &mut [u8], answer: &mut [u32; 4])
    ensures coded { answer.new ≡ said (written_game game.now text.old).answer }
    ensures equals { Says answer.new (λ a. ◌≡◌ {A = Written}
        (record { answer = a; text = text.new }) (written_game game.now text.old)) }
    ensures demand { Says answer.new (λ a.
        WritingDemand game.now text.old a text.new) }
{
    let result = pgsolver_writer::write_pgsolver(game, text);
    *answer = result.into();
}

// A game from PGSolver text: see `read_pgsolver` of the crate pgsolver_reader, whose contract this is of the answer
// that the lent words say.
#[unsafe(no_mangle)]
pub extern "C" fn hingrezh_read_pgsolver(
    text: &[u8],
    vertices: u32,
    edges: u32,
    game: &mut [u32],
    answer: &mut [u32; 4],
)
    ensures coded { answer.new
        ≡ said (read_game (room_of vertices edges) text.now game.old).answer }
    ensures equals { Says answer.new (λ a. ◌≡◌ {A = Readback}
        (record { answer = a; game = game.new })
        (read_game (room_of vertices edges) text.now game.old)) }
    ensures demand { Says answer.new (λ a.
        ReadingDemand (room_of vertices edges) text.now game.old a game.new) }
{
    let result = pgsolver_reader::read_pgsolver(text, vertices, edges, game);
    *answer = result.into();
}

// A formula whose modalities name regular formulas, written as one whose modalities name action formulas: see `expand`
// of the crate expand, whose contract this is of the answer that the lent words say.
#[unsafe(no_mangle)]
pub extern "C" fn hingrezh_expand(
    labels: &[u32],
    actions: &[u32],
    regulars: &[u32],
    formula: &[u32],
    out: &mut [u32],
    answer: &mut [u32; 4],
)
    ensures coded { answer.new ≡ said (expansion (regular_input labels.now
        actions.now regulars.now formula.now) out.old).answer }
    ensures equals { Says answer.new (λ a. ◌≡◌ {A = Expansion}
        (record { answer = a; out = out.new })
        (expansion (regular_input labels.now actions.now regulars.now formula.now) out.old)) }
    ensures demand { Says answer.new (λ a. ExpansionDemand (regular_input labels.now
        actions.now regulars.now formula.now) out.old a out.new) }
    ensures means { Says answer.new (λ a. WrittenMeans (regular_input labels.now
        actions.now regulars.now formula.now) a out.new) }
{
    let result = expand::expand(labels, actions, regulars, formula, out);
    *answer = result.into();
}
