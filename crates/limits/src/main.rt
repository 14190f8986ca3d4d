// Runs at the limits of document 01 (case 11, and those of action formulas, labels and room): prints what each answers.
#![tactic(auto)]

ghost use Rattle.std.specs.Prelude.{◌≤◌};

use rules::{Answer, Room};
use std::io;
use stored_runs::Groups;

// One label of one action, one state without transitions, the action formula `true`, the formula `true`.
const SMALLEST: Groups<'static> = Groups {
    labels: &[1, 1, 0, 7],
    system: &[1, 0, 0, 0],
    actions: &[1, 2, 0],
    formula: &[1, 0, 0],
};

// The run with this room, lent the slices of room for 6 vertices and 8 edges.
fn run_in(rt: &impl Print, input: Groups<'_>, room: Room) -> io::Result<()> {
    let mut game = [0u32; 50];
    let mut work = [0u32; 64];
    let answer = translate::translate(
        input.labels,
        input.system,
        input.actions,
        input.formula,
        room.vertices,
        room.edges,
        100,
        &mut game,
        &mut work,
    );
    stored_runs::answer_line(rt, answer)
}

fn attempt(rt: &impl Print, input: Groups<'_>) -> io::Result<()> {
    let room = Room {
        vertices: 6,
        edges: 8,
    };
    run_in(rt, input, room)
}

// So many states without transitions.
fn states(rt: &impl Print, count: usize) -> io::Result<()>
    requires { count ≤ 65536 }
{
    let mut system = stored_runs::filled::<u32, 65539>(0);
    system[0] = count as u32;
    let system = &system[..3 + count];
    attempt(rt, Groups { system, ..SMALLEST })
}

// A formula of so many nodes: boxes around true.
fn nodes(rt: &impl Print, count: usize) -> io::Result<()>
    requires { count ≤ 1025 }
{
    let mut formula = stored_runs::filled::<u32, 2051>(0);
    formula[..count].fill(4);
    formula[0] = count as u32;
    let formula = &formula[..1 + 2 * count];
    attempt(
        rt,
        Groups {
            formula,
            ..SMALLEST
        },
    )
}

// A row of so many action formulas `true`.
// Kept (no plainer): not one function with `nodes`: each fills another field of the input; what they share are `filled`
// and `attempt`.
fn row(rt: &impl Print, count: usize) -> io::Result<()>
    requires { count ≤ 1025 }
{
    let mut actions = stored_runs::filled::<u32, 2051>(0);
    actions[0] = count as u32;
    let actions = &actions[..1 + 2 * count];
    attempt(
        rt,
        Groups {
            actions,
            ..SMALLEST
        },
    )
}

// So many labels without actions; the action formula is the multi-action of label 4,095.
fn labels(rt: &impl Print, count: u32) -> io::Result<()> {
    let labels = &[count, 0];
    let actions = &[1, 2, 4095];
    attempt(
        rt,
        Groups {
            labels,
            actions,
            ..SMALLEST
        },
    )
}

// One label of so many actions 0.
fn actions(rt: &impl Print, count: usize) -> io::Result<()>
    requires { count ≤ 16385 }
{
    let mut labels = stored_runs::filled::<u32, 32772>(0);
    labels[0] = 1;
    labels[1] = count as u32;
    let labels = &labels[..2 + 2 * count];
    attempt(rt, Groups { labels, ..SMALLEST })
}

// One state with so many loops on label 0; the formula is a diamond.
fn transitions(rt: &impl Print, count: usize) -> io::Result<()>
    requires { count ≤ 262145 }
{
    let mut system = stored_runs::filled::<u32, 524294>(0);
    system[0] = 1;
    system[1] = count as u32;
    system[3] = count as u32;
    let system = &system[..4 + 2 * count];
    let formula = &[2, 5, 0, 0, 0];
    attempt(
        rt,
        Groups {
            system,
            formula,
            ..SMALLEST
        },
    )
}

// Room in range is refused here for the slices' lengths, by 2; room out of range by 1.
fn room(rt: &impl Print, vertices: u32, edges: u32) -> io::Result<()> {
    run_in(rt, SMALLEST, Room { vertices, edges })
}

// 51: so many vertices and edges of a game that is handed over. (The game itself would have 20 MB or more, which
// the stack does not hold.)
fn sizes(rt: &impl Print, vertices: usize, edges: usize) -> io::Result<()> {
    if parity_game::above_room(vertices, edges) {
        stored_runs::answer_line(rt, Answer::Refused(51, 0))
    } else {
        println!(rt; "passed")
    }
}

fn main(rt: HostRuntime) -> io::Result<()> {
    for count in [65535, 0, 65536] {
        states(&rt, count)?;
    }
    for count in [1024, 0, 1025] {
        nodes(&rt, count)?;
    }
    for count in [1024, 0, 1025] {
        row(&rt, count)?;
    }
    for count in [4096, 4097] {
        labels(&rt, count)?;
    }
    for count in [16384, 16385] {
        actions(&rt, count)?;
    }
    for count in [262144, 262145] {
        transitions(&rt, count)?;
    }
    for (vertices, edges) in [
        (1048576, 4194304),
        (1048577, 1),
        (1, 4194305),
        (0, 1),
        (1, 0),
    ] {
        room(&rt, vertices, edges)?;
    }
    for (vertices, edges) in [(1048576, 4194304), (1048577, 0), (1, 4194305)] {
        sizes(&rt, vertices, edges)?;
    }
    Ok(())
}
