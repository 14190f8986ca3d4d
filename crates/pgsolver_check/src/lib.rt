// PGSolver text that is to be read as a game (#101), looked at before anything is written: whether it has the form,
// whether each vertex is given once, and whether there is room for its game.
// Kept (no plainer): text and place stay two parameters, as in crate pgsolver_scan.
#![tactic(auto)]

ghost use Rattle.std.specs.Prelude.{◌≡◌, true, false, not, [], map, ◌+◌, ◌<◌, ◌≤◌, length, eqb, ltb};
ghost use Rattle.std.specs.declared.result.Result.TheVariants.{Ok};
ghost use Rattle.rules.specs.Lists.{once, Distinct};
ghost use Rattle.rules.specs.Words.{most_vertices, room_of};
ghost use Rattle.rules.specs.Answers.{fault_if};
ghost use Rattle.rules.specs.Game.{edge_count};
ghost use Rattle.rules.specs.PgsolverReading.{vertex_of, different, numbers_of, refusal92, refusal93};
ghost use Rattle.bitmap.specs.Marks.{bitmap_numbers, Holds, Only};
ghost use Rattle.pgsolver_scan.specs.Told.{past_line};
ghost use Rattle.pgsolver_check.specs.Lines.{solver_text, lines_in, lines_from, tops_of, Readable, Narrow};
ghost use Rattle.pgsolver_check.specs.Survey.{Seen, ToldSurvey, Addable, Added};
ghost use Rattle.pgsolver_check.specs.Facts.{seen_prop};
ghost use Rattle.pgsolver_check.specs.Numbers.{numbered_on};
ghost use Rattle.pgsolver_check.specs.Windows.{Apart, Noted, Again};
ghost use Rattle.pgsolver_scan.specs.Successors.{list_at, Listed};
ghost use Rattle.pgsolver_check.specs.Plans.{ToldPlan};

use bitmap::{Bitmap, NUMBERS, WORDS};
use pgsolver_scan::{Successors, VertexLine};
use rules::Fault;

// How the numbers of the lines stand. Those from 1,048,576 on are not compared by the survey.
#[derive(Clone, Copy)]
pub enum Numbering {
    InOrder,
    Different,
    Repeated,
}

// What a text that is not refused gives: its highest vertex, the place of its first line, and how the lines are
// numbered.
#[derive(Clone, Copy)]
pub struct Plan {
    pub highest: usize,
    pub first: usize,
    pub numbering: Numbering,
}

// What the survey of a text finds: the plan, if it is not refused, how many lines there are, the highest number and the
// highest priority on them, and a bound for the edges.
#[derive(Clone, Copy)]
struct Found {
    plan: Plan,
    lines: usize,
    top: usize,
    rank: usize,
    listed: usize,
}

// How the lines are numbered with one more, whose number was seen before or is in its turn.
#[tactic(auto, unfolding(crate::specs::Numbers::numbered_on))]
fn with_number(numbering: Numbering, again: bool, in_turn: bool) -> Numbering
    ensures { result ≡ numbered_on numbering again in_turn }
{
    if again {
        return Numbering::Repeated;
    }
    match numbering {
        Numbering::InOrder if !in_turn => Numbering::Different,
        numbering => numbering,
    }
}

// What is found with one line more. A line has no more different successors than there are vertices.
fn with_line(found: Found, row: VertexLine, bits: &mut Bitmap) -> Found
    requires { Addable found row }
    ensures { Added found row result bits.old bits.new }
{
    let again = seen_before(row.number, 0, bits);
    let plan = found.plan;
    Found {
        plan: Plan {
            numbering: with_number(plan.numbering, again, row.number == found.lines),
            ..plan
        },
        lines: found.lines + 1,
        top: found.top.max(row.number).max(row.largest),
        rank: found.rank.max(row.priority),
        listed: found.listed + row.listed.min(plan.highest + 1),
    }
}

// The form of the whole text: none where it does not have it. The numbers of the lines are noted in the bitmap, so that
// lines in another order than that of their numbers need no pass of their own.
fn survey_text(text: &[u8], bits: &mut Bitmap) -> Option<Found>
    ensures { ToldSurvey result text.now }
{
    let header = pgsolver_scan::read_header(text)?;
    bits.clear();
    let mut place = header.next;
    let mut found = Found {
        plan: Plan {
            highest: header.value,
            first: header.next,
            numbering: Numbering::InOrder,
        },
        lines: 0,
        top: 0,
        rank: 0,
        listed: 0,
    };
    // Kept (no plainer): an iterator over lines that are read would serve this loop alone, answer an Option for each
    // line that is not of the form, and be longer than the loop.
    while place < text.len() {
        let row = pgsolver_scan::read_line(text, place)?;
        found = with_line(found, row, bits);
        place = row.next;
    }
    Some(found)
}

// ---- a vertex given twice: the numbers are looked at in windows of 1,048,576, the first in the survey. A text with
// more than one window is refused in any case, but perhaps for another reason

// A number is noted, if it is in the window from `base` on. Was it there before?
fn seen_before(number: usize, base: usize, bits: &mut Bitmap) -> bool
    requires { base + bitmap_numbers < 18446744073709551616 }
    ensures noted { result ≡ false → Noted base number bits.old bits.new }
    ensures again { result ≡ true → Again base number bits.old }
{
    let Some(offset) = number.checked_sub(base) else {
        return false;
    };
    if NUMBERS <= offset {
        return false;
    }
    !bits.meet(offset)
}

// Are the numbers of the lines in the window from `base` on all different? If not, the numbers are not.
fn window_differs(text: &[u8], first: usize, base: usize, bits: &mut Bitmap) -> bool
    requires { Readable text.now first × (base + bitmap_numbers < 18446744073709551616) }
    ensures apart { result ≡ true → Apart base (numbers_of (lines_from text.now first)) }
    ensures not_distinct { result ≡ false → ¬ Distinct (numbers_of (lines_from text.now first)) }
{
    bits.clear();
    let mut place = first;
    // Kept (speed): three of the four loops over lines end a line by `past_line`, `survey_text` alone knows its end. An
    // iterator over the places of lines would look for the newline from the front of a line, where `count_edges` goes
    // on from behind the list: over 1,000,000 lines of three successors that took 27 % longer (89 ms for 70, both in
    // plain Rust). For this loop and `post_lines` of crate pgsolver_reader alone it would be longer than they are.
    while place < text.len() {
        let Some(number) = pgsolver_scan::read_field(text, place, b' ') else {
            return false;
        };
        if seen_before(number.value, base, bits) {
            return false;
        }
        place = pgsolver_scan::past_line(text, place);
    }
    true
}

// Are the numbers of the lines, none above `highest`, all different? Those of the first window are.
fn numbers_differ(text: &[u8], first: usize, highest: usize, bits: &mut Bitmap) -> bool
    requires readable { Readable text.now first × (tops_of (lines_from text.now first) ≤ highest) }
    requires apart { Apart 0 (numbers_of (lines_from text.now first)) }
    requires highest_bound { highest < 9223372036854775808 }
    ensures { result ≡ different (numbers_of (lines_from text.now first)) }
{
    // Kept (proof): by `all` the closure has to be told what `window_differs` asks of text and base
    // (window_differs-requires did not close), and `returns` is of a run of calls.
    for base in (NUMBERS..highest + 1).step_by(NUMBERS) {
        if !window_differs(text, first, base, bits) {
            return false;
        }
    }
    true
}

// ---- edges: they are counted only where the bound that the survey found is more than there is room for
// Kept (no plainer): text and list stay two parameters, and three clauses ask that a list stands there. `Successors` is
// a struct of the two, but a loop uses it up: `count_list` goes over its list twice, and `empty_list` asks where it
// begins. The clauses speak of both by `list_at` and `past_line`.

// How many different numbers a list has, and the place past it.
#[derive(Clone, Copy)]
struct Counted {
    count: usize,
    next: usize,
}

// Empties the bitmap, in which only numbers of a list are marked.
// Kept (no plainer): a `wipe_all` over any numbers would ask that each of those that its iterator has left is below
// 1,048,576 and that no other is marked, and keep both along its loop; the two loops are three lines each.
fn wipe_list(text: &[u8], list: usize, bits: &mut Bitmap)
    requires { Listed text.now list × Only bits.old (list_at text.now list) }
    ensures { Holds bits.new [] }
{
    for successor in Successors::new(text, list) {
        bits.wipe(successor.value);
    }
}

// The same, by what is shorter: the list, which ends at `next`, or the bitmap.
// Kept (no plainer): crate pgsolver_writer chooses alike, but by how many numbers it has. Here the bytes of the list
// are known and its numbers are not counted: a method for both would be handed the length besides the numbers.
fn empty_list(text: &[u8], list: usize, next: usize, bits: &mut Bitmap)
    requires { Listed text.now list × Only bits.old (list_at text.now list) × (list ≤ next) }
    ensures { Holds bits.new [] }
{
    if WORDS < next - list {
        bits.clear();
        return;
    }
    wipe_list(text, list, bits);
}

// The different numbers of a list.
fn count_list(text: &[u8], list: usize, bits: &mut Bitmap) -> Counted
    requires { Listed text.now list × Holds bits.old [] }
    ensures counted { result.count ≡ length (once eqb (list_at text.now list)) }
    ensures same_line { past_line text.now list ≡ past_line text.now result.next }
    ensures emptied { Holds bits.new [] }
{
    let mut count = 0;
    let mut next = list;
    for successor in Successors::new(text, list) {
        count += usize::from(bits.meet(successor.value));
        next = successor.next;
    }
    empty_list(text, list, next, bits);
    Counted { count, next }
}

// Is there room for the edges of the lines, repeats left out? The fields before a list are only passed over: that they
// fit 32 bits is known.
fn count_edges(text: &[u8], first: usize, room: usize, bits: &mut Bitmap) -> bool
    requires { Narrow text.now first }
    ensures { result ≡ not (ltb room (edge_count (map vertex_of (lines_from text.now first)))) }
{
    bits.clear();
    let mut place = first;
    let mut edges = 0;
    // Kept (speed): as in `window_differs`.
    while place < text.len() {
        let number = pgsolver_scan::known_field(text, place);
        let priority = pgsolver_scan::known_field(text, number.next);
        let owner = pgsolver_scan::known_field(text, priority.next);
        let counted = count_list(text, owner.next, bits);
        if room - edges < counted.count {
            return false;
        }
        edges += counted.count;
        place = pgsolver_scan::past_line(text, counted.next);
    }
    true
}

// ---- the check

// A text with the form, and what the survey found: what holds of the two is said once, by the type.
#[derive(Clone, Copy)]
struct Surveyed<'a> {
    text: &'a [u8],
    found: Found,
    ghost seen: { Seen text.now found } by { seen_prop text.now found },
}

impl<'a> Surveyed<'a> {
    // Are the numbers of the lines, which are as many as there are vertices, all different?
    fn are_different(&self, bits: &mut Bitmap) -> bool
        requires { (self.now.found.lines ≡ self.now.found.plan.highest + 1)
            × (self.now.found.top ≤ self.now.found.plan.highest) }
        ensures { result ≡ different (numbers_of (lines_in self.now.text.now)) }
    {
        let plan = self.found.plan;
        match plan.numbering {
            Numbering::InOrder => true,
            Numbering::Different => numbers_differ(self.text, plan.first, plan.highest, bits),
            Numbering::Repeated => false,
        }
    }

    // 92: each vertex up to the highest is given once, and no other.
    fn check_numbers(&self, bits: &mut Bitmap) -> Result<(), Fault>
        ensures { result ≡ refusal92 (solver_text self.now.text.now) }
    {
        let found = self.found;
        let miscounted = found.lines != found.plan.highest + 1;
        faults::fault_if(92, 0, miscounted)?;
        let too_high = found.plan.highest < found.top;
        faults::fault_if(92, 0, too_high)?;
        let different = self.are_different(bits);
        faults::fault_if(92, 0, !different)
    }

    // 93: a text whose numbers are right fits in room for so many vertices and edges.
    // Kept (rule): vertices and edges are two numbers, here and in the call below: the edges may be any number, and a
    // `Room`, which has 32 bits for it, would ask more of a caller.
    fn check_fit(&self, vertices: usize, edges: usize, bits: &mut Bitmap) -> Result<(), Fault>
        requires right { refusal92 (solver_text self.now.text.now) ≡ Ok tt }
        requires most { vertices ≤ most_vertices }
        ensures { result ≡ refusal93 (room_of vertices edges) (solver_text self.now.text.now) }
    {
        let found = self.found;
        let too_many = vertices <= found.plan.highest;
        faults::fault_if(93, 0, too_many)?;
        let too_high = 4_294_967_295 < found.rank;
        faults::fault_if(93, 0, too_high)?;
        if found.listed <= edges {
            return Ok(());
        }
        let fit = count_edges(self.text, found.plan.first, edges, bits);
        faults::fault_if(93, 0, !fit)
    }
}

// 91, 92, 93: a text for room of so many vertices and edges. The bitmap is lent, whatever it holds.
pub fn check_text(
    text: &[u8],
    vertices: usize,
    edges: usize,
    bits: &mut Bitmap,
) -> Result<Plan, Fault>
    requires { vertices ≤ most_vertices }
    ensures { ToldPlan result (room_of vertices edges) text.now }
{
    let found = survey_text(text, bits).ok_or(Fault {
        number: 91,
        place: 0,
    })?;
    let surveyed = Surveyed { text, found };
    surveyed.check_numbers(bits)?;
    surveyed.check_fit(vertices, edges, bits)?;
    Ok(found.plan)
}
