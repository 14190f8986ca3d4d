// The map of a run's work slice. It begins with eight regions of a word for each vertex that fits. Behind them stand
// the edges: a word for the target of each that fits, then one for its count, both taken from the last word downwards.
// The first three regions are the slots in which a pair is looked up (crate `pairs`).
// Kept (rule): document 01 lends a run one slice of words, so this is a map of regions in it: the regions are no slices
// and no structs of their own.
// Kept (no plainer): the work slice and its number of vertices are two parameters, as crate `pairs` says.
#![tactic(auto)]

ghost use Rattle.std.specs.Prelude.{◌≡◌, ◌+◌, ◌*◌, ◌<◌, ◌≤◌, length};
ghost use Rattle.rules.specs.Game.{edge_columns};
ghost use Rattle.rules.specs.Lists.{word};
ghost use Rattle.work_slice.specs.Regions.{region_code, region, put_word, Zeroed, edges_end};

// How many regions there are: the edges begin behind them.
const REGIONS: usize = 8;

// A region, by its number. The slots are three: an index goes on from the first into the others.
#[derive(Clone, Copy, Debug, PartialEq, Eq)]
pub enum Region {
    // The slots: two words for each.
    Slots = 0,
    // The key of each vertex.
    Keys = 3,
    // The waiting vertices, the one numbered last on top.
    Stack = 4,
    // Where the edges of a settled vertex begin.
    Starts = 5,
    // 0 before a vertex is settled, then one more than the number of its edges.
    Degrees = 6,
    // One more than the place of the last edge that a modality gave a target, 0 before it has one. A target is told by
    // its state or by its vertex (crate `settling`). Where there are more states than vertices the marks may go on
    // behind this region, in words that no edge has taken yet.
    Marks = 7,
}

// Where the word of a region at an index stands. Past the vertices the index goes on behind the region.
fn place(vertices: u32, area: Region, index: u32) -> usize
    ensures { result ≡ region_code area * vertices + index }
{
    (area as usize) * (vertices as usize) + (index as usize)
}

// The word of a region at an index.
#[tactic(auto, using(crate::proofs::Regions::word_at))]
pub fn region_word(work: &[u32], vertices: u32, area: Region, index: u32) -> u32
    requires { region_code area * vertices + index < length work.now }
    ensures at_place { result ≡ word work.now (region_code area * vertices + index) }
    ensures in_region { index < vertices → result ≡ word (region (region_code area) vertices work.now) index }
{
    work[place(vertices, area, index)]
}

// It becomes another.
#[tactic(auto, unfolding(crate::specs::Regions::put_word))]
pub fn put_word(work: &mut [u32], vertices: u32, area: Region, index: u32, value: u32)
    requires { region_code area * vertices + index < length work.old }
    ensures { work.new ≡ put_word (region_code area) vertices index value work.old }
{
    work[place(vertices, area, index)] = value;
}

// The words of a region from one index up to another become 0.
pub fn clear(work: &mut [u32], vertices: u32, area: Region, from: u32, to: u32)
    requires { (from ≤ to) × (region_code area * vertices + to ≤ length work.old) }
    ensures { Zeroed work.old work.new (region_code area * vertices + from) (region_code area * vertices + to) }
{
    let start = place(vertices, area, from);
    let end = place(vertices, area, to);
    work[start..end].fill(0);
}

// Where a column of the edges ends in the work slice: it is filled from there downwards.
pub fn edges_end(vertices: u32, edges: u32, column: usize) -> usize
    requires { column < length edge_columns }
    ensures { result ≡ edges_end vertices edges column }
{
    REGIONS * (vertices as usize) + (column + 1) * (edges as usize)
}
