// The table of known pairs in the lent work slice: looking a pair up, and numbering it.
// Kept (no plainer): for reading, `Slots` holds the work slice and its number of vertices; where the slice is written
// they are two parameters, as crate `settling` says.
#![tactic(auto)]

ghost use Rattle.std.specs.Prelude.{◌≡◌, ℕ, ◌+◌, ◌-◌, ◌*◌, ◌%◌, ◌^◌, ◌<◌, ◌≤◌, length, MatchOption};
ghost use Rattle.rules.specs.Lists.{from};
ghost use Rattle.rules.specs.Words.{most_states, most_vertices};
ghost use Rattle.pairs.specs.Slot.{key_of, slot_of, bucket_count, buckets};
ghost use Rattle.pairs.specs.Table.{slot_count, slots_of, key_in, held_in, state_at, item_at, Table, Asks, Started};
ghost use Rattle.pairs.specs.Answers.{Probed, Finding, Numbering};

use player::VertexIndex;
use work_slice::{Region, put_word, region_word};

// The items have numbers below this: a pair's key is its state times it, plus its item.
// Kept (no plainer): `compiled` has the number too, as the length of its tables, a `usize`. Neither crate stands on the
// other: to share it, one would stand on the other for this number alone, and cast it.
const ITEMS: u32 = 2048;

// What a key is multiplied by, for its slot.
const FACTOR: u32 = 2654435761;

// As many slots, one after another, as a search looks at in one place: 128 bytes, so two or three lines of a cache.
const BUCKET: u32 = 16;

// In so many places a search looks before it goes along all slots.
const BUCKETS: u32 = 64;

// The product of two numbers, with everything above 32 bits dropped on purpose.
fn wrapping_mul32(a: u32, b: u32) -> u32
    ensures { result ≡ a * b % 2 ^ 32 }
{
    a.wrapping_mul(b)
}

// The key of a pair.
fn key_of(state: u32, item: u32) -> u32
    requires { (state < most_states) × (item < 2048) }
    ensures { result ≡ key_of state item }
{
    state * ITEMS + item
}

// The slot, of so many, that belongs to a key.
fn slot_of(key: u32, slots: u32) -> u32
    ensures { result ≡ slot_of key slots }
{
    let multiple = wrapping_mul32(key, FACTOR);
    ((multiple as u64) * (slots as u64) / 4294967296) as u32
}

// Where a pair stands: the vertex that it has, or the empty slot that is for it.
#[derive(Clone, Copy)]
pub enum Place {
    Known(VertexIndex),
    Free(usize),
}

// The vertex that stands for a pair, and how many vertices are known now.
#[derive(Clone, Copy)]
pub struct Numbered {
    pub vertex: VertexIndex,
    pub known: u32,
}

// The lent room is too small for the vertices, or for the edges.
#[derive(Clone, Copy, Debug, PartialEq, Eq)]
pub struct NoRoom;

// The table of known pairs, in a work slice with so many vertices.
// Kept (rule): the table stands in lent words: there is no heap, and so no map.
#[derive(Clone, Copy)]
pub struct Slots<'a> {
    pub work: &'a [u32],
    pub vertices: u32,
    ghost large: { 8 * vertices ≤ length work.now },
}

impl Slots<'_> {
    // ---- one slot, one vertex

    // The key in a slot.
    fn key_in(&self, slot: usize) -> u32
        requires { slot < slot_count self.now.vertices }
        ensures { result ≡ key_in (slots_of self.now.work.now self.now.vertices) slot }
    {
        self.work[2 * slot]
    }

    // The vertex that a slot holds; None if it is empty.
    fn held_in(&self, slot: usize) -> Option<VertexIndex>
        requires { slot < slot_count self.now.vertices }
        ensures { let held = held_in (slots_of self.now.work.now self.now.vertices) slot in
            MatchOption result (held ≡ 0) (λ vertex. held ≡ vertex.0 + 1) }
    {
        let held = self.work[2 * slot + 1];
        held.checked_sub(1).map(VertexIndex)
    }

    // The state of a vertex's pair.
    pub fn state_of(&self, vertex: VertexIndex) -> u32
        requires { vertex.0 < self.now.vertices }
        ensures { result ≡ state_at self.now.work.now self.now.vertices vertex.0 }
    {
        region_word(self.work, self.vertices, Region::Keys, vertex.0) / ITEMS
    }

    // The item of a vertex's pair.
    pub fn item_of(&self, vertex: VertexIndex) -> u32
        requires { vertex.0 < self.now.vertices }
        ensures { result ≡ item_at self.now.work.now self.now.vertices vertex.0 }
    {
        region_word(self.work, self.vertices, Region::Keys, vertex.0) % ITEMS
    }

    // ---- many slots

    // How many slots there are.
    fn slot_count(&self) -> u32
        requires { self.now.vertices ≤ most_vertices }
        ensures { result ≡ slot_count self.now.vertices }
    {
        self.vertices + self.vertices / 2
    }

    // Goes along the slots from `start` up to `end` until one has the key or is empty.
    fn probe(&self, key: u32, start: u32, end: u32) -> Option<Place>
        requires { (start ≤ end) × (end ≤ slot_count self.now.vertices) }
        ensures { let slots = slots_of self.now.work.now self.now.vertices in
            Probed slots (from start (end - start)) key result }
    {
        for slot in start as usize..end as usize {
            let Some(vertex) = self.held_in(slot) else {
                return Some(Place::Free(slot));
            };
            if self.key_in(slot) == key {
                return Some(Place::Known(vertex));
            }
        }
        None
    }

    // Goes along the buckets of a key: that at its own slot, then that at the slot of its multiple, and so on. By one
    // slot more at a time, keys whose slots are close to each other would fill all slots behind them, and each search
    // would go along all of these.
    fn probe_buckets(&self, key: u32) -> Option<Place>
        requires { (0 < self.now.vertices) × (self.now.vertices ≤ most_vertices) }
        ensures { let slots = slots_of self.now.work.now self.now.vertices in
            Probed slots (buckets bucket_count key (slot_count self.now.vertices)) key result }
    {
        let slots = self.slot_count();
        let mut origin = key;
        for _done in 0..BUCKETS {
            let start = slot_of(origin, slots);
            let end = slots.min(start + BUCKET);
            if let Some(place) = self.probe(key, start, end) {
                return Some(place);
            }
            origin = wrapping_mul32(origin, FACTOR);
        }
        None
    }

    // Where a key stands, or the empty slot that is for it. Its buckets may be full where other slots are empty, so all
    // slots are looked at last: None only if it stands nowhere and no slot is empty.
    fn find(&self, key: u32) -> Option<Place>
        requires { (0 < self.now.vertices) × (self.now.vertices ≤ most_vertices) }
        ensures { (known : ℕ) → Table self.now.work.now self.now.vertices known
            → Finding self.now.work.now self.now.vertices known key result }
    {
        let slots = self.slot_count();
        let everywhere = || self.probe(key, 0, slots);
        self.probe_buckets(key).or_else(everywhere)
    }
}

// The vertex that stands for a pair, which is numbered first if it is new.
pub fn number(
    work: &mut [u32],
    vertices: u32,
    known: u32,
    state: u32,
    item: u32,
) -> Result<Numbered, NoRoom>
    requires { Asks work.old vertices known state item }
    ensures { Numbering work.old work.new vertices known (key_of state item) result }
{
    let key = key_of(state, item);
    let slots = Slots { work, vertices };
    match slots.find(key) {
        Some(Place::Known(vertex)) => Ok(Numbered { vertex, known }),
        Some(Place::Free(slot)) => {
            if known == vertices {
                return Err(NoRoom);
            }
            work[2 * slot] = key;
            work[2 * slot + 1] = known + 1;
            put_word(work, vertices, Region::Keys, known, key);
            Ok(Numbered {
                vertex: VertexIndex(known),
                known: known + 1,
            })
        }
        None => Err(NoRoom),
    }
}

// An empty table, whatever the words hold: every word of the slots becomes 0.
pub fn start(work: &mut [u32], vertices: u32)
    requires { (vertices ≤ most_vertices) × (8 * vertices ≤ length work.old) }
    ensures { Started work.old work.new vertices }
{
    let end = 3 * (vertices as usize);
    work[..end].fill(0);
}
