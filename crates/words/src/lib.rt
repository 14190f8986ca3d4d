// Small functions on slices of words, and on words in bytes.
#![tactic(auto)]

ghost use Rattle.std.specs.Prelude.{◌≡◌, map, ℕ, ◌+◌, ◌*◌, ◌≤◌, ◌<◌, length};
ghost use Rattle.rules.specs.Lists.{word, sum_words};
ghost use Rattle.rules.specs.Table.{kind, operand};
ghost use Rattle.words.specs.Bytes.{word_at, words_at};
ghost use Rattle.words.specs.Node.{has_kind, has_operand};
ghost use Rattle.words.specs.Stretches.{Wrote};

// The word at an index, as a usize: a caller has to show only that the index is below the length.
pub fn at(ws: &[u32], index: usize) -> usize
    requires { index < length ws.now }
    ensures { (result ≡ word ws.now index) × (result < 4294967296) }
{
    ws[index] as usize
}

// The sum of so many words that it does not wrap.
pub fn sum(ws: &[u32]) -> usize
    requires { length ws.now ≤ 4294967296 }
    ensures { result ≡ sum_words ws.now 0 (length ws.now) }
{
    ws.iter().map(|word| *word as usize).sum()
}

// ---- nodes of a table of trees: m, m kinds, m operands. A run has two, for the action formulas and for the formula
// Kept (rule): document 01 hands trees over as words, and there is no heap for a tree of boxes.

// The most nodes of either table.
pub const NODES: usize = 1024;

// The kind of a node.
pub fn kind_at(table: &[u32], node: usize) -> u32
    requires { has_kind table.now node }
    ensures { result ≡ kind table.now node }
{
    table[1 + node]
}

// The operand of a node: all kinds are passed over.
pub fn operand_at(table: &[u32], node: usize) -> usize
    requires { has_operand table.now node }
    ensures { result ≡ operand table.now node }
{
    let nodes = at(table, 0);
    at(table, 1 + nodes + node)
}

// ---- stretches, written from left to right

// For each of the numbers, in order, the word that src has there is appended. The answer is the place past them.
// Kept (no plainer): slice and place are two parameters, as crate `game_columns` says.
pub fn carry(src: &[u32], numbers: &[u32], out: &mut [u32], start: usize) -> usize
    requires room { start + length numbers.now ≤ length out.old }
    requires inside { (i : ℕ) → i < length numbers.now → word numbers.now i < length src.now }
    ensures { Wrote start (map (word src.now) numbers.now) out.old out.new result }
{
    // Kept (proof): the index, as in `copy_down` of crate `game_writer`: after a `for` over `iter_mut().zip(numbers)`
    // no word that it wrote is known, so the goal `Wrote` is left.
    for (i, number) in numbers.iter().enumerate() {
        out[start + i] = src[*number as usize];
    }
    start + numbers.len()
}

// ---- words in bytes

// The word whose four bytes begin at a place, the lowest byte first.
pub fn word_at(bytes: &[u8], place: usize) -> u32
    requires { place + 4 ≤ length bytes.now }
    ensures { result ≡ word_at bytes.now place }
{
    u32::from_le_bytes([
        bytes[place],
        bytes[place + 1],
        bytes[place + 2],
        bytes[place + 3],
    ])
}

// As many words as `words` holds, from the front of the bytes.
// Kept (proof): the place `4 * i`, where `words.iter_mut().zip(bytes.as_chunks::<4>().0)` needs none: of a slice that
// was lent to a `zip` only the length is known afterwards, so the goal `words.new ≡ words_at (length words.old)
// bytes.now` (`returns`) stays open.
pub fn read_words(bytes: &[u8], words: &mut [u32])
    requires { 4 * length words.old ≤ length bytes.now }
    ensures { words.new ≡ words_at (length words.old) bytes.now }
{
    for (i, word) in words.iter_mut().enumerate() {
        *word = word_at(bytes, 4 * i);
    }
}
