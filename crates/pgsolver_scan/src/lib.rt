// Reading PGSolver text from left to right (#101): a reader reads what stands at a place of the text and answers the
// place past it. A number beyond the bound of specs/Told is handed on as that bound.
// Kept (no plainer): text and place stay two parameters. Places are stored in the plan, compared, and posted in the
// game's words; so a cursor would be made of a stored number at many calls, each with a proof that the number lies
// within the text, and what readers promise (`Told`) would speak of its place before and after, and of the text staying
// the same.
#![tactic(auto)]

ghost use Rattle.std.specs.Prelude.{◌≡◌, true, false, cond, ◌+◌, ◌*◌, ◌-◌, ◌<◌, ◌≤◌, max, length};
ghost use Rattle.std.specs.Prelude.{Some, None};
ghost use Rattle.std.proofs.Math.Option.{none, some};
ghost use Rattle.rules.specs.TextReading.{is_digit, read_byte, read_bytes, read_number, read_field};
ghost use Rattle.rules.specs.PgsolverParse.{read_list, read_name, read_named, read_owner, read_line, read_header};
ghost use Rattle.pgsolver_scan.specs.Told.{saturated, since, commas_at, read_successors, past_line};
ghost use Rattle.pgsolver_scan.specs.Told.{Stopped, Stands, StandsField, Told, ToldList, ToldMore, Lacks, ToldSkip};
ghost use Rattle.pgsolver_scan.specs.Told.{ToldDigit, ToldFirst, ToldRow, first_of, Followed};
ghost use Rattle.pgsolver_scan.specs.Successors.{Goes, left, Turn, Begun};
ghost use Rattle.std.specs.Iterator.{item_count};

// A number, and the place past it.
#[derive(Clone, Copy)]
pub struct Number {
    pub value: usize,
    pub next: usize,
}

// Numbers parted by commas: the largest, how many are listed, and the place past them.
#[derive(Clone, Copy)]
pub struct Numbers {
    pub largest: usize,
    pub listed: usize,
    pub next: usize,
}

// What the line of a vertex says: number, priority, owner, the largest of its successors, how many are listed, and the
// place past the line.
// Kept (no plainer): the owner stays a number, 0 or 1, as the line shows it and the game's word holds it: no caller
// asks whose it is, so a `Player` would be made of it for the contract alone.
#[derive(Clone, Copy)]
pub struct VertexLine {
    pub number: usize,
    pub priority: usize,
    pub owner: usize,
    pub largest: usize,
    pub listed: usize,
    pub next: usize,
}

// ---- numbers: `KNOWN` says that the form of the text was checked before, and that the number fits 32 bits. Then
// neither the end of the text nor the size of the number has to be asked for at each digit

// The bound: ten times a number, so whoever is above its tenth is above it with one digit more.
const MOST: usize = 18_446_744_073_709_551_610;

// The number with one digit more.
// Kept (speed): by saturating_mul, saturating_add and `min` the digit loop took 86 % longer over 6,000,000 numbers
// (91 ms for 49, both in plain Rust).
fn pushed<const KNOWN: bool>(value: usize, digit: usize) -> usize
    requires { (digit ≤ 9) × (value ≤ cond KNOWN 4294967295 18446744073709551610) }
    ensures { result ≡ saturated (10 * value + digit) }
{
    if !KNOWN && MOST / 10 <= value {
        return MOST;
    }
    digit + 10 * value
}

// The value of a digit; none of another byte.
#[tactic(auto, using(std::proofs::lemmas::Str::digit_value_digit, std::proofs::lemmas::Str::Parse::digit_from_value), unfolding(rules::specs::TextReading::is_digit))]
fn digit_of(byte: u8) -> Option<usize>
    ensures { result ≡ cond (is_digit byte) (Some (byte - 48)) None }
{
    char::from(byte).to_digit(10).map(|digit| digit as usize)
}

// The digit at a place.
fn digit_at<const KNOWN: bool>(text: &[u8], place: usize) -> Option<usize>
    requires { KNOWN ≡ true → place < length text.now }
    ensures { ToldDigit result text.now place }
{
    if !KNOWN && text.len() <= place {
        return None;
    }
    digit_of(text[place])
}

// What the digits from a place on make, and the place past them.
// Kept (no plainer): the place past the digits belongs to the answer, so a `for` over the bytes would count it beside
// them; and it would ask at each digit for the end of the text, which known numbers need not.
fn digits<const KNOWN: bool>(text: &[u8], place: usize) -> Number
    requires within { place ≤ length text.now }
    requires known { KNOWN ≡ true → Stands text.now place }
    ensures { Stopped text.now place result.next result.value }
{
    let mut next = place;
    let mut value = 0;
    while let Some(digit) = digit_at::<KNOWN>(text, next) {
        value = pushed::<KNOWN>(value, digit);
        next += 1;
    }
    Number { value, next }
}

// The number at a place: none where there is no digit, or where the first of several is 0.
pub fn read_number(text: &[u8], place: usize) -> Option<Number>
    requires { place ≤ length text.now }
    ensures { Told result (read_number (since text.now place)) text.now }
{
    let number = digits::<false>(text, place);
    if number.next == place {
        return None;
    }
    let zero_first = text[place] == b'0';
    if zero_first && place + 1 < number.next {
        return None;
    }
    Some(number)
}

// Does this byte stand at a place?
pub fn byte_at(text: &[u8], place: usize, byte: u8) -> bool
    ensures place_value { read_byte byte (since text.now place)
        ≡ cond result (some (since text.now (place + 1))) none }
    ensures place_in_bounds { result ≡ true → place < length text.now }
{
    text.get(place) == Some(&byte)
}

// The number, if this byte stands behind it, and the place past the byte.
fn followed(text: &[u8], number: Number, byte: u8) -> Option<Number>
    ensures { Followed result number byte text.now }
{
    if byte_at(text, number.next, byte) {
        return Some(Number {
            next: number.next + 1,
            ..number
        });
    }
    None
}

// The number at a place, and this byte behind it.
pub fn read_field(text: &[u8], place: usize, byte: u8) -> Option<Number>
    requires { place ≤ length text.now }
    ensures { Told result (read_field byte (since text.now place)) text.now }
{
    let number = read_number(text, place)?;
    followed(text, number, byte)
}

// ---- in a text whose form was checked before

// The number at a place where one stands that is known to fit 32 bits, with a byte behind it.
pub fn known_number(text: &[u8], place: usize) -> Number
    requires { Stands text.now place }
    ensures told { Told (Some result) (read_number (since text.now place)) text.now }
    ensures next_in_bounds { result.next < length text.now }
{
    digits::<true>(text, place)
}

// The same, and the place past the space behind it.
pub fn known_field(text: &[u8], place: usize) -> Number
    requires { StandsField text.now place }
    ensures { Told (Some result) (read_field 32 (since text.now place)) text.now }
{
    let number = known_number(text, place);
    Number {
        next: number.next + 1,
        ..number
    }
}

// ---- lists

// Numbers with a comma before each, behind a first number.
// Kept (no plainer): where the next number stands is known once the one before is read, and a bad one makes it no list:
// an iterator would answer an Option of each, and the place past the last be asked of it besides.
fn read_commas(text: &[u8], first: Number) -> Option<Numbers>
    requires { first.next ≤ length text.now }
    ensures { ToldMore result first.value (commas_at text.now first.next) text.now }
{
    let mut list = Numbers {
        largest: first.value,
        listed: 1,
        next: first.next,
    };
    while byte_at(text, list.next, b',') {
        let number = read_number(text, list.next + 1)?;
        list = Numbers {
            largest: list.largest.max(number.value),
            listed: list.listed + 1,
            next: number.next,
        };
    }
    Some(list)
}

// The numbers at a place, parted by commas.
pub fn read_list(text: &[u8], place: usize) -> Option<Numbers>
    requires { place ≤ length text.now }
    ensures { ToldList result (read_list (since text.now place)) text.now }
{
    let first = read_number(text, place)?;
    read_commas(text, first)
}

// The numbers of a list that was checked before, one by one: where the next one stands, if there is one more.
#[derive(Drop)]
pub struct Successors<'a> {
    text: &'a [u8],
    at: Option<usize>,
}

impl<'a> Successors<'a> {
    // Those of the list that begins at a place.
    pub fn new(text: &'a [u8], list: usize) -> Self
        ensures { Begun result text.now list }
    {
        Successors {
            text,
            at: Some(list),
        }
    }
}

impl<'a> Iterator for Successors<'a> {
    type Item = Number;

    ghost can_next = { Goes };

    ghost next_gives = { Turn };

    ghost remaining = { item_count left };

    fn next(&mut self) -> Option<Number> {
        let number = known_number(self.text, self.at?);
        let more = self.text[number.next] == b',';
        // Kept (no plainer): by then_some the place behind a comma would be worked out for the last number too.
        self.at = None;
        if more {
            self.at = Some(number.next + 1);
        }
        Some(number)
    }
}

// ---- blocks of bytes

// So many bytes are looked at together, by a loop of fixed length without a way out: a compiler turns it into a few
// vector instructions. Long names, and lines that were read before, are passed over block by block.
const BLOCK: usize = 64;

// Two bytes, either of which is looked for.
#[derive(Clone, Copy)]
struct EitherByte {
    one: u8,
    other: u8,
}

impl EitherByte {
    // 1 for either of the two, 0 for another.
    fn hit(self, byte: u8) -> u8
        ensures { (result ≤ 1) × (result ≡ 0 → (¬ (byte ≡ self.one)) × (¬ (byte ≡ self.other))) }
    {
        u8::from(byte == self.one || byte == self.other)
    }
}

// Does one of the two bytes stand in a block? 64 hits fit in a byte.
// Kept (speed): the hits are summed, since for this form the compiler takes vector instructions. `any` leaves the loop
// early, and so takes none: over 100 MB in lines of 1,000 bytes it took 4.6 times as long (120 ms for 26, both in plain
// Rust).
fn block_has(block: &[u8], wanted: EitherByte) -> bool
    requires { length block.now ≡ 64 }
    ensures { result ≡ false → Lacks block.now 0 64 wanted.one wanted.other }
{
    let mut hits = 0u8;
    for byte in block {
        hits += wanted.hit(*byte);
    }
    hits != 0
}

// The place of the first block, from `place` on, that has one of the two bytes; where none has, the place behind the
// last whole block. Whoever looks for the two bytes goes on from there byte by byte.
fn skip_blocks(text: &[u8], place: usize, wanted: EitherByte) -> usize
    requires { place ≤ length text.now }
    ensures { Lacks text.now place result wanted.one wanted.other }
{
    let passed = text[place..]
        .chunks_exact(BLOCK)
        .take_while(|block| !block_has(block, wanted))
        .count();
    place + BLOCK * passed
}

// Which of these bytes is the first that is one of the two.
#[tactic(auto, unfolding(crate::specs::Told::first_of))]
fn first_of(bytes: &[u8], wanted: EitherByte) -> Option<usize>
    ensures { result ≡ first_of wanted.one wanted.other bytes.now }
{
    bytes
        .iter()
        .position(|byte| *byte == wanted.one || *byte == wanted.other)
}

// The place, from `place` on, of the first that is one of the two.
fn find(text: &[u8], place: usize, wanted: EitherByte) -> Option<usize>
    requires { place ≤ length text.now }
    ensures { ToldFirst result text.now place wanted.one wanted.other }
{
    let block = skip_blocks(text, place, wanted);
    let rest = &text[block..];
    let count = first_of(rest, wanted)?;
    Some(block + count)
}

// ---- names

// The bytes up to a quote; the place past the quote.
fn read_name(text: &[u8], place: usize) -> Option<usize>
    requires { place ≤ length text.now }
    ensures { ToldSkip result (read_name (since text.now place)) text.now }
{
    let quote_or_newline = EitherByte {
        one: b'"',
        other: b'\n',
    };
    let end = find(text, place, quote_or_newline)?;
    if text[end] == b'"' {
        return Some(end + 1);
    }
    None
}

// A space and a name, if there is a space; the place past them.
fn read_named(text: &[u8], place: usize) -> Option<usize>
    requires { place ≤ length text.now }
    ensures { ToldSkip result (read_named (since text.now place)) text.now }
{
    if !byte_at(text, place, b' ') {
        return Some(place);
    }
    if byte_at(text, place + 1, b'"') {
        return read_name(text, place + 2);
    }
    None
}

// ---- lines

// Do these bytes stand at a place?
fn bytes_at<const N: usize>(text: &[u8], place: usize, bytes: &[u8; N]) -> bool
    requires { place ≤ length text.now }
    ensures place_value { read_bytes bytes.now (since text.now place)
        ≡ cond result (some (since text.now (place + N))) none }
    ensures place_in_bounds { result ≡ true → (place + N ≤ length text.now) × (place + N < 18446744073709551616) }
{
    text[place..].starts_with(bytes)
}

// The owner at a place, and the space behind it.
fn read_owner(text: &[u8], place: usize) -> Option<Number>
    requires { place ≤ length text.now }
    ensures { Told result (read_owner (since text.now place)) text.now }
{
    let owner = read_field(text, place, b' ')?;
    let nobody = 1 < owner.value;
    if nobody {
        return None;
    }
    Some(owner)
}

// The successors at a place and the end of their line, with a name before it if there is one.
fn read_successors(text: &[u8], place: usize) -> Option<Numbers>
    requires { place ≤ length text.now }
    ensures { ToldList result (read_successors (since text.now place)) text.now }
{
    let list = read_list(text, place)?;
    let end = read_named(text, list.next)?;
    if bytes_at(text, end, b";\n") {
        return Some(Numbers {
            next: end + 2,
            ..list
        });
    }
    None
}

// The line of a vertex.
pub fn read_line(text: &[u8], place: usize) -> Option<VertexLine>
    requires { place ≤ length text.now }
    ensures { ToldRow result (read_line (since text.now place)) text.now }
{
    let number = read_field(text, place, b' ')?;
    let priority = read_field(text, number.next, b' ')?;
    let owner = read_owner(text, priority.next)?;
    let successors = read_successors(text, owner.next)?;
    Some(VertexLine {
        number: number.value,
        priority: priority.value,
        owner: owner.value,
        largest: successors.largest,
        listed: successors.listed,
        next: successors.next,
    })
}

// The place past the next newline from `place` on, where there is none the end of the text: a line that has the form is
// passed over without reading it again (law `line_ends`).
pub fn past_line(text: &[u8], place: usize) -> usize
    ensures { result ≡ past_line text.now place }
{
    if text.len() <= place {
        return place;
    }
    // A list without a name ends here, with a semicolon and the newline.
    if bytes_at(text, place, b";\n") {
        return place + 2;
    }
    let newline = EitherByte {
        one: b'\n',
        other: b'\n',
    };
    match find(text, place, newline) {
        Some(end) => end + 1,
        None => text.len(),
    }
}

// ---- the header

// The header: the highest vertex number.
pub fn read_header(text: &[u8]) -> Option<Number>
    ensures { Told result (read_header text.now) text.now }
{
    if !bytes_at(text, 0, b"parity ") {
        return None;
    }
    let number = read_field(text, 7, b';')?;
    followed(text, number, b'\n')
}
