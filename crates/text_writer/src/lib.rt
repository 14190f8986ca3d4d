// Texts in a lent slice of bytes, written from left to right.
#![tactic(auto)]

ghost use Rattle.std.specs.Prelude.{◌≡◌, [], ◌∷◌, ◌≤◌, ◌<◌, length};
ghost use Rattle.rules.specs.declared.Answer.TheVariants.{Done};
ghost use Rattle.rules.specs.Game.{padded};
ghost use Rattle.rules.specs.Texts.{decimal, spaced, line};
ghost use Rattle.text_writer.specs.Appending.{loan, lent_bytes, written_size, written, Room, Appended};

use rules::Answer;

// How many digits a number has.
#[tactic(auto, using(crate::proofs::Digits::count_length))]
pub fn digit_count(number: usize) -> usize
    ensures { (result ≡ length (decimal number)) × (result ≤ 20) }
{
    1 + number.checked_ilog10().unwrap_or(0) as usize
}

// The slice, of which the first `size` bytes are written.
// Kept (rule): there is no heap, so no `Vec`: the lent slice is filled from its front.
#[derive(Drop)]
pub struct Text<'a> {
    bytes: &'a mut [u8],
    size: usize,
}

impl<'a> Text<'a> {
    // Nothing is written yet.
    pub fn new(bytes: &'a mut [u8]) -> Text<'a>
        ensures same { loan result ≡ bytes.entry.ghost_name }
        ensures empty { (written_size result ≡ 0) × (lent_bytes result ≡ bytes.old) }
    {
        Text::behind(bytes, 0)
    }

    // The first `size` bytes stand there already, and stay.
    pub fn behind(bytes: &'a mut [u8], size: usize) -> Text<'a>
        ensures same { loan result ≡ bytes.entry.ghost_name }
        ensures begins { (written_size result ≡ size) × (lent_bytes result ≡ bytes.old) }
    {
        Text { bytes, size }
    }

    // How many bytes are written.
    pub fn size(&self) -> usize
        ensures { result ≡ written_size self.now }
    {
        let Text { size, .. } = self;
        *size
    }

    pub fn put_byte(&mut self, byte: u8)
        requires { Room self.old (byte ∷ []) }
        ensures { Appended (byte ∷ []) self.old self.new }
    {
        self.bytes[self.size] = byte;
        self.size += 1;
    }

    pub fn put_bytes(&mut self, bytes: &[u8])
        requires { Room self.old bytes.now }
        ensures { Appended bytes.now self.old self.new }
    {
        let end = self.size + bytes.len();
        self.bytes[self.size..end].copy_from_slice(bytes);
        self.size = end;
    }

    // The digits of a number. The library writes them from the last one back, so the text's size is read and kept once
    // for a number and not for each digit.
    pub fn put_decimal(&mut self, number: usize)
        requires { Room self.old (decimal number) }
        ensures { Appended (decimal number) self.old self.new }
    {
        let end = self.size + digit_count(number);
        itoa::write_digits(number as u64, self.bytes, end);
        self.size = end;
    }

    // A space and a number.
    pub fn put_number(&mut self, number: usize)
        requires { Room self.old (32 ∷ decimal number) }
        ensures { Appended (32 ∷ decimal number) self.old self.new }
    {
        self.put_byte(b' ');
        self.put_decimal(number);
    }

    // Numbers, a space before each.
    pub fn put_numbers(&mut self, numbers: &[u32])
        requires { Room self.old (spaced numbers.now) }
        ensures { Appended (spaced numbers.now) self.old self.new }
    {
        for number in numbers {
            self.put_number(*number as usize);
        }
    }

    // A line: a name, then numbers.
    #[tactic(auto, using(crate::proofs::Lines::line_length))]
    pub fn put_line(&mut self, name: &[u8], numbers: &[u32])
        requires { Room self.old (line name.now numbers.now) }
        ensures { Appended (line name.now numbers.now) self.old self.new }
    {
        self.put_bytes(name);
        self.put_numbers(numbers);
        self.put_byte(b'\n');
    }

    // The text is at its end: zeros past it, and the answer.
    pub fn finish(self) -> Answer
        requires { (written_size self ≤ length (lent_bytes self)) × (written_size self < 4294967296) }
        ensures value { result ≡ Done (written_size self.entry) 0 0 }
        ensures text_after { self.exit.0.now ≡ padded (length (lent_bytes self.entry)) (written self.entry) }
    {
        let Text { bytes, size } = self;
        bytes[size..].fill(0);
        Answer::Done(size as u32, 0, 0)
    }
}
