// The words of the text: what must stand at a place, and the numbers that stand there.
ghost use Rattle.std.specs.Prelude.{◌+◌, ◌-◌, ◌*◌, ◌≤◌, ◌<◌, ◌≡◌, ◌≢◌, length, take, drop, slice_get, negsuc, IfOk, IfErr, IfSome};
ghost use Rattle.replay.specs.Words.{Stands, Spelled, hex_digit_ascii};

use std::fmt;

// A word that has not its form, by the index of the byte at which it begins.
#[derive(Clone, Copy, Debug, PartialEq, Eq)]
pub struct Malformed {
    pub at: usize,
}

impl fmt::Display for Malformed {
    fn fmt<W: fmt::Write>(&self, f: &mut fmt::Formatter<W>) -> fmt::Result {
        write!(f, "malformed at byte {}", self.at)
    }
}

// A text, and the index of its first byte that is not read yet. Before a word that is malformed it
// stays.
#[derive(Clone, Copy)]
pub struct Reader<'a> {
    pub text: &'a [u8],
    pub pos: usize,
    ghost within: { pos ≤ length text.now },
}

impl<'a> Reader<'a> {
    ghost use Rattle.replay.specs.Reading.{GoesOn, StaysAt};

    // Of the whole text nothing is read.
    pub fn new(text: &'a [u8]) -> Reader<'a>
        ensures text { result.text.now ≡ text.now }
        ensures start { result.pos ≡ 0 }
    {
        Reader { text, pos: 0 }
    }

    // The bytes that are not read yet.
    fn rest(&self) -> &'a [u8]
        ensures { result.now ≡ drop self.now.pos self.now.text.now }
    {
        &self.text[self.pos..]
    }

    // The next byte, which stays to be read.
    pub fn peek(&self) -> Option<u8>
        ensures { result ≡ slice_get self.now.text.now self.now.pos }
    {
        self.text.get(self.pos).copied()
    }

    // Reads the bytes of `word`, which must come next.
    pub fn literal(&mut self, word: &[u8]) -> Result<(), Malformed>
        ensures goes_on { GoesOn self.old self.new }
        ensures ok { IfOk result (λ _. Stands word.now self.old.text.now self.old.pos self.new.pos) }
        ensures otherwise { IfErr result (λ _. take (length word.now) (drop self.old.pos self.old.text.now) ≢ word.now) }
        ensures err { IfErr result (StaysAt self.old self.new) }
    {
        if !self.rest().starts_with(word) {
            return Err(Malformed { at: self.pos });
        }
        self.pos += word.len();
        Ok(())
    }

    // Reads the decimal number that comes next: its digits up to the first byte that is none. It is
    // malformed where there is no digit, and where it is more than `most`.
    pub fn decimal(&mut self, most: u64) -> Result<u64, Malformed>
        ensures goes_on { GoesOn self.old self.new }
        ensures at_most { IfOk result (λ n. n ≤ most) }
        ensures spelled { IfOk result (λ n. (self.old.pos < self.new.pos) × Spelled 10 self.old.text.now self.old.pos self.new.pos n) }
        ensures err { IfErr result (StaysAt self.old self.new) }
    {
        let start = self.pos;
        let mut pos = start;
        let mut value: u64 = 0;
        for byte in self.rest() {
            let Some(digit) = digit(*byte, 10) else {
                break;
            };
            let Some(longer) = with_digit(value, digit, most) else {
                return Err(Malformed { at: start });
            };
            value = longer;
            pos += 1;
        }
        if pos == start {
            return Err(Malformed { at: start });
        }
        self.pos = pos;
        Ok(value)
    }

    // Reads the eight hex digits that come next.
    pub fn hex(&mut self) -> Result<u32, Malformed>
        ensures goes_on { GoesOn self.old self.new }
        ensures spelled { IfOk result (λ n. (self.new.pos ≡ self.old.pos + 8) × Spelled 16 self.old.text.now self.old.pos self.new.pos n) }
        ensures err { IfErr result (StaysAt self.old self.new) }
    {
        let malformed = Malformed { at: self.pos };
        let Some(digits) = self.rest().first_chunk::<8>() else {
            return Err(malformed);
        };
        let mut value: u32 = 0;
        for byte in digits {
            let Some(digit) = digit(*byte, 16) else {
                return Err(malformed);
            };
            value = value * 16 + u32::from(digit);
        }
        self.pos += 8;
        Ok(value)
    }

    // Reads the signed decimal number that comes next. Minus zero is malformed.
    pub fn signed(&mut self) -> Result<i32, Malformed>
        ensures goes_on { GoesOn self.old self.new }
        ensures err { IfErr result (StaysAt self.old self.new) }
    {
        if self.peek() == Some(b'-') {
            return self.negative();
        }
        let size = self.decimal(i32::MAX as u64)?;
        Ok(size as i32)
    }

    // Reads the number with a minus sign that comes next, which is malformed from its sign on.
    fn negative(&mut self) -> Result<i32, Malformed>
        ensures goes_on { GoesOn self.old self.new }
        ensures err { IfErr result (StaysAt self.old self.new) }
    {
        let mut digits = *self;
        digits.literal(b"-")?;
        match digits.decimal(i32::MAX as u64 + 1) {
            Ok(size) if 0 < size => {
                *self = digits;
                Ok(below_zero(size))
            }
            _ => Err(Malformed { at: self.pos }),
        }
    }

    // Reads past the lines that begin with #, which are comments.
    pub fn past_comments(&mut self)
        ensures { GoesOn self.old self.new }
    {
        while self.peek() == Some(b'#') {
            self.past_line();
        }
    }

    // Reads past the line that begins or goes on here.
    fn past_line(&mut self)
        ensures goes_on { GoesOn self.old self.new }
        ensures further { self.old.pos < length self.old.text.now → self.old.pos < self.new.pos }
    {
        self.pos = match self.rest().iter().position(|byte| *byte == b'\n') {
            Some(length) => self.pos + length + 1,
            None => self.text.len(),
        };
    }
}

// The value of a digit in a base of at most 16, decimal or in lower case hex.
fn digit(byte: u8, base: u8) -> Option<u8>
    ensures { IfSome result (λ d. (d < base) × (d < 16) × (hex_digit_ascii d ≡ byte)) }
{
    let value = match byte {
        b'0'..=b'9' => byte - b'0',
        b'a'..=b'f' => byte - b'a' + 10,
        _ => return None,
    };
    if value < base { Some(value) } else { None }
}

// A decimal number with one digit more, where that is at most `most`.
fn with_digit(value: u64, digit: u8, most: u64) -> Option<u64>
    ensures { IfSome result (λ n. (n ≤ most) × (n ≡ value * 10 + digit)) }
{
    let longer = value.checked_mul(10)?.checked_add(u64::from(digit))?;
    if longer <= most { Some(longer) } else { None }
}

// The negative number of a size.
fn below_zero(size: u64) -> i32
    requires { (1 ≤ size) × (size ≤ 2147483648) }
    ensures { result ≡ negsuc (size - 1) }
{
    -1 - (size - 1) as i32
}
