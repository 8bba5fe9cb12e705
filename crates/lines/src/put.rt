// Bytes put into lent memory from a place on, as long as there is a place for them. Methods that require a place for each byte
// make no test.
ghost use Rattle.std.specs.Prelude.{[], ◌∷◌, ◌≡◌, ◌+◌, ◌%◌, ◌≤◌, ◌<◌, length};
ghost use Rattle.lines.specs.Put.{HasRoom, Puts, room_of};
ghost use Rattle.lines.specs.Words.{at_place, decimal, hex_digit, low_four, up_to_four};

// The memory, and the place of the next byte.
#[derive(Drop)]
pub struct Writer<'a> {
    pub out: &'a mut [u8],
    pub at: usize,
}

impl Writer<'_> {
    // How many bytes there is room for.
    pub fn room(&self) -> usize
        ensures { result ≡ room_of self.now }
    {
        self.out.len().saturating_sub(self.at)
    }

    // A byte.
    pub fn put(&mut self, byte: u8)
        ensures { Puts self.old (byte ∷ []) self.new }
    {
        if self.at < self.out.len() {
            self.out[self.at] = byte;
            self.at += 1;
        }
    }

    // The bytes of a word.
    pub fn put_word(&mut self, word: &[u8])
        ensures { Puts self.old word.now self.new }
    {
        if self.at < self.out.len() {
            let count = word.len().min(self.out.len() - self.at);
            self.put_bytes(&word[..count]);
        }
    }

    // The digit at a power of ten, where the number reaches it.
    pub(crate) fn put_place(&mut self, place: u32, number: u32)
        requires { 0 < place }
        ensures { Puts self.old (at_place place number) self.new }
    {
        if place <= number {
            self.put(b'0' + (number / place % 10) as u8);
        }
    }

    // A number in decimal digits.
    pub fn put_decimal(&mut self, number: u32)
        ensures { Puts self.old (decimal number) self.new }
    {
        self.put_place(1_000_000_000, number);
        self.put_place(100_000_000, number);
        self.put_place(10_000_000, number);
        self.put_place(1_000_000, number);
        self.put_place(100_000, number);
        self.put_place(10_000, number);
        self.put_place(1_000, number);
        self.put_place(100, number);
        self.put_place(10, number);
        self.put(b'0' + (number % 10) as u8);
    }

    // One byte, where there is a place for it.
    pub(crate) fn put_one(&mut self, byte: u8)
        requires { HasRoom self.old 1 }
        ensures { Puts self.old (byte ∷ []) self.new }
    {
        self.out[self.at] = byte;
        self.at += 1;
    }

    // Bytes, where there is a place for each.
    pub(crate) fn put_bytes(&mut self, bytes: &[u8])
        requires { HasRoom self.old (length bytes.now) }
        ensures { Puts self.old bytes.now self.new }
    {
        let end = self.at + bytes.len();
        self.out[self.at..end].copy_from_slice(bytes);
        self.at = end;
    }

    // A number below ten thousand, where there is a place for four digits.
    pub(crate) fn put_short(&mut self, number: u32)
        requires { (number < 10000) × HasRoom self.old 4 }
        ensures { Puts self.old (up_to_four number) self.new }
    {
        let [d3, d2, d1, d0] = last_four(number);
        if number < 10 {
            self.put_one(d0);
        } else if number < 100 {
            self.put_bytes(&[d1, d0]);
        } else if number < 1_000 {
            self.put_bytes(&[d2, d1, d0]);
        } else {
            self.put_bytes(&[d3, d2, d1, d0]);
        }
    }

    // A number below a hundred million, four digits at a time.
    pub(crate) fn put_number(&mut self, number: u32)
        requires { (number < 100000000) × HasRoom self.old 8 }
        ensures { Puts self.old (decimal number) self.new }
    {
        if number < 10_000 {
            self.put_short(number);
            return;
        }
        self.put_short(number / 10_000);
        self.put_bytes(&last_four(number));
    }
}

// The last four digits of a number.
pub(crate) fn last_four(number: u32) -> [u8; 4]
    ensures { result ≡ low_four number }
{
    [
        b'0' + (number / 1000 % 10) as u8,
        b'0' + (number / 100 % 10) as u8,
        b'0' + (number / 10 % 10) as u8,
        b'0' + (number % 10) as u8,
    ]
}

// With capitals.
pub fn hex_digit(digit: u8) -> u8
    ensures { result ≡ hex_digit (digit % 16) }
{
    let low = digit % 16;
    if low < 10 {
        return 0x30 + low;
    }
    0x37 + low
}
