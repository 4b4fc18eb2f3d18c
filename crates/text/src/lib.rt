// Internal: text into lent bytes, as much of it as fits.
#![tactic(auto)]

ghost use Rattle.std.specs.Prelude.{◌≡◌, ◌∷◌, [], ◌≤◌, length};
ghost use Rattle.text.specs.Text.{signed, refusal, Wrote};

use itoa::{Buffer, Integer};

// Lent bytes, and the place after what is written.
#[derive(Drop)]
pub struct Out<'a> {
    bytes: &'a mut [u8],
    at: usize,
    ghost within: { at ≤ length bytes.now },
}

impl<'a> Out<'a> {
    ghost use Rattle.text.specs.Written.{Starts, Puts};

    // At the start of the bytes.
    pub fn new(bytes: &'a mut [u8]) -> Out<'a>
        ensures { Starts bytes.entry result }
    {
        Out { bytes, at: 0 }
    }

    // How many bytes are written.
    pub fn count(&self) -> usize
        ensures { result ≡ self.now.at }
    {
        self.at
    }

    pub fn put(&mut self, byte: u8)
        ensures { Puts self.old (byte ∷ []) self.new }
    {
        if self.at < self.bytes.len() {
            self.bytes[self.at] = byte;
            self.at += 1;
        }
    }

    pub fn put_bytes(&mut self, bytes: &[u8])
        ensures { Puts self.old bytes.now self.new }
    {
        for byte in bytes {
            self.put(*byte);
        }
    }

    // A number in decimal digits, a negative one after a minus sign.
    pub fn put_number<I: Integer>(&mut self, x: I)
        ensures { Puts self.old (I.text x) self.new }
    {
        let mut digits = Buffer::new();
        self.put_bytes(digits.format(x).as_bytes());
    }

    // A signed figure: its size, after a minus sign where it is below zero.
    pub fn put_signed(&mut self, x: i64)
        ensures { Puts self.old (signed x) self.new }
    {
        if x < 0 {
            self.put(b'-');
        }
        self.put_number(numbers::magnitude(x));
    }
}

// One line for a refusal, as much of it as fits. It has the cause's number: `text` knows no refusals.
pub fn refused(cause: u32, out: &mut [u8]) -> usize
    ensures { Wrote out.old 0 (refusal cause) result out.new }
{
    let mut text = Out::new(out);
    text.put_bytes(b"refused ");
    text.put_number(cause);
    text.put(b'\n');
    text.count()
}
