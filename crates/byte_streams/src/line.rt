ghost use Rattle.std.specs.Prelude.{◌≡◌, ◌+◌, ◌*◌, ◌<◌, ◌≤◌, List, ℕ, [], ◌∷◌, ◌++◌, length, decimal};
ghost use Rattle.plain_machine.specs.Replies.{hex_text, hex_digit};

use arrayvec::ArrayVec;
use itoa::Buffer;
use std::marker::Model;

/// A line to be printed, in a buffer of 192 bytes.
#[derive(Drop)]
pub struct Line {
    bytes: ArrayVec<u8, 192>,
}

impl Model for Line {
    ghost Value = { List ℕ };

    ghost view = { λ l. l.bytes.items };
}

impl Line {
    pub fn new() -> Line
        ensures { result ≡ [] }
    {
        Line {
            bytes: ArrayVec::new(),
        }
    }

    pub fn as_bytes(&self) -> &[u8]
        ensures bytes { result.now ≡ self.now }
        ensures short { length self.now ≤ 192 }
    {
        self.bytes.as_slice()
    }

    /// Adds a text.
    pub fn put(&mut self, text: &[u8])
        requires { length self.old + length text.now ≤ 192 }
        ensures added { self.new ≡ self.old ++ text.now }
        ensures len { length self.new ≡ length self.old + length text.now }
    {
        for b in text {
            self.bytes.push(*b);
        }
    }

    /// Adds the digits of a number, at most 20.
    pub fn put_number(&mut self, n: u64)
        requires { length self.old ≤ 172 }
        ensures added { self.new ≡ self.old ++ decimal n }
        ensures len { length self.new ≤ length self.old + 20 }
    {
        let mut buffer = Buffer::new();
        self.put(buffer.format(n).as_bytes());
    }

    /// Adds two hexadecimal digits for each byte.
    pub fn put_hex(&mut self, bytes: &[u8])
        requires { length self.old + 2 * length bytes.now ≤ 192 }
        ensures added { self.new ≡ self.old ++ hex_text bytes.now }
        ensures len { length self.new ≡ length self.old + 2 * length bytes.now }
    {
        for b in bytes {
            self.bytes.push(hex_digit(*b / 16));
            self.bytes.push(hex_digit(*b % 16));
        }
    }
}

fn hex_digit(n: u8) -> u8
    requires { n < 16 }
    ensures { result ≡ hex_digit n }
{
    if n < 10 { b'0' + n } else { b'a' + (n - 10) }
}
