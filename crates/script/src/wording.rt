// The words of an answer, put one behind another into a small buffer.
ghost use Rattle.std.specs.Prelude.{◌≡◌, ◌+◌, ◌≤◌, length};

use amounts::difference::magnitude;
use decimal::{put_decimal, put_number};
use packed::writing::copy;

// An answer without the bytes that it shows: the longest is a report with twelve numbers.
const HEAD_BYTES: usize = 400;

// The words so far: the first `at` bytes.
#[derive(Clone, Copy)]
pub struct Head {
    pub bytes: [u8; HEAD_BYTES],
    pub at: usize,
    ghost within: { at ≤ 400 },
}

impl Head {
    // No words.
    pub fn new() -> Head
        ensures { result.at ≡ 0 }
    {
        Head {
            bytes: [0; HEAD_BYTES],
            at: 0,
        }
    }

    pub fn put_text(&mut self, text: &[u8])
        requires { self.old.at + length text.now ≤ 400 }
        ensures { self.new.at ≡ self.old.at + length text.now }
    {
        copy(&mut self.bytes, self.at, text);
        self.at += text.len();
    }

    // A number.
    pub fn put_decimal(&mut self, value: u64)
        requires { self.old.at + 20 ≤ 400 }
        ensures { self.new.at ≤ self.old.at + 20 }
    {
        self.at = put_decimal(&mut self.bytes, self.at, value);
    }

    // A number behind a space.
    pub fn put_number(&mut self, value: u64)
        requires { self.old.at + 21 ≤ 400 }
        ensures { self.new.at ≤ self.old.at + 21 }
    {
        self.at = put_number(&mut self.bytes, self.at, value);
    }

    // A signed number behind a space.
    pub fn put_signed(&mut self, value: i64)
        requires { self.old.at + 22 ≤ 400 }
        ensures { self.new.at ≤ self.old.at + 22 }
    {
        if value < 0 {
            self.put_text(b" -");
            self.put_decimal(magnitude(value));
        } else {
            self.put_number(magnitude(value));
        }
    }

    // A number of two digits.
    pub fn put_code(&mut self, number: u8)
        requires { self.old.at + 21 ≤ 400 }
        ensures { self.new.at ≤ self.old.at + 21 }
    {
        if number < 10 {
            self.put_text(b"0");
        }
        self.put_decimal(number as u64);
    }
}
