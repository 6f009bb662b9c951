ghost use Rattle.std.specs.Prelude.{◌≡◌, ◌+◌, ◌*◌, ◌≤◌, ◌++◌, [], length, decimal};
ghost use Rattle.cmm_report.specs.Texts.{hex_text};
ghost use Rattle.cmm_report.specs.declared.line.TheConstants.{LINE};

use arrayvec::ArrayVec;
use itoa::Buffer;
use std::marker::Model;

/// The most bytes of a line, with its line feed.
pub const LINE: usize = 256;

/// A line of the report while it is put together. It takes no memory.
#[derive(Drop)]
pub struct Line {
    bytes: ArrayVec<u8, LINE>,
}

impl Model for Line {
    ghost use Rattle.std.specs.Prelude.{List, ℕ};

    ghost Value = { List ℕ };

    ghost view = { λ line. line.bytes.items };
}

impl Line {
    pub fn new() -> Line
        ensures { result ≡ [] }
    {
        Line {
            bytes: ArrayVec::new(),
        }
    }

    pub fn as_slice(&self) -> &[u8]
        ensures { result.now ≡ self.now }
    {
        self.bytes.as_slice()
    }

    pub fn add(&mut self, text: &[u8])
        requires { length self.old + length text.now ≤ LINE }
        ensures text { self.new ≡ self.old ++ text.now }
        ensures len { length self.new ≡ length self.old + length text.now }
    {
        let _ = self.bytes.try_extend_from_slice(text);
    }

    /// Adds a number in decimal: at most 20 digits.
    pub fn add_number(&mut self, n: u64)
        requires { length self.old + 20 ≤ LINE }
        ensures text { self.new ≡ self.old ++ decimal n }
        ensures len { length self.new ≤ length self.old + 20 }
    {
        let mut buffer = Buffer::new();
        let text = buffer.format(n).as_bytes();
        self.add(text);
    }

    /// Adds bytes in lower-case hexadecimal.
    pub fn add_hex(&mut self, bytes: &[u8])
        requires { length self.old + 2 * length bytes.now ≤ LINE }
        ensures text { self.new ≡ self.old ++ hex_text bytes.now }
        ensures len { length self.new ≡ length self.old + 2 * length bytes.now }
    {
        let mut room = [0; LINE];
        let digits = &mut room[..2 * bytes.len()];
        // It refuses only slices of another length.
        let _ = hex::encode_to_slice(bytes, digits);
        self.add(digits);
    }
}
