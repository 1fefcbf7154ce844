// Values as the texts of elements: dates, times, whole numbers and decimals, and how far a text is padded.
#![tactic(auto)]

pub mod envelope;
pub mod laws;
pub mod number;
pub mod parse;
pub mod render;
mod signed;

use std::fmt;

// A text of at most 48 bytes: the first `len` of `bytes`, the others 0. A text is passed by value, since there is no heap.
#[derive(Clone, Copy)]
pub struct Text {
    pub bytes: [u8; 48],
    pub len: usize,
}

impl Text {
    ghost use Rattle.std.specs.Prelude.{◌≡◌, ◌+◌, ◌<◌, [], ◌∷◌, take};
    ghost use Rattle.texts.specs.Held.{held, added};

    // No text.
    pub fn empty() -> Text
        ensures { result ≡ held [] }
    {
        Text {
            bytes: [0u8; 48],
            len: 0,
        }
    }

    // One more byte.
    fn with(self, byte: u8) -> Text
        requires { self.len < 48 }
        ensures { (result ≡ added self (byte ∷ [])) × (result.len ≡ self.len + 1) }
    {
        let mut bytes = self.bytes;
        bytes[self.len] = byte;
        Text {
            bytes,
            len: self.len + 1,
        }
    }

    // The bytes of the text; of a length above 48, all 48.
    pub fn as_bytes(&self) -> &[u8]
        ensures { result.now ≡ take self.now.len self.now.bytes }
    {
        &self.bytes[..self.len.min(48)]
    }
}

impl fmt::Display for Text {
    fn fmt<W: fmt::Write>(&self, f: &mut fmt::Formatter<W>) -> fmt::Result {
        for b in self.as_bytes() {
            f.write_char(char::from(*b))?;
        }
        Ok(())
    }
}
