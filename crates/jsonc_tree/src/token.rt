//! Characters of tokens, which lend the bytes that they print.

ghost use Rattle.std.specs.Prelude.{◌≡◌, ◌≤◌, length, take, encode_utf8};

use std::marker::Model;

/// The character of a token, with its bytes.
#[derive(Drop)]
pub struct TokenChar {
    c: char,
    bytes: [u8; 4],
    len: u8,
}

impl Model for TokenChar {
    ghost use Rattle.std.specs.Prelude.{ℕ, ◌≡◌, ◌≤◌, take, encode_utf8};

    ghost Value = { ℕ };

    ghost view = { λ t. t.c };

    ghost invariant = { λ t. (t.len ≤ 4) × (take t.len t.bytes ≡ encode_utf8 t.c) };
}

// Copies the bytes of a character to the front of four, and answers how many they are.
fn fill(c: char, bytes: &mut [u8; 4]) -> u8
    ensures len { result ≤ 4 }
    ensures bytes { take result bytes.new ≡ encode_utf8 c }
{
    let mut buffer = [0; 4];
    let encoded = c.encode_utf8(&mut buffer).as_bytes();
    bytes[..encoded.len()].copy_from_slice(encoded);
    encoded.len() as u8
}

impl TokenChar {
    /// A character.
    pub fn new(c: char) -> TokenChar
        ensures { result ≡ c }
    {
        let mut bytes = [0; 4];
        let len = fill(c, &mut bytes);
        TokenChar { c, bytes, len }
    }

    pub(crate) fn copied(&self) -> TokenChar
        ensures { result ≡ self.now }
    {
        TokenChar {
            c: self.c,
            bytes: self.bytes,
            len: self.len,
        }
    }

    /// The character.
    pub fn get(&self) -> char
        ensures { result ≡ self.now }
    {
        self.c
    }

    /// The character in UTF-8.
    pub fn as_bytes(&self) -> &[u8]
        ensures { result.now ≡ encode_utf8 self.now }
    {
        &self.bytes[..self.len as usize]
    }
}
