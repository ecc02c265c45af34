//! A provider of characters, and the string that is decoded from it.
ghost use Rattle.std.specs.Prelude.{IsCharBoundary};

use failing_alloc::outcome::Outcome;
use jsonc_text::chars::{char_at, char_end};
use jsonc_text::string::provider::{CharProvider, parse_string_with_char_provider};
use std::alloc::Allocator;

/// The characters of a text from a place on.
#[derive(Drop)]
struct TextChars<'a> {
    text: &'a str,
    at: usize,
    pub ghost at_place: { IsCharBoundary text.now at },
}

impl<'a> CharProvider<'a> for TextChars<'a> {
    ghost bytes = { λ p. p.text.now };

    ghost place = { λ p. p.at };

    fn current_char(&mut self) -> Option<char> {
        char_at(self.text, self.at)
    }

    fn byte_index(&self) -> usize {
        self.at
    }

    fn move_next_char(&mut self) -> Option<char> {
        self.at = char_end(self.text, self.at);
        char_at(self.text, self.at)
    }

    fn text(&self) -> &'a str {
        self.text
    }
}

/// Decodes a string from a provider, and tells whether the provider is left after it.
pub fn decode_provided<A: Allocator>(alloc: A) -> Outcome {
    let mut chars = TextChars {
        text: "'a\\n'x",
        at: 0,
    };
    match parse_string_with_char_provider(alloc, &mut chars, false) {
        Ok(found) => Outcome::of(found.as_str() == "a\n" && chars.current_char() == Some('x')),
        Err(error) => Outcome::from(error),
    }
}
