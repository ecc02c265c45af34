//! Runs of a text up to an ASCII character: no byte of a wider character is one of ASCII.
ghost use Rattle.std.specs.Prelude.{◌<◌, IsCharBoundary};
ghost use Rattle.jsonc_text.specs.string.Between.{Reaches, LacksAt, is_neither};
ghost use Rattle.jsonc_text.specs.Text.{Many};

use crate::runs::byte_stop;

/// The first place from `start` on where one of two ASCII characters stands, or the end of the text.
#[inline(always)]
pub fn stop_place(text: &str, start: usize, first: u8, second: u8) -> usize
    requires boundary { IsCharBoundary text.now start }
    requires ascii { (first < 128) × (second < 128) }
    ensures passed { Reaches (Many (is_neither first second)) text.now start result }
    ensures stops { LacksAt (is_neither first second) text.now result }
{
    byte_stop(text.as_bytes(), start, first, second)
}
