//! Where blanks end. Between most tokens there is none or one space; what is longer is read sixteen bytes at a time.
ghost use Rattle.std.specs.Prelude.{◌≡◌, ◌≤◌, IsTrue, IsCharBoundary, map};
ghost use Rattle.std.specs.Simd.Lanes.{mask_l};
ghost use Rattle.jsonc_scan.specs.Blanks.{is_no_narrow_blank};
ghost use Rattle.jsonc_text.specs.Gaps.{is_blank};
ghost use Rattle.jsonc_text.specs.Text.{Many, rest, next, no};

use jsonc_text::chars::{blanks_end, has_byte};
use std::simd::prelude::*;

/// How many bytes one load takes.
const LANES: usize = 16;

/// A bit for each of sixteen bytes: whether it is no blank of ASCII.
#[inline(always)]
fn blank_stops_in(bytes: u8x16) -> u64
    ensures { result ≡ mask_l (map is_no_narrow_blank bytes) }
{
    let apart = bytes.simd_lt(u8x16::splat(9)) | bytes.simd_gt(u8x16::splat(13));
    let others = apart & bytes.simd_ne(u8x16::splat(b' '));
    others.to_bitmask()
}

/// The first place from `start` on where no blank stands, sixteen bytes at a time.
#[inline(never)]
fn long_gap_end(text: &str, start: usize) -> usize
    requires { IsCharBoundary text.now start }
    ensures boundary { IsCharBoundary text.now result }
    ensures order { start ≤ result }
    ensures blanks { Many is_blank (rest text.now start) (rest text.now result) }
    ensures all { IsTrue (no is_blank (next (rest text.now result))) }
{
    let bytes = text.as_bytes();
    let mut place = start;
    while bytes.len() - place >= LANES {
        let others = blank_stops_in(u8x16::from_slice(&bytes[place..]));
        if others != 0 {
            return blanks_end(text, place + others.trailing_zeros() as usize);
        }
        place += LANES;
    }
    blanks_end(text, place)
}

/// Whether a character of ASCII stands at a place that is after its blanks.
#[inline(always)]
fn has_no_blank(text: &str, place: usize) -> bool
    ensures { IsTrue result → IsTrue (no is_blank (next (rest text.now place))) }
{
    let bytes = text.as_bytes();
    if place >= bytes.len() {
        return false;
    }
    let byte = bytes[place];
    (byte > b' ') & (byte < 0x80)
}

/// The first place from `start` on where no blank stands.
#[inline(always)]
pub(crate) fn gap_end(text: &str, start: usize) -> usize
    requires { IsCharBoundary text.now start }
    ensures boundary { IsCharBoundary text.now result }
    ensures order { start ≤ result }
    ensures blanks { Many is_blank (rest text.now start) (rest text.now result) }
    ensures all { IsTrue (no is_blank (next (rest text.now result))) }
{
    if has_no_blank(text, start) {
        return start;
    }
    if has_byte(text, start, b' ') && has_no_blank(text, start + 1) {
        return start + 1;
    }
    long_gap_end(text, start)
}
