//! Runs of bytes up to one of two, and of digits, sixteen at a time.
ghost use Rattle.std.specs.Prelude.{◌≡◌, ◌≤◌, length, map};
ghost use Rattle.std.specs.Simd.Lanes.{mask_l};
ghost use Rattle.jsonc_text.specs.Runs.{IsDigitMask, RunsTo, is_either, is_no_digit};
ghost use Rattle.jsonc_text.specs.string.Between.{is_neither};
ghost use Rattle.jsonc_text.specs.Text.{is_digit};

use std::simd::prelude::*;

/// How many bytes one load takes.
const LANES: usize = 16;

/// The first place from `start` on where one of two bytes stands, or the end.
#[inline(always)]
pub fn byte_stop(bytes: &[u8], start: usize, first: u8, second: u8) -> usize
    requires { start ≤ length bytes.now }
    ensures { RunsTo (is_neither first second) bytes.now start result }
{
    let mut place = start;
    while bytes.len() - place >= LANES {
        let stops = stops_in(u8x16::from_slice(&bytes[place..]), first, second);
        if stops != 0 {
            return place + stops.trailing_zeros() as usize;
        }
        place += LANES;
    }
    last_stop(bytes, place, first, second)
}

/// A bit for each of sixteen bytes: whether it is one of two.
#[inline(always)]
fn stops_in(bytes: u8x16, first: u8, second: u8) -> u64
    ensures { result ≡ mask_l (map (is_either first second) bytes) }
{
    let stops = bytes.simd_eq(u8x16::splat(first)) | bytes.simd_eq(u8x16::splat(second));
    stops.to_bitmask()
}

/// The same as [`byte_stop`], a byte at a time, for the last bytes.
#[inline(never)]
fn last_stop(bytes: &[u8], start: usize, first: u8, second: u8) -> usize
    requires { start ≤ length bytes.now }
    ensures { RunsTo (is_neither first second) bytes.now start result }
{
    let mut place = start;
    while place < bytes.len() {
        if (bytes[place] == first) | (bytes[place] == second) {
            return place;
        }
        place += 1;
    }
    place
}

/// The first place from `start` on where no ASCII digit stands, or the end.
#[inline(always)]
pub fn digit_stop(bytes: &[u8], start: usize) -> usize
    requires { start ≤ length bytes.now }
    ensures { RunsTo is_digit bytes.now start result }
{
    let mut place = start;
    while bytes.len() - place >= LANES {
        let others = digit_stops_in(u8x16::from_slice(&bytes[place..]));
        if others != 0 {
            return place + others.trailing_zeros() as usize;
        }
        place += LANES;
    }
    last_digit_stop(bytes, place)
}

/// A bit for each of sixteen bytes: whether it is no digit.
#[inline(always)]
fn digit_stops_in(bytes: u8x16) -> u64
    ensures { result ≡ mask_l (map is_no_digit bytes) }
{
    let others = bytes.simd_lt(u8x16::splat(b'0')) | bytes.simd_gt(u8x16::splat(b'9'));
    others.to_bitmask()
}

/// The same as [`digit_stop`], a byte at a time, for the last bytes.
#[inline(never)]
fn last_digit_stop(bytes: &[u8], start: usize) -> usize
    requires { start ≤ length bytes.now }
    ensures { RunsTo is_digit bytes.now start result }
{
    let mut place = start;
    while place < bytes.len() && bytes[place].is_ascii_digit() {
        place += 1;
    }
    place
}

/// Which of the sixteen bytes at a place are no digits, a bit for each. No bit where the bytes are fewer.
#[inline(always)]
pub fn digit_mask(bytes: &[u8], place: usize) -> u64
    requires { place ≤ length bytes.now }
    ensures { IsDigitMask bytes.now place result }
{
    if bytes.len() - place < LANES {
        return 0;
    }
    digit_stops_in(u8x16::from_slice(&bytes[place..]))
}

/// The same as [`digit_stop`], by the mask of the sixteen bytes at `near` where these tell.
#[inline(always)]
pub fn digit_stop_near(bytes: &[u8], near: usize, mask: u64, start: usize) -> usize
    requires start { start ≤ length bytes.now }
    requires order { near ≤ start }
    requires mask { IsDigitMask bytes.now near mask }
    ensures { RunsTo is_digit bytes.now start result }
{
    let from = start - near;
    if from < LANES {
        let others = mask >> from as u32;
        if others != 0 {
            return start + others.trailing_zeros() as usize;
        }
    }
    far_digit_stop(bytes, start)
}

/// The same as [`digit_stop`], for digits that go on after sixteen bytes.
#[inline(never)]
fn far_digit_stop(bytes: &[u8], start: usize) -> usize
    requires { start ≤ length bytes.now }
    ensures { RunsTo is_digit bytes.now start result }
{
    digit_stop(bytes, start)
}
