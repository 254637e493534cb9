//! How many bytes of a text, from the first, are characters of an ASCII class or percent-encoded: 32 at a time.
ghost use Rattle.std.specs.Prelude.{◌≡◌, ◌==◌, ◌/◌, ◌%◌, ◌<◌, ◌≤◌, ◌+◌, ◌-◌, ◌++◌, if◌then◌else◌};
ghost use Rattle.std.specs.Prelude.{ℕ, length, slice_index, map};
ghost use Rattle.std.specs.Char.{is_ascii_hexdigit};
ghost use Rattle.std.specs.Int.{trailing_zeros, w64};
ghost use Rattle.std.specs.List.{prefix_len};
ghost use Rattle.std.specs.Simd.Lanes.{Each1};
ghost use Rattle.strkw_uri.specs.Lanes.{members, is_in, goes_on, IsRun};
ghost use Rattle.strkw_uri.specs.Scan.{is_part_char};
ghost use Rattle.strkw_uri.specs.declared.part.Syntax.TheVariants.{Rfc3986};

use crate::part::Part;
use crate::plain;
use std::simd::prelude::*;

const LANES: usize = 32;

// What a block is judged by: itself, and the two bytes that may end an escape which begins in it.
const LOOKED_AT: usize = LANES + 2;

/// A class of ASCII characters: bit h of entry l stands for the character 16 * h + l.
pub(crate) type Table = [u8; 16];

// The bit that stands for the upper half h of a byte, which is none from 128 on.
const UPPER_BITS: [u8; 16] = [1, 2, 4, 8, 16, 32, 64, 128, 0, 0, 0, 0, 0, 0, 0, 0];

const HEXADECIMAL: Table = [
    0x08, 0x58, 0x58, 0x58, 0x58, 0x58, 0x58, 0x08, 0x08, 0x08, 0, 0, 0, 0, 0, 0,
];

/// The table in each half of the lanes.
#[inline(always)]
fn double(table: &[u8; 16]) -> u8x32
    ensures { result ≡ table.now ++ table.now }
{
    u8x16::from_array(*table).swizzle([
        0, 1, 2, 3, 4, 5, 6, 7, 8, 9, 10, 11, 12, 13, 14, 15, 0, 1, 2, 3, 4, 5, 6, 7, 8, 9, 10, 11,
        12, 13, 14, 15,
    ])
}

/// The entry of the table at the number in each lane.
#[inline(always)]
fn look_up(table: &[u8; 16], places: u8x32) -> u8x32
    requires { Each1 (λ p. p < 16) places }
    ensures { result ≡ map (λ p. slice_index table.now p) places }
{
    double(table).swizzle_dyn_within::<16>(places)
}

/// The place of the lowest bit that is set, or 32.
#[inline(always)]
fn first_set(mask: u64) -> usize
    ensures { result ≡ (if mask == 0 then 32 else trailing_zeros w64 mask) }
{
    if mask == 0 {
        LANES
    } else {
        mask.trailing_zeros() as usize
    }
}

/// Which lanes are of the class: 0 where one is not.
#[inline(always)]
fn members(table: &Table, bytes: u8x32) -> u8x32
    ensures { result ≡ map (members table.now) bytes }
{
    let lower = look_up(table, bytes & u8x32::splat(15));
    let upper = look_up(&UPPER_BITS, bytes >> u8x32::splat(4));
    lower & upper
}

/// How many bytes of one block are of the class, from the first.
#[inline(always)]
fn run_of_block(table: &Table, block: &[u8; 32]) -> usize
    ensures { result ≡ prefix_len (is_in table.now) block.now }
{
    let members = members(table, u8x32::from_array(*block));
    first_set(members.simd_eq(u8x32::splat(0)).to_bitmask())
}

/// How far the text goes on within the block at a place.
#[inline(always)]
fn run_with_escapes(table: &Table, bytes: &[u8], at: usize) -> usize
    requires { at + 34 ≤ length bytes.now }
    ensures { IsRun (goes_on (is_in table.now) bytes.now) at 32 result }
{
    let none = u8x32::splat(0);
    let block = u8x32::from_slice(&bytes[at..]);
    let other = members(table, block).simd_eq(none);
    let unmarked = block.simd_ne(u8x32::splat(b'%'));
    let high = members(&HEXADECIMAL, u8x32::from_slice(&bytes[at + 1..])).simd_eq(none);
    let low = members(&HEXADECIMAL, u8x32::from_slice(&bytes[at + 2..])).simd_eq(none);
    first_set((other & (unmarked | high | low)).to_bitmask())
}

/// Where a loop over the places stops, which asks of each whether its byte is a character of the part or
/// begins an escape: by blocks, and one at a time where no block is left. The table is the part's. (The
/// digits of an escape are characters of each part.)
#[inline]
pub(crate) fn run(table: &Table, bytes: &[u8], part: Part) -> usize
    requires { (c : ℕ) → c < 256 → is_in table.now c ≡ is_part_char Rfc3986 part c }
    ensures { IsRun (goes_on (is_part_char Rfc3986 part) bytes.now) 0 (length bytes.now) result }
{
    let (blocks, _) = bytes.as_chunks::<32>();
    let mut at = 0;
    for block in blocks {
        let run = run_of_block(table, block);
        if run < LANES {
            if bytes[at + run] != b'%' {
                return at + run;
            }
            if bytes.len() - at < LOOKED_AT {
                return at + plain::run(bytes, part, at, bytes.len());
            }
            let run = run_with_escapes(table, bytes, at);
            if run < LANES {
                return at + run;
            }
        }
        at += LANES;
    }
    at + plain::run(bytes, part, at, bytes.len())
}
