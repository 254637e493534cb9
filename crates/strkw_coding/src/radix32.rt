//! base32 and base32hex: five bits a letter, blocks of eight letters. Written once, over the alphabet.

ghost use Rattle.std.specs.Prelude.{◌≡◌, ◌↔◌, ◌<◌, ◌≤◌, ◌-◌, ◌++◌, if◌then◌else◌};
ghost use Rattle.std.specs.Prelude.{ℕ, List, length, take, drop, replicate, slice_index, IsTrue, IfOk, IfSome, IsSomeAnd, MatchOption};
ghost use Rattle.std.specs.List.{list_all};
ghost use Rattle.std.specs.Str.{byte};
ghost use Rattle.strkw_coding.specs.Blocks.{BeginsWithBlock, IsBlockOf, IsCode32, IsDecodedTo, block_bytes, code32, group_len, is_alphabet, is_letter, is_table, value_of};
ghost use Rattle.strkw_coding.specs.Rfc4648.{AreBytes, IsEncoding, Reads};

use crate::codec::Codec;
use std::alloc::{AllocError, Global};

// The 32 letters of an encoding, in the order of their values, and the place of each character among them, or
// 32 for a character that is no letter.
struct Alphabet {
    letters: [u8; 32],
    places: [u8; 256],
    ghost alphabet: { IsTrue (is_alphabet letters) },
    ghost table: { IsTrue (is_table letters places) },
}

const BASE32: Alphabet = Alphabet {
    letters: *b"ABCDEFGHIJKLMNOPQRSTUVWXYZ234567",
    places: [
        32, 32, 32, 32, 32, 32, 32, 32, 32, 32, 32, 32, 32, 32, 32, 32, 32, 32, 32, 32, 32, 32, 32,
        32, 32, 32, 32, 32, 32, 32, 32, 32, 32, 32, 32, 32, 32, 32, 32, 32, 32, 32, 32, 32, 32, 32,
        32, 32, 32, 32, 26, 27, 28, 29, 30, 31, 32, 32, 32, 32, 32, 32, 32, 32, 32, 0, 1, 2, 3, 4,
        5, 6, 7, 8, 9, 10, 11, 12, 13, 14, 15, 16, 17, 18, 19, 20, 21, 22, 23, 24, 25, 32, 32, 32,
        32, 32, 32, 32, 32, 32, 32, 32, 32, 32, 32, 32, 32, 32, 32, 32, 32, 32, 32, 32, 32, 32, 32,
        32, 32, 32, 32, 32, 32, 32, 32, 32, 32, 32, 32, 32, 32, 32, 32, 32, 32, 32, 32, 32, 32, 32,
        32, 32, 32, 32, 32, 32, 32, 32, 32, 32, 32, 32, 32, 32, 32, 32, 32, 32, 32, 32, 32, 32, 32,
        32, 32, 32, 32, 32, 32, 32, 32, 32, 32, 32, 32, 32, 32, 32, 32, 32, 32, 32, 32, 32, 32, 32,
        32, 32, 32, 32, 32, 32, 32, 32, 32, 32, 32, 32, 32, 32, 32, 32, 32, 32, 32, 32, 32, 32, 32,
        32, 32, 32, 32, 32, 32, 32, 32, 32, 32, 32, 32, 32, 32, 32, 32, 32, 32, 32, 32, 32, 32, 32,
        32, 32, 32, 32, 32, 32, 32, 32, 32, 32, 32, 32, 32, 32, 32, 32, 32, 32, 32, 32, 32, 32, 32,
        32,
    ],
};

const BASE32_HEX: Alphabet = Alphabet {
    letters: *b"0123456789ABCDEFGHIJKLMNOPQRSTUV",
    places: [
        32, 32, 32, 32, 32, 32, 32, 32, 32, 32, 32, 32, 32, 32, 32, 32, 32, 32, 32, 32, 32, 32, 32,
        32, 32, 32, 32, 32, 32, 32, 32, 32, 32, 32, 32, 32, 32, 32, 32, 32, 32, 32, 32, 32, 32, 32,
        32, 32, 0, 1, 2, 3, 4, 5, 6, 7, 8, 9, 32, 32, 32, 32, 32, 32, 32, 10, 11, 12, 13, 14, 15,
        16, 17, 18, 19, 20, 21, 22, 23, 24, 25, 26, 27, 28, 29, 30, 31, 32, 32, 32, 32, 32, 32, 32,
        32, 32, 32, 32, 32, 32, 32, 32, 32, 32, 32, 32, 32, 32, 32, 32, 32, 32, 32, 32, 32, 32, 32,
        32, 32, 32, 32, 32, 32, 32, 32, 32, 32, 32, 32, 32, 32, 32, 32, 32, 32, 32, 32, 32, 32, 32,
        32, 32, 32, 32, 32, 32, 32, 32, 32, 32, 32, 32, 32, 32, 32, 32, 32, 32, 32, 32, 32, 32, 32,
        32, 32, 32, 32, 32, 32, 32, 32, 32, 32, 32, 32, 32, 32, 32, 32, 32, 32, 32, 32, 32, 32, 32,
        32, 32, 32, 32, 32, 32, 32, 32, 32, 32, 32, 32, 32, 32, 32, 32, 32, 32, 32, 32, 32, 32, 32,
        32, 32, 32, 32, 32, 32, 32, 32, 32, 32, 32, 32, 32, 32, 32, 32, 32, 32, 32, 32, 32, 32, 32,
        32, 32, 32, 32, 32, 32, 32, 32, 32, 32, 32, 32, 32, 32, 32, 32, 32, 32, 32, 32, 32, 32, 32,
        32,
    ],
};

// The bytes of a block: the first `len` of these.
#[derive(Clone, Copy)]
struct Group {
    bytes: [u8; 5],
    len: usize,
}

/// Whether a text encodes some bytes by base32.
#[tactic(auto, unfolding(crate::specs::Blocks::is_alphabet, crate::specs::Blocks::is_table, crate::specs::Blocks::value_of))]
pub(crate) fn is_base32(text: &[u8]) -> bool
    ensures { IsTrue result ↔ IsEncoding Codec.Base32 text.now }
{
    BASE32.is_code(text)
}

/// Whether a text encodes some bytes by base32hex.
#[tactic(auto, unfolding(crate::specs::Blocks::is_alphabet, crate::specs::Blocks::is_table, crate::specs::Blocks::value_of))]
pub(crate) fn is_base32hex(text: &[u8]) -> bool
    ensures { IsTrue result ↔ IsEncoding Codec.Base32Hex text.now }
{
    BASE32_HEX.is_code(text)
}

/// The bytes that a text encodes by base32.
#[tactic(auto, unfolding(crate::specs::Blocks::is_alphabet, crate::specs::Blocks::is_table, crate::specs::Blocks::value_of))]
pub(crate) fn bytes_of_base32(alloc: Global, text: &[u8]) -> Result<Option<Vec<u8>>, AllocError>
    ensures { IfOk result (Reads (λ v. v.items) Codec.Base32 text.now) }
{
    BASE32.decode(alloc, text)
}

/// The bytes that a text encodes by base32hex.
#[tactic(auto, unfolding(crate::specs::Blocks::is_alphabet, crate::specs::Blocks::is_table, crate::specs::Blocks::value_of))]
pub(crate) fn bytes_of_base32hex(alloc: Global, text: &[u8]) -> Result<Option<Vec<u8>>, AllocError>
    ensures { IfOk result (Reads (λ v. v.items) Codec.Base32Hex text.now) }
{
    BASE32_HEX.decode(alloc, text)
}

impl Alphabet {
    // Whether a text encodes some bytes by these letters.
    fn is_code(&self, text: &[u8]) -> bool
        ensures { IsTrue result ↔ IsCode32 self.now.letters text.now }
    {
        let mut rest = self.after_full_blocks(text);
        while !rest.is_empty() {
            let Some((_, after)) = self.first_block(rest) else {
                return false;
            };
            rest = after;
        }
        true
    }

    // What follows the blocks of letters alone at the front, each the code of five bytes.
    fn after_full_blocks<'a>(&self, text: &'a [u8]) -> &'a [u8]
        ensures { IsCode32 self.now.letters text.now ↔ IsCode32 self.now.letters result.now }
    {
        let mut rest = text;
        while let Some((_, after)) = self.full_block(rest) {
            rest = after;
        }
        rest
    }

    // What a block of letters alone at the front stands for, which is five bytes, and what follows the block.
    #[inline(always)]
    fn full_block<'a>(&self, text: &'a [u8]) -> Option<(Group, &'a [u8])>
        ensures { IfSome result (λ r.
            BeginsWithBlock self.now.letters text.now r.0.bytes 5 r.1.now) }
    {
        if text.len() < 8 {
            return None;
        }
        let (block, after) = text.split_at(8);
        if self.are_letters(block) {
            let bytes = self.bytes_of(block);
            Some((Group { bytes, len: 5 }, after))
        } else {
            None
        }
    }

    // Whether each character is a letter. It reads all of them, with no branch between.
    #[inline(always)]
    fn are_letters(&self, characters: &[u8]) -> bool
        ensures { result ≡ list_all (is_letter self.now.letters) characters.now }
    {
        let mut letters = true;
        for character in characters {
            letters &= self.is_letter(*character);
        }
        letters
    }

    #[inline(always)]
    fn is_letter(&self, character: u8) -> bool
        ensures { result ≡ is_letter self.now.letters character }
    {
        self.places[usize::from(character)] < 32
    }

    // The bytes that a text encodes by these letters.
    fn decode(&self, alloc: Global, text: &[u8]) -> Result<Option<Vec<u8>>, AllocError>
        ensures { IfOk result (λ o. MatchOption o (IsCode32 self.now.letters text.now → ⊥)
            (λ v. AreBytes v.items × (text.now ≡ code32 self.now.letters v.items))) }
    {
        let mut bytes = Vec::with_capacity(alloc, text.len() / 8 * 5)?;
        let mut rest = self.push_full_blocks(text, &mut bytes)?;
        while !rest.is_empty() {
            let Some((group, after)) = self.first_block(rest) else {
                return Ok(None);
            };
            let group_bytes = group.bytes;
            bytes.extend_from_slice(&group_bytes[..group.len])?;
            rest = after;
        }
        Ok(Some(bytes))
    }

    // Appends the bytes of the blocks of letters alone at the front, and answers what follows these blocks.
    fn push_full_blocks<'a>(
        &self,
        text: &'a [u8],
        bytes: &mut Vec<u8>,
    ) -> Result<&'a [u8], AllocError>
        ensures { IfOk result (λ rest. (whole : List ℕ)
            → IsDecodedTo self.now.letters whole bytes.old.items text.now
            → IsDecodedTo self.now.letters whole bytes.new.items rest.now) }
    {
        let mut rest = text;
        while let Some((group, after)) = self.full_block(rest) {
            let group_bytes = group.bytes;
            bytes.extend_from_slice(&group_bytes)?;
            rest = after;
        }
        Ok(rest)
    }

    // What the first block of a text stands for, and the text after it. Only the last block is padded.
    fn first_block<'a>(&self, text: &'a [u8]) -> Option<(Group, &'a [u8])>
        requires some { 0 < length text.now }
        ensures { MatchOption result (IsCode32 self.now.letters text.now → ⊥)
            (λ r. BeginsWithBlock self.now.letters text.now r.0.bytes r.0.len r.1.now) }
    {
        if text.len() < 8 {
            return None;
        }
        let (block, after) = text.split_at(8);
        let Some(group) = self.decode_block(block) else {
            return None;
        };
        if group.len < 5 && !after.is_empty() {
            return None;
        }
        Some((group, after))
    }

    // What a block stands for: one to five bytes whose code it is. Whatever the characters are, they are
    // read as letters. Whether they were, the padding is in place and the spare bits are zero is seen by
    // encoding what was read.
    fn decode_block(&self, block: &[u8]) -> Option<Group>
        requires block { length block.now ≡ 8 }
        ensures found { IfSome result (λ g. IsBlockOf self.now.letters block.now g.bytes g.len) }
        ensures only { (p : List ℕ) → AreBytes p → 0 < length p → length p ≤ 5
            → block.now ≡ code32 self.now.letters p
            → IsSomeAnd result (λ g. take g.len g.bytes ≡ p) }
    {
        let group = self.group_of(block);
        let bytes = group.bytes;
        let len = group.len;
        if !is_zero(&bytes[len..]) {
            return None;
        }
        let code = self.code_of(&bytes, len);
        if block == code.as_slice() {
            Some(group)
        } else {
            None
        }
    }

    // What a block stands for, if it is a code.
    fn group_of(&self, block: &[u8]) -> Group
        requires block { length block.now ≡ 8 }
        ensures value { result.bytes ≡ block_bytes self.now.letters block.now }
        ensures len { result.len ≡ group_len block.now }
        ensures some { 0 < result.len }
        ensures few { result.len ≤ 5 }
        ensures five { length result.bytes ≡ 5 }
        ensures are_bytes { AreBytes result.bytes }
        ensures only { (p : List ℕ) → AreBytes p → 0 < length p → length p ≤ 5
            → block.now ≡ code32 self.now.letters p
            → (result.len ≡ length p) × (result.bytes ≡ p ++ replicate (5 - length p) 0) }
    {
        let bytes = self.bytes_of(block);
        Group {
            bytes,
            len: group_len(block),
        }
    }

    // The five bytes of the characters of a block, each read as a letter.
    #[inline(always)]
    fn bytes_of(&self, block: &[u8]) -> [u8; 5]
        requires block { length block.now ≡ 8 }
        ensures value { result ≡ block_bytes self.now.letters block.now }
        ensures five { length result ≡ 5 }
        ensures are_bytes { AreBytes result }
    {
        let v0 = self.value_of(block[0]);
        let v1 = self.value_of(block[1]);
        let v2 = self.value_of(block[2]);
        let v3 = self.value_of(block[3]);
        let v4 = self.value_of(block[4]);
        let v5 = self.value_of(block[5]);
        let v6 = self.value_of(block[6]);
        let v7 = self.value_of(block[7]);
        [
            (v0 * 8 + v1 / 4) as u8,
            (v1 % 4 * 64 + v2 * 2 + v3 / 16) as u8,
            (v3 % 16 * 16 + v4 / 2) as u8,
            (v4 % 2 * 128 + v5 * 4 + v6 / 8) as u8,
            (v6 % 8 * 32 + v7) as u8,
        ]
    }

    // The code of the first `len` of these bytes, of which the others are 0.
    fn code_of(&self, bytes: &[u8; 5], len: usize) -> [u8; 8]
        requires some { 0 < len }
        requires few { len ≤ 5 }
        requires zeros { drop len bytes.now ≡ replicate (5 - len) 0 }
        ensures { result ≡ code32 self.now.letters (take len bytes.now) }
    {
        let [a, b, c, d, e] = *bytes;
        [
            self.letter(a / 8, false),
            self.letter(a % 8 * 4 + b / 64, false),
            self.letter(b / 2 % 32, len < 2),
            self.letter(b % 2 * 16 + c / 16, len < 2),
            self.letter(c % 16 * 2 + d / 128, len < 3),
            self.letter(d / 4 % 32, len < 4),
            self.letter(d % 4 * 8 + e / 32, len < 4),
            self.letter(e % 32, len < 5),
        ]
    }

    // The place of a letter, or 0 for a character that is none.
    #[inline(always)]
    fn value_of(&self, character: u8) -> usize
        ensures value { result ≡ value_of self.now.letters character }
        ensures below { result < 32 }
    {
        usize::from(self.places[usize::from(character)] % 32)
    }

    // The letter of a value, or "=" past the letters.
    fn letter(&self, value: u8, is_padding: bool) -> u8
        requires { value < 32 }
        ensures { result ≡ (if is_padding then byte "=" else slice_index self.now.letters value) }
    {
        if is_padding {
            b'='
        } else {
            self.letters[usize::from(value)]
        }
    }
}

// How many bytes a block stands for, by where its padding begins.
fn group_len(block: &[u8]) -> usize
    requires { length block.now ≡ 8 }
    ensures value { result ≡ group_len block.now }
    ensures some { 0 < result }
    ensures few { result ≤ 5 }
{
    if block[2] == b'=' {
        1
    } else if block[4] == b'=' {
        2
    } else if block[5] == b'=' {
        3
    } else if block[7] == b'=' {
        4
    } else {
        5
    }
}

// Whether bytes are all 0.
fn is_zero(bytes: &[u8]) -> bool
    ensures { IsTrue result ↔ (bytes.now ≡ replicate (length bytes.now) 0) }
{
    bytes.iter().all(|byte| *byte == 0)
}
