//! Decimal digits, however many there are.

ghost use Rattle.std.specs.Prelude.{◌≡◌, ◌+◌, ◌*◌, ◌-◌, ◌≤◌, ◌↔◌, ◌++◌, ◌∷◌, ◌==◌, [], length, not, IfOk, IsTrue, true};
ghost use Rattle.std.specs.List.{list_any};
ghost use Rattle.std.specs.Str.{byte};
ghost use Rattle.strkw_regex_grammar.specs.Codes.{has_digits};
ghost use Rattle.strkw_regex_grammar.specs.Numbers.{is_digit, are_digits, number, number as decimal};
ghost use Rattle.strkw_regex_grammar.specs.machine.Lexemes.{cap_number};

use std::alloc::{AllocError, Global};

// Decimal digits, and their number, or `u32::MAX` where it is greater.
#[derive(Drop)]
pub struct Digits {
    pub digits: Vec<char>,
    pub number: u32,
    ghost are_digits: { are_digits digits.items ≡ true },
    ghost is_number: { number ≡ cap_number (decimal digits.items) },
}

// The number with one more digit, held at the greatest.
pub(super) fn with_digit(number: u32, c: char) -> u32
    ensures { result ≡ cap_number (number * 10 + (c - byte "0")) }
{
    let digit = u32::from(c).saturating_sub(u32::from('0'));
    number.saturating_mul(10).saturating_add(digit)
}

// Whether a digit of these is no zero.
fn has_value(digits: &[char]) -> bool
    ensures { result ≡ list_any (λ d. not (d == byte "0")) digits.now }
{
    digits.iter().any(|digit| *digit != '0')
}

// Whether the number of digits is no greater than that of others, of which there are no fewer. Of as many the first in
// which they differ tells.
fn is_within(digits: &[char], others: &[char]) -> bool
    requires longer { length digits.now ≤ length others.now }
    requires digits { are_digits digits.now ≡ true }
    requires others { are_digits others.now ≡ true }
    ensures { IsTrue result ↔ (number digits.now ≤ number others.now) }
{
    let (front, back) = others.split_at(others.len() - digits.len());
    has_value(front) | digits.cmp(back).is_le()
}

// The same of digits, of which there are no fewer than others.
fn is_longer_within(digits: &[char], others: &[char]) -> bool
    requires longer { length others.now ≤ length digits.now }
    requires digits { are_digits digits.now ≡ true }
    requires others { are_digits others.now ≡ true }
    ensures { IsTrue result ↔ (number digits.now ≤ number others.now) }
{
    let (front, back) = digits.split_at(digits.len() - others.len());
    !has_value(front) & back.cmp(others).is_le()
}

impl Digits {
    pub(super) fn new(alloc: Global) -> Digits
        ensures { result.digits.items ≡ [] }
    {
        Digits {
            digits: Vec::new(alloc),
            number: 0,
        }
    }

    pub(super) fn is_empty(&self) -> bool
        ensures { result ≡ not (has_digits self.now.digits.items) }
    {
        self.digits.is_empty()
    }

    pub(super) fn with_digit(self, c: char) -> Result<Digits, AllocError>
        requires { is_digit c ≡ true }
        ensures { IfOk result (λ longer. longer.digits.items ≡ self.digits.items ++ c ∷ []) }
    {
        let Digits { mut digits, number } = self;
        digits.push(c)?;
        Ok(Digits {
            digits,
            number: with_digit(number, c),
        })
    }

    // Whether their number is no greater than that of the others.
    pub(super) fn is_within(&self, others: &Digits) -> bool
        ensures { IsTrue result ↔ (number self.now.digits.items ≤ number others.now.digits.items) }
    {
        let (first, last) = (self.digits.as_slice(), others.digits.as_slice());
        if first.len() <= last.len() {
            is_within(first, last)
        } else {
            is_longer_within(first, last)
        }
    }
}
