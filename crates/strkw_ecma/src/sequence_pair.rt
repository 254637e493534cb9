//! The chains of a program: one, or where one class may be missing beside the class that is counted, one without it and
//! one with it, as of `^https?:\S+$`.

ghost use Rattle.std.specs.Prelude.{◌≡◌, ◌<◌, ◌+◌, ◌++◌, ◌∷◌, List, true, false, length, take, drop, IfOk, IfSome, Some};
ghost use Rattle.std.specs.Str.{chars, IsAscii};
ghost use Rattle.strkw_ecma.specs.machine.Chains.{AreBranchesOf, AreTabled, are_chained};
ghost use Rattle.strkw_regex_search.specs.machine.Machine.{IsWithin};
ghost use Rattle.strkw_ecma.specs.declared.sequence_pair.SequencePair.{SequencePair};
ghost use Rattle.strkw_regex_search.specs.declared.code.Class.{Class};
ghost use Rattle.strkw_regex_search.specs.declared.code.Instruction.TheVariants.{Read};

use crate::links::FixedSequence;
use std::alloc::{AllocError, Global};
use strkw_regex_search::code::{Class, Code, Instruction};

/// A chain, or two of which a text is to be one.
#[derive(Drop)]
pub(crate) struct SequencePair {
    pub(crate) one: FixedSequence,
    pub(crate) other: Option<FixedSequence>,
}

// The class of which it reads one character, or nothing.
fn option_number(written: &Instruction) -> Option<usize>
    ensures { IfSome result (λ number. written.now ≡ Read number false true) }
{
    match *written {
        Instruction::Read {
            class,
            again: false,
            optional: true,
        } => Some(class),
        _ => None,
    }
}

// Where the first class stands that may be missing, and its number.
fn first_option(instructions: &[Instruction]) -> Option<(usize, usize)>
    ensures within { IfSome result (λ found. found.0 < length instructions.now) }
    ensures option { IfSome result (λ found. instructions.now
        ≡ take found.0 instructions.now
        ++ (Read found.1 false true ∷ drop (found.0 + 1) instructions.now)) }
{
    for (place, instruction) in instructions.iter().enumerate() {
        if let Some(number) = option_number(instruction) {
            return Some((place, number));
        }
    }
    None
}

// The instructions without that of a place.
fn without(
    alloc: Global,
    instructions: &[Instruction],
    place: usize,
) -> Result<Vec<Instruction>, AllocError>
    requires { place < length instructions.now }
    ensures { IfOk result (λ left. left.items
        ≡ take place instructions.now ++ drop (place + 1) instructions.now) }
{
    let mut left = Vec::from_slice(alloc, &instructions[..place])?;
    left.extend_from_slice(&instructions[place + 1..])?;
    Ok(left)
}

// The instructions, of which that of a place reads a class once.
fn with_read(
    alloc: Global,
    instructions: &[Instruction],
    place: usize,
    number: usize,
) -> Result<Vec<Instruction>, AllocError>
    requires { place < length instructions.now }
    ensures { IfOk result (λ all. all.items ≡ take place instructions.now
        ++ (Read number false false ∷ drop (place + 1) instructions.now)) }
{
    let mut all = Vec::from_slice(alloc, &instructions[..place])?;
    all.push(Instruction::Read {
        class: number,
        again: false,
        optional: false,
    })?;
    all.extend_from_slice(&instructions[place + 1..])?;
    Ok(all)
}

impl SequencePair {
    /// The chain of a program, or the two that it is; none where it is neither.
    pub(crate) fn of(alloc: Global, code: &Code) -> Result<Option<SequencePair>, AllocError>
        requires within { IsWithin code.now }
        ensures { IfOk result
            (λ made. (b : SequencePair) → made ≡ Some b → AreBranchesOf b code.now) }
    {
        let classes = code.classes.as_slice();
        let instructions = code.instructions.as_slice();
        if let Some(one) = FixedSequence::of(alloc, classes, instructions)? {
            return Ok(Some(SequencePair { one, other: None }));
        }
        let Some((place, number)) = first_option(instructions) else {
            return Ok(None);
        };
        let left = without(alloc, instructions, place)?;
        let Some(one) = FixedSequence::of(alloc, classes, &left)? else {
            return Ok(None);
        };
        let all = with_read(alloc, instructions, place, number)?;
        let Some(other) = FixedSequence::of(alloc, classes, &all)? else {
            return Ok(None);
        };
        Ok(Some(SequencePair {
            one,
            other: Some(other),
        }))
    }

    /// Whether a text of ASCII is one of these.
    pub(crate) fn is_found_in_ascii(&self, text: &str) -> bool
        requires { IsAscii text.now }
        ensures { (classes : List Class) → AreTabled self.now classes
            → result ≡ are_chained classes self.now (chars text.now) }
    {
        if self.one.is_found_in_ascii(text) {
            return true;
        }
        match &self.other {
            Some(chain) => chain.is_found_in_ascii(text),
            None => false,
        }
    }

    /// The same of any text, with the classes of the program.
    pub(crate) fn is_found(&self, classes: &[Class], text: &str) -> bool
        ensures { result ≡ are_chained classes.now self.now (chars text.now) }
    {
        if self.one.is_found(classes, text) {
            return true;
        }
        match &self.other {
            Some(chain) => chain.is_found(classes, text),
            None => false,
        }
    }
}
