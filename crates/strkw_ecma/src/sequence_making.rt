//! How the chain of a program is made, where it is one.

ghost use Rattle.std.specs.Prelude.{◌≡◌, ◌≤◌, ◌++◌, true, false, length, drop, replicate, IfOk, IfSome, IsTrue, Some, [], ◌∷◌};
ghost use Rattle.strkw_ecma.specs.machine.Chains.{once, repeated, AreChained, IsChainIn};
ghost use Rattle.strkw_ecma.specs.machine.Links.{AreTables, IsTableOf};
ghost use Rattle.strkw_regex_search.specs.machine.Instructions.{are_within};
ghost use Rattle.strkw_ecma.specs.declared.links.FixedSequence.{FixedSequence};
ghost use Rattle.strkw_regex_search.specs.declared.code.Instruction.TheVariants as instruction;
ghost use Rattle.strkw_regex_search.specs.declared.code.Instruction.TheVariants.{Read};
ghost use Rattle.strkw_regex_search.specs.declared.code.Turn.TheVariants as turn;

use crate::links::{ClassTable, FixedSequence, Often};
use std::alloc::{AllocError, Global};
use strkw_regex_core::marks::reads_class;
use strkw_regex_search::code::{Class, Instruction, Turn};

/// The most classes of a chain, each of which has a table.
const MOST_CLASSES: usize = 64;

// The one class that may be read more often, how often it is, and how many instructions that are.
#[derive(Clone, Copy)]
struct Middle {
    number: usize,
    often: Often,
    instructions: usize,
}

// What stands between `^` and `$`.
#[derive(Drop)]
struct Parts {
    first: Vec<usize>,
    middle: Middle,
    last: Vec<usize>,
}

// The class of which it reads one character.
fn once_number(written: &Instruction) -> Option<usize>
    ensures { IfSome result (λ number. written.now ≡ Read number false false) }
{
    match *written {
        Instruction::Read {
            class,
            again: false,
            optional: false,
        } => Some(class),
        _ => None,
    }
}

// Whether it reads one character of this class, or nothing.
fn may_read(written: &Instruction, number: usize) -> bool
    ensures { IsTrue result → written.now ≡ Read number false true }
{
    matches!(
        written,
        Instruction::Read {
            class,
            again: false,
            optional: true,
        } if *class == number
    )
}

// Whether it is `^`.
fn is_start(written: &Instruction) -> bool
    ensures { IsTrue result → written.now ≡ instruction.Turn turn.Start }
{
    matches!(written, Instruction::Turn(Turn::Start))
}

// Whether it is `$`.
fn is_end(written: &Instruction) -> bool
    ensures { IsTrue result → written.now ≡ instruction.Turn turn.End }
{
    matches!(written, Instruction::Turn(Turn::End))
}

// What stands between `^` and `$`, where these are the ends.
fn between_ends(instructions: &[Instruction]) -> Option<&[Instruction]>
    ensures { IfSome result (λ inner.
        instructions.now ≡ instruction.Turn turn.Start
        ∷ (inner.now ++ (instruction.Turn turn.End ∷ []))) }
{
    let (first, behind) = instructions.split_first()?;
    let (last, inner) = behind.split_last()?;
    if !is_start(first) {
        return None;
    }
    if !is_end(last) {
        return None;
    }
    Some(inner)
}

// The classes that are read once each before any other instruction.
fn once_numbers(alloc: Global, instructions: &[Instruction]) -> Result<Vec<usize>, AllocError>
    ensures within { IfOk result (λ numbers. length numbers.items ≤ length instructions.now) }
    ensures once { IfOk result (λ numbers. instructions.now
        ≡ once numbers.items ++ drop (length numbers.items) instructions.now) }
{
    let mut numbers = Vec::new(alloc);
    for instruction in instructions {
        let Some(number) = once_number(instruction) else {
            return Ok(numbers);
        };
        numbers.push(number)?;
    }
    Ok(numbers)
}

// How many instructions stand first that each read one character of this class, or nothing.
fn copy_count(instructions: &[Instruction], number: usize) -> usize
    ensures within { result ≤ length instructions.now }
    ensures copies { instructions.now
        ≡ replicate result (Read number false true) ++ drop result instructions.now }
{
    for (place, instruction) in instructions.iter().enumerate() {
        if !may_read(instruction, number) {
            return place;
        }
    }
    instructions.len()
}

// The one class with which the instructions begin. Where they do not, it is any class, and never read.
fn middle_of(instructions: &[Instruction]) -> Middle
    ensures within { result.instructions ≤ length instructions.now }
    ensures repeated { instructions.now
        ≡ repeated result.often result.number ++ drop result.instructions instructions.now }
{
    let (number, often, count) = match instructions.first() {
        Some(
            Instruction::Read {
                class,
                again: true,
                optional,
            },
        ) => (
            *class,
            if *optional {
                Often::AnyTimes
            } else {
                Often::SomeTimes
            },
            1,
        ),
        Some(
            Instruction::Read {
                class,
                again: false,
                optional: true,
            },
        ) => {
            let count = copy_count(instructions, *class);
            (*class, Often::AtMost(count), count)
        }
        _ => (0, Often::AtMost(0), 0),
    };
    Middle {
        number,
        often,
        instructions: count,
    }
}

// The parts of a program; none where it is no chain.
fn parts_of(alloc: Global, instructions: &[Instruction]) -> Result<Option<Parts>, AllocError>
    ensures { IfOk result (λ found. IfSome found (λ parts.
        AreChained instructions.now parts.first.items parts.middle.often parts.middle.number
        parts.last.items)) }
{
    let Some(inner) = between_ends(instructions) else {
        return Ok(None);
    };
    let first = once_numbers(alloc, inner)?;
    let behind = &inner[first.len()..];
    let middle = middle_of(behind);
    let rest = &behind[middle.instructions..];
    let last = once_numbers(alloc, rest)?;
    if last.len() < rest.len() {
        return Ok(None);
    }
    Ok(Some(Parts {
        first,
        middle,
        last,
    }))
}

// The table of a class.
fn class_table(class: &Class) -> ClassTable
    ensures { IsTableOf (Some class.now) result }
{
    let mut table = [false; 256];
    for byte in 0..128u8 {
        table[usize::from(byte)] = reads_class(Some(char::from(byte)), class.negated, &class.sets);
    }
    table
}

// The tables of all classes.
fn tables_of(alloc: Global, classes: &[Class]) -> Result<Vec<ClassTable>, AllocError>
    ensures { IfOk result (λ tables. AreTables classes.now tables.items) }
{
    let mut tables = Vec::new(alloc);
    for class in classes {
        tables.push(class_table(class))?;
    }
    Ok(tables)
}

impl FixedSequence {
    /// The chain of some instructions; none where they are no chain, or there is no class or more than a chain may
    /// have.
    pub(crate) fn of(
        alloc: Global,
        classes: &[Class],
        instructions: &[Instruction],
    ) -> Result<Option<FixedSequence>, AllocError>
        requires within { are_within (length classes.now) instructions.now ≡ true }
        ensures { IfOk result (λ made.
            (c : FixedSequence) → made ≡ Some c → IsChainIn c classes.now instructions.now) }
    {
        let Some(parts) = parts_of(alloc, instructions)? else {
            return Ok(None);
        };
        let Parts {
            first,
            middle,
            last,
        } = parts;
        if classes.len() > MOST_CLASSES || middle.number >= classes.len() {
            return Ok(None);
        }
        Ok(Some(FixedSequence {
            first,
            middle: middle.number,
            often: middle.often,
            last,
            tables: tables_of(alloc, classes)?,
        }))
    }
}
