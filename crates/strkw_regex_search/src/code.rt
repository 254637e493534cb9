//! Instructions one behind another, as they are written for a pattern.

ghost use Rattle.std.specs.Prelude.{◌≡◌, ◌≤◌, ◌+◌, ◌-◌, ◌++◌, [], ◌∷◌, List, false, length, take, drop, IfOk};
ghost use Rattle.strkw_regex_core.specs.machine.Program.{read, peek as spec_peek, concat_copies, read_count as spec_read_count, is_loop, has_loop, asks_boundary};
ghost use Rattle.strkw_regex_search.specs.machine.Instructions.{turn_instruction, instruction_of};
ghost use Rattle.strkw_regex_search.specs.declared.code.Class.{Class};

use std::alloc::{AllocError, Global};
use strkw_charset::tree::CharSet;

/// One character of the sets or, where `negated` holds, one outside them.
#[derive(Drop)]
pub struct Class {
    pub negated: bool,
    pub sets: Vec<CharSet>,
}

/// An instruction that reads no character.
#[derive(Clone, Copy)]
pub enum Turn {
    Start,
    End,
    Boundary,
    NoBoundary,
    /// Before the first of some alternatives, between two of them, and behind the last.
    Fork,
    Other,
    Join,
    /// Before and behind what stands any number of times.
    StarBegin,
    StarEnd,
    /// Before and behind what stands once or more.
    PlusBegin,
    PlusEnd,
    /// Before and behind the pattern of a lookbehind or a lookahead, which is negated or not.
    LookBegin(bool),
    LookEnd(bool),
}

#[derive(Clone, Copy)]
pub enum Instruction {
    /// One character of the class of this number; where `again` holds, once or more, and where `optional` holds, or
    /// none.
    Read {
        class: usize,
        again: bool,
        optional: bool,
    },
    /// Whether the class of this number has the next character, which is not read.
    Peek(usize),
    Turn(Turn),
}

impl Instruction {
    fn begins_loop(&self) -> bool
        ensures { (classes : List Class) → result ≡ is_loop (instruction_of classes self.now) }
    {
        matches!(self, Instruction::Turn(Turn::StarBegin | Turn::PlusBegin))
    }
}

#[derive(Drop)]
pub struct Code {
    pub classes: Vec<Class>,
    pub instructions: Vec<Instruction>,
}

impl Code {
    ghost use Rattle.strkw_regex_search.specs.machine.Machine.{instructions_of, IsWithin, Writes};

    pub fn new(alloc: Global) -> Code
        ensures nothing { instructions_of result ≡ [] }
        ensures within { IsWithin result }
        ensures classes { length result.classes.items ≡ 0 }
    {
        Code {
            classes: Vec::new(alloc),
            instructions: Vec::new(alloc),
        }
    }

    pub fn turn(&mut self, turn: Turn) -> Result<(), AllocError>
        ensures { IfOk result (λ _. Writes self.old self.new (turn_instruction turn ∷ [])) }
    {
        self.instructions.push(Instruction::Turn(turn))?;
        Ok(())
    }

    /// Reads a character of a class, which is added to the classes.
    pub fn read(
        &mut self,
        alloc: Global,
        negated: bool,
        sets: &[CharSet],
        again: bool,
        optional: bool,
    ) -> Result<(), AllocError>
        ensures { IfOk result (λ _. Writes self.old self.new
            (read again optional negated sets.now ∷ [])) }
    {
        let class = self.classes.len();
        self.classes.push(Class {
            negated,
            sets: Vec::from_slice(alloc, sets)?,
        })?;
        self.instructions.push(Instruction::Read {
            class,
            again,
            optional,
        })?;
        Ok(())
    }

    /// Asks whether a class has the next character. The class is added to the classes.
    pub(crate) fn peek(
        &mut self,
        alloc: Global,
        negated: bool,
        sets: &[CharSet],
    ) -> Result<(), AllocError>
        ensures { IfOk result (λ _. Writes self.old self.new (spec_peek negated sets.now ∷ [])) }
    {
        let class = self.classes.len();
        self.classes.push(Class {
            negated,
            sets: Vec::from_slice(alloc, sets)?,
        })?;
        self.instructions.push(Instruction::Peek(class))?;
        Ok(())
    }

    // Writes what stands from one place up to another once more.
    fn copy_once(&mut self, from: usize, end: usize) -> Result<(), AllocError>
        requires order { from ≤ end }
        requires within { end ≤ length self.old.instructions.items }
        ensures instructions { IfOk result (λ _. self.new.instructions.items
            ≡ self.old.instructions.items ++ drop from (take end self.old.instructions.items)) }
        ensures classes { IfOk result (λ _. self.new.classes ≡ self.old.classes) }
    {
        for place in from..end {
            let instruction = self.instructions[place];
            self.instructions.push(instruction)?;
        }
        Ok(())
    }

    /// Writes what stands from a place on once more, so often.
    pub(crate) fn copy(&mut self, from: usize, times: u32) -> Result<(), AllocError>
        requires { from ≤ length self.old.instructions.items }
        ensures { IfOk result (λ _. Writes self.old self.new
            (concat_copies times (drop from (instructions_of self.old)))) }
    {
        let end = self.instructions.len();
        for _ in 0..times {
            self.copy_once(from, end)?;
        }
        Ok(())
    }

    /// How many classes are read.
    pub(crate) fn read_count(&self) -> usize
        ensures { result ≡ spec_read_count (instructions_of self.now) }
    {
        let mut count = 0;
        for instruction in &self.instructions {
            if matches!(instruction, Instruction::Read { .. }) {
                count += 1;
            }
        }
        count
    }

    /// How many instructions stand before the first loop.
    pub(crate) fn before_loops(&self) -> usize
        ensures { has_loop (take result (instructions_of self.now)) ≡ false }
    {
        for (place, instruction) in self.instructions.as_slice().iter().enumerate() {
            if instruction.begins_loop() {
                return place;
            }
        }
        self.instructions.len()
    }

    /// Whether `\b` or `\B` stands in it.
    pub fn has_boundary(&self) -> bool
        ensures { result ≡ asks_boundary (instructions_of self.now) }
    {
        for instruction in &self.instructions {
            if matches!(
                instruction,
                Instruction::Turn(Turn::Boundary | Turn::NoBoundary)
            ) {
                return true;
            }
        }
        false
    }
}
