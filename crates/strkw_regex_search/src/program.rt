//! The program of a pattern, and a step of a search over it.

ghost use Rattle.std.specs.Prelude.{◌≡◌, ◌≤◌, true, false, length, take, IfOk};
ghost use Rattle.strkw_regex_core.specs.machine.Boundaries.{has_boundary as spec_has_boundary};
ghost use Rattle.strkw_regex_core.specs.machine.Positions.{leaves, step, mark_classes, classes as spec_classes};
ghost use Rattle.strkw_regex_core.specs.machine.Program.{program, has_loop};
ghost use Rattle.strkw_regex_core.specs.machine.Shape.{outline_pattern};
ghost use Rattle.strkw_regex_search.specs.machine.Instructions.{instructions, are_within};
ghost use Rattle.strkw_regex_core.specs.Size.{max_steps};
ghost use Rattle.strkw_regex_core.specs.machine.ProgramSteps.{steps};
ghost use Rattle.strkw_regex_search.specs.machine.Walk.{asked, followed, start_following};

use crate::code::{Class, Code, Instruction};
use crate::walk::Walk;
use crate::writing::write;
use std::alloc::{AllocError, Global};
use strkw_regex_core::counted_regex::CountedRegex;
use strkw_regex_core::marks::reads_class;
use strkw_regex_core::size::class_steps;

/// The most instructions of a pattern that is taken, each of which is a step.
pub(crate) const MOST_INSTRUCTIONS: usize = 5200;

/// A pattern as it was read, and its program. The marks of a search stand beside it, one for each class that is read.
#[derive(Drop)]
pub struct Program {
    pub outline: CountedRegex,
    pub code: Code,
    pub marks: usize,
    before_loops: usize,
    pub has_boundary: bool,
    ghost within: { are_within (length code.classes.items) code.instructions.items ≡ true },
    ghost right: { instructions code.classes.items code.instructions.items
        ≡ program (outline_pattern outline) },
    ghost counted: { marks ≡ spec_classes (outline_pattern outline) },
    ghost loops: { has_loop (take before_loops (program (outline_pattern outline))) ≡ false },
    ghost boundary: { has_boundary ≡ spec_has_boundary (outline_pattern outline) },
    ghost few: { length code.instructions.items ≤ max_steps },
    ghost few_classes: { length code.classes.items ≤ max_steps },
}

/// What a search has at hand beside the marks. It takes no memory.
#[derive(Drop)]
pub struct Room {
    walk: Walk,
    // Whether each class has the next character.
    reads: [bool; MOST_INSTRUCTIONS],
    ghost room: { length reads ≡ max_steps },
}

impl Room {
    ghost use Rattle.strkw_regex_search.specs.machine.Machine.{AreReads};

    pub fn new() -> Room {
        Room {
            walk: Walk::new(),
            reads: [false; MOST_INSTRUCTIONS],
        }
    }

    // Asks each class about the next character.
    fn look(&mut self, classes: &[Class], next: Option<char>)
        requires { length classes.now ≤ max_steps }
        ensures { AreReads next classes.now self.new.reads }
    {
        for (number, class) in classes.iter().enumerate() {
            self.reads[number] = reads_class(next, class.negated, &class.sets);
        }
    }
}

impl Program {
    ghost use Rattle.strkw_regex_search.specs.machine.Machine.{pattern_of, program_of, answers_of, AreReads, AreReadsOf};

    /// The program of what was read.
    pub fn of(alloc: Global, outline: CountedRegex) -> Result<Program, AllocError>
        requires { steps (outline_pattern outline) ≤ max_steps }
        ensures { IfOk result (λ p. pattern_of p ≡ outline_pattern outline) }
    {
        let mut code = Code::new(alloc);
        write(&outline, alloc, &mut code)?;
        Ok(Program {
            marks: code.read_count(),
            before_loops: code.before_loops(),
            has_boundary: code.has_boundary(),
            outline,
            code,
        })
    }

    /// How many steps a walk is: those of its instructions, and of its classes, each of which is asked once.
    pub fn work(&self) -> usize {
        let mut work = self.code.instructions.len();
        for class in &self.code.classes {
            work = work.saturating_add(class_steps(&class.sets) as usize);
        }
        work
    }

    /// Whether each class has the next character.
    pub fn reads(&self, alloc: Global, next: Option<char>) -> Result<Vec<bool>, AllocError>
        ensures { IfOk result (λ reads. AreReadsOf self.now next reads.items) }
    {
        let mut reads = Vec::new(alloc);
        for class in &self.code.classes {
            reads.push(reads_class(next, class.negated, &class.sets))?;
        }
        Ok(reads)
    }

    // Backwards over the instructions up to the first loop, for what is known of the loops.
    fn ask(
        &self,
        walk: &mut Walk,
        reads: &[bool],
        marks: &[bool],
        last: Option<char>,
        next: Option<char>,
    )
        requires fits { spec_classes (pattern_of self.now) ≤ length marks.now }
        requires reads { AreReads next self.now.code.classes.items reads.now }
        requires enough { length self.now.code.classes.items ≤ length reads.now }
        ensures { answers_of walk.new.again
            ≡ (asked last next (program_of self.now) marks.now).again }
    {
        let mut ahead = walk.begin_back();
        let instructions = self.code.instructions.as_slice();
        let mut at = self.marks;
        let mut place = instructions.len();
        'back: while place > self.before_loops {
            place -= 1;
            match instructions[place] {
                Instruction::Read { optional, .. } => {
                    at -= 1;
                    ahead = ahead.step_back_over_class(optional, marks[at]);
                }
                Instruction::Peek(class) => ahead = ahead.step_back_over_peek(reads[class]),
                Instruction::Turn(turn) => ahead = walk.step_back(turn, ahead, last, next),
            }
        }
    }

    // Forwards over the instructions, with what is known of the loops. Whether a way ends behind them.
    fn follow(
        &self,
        walk: &mut Walk,
        reads: &[bool],
        marks: &mut [bool],
        last: Option<char>,
        next: Option<char>,
    ) -> bool
        requires fits { spec_classes (pattern_of self.now) ≤ length marks.old }
        requires reads { AreReads next self.now.code.classes.items reads.now }
        requires enough { length self.now.code.classes.items ≤ length reads.now }
        ensures left { result
            ≡ (followed last next (program_of self.now)
            (start_following (answers_of walk.old.again)) marks.old).leaves }
        ensures marks { marks.new
            ≡ (followed last next (program_of self.now)
            (start_following (answers_of walk.old.again)) marks.old).marks }
    {
        walk.begin_forth();
        let mut enters = true;
        let mut at = 0;
        for instruction in &self.code.instructions {
            match *instruction {
                Instruction::Read {
                    class,
                    again,
                    optional,
                } => {
                    let mark = marks[at];
                    // Elsewhere nothing changes, as in most copies of a counted term.
                    if enters | mark {
                        marks[at] = (enters | again) & reads[class];
                        enters = optional | mark;
                    }
                    at += 1;
                }
                Instruction::Peek(class) => enters &= reads[class],
                Instruction::Turn(turn) => enters = walk.step_over(turn, enters, last, next),
            }
        }
        enters
    }

    /// A step of the search, between two characters: whether a way through the pattern ends there that went on from a
    /// mark or began there. The marks become those behind the next character.
    pub fn step(
        &self,
        room: &mut Room,
        marks: &mut [bool],
        last: Option<char>,
        next: Option<char>,
    ) -> bool
        requires fits { spec_classes (pattern_of self.now) ≤ length marks.old }
        ensures left { result
            ≡ leaves last next (mark_classes marks.old (pattern_of self.now)) true }
        ensures marks { mark_classes marks.new (pattern_of self.now)
            ≡ step last next (mark_classes marks.old (pattern_of self.now)) true }
        ensures length { length marks.new ≡ length marks.old }
    {
        room.look(&self.code.classes, next);
        self.step_by(&mut room.walk, &room.reads, marks, last, next)
    }

    /// The same, where it is known whether each class has the next character.
    pub fn step_by(
        &self,
        walk: &mut Walk,
        reads: &[bool],
        marks: &mut [bool],
        last: Option<char>,
        next: Option<char>,
    ) -> bool
        requires fits { spec_classes (pattern_of self.now) ≤ length marks.old }
        requires reads { AreReadsOf self.now next reads.now }
        ensures left { result
            ≡ leaves last next (mark_classes marks.old (pattern_of self.now)) true }
        ensures marks { mark_classes marks.new (pattern_of self.now)
            ≡ step last next (mark_classes marks.old (pattern_of self.now)) true }
        ensures length { length marks.new ≡ length marks.old }
    {
        self.ask(walk, reads, marks, last, next);
        self.follow(walk, reads, marks, last, next)
    }
}
