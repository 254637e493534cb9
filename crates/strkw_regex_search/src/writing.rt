//! How the program of an outline is written.

ghost use Rattle.std.specs.Prelude.{◌≡◌, ◌≤◌, ◌+◌, ◌++◌, length, IfOk};
ghost use Rattle.strkw_regex_core.specs.machine.MarkedPattern.{empty, alt, star, plus};
ghost use Rattle.strkw_regex_core.specs.machine.Times.{quantified_pattern, repetition};
ghost use Rattle.strkw_regex_core.specs.machine.Program.{glance, program, alternatives};
ghost use Rattle.strkw_regex_core.specs.machine.Shape.{outline_pattern, quantifier_of};
ghost use Rattle.strkw_regex_search.specs.machine.Machine.{Writes};

use crate::code::{Code, Turn};
use std::alloc::{AllocError, Global};
use strkw_regex_core::counted_regex::{CountedRegex, Quantifier};

/// Writes its program behind what is written. What is repeated is written once, and then copied.
#[cycle(write)]
pub(crate) fn write(
    outline: &CountedRegex,
    alloc: Global,
    code: &mut Code,
) -> Result<(), AllocError>
    ensures { IfOk result (λ _. Writes code.old code.new (program (outline_pattern outline.now))) }
{
    match outline {
        CountedRegex::Empty => Ok(()),
        CountedRegex::Class { negated, sets } => code.read(alloc, *negated, sets, false, false),
        CountedRegex::Start => code.turn(Turn::Start),
        CountedRegex::End => code.turn(Turn::End),
        CountedRegex::Boundary => code.turn(Turn::Boundary),
        CountedRegex::NoBoundary => code.turn(Turn::NoBoundary),
        CountedRegex::Then(first, second) => {
            write(first, alloc, code)?;
            write(second, alloc, code)
        }
        CountedRegex::Or(one, other) => {
            if one.is_nothing() {
                write_option(other, alloc, code)
            } else {
                code.turn(Turn::Fork)?;
                write_beside(one, alloc, code)?;
                code.turn(Turn::Other)?;
                write(other, alloc, code)?;
                code.turn(Turn::Join)
            }
        }
        CountedRegex::Repeated(quantifier, body) => write_repeated(body, alloc, code, *quantifier),
        CountedRegex::Behind(negated, body) => {
            code.turn(Turn::LookBegin(*negated))?;
            write(body, alloc, code)?;
            code.turn(Turn::LookEnd(*negated))
        }
        CountedRegex::Ahead(negated, body) => {
            code.turn(Turn::LookBegin(*negated))?;
            write_glance(body, alloc, code)?;
            code.turn(Turn::LookEnd(*negated))
        }
    }
}

// What a lookahead looks for.
#[cycle(write_glance)]
fn write_glance(outline: &CountedRegex, alloc: Global, code: &mut Code) -> Result<(), AllocError>
    ensures { IfOk result (λ _. Writes code.old code.new (glance (outline_pattern outline.now))) }
{
    match outline {
        CountedRegex::Class { negated, sets } => code.peek(alloc, *negated, sets),
        CountedRegex::Start => code.turn(Turn::Start),
        CountedRegex::End => code.turn(Turn::End),
        CountedRegex::Boundary => code.turn(Turn::Boundary),
        CountedRegex::NoBoundary => code.turn(Turn::NoBoundary),
        CountedRegex::Then(_, second) => write_glance(second, alloc, code),
        CountedRegex::Or(one, other) => {
            code.turn(Turn::Fork)?;
            write_glance(one, alloc, code)?;
            code.turn(Turn::Other)?;
            write_glance(other, alloc, code)?;
            code.turn(Turn::Join)
        }
        CountedRegex::Repeated(quantifier, body) => match quantifier {
            Quantifier::ZeroOrOne => {
                code.turn(Turn::Fork)?;
                code.turn(Turn::Other)?;
                write_glance(body, alloc, code)?;
                code.turn(Turn::Join)
            }
            _ => Ok(()),
        },
        CountedRegex::Ahead(negated, body) => {
            code.turn(Turn::LookBegin(*negated))?;
            write_glance(body, alloc, code)?;
            code.turn(Turn::LookEnd(*negated))
        }
        CountedRegex::Empty | CountedRegex::Behind(..) => Ok(()),
    }
}

// The same, among alternatives.
#[cycle(write)]
fn write_beside(outline: &CountedRegex, alloc: Global, code: &mut Code) -> Result<(), AllocError>
    ensures { IfOk result
        (λ _. Writes code.old code.new (alternatives (outline_pattern outline.now))) }
{
    match outline {
        CountedRegex::Or(one, other) => {
            write_beside(one, alloc, code)?;
            code.turn(Turn::Other)?;
            write(other, alloc, code)
        }
        CountedRegex::Repeated(quantifier, body) => match quantifier {
            Quantifier::ZeroOrOne => {
                code.turn(Turn::Other)?;
                write(body, alloc, code)
            }
            Quantifier::ZeroOrMore
            | Quantifier::OneOrMore
            | Quantifier::Exactly(_)
            | Quantifier::AtLeast(_)
            | Quantifier::FromTo(..) => write(outline, alloc, code),
        },
        _ => write(outline, alloc, code),
    }
}

#[cycle(write)]
fn write_repeated(
    outline: &CountedRegex,
    alloc: Global,
    code: &mut Code,
    quantifier: Quantifier,
) -> Result<(), AllocError>
    ensures { IfOk result (λ _. Writes code.old code.new
        (program (quantified_pattern (quantifier_of quantifier) (outline_pattern outline.now)))) }
{
    match quantifier {
        Quantifier::ZeroOrMore => write_star(outline, alloc, code),
        Quantifier::OneOrMore => write_plus(outline, alloc, code),
        Quantifier::ZeroOrOne => write_option(outline, alloc, code),
        Quantifier::Exactly(count) => write_copies(outline, alloc, code, count),
        Quantifier::AtLeast(count) => {
            write_copies(outline, alloc, code, count)?;
            write_star(outline, alloc, code)
        }
        Quantifier::FromTo(least, most) => {
            write_copies(outline, alloc, code, least)?;
            write_options(outline, alloc, code, most.saturating_sub(least))
        }
    }
}

#[cycle(write)]
fn write_star(outline: &CountedRegex, alloc: Global, code: &mut Code) -> Result<(), AllocError>
    ensures { IfOk result
        (λ _. Writes code.old code.new (program (star (outline_pattern outline.now)))) }
{
    if let Some((negated, sets)) = outline.class() {
        return code.read(alloc, negated, sets, true, true);
    }
    code.turn(Turn::StarBegin)?;
    write(outline, alloc, code)?;
    code.turn(Turn::StarEnd)
}

#[cycle(write)]
fn write_plus(outline: &CountedRegex, alloc: Global, code: &mut Code) -> Result<(), AllocError>
    ensures { IfOk result
        (λ _. Writes code.old code.new (program (plus (outline_pattern outline.now)))) }
{
    if let Some((negated, sets)) = outline.class() {
        return code.read(alloc, negated, sets, true, false);
    }
    code.turn(Turn::PlusBegin)?;
    write(outline, alloc, code)?;
    code.turn(Turn::PlusEnd)
}

// What may be missing.
#[cycle(write)]
fn write_option(outline: &CountedRegex, alloc: Global, code: &mut Code) -> Result<(), AllocError>
    ensures { IfOk result (λ _. Writes code.old code.new (program (alt empty
        (outline_pattern outline.now)))) }
{
    if let Some((negated, sets)) = outline.class() {
        return code.read(alloc, negated, sets, false, true);
    }
    code.turn(Turn::Fork)?;
    code.turn(Turn::Other)?;
    write(outline, alloc, code)?;
    code.turn(Turn::Join)
}

// So many copies, one behind the other.
#[cycle(write)]
fn write_copies(
    outline: &CountedRegex,
    alloc: Global,
    code: &mut Code,
    count: u32,
) -> Result<(), AllocError>
    ensures { IfOk result (λ _. Writes code.old code.new (program (repetition count
        (outline_pattern outline.now)))) }
{
    if count == 0 {
        return Ok(());
    }
    let from = code.instructions.len();
    write(outline, alloc, code)?;
    code.copy(from, count - 1)
}

// The same, where each may be missing.
#[cycle(write)]
fn write_options(
    outline: &CountedRegex,
    alloc: Global,
    code: &mut Code,
    count: u32,
) -> Result<(), AllocError>
    ensures { IfOk result (λ _. Writes code.old code.new
        (program (repetition count (alt empty (outline_pattern outline.now))))) }
{
    if count == 0 {
        return Ok(());
    }
    let from = code.instructions.len();
    write_option(outline, alloc, code)?;
    code.copy(from, count - 1)
}
