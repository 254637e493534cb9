//! Answers requests that are in memory: one line, and a whole input.

ghost use Rattle.std.specs.Prelude.{IfOk};
ghost use Rattle.strkw_cli.specs.Answer.{IsAnswer};

use anyhow::Result;
use std::alloc::{AllocError, Global};
use strkw_cli::{MemorySink, MemorySource, answer, run};

/// The answer to one line.
pub fn answer_to(alloc: Global, line: &[u8]) -> Result<Vec<u8>, AllocError>
    ensures { IfOk result (λ made. IsAnswer line.now made.items) }
{
    let mut made = Vec::new(alloc);
    answer(alloc, line, &mut made)?;
    Ok(made)
}

/// The answers to an input.
pub fn answers_to(alloc: Global, input: &[u8]) -> Result<Vec<u8>> {
    let mut source = MemorySource::new(input.to_vec(alloc)?);
    let mut sink = MemorySink::new(alloc);
    run(alloc, &mut source, &mut sink)?;
    Ok(sink.bytes().to_vec(alloc)?)
}
