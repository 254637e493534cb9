//! How a schema object comes to be kept, and what it answers then.

ghost use Rattle.std.specs.Prelude.{◌≡◌, ⊤, List, Option, Some, IfErr, IfOk, box_value};
ghost use Rattle.serde_json.specs.Data.{Members};
ghost use Rattle.strkw_ecma.specs.machine.Engine.{engine_outcome};
ghost use Rattle.strkw_object.specs.Compiled.{IsCompiledFrom};
ghost use Rattle.strkw_keywords.specs.Object.{Settings};
ghost use Rattle.strkw_c.specs.Kept.{IsKept, IsKeptOf};
ghost use Rattle.strkw_c.specs.Settings.{settings_for};
ghost use Rattle.strkw_c.specs.Verdicts.{Fails, IsSchema};

use crate::kept::Kept;
use crate::questions::{Question, answer_by};
use crate::schemas::{Failure, compile};
use crate::settings::Choices;
use crate::tasks::{Task, run};
use std::alloc::Global;
use strkw_ecma::EcmaMatcher;
use strkw_keywords::{Checks, Options};
use strkw_object::StringKeywords;
use strkw_report::Draft;

impl Kept {
    /// The schema object of some bytes, compiled under a draft and choices.
    pub(crate) fn of(
        alloc: Global,
        draft: Draft,
        choices: Choices,
        schema: &[u8],
    ) -> Result<Box<Kept>, Failure>
        ensures kept { IfOk result (λ kept. (object : Members)
            × IsSchema schema.now (Some object)
            × IsKeptOf (box_value kept) (settings_for draft choices) object) }
        ensures failed { IfErr result
            (λ failure. Fails failure (settings_for draft choices) schema.now) }
    {
        let keywords = run(alloc, draft, choices, &Compiling { schema })?;
        let kept = Kept {
            draft,
            choices,
            keywords,
        };
        Ok(Box::new(alloc, kept)?)
    }

    /// The answer to a question.
    pub(crate) fn answer_to<Q: Question>(
        &self,
        alloc: Global,
        question: &Q,
    ) -> Result<Vec<u8>, Failure>
        requires askable { Q.can_be_asked question.now }
        requires kept { IsKept self.now }
        ensures done { IfOk result (λ made. (s : Settings) (object : Members)
            → IsKeptOf self.now s object → Q.is_answered_by question.now s object made.items) }
    {
        answer_by(alloc, self.draft, self.choices, &self.keywords, question)
    }
}

// The schema object of some bytes, compiled.
#[derive(Clone, Copy)]
struct Compiling<'a> {
    schema: &'a [u8],
}

impl Task for Compiling<'_> {
    type Made = StringKeywords<EcmaMatcher>;

    ghost schema = { λ task. Some task.schema.now };

    ghost needs = { λ _ _. ⊤ };

    ghost makes = { λ task s keywords. (object : Members) × IsSchema task.schema.now (Some object)
        × IsCompiledFrom engine_outcome s object keywords };

    fn run(
        &self,
        alloc: Global,
        draft: Draft,
        options: Options,
        checks: &Checks,
    ) -> Result<StringKeywords<EcmaMatcher>, Failure> {
        compile(alloc, draft, options, checks, self.schema)
    }
}
