//! What is asked of a schema object, given by its bytes or compiled before.

ghost use Rattle.std.specs.Prelude.{◌≡◌, ℕ, List, None, Some, IfErr, IfOk};
ghost use Rattle.serde_json.specs.Data.{Members};
ghost use Rattle.strkw_ecma.specs.machine.Engine.{engine_outcome};
ghost use Rattle.strkw_keywords.specs.Demands.{IsInUse};
ghost use Rattle.strkw_keywords.specs.Handed.{lists_of};
ghost use Rattle.strkw_keywords.specs.Object.{FirstRefusal, Settings};
ghost use Rattle.strkw_object.specs.Compiled.{IsCompiledFrom, keywords_demands};
ghost use Rattle.strkw_c.specs.Settings.{settings_for};
ghost use Rattle.strkw_c.specs.Verdicts.{Fails, IsSchema};
ghost use Rattle.strkw_c.specs.declared.schemas.Failure.TheVariants.{Memory};

use crate::schemas::{Failure, compile};
use crate::settings::Choices;
use crate::tasks::{Task, run};
use std::alloc::{AllocError, Global};
use strkw_ecma::EcmaMatcher;
use strkw_keywords::{Checks, Options};
use strkw_object::StringKeywords;
use strkw_object::laws::lists_of_compile_are_in_use;
use strkw_report::Draft;

/// What is asked of a compiled object.
pub(crate) trait Question {
    /// Whether it can be asked.
    ghost can_be_asked: { Self → Type 0 };

    /// Whether bytes answer it, by a schema object under settings.
    ghost is_answered_by: { Self → Settings → Members → List ℕ → Type 0 };

    /// The answer by a compiled object, with the checks that it was compiled with.
    fn ask(
        &self,
        alloc: Global,
        keywords: &StringKeywords<EcmaMatcher>,
        checks: &Checks,
    ) -> Result<Vec<u8>, AllocError>
        requires askable { can_be_asked self.now }
        requires compiled { (s : Settings) × (object : Members)
            × (s.lists ≡ lists_of admits accepts is_encoding decoding checks.now)
            × IsCompiledFrom engine_outcome s object keywords.now }
        requires in_use { IsInUse (keywords_demands engine_outcome keywords.now)
            (lists_of admits accepts is_encoding decoding checks.now) }
        ensures { IfOk result (λ made. (s : Settings) (object : Members)
            → s.lists ≡ lists_of admits accepts is_encoding decoding checks.now
            → IsCompiledFrom engine_outcome s object keywords.now
            → is_answered_by self.now s object made.items) };
}

/// The answer to a question by the schema object of some bytes.
pub(crate) fn answer_to<Q: Question>(
    alloc: Global,
    draft: Draft,
    choices: Choices,
    schema: &[u8],
    question: &Q,
) -> Result<Vec<u8>, Failure>
    requires { Q.can_be_asked question.now }
    ensures done { IfOk result (λ made. (object : Members) × IsSchema schema.now (Some object)
        × FirstRefusal (settings_for draft choices) object None
        × Q.is_answered_by question.now (settings_for draft choices) object made.items) }
    ensures failed { IfErr result
        (λ failure. Fails failure (settings_for draft choices) schema.now) }
{
    run(alloc, draft, choices, &OfSchema { schema, question })
}

/// The answer to a question by an object that was compiled under a draft and choices.
pub(crate) fn answer_by<Q: Question>(
    alloc: Global,
    draft: Draft,
    choices: Choices,
    keywords: &StringKeywords<EcmaMatcher>,
    question: &Q,
) -> Result<Vec<u8>, Failure>
    requires askable { Q.can_be_asked question.now }
    requires compiled { (object : Members)
        × IsCompiledFrom engine_outcome (settings_for draft choices) object keywords.now }
    ensures done { IfOk result (λ made. (object : Members)
        → IsCompiledFrom engine_outcome (settings_for draft choices) object keywords.now
        → Q.is_answered_by question.now (settings_for draft choices) object made.items) }
    ensures failed { IfErr result (λ failure. failure ≡ Memory) }
{
    run(alloc, draft, choices, &OfCompiled { keywords, question })
}

// A question, asked of the schema object of some bytes.
#[derive(Clone, Copy)]
struct OfSchema<'a, Q> {
    schema: &'a [u8],
    question: &'a Q,
}

impl<Q: Question> Task for OfSchema<'_, Q> {
    type Made = Vec<u8>;

    ghost schema = { λ task. Some task.schema.now };

    ghost needs = { λ task _. Q.can_be_asked task.question.now };

    ghost makes = { λ task s made. (object : Members) × IsSchema task.schema.now (Some object)
        × FirstRefusal s object None × Q.is_answered_by task.question.now s object made.items };

    fn run(
        &self,
        alloc: Global,
        draft: Draft,
        options: Options,
        checks: &Checks,
    ) -> Result<Vec<u8>, Failure> {
        let keywords = compile(alloc, draft, options, checks, self.schema)?;
        Ok(self.question.ask(alloc, &keywords, checks)?)
    }
}

// A question, asked of a compiled object.
#[derive(Clone, Copy)]
struct OfCompiled<'a, Q> {
    keywords: &'a StringKeywords<EcmaMatcher>,
    question: &'a Q,
}

impl<Q: Question> Task for OfCompiled<'_, Q> {
    type Made = Vec<u8>;

    ghost schema = { λ _. None };

    ghost needs = { λ task s. Q.can_be_asked task.question.now
        × ((object : Members) × IsCompiledFrom engine_outcome s object task.keywords.now) };

    ghost makes = { λ task s made. (object : Members)
        → IsCompiledFrom engine_outcome s object task.keywords.now
        → Q.is_answered_by task.question.now s object made.items };

    fn run(
        &self,
        alloc: Global,
        _draft: Draft,
        _options: Options,
        checks: &Checks,
    ) -> Result<Vec<u8>, Failure> {
        lists_of_compile_are_in_use::<EcmaMatcher>();
        Ok(self.question.ask(alloc, self.keywords, checks)?)
    }
}
