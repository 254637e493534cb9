//! The checks that a draft and options register, and what is done with them.

ghost use Rattle.std.specs.Prelude.{◌≡◌, ◌≤◌, ℕ, List, Option, IfErr, IfOk, length};
ghost use Rattle.strkw_companions.specs.Companions as companions;
ghost use Rattle.strkw_companions.specs.declared.companion.Companion.TheVariants.{Email, IdnEmail, IdnHostname, Regex};
ghost use Rattle.strkw_keywords.specs.Handed.{lists_of};
ghost use Rattle.strkw_c.specs.Settings.{lists_for, registered_companions, settings_by, settings_for};
ghost use Rattle.strkw_c.specs.Verdicts.{FailsOn};

use crate::schemas::Failure;
use crate::settings::Choices;
use std::alloc::Global;
use strkw_companions::{Companion, companions_of};
use strkw_keywords::{Checks, Format, NamedFormat, Options};
use strkw_report::Draft;

/// What is done with the checks that are registered.
pub(crate) trait Task {
    ghost use Rattle.strkw_keywords.specs.Object.{Settings};

    /// What it makes.
    type Made: Drop;

    /// The bytes of the schema object that it compiles, if it compiles one.
    ghost schema: { Self → Option (List ℕ) };

    /// What it needs, under settings.
    ghost needs: { Self → Settings → Type 0 };

    /// Whether it makes this.
    ghost makes: { Self → Settings → Self.Made → Type 0 };

    /// Does it, under a draft, options and checks.
    fn run(
        &self,
        alloc: Global,
        draft: Draft,
        options: Options,
        checks: &Checks,
    ) -> Result<Self::Made, Failure>
        requires { needs self.now
            (settings_by draft options (lists_of admits accepts is_encoding decoding checks.now)) }
        ensures made { IfOk result (λ made. makes self.now (settings_by draft options
            (lists_of admits accepts is_encoding decoding checks.now)) made) }
        ensures failed { IfErr result (λ failure. FailsOn failure (settings_by draft options
            (lists_of admits accepts is_encoding decoding checks.now)) (schema self.now)) };
}

/// Does a task with the companions registered, where these are chosen.
pub(crate) fn run<T: Task>(
    alloc: Global,
    draft: Draft,
    choices: Choices,
    task: &T,
) -> Result<T::Made, Failure>
    requires { T.needs task.now (settings_for draft choices) }
    ensures made { IfOk result (λ made. T.makes task.now (settings_for draft choices) made) }
    ensures failed { IfErr result
        (λ failure. FailsOn failure (settings_for draft choices) (T.schema task.now)) }
{
    let email = Box::new(alloc, Companion::Email)?;
    let regex = Box::new(alloc, Companion::Regex)?;
    let idn_email = Box::new(alloc, Companion::IdnEmail)?;
    let host = Box::new(alloc, Companion::IdnHostname)?;
    run_with(alloc, draft, choices, email, regex, idn_email, host, task)
}

// The same with a check of each companion.
fn run_with<T: Task>(
    alloc: Global,
    draft: Draft,
    choices: Choices,
    email: Box<dyn Format>,
    regex: Box<dyn Format>,
    idn_email: Box<dyn Format>,
    host: Box<dyn Format>,
    task: &T,
) -> Result<T::Made, Failure>
    requires ready { T.needs task.now (settings_for draft choices) }
    requires email { (text : List ℕ) → admits email text ≡ companions.admits Email text }
    requires regex { (text : List ℕ) → admits regex text ≡ companions.admits Regex text }
    requires idn_email { (text : List ℕ)
        → admits idn_email text ≡ companions.admits IdnEmail text }
    requires host { (text : List ℕ) → admits host text ≡ companions.admits IdnHostname text }
    ensures made { IfOk result (λ made. T.makes task.now (settings_for draft choices) made) }
    ensures failed { IfErr result
        (λ failure. FailsOn failure (settings_for draft choices) (T.schema task.now)) }
{
    // The companions of a draft are the first of these.
    let formats = vec![in alloc;
        NamedFormat {
            name: String::from_str(alloc, Companion::Email.as_str())?,
            check: email,
        },
        NamedFormat {
            name: String::from_str(alloc, Companion::Regex.as_str())?,
            check: regex,
        },
        NamedFormat {
            name: String::from_str(alloc, Companion::IdnEmail.as_str())?,
            check: idn_email,
        },
        NamedFormat {
            name: String::from_str(alloc, Companion::IdnHostname.as_str())?,
            check: host,
        },
    ]?;
    let checks = Checks {
        formats: &formats[..registered_count(draft, choices)],
        media_types: &[],
        codecs: &[],
    };
    run_by(alloc, draft, choices, &checks, task)
}

// The same with the checks that are registered.
fn run_by<T: Task>(
    alloc: Global,
    draft: Draft,
    choices: Choices,
    checks: &Checks,
    task: &T,
) -> Result<T::Made, Failure>
    requires ready { T.needs task.now (settings_for draft choices) }
    requires registered { lists_of admits accepts is_encoding decoding checks.now
        ≡ lists_for draft choices.companions }
    ensures made { IfOk result (λ made. T.makes task.now (settings_for draft choices) made) }
    ensures failed { IfErr result
        (λ failure. FailsOn failure (settings_for draft choices) (T.schema task.now)) }
{
    task.run(alloc, draft, choices.options, checks)
}

// How many companions are formats that are checked.
fn registered_count(draft: Draft, choices: Choices) -> usize
    ensures count { result ≡ length (registered_companions draft choices.companions) }
    ensures few { result ≤ 4 }
{
    if choices.companions {
        companions_of(draft).len()
    } else {
        0
    }
}
