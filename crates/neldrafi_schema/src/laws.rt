//! Laws of the definitions. Each is a fact that a caller gains by the call; the calls do nothing.

ghost use Rattle.std.specs.Prelude.{◌↔◌, ◌≡◌, ◌≤◌, ℕ, List};
ghost use Rattle.serde_json.specs.Data.{Data};
ghost use Rattle.strkw_keywords.specs.Meanings.{Lists};
ghost use Rattle.neldrafi_schema.specs.Errors.{Error};
ghost use Rattle.neldrafi_schema.specs.Meaning.{enough, HasErrors, Reports, root_site};
ghost use Rattle.neldrafi_schema.specs.Schemas.{Schema};
ghost use Rattle.neldrafi_schema.specs.machine.Sound.{AreSound};

use strkw_keywords::laws::{reports_are_determined, reports_are_there};

/// An instance has at most one list of errors by a list of schemas.
pub fn errors_are_determined()
    ensures { (schemas : List Schema) (lists : Lists) (d : Data) (es others : List Error)
        → HasErrors schemas lists d es → HasErrors schemas lists d others → es ≡ others }
{
    reports_are_determined();
}

/// It cannot be that an instance has no list of errors by schemas in which each keyword has a meaning and each way that
/// does not enter the instance ends; so with `errors_are_determined` it has exactly one.
pub fn errors_are_there()
    ensures { (schemas : List Schema) (lists : Lists) (d : Data) → AreSound schemas
        → ((es : List Error) → HasErrors schemas lists d es → ⊥) → ⊥ }
{
    reports_are_there();
}

/// By such schemas the number of steps from schema to schema says nothing once it is enough: more steps give the same
/// errors.
pub fn more_steps_change_nothing()
    ensures { (schemas : List Schema) (lists : Lists) (d : Data) (steps : ℕ) (es : List Error)
        → AreSound schemas → enough schemas d ≤ steps
        → Reports schemas lists steps 0 d root_site es ↔ HasErrors schemas lists d es }
{}
