//! Why a line was not read, or not answered.

ghost use Rattle.std.specs.Prelude.{◌≡◌};
ghost use Rattle.strkw_cli.specs.Unread.{unread_by};
ghost use Rattle.strkw_cli.specs.declared.unread.Unread.TheVariants.{NotJson, Memory};
ghost use Rattle.strkw_cli.specs.declared.unread.Unanswered.{Unanswered};

use json::Invalid;
use std::alloc::AllocError;
use strkw_json::JsonError;

/// Why no value was read.
#[derive(Clone, Copy)]
pub(super) enum Unread {
    /// There is none, or one that `serde_json` refuses.
    NotJson,
    /// Out of memory.
    Memory,
    /// The line has the text of the cached object, and other tokens.
    Differs,
}

impl From<JsonError> for Unread {
    ghost from_gives = { λ e u. u ≡ unread_by e };

    fn from(e: JsonError) -> Self {
        match e {
            JsonError::NotJson => Self::NotJson,
            JsonError::Memory => Self::Memory,
        }
    }
}

impl From<AllocError> for Unread {
    ghost from_gives = { λ _ u. u ≡ Memory };

    fn from(_e: AllocError) -> Self {
        Self::Memory
    }
}

impl From<Invalid> for Unread {
    ghost from_gives = { λ _ u. u ≡ NotJson };

    fn from(_e: Invalid) -> Self {
        Self::NotJson
    }
}

/// Why a line was not answered.
#[derive(Clone, Copy)]
pub(super) enum Unanswered {
    /// Out of memory.
    Memory,
    /// The line has the text of the cached object, and other tokens or another request.
    Differs,
}

impl From<AllocError> for Unanswered {
    ghost from_gives = { λ _ u. u ≡ Unanswered.Memory };

    fn from(_e: AllocError) -> Self {
        Self::Memory
    }
}
