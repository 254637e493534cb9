//! Readers of what stands at the front of a text.
ghost use Rattle.std.specs.Prelude.{◌≡◌, ◌++◌, ◌∷◌, MatchOption};
ghost use Rattle.std.specs.Str.Parse.{AllDigits};
ghost use Rattle.strkw_text.specs.Fronts.{NotFirst};
ghost use Rattle.strkw_time.specs.Readers.{StartsWithNoDigit};

/// What follows the byte, where it stands first.
pub(crate) fn after_byte(bytes: &[u8], wanted: u8) -> Option<&[u8]>
    ensures { MatchOption result (NotFirst wanted bytes.now)
        (λ rest. bytes.now ≡ wanted ∷ rest.now) }
{
    if bytes.len() == 0 {
        return None;
    }
    if bytes[0] != wanted {
        return None;
    }
    Some(&bytes[1..])
}

/// The digits at the front, and what follows them.
pub(crate) fn split_digits(bytes: &[u8]) -> (&[u8], &[u8])
    ensures joined { bytes.now ≡ result.0.now ++ result.1.now }
    ensures digits { AllDigits 10 result.0.now }
    ensures stops { StartsWithNoDigit result.1.now }
{
    let mut len = 0;
    for b in bytes {
        if !b.is_ascii_digit() {
            break;
        }
        len += 1;
    }
    bytes.split_at(len)
}
