//! Texts that stand one after the other in one run of bytes, each with its end.

ghost use Rattle.std.specs.Prelude.{◌≡◌, ◌<◌, ◌↔◌, ℕ, List, [], ◌∷◌, IsTrue, length, slice_index};
ghost use Rattle.std.specs.Option.{MatchOption};
ghost use Rattle.strkw_c.specs.Texts.{AreTextsFrom, numbers};

/// Where texts end, by numbers of 64 bits or of 32.
#[derive(Clone, Copy)]
pub(crate) enum Ends<'a> {
    Wide(&'a [usize]),
    Narrow(&'a [u32]),
}

impl<'a> Ends<'a> {
    /// The first of them, and the others.
    pub(crate) fn split_first(&self) -> Option<(usize, Ends<'a>)>
        ensures { MatchOption result (numbers self.now ≡ [])
            (λ split. numbers self.now ≡ split.0 ∷ numbers split.1) }
    {
        match self {
            Ends::Wide(ends) => {
                let (first, rest) = ends.split_first()?;
                Some((*first, Ends::Wide(rest)))
            }
            Ends::Narrow(ends) => {
                let (first, rest) = ends.split_first()?;
                Some((*first as usize, Ends::Narrow(rest)))
            }
        }
    }

    /// How many there are.
    pub(crate) fn len(&self) -> usize
        ensures { result ≡ length (numbers self.now) }
    {
        match self {
            Ends::Wide(ends) => ends.len(),
            Ends::Narrow(ends) => ends.len(),
        }
    }

    /// The end at a place.
    pub(crate) fn at(&self, place: usize) -> usize
        requires { place < length (numbers self.now) }
        ensures { result ≡ slice_index (numbers self.now) place }
    {
        match self {
            Ends::Wide(ends) => wide_at(ends, place),
            Ends::Narrow(ends) => narrow_at(ends, place),
        }
    }
}

fn wide_at(ends: &[usize], place: usize) -> usize
    requires { place < length ends.now }
    ensures { result ≡ slice_index ends.now place }
{
    ends[place]
}

fn narrow_at(ends: &[u32], place: usize) -> usize
    requires { place < length ends.now }
    ensures { result ≡ slice_index ends.now place }
{
    ends[place] as usize
}

/// Whether texts of these ends stand in the bytes from a start on: the start is not past the bytes, and no end is less
/// than the one before it, or past the bytes.
pub(crate) fn are_ends(bytes: &[u8], start: usize, ends: &Ends) -> bool
    ensures { IsTrue result
        ↔ ((texts : List (List ℕ)) × AreTextsFrom start bytes.now (numbers ends.now) texts) }
{
    if bytes.len() < start {
        return false;
    }
    let mut from = start;
    for place in 0..ends.len() {
        let end = ends.at(place);
        if end < from || bytes.len() < end {
            return false;
        }
        from = end;
    }
    true
}
