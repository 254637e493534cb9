//! Paths, as segments between slashes (RFC 3986, sections 3.3 and 5.2.4).

ghost use Rattle.std.specs.Prelude.{◌≡◌, ◌++◌, ◌||◌, [], IfOk, OnOk, string_bytes};
ghost use Rattle.neldrafi_uri.specs.Resolution.{but_last, dots_removed, first_left, is_dot, is_dot_dot, segments_of};
ghost use Rattle.neldrafi_uri.specs.machine.Texts.{begun, texts};

use std::alloc::{AllocError, Global};

/// The first segment of a path, and those with a slash before them (RFC 3986, section 3.3).
#[derive(Drop)]
pub(crate) struct Path<'a> {
    pub first: &'a str,
    pub others: Vec<&'a str>,
}

impl<'a> Path<'a> {
    ghost use Rattle.neldrafi_uri.specs.machine.Paths.{AddsSegment, path_in};

    /// A path as it stands (RFC 3986, section 5.2.2).
    pub fn unchanged(alloc: Global, path: &'a str) -> Path<'a>
        ensures first { result.first.now ≡ path.now }
        ensures others { result.others.items ≡ [] }
    {
        Path {
            first: path,
            others: Vec::new(alloc),
        }
    }

    /// The path of some segments, without `.` and `..` (RFC 3986, section 5.2.4).
    pub fn without_dots(alloc: Global, segments: &[&'a str]) -> Result<Path<'a>, AllocError>
        ensures { IfOk result (λ p. path_in p ≡ dots_removed (texts segments.now)) }
    {
        let [first, others @ ..] = behind_dots(segments) else {
            return Ok(Path::unchanged(alloc, ""));
        };
        let mut path = Path::unchanged(alloc, first);
        for (index, segment) in others.iter().enumerate() {
            path.add(segment, index + 1 == others.len())?;
        }
        Ok(path)
    }

    /// Appends the path to a text (RFC 3986, section 5.3).
    pub fn push_to(&self, text: &mut String) -> Result<(), AllocError>
        ensures { OnOk result (string_bytes text.new ≡ string_bytes text.old ++ path_in self.now) }
    {
        text.push_str(self.first)?;
        for segment in &self.others {
            text.push('/')?;
            text.push_str(segment)?;
        }
        Ok(())
    }

    // Adds a segment. At the end `.` and `..` leave an empty one.
    fn add(&mut self, segment: &'a str, is_last: bool) -> Result<(), AllocError>
        ensures { OnOk result (AddsSegment self.old segment.now is_last self.new) }
    {
        match segment {
            "." => {}
            ".." => self.go_up(),
            _ => return Ok(self.others.push(segment)?),
        }
        if is_last {
            self.others.push("")?;
        }
        Ok(())
    }

    // Takes the last segment away, the first one too.
    fn go_up(&mut self)
        ensures first { self.new.first.now
            ≡ first_left self.old.first.now (texts self.old.others.items) }
        ensures others { texts self.new.others.items ≡ but_last (texts self.old.others.items) }
    {
        if self.others.pop().is_none() {
            self.first = "";
        }
    }
}

/// The segments of a path (RFC 3986, section 3.3).
pub(crate) fn segments_of<'a>(alloc: Global, path: &'a str) -> Result<Vec<&'a str>, AllocError>
    ensures { IfOk result (λ s. texts s.items ≡ segments_of path.now) }
{
    path.split('/').collect(alloc)
}

// The segments behind each `.` and `..` that no other comes before.
fn behind_dots<'t, 'a>(segments: &'t [&'a str]) -> &'t [&'a str]
    ensures { begun (texts result.now) ≡ dots_removed (texts segments.now) }
{
    for (index, segment) in segments.iter().enumerate() {
        if !is_dots(segment) {
            return &segments[index..];
        }
    }
    &[]
}

// Whether a segment is `.` or `..`.
fn is_dots(segment: &str) -> bool
    ensures { result ≡ (is_dot segment.now || is_dot_dot segment.now) }
{
    segment == "." || segment == ".."
}
