//! The target of a reference (RFC 3986, sections 5.2.2, 5.2.3 and 5.3).

ghost use Rattle.std.specs.Prelude.{◌≡◌, ◌++◌, IfOk, OnOk, string_bytes};
ghost use Rattle.neldrafi_uri.specs.Resolution.{base_segments, dots_removed, segments_of, target_path};
ghost use Rattle.neldrafi_uri.specs.machine.Paths.{path_in};
ghost use Rattle.neldrafi_uri.specs.machine.Texts.{around, components_in, text_in, texts};

use crate::components::Components;
use crate::paths::{Path, segments_of};
use std::alloc::{AllocError, Global};

/// The components of a target, with its path as segments (RFC 3986, section 5.2).
#[derive(Drop)]
pub(crate) struct Target<'a> {
    pub scheme: Option<&'a str>,
    pub authority: Option<&'a str>,
    pub path: Path<'a>,
    pub query: Option<&'a str>,
}

impl<'a> Target<'a> {
    ghost use Rattle.neldrafi_uri.specs.Resolution.{target, text_of};
    ghost use Rattle.neldrafi_uri.specs.machine.Targets.{target_in};

    /// What a reference refers to by a base URI (RFC 3986, section 5.2.2).
    pub fn of(
        alloc: Global,
        base: Components<'a>,
        reference: Components<'a>,
    ) -> Result<Target<'a>, AllocError>
        ensures { IfOk result (λ t. target_in t
            ≡ target (components_in base.entry) (components_in reference.entry)) }
    {
        if reference.scheme.is_some() {
            return Ok(Target {
                scheme: reference.scheme,
                authority: reference.authority,
                path: without_dots(alloc, reference.path)?,
                query: reference.query,
            });
        }
        if reference.authority.is_some() {
            return Ok(Target {
                scheme: base.scheme,
                authority: reference.authority,
                path: without_dots(alloc, reference.path)?,
                query: reference.query,
            });
        }
        let (path, query) = if reference.path.is_empty() {
            (
                Path::unchanged(alloc, base.path),
                reference.query.or(base.query),
            )
        } else {
            (target_path(alloc, base, reference.path)?, reference.query)
        };
        Ok(Target {
            scheme: base.scheme,
            authority: base.authority,
            path,
            query,
        })
    }

    /// The target as a text (RFC 3986, section 5.3).
    pub fn text(&self, alloc: Global) -> Result<String, AllocError>
        ensures { IfOk result (λ t. string_bytes t ≡ text_of (target_in self.now)) }
    {
        let mut text = String::new(alloc);
        push_around(&mut text, "", self.scheme, ":")?;
        push_around(&mut text, "//", self.authority, "")?;
        self.path.push_to(&mut text)?;
        push_around(&mut text, "?", self.query, "")?;
        Ok(text)
    }
}

// A path without `.` and `..`.
fn without_dots<'a>(alloc: Global, path: &'a str) -> Result<Path<'a>, AllocError>
    ensures { IfOk result (λ p. path_in p ≡ dots_removed (segments_of path.now)) }
{
    let segments = segments_of(alloc, path)?;
    Path::without_dots(alloc, segments.as_slice())
}

// The path to which a path that is not empty leads from a base URI.
fn target_path<'a>(
    alloc: Global,
    base: Components<'a>,
    path: &'a str,
) -> Result<Path<'a>, AllocError>
    ensures { IfOk result (λ p. path_in p ≡ target_path (components_in base.entry) path.now) }
{
    if path.starts_with('/') {
        return without_dots(alloc, path);
    }
    let mut segments = base_segments(alloc, base)?;
    let own = segments_of(alloc, path)?;
    segments.extend_from_slice(own.as_slice())?;
    Path::without_dots(alloc, segments.as_slice())
}

// The segments of a base URI that come before those of a relative path (section 5.2.3).
fn base_segments<'a>(alloc: Global, base: Components<'a>) -> Result<Vec<&'a str>, AllocError>
    ensures { IfOk result (λ s. texts s.items ≡ base_segments (components_in base.entry)) }
{
    if base.authority.is_some() && base.path.is_empty() {
        return Ok(vec![in alloc; ""]?);
    }
    let mut segments = segments_of(alloc, base.path)?;
    let _ = segments.pop();
    Ok(segments)
}

// Appends a component, if there is one, between two texts.
fn push_around(
    text: &mut String,
    before: &str,
    component: Option<&str>,
    behind: &str,
) -> Result<(), AllocError>
    ensures { OnOk result (string_bytes text.new
        ≡ string_bytes text.old ++ around before.now (text_in component.entry) behind.now) }
{
    let Some(component) = component else {
        return Ok(());
    };
    text.push_str(before)?;
    text.push_str(component)?;
    text.push_str(behind)
}
