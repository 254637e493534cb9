//! The components of a URI reference (RFC 3986, section 3 and appendix B).

ghost use Rattle.std.specs.Prelude.{◌≡◌, ◌<◌, option_map};
ghost use Rattle.neldrafi_uri.specs.Components.{authority_of, before, behind, behind_authority, behind_scheme, fragment_of, is_scheme, scheme_of, without_fragment};

/// A reference without its fragment, and the fragment, which `#` begins (RFC 3986, section 3.5).
pub fn split_fragment(reference: &str) -> (&str, Option<&str>)
    ensures before { result.0.now ≡ without_fragment reference.now }
    ensures fragment { option_map (λ f. f.now) result.1 ≡ fragment_of reference.now }
{
    cut(reference, '#')
}

/// The components of a reference that has no fragment (RFC 3986, section 3).
#[derive(Clone, Copy)]
pub(crate) struct Components<'a> {
    pub scheme: Option<&'a str>,
    pub authority: Option<&'a str>,
    pub path: &'a str,
    pub query: Option<&'a str>,
}

impl<'a> Components<'a> {
    ghost use Rattle.neldrafi_uri.specs.Components.{components_of};
    ghost use Rattle.neldrafi_uri.specs.machine.Texts.{components_in};

    /// The components of a reference that has no fragment (RFC 3986, section 3).
    pub fn of(reference: &'a str) -> Components<'a>
        ensures { components_in result ≡ components_of reference.now }
    {
        let (text, query) = cut(reference, '?');
        let (scheme, text) = split_scheme(text);
        let (authority, path) = split_authority(text);
        Components {
            scheme,
            authority,
            path,
            query,
        }
    }
}

// What stands before the first such character, and what follows it, if there is one.
fn cut(text: &str, mark: char) -> (&str, Option<&str>)
    requires { mark < 128 }
    ensures before { result.0.now ≡ before mark text.now }
    ensures behind { option_map (λ t. t.now) result.1 ≡ behind mark text.now }
{
    match text.split_once(mark) {
        Some((front, back)) => (front, Some(back)),
        None => (text, None),
    }
}

// The scheme, if there is one, and what follows its `:` (section 3.1).
fn split_scheme(text: &str) -> (Option<&str>, &str)
    ensures scheme { option_map (λ s. s.now) result.0 ≡ scheme_of text.now }
    ensures behind { result.1.now ≡ behind_scheme text.now }
{
    match text.split_once(':') {
        Some((scheme, rest)) if is_scheme(scheme) => (Some(scheme), rest),
        _ => (None, text),
    }
}

// Whether what stands before a `:` is a scheme (section 3.1; appendix B).
fn is_scheme(text: &str) -> bool
    ensures { result ≡ is_scheme text.now }
{
    !text.is_empty() && !text.contains('/')
}

// The authority, if there is one, and the path (section 3.2).
fn split_authority(text: &str) -> (Option<&str>, &str)
    ensures authority { option_map (λ a. a.now) result.0 ≡ authority_of text.now }
    ensures behind { result.1.now ≡ behind_authority text.now }
{
    let Some(rest) = text.strip_prefix("//") else {
        return (None, text);
    };
    let end = rest.find('/').unwrap_or(rest.len());
    let (authority, path) = rest.split_at(end);
    (Some(authority), path)
}
