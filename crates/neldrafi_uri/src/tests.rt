//! The examples of RFC 3986, section 5.4, and what it leaves to its rules. A test whose name ends in `_under_refusal`
//! may also end as out of memory where an allocation is refused.

use super::{resolved, split_fragment};
use std::alloc::{AllocError, Global};
use std::test::Fail;

/// A reference, and the URI to which it refers.
type Row = (&'static str, &'static str);

const BASE: &str = "http://a/b/c/d;p?q";

const NORMAL_EXAMPLES: &[Row] = &[
    ("g:h", "g:h"),
    ("g", "http://a/b/c/g"),
    ("./g", "http://a/b/c/g"),
    ("g/", "http://a/b/c/g/"),
    ("/g", "http://a/g"),
    ("//g", "http://g"),
    ("?y", "http://a/b/c/d;p?y"),
    ("g?y", "http://a/b/c/g?y"),
    ("#s", "http://a/b/c/d;p?q#s"),
    ("g#s", "http://a/b/c/g#s"),
    ("g?y#s", "http://a/b/c/g?y#s"),
    (";x", "http://a/b/c/;x"),
    ("g;x", "http://a/b/c/g;x"),
    ("g;x?y#s", "http://a/b/c/g;x?y#s"),
    ("", "http://a/b/c/d;p?q"),
    (".", "http://a/b/c/"),
    ("./", "http://a/b/c/"),
    ("..", "http://a/b/"),
    ("../", "http://a/b/"),
    ("../g", "http://a/b/g"),
    ("../..", "http://a/"),
    ("../../", "http://a/"),
    ("../../g", "http://a/g"),
];

const ABNORMAL_EXAMPLES: &[Row] = &[
    ("../../../g", "http://a/g"),
    ("../../../../g", "http://a/g"),
    ("/./g", "http://a/g"),
    ("/../g", "http://a/g"),
    ("g.", "http://a/b/c/g."),
    (".g", "http://a/b/c/.g"),
    ("g..", "http://a/b/c/g.."),
    ("..g", "http://a/b/c/..g"),
    ("./../g", "http://a/b/g"),
    ("./g/.", "http://a/b/c/g/"),
    ("g/./h", "http://a/b/c/g/h"),
    ("g/../h", "http://a/b/c/h"),
    ("g;x=1/./y", "http://a/b/c/g;x=1/y"),
    ("g;x=1/../y", "http://a/b/c/y"),
    ("g?y/./x", "http://a/b/c/g?y/./x"),
    ("g?y/../x", "http://a/b/c/g?y/../x"),
    ("g#s/./x", "http://a/b/c/g#s/./x"),
    ("g#s/../x", "http://a/b/c/g#s/../x"),
    ("http:g", "http:g"),
];

// The URI to which a reference refers, with its fragment.
fn with_fragment(alloc: Global, base: &str, reference: &str) -> Result<String, AllocError> {
    let (reference, fragment) = split_fragment(reference);
    let mut target = resolved(alloc, base, reference)?;
    if let Some(fragment) = fragment {
        target.push('#')?;
        target.push_str(fragment)?;
    }
    Ok(target)
}

// Whether all rows are resolved as they say. The failure names the reference of one that is not.
fn are_resolved(alloc: Global, base: &str, rows: &[Row]) -> Result<(), Fail> {
    for &(reference, target) in rows {
        if with_fragment(alloc, base, reference)?.as_str() != target {
            return Err(Fail::new(reference));
        }
    }
    Ok(())
}

#[test]
fn normal_examples_under_refusal(rt: HostRuntime) -> Result<(), Fail> {
    are_resolved(rt.alloc(), BASE, NORMAL_EXAMPLES)
}

#[test]
fn abnormal_examples_under_refusal(rt: HostRuntime) -> Result<(), Fail> {
    are_resolved(rt.alloc(), BASE, ABNORMAL_EXAMPLES)
}

#[test]
fn without_a_base_under_refusal(rt: HostRuntime) -> Result<(), Fail> {
    let rows: &[Row] = &[
        ("", ""),
        ("#s", "#s"),
        ("g", "g"),
        ("../g/..", "/"),
        ("g:h", "g:h"),
    ];
    are_resolved(rt.alloc(), "", rows)
}

#[test]
fn by_a_path_without_slashes_under_refusal(rt: HostRuntime) -> Result<(), Fail> {
    let rows: &[Row] = &[
        ("", "urn:a:b"),
        ("g", "urn:g"),
        ("/g", "urn:/g"),
        ("?y", "urn:a:b?y"),
        ("#s", "urn:a:b#s"),
        ("g/../../h", "urn:/h"),
        ("urn:g", "urn:g"),
    ];
    are_resolved(rt.alloc(), "urn:a:b", rows)
}

#[test]
fn by_an_authority_alone_under_refusal(rt: HostRuntime) -> Result<(), Fail> {
    let rows: &[Row] = &[
        ("", "http://a"),
        ("g", "http://a/g"),
        ("../../g", "http://a/g"),
        ("..", "http://a/"),
    ];
    are_resolved(rt.alloc(), "http://a", rows)
}

#[test]
fn fragments_are_split(rt: HostRuntime) {
    assert_eq!(rt; split_fragment("a"), ("a", None));
    assert_eq!(rt; split_fragment("a#"), ("a", Some("")));
    assert_eq!(rt; split_fragment("#b#c"), ("", Some("b#c")));
}
