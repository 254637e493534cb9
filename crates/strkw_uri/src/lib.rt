//! URIs, IRIs and their references (RFC 3986, RFC 3987), URI templates (RFC 6570) and JSON pointers (RFC 6901). Each
//! call answers true exactly where its grammar in `specs/` derives the text, and takes no memory. One scan reads every
//! part of a URI or IRI, in long texts 32 bytes at a time; a part's end is where its grammar ends it. Templates and
//! pointers are read a character at a time, save for runs of ASCII in the literals of a template.
#![tactic(auto)]

mod authority;
mod lanes;
pub mod laws;
mod literal;
mod part;
mod path;
mod plain;
mod pointer;
mod scan;
mod scheme;
mod tail;
mod template;
mod uri;

pub use pointer::{is_valid_json_pointer, is_valid_relative_json_pointer};
pub use template::is_valid_uri_template;
pub use uri::{is_valid_iri, is_valid_iri_reference, is_valid_uri, is_valid_uri_reference};
