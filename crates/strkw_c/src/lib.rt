//! The checks and the answers for callers that are not Rattle: C, and what calls C. A text is a pointer and a count of
//! bytes, and bytes that are not UTF-8 are no text. No pointer is null: `bindings/strkw.c` sees to it. There each
//! export `strkw_nonnull_NAME` is called by a function `strkw_NAME`, which the header `bindings/strkw.h` declares.
#![tactic(auto)]

mod answers;
mod buffers;
mod companions;
mod encodings;
mod errors;
mod formats;
mod handle;
mod handles;
mod keeping;
mod kept;
mod lines;
mod offsets;
mod place;
mod questions;
mod refusals;
mod schemas;
mod settings;
mod statuses;
mod tasks;
mod texts;
mod unboxed;
mod utf8;
mod verdicts;

pub use answers::strkw_nonnull_answer;
pub use companions::{
    strkw_nonnull_is_idn_email, strkw_nonnull_is_idn_hostname, strkw_nonnull_is_regex,
};
pub use encodings::{
    strkw_nonnull_is_base16, strkw_nonnull_is_base32, strkw_nonnull_is_base32hex,
    strkw_nonnull_is_base64, strkw_nonnull_is_base64url, strkw_nonnull_is_json,
};
pub use errors::strkw_nonnull_errors;
pub use formats::{
    strkw_nonnull_is_date, strkw_nonnull_is_date_time, strkw_nonnull_is_duration,
    strkw_nonnull_is_email, strkw_nonnull_is_hostname, strkw_nonnull_is_hostname_draft4,
    strkw_nonnull_is_ipv4, strkw_nonnull_is_ipv6, strkw_nonnull_is_iri,
    strkw_nonnull_is_iri_reference, strkw_nonnull_is_json_pointer,
    strkw_nonnull_is_relative_json_pointer, strkw_nonnull_is_time, strkw_nonnull_is_uri,
    strkw_nonnull_is_uri_reference, strkw_nonnull_is_uri_template, strkw_nonnull_is_uuid,
};
pub use handles::{
    strkw_nonnull_schema_check, strkw_nonnull_schema_compile, strkw_nonnull_schema_errors,
    strkw_nonnull_schema_free,
};
pub use offsets::{strkw_nonnull_check_offsets, strkw_nonnull_check_offsets32};
pub use refusals::strkw_nonnull_refusal;
pub use verdicts::strkw_nonnull_check;
