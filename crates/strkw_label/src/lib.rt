//! Host names with internationalised labels (RFC 5890): a Punycode decoder (RFC 3492), nine rules
//! for the characters of a label (after RFC 5891 and RFC 5892), and on both the predicate for host names.
//! Beside them internationalised host names, with U-labels by the rules of RFC 5891 to 5893.
//! What takes an allocator can be out of memory. Nothing else takes memory, and every call answers.
#![tactic(auto)]

mod bidi_rule;
mod characters;
mod context_rules;
mod host_name;
mod idn_host_name;
mod label_rules;
pub mod laws;
mod plain_labels;
mod properties;
mod punycode;
mod u_label;
mod unicode_label;

pub use host_name::is_valid_hostname;
pub use idn_host_name::is_valid_idn_hostname;
pub use label_rules::validate_unicode_label;
pub use properties::{DerivedProperty, derived_property};
pub use punycode::decode_punycode;
pub use u_label::is_valid_u_label;
