//! IPv4 and IPv6 addresses, ASCII host names and UUIDs. Each predicate is true exactly where its grammar derives the
//! characters of the text, and takes no memory. The grammars stand in `specs/Addresses.antt`, `specs/HostName.antt` and
//! `specs/Uuid.antt`, laws about them in [`laws`].
#![tactic(auto)]

mod addresses;
mod host_name;
pub mod laws;
mod uuid;

pub use addresses::{is_valid_ipv4, is_valid_ipv6};
pub use host_name::{first_label, is_valid_hostname_rfc1034};
pub use uuid::is_valid_uuid;
