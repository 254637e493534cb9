//! Mail addresses, in ASCII or internationalised. Each predicate is true exactly where its grammar derives the
//! characters of the text. The grammars stand in `specs/Mailbox.antt`, `specs/AddressLiteral.antt` and
//! `specs/IdnMailbox.antt`, laws about them in [`laws`]. That of ASCII takes no memory, and the other's only error is
//! out of memory.
#![tactic(auto)]

mod address_literal;
mod domain;
mod idn_mailbox;
mod ipv6;
pub mod laws;
mod local_part;
mod mailbox;
mod scan;

pub use idn_mailbox::is_valid_idn_email;
pub use mailbox::is_valid_email;
