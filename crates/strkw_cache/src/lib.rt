//! The schema object of a request: read of the tokens of a line, compiled under the terms of the request, and kept
//! where lines share it.
#![tactic(auto)]

mod asked;
mod cache;
mod fronts;
mod terms;
mod tokens;
mod told;
mod values;

pub use asked::{Asked, read_asked};
pub use cache::{Cache, CachedObject, Occurrence};
pub use fronts::split_draft;
pub use terms::{Compiled, Terms, compile};
pub use tokens::OwnedToken;
pub use told::push_told;
pub use values::{MEMBER_DEPTH, read_values};
