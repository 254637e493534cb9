//! References, resolved against a base URI (RFC 3986, section 5.2).

ghost use Rattle.std.specs.Prelude.{◌≡◌, IfOk, string_bytes};
ghost use Rattle.neldrafi_uri.specs.Resolution.{resolved};

use crate::components::Components;
use crate::target::Target;
use std::alloc::{AllocError, Global};

/// The URI to which a reference refers by a base URI, both without a fragment (RFC 3986, section 5).
pub fn resolved(alloc: Global, base: &str, reference: &str) -> Result<String, AllocError>
    ensures { IfOk result (λ t. string_bytes t ≡ resolved base.now reference.now) }
{
    Target::of(alloc, Components::of(base), Components::of(reference))?.text(alloc)
}
