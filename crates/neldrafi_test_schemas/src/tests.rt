//! Which errors instances have, and why documents are refused. With ample memory each test passes;
//! `tools/refusals.py` runs those whose names end in `_under_refusal` with each growth refused in turn too, when they
//! may also end as out of memory.

mod annotations;
mod answers;
mod basics;
mod by_draft;
mod combined;
mod depth;
mod distinct;
mod documents;
mod drafts;
mod dynamic;
mod evaluation;
mod items;
mod numbers;
mod references;
mod refusals;
mod settings;
mod sizes;
mod types;
mod unevaluated;
mod unknown;
mod values;
