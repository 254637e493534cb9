//! The calls with a growth refused, devices that fail, a check that keeps a closure, and the records of files.

mod cached;
mod companions;
mod context;
mod devices;
mod encodings;
mod entries;
mod kept;
mod names;
mod objects;
mod owned;
mod patterns;
mod reports;
