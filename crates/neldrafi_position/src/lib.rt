//! Where the values of a JSON text are, by their JSON pointers: their lines and columns.
#![tactic(auto)]

mod parts;
mod position;
mod positions;
mod starts;
mod tokens;
mod values;

pub use position::Position;
pub use positions::Positions;

#[cfg(test)]
mod tests;
