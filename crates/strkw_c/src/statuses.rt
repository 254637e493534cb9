//! What the calls on schema objects answer by a number, in C by a name.

/// What was asked for is done.
pub(crate) const DONE: u8 = 0;

/// Out of memory.
pub(crate) const OUT_OF_MEMORY: u8 = 1;

/// A buffer has too little room.
pub(crate) const NO_ROOM: u8 = 2;

/// No texts have these ends, or there are more or fewer verdicts than ends.
pub(crate) const NO_TEXTS: u8 = 2;

/// The draft is none of the five.
pub(crate) const NO_DRAFT: u8 = 3;

/// The bytes are no JSON object.
pub(crate) const NO_SCHEMA: u8 = 4;

/// An entry of the schema object is refused.
pub(crate) const REFUSED: u8 = 5;

/// A bit of the options is none of the three.
pub(crate) const NO_OPTION: u8 = 6;

/// The text is not UTF-8. 7 is that of a pointer which is null, which no call here answers.
pub(crate) const NOT_UTF8: u8 = 8;
