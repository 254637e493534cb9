//! How commands are put together, from tables of what they take. A table has what one subcommand takes: the proof of a
//! function that names a table writes it out, and takes more than twice as long for one twice as long.

use clap::builder::ValueParser;
use clap::{Arg, ArgAction, Command};
use std::alloc::{AllocError, Global};

/// What an argument takes. The first two are known by their place, the others are options.
#[derive(Clone, Copy)]
pub(crate) enum Takes {
    /// A word, which has to be given.
    Word,
    /// Any number of words.
    Words,
    /// Nothing.
    Nothing,
    /// Nothing, and the option has this letter too.
    NothingBy(char),
    /// A value of this name.
    Value(&'static str),
    /// A value of this name, each time that the option is given.
    Values(&'static str),
    /// A number of this name, from 1.
    Number(&'static str),
    /// One of some words, where the option is given.
    OneOfSome {
        /// The name of the value.
        value: &'static str,
        /// The words.
        words: &'static [&'static str],
    },
    /// One of some words.
    OneOf {
        /// The name of the value.
        value: &'static str,
        /// The words.
        words: &'static [&'static str],
        /// The one that is taken where none is given.
        default: &'static str,
    },
}

impl Takes {
    // The argument of this name, as it takes this.
    fn set<'a>(self, name: &'static str, argument: Arg<'a>) -> Arg<'a> {
        match self {
            Takes::Word => argument.required(true),
            Takes::Words => argument.num_args(0usize..),
            _ => self.set_option(argument.long(name)),
        }
    }

    // The option, as it takes this.
    fn set_option<'a>(self, option: Arg<'a>) -> Arg<'a> {
        match self {
            Takes::Nothing => option.action(ArgAction::SetTrue),
            Takes::NothingBy(letter) => option.action(ArgAction::SetTrue).short(letter),
            Takes::Value(value) => option.value_name(value),
            Takes::Values(value) => option.value_name(value).action(ArgAction::Append),
            Takes::Number(value) => {
                let numbers = ValueParser::unsigned(1, u64::MAX);
                option.value_name(value).value_parser(numbers)
            }
            Takes::OneOfSome { value, words } => option.value_name(value).value_parser(words),
            Takes::OneOf {
                value,
                words,
                default,
            } => option
                .value_name(value)
                .value_parser(words)
                .default_value(default),
            Takes::Word | Takes::Words => option,
        }
    }
}

/// An argument of a subcommand.
#[derive(Clone, Copy)]
pub(crate) struct Argument {
    /// Its name, which stands behind `--` where it is an option.
    pub name: &'static str,
    /// What it takes.
    pub takes: Takes,
    /// What it does not stand beside.
    pub conflicts: &'static [&'static str],
    /// What help says of it.
    pub help: &'static str,
}

/// A row of a table, of which the parser has what it calls for.
pub(crate) trait Row<T> {
    /// What the row calls for. The only error is out of memory.
    fn make(&self, alloc: Global) -> Result<T, AllocError>;
}

impl<'a> Row<Arg<'a>> for Argument {
    fn make(&self, alloc: Global) -> Result<Arg<'a>, AllocError> {
        let argument = Arg::new(alloc, self.name).help(self.help);
        self.takes
            .set(self.name, argument)
            .conflicts_with_all(self.conflicts)
    }
}

/// What each row calls for.
pub(crate) fn make_all<T: Drop, R: Row<T>>(
    alloc: Global,
    rows: &[R],
) -> Result<Vec<T>, AllocError> {
    let mut made = Vec::new(alloc);
    for row in rows {
        made.push(row.make(alloc)?)?;
    }
    Ok(made)
}

/// A subcommand of this name, with what it does, what its help ends with, and what it takes. The only error is out of
/// memory.
pub(crate) fn subcommand<'a>(
    alloc: Global,
    name: &'static str,
    about: &'static str,
    after_help: &'static str,
    arguments: &[Argument],
) -> Result<Command<'a>, AllocError> {
    let arguments = make_all(alloc, arguments)?;
    Command::new(alloc, name)
        .about(about)
        .after_help(after_help)
        .args(arguments)
}
