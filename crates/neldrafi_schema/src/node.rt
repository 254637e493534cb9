//! A compiled schema, as a vector of nodes: a schema to which a keyword leads is the number of a node.

use crate::json_type::JsonType;
use crate::limits::{Limit, Size};
use crate::segment::Segment;
use serde_json::{Number, Value};
use strkw_keywords::{Keyword as TextKeyword, Validator};
use strkw_report::Location;

/// A schema of the document.
#[derive(Drop)]
pub(crate) struct Node<E> {
    pub header: Header,
    pub body: Body<E>,
}

/// Where a schema is, in its document and as a URI, and what its keywords annotate.
#[derive(Drop)]
pub(crate) struct Header {
    pub location: Location,
    pub absolute: String,
    pub notes: Vec<Note>,
}

/// What a keyword says for annotation, of any instance, or of strings alone.
#[derive(Drop)]
pub(crate) struct Note {
    pub keyword: String,
    pub value: Value,
    pub of_texts: bool,
}

/// What a schema says.
#[derive(Drop)]
pub(crate) enum Body<E> {
    /// `true`.
    Always,
    /// `false`.
    Never,
    /// An object's keywords, in the order of its members.
    Keywords(Vec<Keyword<E>>),
}

/// A keyword with its value.
#[derive(Drop)]
pub(crate) enum Keyword<E> {
    /// Any but the string keywords.
    Rule(Ruled<E>),
    /// One of the string keywords.
    Text(TextKeyword, Validator<E>),
}

/// The rule of a keyword's name, and the schemas to which it leads.
#[derive(Drop)]
pub(crate) struct Ruled<E> {
    pub name: String,
    pub rule: Rule<E>,
    pub branches: Vec<Branch>,
}

/// A schema to which a keyword leads, and its segment in the keyword's value, if it is part of it.
#[derive(Drop)]
pub(crate) struct Branch {
    pub key: Option<Segment>,
    pub schema: usize,
}

/// Names that are required where another is there.
#[derive(Drop)]
pub(crate) struct Dependency {
    pub name: String,
    pub required: Vec<String>,
}

/// The members of an object, or the items of an array.
#[derive(Clone, Copy, PartialEq, Eq)]
pub(crate) enum Part {
    Members,
    Items,
}

/// What a keyword says of instances, but for the schemas to which it leads.
#[derive(Drop)]
pub(crate) enum Rule<E> {
    /// The types, and whether a float with no fractional part is an integer.
    Types(bool, Vec<JsonType>),
    Among(Vec<Value>),
    EqualTo(Value),
    Limited(Limit, Number),
    MultipleOf(Number),
    Sized(Size, u64),
    Distinct,
    Required(Vec<String>),
    /// `$ref`, whose schema is of the instance itself.
    Reference,
    AllOf,
    /// `dependencies`: names, and schemas of the instance where it has their key.
    Dependent(Vec<Dependency>),
    Properties,
    /// `patternProperties`: the pattern of each schema.
    Matching(Vec<Validator<E>>),
    /// `additionalProperties`, of the members to which no rule beside leads.
    OtherMembers,
    NoOtherMembers,
    MemberNames,
    /// `items` with a schema for each place.
    Placed,
    /// `additionalItems`, or `items` with one schema: of the items that have none of their own.
    OtherItems,
    NoOtherItems,
    /// `not`, with its schema's JSON for the error.
    Negation(Value),
    AnyOf,
    OneOf,
    /// How many items are to be valid at least, and at most; and whether these count as evaluated.
    Contains(u64, Option<u64>, bool),
    /// `then` and `else`: their schema, and that of `if`.
    WhereValid,
    WhereNotValid,
    /// `if`: only what it evaluates and annotates counts.
    Condition,
    /// Of the members or items that no keyword beside evaluates.
    Unevaluated(Part),
    /// Nothing, but that the schemas are such.
    Held,
}

impl<E> Rule<E> {
    ghost use Rattle.std.specs.Prelude.{◌≡◌, ℕ, List};
    ghost use Rattle.strkw_pattern.specs.declared.engine.Outcome.{Outcome};
    ghost use Rattle.neldrafi_schema.specs.Annotations.{annotates_nothing};
    ghost use Rattle.neldrafi_schema.specs.Refusals.{is_in_place};
    ghost use Rattle.neldrafi_schema.specs.Rules.{counts_nothing, is_choice};
    ghost use Rattle.neldrafi_schema.specs.machine.Compiled.{rule_of};

    /// Whether its schemas are of the instance itself.
    pub fn is_in_place(&self) -> bool
        ensures { (outcome : E → List ℕ → Outcome)
            → result ≡ is_in_place (rule_of outcome self.now) }
    {
        matches!(
            self,
            Rule::Reference
                | Rule::AllOf
                | Rule::Dependent(_)
                | Rule::Negation(_)
                | Rule::AnyOf
                | Rule::OneOf
                | Rule::WhereValid
                | Rule::WhereNotValid
                | Rule::Condition
        )
    }

    /// Whether what its schemas evaluate does not count.
    pub fn counts_nothing(&self) -> bool
        ensures { (outcome : E → List ℕ → Outcome)
            → result ≡ counts_nothing (rule_of outcome self.now) }
    {
        matches!(
            self,
            Rule::Negation(_) | Rule::MemberNames | Rule::Contains(_, _, false)
        )
    }

    /// Whether its schemas annotate nothing of the instance.
    pub fn annotates_nothing(&self) -> bool
        ensures { (outcome : E → List ℕ → Outcome)
            → result ≡ annotates_nothing (rule_of outcome self.now) }
    {
        matches!(self, Rule::Negation(_) | Rule::MemberNames)
    }

    /// Whether what it tests counts by another keyword.
    pub fn is_choice(&self) -> bool
        ensures { (outcome : E → List ℕ → Outcome)
            → result ≡ is_choice (rule_of outcome self.now) }
    {
        matches!(self, Rule::WhereValid | Rule::WhereNotValid)
    }
}
