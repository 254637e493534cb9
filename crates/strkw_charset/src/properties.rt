//! Properties of characters, and how `\p{ }` and `\P{ }` are read, character by character behind their letter.

ghost use Rattle.std.specs.Prelude.{◌≡◌, true, map, IfOk};
ghost use Rattle.std.specs.List.{zip};
ghost use Rattle.ucd_sets.specs.Loose.{value_named as spec_value_named};
ghost use Rattle.strkw_charset.specs.Properties.{has_property, category_named as spec_category_named, binary_named as spec_binary_named, script_value_named, value_of as spec_value_of, property_of};
ghost use Rattle.strkw_charset.specs.Properties.{is_property_char as spec_is_property_char};
ghost use Rattle.strkw_charset.specs.machine.PropertyReading.{property_next, on_equals, with_char};
ghost use Rattle.strkw_charset.specs.Properties.{is_written as spec_is_written, is_unknown as spec_is_unknown};
ghost use Rattle.strkw_charset.specs.machine.PropertyParts.{expression_of, part_of, property_read_of};

use crate::extensions::has_extension;
use crate::values::{
    BINARY_NAMES, BINARY_PROPERTIES, CATEGORIES, CATEGORY_NAMES, SCRIPT_NAMES, SCRIPTS,
};
use std::alloc::{AllocError, Global};
use ucd_category::{GeneralCategory, GeneralCategoryGroup};
use ucd_script::Script;
use ucd_sets::BinaryProperty;
use ucd_table::contains;

/// A binary property, a value of the property General_Category, a group of these, or a value of the property Script or
/// Script_Extensions.
/// Of the binary ones all code points have `Any`, those below U+0080 `Ascii`, and those with a category `Assigned`.
#[derive(Clone, Copy)]
pub enum Property {
    Any,
    Ascii,
    Assigned,
    Binary(BinaryProperty),
    Category(GeneralCategory),
    Group(GeneralCategoryGroup),
    Script(Script),
    ScriptExtensions(Script),
}

impl Property {
    /// Whether the character has it. Inlined, its look at Unicode's tables would be begun for each set of characters,
    /// ranges too.
    #[inline(never)]
    pub(crate) fn is_of(self, c: char) -> bool
        ensures { result ≡ has_property self c }
    {
        match self {
            Property::Any => true,
            Property::Ascii => c <= '\x7F',
            Property::Assigned => GeneralCategory::for_char(c).number()
                != GeneralCategory::Unassigned.number(),
            Property::Binary(binary) => contains(binary.runs(), c),
            Property::Category(category) => GeneralCategory::for_char(c).number()
                == category.number(),
            Property::Group(group) => group.contains(GeneralCategory::for_char(c)),
            Property::Script(script) => Script::for_char(c).number() == script.number(),
            Property::ScriptExtensions(script) => has_extension(script, c),
        }
    }
}

// The value beside the first spelling that is this name.
fn value_named<T: Copy>(spellings: &[&str], values: &[T], name: &[u8]) -> Option<T>
    ensures { result ≡ spec_value_named
        (map (λ row. (row.0.now, row.1)) (zip spellings.now values.now)) name.now }
{
    for (spelling, value) in spellings.iter().zip(values) {
        if spelling.as_bytes() == name {
            return Some(*value);
        }
    }
    None
}

fn category_named(name: &[u8]) -> Option<Property>
    ensures { result ≡ spec_category_named name.now }
{
    value_named(&CATEGORY_NAMES, &CATEGORIES, name)
}

fn binary_named(name: &[u8]) -> Option<Property>
    ensures { result ≡ spec_binary_named name.now }
{
    value_named(&BINARY_NAMES, &BINARY_PROPERTIES, name)
}

fn script_named(name: &[u8]) -> Option<Script>
    ensures { result ≡ script_value_named name.now }
{
    value_named(&SCRIPT_NAMES, &SCRIPTS, name)
}

// Of a property by its name, the value by its.
fn value_of(name: &[u8], value: &[u8]) -> Option<Property>
    ensures { result ≡ spec_value_of name.now value.now }
{
    if name == b"General_Category".as_slice() || name == b"gc".as_slice() {
        return category_named(value);
    }
    if name == b"Script".as_slice() || name == b"sc".as_slice() {
        return Some(Property::Script(script_named(value)?));
    }
    if name == b"Script_Extensions".as_slice() || name == b"scx".as_slice() {
        return Some(Property::ScriptExtensions(script_named(value)?));
    }
    None
}

// What stands between the braces: a value alone, or a property's name and behind `=` a value.
#[derive(Drop)]
pub enum Expression {
    Alone(Vec<u8>),
    Valued(Vec<u8>, Vec<u8>),
}

impl Expression {
    // The property, where there is one: alone stands a category or a binary property, and no script.
    pub fn property(&self) -> Option<Property>
        ensures { result ≡ property_of (expression_of self.now) }
    {
        match self {
            Expression::Alone(value) => category_named(value).or(binary_named(value)),
            Expression::Valued(name, value) => value_of(name, value),
        }
    }

    // Whether neither the value nor the name before it is empty.
    fn is_written(&self) -> bool
        ensures { result ≡ spec_is_written (expression_of self.now) }
    {
        match self {
            Expression::Alone(value) => !value.is_empty(),
            Expression::Valued(name, value) => !name.is_empty() && !value.is_empty(),
        }
    }

    // Whether it is written, and of no property that is taken.
    pub fn is_unknown(&self) -> bool
        ensures { result ≡ spec_is_unknown (expression_of self.now) }
    {
        self.is_written() && self.property().is_none()
    }

    // With one more character, which is one of ASCII.
    fn with_char(self, c: char) -> Result<Expression, AllocError>
        requires { spec_is_property_char c ≡ true }
        ensures { IfOk result (λ e. expression_of e ≡ with_char (expression_of self) c) }
    {
        match self {
            Expression::Alone(mut value) => {
                value.push(c as u8)?;
                Ok(Expression::Alone(value))
            }
            Expression::Valued(name, mut value) => {
                value.push(c as u8)?;
                Ok(Expression::Valued(name, value))
            }
        }
    }

    // Behind an equals sign.
    fn take_equals(self, alloc: Global, lacked: bool) -> PropertyRead
        ensures { property_read_of result ≡ on_equals lacked (expression_of self) }
    {
        match self {
            Expression::Alone(name) => PropertyRead::Goes(PropertyPart::InBraces(
                lacked,
                Expression::Valued(name, Vec::new(alloc)),
            )),
            Expression::Valued(..) => PropertyRead::Fails,
        }
    }
}

// What has been read: the letter, which says whether the property is to be missing; or behind it `{` and a part of an
// expression.
#[derive(Drop)]
pub enum PropertyPart {
    BraceAwaited(bool),
    InBraces(bool, Expression),
}

// What comes of one more character.
#[derive(Drop)]
pub enum PropertyRead {
    Fails,
    Goes(PropertyPart),
    Ends(bool, Expression),
}

fn is_property_char(c: char) -> bool
    ensures { result ≡ spec_is_property_char c }
{
    c.is_ascii_alphanumeric() || c == '_'
}

impl PropertyPart {
    // After one more character.
    pub fn next(self, alloc: Global, c: char) -> Result<PropertyRead, AllocError>
        ensures { IfOk result (λ r. property_read_of r ≡ property_next (part_of self) c) }
    {
        match self {
            PropertyPart::BraceAwaited(lacked) if c == '{' => {
                let nothing = Expression::Alone(Vec::new(alloc));
                Ok(PropertyRead::Goes(PropertyPart::InBraces(lacked, nothing)))
            }
            PropertyPart::BraceAwaited(_) => Ok(PropertyRead::Fails),
            PropertyPart::InBraces(lacked, expression) if c == '}' => {
                Ok(PropertyRead::Ends(lacked, expression))
            }
            PropertyPart::InBraces(lacked, expression) if c == '=' => {
                Ok(expression.take_equals(alloc, lacked))
            }
            PropertyPart::InBraces(lacked, expression) if is_property_char(c) => {
                let longer = expression.with_char(c)?;
                Ok(PropertyRead::Goes(PropertyPart::InBraces(lacked, longer)))
            }
            PropertyPart::InBraces(..) => Ok(PropertyRead::Fails),
        }
    }
}
