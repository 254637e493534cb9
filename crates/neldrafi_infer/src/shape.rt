//! What is held at each place in values.

ghost use Rattle.std.specs.Prelude.{◌≡◌, ◌==◌, ◌&&◌, [], List, IfOk, OnOk, codes, length, nat_lt};
ghost use Rattle.json.specs.Value.{value_view};
ghost use Rattle.neldrafi_infer.specs.Hypotheses.{Seen, seen};
ghost use Rattle.neldrafi_infer.specs.Properties.{IsPropertyOf, type_count};
ghost use Rattle.neldrafi_infer.specs.Shapes.{HasSeen, held_at, held_in, kind_of, text_of};
ghost use Rattle.neldrafi_infer.specs.declared.kinds.Kind.TheVariants.{Array, Object};
ghost use Rattle.neldrafi_infer.specs.declared.hypotheses.ValueType.TheVariants as of;

use crate::faults::PropertyFault;
use crate::hypotheses::ValueType;
use crate::kinds::{Kind, number_kind, spelled_kind};
use crate::property::Property;
use json::Value;
use std::alloc::{AllocError, Global};
use std::collections::BTreeMap;

/// What is held of the values at one place, and at the places below it.
#[derive(Drop)]
#[cycle(shape)]
pub struct Shape {
    /// What is held of the values at the place.
    pub property: Property,
    /// The members of the objects at the place, in the order in which they first came.
    pub members: Vec<Member>,
    // The places of the members, by their names.
    places: BTreeMap<String, usize>,
    /// The elements of the arrays at the place, if one has any.
    pub items: Option<Box<Shape>>,
}

/// A member of objects.
#[derive(Drop)]
#[cycle(shape)]
pub struct Member {
    /// Its name.
    pub name: String,
    /// What is held of its values.
    pub shape: Shape,
}

impl Shape {
    /// No values were seen. The only error is out of memory.
    pub fn new(alloc: Global) -> Result<Shape, AllocError>
        ensures { IfOk result (λ shape. IsPropertyOf [] (held_at shape)) }
    {
        Ok(Shape {
            property: Property::new(alloc)?,
            members: Vec::new(alloc),
            places: BTreeMap::new(alloc),
            items: None,
        })
    }

    /// Sees a value, after others, with all values in it. After an error the shape is of no more use.
    ///
    /// Errors: `TooMany`, and `Memory`.
    #[cycle(seeing)]
    pub fn see(&mut self, alloc: Global, line: u64, value: &Value<'_>) -> Result<(), PropertyFault>
        ensures { let v = value_view value.now in OnOk result (HasSeen (held_at self.old)
            (seen line (kind_of v) (text_of v)) (held_at self.new)) }
    {
        match value {
            Value::Null => self.property.see(alloc, line, Kind::Null, "null"),
            Value::Bool(true) => self.property.see(alloc, line, Kind::Boolean, "true"),
            Value::Bool(false) => self.property.see(alloc, line, Kind::Boolean, "false"),
            Value::Number(text) => self.property.see(alloc, line, number_kind(text), text),
            Value::String(text) => self.property.see(alloc, line, Kind::String, text),
            Value::Array(items) => self.see_items(alloc, line, items),
            Value::Object(members) => self.see_members(alloc, line, members),
        }
    }

    // Sees an array of these elements.
    #[cycle(seeing)]
    #[inline(never)]
    fn see_items(
        &mut self,
        alloc: Global,
        line: u64,
        items: &[Value<'_>],
    ) -> Result<(), PropertyFault>
        ensures { OnOk result (HasSeen (held_at self.old)
            (seen line Array (codes "an array")) (held_at self.new)) }
    {
        self.see_array(alloc, line)?;
        if items.is_empty() {
            return Ok(());
        }
        let mut shape = match self.items.take() {
            Some(shape) => shape,
            None => Box::new(alloc, Shape::new(alloc)?)?,
        };
        for item in items {
            shape.see(alloc, line, item)?;
        }
        self.items = Some(shape);
        Ok(())
    }

    // Sees an object of these members.
    #[cycle(seeing)]
    #[inline(never)]
    fn see_members(
        &mut self,
        alloc: Global,
        line: u64,
        members: &[(&str, Value<'_>)],
    ) -> Result<(), PropertyFault>
        ensures { OnOk result (HasSeen (held_at self.old)
            (seen line Object (codes "an object")) (held_at self.new)) }
    {
        self.see_object(alloc, line)?;
        for at in 0..members.len() {
            let member = &members[at];
            let place = self.place_of(alloc, at, member.0)?;
            if place < self.members.len() {
                self.members[place].shape.see(alloc, line, &member.1)?;
            }
        }
        Ok(())
    }

    /// Sees an array, whose elements are seen by themselves.
    pub fn see_array(&mut self, alloc: Global, line: u64) -> Result<(), PropertyFault>
        ensures { OnOk result (HasSeen (held_at self.old)
            (seen line Array (codes "an array")) (held_at self.new)) }
    {
        self.property.see(alloc, line, Kind::Array, "an array")
    }

    /// Sees an object, whose members are seen by themselves.
    pub fn see_object(&mut self, alloc: Global, line: u64) -> Result<(), PropertyFault>
        ensures { OnOk result (HasSeen (held_at self.old)
            (seen line Object (codes "an object")) (held_at self.new)) }
    {
        self.property.see(alloc, line, Kind::Object, "an object")
    }

    /// Sees an element of an array.
    pub fn see_item(
        &mut self,
        alloc: Global,
        line: u64,
        item: &Value<'_>,
    ) -> Result<(), PropertyFault>
        ensures { held_at self.new ≡ held_at self.old }
    {
        let mut shape = match self.items.take() {
            Some(shape) => shape,
            None => Box::new(alloc, Shape::new(alloc)?)?,
        };
        shape.see(alloc, line, item)?;
        self.items = Some(shape);
        Ok(())
    }

    /// Sees the field of an object that is a record of CSV. The name is probably that of the member at a place.
    pub fn see_field(
        &mut self,
        alloc: Global,
        line: u64,
        at: usize,
        name: &str,
        field: &str,
    ) -> Result<(), PropertyFault>
        ensures { held_at self.new ≡ held_at self.old }
    {
        let place = self.place_of(alloc, at, name)?;
        if place < self.members.len() {
            let property = &mut self.members[place].shape.property;
            property.see(alloc, line, spelled_kind(field), field)?;
        }
        Ok(())
    }

    /// The place of the member of a name among the members, probably this. It is the last one if there was none.
    pub fn place_of(&mut self, alloc: Global, at: usize, name: &str) -> Result<usize, AllocError>
        ensures { held_at self.new ≡ held_at self.old }
    {
        if let Some(member) = self.members.get(at) {
            if member.name.as_str() == name {
                return Ok(at);
            }
        }
        if let Some(place) = self.places.get(name) {
            return Ok(*place);
        }
        let place = self.members.len();
        self.places.insert(String::from_str(alloc, name)?, place)?;
        let name = String::from_str(alloc, name)?;
        let shape = Shape::new(alloc)?;
        self.members.push(Member { name, shape })?;
        Ok(place)
    }

    /// How many of the values are objects.
    pub fn object_count(&self) -> u64
        ensures { (ss : List Seen) → IsPropertyOf ss (held_at self.now)
            → result ≡ type_count of.Object ss }
    {
        self.property.type_count(ValueType::Object)
    }
}

impl Member {
    /// Whether it is in each of so many objects.
    pub fn is_in_all(&self, objects: u64) -> bool
        ensures { (ss : List Seen) → IsPropertyOf ss (held_in self.now)
            → result ≡ (nat_lt 0 objects && (length ss == objects)) }
    {
        0 < objects && self.shape.property.count() == objects
    }
}
