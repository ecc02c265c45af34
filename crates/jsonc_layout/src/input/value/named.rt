//! What a value is, and the values of names in it.
ghost use Rattle.std.specs.Prelude.{◌≡◌, option_copied};
ghost use Rattle.std.specs.List.{find};
ghost use Rattle.jsonc_layout.specs.input.Named.{is_named, shape_of, value_named};

use super::CstInputValue;
use jsonc_text::edit::Shape;
use std::alloc::Allocator;

// The first property of a name.
fn property_named<'p, A: Allocator>(
    properties: &'p [(String<A>, CstInputValue<A>)],
    name: &str,
) -> Option<&'p (String<A>, CstInputValue<A>)>
    ensures { option_copied result ≡ find (is_named name.now) properties.now }
{
    properties
        .iter()
        .find(|property| name == property.0.as_str())
}

impl<A: Allocator> CstInputValue<A> {
    /// Whether it is an array or an object, and which; none of another value.
    pub fn shape(&self) -> Option<Shape>
        ensures { result ≡ shape_of self.now }
    {
        match self {
            CstInputValue::Array(_) => Some(Shape::Array),
            CstInputValue::Object(_) => Some(Shape::Object),
            _ => None,
        }
    }

    /// The value of the first property of this name, if it is an object that has one.
    pub fn get(&self, name: &str) -> Option<&CstInputValue<A>>
        ensures { option_copied result ≡ value_named name.now self.now }
    {
        match self {
            CstInputValue::Object(properties) => match property_named(properties.as_slice(), name) {
                Some(property) => Some(&property.1),
                None => None,
            },
            _ => None,
        }
    }
}
