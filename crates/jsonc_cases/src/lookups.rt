//! Look-ups by name, read from their words.

use crate::error::CaseError;
use crate::escape::unescaped_text;
use std::alloc::Global;

/// The value that is wanted.
#[derive(Clone, Copy, Drop)]
pub enum Kind {
    Any,
    String,
    Number,
    Boolean,
    Object,
    Array,
}

/// A look-up of a name.
#[derive(Drop)]
pub struct Lookup {
    pub name: String,
    pub kind: Kind,
    /// Whether the name is taken out of the object.
    pub takes: bool,
}

/// The look-ups that a field lists, as `get_string 'a ; take 'b`.
pub fn read_lookups(alloc: Global, field: &str) -> Result<Vec<Lookup>, CaseError> {
    let mut lookups = Vec::new(alloc);
    for lookup in field.split(" ; ") {
        lookups.push(read_lookup(alloc, lookup)?)?;
    }
    Ok(lookups)
}

fn read_lookup(alloc: Global, lookup: &str) -> Result<Lookup, CaseError> {
    let Some((call, name)) = lookup.split_once(" '") else {
        return Err(CaseError::Lookup);
    };
    let name = unescaped_text(alloc, name)?;
    if let Some(kind) = call.strip_prefix("take") {
        let kind = read_kind(kind)?;
        return Ok(Lookup {
            name,
            kind,
            takes: true,
        });
    }
    let Some(kind) = call.strip_prefix("get") else {
        return Err(CaseError::Lookup);
    };
    let kind = read_kind(kind)?;
    Ok(Lookup {
        name,
        kind,
        takes: false,
    })
}

fn read_kind(suffix: &str) -> Result<Kind, CaseError> {
    match suffix {
        "" => Ok(Kind::Any),
        "_string" => Ok(Kind::String),
        "_number" => Ok(Kind::Number),
        "_boolean" => Ok(Kind::Boolean),
        "_object" => Ok(Kind::Object),
        "_array" => Ok(Kind::Array),
        _ => Err(CaseError::Lookup),
    }
}
