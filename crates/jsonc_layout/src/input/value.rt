//! Values handed to edits.
ghost use Rattle.std.specs.Prelude.{◌≡◌, IfOk, chars, string_bytes};
ghost use Rattle.std.specs.Fmt.{decimal, signed_decimal};
ghost use Rattle.jsonc_text.specs.Plain.{Plain, null, boolean, number, string, array, object};
ghost use Rattle.jsonc_layout.specs.input.Numbers.{IsAlwaysNumber};
ghost use Rattle.jsonc_layout.specs.input.Views.{plain, items_plain, members_plain};

mod copies;
mod depth;
mod named;

use std::alloc::{AllocError, Allocator};

/// A value that an edit writes.
///
/// `docs/EDITS.md` says how each is written.
#[derive(Drop)]
#[derive_where(Debug, PartialEq, Eq)]
pub enum CstInputValue<A: Allocator> {
    Null,
    Bool(bool),
    /// The text of a number.
    Number(String<A>),
    /// A string, without quotes and with no escapes.
    String(String<A>),
    Array(Vec<CstInputValue<A>, A>),
    /// Names with their values, in the order in which they are written.
    Object(Vec<(String<A>, CstInputValue<A>), A>),
}

impl<A: Allocator> From<bool> for CstInputValue<A> {
    ghost from_gives = { λ b v. plain v ≡ boolean b };

    fn from(value: bool) -> Self {
        CstInputValue::Bool(value)
    }
}

impl<A: Allocator> From<String<A>> for CstInputValue<A> {
    ghost from_gives = { λ s v. plain v ≡ string (chars (string_bytes s)) };

    fn from(text: String<A>) -> Self {
        CstInputValue::String(text)
    }
}

impl<A: Allocator> From<Vec<CstInputValue<A>, A>> for CstInputValue<A> {
    ghost from_gives = { λ vs v. plain v ≡ array (items_plain vs.items) };

    fn from(elements: Vec<CstInputValue<A>, A>) -> Self {
        CstInputValue::Array(elements)
    }
}

impl<A: Allocator> From<Vec<(String<A>, CstInputValue<A>), A>> for CstInputValue<A> {
    ghost from_gives = { λ ps v. plain v ≡ object (members_plain ps.items) };

    fn from(properties: Vec<(String<A>, CstInputValue<A>), A>) -> Self {
        CstInputValue::Object(properties)
    }
}

impl<A: Allocator> CstInputValue<A> {
    /// The string of this text.
    pub fn from_str(alloc: A, text: &str) -> Result<Self, AllocError>
        ensures { IfOk result (λ v. plain v ≡ string (chars text.now)) }
    {
        Ok(CstInputValue::String(String::from_str(alloc, text)?))
    }

    /// The number, in decimal digits.
    pub fn from_usize(alloc: A, value: usize) -> Result<Self, AllocError>
        ensures value { IfOk result (λ v. plain v ≡ number (decimal value)) }
        ensures literal { IfOk result (λ v. IsAlwaysNumber (plain v)) }
    {
        CstInputValue::from_u64(alloc, value as u64)
    }

    /// The number, in decimal digits.
    pub fn from_u64(alloc: A, value: u64) -> Result<Self, AllocError>
        ensures value { IfOk result (λ v. plain v ≡ number (decimal value)) }
        ensures literal { IfOk result (λ v. IsAlwaysNumber (plain v)) }
    {
        let digits = value.to_string(alloc)?;
        Ok(CstInputValue::Number(digits))
    }

    /// The number, in decimal digits.
    pub fn from_u32(alloc: A, value: u32) -> Result<Self, AllocError>
        ensures value { IfOk result (λ v. plain v ≡ number (decimal value)) }
        ensures literal { IfOk result (λ v. IsAlwaysNumber (plain v)) }
    {
        CstInputValue::from_u64(alloc, u64::from(value))
    }

    /// The number, in decimal digits. A `-` stands before them where it is below 0.
    pub fn from_isize(alloc: A, value: isize) -> Result<Self, AllocError>
        ensures value { IfOk result (λ v. plain v ≡ number (signed_decimal value)) }
        ensures literal { IfOk result (λ v. IsAlwaysNumber (plain v)) }
    {
        CstInputValue::from_i64(alloc, value as i64)
    }

    /// The number, in decimal digits. A `-` stands before them where it is below 0.
    pub fn from_i64(alloc: A, value: i64) -> Result<Self, AllocError>
        ensures value { IfOk result (λ v. plain v ≡ number (signed_decimal value)) }
        ensures literal { IfOk result (λ v. IsAlwaysNumber (plain v)) }
    {
        let text = value.to_string(alloc)?;
        Ok(CstInputValue::Number(text))
    }

    /// The number, in decimal digits. A `-` stands before them where it is below 0.
    pub fn from_i32(alloc: A, value: i32) -> Result<Self, AllocError>
        ensures value { IfOk result (λ v. plain v ≡ number (signed_decimal value)) }
        ensures literal { IfOk result (λ v. IsAlwaysNumber (plain v)) }
    {
        CstInputValue::from_i64(alloc, i64::from(value))
    }
}
