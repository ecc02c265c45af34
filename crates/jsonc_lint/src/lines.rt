//! Lines that tell what is found in a file or in standard input, and the same as JSON.

ghost use Rattle.std.specs.Prelude.{◌≡◌, IfOk, chars, string_bytes};
ghost use Rattle.std.specs.Char.{is_control};
ghost use Rattle.std.specs.List.{list_any};
ghost use Rattle.jsonc_lint.specs.Lines.{file_line, input_line, json_array, json_line, json_place, shown_name};

use crate::finding::{Finding, FindingKind};
use jsonc_layout::input::spelling::spell;
use std::alloc::{AllocError, Allocator};

// Whether a control character is in a text.
fn has_control(text: &str) -> bool
    ensures { result ≡ list_any is_control (chars text.now) }
{
    text.chars().any(|c| c.is_control())
}

/// The name of a file as lines show it: as it is, or, where it has a control character, as a string of JSON.
pub fn shown_name<A: Allocator>(alloc: A, name: &str) -> Result<String<A>, AllocError>
    ensures { IfOk result (λ s. string_bytes s ≡ shown_name name.now) }
{
    if has_control(name) {
        return spell(alloc, name);
    }
    String::from_str(alloc, name)
}

// The place of a finding, as members of an object of JSON.
fn json_place<A: Allocator, B: Allocator>(
    alloc: B,
    finding: &Finding<A>,
) -> Result<String<B>, AllocError>
    ensures { IfOk result (λ s. string_bytes s ≡ json_place finding.now) }
{
    format!(in alloc;
        "\"line\":{},\"column\":{},\"start\":{},\"end\":{}",
        finding.line, finding.column, finding.range.start, finding.range.end
    )
}

impl<A: Allocator> Finding<A> {
    /// The line of a finding in a file, `FILE:LINE:COLUMN: MESSAGE`, without its line feed. FILE is what [`shown_name`]
    /// shows.
    pub fn file_line<B: Allocator + Copy>(
        &self,
        alloc: B,
        file: &str,
    ) -> Result<String<B>, AllocError>
        ensures { IfOk result (λ s. string_bytes s ≡ file_line file.now self.now) }
    {
        let file = shown_name(alloc, file)?;
        format!(in alloc; "{file}:{}:{}: {self}", self.line, self.column)
    }

    /// The line of a finding in standard input, as a fault prints: `Expected comma on line 2 column 3`, or
    /// `Name stands twice: "a" on line 2 column 3, first on line 1 column 2`, without its line feed.
    pub fn input_line<B: Allocator>(&self, alloc: B) -> Result<String<B>, AllocError>
        ensures { IfOk result (λ s. string_bytes s ≡ input_line self.now) }
    {
        match &self.kind {
            FindingKind::RepeatedName(_, first) => format!(in alloc;
                "{} on line {} column {}, first on line {} column {}",
                self.kind, self.line, self.column, first.line, first.column
            ),
            kind => format!(in alloc; "{kind} on line {} column {}", self.line, self.column),
        }
    }

    /// The finding as an object of JSON on one line: the file's name, the line, the column, the first byte, the byte
    /// behind the last, the kind and the message.
    pub fn to_json<B: Allocator + Copy>(
        &self,
        alloc: B,
        file: &str,
    ) -> Result<String<B>, AllocError>
        ensures { IfOk result (λ s. string_bytes s ≡ json_line file.now self.now) }
    {
        let message = format!(in alloc; "{self}")?;
        format!(in alloc;
            "{{\"file\":{},{},\"kind\":\"{}\",\"message\":{}}}",
            spell(alloc, file)?,
            json_place(alloc, self)?,
            self.kind.name(),
            spell(alloc, message.as_str())?
        )
    }
}

/// The array of these objects of JSON, each on a line of its own, and a line feed.
pub fn json_array<A: Allocator + Copy>(
    alloc: A,
    objects: &[String<A>],
) -> Result<String<A>, AllocError>
    ensures { IfOk result (λ s. string_bytes s ≡ json_array objects.now) }
{
    let rows = objects.join(alloc, ",\n")?;
    format!(in alloc; "[{rows}]\n")
}
