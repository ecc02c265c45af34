//! Names, handed over.
ghost use Rattle.std.specs.Prelude.{◌≡◌, IfOk, OnOk};
ghost use Rattle.std.specs.Str.{IsUtf8};
ghost use Rattle.jsonc_walk.specs.Name.{name_at};
ghost use Rattle.jsonc_walk.specs.Handed.{Follows};
ghost use Rattle.jsonc_walk.specs.Written.{IsWritten};

use crate::name::{ObjectPropName, StringLit};
use crate::receiver::Receiver;
use std::alloc::Allocator;
use std::borrow::CowStr;

/// A name, handed over: by its place where it has no backslash.
#[inline(always)]
pub(crate) fn hand_name<'a, A: Allocator, R: Receiver<String<A>>>(
    to: &mut R,
    name: ObjectPropName<'a, A>,
) -> Result<R::Property, R::Error>
    requires utf8 { IsUtf8 (R.source to.old).bytes }
    requires written { IsWritten (R.source to.old).options (R.source to.old).bytes name }
    requires follows { Follows (R.source to.old) (R.reached to.old) (name_at name).range.start }
    ensures source { OnOk result (R.source to.new ≡ R.source to.old) }
    ensures reached { OnOk result (R.reached to.new (name_at name.entry).range.end) }
    ensures named { IfOk result (λ p. R.names to.old to.new p (name_at name.entry)) }
{
    match name {
        ObjectPropName::Word(word) => to.word_name(word.range),
        ObjectPropName::String(string) => {
            let StringLit { range, value } = string;
            match value {
                CowStr::Borrowed(_) => to.string_name(range),
                CowStr::Owned(value) => to.decoded_name(range, value),
            }
        }
    }
}
