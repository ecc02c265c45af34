//! Names that occur twice in an object of a value.

ghost use Rattle.std.specs.Prelude.{chars, IfErr, OnOk};
ghost use Rattle.jsonc_layout.specs.input.Views.{items_plain, members_plain, plain};
ghost use Rattle.jsonc_parser.specs.patch.Equality.{HasUniqueNames, ItemsHaveUniqueNames, MembersHaveUniqueNames};
ghost use Rattle.jsonc_parser.specs.patch.MergeSteps.{AreNamesTwice, HasNameTwice, ReportsName};
ghost use Rattle.jsonc_parser.specs.patch.PatchTexts.{NamesDiffer};
ghost use Rattle.jsonc_text.specs.Plain.{array, object};

use super::merging::MergeFault;
use indexmap::IndexSet;
use jsonc_cst::cst::CstInputValue;
use std::alloc::Allocator;
use std::hash::{BuildHasherDefault, FoldHasher};

// Names that were seen, each once.
type Names<'a, A> = IndexSet<&'a str, BuildHasherDefault<FoldHasher>, A>;

// The fault of a name that occurs twice, or of no memory for it.
fn repeated<A: Allocator>(alloc: A, name: &str) -> MergeFault<A>
    ensures { ReportsName (chars name.now) result }
{
    match String::from_str(alloc, name) {
        Ok(name) => MergeFault::RepeatedName(name),
        Err(_) => MergeFault::OutOfMemory,
    }
}

// Sees that no two members have one name.
#[inline(never)]
fn see_names<A: Allocator + Copy>(
    alloc: A,
    members: &[(String<A>, CstInputValue<A>)],
) -> Result<(), MergeFault<A>>
    ensures differ { OnOk result (NamesDiffer (members_plain members.now)) }
    ensures repeated { IfErr result (AreNamesTwice (members_plain members.now)) }
{
    let mut seen: Names<'_, A> = IndexSet::new(alloc);
    for member in members {
        let name = member.0.as_str();
        let Ok(added) = seen.insert(name) else {
            return Err(MergeFault::OutOfMemory);
        };
        if !added {
            return Err(repeated(alloc, name));
        }
    }
    Ok(())
}

// Sees that no name occurs twice in an object of an element.
#[cycle(unique)]
fn see_elements<A: Allocator + Copy>(
    alloc: A,
    elements: &[CstInputValue<A>],
) -> Result<(), MergeFault<A>>
    ensures unique { OnOk result (ItemsHaveUniqueNames (items_plain elements.now)) }
    ensures repeated { IfErr result (HasNameTwice (array (items_plain elements.now))) }
{
    for element in elements {
        match see_unique_names(alloc, element) {
            Ok(()) => {}
            Err(fault) => return Err(fault),
        }
    }
    Ok(())
}

// Sees that no two members have one name, and so in their values.
#[cycle(unique)]
fn see_members<A: Allocator + Copy>(
    alloc: A,
    members: &[(String<A>, CstInputValue<A>)],
) -> Result<(), MergeFault<A>>
    ensures unique { OnOk result (MembersHaveUniqueNames (members_plain members.now)) }
    ensures repeated { IfErr result (HasNameTwice (object (members_plain members.now))) }
{
    if let Err(fault) = see_names(alloc, members) {
        return Err(fault);
    }
    for member in members {
        match see_unique_names(alloc, &member.1) {
            Ok(()) => {}
            Err(fault) => return Err(fault),
        }
    }
    Ok(())
}

/// Sees that no name occurs twice in an object of a value.
#[cycle(unique)]
pub(super) fn see_unique_names<A: Allocator + Copy>(
    alloc: A,
    value: &CstInputValue<A>,
) -> Result<(), MergeFault<A>>
    ensures unique { OnOk result (HasUniqueNames (plain value.now)) }
    ensures repeated { IfErr result (HasNameTwice (plain value.now)) }
{
    match value {
        CstInputValue::Null => Ok(()),
        CstInputValue::Bool(_) => Ok(()),
        CstInputValue::Number(_) => Ok(()),
        CstInputValue::String(_) => Ok(()),
        CstInputValue::Array(elements) => see_elements(alloc, elements.as_slice()),
        CstInputValue::Object(members) => see_members(alloc, members.as_slice()),
    }
}
