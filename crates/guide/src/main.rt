//! The recipes of `docs/GUIDE.md`, one after another: `guide` prints each text before and after. `guide FILE..`
//! sets the font size in each file.
#![tactic(auto)]

mod edits;
mod files;
mod formats;
mod mends;
mod migrate;
mod patches;
mod read;
mod recipes;
mod texts;
mod walk;

use jsonc_parser::ParseOptions;
use jsonc_parser::cst::{CstRootNode, EditError};
use std::alloc::Allocator;
use std::default::Default;
use std::env;
use std::process::ExitCode;

/// A recipe of the page that edits a document.
#[derive(Clone, Copy)]
enum Recipe {
    SetFontSize,
    AddRuler,
    InsertFirst,
    RemoveFont,
    RemoveWithComments,
    RemoveFound,
    SortWithHeaders,
    SortUnderHeaders,
    SetLast,
    SetTrailingCommas,
    NeverThenIfMultiline,
    DropFirst,
    WriteNumber,
    Migrate,
}

/// Each recipe with its name and the texts that it is shown on.
static RECIPES: [(&str, Recipe, &str); 40] = [
    ("set_font_size", Recipe::SetFontSize, texts::EDITOR),
    ("set_font_size", Recipe::SetFontSize, "{}"),
    ("set_font_size", Recipe::SetFontSize, "{\"editor\": 1}"),
    ("set_font_size", Recipe::SetFontSize, texts::TWICE),
    ("add_ruler", Recipe::AddRuler, texts::EDITOR),
    ("add_ruler", Recipe::AddRuler, texts::RULERS),
    ("insert_first", Recipe::InsertFirst, texts::HEAD),
    ("insert_first", Recipe::InsertFirst, "{\"a\": 1}"),
    ("remove_font", Recipe::RemoveFont, texts::FONT),
    (
        "remove_with_comments",
        Recipe::RemoveWithComments,
        texts::FONT,
    ),
    ("sort_by_name", Recipe::SortWithHeaders, texts::SORT),
    ("sort_by_name", Recipe::SortWithHeaders, texts::BESIDE),
    ("sort_by_name", Recipe::SortWithHeaders, texts::OWN),
    ("sort_under_headers", Recipe::SortUnderHeaders, texts::OWN),
    (
        "use_trailing_commas",
        Recipe::SetTrailingCommas,
        texts::COMMAS,
    ),
    ("set_last_font_size", Recipe::SetLast, texts::TWO),
    ("set_last_font_size", Recipe::SetLast, ""),
    (
        "never_then_if_multiline",
        Recipe::NeverThenIfMultiline,
        texts::COMMAS,
    ),
    ("drop_first", Recipe::DropFirst, "[1, 2, 3]"),
    ("drop_first", Recipe::DropFirst, "{\"b\": 1, \"a\": 2}"),
    ("write_number", Recipe::WriteNumber, "[1]"),
    ("insert_first", Recipe::InsertFirst, texts::USES),
    ("add_ruler", Recipe::AddRuler, texts::TRAILING),
    ("sort_by_name", Recipe::SortWithHeaders, texts::CARRIED),
    ("migrate", Recipe::Migrate, texts::SETTINGS),
    ("migrate", Recipe::Migrate, texts::MIGRATED),
    ("migrate", Recipe::Migrate, "[{\"colour\": 1}]"),
    ("migrate", Recipe::Migrate, "{\"colour\": 1, \"theme\": 2}"),
    ("migrate", Recipe::Migrate, texts::BOTH),
    ("migrate", Recipe::Migrate, texts::NO_TARGET),
    ("migrate", Recipe::Migrate, "{}"),
    ("migrate", Recipe::Migrate, ""),
    ("migrate", Recipe::Migrate, texts::ONE_LINE),
    ("migrate", Recipe::Migrate, texts::CR_LF),
    ("migrate", Recipe::Migrate, texts::WITHIN),
    ("insert_first", Recipe::InsertFirst, "[1]"),
    ("insert_first", Recipe::InsertFirst, "{\"theme\": 1}"),
    ("remove_found", Recipe::RemoveFound, texts::SETTINGS),
    ("remove_found", Recipe::RemoveFound, "[1]"),
    ("set_font_size", Recipe::SetFontSize, "[1]"),
];

/// Makes a recipe of a document.
fn make<A: Allocator + Copy>(recipe: Recipe, doc: &mut CstRootNode<A>) -> Result<(), EditError> {
    match recipe {
        Recipe::SetFontSize => recipes::set_font_size(doc),
        Recipe::AddRuler => recipes::add_ruler(doc),
        Recipe::InsertFirst => recipes::insert_first(doc),
        Recipe::RemoveFont => recipes::remove_font(doc),
        Recipe::RemoveWithComments => recipes::remove_with_comments(doc),
        Recipe::RemoveFound => recipes::remove_found(doc),
        Recipe::SortWithHeaders => recipes::sort_by_name(doc),
        Recipe::SortUnderHeaders => recipes::sort_under_headers(doc),
        Recipe::SetLast => recipes::set_last_font_size(doc),
        Recipe::SetTrailingCommas => recipes::use_trailing_commas(doc),
        Recipe::NeverThenIfMultiline => recipes::never_then_if_multiline(doc),
        Recipe::DropFirst => recipes::drop_first(doc),
        Recipe::WriteNumber => recipes::write_number(doc),
        Recipe::Migrate => migrate::migrate(doc),
    }
}

/// Prints a text before a recipe and after it.
fn show<R: AllocGlobal + Print>(
    rt: &R,
    name: &str,
    recipe: Recipe,
    text: &str,
) -> anyhow::Result<()> {
    println!(rt; "== {name}\n{text}\n--")?;
    let mut doc = CstRootNode::parse(rt.alloc(), text, &ParseOptions::default())?;
    match make(recipe, &mut doc) {
        Ok(()) => println!(rt; "{doc}")?,
        Err(error) => println!(rt; "refused: {error}")?,
    }
    Ok(())
}

fn main(rt: HostRuntime) -> anyhow::Result<ExitCode> {
    let paths: Vec<String> = env::args(&rt)?.skip(1).collect(rt.alloc())?;
    if !paths.is_empty() {
        let all = files::set_in_all(&rt, &paths)?;
        return Ok(if all {
            ExitCode::SUCCESS
        } else {
            ExitCode::FAILURE
        });
    }
    for (name, recipe, text) in RECIPES.iter() {
        show(&rt, name, *recipe, text)?;
    }
    read::readings(&rt)?;
    walk::walks(&rt)?;
    mends::mends(&rt)?;
    formats::formats(&rt)?;
    edits::edits(&rt)?;
    patches::patches(&rt)?;
    Ok(ExitCode::SUCCESS)
}
