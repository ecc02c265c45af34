//! From what `clap` found to a call.
ghost use Rattle.std.specs.Prelude.{◌≡◌, ◌++◌, ℕ, List, map, IfOk, IfSome, OnOk, option_map};
ghost use Rattle.clap.specs.Matches.{found_of};
ghost use Rattle.jsonc_words.specs.Inputs.{AreInputs};
ghost use Rattle.jsonc_words.specs.Reading.{IsBound, IsCommandOf, IsDialect, IsFlag, IsFormat, IsIndent, IsLineEnd, IsRead, IsText, IsTrailingCommas, IsValue};
ghost use Rattle.jsonc_words.specs.Reading.{file_words, moved_word, option_list, text_id};

use crate::call::{
    Call, Command, Dialect, Format, FormatOptions, Indent, Input, LineEnd, Text, TrailingCommas,
    Value,
};
use crate::name::CommandName;
use clap::ArgMatches;
use std::alloc::{AllocError, Global};

/// The text of the argument of this id: `-f` names where it is, or else it is the argument's word.
fn text_from<'a>(matches: &ArgMatches<'a>, id: &str) -> Option<Text<'a>>
    ensures { IfSome result (IsText (found_of matches.now) id.now) }
{
    match matches.get_str("from-file") {
        Some(file) => Some(Text::In(Input::from_word(file))),
        None => match matches.get_str(id) {
            Some(word) => Some(Text::Word(word)),
            None => None,
        },
    }
}

/// Whether the option without a value was given.
fn flag_from(matches: &ArgMatches<'_>, id: &str) -> bool
    ensures { IsFlag (found_of matches.now) id.now result }
{
    matches.get_flag(id)
}

/// The value of a command that takes JSON.
fn value_from<'a>(matches: &ArgMatches<'a>) -> Option<Value<'a>>
    ensures { IfSome result (IsValue (found_of matches.now)) }
{
    let Some(text) = text_from(matches, "json") else {
        return None;
    };
    let is_string = flag_from(matches, "string");
    Some(Value { text, is_string })
}

/// How findings are written.
fn format_from(matches: &ArgMatches<'_>) -> Format
    ensures { IsFormat (found_of matches.now) result }
{
    match matches.get_str("format") {
        Some("json") => Format::Json,
        _ => Format::Text,
    }
}

/// Which texts are taken.
fn dialect_from(matches: &ArgMatches<'_>) -> Dialect
    ensures { IsDialect (found_of matches.now) result }
{
    match matches.get_str("dialect") {
        Some("json") => Dialect::Json,
        Some("jsonc") => Dialect::Jsonc,
        Some("json5") => Dialect::Json5,
        _ => Dialect::All,
    }
}

/// How many bytes a document may have between the operations of a patch.
fn most_bytes_from(matches: &ArgMatches<'_>) -> Option<u64>
    ensures { IsBound (found_of matches.now) result }
{
    matches.get_one::<u64>("max-bytes")
}

/// The level of indent that `--indent` asks for.
fn indent_from(matches: &ArgMatches<'_>) -> Option<Indent>
    ensures { IsIndent (found_of matches.now) result }
{
    match matches.get_str("indent") {
        Some("0") => Some(Indent::Spaces(0)),
        Some("1") => Some(Indent::Spaces(1)),
        Some("2") => Some(Indent::Spaces(2)),
        Some("3") => Some(Indent::Spaces(3)),
        Some("4") => Some(Indent::Spaces(4)),
        Some("5") => Some(Indent::Spaces(5)),
        Some("6") => Some(Indent::Spaces(6)),
        Some("7") => Some(Indent::Spaces(7)),
        Some("8") => Some(Indent::Spaces(8)),
        Some("tab") => Some(Indent::Tab),
        _ => None,
    }
}

/// The end of lines that `--line-end` asks for.
fn line_end_from(matches: &ArgMatches<'_>) -> Option<LineEnd>
    ensures { IsLineEnd (found_of matches.now) result }
{
    match matches.get_str("line-end") {
        Some("lf") => Some(LineEnd::Lf),
        Some("crlf") => Some(LineEnd::CrLf),
        _ => None,
    }
}

/// What `--trailing-commas` asks for.
fn trailing_commas_from(matches: &ArgMatches<'_>) -> Option<TrailingCommas>
    ensures { IsTrailingCommas (found_of matches.now) result }
{
    match matches.get_str("trailing-commas") {
        Some("never") => Some(TrailingCommas::Never),
        Some("multiline") => Some(TrailingCommas::Multiline),
        _ => None,
    }
}

fn check_from<'a>(matches: &ArgMatches<'a>) -> Command<'a>
    ensures { IsCommandOf (found_of matches.now) CommandName.Check result }
{
    let format = format_from(matches);
    let finds_all = flag_from(matches, "all");
    Command::Check { format, finds_all }
}

fn set_from<'a>(matches: &ArgMatches<'a>) -> Option<Command<'a>>
    ensures { IfSome result (IsCommandOf (found_of matches.now) CommandName.Set) }
{
    let Some(name) = matches.get_str("name") else {
        return None;
    };
    let Some(value) = value_from(matches) else {
        return None;
    };
    Some(Command::Set { name, value })
}

fn append_from<'a>(matches: &ArgMatches<'a>) -> Option<Command<'a>>
    ensures { IfSome result (IsCommandOf (found_of matches.now) CommandName.Append) }
{
    let Some(value) = value_from(matches) else {
        return None;
    };
    Some(Command::Append { value })
}

fn remove_from<'a>(matches: &ArgMatches<'a>) -> Option<Command<'a>>
    ensures { IfSome result (IsCommandOf (found_of matches.now) CommandName.Remove) }
{
    let Some(name) = matches.get_str("name") else {
        return None;
    };
    let with_comments = flag_from(matches, "comments");
    Some(Command::Remove {
        name,
        with_comments,
    })
}

fn sort_from<'a>(matches: &ArgMatches<'a>) -> Command<'a>
    ensures { IsCommandOf (found_of matches.now) CommandName.Sort result }
{
    let at = matches.get_str("at");
    let is_recursive = flag_from(matches, "recursive");
    let keeps_headers = flag_from(matches, "keep-headers");
    Command::Sort {
        at,
        is_recursive,
        keeps_headers,
    }
}

fn drop_from<'a>(matches: &ArgMatches<'a>) -> Option<Command<'a>>
    ensures { IfSome result (IsCommandOf (found_of matches.now) CommandName.Drop) }
{
    let Some(place) = matches.get_str("place") else {
        return None;
    };
    let with_comments = flag_from(matches, "comments");
    Some(Command::Drop {
        place,
        with_comments,
    })
}

fn get_from<'a>(matches: &ArgMatches<'a>) -> Option<Command<'a>>
    ensures { IfSome result (IsCommandOf (found_of matches.now) CommandName.Get) }
{
    let Some(place) = matches.get_str("place") else {
        return None;
    };
    let is_raw = flag_from(matches, "raw");
    Some(Command::Get { place, is_raw })
}

fn put_from<'a>(matches: &ArgMatches<'a>) -> Option<Command<'a>>
    ensures { IfSome result (IsCommandOf (found_of matches.now) CommandName.Put) }
{
    let Some(place) = matches.get_str("place") else {
        return None;
    };
    let Some(value) = value_from(matches) else {
        return None;
    };
    Some(Command::Put { place, value })
}

fn rename_from<'a>(matches: &ArgMatches<'a>) -> Option<Command<'a>>
    ensures { IfSome result (IsCommandOf (found_of matches.now) CommandName.Rename) }
{
    let Some(place) = matches.get_str("place") else {
        return None;
    };
    let Some(name) = matches.get_str("name") else {
        return None;
    };
    Some(Command::Rename { place, name })
}

fn comment_from<'a>(matches: &ArgMatches<'a>) -> Option<Command<'a>>
    ensures { IfSome result (IsCommandOf (found_of matches.now) CommandName.Comment) }
{
    let Some(place) = matches.get_str("place") else {
        return None;
    };
    let Some(text) = text_from(matches, "text") else {
        return None;
    };
    let is_after = flag_from(matches, "after");
    Some(Command::Comment {
        place,
        text,
        is_after,
    })
}

fn patch_from<'a>(matches: &ArgMatches<'a>) -> Option<Command<'a>>
    ensures { IfSome result (IsCommandOf (found_of matches.now) CommandName.Patch) }
{
    let Some(patch) = text_from(matches, "patch") else {
        return None;
    };
    let most_bytes = most_bytes_from(matches);
    Some(Command::Patch { patch, most_bytes })
}

fn merge_from<'a>(matches: &ArgMatches<'a>) -> Option<Command<'a>>
    ensures { IfSome result (IsCommandOf (found_of matches.now) CommandName.Merge) }
{
    let Some(patch) = text_from(matches, "patch") else {
        return None;
    };
    Some(Command::Merge { patch })
}

fn lint_from<'a>(matches: &ArgMatches<'a>) -> Command<'a>
    ensures { IsCommandOf (found_of matches.now) CommandName.Lint result }
{
    let format = format_from(matches);
    let no_trailing_commas = flag_from(matches, "no-trailing-commas");
    Command::Lint {
        format,
        no_trailing_commas,
    }
}

fn style_from<'a>(matches: &ArgMatches<'a>) -> Command<'a>
    ensures { IsCommandOf (found_of matches.now) CommandName.Format result }
{
    let indent = indent_from(matches);
    let line_end = line_end_from(matches);
    let expand = flag_from(matches, "expand");
    let trailing_commas = trailing_commas_from(matches);
    let only_checks = flag_from(matches, "check");
    let shows_diff = flag_from(matches, "diff");
    Command::Format(FormatOptions {
        indent,
        line_end,
        expand,
        trailing_commas,
        only_checks,
        shows_diff,
    })
}

/// The command with its arguments and options, where each argument that it needs was found.
fn command_from<'a>(matches: &ArgMatches<'a>, name: CommandName) -> Option<Command<'a>>
    ensures { IfSome result (IsCommandOf (found_of matches.now) name) }
{
    match name {
        CommandName::Check => Some(check_from(matches)),
        CommandName::Print => Some(Command::Print),
        CommandName::Set => set_from(matches),
        CommandName::Append => append_from(matches),
        CommandName::Remove => remove_from(matches),
        CommandName::Sort => Some(sort_from(matches)),
        CommandName::Drop => drop_from(matches),
        CommandName::Get => get_from(matches),
        CommandName::Put => put_from(matches),
        CommandName::Rename => rename_from(matches),
        CommandName::Comment => comment_from(matches),
        CommandName::Patch => patch_from(matches),
        CommandName::Merge => merge_from(matches),
        CommandName::Json => Some(Command::Json),
        CommandName::Lint => Some(lint_from(matches)),
        CommandName::Format => Some(style_from(matches)),
        CommandName::Mend => Some(Command::Mend),
    }
}

/// The argument of the command that `-f` may give.
fn text_id(name: CommandName) -> Option<&'static str>
    ensures { option_map (λ id. id.now) result ≡ text_id name }
{
    match name {
        CommandName::Set | CommandName::Append | CommandName::Put => Some("json"),
        CommandName::Comment => Some("text"),
        CommandName::Patch | CommandName::Merge => Some("patch"),
        _ => None,
    }
}

/// The word in the place of an argument that `-f` gives.
fn moved_word<'a>(matches: &ArgMatches<'a>, name: CommandName) -> Option<&'a str>
    ensures { option_map (λ word. word.now) result ≡ moved_word (found_of matches.now) name }
{
    let Some(_) = matches.get_str("from-file") else {
        return None;
    };
    match text_id(name) {
        Some(id) => matches.get_str(id),
        None => None,
    }
}

/// Adds the inputs that the words name.
fn push_inputs<'a>(files: &mut Vec<Input<'a>>, words: &[&'a str]) -> Result<(), AllocError>
    ensures { (before : List (List ℕ)) → AreInputs before files.old.items
        → OnOk result (AreInputs (before ++ map (λ word. word.now) words.now) files.new.items) }
{
    for word in words {
        files.push(Input::from_word(word))?;
    }
    Ok(())
}

/// The file that a word in the place of an argument names, where `-f` gives that.
#[tactic(auto, using(crate::proofs::Inputs::inputs_one, crate::proofs::Inputs::inputs_none))]
fn moved_file<'a>(
    alloc: Global,
    matches: &ArgMatches<'a>,
    name: CommandName,
) -> Result<Vec<Input<'a>>, AllocError>
    ensures { IfOk result (λ files. AreInputs (option_list (moved_word (found_of matches.now) name)) files.items) }
{
    let mut files = Vec::new(alloc);
    match moved_word(matches, name) {
        Some(word) => {
            files.push(Input::from_word(word))?;
            Ok(files)
        }
        None => Ok(files),
    }
}

/// The files that the words name.
#[tactic(auto, using(crate::proofs::Inputs::inputs_of_files, crate::proofs::Inputs::inputs_of_no_files))]
fn files_from<'a>(
    alloc: Global,
    matches: &ArgMatches<'a>,
    name: CommandName,
) -> Result<Vec<Input<'a>>, AllocError>
    ensures { IfOk result (λ files. AreInputs (file_words (found_of matches.now) name) files.items) }
{
    let mut files = moved_file(alloc, matches, name)?;
    match matches.get_strs("files") {
        Some(words) => {
            push_inputs(&mut files, words)?;
            Ok(files)
        }
        None => Ok(files),
    }
}

/// The call that was found, or nothing where an argument that the command needs was not.
pub(crate) fn call_from<'a>(
    alloc: Global,
    matches: &ArgMatches<'a>,
    name: CommandName,
) -> Result<Option<Call<'a>>, AllocError>
    ensures { IfOk result (λ found. IfSome found (IsRead (found_of matches.now) name)) }
{
    let Some(command) = command_from(matches, name) else {
        return Ok(None);
    };
    let files = files_from(alloc, matches, name)?;
    Ok(Some(Call {
        command,
        dialect: dialect_from(matches),
        must_exist: flag_from(matches, "must-exist"),
        in_place: flag_from(matches, "in-place"),
        files,
    }))
}
