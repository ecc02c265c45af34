//! Words that ask for a call.
use super::said;
use std::test::Fail;

/// Each line has words, and the call that they ask for.
const ROWS: &str = r#"check => Check { format: Text, finds_all: false } All []
check a.json b.json => Check { format: Text, finds_all: false } All [File("a.json"), File("b.json")]
check --format json - => Check { format: Json, finds_all: false } All [Standard]
check --all f => Check { format: Text, finds_all: true } All [File("f")]
check --format json --all => Check { format: Json, finds_all: true } All []
format => Format(FormatOptions { indent: None, line_end: None, expand: false, trailing_commas: None, only_checks: false, shows_diff: false }) All []
format -i f g => Format(FormatOptions { indent: None, line_end: None, expand: false, trailing_commas: None, only_checks: false, shows_diff: false }) All in place [File("f"), File("g")]
format --indent 0 f => Format(FormatOptions { indent: Some(Spaces(0)), line_end: None, expand: false, trailing_commas: None, only_checks: false, shows_diff: false }) All [File("f")]
format --indent 8 --line-end lf => Format(FormatOptions { indent: Some(Spaces(8)), line_end: Some(Lf), expand: false, trailing_commas: None, only_checks: false, shows_diff: false }) All []
format --indent=tab --line-end=crlf --expand => Format(FormatOptions { indent: Some(Tab), line_end: Some(CrLf), expand: true, trailing_commas: None, only_checks: false, shows_diff: false }) All []
format --check f g - => Format(FormatOptions { indent: None, line_end: None, expand: false, trailing_commas: None, only_checks: true, shows_diff: false }) All [File("f"), File("g"), Standard]
format --diff f g => Format(FormatOptions { indent: None, line_end: None, expand: false, trailing_commas: None, only_checks: false, shows_diff: true }) All [File("f"), File("g")]
format --check --diff => Format(FormatOptions { indent: None, line_end: None, expand: false, trailing_commas: None, only_checks: true, shows_diff: true }) All []
format --trailing-commas never => Format(FormatOptions { indent: None, line_end: None, expand: false, trailing_commas: Some(Never), only_checks: false, shows_diff: false }) All []
format --dialect json --trailing-commas never f => Format(FormatOptions { indent: None, line_end: None, expand: false, trailing_commas: Some(Never), only_checks: false, shows_diff: false }) Json [File("f")]
format --trailing-commas=multiline -i f => Format(FormatOptions { indent: None, line_end: None, expand: false, trailing_commas: Some(Multiline), only_checks: false, shows_diff: false }) All in place [File("f")]
mend => Mend All []
mend -i f g => Mend All in place [File("f"), File("g")]
print => Print All []
print -i a.json b.json => Print All in place [File("a.json"), File("b.json")]
set theme "dark" => Set { name: "theme", value: Value { text: Word("\"dark\""), is_string: false } } All []
set a -5 => Set { name: "a", value: Value { text: Word("-5"), is_string: false } } All []
set a -1.5e3 f.json => Set { name: "a", value: Value { text: Word("-1.5e3"), is_string: false } } All [File("f.json")]
set -- -a -x => Set { name: "-a", value: Value { text: Word("-x"), is_string: false } } All []
set theme dark --string -i f.json => Set { name: "theme", value: Value { text: Word("dark"), is_string: true } } All in place [File("f.json")]
set --string -i theme dark f.json => Set { name: "theme", value: Value { text: Word("dark"), is_string: true } } All in place [File("f.json")]
append 1 => Append { value: Value { text: Word("1"), is_string: false } } All []
append -f v.json => Append { value: Value { text: In(File("v.json")), is_string: false } } All []
append -f v.json f.json => Append { value: Value { text: In(File("v.json")), is_string: false } } All [File("f.json")]
remove a => Remove { name: "a", with_comments: false } All []
remove a --comments --must-exist => Remove { name: "a", with_comments: true } All must exist []
sort => Sort { at: None, is_recursive: false, keeps_headers: false } All []
sort --at /a --recursive --keep-headers f => Sort { at: Some("/a"), is_recursive: true, keeps_headers: true } All [File("f")]
drop ["a"] --comments => Drop { place: "[\"a\"]", with_comments: true } All []
get /a/0 => Get { place: "/a/0", is_raw: false } All []
get -r /a f g => Get { place: "/a", is_raw: true } All [File("f"), File("g")]
get --raw /a --must-exist => Get { place: "/a", is_raw: true } All must exist []
put ["a"] 1 => Put { place: "[\"a\"]", value: Value { text: Word("1"), is_string: false } } All []
put /a -7 -i f g => Put { place: "/a", value: Value { text: Word("-7"), is_string: false } } All in place [File("f"), File("g")]
put -f v.json /a f.json => Put { place: "/a", value: Value { text: In(File("v.json")), is_string: false } } All [File("f.json")]
put /a f.json -f - --string => Put { place: "/a", value: Value { text: In(Standard), is_string: true } } All [File("f.json")]
put -f v.json /a f g -i => Put { place: "/a", value: Value { text: In(File("v.json")), is_string: false } } All in place [File("f"), File("g")]
put --from-file=v.json /a => Put { place: "/a", value: Value { text: In(File("v.json")), is_string: false } } All []
rename /a b f => Rename { place: "/a", name: "b" } All [File("f")]
comment /a text => Comment { place: "/a", text: Word("text"), is_after: false } All []
comment --after -f t /a f => Comment { place: "/a", text: In(File("t")), is_after: true } All [File("f")]
patch [] => Patch { patch: Word("[]"), most_bytes: None } All []
patch --max-bytes 100 [] -i f => Patch { patch: Word("[]"), most_bytes: Some(100) } All in place [File("f")]
patch -f p f g -i => Patch { patch: In(File("p")), most_bytes: None } All in place [File("f"), File("g")]
merge {} - => Merge { patch: Word("{}") } All [Standard]
json f g => Json All [File("f"), File("g")]
lint => Lint { format: Text, no_trailing_commas: false } All []
lint --no-trailing-commas --format=json f => Lint { format: Json, no_trailing_commas: true } All [File("f")]
print --dialect json => Print Json []
print --dialect jsonc => Print Jsonc []
print --dialect=json5 f => Print Json5 [File("f")]
print --dialect all => Print All []
print -- -f => Print All [File("-f")]"#;

#[test]
fn words_ask_for_calls(rt: HostRuntime) -> Result<(), Fail> {
    let alloc = rt.alloc();
    for line in ROWS.lines() {
        let (words, call) = line.split_once(" => ").ok_or("no call")?;
        let said = said(alloc, words)?;
        assert_eq!(rt; said.as_str(), call, "{words}");
    }
    Ok(())
}
