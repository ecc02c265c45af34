//! The texts that recipes are shown on.

pub(crate) const EDITOR: &str = r#"{
  // How the editor looks.
  "theme": "dark",
  "editor": {
    "fontSize": 14, // points
    "rulers": [80]
  }
}"#;

pub(crate) const TWICE: &str = r#"{"editor": {"fontSize": 1, "fontSize": 2}}"#;

pub(crate) const RULERS: &str = r#"{
  "editor": {
    "rulers": [
      80 // mail
    ]
  }
}"#;

pub(crate) const TRAILING: &str = r#"{
  "editor": {
    "rulers": [
      80,
    ],
  },
}"#;

pub(crate) const HEAD: &str = r#"{
  // Written by hand.

  // in points
  "fontSize": 14
}"#;

pub(crate) const USES: &str = r#"{
}"#;

pub(crate) const FONT: &str = r#"{
  "theme": "dark", // or light
  // Size of text,
  // in points.
  "fontSize": 14, // was 12
  "wrap": true
}"#;

pub(crate) const SORT: &str = r#"{
  // How it looks.

  "theme": "light", // or dark
  // in points
  "fontSize": 14
}"#;

pub(crate) const CARRIED: &str = r#"{
  // How it looks.
  "theme": "light",
  "fontSize": 14
}"#;

pub(crate) const OWN: &str = r#"{
  // How it looks.

  // or dark
  "theme": "light",
  "fontSize": 14
}"#;

pub(crate) const TWO: &str = r#"{
  "editor.fontSize": 1,
  "editor.fontSize": 2
}"#;

pub(crate) const BESIDE: &str = r#"{
  "c": 1, "b": 2, // both
  "a": 3
}"#;

pub(crate) const COMMAS: &str = r#"{
  "one": [1, 2,],
  "more": [
    1,
    2
  ]
}"#;

pub(crate) const SETTINGS: &str = r#"{
  // How it looks.
  "colour": "dark",
  "editor": {
    // In points.
    "fontSize": 14, // was 12
    // No longer read.
    "ligatures": true,
    "tabSize": 4
  }
}"#;

pub(crate) const MIGRATED: &str = r#"{
  // How it looks.
  "theme": "dark",
  "editor": {
    "tabSize": 4
  },
  "terminal": {
    // In points.
    // was 12
    "fontSize": 14
  },
  "version": 2
}"#;

pub(crate) const BOTH: &str = r#"{
  "colour": "light",
  "theme": "dark",
  "editor": {
    "fontSize": 14 // was 12
  },
  "terminal": {
    "fontSize": 12
  }
}"#;

pub(crate) const NO_TARGET: &str = r#"{
  "colour": "dark",
  "editor": {
    "fontSize": 14
  },
  "terminal": "xterm"
}"#;

pub(crate) const ONE_LINE: &str =
    r#"{"colour": "dark", "editor": {"fontSize": 14, "ligatures": true}}"#;

pub(crate) const CR_LF: &str =
    "{\r\n  \"colour\": \"dark\",\r\n  \"editor\": {\r\n    \"fontSize\": 14, // was 12\r\n    \"tabSize\": 4\r\n  }\r\n}";

pub(crate) const WITHIN: &str = r#"{
  "colour" /* a */ : /* b */ "dark", // c
  "editor": {
    // d
    "fontSize" /* e */ : /* f */ 14 // g
  }
}"#;
