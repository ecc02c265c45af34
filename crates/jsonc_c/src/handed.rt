//! Texts and paths that are handed out.
ghost use Rattle.std.specs.Prelude.{◌≡◌, ◌++◌, ◌∷◌, [], List, string_bytes, ℕ};

/// Hands out bytes as a block of their own, which stays until the caller frees it, or none for no bytes.
fn hand_out_bytes(bytes: Vec<u8>, out: &mut &'static [u8])
    ensures { out.new.now ≡ bytes.items }
{
    if bytes.is_empty() {
        *out = &[];
        return;
    }
    *out = bytes.leak();
}

/// Hands out a text.
pub(crate) fn hand_out(text: String, out: &mut &'static [u8])
    ensures { out.new.now ≡ string_bytes text }
{
    hand_out_bytes(text.into_bytes(), out);
}

/// Hands out a path as a block of its own, which stays until the caller frees it, or none for no steps.
pub(crate) fn hand_out_path(path: Vec<usize>, out: &mut &'static [usize])
    ensures { out.new.now ≡ path.items }
{
    if path.is_empty() {
        *out = &[];
        return;
    }
    *out = path.leak();
}

/// A line's text without its line feed.
pub(crate) fn without_line_feed(line: String) -> Vec<u8>
    ensures { (text : List ℕ) → string_bytes line ≡ text ++ 0x0A ∷ [] → result.items ≡ text }
{
    let mut bytes = line.into_bytes();
    let _ = bytes.pop();
    bytes
}

/// Hands out a line's text without its line feed.
pub(crate) fn hand_out_line(line: String, out: &mut &'static [u8])
    ensures { (text : List ℕ) → string_bytes line ≡ text ++ 0x0A ∷ [] → out.new.now ≡ text }
{
    hand_out_bytes(without_line_feed(line), out);
}
