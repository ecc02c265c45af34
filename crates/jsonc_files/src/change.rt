// What is to become of a text.
ghost use Rattle.std.specs.Prelude.{ℕ, List, MatchOption, MatchResult};

use std::alloc::Allocator;

/// A change of a file's text.
pub trait Change<A: Allocator> {
    type Error: Drop;

    /// The new text may be made of the old one. A text that stays is made of itself.
    ghost makes: { Self → List ℕ → List ℕ → Type 0 };

    /// The old text is refused with this.
    ghost refuses: { Self → List ℕ → Self.Error → Type 0 };

    /// Makes the new text, or none where nothing changes.
    fn new_text(&mut self, old: &[u8]) -> Result<Option<Vec<u8, A>>, Self::Error>
        ensures { MatchResult result
            (λ made. MatchOption made (makes self.old old.now old.now) (λ new. makes self.old old.now new.items))
            (λ error. refuses self.old old.now error) };
}
