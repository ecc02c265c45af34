//! Laws of the definitions: each is the contract of a function that does nothing.
ghost use Rattle.std.specs.Prelude.{List, ℕ};
ghost use Rattle.jsonc_text.specs.Options.{Options};
ghost use Rattle.jsonc_text.specs.Plain.{Plain};
ghost use Rattle.jsonc_layout.specs.input.Views.{plain};
ghost use Rattle.jsonc_layout.specs.from_input.Layout.{Layout};
ghost use Rattle.jsonc_layout.specs.from_input.Texts.{HasLaidProperty, HasLaidValue, IsOfTexts};

use crate::input::CstInputValue;
use std::alloc::Allocator;

/// What a value stands for has only texts in it: its strings, names and numbers are characters.
pub fn values_are_of_texts<A: Allocator>(value: &CstInputValue<A>)
    ensures { IsOfTexts (plain value.now) }
{}

/// The nodes that a value is laid out as have that value, and those of a property its name and its
/// value, whatever the layout, under all options.
pub fn laid_values_mean_themselves()
    ensures value { (o : Options) (l : Layout) (v : Plain) → HasLaidValue o l v }
    ensures property { (o : Options) (l : Layout) (s : List ℕ) (v : Plain) → HasLaidProperty o l s v }
{}
