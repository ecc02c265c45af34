//! Laws of views: each is the contract of a function that does nothing.
ghost use Rattle.jsonc_view.specs.Laws.{LastIsCollapsed};

/// What is read by name is the value of that name in the value that `parse_to_value` makes: there the last property of a
/// name gives the value.
pub fn names_as_in_values()
    ensures { LastIsCollapsed }
{}
