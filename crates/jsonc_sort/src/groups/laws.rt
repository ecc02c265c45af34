//! Laws of orders of places: each is the contract of a function that does nothing.
ghost use Rattle.std.specs.Prelude.{Bool, List, Option, ℕ};
ghost use Rattle.jsonc_sort.specs.groups.Again.{NamesItself};
ghost use Rattle.jsonc_sort.specs.groups.Groups.{GroupsStay, StretchesStay};

/// Where groups are asked for, each group keeps its places: an order that goes by groups first names at each
/// place one of the place's own group, and at the places of each group these places, each once.
pub fn groups_keep_their_places<N>()
    ensures groups { (lt : N → N → Bool) (nodes : List (Option N)) (row : List Bool) (order : List ℕ)
        → GroupsStay lt nodes row order }
    ensures stretches { (lt : N → N → Bool) (nodes : List (Option N)) (row : List Bool) (order : List ℕ)
        → StretchesStay lt nodes row order }
{}

/// Where places have come in an order, and are compared as those that it named there, an order of them names
/// each place at itself.
pub fn places_in_order_stay()
    ensures { (before after : ℕ → ℕ → Bool) (n : ℕ) (order again : List ℕ)
        → NamesItself before after n order again }
{}
