//! Laws of sorted rows: each is the contract of a function that does nothing.
ghost use Rattle.std.specs.Prelude.{Bool, List, Option, ℕ};
ghost use Rattle.jsonc_text.specs.Options.{Options};
ghost use Rattle.jsonc_text.specs.Plain.{Plain, Items, Members};
ghost use Rattle.jsonc_tree.specs.OrderedTree.{OrderedTree, Top};
ghost use Rattle.jsonc_tree.specs.Tree.{Node};
ghost use Rattle.jsonc_sound.specs.Marks.{Mark};
ghost use Rattle.jsonc_sound.specs.Rows.{RowKind};
ghost use Rattle.jsonc_sort.specs.Laws.{KeepsAllMarks, KeepsLines, KeepsMarks, KeepsNodes, KeepsRow};
ghost use Rattle.jsonc_sort.specs.Laws.{Sort, SortsItems, SortsMembers, SortsValue, StaysSound};
ghost use Rattle.jsonc_sort.specs.Paths.{FewStay, KeepsOutside, SortedAt, SortsAt, SortsDocument};
ghost use Rattle.jsonc_sort.specs.Rearranged.{SortsChildren};
ghost use Rattle.jsonc_sort.specs.Sorting.{Headers};
ghost use Rattle.jsonc_sort.specs.Worked.{WorkedDocuments, WorkedHeaders, WorkedSorts};

/// Worked rows: a comment goes with the element that it stands after, blank lines are left after the
/// first bracket, and where blanks stand before the end of a line they stay after the comment that
/// is put there. Where commas are missing, each element but the last gets one.
pub fn worked_rows()
    ensures { WorkedSorts }
{}

/// Comments above an element go with it, or stay where a rule pins them.
pub fn worked_headers()
    ensures { WorkedHeaders }
{}

/// Worked documents: commas stay between elements, and a comment goes with its element; an order that is
/// the old one moves nothing, nor does any where a bracket is missing.
pub fn worked_documents()
    ensures { WorkedDocuments }
{}

/// A sorted row has each node of the row as often, with what is below it, but for whitespace, ends of
/// lines and commas; so it has each comment and each element once, and each mark as often.
pub fn sorted_rows_keep_their_nodes()
    ensures nodes { (top : ℕ → Top) (s : Sort) (test : Top → Bool) → KeepsNodes top s test }
    ensures marks { (top : ℕ → Top) (s : Sort) (test : Mark → Bool) → KeepsMarks top s test }
{}

/// So where the elements of an array or object have been put in an order, each comment that stood in it, each
/// element and each bracket is its child still, and once; and every other node has the children that it had,
/// so comments deeper stand where they stood. Whitespace, ends of lines and commas alone are inserted or
/// removed.
pub fn sorted_containers_keep_their_children()
    ensures { (old new : List Node) (c : ℕ) (h : Headers) (order : List ℕ) → SortsChildren old new c h order }
{}

/// Its values, or its properties, are those of the row in the order of the sort.
pub fn sorted_rows_move_their_values()
    ensures items { (o : Options) (top : ℕ → Top) (s : Sort) (vs : Items) → SortsItems o top s vs }
    ensures members { (o : Options) (top : ℕ → Top) (s : Sort) (ms : Members) → SortsMembers o top s ms }
{}

/// It is a row of the container, node by node, and its line comments end with their lines. A comma
/// stands after each element but the last, so no two literals without quotes meet in it.
pub fn sorted_rows_stay_rows()
    ensures alone { (o : Options) (kind : RowKind) (top : ℕ → Top) (s : Sort) (n : Option ℕ) → KeepsRow o kind top s n }
    ensures lines { (kind : RowKind) (top : ℕ → Top) (s : Sort) → KeepsLines kind top s }
{}

/// A sound document stays sound where an array or object is sorted, under all options; its plain value
/// has the entries there in the order of the sort, and nothing else of it changes; and it has each mark
/// as often as before.
pub fn sorted_documents()
    ensures sound { (o : Options) (t : OrderedTree) → StaysSound o t }
    ensures value { (o : Options) (t : OrderedTree) (x : Plain) → SortsValue o t x }
    ensures marks { (o : Options) (t : OrderedTree) (test : Mark → Bool) → KeepsAllMarks o t test }
{}

/// Where an array or object has less than two elements, all nodes are as they were.
pub fn few_elements_stay()
    ensures { (old new : List Node) (c : ℕ) (h : Headers) (order : List ℕ) → FewStay old new c h order }
{}

/// Where the elements of an array or object at a path of a sound document come in another order, the
/// document is sorted there, and nothing outside of it changes.
pub fn containers_are_sorted()
    ensures { (o : Options) (old new : List Node) (path : List ℕ) (c : ℕ) (h : Headers) (order : List ℕ)
        → SortsAt o old new path c h order }
{}

/// Its text is a document again, whose value has the entries at the path in that order, and nothing else
/// of it changes; each literal and comment is there as often as before, all leaves outside of the array
/// or object stay, and the document is sound. It is so under all options.
pub fn sorted_containers()
    ensures document { (o : Options) (t u : OrderedTree) (path order : List ℕ) → SortsDocument o t u path order }
    ensures outside { (path order : List ℕ) (t u : OrderedTree) (s : SortedAt path order t u) → KeepsOutside s }
{}
