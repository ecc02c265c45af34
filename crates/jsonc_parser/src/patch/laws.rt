//! Laws of pointers, patches and merges, and of names in faults: each is the contract of a function that does nothing.

ghost use Rattle.std.specs.Prelude.{◌≡◌, [], ℕ, All, List, Option, false};
ghost use Rattle.jsonc_text.specs.Documents.{Document};
ghost use Rattle.jsonc_text.specs.Plain.{Plain};
ghost use Rattle.jsonc_cst.specs.declared.cst.CstRootNode.{CstRootNode};
ghost use Rattle.jsonc_cst.specs.declared.cst.node.CstNode.{CstNode};
ghost use Rattle.jsonc_parser.specs.patch.Applied.{IsPatched};
ghost use Rattle.jsonc_parser.specs.patch.Equality.{HasUniqueNames};
ghost use Rattle.jsonc_parser.specs.patch.Laws.{AreTests, FailsWithNone, IsReadBack, RefersToOne};
ghost use Rattle.jsonc_parser.specs.patch.Locations.{LeadsBack};
ghost use Rattle.jsonc_parser.specs.patch.MergeCases.{cases, AllHold};
ghost use Rattle.jsonc_parser.specs.patch.MergePatch.{IsEqualToMergePatch, IsMergePatch, RepeatsNoName};
ghost use Rattle.jsonc_parser.specs.patch.Merging.{Merges};
ghost use Rattle.jsonc_parser.specs.patch.Pointer.{pointer_text, HasLooseTilde, LacksSlash};
ghost use Rattle.jsonc_parser.specs.patch.Quoting.{is_unseen, shown_inside};
ghost use Rattle.jsonc_parser.specs.declared.patch.operation.Operation.{Operation};

use std::alloc::Allocator;

/// What a pointer prints is parsed as the same tokens.
pub fn pointers_are_read_back()
    ensures { (tokens others : List (List ℕ)) → IsReadBack tokens others }
{}

/// A text is that of one pointer at most, and then it has no fault; and at most one fault.
pub fn pointers_are_read_in_one_way()
    ensures tokens { (s t : List (List ℕ)) → pointer_text s ≡ pointer_text t → s ≡ t }
    ensures slash { (t : List (List ℕ)) → LacksSlash (pointer_text t) → ⊥ }
    ensures tilde { (t : List (List ℕ)) (place : ℕ) → HasLooseTilde (pointer_text t) place → ⊥ }
    ensures either { (text : List ℕ) (place : ℕ) → LacksSlash text → HasLooseTilde text place → ⊥ }
    ensures first { (text : List ℕ) (k l : ℕ) → HasLooseTilde text k → HasLooseTilde text l → k ≡ l }
{}

/// A pointer refers to one value at most, and to none where a name on the way occurs twice.
pub fn pointers_refer_to_one_value()
    ensures one { (w : Option Plain) (tokens : List (List ℕ)) → RefersToOne w tokens }
    ensures fails { (w : Option Plain) (tokens : List (List ℕ)) → FailsWithNone w tokens }
{}

/// What is found by tokens that refer to a node is that node: [`find`](super::find) leads back from what
/// [`pointer_of`](super::pointer_of) answers.
pub fn pointers_lead_back<A: Allocator>()
    ensures { (doc : CstRootNode A) (node : CstNode) (tokens : List (List ℕ)) → LeadsBack doc node tokens }
{}

/// A patch of tests alone leads from a document to itself: no byte of its text changes.
pub fn tests_change_nothing<A: Allocator>()
    ensures { (d e : Document) (operations : List (Operation A)) → AreTests operations → IsPatched d operations e → e ≡ d }
{}

/// What [`merge`](super::merge) makes of the value of a document is what `MergePatch` of RFC 7396 makes of it, with its
/// members in this order; but an array that is equal to the patch's is not touched. Merging makes one value, and makes
/// one wherever no name occurs twice.
pub fn merges_are_merge_patches()
    ensures exact { (p : Plain) (w y : Option Plain) → HasUniqueNames p → Merges [] p w y → IsMergePatch p w y }
    ensures equal { (p : Plain) (w y : Option Plain) → HasUniqueNames p → Merges [] p w y → IsEqualToMergePatch p w y }
    ensures one { (p : Plain) (w y z : Option Plain) → HasUniqueNames p → Merges [] p w y → Merges [] p w z → y ≡ z }
    ensures some { (p : Plain) (w : Option Plain) → HasUniqueNames p → RepeatsNoName w → (y : Option Plain) × Merges [] p w y }
{}

/// Worked examples: `MergePatch`, as it is defined here, makes the results of the test cases of RFC 7396 (appendix A).
pub fn worked_merge_patches()
    ensures { AllHold cases }
{}

/// What a fault shows of a name has no character that ends a line, moves a cursor or turns the direction of text.
pub fn names_are_shown_in_one_line()
    ensures { (name : List ℕ) → All (λ c. is_unseen c ≡ false) (shown_inside name) }
{}
