//! What a closure that reads a document borrows.

ghost use Rattle.std.specs.Prelude.{◌≡◌};
ghost use Rattle.jsonc_cst.specs.declared.cst.CstRootNode.{CstRootNode};

use crate::cst::CstRootNode;
use std::alloc::Allocator;

/// `CstRootNode<A>`, for the bounds of closures.
///
/// A bound can name a type parameter, and not `CstRootNode<A>`, which is the one type that is
/// meant. A caller writes the closure's first argument as `doc: &CstRootNode<_>`.
pub trait DocumentArg<A: Allocator> {
    ghost same: { CstRootNode A → Self };

    /// The document itself.
    fn of(doc: &CstRootNode<A>) -> &Self
        ensures { result.now ≡ same doc.now };
}

impl<A: Allocator> DocumentArg<A> for CstRootNode<A> {
    ghost same = { λ d. d };

    fn of(doc: &CstRootNode<A>) -> &Self {
        doc
    }
}
