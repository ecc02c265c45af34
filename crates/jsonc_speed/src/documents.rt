//! The documents of which calls are made.
ghost use Rattle.std.specs.Prelude.{All, IfOk};
ghost use Rattle.jsonc_cst.specs.Document.{HasNode};
ghost use Rattle.jsonc_cst.specs.Nodes.{object_prop_node};

use jsonc_engine::fault::Fault;
use jsonc_parser::ParseOptions;
use jsonc_parser::cst::{CstContainerNode, CstNode, CstObjectProp, CstRootNode};
use std::alloc::Global;

/// The document of a text.
pub fn parsed(alloc: Global, text: &str) -> Result<CstRootNode<Global>, Fault<Global>> {
    match CstRootNode::parse(alloc, text, &ParseOptions::default()) {
        Ok(document) => Ok(document),
        Err(error) => Err(Fault::Input(error)),
    }
}

/// The elements of a document that is an array.
pub fn elements(document: &CstRootNode<Global>) -> Result<Vec<CstNode>, Fault<Global>>
    ensures { IfOk result (λ v. All (HasNode document.now) v.items) }
{
    match document.value() {
        Some(CstNode::Container(CstContainerNode::Array(array))) => match array.elements(document) {
            Ok(elements) => Ok(elements),
            Err(error) => Err(Fault::Edit(error)),
        },
        _ => Err(Fault::NotArray),
    }
}

/// The properties of a document that is an object.
pub fn properties(document: &CstRootNode<Global>) -> Result<Vec<CstObjectProp>, Fault<Global>>
    ensures { IfOk result (λ v. All (λ p. HasNode document.now (object_prop_node p)) v.items) }
{
    let Some(object) = document.object_value() else {
        return Err(Fault::NotObject);
    };
    match object.properties(document) {
        Ok(properties) => Ok(properties),
        Err(error) => Err(Fault::Edit(error)),
    }
}
