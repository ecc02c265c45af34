//! Decoded strings, and properties by their names.

ghost use Rattle.std.specs.Prelude.{◌≡◌, ◌≢◌, chars, string_bytes, IfErr, IfOk, IfSome, OnErr};
ghost use Rattle.jsonc_text.specs.declared.errors.ParseStringErrorKind.TheVariants.{OutOfMemory};
ghost use Rattle.jsonc_layout.specs.nodes.Names.{HasName, HoldsEscapedName, NameReads};
ghost use Rattle.jsonc_cst.specs.Document.{nodes_of, HasNode};
ghost use Rattle.jsonc_cst.specs.Nodes.{name_node, object_node, object_prop_node, string_lit_node};
ghost use Rattle.jsonc_cst.specs.Readings.{IsFirstNamed, LeafIsNoString, LeafRepresents, NameIsNoString, NameRepresents};

use super::node::{CstObject, CstObjectProp, CstStringLit, ObjectPropName};
use super::{CstRootNode, EditError};
use jsonc_text::errors::ParseStringErrorKind;
use std::alloc::Allocator;

impl CstStringLit {
    /// What the string represents, its escapes decoded.
    ///
    /// What follows its closing quote is ignored. A leaf with no quote in front is the error
    /// `UnterminatedStringLiteral`, an allocation failure `OutOfMemory`.
    pub fn decoded_value<A: Allocator + Copy>(
        self,
        doc: &CstRootNode<A>,
    ) -> Result<String<A>, ParseStringErrorKind>
        requires { HasNode doc.now (string_lit_node self) }
        ensures found { IfOk result (λ s. LeafRepresents doc.now self (chars (string_bytes s))) }
        ensures fault { IfErr result (λ k. k ≢ OutOfMemory → LeafIsNoString doc.now self k) }
    {
        jsonc_layout::nodes::decoded_value(doc.alloc, &doc.tree, self.number)
    }
}

impl ObjectPropName {
    /// What the name represents, its escapes decoded.
    ///
    /// A string is decoded as by its own call; a word is as it is written.
    pub fn decoded_value<A: Allocator + Copy>(
        self,
        doc: &CstRootNode<A>,
    ) -> Result<String<A>, ParseStringErrorKind>
        requires { HasNode doc.now (name_node self) }
        ensures found { IfOk result (λ s. NameRepresents doc.now self (chars (string_bytes s))) }
        ensures fault { IfErr result (λ k. k ≢ OutOfMemory → NameIsNoString doc.now self k) }
    {
        match self {
            ObjectPropName::String(string) => string.decoded_value(doc),
            ObjectPropName::Word(word) => match String::from_str(doc.alloc, word.raw_value(doc)) {
                Ok(text) => Ok(text),
                Err(_) => Err(ParseStringErrorKind::OutOfMemory),
            },
        }
    }
}

impl CstObjectProp {
    /// Its name with its escapes decoded, if it has one that decodes.
    ///
    /// A name without quotes is its text. The one error is `OutOfMemory`.
    pub fn decoded_name<A: Allocator + Copy>(
        self,
        doc: &CstRootNode<A>,
    ) -> Result<Option<String<A>>, ParseStringErrorKind>
        requires { HasNode doc.now (object_prop_node self) }
        ensures name { IfOk result (NameReads (HasName (nodes_of doc.now) self.number)) }
        ensures memory { IfErr result (λ k. k ≡ OutOfMemory) }
    {
        let Ok(name) = jsonc_layout::nodes::decoded_name(doc.alloc, &doc.tree, self.number) else {
            return Err(ParseStringErrorKind::OutOfMemory);
        };
        Ok(name)
    }
}

impl CstObject {
    /// Its first property of a name.
    ///
    /// A name in quotes is decoded, and one that does not decode is passed over; any other name is
    /// its text. Memory is allocated only where one of its names has a backslash.
    pub fn get<A: Allocator + Copy>(
        self,
        doc: &CstRootNode<A>,
        name: &str,
    ) -> Result<Option<CstObjectProp>, EditError>
        requires { HasNode doc.now (object_node self) }
        ensures found { IfOk result (IsFirstNamed doc.now self (chars name.now)) }
        ensures in_document { IfOk result (λ o. IfSome o (λ p. HasNode doc.now (object_prop_node p))) }
        ensures memory { IfErr result (λ e. e ≡ EditError.OutOfMemory) }
        ensures escaped { OnErr result (HoldsEscapedName (nodes_of doc.now) self.number) }
    {
        match jsonc_layout::nodes::get(doc.alloc, &doc.tree, self.number, name) {
            Ok(Some(number)) => Ok(Some(CstObjectProp { number })),
            Ok(None) => Ok(None),
            Err(_) => Err(EditError::OutOfMemory),
        }
    }
}
