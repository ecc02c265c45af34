//! What edits make of texts: from chains of sound trees to chains of texts. Laws, no code.

pub mod laws;
