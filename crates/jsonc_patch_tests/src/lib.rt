//! Tests of pointers, patches and JSON by the program `jsonc`: what its runs write and tell, memory that is refused, and
//! streams that fail.
#![tactic(auto)]

#[cfg(test)]
mod tests;
