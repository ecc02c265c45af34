//! What is asked of one thing by several calls.

/// For each of some calls on a value, with an argument or without, whether it gives something.
#[macro_export]
macro_rules! given {
    ($value:expr; $($call:ident),*) => { [$($value.$call().is_some()),*] };
    ($value:expr, $argument:expr; $($call:ident),*) => { [$($value.$call($argument).is_some()),*] };
}

/// Whether of these flags the one at a place is up, and no other.
pub fn is_alone(flags: &[bool], place: usize) -> bool {
    for (number, flag) in flags.iter().enumerate() {
        if *flag != (number == place) {
            return false;
        }
    }
    place < flags.len()
}
