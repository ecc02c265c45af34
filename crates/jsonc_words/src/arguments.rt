//! The process's arguments.

use std::env::{Env, FillError};
use std::io::ErrorKind;
use std::{env, fmt, str};

/// More bytes than an argument may have on Linux.
const LONGEST: usize = 131_073;

/// Where an argument is not UTF-8.
#[derive(Clone, Copy, Debug)]
pub struct ArgumentPlace {
    /// The number of the argument; that of the program's name is 0.
    pub argument: usize,
    /// The first byte of it that belongs to no character, counted from 0.
    pub byte: usize,
}

/// Why the arguments are not read.
#[derive(Clone, Copy, Debug)]
pub enum ArgumentsFault {
    OutOfMemory,
    /// An argument is not UTF-8; where, unless it is too long to be looked at.
    NotUtf8(Option<ArgumentPlace>),
}

impl fmt::Display for ArgumentsFault {
    fn fmt<W: fmt::Write>(&self, f: &mut fmt::Formatter<W>) -> fmt::Result {
        match self {
            ArgumentsFault::OutOfMemory => f.write_str("Out of memory"),
            ArgumentsFault::NotUtf8(None) => f.write_str("An argument is not UTF-8"),
            ArgumentsFault::NotUtf8(Some(place)) => {
                write!(
                    f,
                    "Argument {} is not UTF-8 at byte {}",
                    place.argument, place.byte
                )
            }
        }
    }
}

/// The first argument that is not UTF-8, in room for one.
fn place_in<R: Env>(rt: &R, room: &mut [u8]) -> Option<ArgumentPlace> {
    for argument in 0..usize::MAX {
        match rt.arg(argument, room) {
            Ok(count) => {
                if let Err(error) = str::from_utf8(&room[..count]) {
                    let byte = error.valid_up_to();
                    return Some(ArgumentPlace { argument, byte });
                }
            }
            Err(FillError::NotPresent) => return None,
            Err(FillError::TooLong) => {}
        }
    }
    None
}

/// The arguments of the process, of which the first is the program's name.
pub fn arguments<R: Env + AllocGlobal>(rt: &R) -> Result<Vec<String>, ArgumentsFault> {
    match env::args(rt) {
        Ok(arguments) => match arguments.collect(rt.alloc()) {
            Ok(arguments) => Ok(arguments),
            Err(_) => Err(ArgumentsFault::OutOfMemory),
        },
        Err(error) if error.kind() == ErrorKind::OutOfMemory => Err(ArgumentsFault::OutOfMemory),
        Err(_) => match Vec::from_elem(rt.alloc(), 0u8, LONGEST) {
            Ok(mut room) => Err(ArgumentsFault::NotUtf8(place_in(rt, room.as_mut_slice()))),
            Err(_) => Err(ArgumentsFault::OutOfMemory),
        },
    }
}
