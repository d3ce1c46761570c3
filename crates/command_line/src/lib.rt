// The arguments that a program was started with, behind its own name, and the one word that it may know.
#![tactic(auto)]

ghost use Rattle.std.specs.Prelude.{◌≡◌};
ghost use Rattle.command_line.specs.Arguments.{IsWithin, asked_for};

use std::env::{Env, FillError};

// Why a program is not started with these arguments: there is more than one, the only one is longer than the space, or it is not
// the word that the program knows.
#[derive(Clone, Copy, Debug, PartialEq, Eq)]
pub enum ArgumentsError {
    TooMany,
    TooLong,
    Unknown,
}

fn has_second(rt: &impl Env) -> bool {
    !matches!(rt.arg(2, &mut [0u8; 1]), Err(FillError::NotPresent))
}

// The only argument, if there is one: so many bytes at the front of the space.
pub fn argument(rt: &impl Env, space: &mut [u8]) -> Result<Option<usize>, ArgumentsError>
    ensures { IsWithin result space.new }
{
    if has_second(rt) {
        return Err(ArgumentsError::TooMany);
    }
    match rt.arg(1, space) {
        Ok(n) => Ok(Some(n)),
        Err(FillError::NotPresent) => Ok(None),
        Err(FillError::TooLong) => Err(ArgumentsError::TooLong),
    }
}

// Whether the only argument is the word.
pub fn asked_for(
    given: Result<Option<usize>, ArgumentsError>,
    space: &[u8],
    word: &[u8],
) -> Result<bool, ArgumentsError>
    ensures { result ≡ asked_for given space.now word.now }
{
    match given? {
        None => Ok(false),
        Some(n) if &space[..n.min(space.len())] == word => Ok(true),
        Some(_) => Err(ArgumentsError::Unknown),
    }
}
