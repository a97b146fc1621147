//! The open writer and the closed one.

ghost use Rattle.ser.specs.Standing.{StandsForSome};

use crate::desk::Desk;

/// Takes calls, and stands for those that it accepted.
#[derive(Drop)]
pub struct Writer {
    desk: Desk,
    ghost stands: { StandsForSome desk },
}

/// Takes no further call, and can be written out.
// Stays: a type of its own with the content of `Writer`, since the type tells which calls there are.
#[derive(Drop)]
pub struct Closed {
    desk: Desk,
    ghost stands: { StandsForSome desk },
}

pub mod calls;
