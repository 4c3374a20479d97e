//! Why a desk refuses.
use thiserror::Error;

/// Why a hold is not entered, or not left. Where two causes stand, the first of these is the answer.
#[derive(Clone, Copy, Debug, PartialEq, Eq, Error)]
pub enum DeskFault {
    /// The book has a hold of this serial, or the share has one.
    #[error("a hold of this serial was entered")]
    DoubleSerial,
    /// The book has as many holds as there is room for.
    #[error("the book of holds is full")]
    Full,
    /// Memory ran out.
    #[error("out of memory")]
    Memory,
    /// The share has no hold of this serial.
    #[error("the share has no hold of this serial")]
    NotHeld,
    /// The share has a hold of this serial, and the book has no equal one.
    #[error("the book lacks a hold that the share has")]
    Torn,
}
