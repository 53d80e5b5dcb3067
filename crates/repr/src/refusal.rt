// Why a record is refused.
ghost use Rattle.std.specs.Prelude.{◌≡◌};
ghost use Rattle.repr.specs.Refusals.{number_of};

use std::error::Error;
use std::fmt;

// The first of these that applies.
#[derive(Clone, Copy, Debug, PartialEq, Eq)]
pub enum Refusal {
    // The record is empty, or its first byte is not 1.
    Version,
    // It has under three bytes, or its length is over 16,384 or is not the number of bytes that follow.
    Length,
    // A byte is missing, a tag or choice has no meaning, or bytes are left over.
    Form,
    // A count is out of its range, or a type has over 32 nodes.
    Range,
    // There are over 1,024 points or over 128 borrows.
    Size,
    // A number names nothing, declared regions exceed regions, an outlived region is not declared, or a field is numbered 0.
    Name,
    // A type's arguments do not fit its struct's parameters, or a bound stands where it has no meaning.
    Arguments,
    // A path takes a step that its type does not have, or reaches a type of over 32 nodes.
    Path,
    // An assignment or a borrow joins types of different shape.
    Shape,
    // The word buffer or the byte buffer is too short.
    Room,
}

// The refusal's number, from 1 on.
impl From<Refusal> for u8 {
    ghost from_gives = { λ refusal number. number ≡ number_of refusal };

    fn from(refusal: Refusal) -> u8 {
        refusal as u8 + 1
    }
}

impl fmt::Display for Refusal {
    fn fmt<W: fmt::Write>(&self, f: &mut fmt::Formatter<W>) -> fmt::Result {
        match self {
            Refusal::Version => write!(f, "this is no job of version 1"),
            Refusal::Length => write!(
                f,
                "the job's length is wrong: it was cut off or is too long"
            ),
            Refusal::Form => write!(
                f,
                "the job is damaged: a part is missing, unknown or left over"
            ),
            Refusal::Range => write!(f, "the job has too many or too few parts of a kind"),
            Refusal::Size => write!(f, "the job is too large: over 1,024 points or 128 borrows"),
            Refusal::Name => write!(
                f,
                "the job has a number that names nothing or cannot stand there"
            ),
            Refusal::Arguments => write!(f, "the job has a type whose parts do not fit together"),
            Refusal::Path => write!(
                f,
                "the job has a path that its types do not have, or one to a type that is too large"
            ),
            Refusal::Shape => write!(f, "the job assigns or borrows between types that differ"),
            Refusal::Room => write!(f, "the loader lent too little room for the answer"),
        }
    }
}

impl Error for Refusal {}
