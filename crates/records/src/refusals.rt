// The numbers of refusals: those of calls and those of setup.
ghost use Rattle.std.specs.Prelude.{◌≡◌, Err};
ghost use Rattle.records.specs.Answer.{said, number_of, began, unready};

use crate::{Answer, SetupError};

impl Answer {
    // The refusal's number in document 01, and none for any other answer.
    pub fn number(self) -> Option<u32>
        ensures { result ≡ number_of (said self) }
    {
        match self {
            Answer::Granted(_)
            | Answer::Nothing
            | Answer::GivenBack(_)
            | Answer::Sum(_)
            | Answer::Done => None,
            Answer::ReadOnly => Some(1),
            Answer::Damaged => Some(4),
            Answer::BadLayout => Some(5),
            Answer::OutOfBounds { .. } => Some(6),
            Answer::Overlap => Some(7),
            Answer::CutsFreeList => Some(8),
            Answer::InsufficientSpace { .. } => Some(9),
        }
    }
}

impl SetupError {
    // The refusal's number in document 01.
    pub fn number(self) -> u32
        ensures { unready result ≡ began (Err self) }
    {
        match self {
            SetupError::UnknownFreelist => 2,
            SetupError::BadSetup => 3,
        }
    }
}
