// That there is no answer.

use mini_estree::MinifyError;
use mini_model::OutOfMemory;
use std::alloc::AllocError;
use std::io;

/// There is no answer: the line is no case, or what it asks for failed. The program then ends with
/// a status alone, so that nothing is kept of why.
#[derive(Clone, Copy)]
pub struct NoAnswer;

impl From<serde_json::Error> for NoAnswer {
    fn from(_error: serde_json::Error) -> NoAnswer {
        NoAnswer
    }
}

impl From<MinifyError> for NoAnswer {
    fn from(_error: MinifyError) -> NoAnswer {
        NoAnswer
    }
}

impl From<OutOfMemory> for NoAnswer {
    fn from(_gone: OutOfMemory) -> NoAnswer {
        NoAnswer
    }
}

impl From<AllocError> for NoAnswer {
    fn from(_gone: AllocError) -> NoAnswer {
        NoAnswer
    }
}

impl From<io::Error> for NoAnswer {
    fn from(_error: io::Error) -> NoAnswer {
        NoAnswer
    }
}
