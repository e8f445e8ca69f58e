ghost use Rattle.std.specs.Prelude.{◌≡◌, []};

use crate::status::Status;
use std::alloc::Global;

/// What is written, and the status behind it.
#[derive(Drop)]
pub(crate) struct Answer {
    pub status: Status,
    pub text: Vec<u8>,
}

impl Answer {
    /// A refusal with this line.
    pub(crate) fn refused(line: Vec<u8>) -> Answer
        ensures status { result.status ≡ Status.Refused }
        ensures text { result.text ≡ line }
    {
        Answer {
            status: Status::Refused,
            text: line,
        }
    }

    /// A file couldn't be loaded, so nothing is written.
    pub(crate) fn unread(alloc: Global) -> Answer
        ensures status { result.status ≡ Status.ReadFault }
        ensures text { result.text.items ≡ [] }
    {
        Answer {
            status: Status::ReadFault,
            text: Vec::new(alloc),
        }
    }
}
