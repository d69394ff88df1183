ghost use Rattle.std.specs.Prelude.{◌≡◌};
ghost use Rattle.mini_cli.specs.Run.{code_of};

/// How a run ended.
#[derive(Clone, Copy, PartialEq, Eq, Debug)]
pub enum Status {
    /// The whole answer was written.
    Done,
    /// A word is none that a run takes, or stands twice.
    BadWords,
    /// The bytes are no UTF-8 or no JSON, or nest too deep.
    NotJson,
    /// The JSON has no answer, and the notes say why.
    Refused,
    /// The source failed.
    ReadFault,
    /// The sink failed.
    WriteFault,
    /// The source gave more than 16,777,216 bytes.
    TooLong,
    /// No memory was left.
    OutOfMemory,
}

impl Status {
    /// The number that the process ends with.
    pub fn code(&self) -> u8
        ensures { result ≡ code_of self.now }
    {
        match self {
            Status::Done => 0,
            Status::BadWords => 1,
            Status::NotJson => 2,
            Status::Refused => 3,
            Status::ReadFault => 4,
            Status::WriteFault => 5,
            Status::TooLong => 6,
            Status::OutOfMemory => 7,
        }
    }
}
