ghost use Rattle.std.specs.Prelude.{◌≡◌};
ghost use Rattle.parcae.specs.Codes.{code_of};

/// How a call ended.
#[derive(Clone, Copy, Debug, PartialEq, Eq)]
pub enum Status {
    /// The program ran to its end.
    Done,
    /// The program stopped by a trap.
    Trap,
    /// A loop of the program would have taken more turns than it may.
    OutOfTurns,
    /// The words are no command.
    Usage,
    /// The program's text is refused.
    Refused,
    /// The input's text is refused.
    Input,
    /// The script's text is refused.
    Script,
    /// A file couldn't be read.
    ReadFailed,
    /// The sink failed.
    WriteFailed,
    /// Memory ran out.
    NoMemory,
    /// A file holds more than it may.
    TooLong,
    /// The next interval would be the 1,048,577th.
    LogFull,
}

impl Status {
    /// The exit status of the program that ends so.
    pub fn code(self) -> u8
        ensures { result ≡ code_of self }
    {
        match self {
            Status::Done => 0,
            Status::Trap => 1,
            Status::OutOfTurns => 2,
            Status::Usage => 10,
            Status::Refused => 11,
            Status::Input => 12,
            Status::Script => 13,
            Status::ReadFailed => 14,
            Status::WriteFailed => 15,
            Status::NoMemory => 16,
            Status::TooLong => 17,
            Status::LogFull => 18,
        }
    }
}
