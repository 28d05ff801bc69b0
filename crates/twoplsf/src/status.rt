//! How the program ends.

ghost use Rattle.std.specs.Prelude.{◌≡◌};
ghost use Rattle.twoplsf.specs.Ending.{exit_status};

/// What became of a command. The exit statuses are 0 to 7, in this order.
#[derive(Clone, Copy, Debug, PartialEq, Eq)]
pub enum Status {
    /// The command did its work.
    Done,
    /// A text to be checked is no output.
    Differs,
    /// The words are no command.
    BadWords,
    /// The bytes are no input.
    BadInput,
    /// There are more bytes than an input may have.
    TooLarge,
    /// A read failed.
    ReadFault,
    /// A write failed.
    WriteFault,
    /// No memory was found.
    OutOfMemory,
}

impl Status {
    /// The exit status, from 0 to 7.
    pub fn code(self) -> u8
        ensures { result ≡ exit_status self }
    {
        self as u8
    }
}
