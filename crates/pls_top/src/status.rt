ghost use Rattle.std.specs.Prelude.{◌≡◌};
ghost use Rattle.pls_top.specs.Answer.{code_of};
ghost use Rattle.pls_top.specs.Due.{status_at};

use pls_search::End;

/// How a run ended. The number of each is the program's exit status.
#[derive(Clone, Copy, Debug, PartialEq, Eq)]
pub enum Status {
    /// Every accepted point was explored, and the front was written.
    Closed,
    /// The moves were spent before that, and the front was written.
    Stopped,
    /// The words are no command line.
    Usage,
    /// The bytes read are no instance.
    BadInstance,
    /// The source failed.
    ReadFault,
    /// The sink failed; a proper prefix of the text was written.
    WriteFault,
    /// The archive had no room for a point, and the front was written.
    Full,
    /// Memory ran out; nothing was written.
    Memory,
    /// The source gave more than 16,777,216 bytes.
    TooLong,
}

impl From<End> for Status {
    ghost from_gives = { λ end status. status ≡ status_at end };

    fn from(end: End) -> Status {
        match end {
            End::Closed => Status::Closed,
            End::Stopped => Status::Stopped,
            End::Full => Status::Full,
        }
    }
}

impl Status {
    /// The status as a number, 0 to 8.
    pub fn code(self) -> u8
        ensures { result ≡ code_of self }
    {
        self as u8
    }
}
