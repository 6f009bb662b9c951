/// How the program ended.
#[derive(Clone, Copy, Debug, PartialEq, Eq)]
pub enum Status {
    /// The whole text was written. Where the source tells its bytes, all of them were read.
    Done,
    /// The words aren't a command line of the program.
    Usage,
    /// The input is no scenario that the program plays, or has no report.
    ScenarioRefused,
    /// The input couldn't be read.
    ReadFault,
    /// The output couldn't be written.
    WriteFault,
    /// There was no memory, before anything was written.
    NoMemory,
    /// The report isn't legal for its scenario. The line that says so was written whole.
    Rejected,
}

impl Status {
    ghost use Rattle.std.specs.Prelude.{◌≡◌};
    ghost use Rattle.cmm2_cli.specs.Status.{code_of, has_written};

    /// The program's exit status, 0 to 6.
    pub fn code(self) -> u8
        ensures { result ≡ code_of self }
    {
        match self {
            Status::Done => 0,
            Status::Usage => 1,
            Status::ScenarioRefused => 2,
            Status::ReadFault => 3,
            Status::WriteFault => 4,
            Status::NoMemory => 5,
            Status::Rejected => 6,
        }
    }

    /// Whether the program ended with its text written whole: the answer, or the line of a refusal.
    pub fn has_written(self) -> bool
        ensures { result ≡ has_written self }
    {
        match self {
            Status::Done | Status::Usage => true,
            Status::ScenarioRefused | Status::Rejected => true,
            Status::ReadFault | Status::WriteFault | Status::NoMemory => false,
        }
    }
}
