// The faults of a run.
ghost use Rattle.std.specs.Prelude.{◌≡◌};
ghost use Rattle.idx.specs.Faults.{status_of};

/// Why a run gave no answer.
#[derive(Clone, Copy, PartialEq, Eq, Debug)]
pub enum Fault {
    /// The words name no call.
    Usage,
    /// The input is not UTF-8.
    NotUtf8,
    /// A read of the input failed.
    Read,
    /// A write of the output or its flush failed.
    Write,
    /// The memory for the input was refused.
    NoMemory,
}

impl Fault {
    /// Returns the status that the program ends with.
    pub fn status(&self) -> u8
        ensures { result ≡ status_of self.now }
    {
        match self {
            Fault::Usage => 2,
            Fault::NotUtf8 => 3,
            Fault::Read | Fault::Write | Fault::NoMemory => 1,
        }
    }

    /// Returns the line for standard error, without its line feed.
    pub fn line(&self) -> &'static str {
        match self {
            Fault::Usage => "idx: bad usage",
            Fault::NotUtf8 => "idx: input is not UTF-8",
            Fault::Read => "idx: cannot read input",
            Fault::Write => "idx: cannot write output",
            Fault::NoMemory => "idx: out of memory",
        }
    }
}
