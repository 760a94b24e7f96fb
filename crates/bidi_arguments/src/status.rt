//! How a run ended.
ghost use Rattle.std.specs.Prelude.{◌≡◌, max};

/// How a run ended, or the result of one input. `number` gives the exit status.
#[derive(Clone, Copy, Debug, PartialEq)]
pub enum Status {
    /// Nothing was found, or all was written.
    Clean,
    /// `check` found something, or with `--strict-allow` an entry that allows nothing.
    Found,
    /// An argument or an allow-list is wrong; an argument, a name or an input is not UTF-8; `check` did not open a pipe, a
    /// socket or a device; or `explain --line` found no such line.
    Refused,
    /// An allocation failed.
    Memory,
    /// A read or a write failed, the arguments could not be read, the name of a link's target is not UTF-8, or the reader of
    /// a gate's output is gone.
    Device,
}

impl Status {
    ghost use Rattle.bidi_arguments.specs.Statuses.{status_number};

    /// Returns the exit status of the program, from 0 to 4.
    pub fn number(self) -> u8
        ensures { result ≡ status_number self }
    {
        match self {
            Status::Clean => 0,
            Status::Found => 1,
            Status::Refused => 2,
            Status::Memory => 3,
            Status::Device => 4,
        }
    }

    /// Returns the worse of two statuses: the one with the higher number.
    pub fn worse(self, other: Status) -> Status
        ensures { status_number result ≡ max (status_number self) (status_number other) }
    {
        if self.number() < other.number() {
            other
        } else {
            self
        }
    }
}
