//! How a task ends.
ghost use Rattle.std.specs.Prelude.{◌≡◌};
ghost use Rattle.std.specs.Process.{exit_status};
ghost use Rattle.cabinet_tasks.specs.Endings.{ending_status};

use std::fmt;
use std::process::ExitCode;

/// How a task ends that could be understood and performed.
#[derive(Clone, Copy, PartialEq, Eq, Debug)]
pub enum Ending {
    /// It is done.
    Done,
    /// A file is refused; what is printed says why.
    Refused,
}

impl fmt::Display for Ending {
    fn fmt<W: fmt::Write>(&self, f: &mut fmt::Formatter<W>) -> fmt::Result {
        f.write_str(match self {
            Ending::Done => "done",
            Ending::Refused => "refused",
        })
    }
}

impl From<Ending> for ExitCode {
    ghost from_gives = { λ ending code. exit_status code ≡ ending_status ending };

    fn from(ending: Ending) -> ExitCode {
        match ending {
            Ending::Done => ExitCode::SUCCESS,
            Ending::Refused => ExitCode::FAILURE,
        }
    }
}
