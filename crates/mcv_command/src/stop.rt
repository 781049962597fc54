//! How the program ends: its exit status, and the line that it says where it stops before its work is done,
//! `stop_text`.

ghost use Rattle.std.specs.Prelude.{◌≡◌, Some};
ghost use Rattle.mcv_command.specs.Stop.{ended_status, ending_status, of_records, stop_of_mending, stop_status, stop_text};
ghost use Rattle.mcv_command.specs.declared.stop.Stop.TheVariants.{Run};
ghost use Rattle.mcv_input.specs.declared.fault.RunFault.TheVariants.{Memory as out_of_memory};

use mcv_config::ConfigFault;
use mcv_input::RunFault;
use mcv_mend::MendFault;
use mcv_records::RecordsFault;
use std::alloc::AllocError;
use std::fmt;

/// How the program ends where its work is done.
#[derive(Clone, Copy, Debug, PartialEq, Eq)]
pub enum Ending {
    /// What was asked for was written; a configuration that was judged is covered.
    Done,
    /// The configuration that was judged can lose a delete.
    Lost,
}

impl Ending {
    /// The exit status of the program: 0 or 3.
    pub fn status(self) -> u8
        ensures { result ≡ ending_status self }
    {
        match self {
            Ending::Done => 0,
            Ending::Lost => 3,
        }
    }
}

/// Why the program stops before its work is done.
#[derive(Drop)]
pub enum Stop {
    /// The words of the command line ask for nothing.
    BadLine,
    /// What they ask for can't be done.
    Run(RunFault),
    /// The mended configuration would be over a limit.
    Mended(ConfigFault),
    /// No change was found that covers the configuration.
    NoChange,
    /// The slot of this number of a spool's file is damaged. What stands before it was written.
    Damaged(u64),
}

impl Stop {
    /// The exit status of the program: 1, 2, 3, 4 or 5.
    pub fn status(&self) -> u8
        ensures { result ≡ stop_status self.now }
    {
        match self {
            Stop::BadLine => 1,
            Stop::Run(fault) => fault.status(),
            Stop::Mended(_) | Stop::NoChange => 3,
            Stop::Damaged(_) => 4,
        }
    }
}

/// The exit status of the program, however it ended.
pub fn exit_status(ended: &Result<Ending, Stop>) -> u8
    ensures { result ≡ ended_status ended.now }
{
    match ended {
        Ok(ending) => ending.status(),
        Err(stop) => stop.status(),
    }
}

impl fmt::Display for Stop {
    ghost output = { λ stop. Some (stop_text stop) };

    fn fmt<W: fmt::Write>(&self, f: &mut fmt::Formatter<W>) -> fmt::Result {
        match self {
            Stop::BadLine => write!(f, "mcv: bad command line"),
            Stop::Run(fault) => write!(f, "mcv: {fault}"),
            Stop::Mended(fault) => {
                let number = fault.number();
                let path = fault.path();
                write!(f, "mcv: mended configuration {number} at {path}")
            }
            Stop::NoChange => write!(f, "mcv: no change found"),
            Stop::Damaged(slot) => write!(f, "mcv: slot {slot} of the spool is damaged"),
        }
    }
}

impl From<RunFault> for Stop {
    ghost from_gives = { λ fault stop. stop ≡ Run fault };

    fn from(fault: RunFault) -> Stop {
        Stop::Run(fault)
    }
}

impl From<MendFault> for Stop {
    ghost from_gives = { λ fault stop. stop ≡ stop_of_mending fault };

    fn from(fault: MendFault) -> Stop {
        match fault {
            MendFault::Run(fault) => Stop::Run(fault),
            MendFault::Limit(fault) => Stop::Mended(fault),
            MendFault::GaveUp => Stop::NoChange,
        }
    }
}

impl From<RecordsFault> for Stop {
    ghost from_gives = { λ fault stop. stop ≡ of_records fault };

    fn from(fault: RecordsFault) -> Stop {
        match fault {
            RecordsFault::Damaged(slot) => Stop::Damaged(slot),
            RecordsFault::Device => Stop::Run(RunFault::Device),
            RecordsFault::Memory => Stop::Run(RunFault::Memory),
        }
    }
}

impl From<AllocError> for Stop {
    ghost from_gives = { λ _ stop. stop ≡ Run out_of_memory };

    fn from(_error: AllocError) -> Stop {
        Stop::Run(RunFault::Memory)
    }
}
