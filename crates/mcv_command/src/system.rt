//! The words that the system gives the program.

ghost use Rattle.std.specs.Prelude.{◌≡◌, ◌⊎◌, IfErr};
ghost use Rattle.mcv_command.specs.declared.stop.Stop.TheVariants.{BadLine, Run};
ghost use Rattle.mcv_input.specs.declared.fault.RunFault.TheVariants.{Memory as out_of_memory};

use crate::stop::Stop;
use mcv_input::RunFault;
use std::rt::Env;
use std::{env, io};

/// The words of the command line, of which the first is the program's name; a bad line where one isn't UTF-8.
pub fn given_words<R: Env + AllocGlobal>(rt: &R) -> Result<Vec<String>, Stop>
    ensures { IfErr result (λ stop. (stop ≡ BadLine) ⊎ (stop ≡ Run out_of_memory)) }
{
    match env::args(rt) {
        Ok(words) => Ok(words.collect(rt.alloc())?),
        Err(error) if error.kind() == io::ErrorKind::OutOfMemory => Err(Stop::Run(
            RunFault::Memory,
        )),
        Err(_) => Err(Stop::BadLine),
    }
}
