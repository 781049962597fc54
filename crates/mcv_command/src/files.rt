//! The files that a command line names.

ghost use Rattle.std.specs.Prelude.{◌≡◌, ℕ, List, None, Option, IfErr, IfOk, IfSome, take};
ghost use Rattle.mcv_input.specs.Fault.{IsOutside};

use mcv_input::{RunFault, read_at_most};
use mcv_records::FileView;
use mcv_spool::Disk;
use std::alloc::Global;
use std::fs;
use std::fs::{File, Files};

/// Files by their names.
pub trait NamedFiles {
    /// What the file of a name holds, where that is known.
    ghost held: { Self → List ℕ → Option (List ℕ) };

    /// The first bytes of the file of this name, as many as the limit says; all of them where there are no more.
    fn read_named(&self, alloc: Global, name: &str, limit: u64) -> Result<Vec<u8>, RunFault>
        ensures read { IfOk result (λ bytes. IfSome (held self.now name.now) (λ all. bytes.items ≡ take limit all)) }
        ensures fault { IfErr result IsOutside };

    /// A file that is only read.
    type View: Disk;

    /// The file of this name, to be read alone. It isn't locked.
    fn view(&self, name: &str) -> Result<Self::View, RunFault>
        ensures shows { IfOk result (λ view. IfSome (held self.now name.now) (λ all. Self.View.keeps_model × (Self.View.seen view ≡ all))) }
        ensures fault { IfErr result IsOutside };
}

/// The files of the system that the program runs on. Nothing is known of what they hold.
#[derive(Drop)]
pub struct SystemFiles<'a, R: Files> {
    pub system: &'a R,
}

impl<'a, R: Files<File = File>> NamedFiles for SystemFiles<'a, R> {
    ghost held = { λ _ _. None };

    fn read_named(&self, alloc: Global, name: &str, limit: u64) -> Result<Vec<u8>, RunFault> {
        match fs::open(self.system, name) {
            Ok(mut file) => read_at_most(alloc, &mut file, limit),
            Err(_) => Err(RunFault::Device),
        }
    }

    type View = FileView;

    fn view(&self, name: &str) -> Result<FileView, RunFault> {
        match FileView::open(self.system, name) {
            Ok(view) => Ok(view),
            Err(_) => Err(RunFault::Device),
        }
    }
}
