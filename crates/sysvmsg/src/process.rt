//! The process that the program runs in. Each method makes at most one call of the system, of which
//! no contract says what it returns.
use std::env::Env;
use std::{env, io};
use sysv_options::{NoWords, Process};

/// The process that the program runs in.
#[derive(Clone, Copy)]
pub(crate) struct System<'a, R> {
    /// The runtime, which knows its words and its environment.
    pub(crate) rt: &'a R,
    /// Whether its standard output is a terminal.
    pub(crate) is_terminal: bool,
}

impl<R: Env + AllocGlobal> Process for System<'_, R> {
    ghost use Rattle.std.specs.Prelude.{⊤};

    ghost tells = { λ _ _. ⊤ };

    fn words(&self) -> Result<Vec<String>, NoWords> {
        let words = match env::args(self.rt) {
            Ok(words) => words,
            Err(why) if why.kind() == io::ErrorKind::OutOfMemory => return Err(NoWords::NoMemory),
            Err(_) => return Err(NoWords::NoText),
        };
        match words.collect::<Vec<String>>(self.rt.alloc()) {
            Ok(words) => Ok(words),
            Err(_) => Err(NoWords::NoMemory),
        }
    }

    fn has_one(&self, name: &str) -> bool {
        match env::var(self.rt, name) {
            Ok(value) => value.as_str() == "1",
            Err(_) => false,
        }
    }

    fn user(&self) -> u32 {
        sysv_system::user()
    }

    fn group(&self) -> u32 {
        sysv_system::group()
    }

    fn number(&self) -> u32 {
        sysv_system::number()
    }

    fn is_terminal(&self) -> bool {
        self.is_terminal
    }

    fn open_files(&self) -> Option<u64> {
        sysv_system::open_files()
    }
}
