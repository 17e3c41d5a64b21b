//! The system's files, such as a policy. Any reason why a file cannot be read (it is missing, a folder, not permitted
//! or not UTF-8) is one fault; a failed allocation is another.
ghost use Rattle.sr_start.specs.Policy.{any_text};

use sr_start::{TextFault, TextFiles};
use std::fs;
use std::io::ErrorKind;
use std::rt::Files;

/// The system's files. They may hold any text.
#[derive(Drop)]
pub(crate) struct SystemFiles<'a, R> {
    rt: &'a R,
}

impl<'a, R> SystemFiles<'a, R> {
    /// The files of the system.
    pub(crate) fn new(rt: &'a R) -> SystemFiles<'a, R> {
        SystemFiles { rt }
    }
}

impl<'a, R: AllocGlobal + Files> TextFiles for SystemFiles<'a, R> {
    ghost may_hold = { λ _. any_text };

    fn read_text(&mut self, path: &str) -> Result<String, TextFault> {
        match fs::read_to_string(self.rt, path) {
            Ok(text) => Ok(text),
            Err(error) if error.kind() == ErrorKind::OutOfMemory => Err(TextFault::Memory),
            Err(_) => Err(TextFault::Unreadable),
        }
    }
}
