//! The words of the program.

ghost use Rattle.std.specs.Prelude.{◌≡◌, [], IfErr, IfOk};

use io_ends::OutOfMemory;
use std::alloc::Global;
use std::env::{Args, FillError};
use std::io;
use std::rt::Env;

/// The arguments behind the program's name, which need not be a text.
#[derive(Drop)]
pub struct BehindName<R> {
    rt: R,
}

impl<R: Env> BehindName<R> {
    /// Those of a program with this runtime.
    pub fn of(rt: R) -> BehindName<R> {
        BehindName { rt }
    }
}

impl<R: Env> Env for BehindName<R> {
    fn arg(&self, i: usize, buf: &mut [u8]) -> Result<usize, FillError> {
        match i.checked_add(1) {
            Some(behind) => self.rt.arg(behind, buf),
            None => Err(FillError::NotPresent),
        }
    }

    fn var(&self, name: &str, buf: &mut [u8]) -> Result<usize, FillError> {
        self.rt.var(name, buf)
    }

    fn var_at(&self, i: usize, buf: &mut [u8]) -> Result<usize, FillError> {
        self.rt.var_at(i, buf)
    }
}

/// The words that arguments are. Arguments that are not all texts are no words at all, which no command has.
pub fn words_of(alloc: Global, args: io::Result<Args>) -> Result<Vec<String>, OutOfMemory>
    ensures texts { IfOk args (λ list. IfOk result (λ words. words.items ≡ list.rest.items)) }
    ensures no_texts { IfErr args (λ _. IfOk result (λ words. words.items ≡ [])) }
{
    match args {
        Ok(args) => Ok(args.collect(alloc)?),
        Err(error) if error.kind() == io::ErrorKind::OutOfMemory => Err(OutOfMemory),
        Err(_) => Ok(Vec::new(alloc)),
    }
}
