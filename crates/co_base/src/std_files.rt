ghost use Rattle.std.specs.Prelude.{◌≡◌, ◌≤◌, length, IfOk};

use crate::fault::Failed;
use crate::outside::Files;
use std::io::{Read, Seek, SeekFrom};
use std::{fs, io, rt};

/// The files of the machine that the program runs on. This tells nothing of what they hold.
#[derive(Drop)]
pub struct StdFiles<R> {
    runtime: R,
    faults: u64,
}

impl<R: rt::Files> StdFiles<R> {
    pub fn new(runtime: R) -> StdFiles<R>
        ensures { result.faults ≡ 0 }
    {
        StdFiles { runtime, faults: 0 }
    }
}

fn read_at<R: rt::Files>(runtime: &R, name: &str, at: u64, into: &mut [u8]) -> io::Result<usize>
    ensures { IfOk result (λ n. n ≤ length into.new) }
{
    let mut file = fs::open(runtime, name)?;
    file.seek(SeekFrom::Start(at))?;
    file.read(into)
}

impl<R: rt::Files> Files for StdFiles<R> {
    ghost use Rattle.std.specs.Prelude.{None};

    ghost told = { λ _ _. None };

    ghost faults = { λ f. f.faults };

    fn read(&mut self, name: &str, at: u64, into: &mut [u8]) -> Result<usize, Failed> {
        match read_at(&self.runtime, name, at, into) {
            Ok(count) => Ok(count),
            Err(_) => {
                self.faults = self.faults.saturating_add(1);
                Err(Failed)
            }
        }
    }
}
