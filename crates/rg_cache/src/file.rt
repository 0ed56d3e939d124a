// A cache in a file. What the file system does with bytes is trusted.
ghost use Rattle.std.specs.Prelude.{◌≡◌, IfOk};

use crate::cache::Cache;
use crate::fault::LoadFault;
use rg_base::{Failed, NoMemory, Seq, Tally};
use std::alloc::Global;
use std::fs::{File, Files, OpenFile, rename};
use std::io;
use std::io::{ErrorKind, Read, Write};
use std::marker::Model;

/// A cache in a file of its own. What is stored is written into a second file beside it, `PATH.new`, brought to the disk, and then
/// renamed, so a crash leaves the old bytes or the new ones. Contracts see how many calls failed.
#[derive(Drop)]
pub struct FileCache<'f, 'p, R: Files> {
    files: &'f R,
    path: &'p str,
    beside: String,
    faults: Tally,
}

impl<'f, 'p, R: Files> Model for FileCache<'f, 'p, R> {
    ghost use Rattle.std.specs.Prelude.{ℕ};

    ghost Value = { ℕ };

    ghost view = { λ c. c.faults.count };
}

impl<'f, 'p, R: Files> FileCache<'f, 'p, R> {
    /// In the file at this path, which need not be there yet.
    pub fn new(alloc: Global, files: &'f R, path: &'p str) -> Result<FileCache<'f, 'p, R>, NoMemory>
        ensures { IfOk result (λ c. c ≡ 0) }
    {
        let beside = format!(in alloc; "{path}.new")?;
        Ok(FileCache {
            files,
            path,
            beside,
            faults: Tally::zero(),
        })
    }

    // The bytes of the file.
    fn read(&self, alloc: Global) -> io::Result<Vec<u8>> {
        let mut file = File::open(self.files, self.path)?;
        let mut bytes = Vec::new(alloc);
        file.read_to_end(&mut bytes)?;
        Ok(bytes)
    }

    // Writes the file anew.
    fn write(&self, bytes: &[u8]) -> io::Result<()> {
        let mut file = File::create(self.files, self.beside.as_str())?;
        file.write_all(bytes)?;
        file.sync_all()?;
        drop(file);
        rename(self.files, self.beside.as_str(), self.path)
    }
}

impl<'f, 'p, R: Files> Cache for FileCache<'f, 'p, R> {
    ghost use Rattle.std.specs.Prelude.{None};

    ghost held = { λ c. None };

    ghost faults = { λ c. c };

    fn load(&mut self, alloc: Global) -> Result<Option<Seq<u8>>, LoadFault> {
        match self.read(alloc) {
            Ok(bytes) => Ok(Some(Seq::from_vec(bytes))),
            Err(error) if error.kind() == ErrorKind::NotFound => Ok(None),
            Err(error) if error.kind() == ErrorKind::OutOfMemory => Err(LoadFault::NoMemory),
            Err(_) => {
                self.faults.add();
                Err(LoadFault::Failed)
            }
        }
    }

    fn store(&mut self, bytes: &[u8]) -> Result<(), Failed> {
        match self.write(bytes) {
            Ok(()) => Ok(()),
            Err(_) => {
                self.faults.add();
                Err(Failed)
            }
        }
    }
}
