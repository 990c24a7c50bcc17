//! The file system and standard output. What they hold isn't told: they are trusted to do what they are asked.
ghost use Rattle.std.proofs.Common.{rules};
ghost use Rattle.std.specs.Prelude.{◌≡◌, ◌≤◌, List, ℕ, None, length, min, IfOk};
ghost use Rattle.mn_outside.specs.Faults.{greatest_count};

use crate::outside::{Failed, Files, Sink};
use std::fs::{File, OpenOptions};
use std::io::{self, Read, Seek, SeekFrom, Write};
use std::rt::Files as FileSystem;

/// The files of the file system.
#[derive(Drop)]
pub struct DiskFiles<R> {
    rt: R,
    unread: u64,
    unwritten: u64,
}

impl<R: FileSystem> DiskFiles<R> {
    /// The files of the system, by what makes its calls.
    pub fn new(rt: R) -> Self
        ensures untold { ⟦<DiskFiles<R> as Files>⟧.content result ≡ None }
        ensures unread { (name : List ℕ) → ⟦<DiskFiles<R> as Files>⟧.reading result name ≡ 0 }
        ensures unwritten { (name : List ℕ) → ⟦<DiskFiles<R> as Files>⟧.writing result name ≡ 0 }
    {
        DiskFiles {
            rt,
            unread: 0,
            unwritten: 0,
        }
    }
}

// Reads at an offset, by one call.
fn read_at<R: FileSystem>(rt: &R, name: &str, at: u64, into: &mut [u8]) -> io::Result<usize>
    ensures { IfOk result (λ n. n ≤ length into.new) }
{
    let mut file = File::open(rt, name)?;
    file.seek(SeekFrom::Start(at))?;
    file.read(into)
}

// Writes at the end, by one call.
fn write_behind<R: FileSystem>(rt: &R, name: &str, piece: &[u8]) -> io::Result<usize>
    ensures { IfOk result (λ n. n ≤ length piece.now) }
{
    let mut file = OpenOptions::new().append(true).create(true).open(rt, name)?;
    file.write(piece)
}

impl<R: FileSystem> Files for DiskFiles<R> {
    ghost content = { λ _. None };

    ghost reading = { λ files _. min files.unread greatest_count };

    ghost writing = { λ files _. min files.unwritten greatest_count };

    fn fetch(&mut self, name: &str, at: u64, into: &mut [u8]) -> Result<usize, Failed> {
        match read_at(&self.rt, name, at, into) {
            Ok(count) => Ok(count),
            Err(_) => {
                self.unread = self.unread.saturating_add(1);
                Err(Failed)
            }
        }
    }

    fn create(&mut self, name: &str) -> Result<(), Failed> {
        match File::create(&self.rt, name) {
            Ok(_) => Ok(()),
            Err(_) => {
                self.unwritten = self.unwritten.saturating_add(1);
                Err(Failed)
            }
        }
    }

    fn append(&mut self, name: &str, piece: &[u8]) -> Result<usize, Failed> {
        match write_behind(&self.rt, name, piece) {
            Ok(count) if count > 0 => Ok(count),
            _ => {
                self.unwritten = self.unwritten.saturating_add(1);
                Err(Failed)
            }
        }
    }

    ghost reading_fits = { λ files name. Prim.search rules };

    ghost writing_fits = { λ files name. Prim.search rules };
}

/// Standard output. Each write is one write of the system, and nothing is held back.
#[derive(Drop)]
pub struct StdSink<R> {
    rt: R,
    unwritten: u64,
}

impl<R: Print> StdSink<R> {
    /// Standard output, by what prints to it.
    pub fn new(rt: R) -> Self
        ensures untold { ⟦<StdSink<R> as Sink>⟧.content result ≡ None }
        ensures unwritten { ⟦<StdSink<R> as Sink>⟧.faults result ≡ 0 }
    {
        StdSink { rt, unwritten: 0 }
    }
}

impl<R: Print> Sink for StdSink<R> {
    ghost content = { λ _. None };

    ghost faults = { λ sink. min sink.unwritten greatest_count };

    fn write(&mut self, piece: &[u8]) -> Result<usize, Failed> {
        match self.rt.write_some(piece) {
            Ok(count) if count > 0 => Ok(count),
            _ => {
                self.unwritten = self.unwritten.saturating_add(1);
                Err(Failed)
            }
        }
    }

    fn flush(&mut self) -> Result<(), Failed> {
        Ok(())
    }

    ghost fits = { λ sink. Prim.search rules };
}
