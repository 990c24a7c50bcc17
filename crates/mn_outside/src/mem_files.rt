//! Files in memory, which fail at the calls that they were told.
ghost use Rattle.std.proofs.Common.{rules};
ghost use Rattle.std.specs.Prelude.{◌≡◌, ◌⊎◌, ◌↔◌, ◌-◌, ◌^◌, ◌<◌, ◌++◌, [], length, take, drop, Some, min, IsTrue, IsFalse, IsNone, IsErr, IfOk, OnOk, OnErr, IsSomeAnd, option_copied};
ghost use Rattle.std.specs.FinMap.{insert};
ghost use Rattle.mn_outside.specs.Faults.{greatest_count};
ghost use Rattle.mn_outside.specs.Content.{bytes_at, file_at};
ghost use Rattle.mn_outside.specs.Memory.{FilesInMemory, one_more, new_files, files_fail_next, after_fetch, after_failed_fetch, after_change, after_failed_change};

use crate::calls::Calls;
use crate::named::{Named, add_bytes, bytes_of, set_bytes};
use crate::outside::{Failed, Files};
use std::alloc::{AllocError as NoMemory, Global};
use std::collections::BTreeMap;
use std::marker::Model;

/// Files that are kept in memory, and fail at the calls that they were told.
#[derive(Drop)]
pub struct MemFiles {
    alloc: Global,
    calls: Calls,
    files: Named,
    unread: u64,
    unwritten: u64,
    lacked: u64,
}

impl Model for MemFiles {
    ghost use Rattle.std.specs.Coded.{Coded, code_by, coded×, coded_ℕ, coded_list};
    ghost use Rattle.mn_outside.specs.Memory.{FilesInMemory, files_code, file_map};

    ghost Value = { FilesInMemory };

    ghost coded = { files_code };

    ghost view = { λ memory. record {
      failing = memory.calls.failing.items;
      calls = memory.calls.made;
      files = file_map memory.files;
      unread = memory.unread;
      unwritten = memory.unwritten;
      lacked = memory.lacked;
    } };
}

impl MemFiles {
    /// The calls of the trait are numbered from 1, and those whose number is in `fail` fail.
    pub fn new(alloc: Global, fail: Vec<u64>) -> Self
        ensures { result ≡ new_files fail.items }
    {
        MemFiles {
            alloc,
            calls: Calls {
                failing: fail,
                made: 0,
            },
            files: BTreeMap::new(alloc),
            unread: 0,
            unwritten: 0,
            lacked: 0,
        }
    }

    /// Places a file. It is no call of the trait.
    pub fn put(&mut self, name: &str, content: &[u8]) -> Result<(), NoMemory>
        ensures ok { OnOk result (self.new ≡ record self.old { files = insert self.old.files name.now content.now }) }
        ensures err { OnErr result (self.new ≡ self.old) }
    {
        set_bytes(self.alloc, &mut self.files, name, content)
    }

    /// What the named file holds.
    pub fn content(&self, name: &str) -> Option<&[u8]>
        ensures { option_copied result ≡ file_at self.now.files name.now }
    {
        bytes_of(&self.files, name)
    }

    /// How many calls failed for want of memory.
    pub fn lacked(&self) -> u64
        ensures { result ≡ self.now.lacked }
    {
        self.lacked
    }

    fn lack(&mut self) -> Failed
        ensures { self.new ≡ record self.old { unwritten = one_more self.old.unwritten; lacked = one_more self.old.lacked } }
    {
        self.unwritten = self.unwritten.saturating_add(1);
        self.lacked = self.lacked.saturating_add(1);
        Failed
    }
}

// Copies what follows the offset into the front of `into`.
fn copy_from(bytes: &[u8], at: u64, into: &mut [u8]) -> usize
    requires { at < 2 ^ 63 }
    ensures count { result ≡ min (length into.old) (length bytes.now - at) }
    ensures copied { into.new ≡ take result (drop at bytes.now) ++ drop result into.old }
{
    let start = bytes.len().min(at as usize);
    let rest = &bytes[start..];
    let count = into.len().min(rest.len());
    into[..count].copy_from_slice(&rest[..count]);
    count
}

impl Files for MemFiles {
    ghost content = { λ memory. Some memory.files };

    ghost reading = { λ memory _. min memory.unread greatest_count };

    ghost writing = { λ memory _. min memory.unwritten greatest_count };

    fn fetch(&mut self, name: &str, at: u64, into: &mut [u8]) -> Result<usize, Failed>
        requires room { 0 < length into.old }
        requires offset { at < 2 ^ 63 }
        ensures answer { IsErr result
            ↔ (IsTrue (files_fail_next self.old) ⊎ IsNone (file_at self.old.files name.now)) }
        ensures fetched { IfOk result (λ n. IsSomeAnd (file_at self.old.files name.now) (λ file.
            (n ≡ min (length into.old) (length file - at))
            × (into.new ≡ take n (drop at file) ++ drop n into.old))) }
        ensures untouched { OnErr result (into.new ≡ into.old) }
        ensures ok { OnOk result (self.new ≡ after_fetch self.old) }
        ensures err { OnErr result (self.new ≡ after_failed_fetch self.old) }
    {
        if !self.calls.next_fails()
            && let Some(bytes) = bytes_of(&self.files, name)
        {
            return Ok(copy_from(bytes, at, into));
        }
        self.unread = self.unread.saturating_add(1);
        Err(Failed)
    }

    fn create(&mut self, name: &str) -> Result<(), Failed>
        ensures ok { OnOk result (self.new ≡ after_change self.old name.now []) }
        ensures err { OnErr result (self.new ≡ after_failed_change self.old) }
        ensures failing { OnOk result (IsFalse (files_fail_next self.old)) }
    {
        if self.calls.next_fails() {
            self.unwritten = self.unwritten.saturating_add(1);
            return Err(Failed);
        }
        match set_bytes(self.alloc, &mut self.files, name, &[]) {
            Ok(()) => Ok(()),
            Err(_) => Err(self.lack()),
        }
    }

    fn append(&mut self, name: &str, piece: &[u8]) -> Result<usize, Failed>
        requires { 0 < length piece.now }
        ensures whole { IfOk result (λ n. n ≡ length piece.now) }
        ensures ok { OnOk result
            (self.new ≡ after_change self.old name.now (bytes_at self.old.files name.now ++ piece.now)) }
        ensures err { OnErr result (self.new ≡ after_failed_change self.old) }
        ensures failing { OnOk result (IsFalse (files_fail_next self.old)) }
    {
        if self.calls.next_fails() {
            self.unwritten = self.unwritten.saturating_add(1);
            return Err(Failed);
        }
        match add_bytes(self.alloc, &mut self.files, name, piece) {
            Ok(()) => Ok(piece.len()),
            Err(_) => Err(self.lack()),
        }
    }

    ghost reading_fits = { λ memory name. Prim.search rules };

    ghost writing_fits = { λ memory name. Prim.search rules };
}
