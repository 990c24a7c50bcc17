//! A sink in memory, which fails at the calls that it was told.
ghost use Rattle.std.specs.Prelude.{◌≡◌, ◌↔◌, length, Some, min, IsTrue, IsFalse, IsOk, IfOk, OnOk, OnErr};
ghost use Rattle.std.proofs.Common.{rules};
ghost use Rattle.mn_outside.specs.Faults.{greatest_count};
ghost use Rattle.mn_outside.specs.Memory.{SinkInMemory, new_sink, sink_fails_next, after_write, after_failed_write, after_flush, after_failed_flush};

use crate::calls::Calls;
use crate::outside::{Failed, Sink};
use std::alloc::Global;
use std::marker::Model;

/// A sink that keeps what is written, and fails at the calls that it was told.
#[derive(Drop)]
pub struct MemSink {
    calls: Calls,
    bytes: Vec<u8>,
    unwritten: u64,
    lacked: u64,
}

impl Model for MemSink {
    ghost use Rattle.mn_outside.specs.Memory.{SinkInMemory};

    ghost Value = { SinkInMemory };

    ghost view = { λ sink. record {
      failing = sink.calls.failing.items;
      calls = sink.calls.made;
      bytes = sink.bytes.items;
      unwritten = sink.unwritten;
      lacked = sink.lacked;
    } };
}

impl MemSink {
    /// The calls of the trait are numbered from 1, and those whose number is in `fail` fail.
    pub fn new(alloc: Global, fail: Vec<u64>) -> Self
        ensures { result ≡ new_sink fail.items }
    {
        MemSink {
            calls: Calls {
                failing: fail,
                made: 0,
            },
            bytes: Vec::new(alloc),
            unwritten: 0,
            lacked: 0,
        }
    }

    /// What was written.
    pub fn written(&self) -> &[u8]
        ensures { result.now ≡ self.now.bytes }
    {
        self.bytes.as_slice()
    }

    /// How many calls failed for want of memory.
    pub fn lacked(&self) -> u64
        ensures { result ≡ self.now.lacked }
    {
        self.lacked
    }
}

impl Sink for MemSink {
    ghost content = { λ sink. Some sink.bytes };

    ghost faults = { λ sink. min sink.unwritten greatest_count };

    fn write(&mut self, piece: &[u8]) -> Result<usize, Failed>
        ensures whole { IfOk result (λ n. n ≡ length piece.now) }
        ensures ok { OnOk result (self.new ≡ after_write self.old piece.now) }
        ensures err { OnErr result (self.new ≡ after_failed_write self.old) }
        ensures failing { OnOk result (IsFalse (sink_fails_next self.old)) }
    {
        if self.calls.next_fails() {
            self.unwritten = self.unwritten.saturating_add(1);
            return Err(Failed);
        }
        if self.bytes.extend_from_slice(piece).is_err() {
            self.unwritten = self.unwritten.saturating_add(1);
            self.lacked = self.lacked.saturating_add(1);
            return Err(Failed);
        }
        Ok(piece.len())
    }

    fn flush(&mut self) -> Result<(), Failed>
        ensures answer { IsOk result ↔ IsFalse (sink_fails_next self.old) }
        ensures ok { OnOk result (self.new ≡ after_flush self.old) }
        ensures err { OnErr result (self.new ≡ after_failed_flush self.old) }
    {
        if self.calls.next_fails() {
            self.unwritten = self.unwritten.saturating_add(1);
            return Err(Failed);
        }
        Ok(())
    }

    ghost fits = { λ sink. Prim.search rules };
}
