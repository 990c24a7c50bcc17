//! A text as it grows, of which no more is kept than a text may have.
ghost use Rattle.std.specs.Prelude.{◌≡◌, ◌<◌, ◌≤◌, decimal, IfErr, IfOk, OnOk};
ghost use Rattle.std.specs.Fmt.{signed_decimal};
ghost use Rattle.mn_model.specs.declared.limits.TheConstants.{TEXT_BYTES};
ghost use Rattle.mn_printer.specs.Pages.{blank, onto};
ghost use Rattle.mn_printer.specs.declared.sections.PrintFault.TheVariants.{TooLong};

use crate::sections::PrintFault;
use itoa::Buffer;
use mn_model::TEXT_BYTES;
use std::alloc::{AllocError, Global};
use std::marker::Model;

/// A text as it grows. Bytes past the limit of texts are counted, but not kept.
#[derive(Drop)]
pub(crate) struct Page {
    kept: Vec<u8>,
    count: u64,
}

impl Model for Page {
    ghost use Rattle.mn_printer.specs.Pages.{Written};
    ghost use Rattle.std.specs.Prelude.{◌≤◌, length};

    ghost Value = { Written };

    ghost view = { λ p. record { kept = p.kept.items; count = p.count } };
}

impl Page {
    /// A page with nothing on it, in memory of `alloc`.
    pub(crate) fn new(alloc: Global) -> Page
        ensures { result ≡ blank }
    {
        Page {
            kept: Vec::new(alloc),
            count: 0,
        }
    }

    /// Writes bytes after what stands there.
    pub(crate) fn put(&mut self, bytes: &[u8]) -> Result<(), AllocError>
        ensures { OnOk result (self.new ≡ onto self.old bytes.now) }
    {
        let room = (TEXT_BYTES as usize).saturating_sub(self.kept.len());
        self.kept
            .extend_from_slice(&bytes[..room.min(bytes.len())])?;
        self.count = self.count.saturating_add(bytes.len() as u64);
        Ok(())
    }

    /// Writes a number.
    pub(crate) fn put_number(&mut self, n: i64) -> Result<(), AllocError>
        ensures { OnOk result (self.new ≡ onto self.old (signed_decimal n)) }
    {
        let mut digits = Buffer::new();
        self.put(digits.format(n).as_bytes())
    }

    /// Writes a count.
    pub(crate) fn put_count(&mut self, n: u64) -> Result<(), AllocError>
        ensures { OnOk result (self.new ≡ onto self.old (decimal n)) }
    {
        let mut digits = Buffer::new();
        self.put(digits.format(n).as_bytes())
    }

    /// The bytes, unless there are more than a text may have.
    pub(crate) fn finished(self) -> Result<Vec<u8>, PrintFault>
        ensures ok { IfOk result (λ bytes. (bytes.items ≡ self.kept) × (self.count ≤ TEXT_BYTES)) }
        ensures err { IfErr result (λ fault. (TEXT_BYTES < self.count) × (fault ≡ TooLong self.count)) }
    {
        let Page { kept, count } = self;
        if count > TEXT_BYTES {
            return Err(PrintFault::TooLong(count));
        }
        Ok(kept)
    }
}
