//! Calls that repeat one call of the outside until the whole is done.
ghost use Rattle.std.specs.Prelude.{◌≡◌, ℕ, ◌+◌, ◌^◌, ◌<◌, ◌≤◌, length, vec_len, IfOk, IfErr, OnOk, OnErr, IsErrOf};
ghost use Rattle.mn_outside.specs.declared.helpers.FetchFault.TheVariants.{Failed, NoMemory};
ghost use Rattle.mn_outside.specs.Faults.{HasRisen, NoneFell};
ghost use Rattle.mn_outside.specs.Content.{AppendsPart, WritesPart, with_file_bytes, with_bytes};
ghost use Rattle.mn_outside.specs.Reading.{ContinuesFile, IsFileAt, line_ends};
ghost use Rattle.mn_outside.specs.Fault.{TellsLength};

use crate::outside::{Failed, Files, Sink};
use std::alloc::{AllocError, Global};
use thiserror::Error;

/// Why a whole file didn't come.
#[derive(Clone, Copy, Debug, PartialEq, Eq, Error)]
pub enum FetchFault {
    #[error("the file can't be read")]
    Failed,
    /// More bytes came than the limit allows. The number is that of the lines that end before the limit.
    #[error("the file is too long after {0} lines")]
    TooLong(u64),
    #[error("no memory")]
    NoMemory,
}

impl From<Failed> for FetchFault {
    ghost from_gives = { λ _ fault. fault ≡ Failed };

    fn from(_: Failed) -> Self {
        FetchFault::Failed
    }
}

impl From<AllocError> for FetchFault {
    ghost from_gives = { λ _ fault. fault ≡ NoMemory };

    fn from(_: AllocError) -> Self {
        FetchFault::NoMemory
    }
}

// How many bytes one call may bring.
const CHUNK: usize = 65536;

fn empty_buffer(alloc: Global, size: usize) -> Result<Vec<u8>, AllocError>
    ensures { IfOk result (λ buffer. vec_len buffer ≡ size) }
{
    vec![in alloc; 0u8; size]
}

/// The bytes of the named file, of at most so many.
pub fn fetch_all<F: Files>(
    alloc: Global,
    files: &mut F,
    name: &str,
    limit: u64,
) -> Result<Vec<u8>, FetchFault>
    requires { limit < 2 ^ 63 }

    ensures within { IfOk result (λ bytes. vec_len bytes ≤ limit) }
    ensures whole { IfOk result (λ bytes. IsFileAt (F.content files.old) name.now bytes.items) }
    ensures too_long { IfErr result (TellsLength (F.content files.old) name.now limit) }
    ensures same_content { F.content files.new ≡ F.content files.old }

    ensures failed { IsErrOf result FetchFault.Failed
        → HasRisen (F.reading files.old name.now) (F.reading files.new name.now) }
    ensures reading_kept { NoneFell (F.reading files.old) (F.reading files.new) }
    ensures writing_kept { NoneFell (F.writing files.old) (F.writing files.new) }
{
    let mut buffer = empty_buffer(alloc, CHUNK)?;
    let mut bytes = Vec::new(alloc);
    'reading: while bytes.len() as u64 <= limit {
        let room = buffer.len().min((limit - bytes.len() as u64) as usize + 1);
        let count = fetch_more(files, name, &mut buffer[..room], &mut bytes)?;
        if count == 0 {
            return Ok(bytes);
        }
    }
    Err(FetchFault::TooLong(line_count(&bytes[..limit as usize])))
}

// Takes what comes next of the named file behind these bytes, by one call, and answers how much.
fn fetch_more<F: Files>(
    files: &mut F,
    name: &str,
    buffer: &mut [u8],
    bytes: &mut Vec<u8>,
) -> Result<usize, FetchFault>
    requires room { 0 < length buffer.old }
    requires offset { vec_len bytes.old < 2 ^ 63 }

    ensures within { IfOk result (λ n. n ≤ length buffer.old) }
    ensures len { IfOk result (λ n. vec_len bytes.new ≡ vec_len bytes.old + n) }
    ensures more { IfOk result (λ n.
        ContinuesFile (F.content files.old) name.now n bytes.old.items bytes.new.items) }
    ensures same_content { F.content files.new ≡ F.content files.old }

    ensures failed { IsErrOf result FetchFault.Failed
        → HasRisen (F.reading files.old name.now) (F.reading files.new name.now) }
    ensures too_long { (lines : ℕ) → IsErrOf result (FetchFault.TooLong lines) → ⊥ }
    ensures reading_kept { NoneFell (F.reading files.old) (F.reading files.new) }
    ensures writing_kept { NoneFell (F.writing files.old) (F.writing files.new) }
{
    let count = files.fetch(name, bytes.len() as u64, buffer)?;
    bytes.extend_from_slice(&buffer[..count])?;
    Ok(count)
}

/// How many lines end in the bytes.
pub fn line_count(bytes: &[u8]) -> u64
    ensures count { result ≡ line_ends bytes.now }
    ensures within { result ≤ length bytes.now }
{
    bytes.iter().filter(|byte| **byte == b'\n').count() as u64
}

/// Writes the whole piece.
#[tactic(auto, using(crate::proofs::Adding::with_bytes_further))]
pub fn put_all<O: Sink>(out: &mut O, piece: &[u8]) -> Result<(), Failed>
    ensures written { OnOk result (O.content out.new ≡ with_bytes (O.content out.old) piece.now) }
    ensures part { OnErr result (WritesPart (O.content out.old) (O.content out.new) piece.now) }
    ensures failed { OnErr result (HasRisen (O.faults out.old) (O.faults out.new)) }
    ensures kept { O.faults out.old ≤ O.faults out.new }
{
    let mut done = 0;
    while done < piece.len() {
        done += out.write(&piece[done..])?;
    }
    Ok(())
}

/// Adds the whole piece at the end of the named file.
#[tactic(auto, using(crate::proofs::Adding::with_file_bytes_further))]
pub fn append_all<F: Files>(files: &mut F, name: &str, piece: &[u8]) -> Result<(), Failed>
    ensures appended { OnOk result
        (F.content files.new ≡ with_file_bytes (F.content files.old) name.now piece.now) }
    ensures part { OnErr result (AppendsPart (F.content files.old) (F.content files.new) name.now piece.now) }

    ensures failed { OnErr result (HasRisen (F.writing files.old name.now) (F.writing files.new name.now)) }
    ensures reading_kept { NoneFell (F.reading files.old) (F.reading files.new) }
    ensures writing_kept { NoneFell (F.writing files.old) (F.writing files.new) }
{
    let mut done = 0;
    while done < piece.len() {
        done += files.append(name, &piece[done..])?;
    }
    Ok(())
}
