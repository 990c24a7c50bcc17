//! A tree of names and bytes, which contracts see as a finite map.
ghost use Rattle.std.specs.Prelude.{◌≡◌, ◌++◌, OnOk, OnErr, option_copied};
ghost use Rattle.std.specs.FinMap.{insert};
ghost use Rattle.mn_outside.specs.Content.{bytes_at, file_at};
ghost use Rattle.mn_outside.specs.Memory.{file_map};

use std::alloc::{AllocError, Global};
use std::collections::BTreeMap;

pub type Named = BTreeMap<String, Vec<u8>>;

pub fn bytes_of<'a>(files: &'a Named, name: &str) -> Option<&'a [u8]>
    ensures { option_copied result ≡ file_at (file_map files.now) name.now }
{
    match files.get(name) {
        Some(bytes) => Some(bytes.as_slice()),
        None => None,
    }
}

pub fn set_bytes(
    alloc: Global,
    files: &mut Named,
    name: &str,
    bytes: &[u8],
) -> Result<(), AllocError>
    ensures ok { OnOk result (file_map files.new ≡ insert (file_map files.old) name.now bytes.now) }
    ensures err { OnErr result (file_map files.new ≡ file_map files.old) }
{
    let key = String::from_str(alloc, name)?;
    let content = Vec::from_slice(alloc, bytes)?;
    files.insert(key, content)?;
    Ok(())
}

pub fn add_bytes(
    alloc: Global,
    files: &mut Named,
    name: &str,
    piece: &[u8],
) -> Result<(), AllocError>
    ensures ok { OnOk result (file_map files.new
        ≡ insert (file_map files.old) name.now (bytes_at (file_map files.old) name.now ++ piece.now)) }
    ensures err { OnErr result (file_map files.new ≡ file_map files.old) }
{
    match files.get_mut(name) {
        Some(bytes) => bytes.extend_from_slice(piece),
        None => set_bytes(alloc, files, name, piece),
    }
}
