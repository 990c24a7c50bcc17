//! What may be a name.
ghost use Rattle.std.specs.Prelude.{◌≡◌, IfOk, string_bytes};
ghost use Rattle.std.specs.List.{list_all};
ghost use Rattle.mn_model.specs.Name.{begins_name, continues_name, is_name as is_a_name, IsName};

use std::alloc::{AllocError, Global};

fn begins_name(c: u8) -> bool
    ensures { result ≡ begins_name c }
{
    c.is_ascii_alphabetic() || c == b'_'
}

fn continues_name(c: u8) -> bool
    ensures { result ≡ continues_name c }
{
    begins_name(c) || c.is_ascii_digit()
}

fn all_continue(bytes: &[u8]) -> bool
    ensures { result ≡ list_all continues_name bytes.now }
{
    bytes.iter().all(|c| continues_name(*c))
}

/// Whether the bytes are a name: a letter or `_`, then letters, digits and `_`, but not `_` alone.
pub fn is_name(bytes: &[u8]) -> bool
    ensures { result ≡ is_a_name bytes.now }
{
    match bytes {
        [] => false,
        [only] => only.is_ascii_alphabetic(),
        [first, ..] => begins_name(*first) && all_continue(bytes),
    }
}

/// The name as a text.
pub fn string_of(alloc: Global, name: &[char]) -> Result<String, AllocError>
    requires { IsName name.now }
    ensures { IfOk result (λ text. string_bytes text ≡ name.now) }
{
    let mut text = String::new(alloc);
    for c in name {
        text.push(*c)?;
    }
    Ok(text)
}
