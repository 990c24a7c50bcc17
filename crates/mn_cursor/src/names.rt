//! Names as strings and as texts.
ghost use Rattle.std.specs.Prelude.{◌≡◌, IfOk};
ghost use Rattle.mn_model.specs.Name.{IsName};

use mn_model::{NoMemory, Text};
use std::alloc::Global;
use std::str;

/// A name as a string.
pub fn str_of(name: &[u8]) -> &str
    requires { IsName name.now }
    ensures { result.now ≡ name.now }
{
    str::from_utf8(name).unwrap()
}

/// The characters of a name.
pub fn text_of(alloc: Global, name: &[u8]) -> Result<Text, NoMemory>
    requires { IsName name.now }
    ensures { IfOk result (λ text. text ≡ name.now) }
{
    let mut text = Text::new(alloc);
    for byte in name {
        text.push(char::from(*byte))?;
    }
    Ok(text)
}
