//! How fast texts of 64 MB are cut into tokens.
ghost use Rattle.std.specs.Prelude.{◌≡◌, ◌≤◌};

use anyhow::Result;
use mn_lexer::{NoMemory, TEXT_LIMIT, tokens};
use std::alloc::Global;
use std::rt::Clock;
use std::time::Instant;

/// The line again and again, as often as it fits.
fn repeated(alloc: Global, line: &[u8]) -> Result<Vec<u8>, NoMemory> {
    let mut text = Vec::with_capacity(alloc, TEXT_LIMIT)?;
    for _ in 0..TEXT_LIMIT {
        if text.len() >= TEXT_LIMIT || line.len() > TEXT_LIMIT - text.len() {
            break;
        }
        text.extend_from_slice(line)?;
    }
    Ok(text)
}

fn measure_line<R: Clock + Print + AllocGlobal>(rt: &R, name: &str, line: &[u8]) -> Result<()> {
    let text = repeated(rt.alloc(), line)?;
    if text.len() <= TEXT_LIMIT {
        let start = Instant::now(rt)?;
        let lexed = tokens(rt.alloc(), text.as_slice())?;
        let millis = start.elapsed(rt)?.as_millis();
        let count = lexed.list.len();
        let len = text.len();
        println!(rt; "{name}: {len} bytes, {count} tokens, {millis} ms")?;
    }
    Ok(())
}

/// Prints milliseconds for texts of one kind each.
pub fn measure<R: Clock + Print + AllocGlobal>(rt: &R) -> Result<()> {
    measure_line(
        rt,
        "constraints",
        b"sumleq([x[1,2],x[1,3],x[2,2]],5)\n".as_slice(),
    )?;
    measure_line(
        rt,
        "comments",
        b"# a comment that goes on for a while, as they do\n".as_slice(),
    )?;
    measure_line(
        rt,
        "words",
        b"a_word_of_some_length-with-dashes and another\n".as_slice(),
    )?;
    measure_line(rt, "stars", b"**A".as_slice())?;
    measure_line(rt, "digits", b"0000000000000000000000000000".as_slice())?;
    measure_line(rt, "one comment", b"#".as_slice())?;
    measure_line(rt, "one word", b"abcdefgh".as_slice())?;
    measure_line(rt, "blanks", b"        \r\n".as_slice())
}
