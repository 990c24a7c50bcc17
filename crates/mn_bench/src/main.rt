//! Times layers that the program doesn't use yet. It is no test: nothing fails on a figure.
#![tactic(auto)]

mod raw;
mod texts;

use anyhow::Result;
use std::env;

fn main(rt: HostRuntime) -> Result<()> {
    let word = env::args(&rt)?.nth(1);
    match word.as_ref().map(|word| word.as_str()) {
        Some("texts") => texts::measure(&rt),
        Some("raw") => raw::measure(&rt),
        _ => {
            println!(rt;
                "mn_bench texts: times the lexer\nmn_bench raw: times the raw block and the lists"
            )?;
            Ok(())
        }
    }
}
