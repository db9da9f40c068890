//! The answers for scripts: each line of standard input is a script, and is written again, followed by an arrow and its
//! answer. Titles begin with `==`.
#![tactic(auto)]

mod answer;
mod case;
mod rules;
mod show;

use crate::case::answered;
use std::test::Fail;

fn main(rt: HostRuntime) -> Result<(), Fail> {
    let alloc = rt.alloc();
    for line in rt.lines(alloc) {
        let line = line?;
        if line.as_str().starts_with("== ") {
            println!(rt; "{line}")?;
        } else {
            let answer = answered(alloc, line.as_str())?;
            println!(rt; "{line} => {answer}")?;
        }
    }
    Ok(())
}
