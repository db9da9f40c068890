//! The results of rewriting expressions: each line of standard input is an expression, and is written again, followed
//! by an arrow, its steps and its calm tree. Titles begin with `==`.
#![tactic(auto)]

mod answer;
mod case;
#[cfg(test)]
mod chance;
#[cfg(test)]
mod grid;
#[cfg(test)]
mod measure;
#[cfg(test)]
mod tests;
mod texts;

use crate::answer::answer;
use crate::case::repeated;
use std::test::Fail;

fn main(rt: HostRuntime) -> Result<(), Fail> {
    let alloc = rt.alloc();
    for line in rt.lines(alloc) {
        let line = line?;
        if line.as_str().starts_with("== ") {
            println!(rt; "{line}")?;
        } else {
            let text = repeated(alloc, line.as_bytes())?;
            let answer = answer(alloc, text.as_slice())?;
            println!(rt; "{line} => {answer}")?;
        }
    }
    Ok(())
}
