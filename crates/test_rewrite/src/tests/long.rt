//! Chains of 10,000 operands.
use crate::texts::{are_one, script_of, text_of, value_of};
use rv_rewrite::{Rewritten, calm, check_step, rewrite};
use std::alloc::Global;
use std::process::Abort;
use std::test::Fail;

/// How many operands the long chains have.
const OPERANDS: u32 = 10_000;

/// An operand repeated a number of times, with a sign in between.
fn chain(alloc: Global, operand: &str, sign: &str, count: u32) -> Result<String, Fail> {
    let mut text = String::from_str(alloc, operand)?;
    'more: for _ in 1..count {
        text.push_str(sign)?;
        text.push_str(operand)?;
    }
    Ok(text)
}

/// The result of rewriting the expression of a text; its calm tree computed alone is the same.
fn rewritten(rt: &impl Abort, alloc: Global, text: &str) -> Result<Rewritten, Fail> {
    let script = script_of(alloc, text.as_bytes())?.expect(rt, "a script");
    let expr = value_of(&script).expect(rt, "an expression");
    let found = rewrite(alloc, expr)?;
    let alone = calm(alloc, expr)?;
    assert!(rt; are_one(alloc, &found.expr, &alone)?);
    Ok(found)
}

/// Asserts that no step applies to a text.
fn stays(rt: &impl Abort, alloc: Global, text: &str) -> Result<(), Fail> {
    let found = rewritten(rt, alloc, text)?;
    assert!(rt; found.steps.is_empty());
    assert_eq!(rt; text_of(alloc, &found.expr)?.as_str(), text);
    Ok(())
}

/// Asserts that each operand of a long chain is rewritten on its own, in order.
fn each_goes(
    rt: &impl Abort,
    alloc: Global,
    rule: u32,
    operand: &str,
    sign: &str,
    last: &str,
) -> Result<(), Fail> {
    let text = chain(alloc, operand, sign, OPERANDS)?;
    let found = rewritten(rt, alloc, text.as_str())?;
    assert_eq!(rt; found.steps.len(), OPERANDS as usize);
    'steps: for step in found.steps.as_slice() {
        assert_eq!(rt; step.rule, rule);
        assert!(rt; check_step(step));
    }
    let wanted = chain(alloc, last, sign, OPERANDS)?;
    assert_eq!(rt; text_of(alloc, &found.expr)?.as_str(), wanted.as_str());
    Ok(())
}

#[test]
fn each_operand_of_a_chain_of_10_000_is_rewritten(rt: HostRuntime) -> Result<(), Fail> {
    let alloc = rt.alloc();
    each_goes(&rt, alloc, 1, "--A", "|", "A")?;
    each_goes(&rt, alloc, 2, "A^^^", "*", "A^")?;
    each_goes(&rt, alloc, 4, "A&B&A", "|", "A&B")?;
    each_goes(&rt, alloc, 5, "-(A^*-B)", "&", "A\\B")?;
    Ok(())
}

#[test]
fn a_chain_of_10_000_operands_stays(rt: HostRuntime) -> Result<(), Fail> {
    let alloc = rt.alloc();
    'signs: for sign in ["|", "&", "*", "\\", "/"] {
        stays(&rt, alloc, chain(alloc, "A", sign, OPERANDS)?.as_str())?;
        stays(&rt, alloc, chain(alloc, "-A", sign, OPERANDS)?.as_str())?;
        stays(&rt, alloc, chain(alloc, "A^", sign, OPERANDS)?.as_str())?;
    }
    Ok(())
}
