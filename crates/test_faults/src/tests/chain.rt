//! A long chain is printed as it was read.
use crate::text::printed;
use std::test::Fail;

#[test]
fn a_chain_of_20_000_links_is_printed(rt: HostRuntime) -> Result<(), Fail> {
    let mut text = String::from_str(rt.alloc(), "A")?;
    'links: for _ in 0..20_000 {
        text.push_str("|A")?;
    }
    let script = format!(in rt.alloc(); "PRINT {text}.")?;
    let given = printed(rt.alloc(), script.as_bytes())?;
    assert_eq!(rt; given.as_str(), text.as_str());
    Ok(())
}
