//! Generated scripts: how many, and the first numbers drawn.
use rv_generate::generate;
use std::test::Fail;

#[test]
fn eight_scripts_of_one_line_each_and_the_first_draws_of_0_are_47_and_17(
    rt: HostRuntime,
) -> Result<(), Fail> {
    let scripts = generate(rt.alloc(), 0)?;
    assert_eq!(rt; scripts.len(), 8);
    let first = b"REL G1 64 64 {1:47,17; 2:".as_slice();
    assert!(rt; scripts[0].as_slice().starts_with(first));
    for (script, end) in scripts.iter().zip([
        b"}. LET C1 = trans(G1). COUNT C1. COUNT C1 & C1^. COUNT syq(C1,C1).\n",
        b"}. LET C2 = trans(G2). COUNT C2. COUNT C2 & C2^. COUNT syq(C2,C2).\n",
        b"}. LET C3 = trans(G3). COUNT C3. COUNT C3 & C3^. COUNT syq(C3,C3).\n",
        b"}. LET C4 = trans(G4). COUNT C4. COUNT C4 & C4^. COUNT syq(C4,C4).\n",
        b"}. LET C5 = trans(G5). COUNT C5. COUNT C5 & C5^. COUNT syq(C5,C5).\n",
        b"}. LET C6 = trans(G6). COUNT C6. COUNT C6 & C6^. COUNT syq(C6,C6).\n",
        b"}. LET C7 = trans(G7). COUNT C7. COUNT C7 & C7^. COUNT syq(C7,C7).\n",
        b"}. LET C8 = trans(G8). COUNT C8. COUNT C8 & C8^. COUNT syq(C8,C8).\n",
    ]) {
        assert!(rt; script.as_slice().ends_with(end.as_slice()));
        let separators = script.iter().filter(|byte| **byte == b';').count();
        assert_eq!(rt; separators, 63);
        let lines = script.iter().filter(|byte| **byte == b'\n').count();
        assert_eq!(rt; lines, 1);
    }
    Ok(())
}

#[test]
fn draws_go_on_from_script_to_script_and_the_last_32_bits_count(
    rt: HostRuntime,
) -> Result<(), Fail> {
    let alloc = rt.alloc();
    let mut state: u32 = 5;
    for _ in 0..128 {
        state = state.wrapping_mul(1_664_525).wrapping_add(1_013_904_223);
    }
    let scripts = generate(alloc, 5)?;
    let later = generate(alloc, u64::from(state))?;
    assert!(rt; scripts.len() == 8 && later.len() == 8);
    let second = &scripts[1].as_slice();
    let first = &later[0].as_slice();
    // The names `G2` and `G1` differ; after them, the rows are the same.
    assert!(rt; second.len() > 600 && first.len() > 600);
    assert_eq!(rt; &second[6..600], &first[6..600]);
    let same = generate(alloc, 5 + (1 << 32))?;
    assert!(rt; same == scripts);
    Ok(())
}
