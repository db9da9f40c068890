//! A file of two relations for which a small table has no room together: LOAD ALL is refused and assigns nothing, and
//! LOAD of either of them succeeds.
use crate::expected::comes_to;
use crate::made::{Options, run_alone};
use std::alloc::Global;
use std::process::Abort;
use std::sync::Wait;
use std::test::Fail;
use std::thread::Threads;

/// A table, given the binary logarithm of its number of node words.
fn options(nodes: u32) -> Options {
    Options {
        turns: 7,
        nodes,
        workers: 1,
    }
}

/// Appends a relation of 1200 by 8 elements under a name. Its 150 blocks of 8 by 8 are distinct, with two pairs each.
/// It takes more than half of 1022 node words, and fewer than all: one for each block, and up to three for each of the
/// 153 quads above them. Two of these whose first blocks are 150 apart share none.
fn push_column(alloc: Global, script: &mut String, name: &str, first: u32) -> Result<(), Fail> {
    script.push_str(format!(in alloc; "REL {name} 1200 8 {{")?.as_str())?;
    'blocks: for i in 0..150u32 {
        let block = first.wrapping_add(i);
        let (high, low) = (block % 32, block / 32);
        let top = i.wrapping_mul(8).wrapping_add(1);
        let upper = top.wrapping_add(high / 8);
        let lower = top.wrapping_add(4).wrapping_add(low / 8 % 4);
        let (left, right) = ((high % 8).wrapping_add(1), (low % 8).wrapping_add(1));
        script.push_str(if i == 0 { "" } else { "; " })?;
        let pairs = format!(in alloc; "{upper}:{left}; {lower}:{right}")?;
        script.push_str(pairs.as_str())?;
    }
    script.push_str("}.\n")?;
    Ok(())
}

/// The file of two such relations.
fn file_of_two<R: Threads + Wait + Abort + Sync>(rt: &R, alloc: Global) -> Result<Vec<u8>, Fail> {
    let mut script = String::new(alloc);
    push_column(alloc, &mut script, "A", 0)?;
    push_column(alloc, &mut script, "B", 150)?;
    script.push_str("SAVE ALL \"f\".\n")?;
    let ran = run_alone(rt, alloc, options(14), script.as_str(), &[])?;
    let Some(save) = ran.saves.as_slice().first() else {
        panic!(rt; "not saved")
    };
    Ok(Vec::from_slice(alloc, save.bytes.as_slice())?)
}

/// The binary logarithm of the number of node words, scripts, the letters of their outcomes, and their pages.
const ROWS: &[(u32, &str, &str, &str)] = &[
    (
        14,
        "LOAD ALL \"f\". COUNT A|B.",
        "..",
        "1.2: 600\n1.1 assign A 1200 x 8\n1.1 assign B 1200 x 8\n1.2 read\n",
    ),
    (
        10,
        "LOAD ALL \"f\". COUNT A.",
        "ni",
        "1.1: refused: no free node word\n1.2: refused: 1:21: unknown name A\n1.2 read\n",
    ),
    (
        10,
        "LOAD A \"f\". COUNT A.",
        "..",
        "1.2: 300\n1.1 assign A 1200 x 8\n1.2 read\n",
    ),
    (
        10,
        "LOAD B \"f\". COUNT B. LOAD A \"f\". COUNT A.",
        "..ni",
        "1.2: 300\n1.3: refused: no free node word\n1.4: refused: 1:40: unknown name A\n1.1 assign B 1200 x 8\n1.2 read\n1.4 read\n",
    ),
];

#[test]
fn a_file_that_finds_no_room_assigns_none_of_its_relations(rt: HostRuntime) -> Result<(), Fail> {
    let alloc = rt.alloc();
    let bytes = file_of_two(&rt, alloc)?;
    let files = [("f", bytes.as_slice())];
    let files = files.as_slice();
    'rows: for &(nodes, script, outcomes, page) in ROWS {
        comes_to(
            &rt,
            alloc,
            options(nodes),
            script,
            files,
            outcomes,
            page,
            &[],
        )?;
    }
    Ok(())
}
