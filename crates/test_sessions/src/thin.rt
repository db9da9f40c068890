//! A power set that a small table has no room to make whole: a name for it is refused, and it is printed.
use crate::expected::comes_to;
use crate::made::Options;
use std::alloc::Global;
use std::test::Fail;

/// The matrix of membership of 14 elements in their subsets: subset k has element i where bit i of k is 1.
fn membership(alloc: Global) -> Result<String, Fail> {
    let mut text = String::from_str(alloc, "14 x 16384\n")?;
    'elements: for i in 0..14u32 {
        'subsets: for k in 0..16384u32 {
            text.push_str(if (k >> i) & 1 == 1 { "1" } else { "." })?;
        }
        text.push_str("\n")?;
    }
    Ok(text)
}

#[test]
fn a_power_set_is_printed_where_its_name_has_no_room(rt: HostRuntime) -> Result<(), Fail> {
    let alloc = rt.alloc();
    let matrix = membership(alloc)?;
    let page = format!(in alloc;
        "1.2: refused: no free node word\n1.3: {matrix}1.1 assign V 14 x 1\n1.2 read\n1.3 read\n"
    )?;
    let options = Options {
        turns: 7,
        nodes: 10,
        workers: 1,
    };
    comes_to(
        &rt,
        alloc,
        options,
        "REL V 14 1 {}. LET E = epsi(V). PRINT epsi(V).",
        [].as_slice(),
        ".n.",
        page.as_str(),
        [].as_slice(),
    )
}
