//! What blocks read, and versions of names.
use lang_model::syntax::{Expr, Let, Link, Name, Op2, Place};
use rel_model::NoMemory;
use rv_blocks::{Versions, first_changed, reads_of};
use std::alloc::Global;

const AT: Place = Place { line: 1, column: 1 };

/// The name of one letter.
fn name(alloc: Global, letter: u8) -> Result<Name, NoMemory> {
    Name::new(alloc, &[letter])
}

/// A letter's name as an expression.
fn used(alloc: Global, letter: u8) -> Result<Expr, NoMemory> {
    Ok(Expr::Ref {
        at: AT,
        name: name(alloc, letter)?,
    })
}

/// `LET A = B; LET C = A&D; LET B = B`.
fn block(alloc: Global) -> Result<Vec<Let>, NoMemory> {
    let mut lets = Vec::new(alloc);
    let value = used(alloc, b'B')?;
    let given = name(alloc, b'A')?;
    lets.push(Let {
        at: AT,
        name: given,
        value,
    })?;
    let mut rest = Vec::new(alloc);
    rest.push(Link {
        at: AT,
        op: Op2::And,
        right: used(alloc, b'D')?,
    })?;
    let first = Box::new(alloc, used(alloc, b'A')?)?;
    let given = name(alloc, b'C')?;
    lets.push(Let {
        at: AT,
        name: given,
        value: Expr::Chain { first, rest },
    })?;
    let value = used(alloc, b'B')?;
    let given = name(alloc, b'B')?;
    lets.push(Let {
        at: AT,
        name: given,
        value,
    })?;
    Ok(lets)
}

#[test]
fn a_block_reads_what_it_has_not_given(rt: HostRuntime) {
    let alloc = rt.alloc();
    let Ok(lets) = block(alloc) else {
        assert!(&rt; false);
        return;
    };
    let Ok(reads) = reads_of(alloc, lets.as_slice()) else {
        assert!(&rt; false);
        return;
    };
    assert!(&rt; reads.len() == 2);
    assert!(&rt; reads[0].bytes() == b"B".as_slice() && reads[1].bytes() == b"D".as_slice());
    let Ok(none) = reads_of(alloc, &lets[..0]) else {
        assert!(&rt; false);
        return;
    };
    assert!(&rt; none.is_empty());
}

/// Names of one letter each.
fn names(alloc: Global, letters: &[u8]) -> Result<Vec<Name>, NoMemory> {
    let mut names = Vec::new(alloc);
    'letters: for letter in letters {
        names.push(name(alloc, *letter)?)?;
    }
    Ok(names)
}

/// Whether these names, noted once for each occurrence, have these versions, and the place of the first that does not.
fn noted(alloc: Global, raised: &[u8], reads: &[(Name, u64)]) -> Result<Option<usize>, NoMemory> {
    let mut versions = Versions::new(alloc);
    let list = names(alloc, raised)?;
    if list.len() < 100 {
        versions.note_all(alloc, list.as_slice())?;
    }
    Ok(first_changed(&versions, reads))
}

#[test]
fn versions_count_and_tell_the_first_change(rt: HostRuntime) {
    let alloc = rt.alloc();
    let mut reads = Vec::new(alloc);
    let letters: [(u8, u64); 3] = [(b'A', 2), (b'B', 1), (b'C', 0)];
    'letters: for (letter, number) in &letters {
        let Ok(own) = name(alloc, *letter) else {
            assert!(&rt; false);
            return;
        };
        reads.push((own, *number)).expect(&rt, "memory");
    }
    let all = reads.as_slice();
    assert!(&rt; noted(alloc, b"ABA", all).expect(&rt, "memory").is_none());
    assert!(&rt; noted(alloc, b"", all).expect(&rt, "memory") == Some(0));
    assert!(&rt; noted(alloc, b"ABAB", all).expect(&rt, "memory") == Some(1));
    assert!(&rt; noted(alloc, b"CAAB", all).expect(&rt, "memory") == Some(2));
}
