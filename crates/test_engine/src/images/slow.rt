//! The slow answer of an image, from a list of pairs.
use crate::lists::put;
use std::alloc::Global;
use std::process::Abort;

/// Which of `size` elements occur as columns of these pairs.
fn marked(rt: &impl Abort, alloc: Global, size: usize, line: &[(u32, u32)]) -> Vec<bool> {
    let Ok(mut marks) = vec![in alloc; false; size] else {
        panic!(rt; "no memory")
    };
    'pairs: for (_, j) in line {
        let k = *j as usize;
        if k < marks.len() {
            marks[k] = true;
        }
    }
    marks
}

/// The pairs (0, j) for which some k of the line has (k, j) among the pairs, or (j, k) if `turned`. The line ranges
/// over `from` elements.
pub(crate) fn slow_image(
    rt: &impl Abort,
    alloc: Global,
    turned: bool,
    line: &[(u32, u32)],
    pairs: &[(u32, u32)],
    from: u32,
) -> Vec<(u32, u32)> {
    let marks = marked(rt, alloc, from as usize, line);
    let mut found = Vec::new(alloc);
    'pairs: for (i, j) in pairs {
        let (k, to) = if turned { (*j, *i) } else { (*i, *j) };
        if (k as usize) < marks.len() && marks[k as usize] {
            put(rt, &mut found, (0, to));
        }
    }
    found
}
