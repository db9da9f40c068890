//! Names and file texts.
use lang_model::syntax::{FileText, Name};

#[test]
fn names_and_file_texts_are_made_where_memory_is_there(rt: HostRuntime) {
    let alloc = rt.alloc();
    let name = Name::new(alloc, b"Knows").expect(&rt, "a name");
    assert!(&rt; name.bytes() == b"Knows".as_slice());
    let copy = name.copied(alloc).expect(&rt, "a copy");
    assert!(&rt; copy.bytes() == b"Knows".as_slice());
    let text = FileText::new(alloc, b"a.k2").expect(&rt, "a file text");
    assert!(&rt; text.bytes() == b"a.k2".as_slice());
}
