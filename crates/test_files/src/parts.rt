//! Taking files apart: one written by hand, and the smallest file for each fault.
use k2_parts::form::Quadrant;
use k2_parts::take_apart;
use run_model::outcome::BadFile;

#[test]
fn two_relations_have_one_list_of_quadrants(rt: HostRuntime) {
    let file = b"RVK2\0\0\0\x03\0\0\0\x02\
        \0\0\0\x01\0\0\0\0\0\0\0\0\0\0\0\0\
        \0\0\0\0\0\0\0\0\0\0\0\0\0\0\0\x01\
        \0\0\0\x02\0\0\0\0\0\0\0\0\0\0\0\x03\
        \x01A\0\0\0\x04\0\0\0\x04\0\0\0\x04\
        \x01B\0\0\0\x02\0\0\0\x02\0\0\0\x02";
    let form = take_apart(rt.alloc(), file.as_slice()).expect(&rt, "the parts of the file");
    let last = Quadrant {
        nw: 2,
        ne: 0,
        sw: 0,
        se: 3,
    };
    assert_eq!(&rt; form.quads.len(), 3);
    assert!(&rt; form.quads.as_slice().last() == Some(&last));
    assert!(&rt; form.heights.as_slice() == b"\x01\x01\x02".as_slice());
    let told = [(b"A".as_slice(), 4, 4), (b"B".as_slice(), 2, 2)];
    assert_eq!(&rt; form.roots.len(), told.len());
    for (root, (name, side, number)) in form.roots.as_slice().iter().zip(told) {
        assert!(&rt; root.name.bytes() == name);
        assert_eq!(&rt; (root.rows, root.cols, root.root), (side, side, number));
    }
}

#[test]
fn each_fault_has_its_smallest_file(rt: HostRuntime) {
    let cases = [
        (b"".as_slice(), BadFile::Magic),
        (b"RVK2".as_slice(), BadFile::Short),
        (
            b"RVK2\0\0\0\x01\0\0\0\0\0\0\0\0\0\0\0\0\0\0\0\0\0\0\0\0".as_slice(),
            BadFile::Quad { at: 2 },
        ),
        (
            b"RVK2\0\0\0\x02\0\0\0\0\0\0\0\x01\0\0\0\0\0\0\0\0\0\0\0\0\0\0\0\x01\0\0\0\0\0\0\0\0\0\0\0\0".as_slice(),
            BadFile::Quad { at: 3 },
        ),
        (
            b"RVK2\0\0\0\0\0\0\0\x01\0".as_slice(),
            BadFile::Names { at: 0 },
        ),
        (
            b"RVK2\0\0\0\0\0\0\0\x01\x01A\x01\0\0\x01\0\0\0\0\0\0\0\0".as_slice(),
            BadFile::Sizes,
        ),
        (
            b"RVK2\0\0\0\0\0\0\0\x01\x01A\0\0\0\x01\0\0\0\x01\0\0\0\x01".as_slice(),
            BadFile::Root { at: 0 },
        ),
        (
            b"RVK2\0\0\0\x01\0\0\0\x01\0\0\0\0\0\0\0\0\0\0\0\0\0\0\0\x01\x01A\0\0\0\x01\0\0\0\x01\0\0\0\x02".as_slice(),
            BadFile::Outside { at: 0 },
        ),
        (
            b"RVK2\0\0\0\x01\0\0\0\0\0\0\0\x01\0\0\0\0\0\0\0\0\0\0\0\0".as_slice(),
            BadFile::Order { at: 2 },
        ),
        (b"RVK2\0\0\0\0\0\0\0\0\0".as_slice(), BadFile::Rest),
    ];
    for (file, fault) in cases {
        assert_eq!(&rt; take_apart(rt.alloc(), file).err(), Some(fault));
    }
}
