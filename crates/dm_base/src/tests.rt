//! The texts of identifiers and paths, and that what takes memory is given it.

use super::*;
use std::test::Fail;

#[test]
fn identifiers_print_as_32_digits(rt: HostRuntime) {
    let first = Bfid::of(1, 1).digits();
    assert_eq!(rt;
        first.as_slice(),
        b"00000000000000010000000000000001".as_slice()
    );
    let last = Bfid::of(1, 9_223_372_036_854_775_807).digits();
    assert_eq!(rt;
        last.as_slice(),
        b"00000000000000017fffffffffffffff".as_slice()
    );
}

#[test]
fn identifiers_are_read_as_they_print(rt: HostRuntime) {
    let texts: [&[u8]; 3] = [
        b"00000000000000010000000000000001",
        b"00000000000000017fffffffffffffff",
        b"ffffffffffffffffffffffffffffffff",
    ];
    let values = [Bfid::of(1, 1), Bfid::of(1, NUMBER_LIMIT), Bfid(u128::MAX)];
    for (text, value) in texts.iter().zip(values) {
        assert_eq!(rt; Bfid::of_digits(text), Some(value));
    }
    let others: [&[u8]; 4] = [
        b"",
        b"0000000000000001000000000000000",
        b"000000000000000100000000000000001",
        b"00000000000000017FFFFFFFFFFFFFFF",
    ];
    for text in others {
        assert_eq!(rt; Bfid::of_digits(text), None);
    }
}

#[test]
fn paths_are_taken_by_their_grammar(rt: HostRuntime) -> Result<(), Fail> {
    let texts: [&[u8]; 3] = [b"/a", b"/g/0001", b"/A.z_0-9/b"];
    for text in texts {
        match Path::of_bytes(rt.alloc(), text) {
            Ok(path) => assert_eq!(rt; path.bytes(), text),
            Err(error) => assert_eq!(rt; error, TextError::NoMemory, "with ample memory"),
        }
    }
    let others: [&[u8]; 6] = [b"", b"/", b"a", b"//a", b"/a/", b"/a b"];
    for text in others {
        let refused = matches!(Path::of_bytes(rt.alloc(), text), Err(TextError::Grammar));
        assert!(rt; refused);
    }
    Ok(())
}

#[test]
fn the_longest_path_has_255_bytes(rt: HostRuntime) -> Result<(), Fail> {
    let mut text = vec![in rt.alloc(); b'a'; 256]?;
    text[0] = b'/';
    let whole = text.as_slice();
    match Path::of_bytes(rt.alloc(), whole.split_at(255).0) {
        Ok(path) => assert_eq!(rt; path.bytes().len(), 255),
        Err(error) => assert_eq!(rt; error, TextError::NoMemory, "with ample memory"),
    }
    let refused = matches!(Path::of_bytes(rt.alloc(), whole), Err(TextError::Grammar));
    assert!(rt; refused);
    Ok(())
}

#[test]
fn names_and_findings_are_in_the_order_of_their_bytes(rt: HostRuntime) -> Result<(), Fail> {
    let path = |text: &[u8]| Path::of_bytes(rt.alloc(), text)
        .ok()
        .ok_or("there is memory");
    let first = Finding::Gone {
        path: path(b"/a/b")?,
        bfid: Bfid(2),
    };
    let second = Finding::Gone {
        path: path(b"/b")?,
        bfid: Bfid(1),
    };
    let by_group = Finding::NoCopy {
        group: GroupId(2),
        bfid: Bfid(9),
    };
    assert!(rt; path(b"/a")? < path(b"/a/b")?);
    assert!(rt; first < second);
    assert!(rt; by_group < first);
    Ok(())
}

#[test]
fn a_prefix_is_a_slash_or_a_path(rt: HostRuntime) -> Result<(), Fail> {
    let below = Path::of_bytes(rt.alloc(), b"/a")
        .ok()
        .ok_or("there is memory")?;
    assert_eq!(rt; Prefix::Root.bytes(), b"/".as_slice());
    assert_eq!(rt; Prefix::Under(below).bytes(), b"/a".as_slice());
    Ok(())
}

#[test]
fn contents_are_copied(rt: HostRuntime) -> Result<(), Fail> {
    let bytes = Bytes::from_vec(Vec::from_slice(rt.alloc(), b"hello")?);
    let copied =
        matches!(bytes.copied(rt.alloc()), Ok(copy) if copy.as_slice() == b"hello".as_slice());
    assert!(rt; copied);
    Ok(())
}

#[test]
fn names_of_dumps_are_taken_by_their_grammar(rt: HostRuntime) -> Result<(), Fail> {
    let texts: [&[u8]; 2] = [b"d", b"A.z_0-9"];
    for text in texts {
        match DumpName::of_bytes(rt.alloc(), text) {
            Ok(name) => assert_eq!(rt; name.bytes(), text),
            Err(error) => assert_eq!(rt; error, TextError::NoMemory, "with ample memory"),
        }
    }
    let others: [&[u8]; 3] = [b"", b"a/b", b"012345678901234567890123456789012"];
    for text in others {
        let refused = matches!(
            DumpName::of_bytes(rt.alloc(), text),
            Err(TextError::Grammar)
        );
        assert!(rt; refused);
    }
    Ok(())
}

#[test]
fn serial_numbers_are_six_capitals_and_digits(rt: HostRuntime) {
    assert_eq!(rt; Vsn::of_bytes(b"AA0001"), Some(Vsn(*b"AA0001")));
    let others: [&[u8]; 4] = [b"AA001", b"AA00011", b"aa0001", b"AA-001"];
    for text in others {
        assert_eq!(rt; Vsn::of_bytes(text), None);
    }
}

#[test]
fn lists_are_copied(rt: HostRuntime) -> Result<(), Fail> {
    let list = Listed::from_vec(Vec::from_slice(rt.alloc(), &[GroupId(1), GroupId(2)])?);
    let copied =
        matches!(list.copied(rt.alloc()), Ok(copy) if copy.as_slice() == [GroupId(1), GroupId(2)].as_slice());
    assert!(rt; copied);
    let name = DumpName::of_bytes(rt.alloc(), b"d")
        .ok()
        .ok_or("there is memory")?;
    let name_copied =
        matches!(name.copied(rt.alloc()), Ok(copy) if copy.bytes() == b"d".as_slice());
    assert!(rt; name_copied);
    Ok(())
}

#[test]
fn a_list_of_volumes_shows_those_that_count(rt: HostRuntime) {
    let list = SparseList {
        count: 1,
        vsns: [Vsn(*b"AA0001"); 16],
    };
    assert_eq!(rt; list.as_slice(), [Vsn(*b"AA0001")].as_slice());
}
