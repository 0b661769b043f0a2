//! Records that are worked out by hand.
use crate::bytes::{Written, put, with};
use ntfs_record::{FileRecord, Form, mend_bytes};
use ntfs_record_defs::RecordFault;
use std::test::Fail;

/// A stored record of 1,024 bytes with its array at 48 and the check number 0xBBAA, of which 160 are used. The true bytes of the ends
/// are 1 to 4. Its one attribute, at 56, is of kind 0x10 and 96 bytes, with 72 bytes of content, the last of them 6.
const RECORD: &[Written] = &[
    (0, b"FILE\x30\x00\x03"),
    (16, &[7, 0, 2, 0, 56, 0, 1, 0, 160]),
    (32, &[5, 0, 0, 0, 0, 0, 0, 9]),
    (48, &[0xAA, 0xBB, 1, 2, 3, 4]),
    (56, &[0x10, 0, 0, 0, 96]),
    (68, &[0x40, 0, 3, 0, 72, 0, 0, 0, 24]),
    (151, &[6, 0xFF, 0xFF, 0xFF, 0xFF]),
    (510, &[0xAA, 0xBB]),
    (1022, &[0xAA, 0xBB]),
];

#[test]
fn fields_and_places(rt: HostRuntime) -> Result<(), Fail> {
    let mut bytes: [u8; 1024] = with(RECORD);
    let record = FileRecord::mend(&mut bytes)?;
    assert_eq!(rt;
        (record.sequence(), record.links(), record.flags()),
        (7, 2, 1)
    );
    assert_eq!(rt; record.base(), 0x0900_0000_0000_0005);
    let places = [
        record.stored_place(509),
        record.stored_place(510),
        record.stored_place(511),
        record.stored_place(512),
        record.stored_place(1022),
        record.stored_place(1023),
    ];
    assert_eq!(rt; places, [509, 50, 51, 512, 52, 53]);
    Ok(())
}

#[test]
fn one_attribute(rt: HostRuntime) -> Result<(), Fail> {
    let mut bytes: [u8; 1024] = with(RECORD);
    let mut attributes = FileRecord::mend(&mut bytes)?.attrs();
    let first = attributes.next();
    assert!(rt; attributes.next().is_none());
    let first = first.expect(&rt, "one attribute");
    assert_eq!(rt; (first.kind, first.at), (0x10, 56));
    assert_eq!(rt; (first.flags, first.id), (0x40, 3));
    assert!(rt; first.name.is_empty());
    match first.form {
        Form::Resident { at, content } => {
            assert_eq!(rt; (at, content.len()), (80, 72));
            assert_eq!(rt; content.last(), Some(&6));
        }
        Form::Runs { .. } => panic!(rt; "content in clusters"),
    }
    Ok(())
}

#[test]
fn true_bytes_stand_in_place(rt: HostRuntime) -> Result<(), Fail> {
    let mut bytes: [u8; 1024] = with(RECORD);
    mend_bytes(&mut bytes)?;
    assert_eq!(rt; &bytes[509..512], [0, 1, 2].as_slice());
    assert_eq!(rt; &bytes[1022..], [3, 4].as_slice());
    Ok(())
}

/// Changes of the record, and what is refused then.
const REFUSED: &[(&[Written], RecordFault)] = &[
    (&[(3, b"A")], RecordFault::NotFile),
    (&[(6, &[2])], RecordFault::BadField { at: 6 }),
    (&[(4, &[49])], RecordFault::BadField { at: 4 }),
    (&[(1023, &[0xBA])], RecordFault::BadFixup { stride: 1 }),
    (&[(20, &[50])], RecordFault::BadField { at: 20 }),
    (&[(24, &[59])], RecordFault::BadField { at: 24 }),
    // no room for the end's mark, a length that is no multiple of 8, a content that is too long, and a name that is
    (&[(24, &[152])], RecordFault::BadField { at: 152 }),
    (
        &[(60, &[100]), (152, &[0; 4]), (156, &[0xFF; 4])],
        RecordFault::BadField { at: 56 },
    ),
    (&[(72, &[73])], RecordFault::BadField { at: 56 }),
    (&[(65, &[1, 23])], RecordFault::BadField { at: 56 }),
];

#[test]
fn a_record_that_is_refused_is_as_it_was(rt: HostRuntime) {
    for (changes, fault) in REFUSED {
        let mut bytes: [u8; 1024] = with(RECORD);
        for (at, change) in *changes {
            put(&mut bytes, *at, change);
        }
        let before = bytes;
        assert_eq!(rt; mend_bytes(&mut bytes), Err(*fault));
        assert!(rt; bytes == before);
    }
}
