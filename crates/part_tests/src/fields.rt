//! Fields of slices, with values that are worked out by hand.
use rx_bytes::View;

/// Twelve bytes that tell their places and the two orders apart, with the sign bit in some.
const BYTES: [u8; 12] = [
    0x01, 0x02, 0xF3, 0x04, 0x05, 0x06, 0x07, 0x08, 0x09, 0xFF, 0x80, 0x00,
];

/// Places, lengths, and the slices that are lent.
const PARTS: &[(usize, usize, Option<&[u8]>)] = &[
    (1, 3, Some(&[0x02, 0xF3, 0x04])),
    (12, 0, Some(&[])),
    (0, 13, None),
    (13, 0, None),
    (usize::MAX, 2, None),
];

#[test]
fn slices_are_lent(rt: HostRuntime) {
    let view = View::new(&BYTES);
    for (at, len, wanted) in PARTS {
        assert_eq!(rt; view.part(*at, *len), *wanted, "{at} {len}");
    }
}

#[test]
fn numbers_are_read_in_both_orders(rt: HostRuntime) {
    let view = View::new(&BYTES);
    assert_eq!(rt;
        (
            view.u8_at(11),
            view.u16_le(10),
            view.u32_le(8),
            view.u64_le(4)
        ),
        (
            Some(0),
            Some(0x0080),
            Some(0x0080_FF09),
            Some(0x0080_FF09_0807_0605)
        )
    );
    assert_eq!(rt;
        (view.i32_le(7), view.i64_le(3)),
        (Some(-0x7F00_F6F8), Some(-0x7F00_F6F7_F8F9_FAFC))
    );
    assert_eq!(rt;
        (view.u16_be(2), view.u32_be(8), view.u64_be(4)),
        (Some(0xF304), Some(0x09FF_8000), Some(0x0506_0708_09FF_8000))
    );
}
