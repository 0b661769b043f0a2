//! The epochs, and the moments beside them.
use rx_time::Moment;

#[test]
fn filetimes(rt: HostRuntime) {
    let moments = [
        (0, -11_644_473_600),
        (116_444_736_000_000_000, 0),
        (116_444_735_999_999_999, -1),
        (u64::MAX, 1_833_029_933_770),
    ];
    for (ticks, seconds) in moments {
        assert_eq!(rt; Moment::from_filetime(ticks).seconds, seconds);
    }
}

#[test]
fn seconds(rt: HostRuntime) {
    for seconds in [0, -1, 1_700_000_000, i64::MIN] {
        assert_eq!(rt; Moment::from_unix(seconds).seconds, seconds);
    }
    assert_eq!(rt; Moment::from_hfs(0), None);
    for (counted, seconds) in [(1, -2_082_844_799), (2_082_844_800, 0)] {
        assert_eq!(rt; Moment::from_hfs(counted), Some(Moment { seconds }));
    }
}
