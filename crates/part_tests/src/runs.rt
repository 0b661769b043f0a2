//! Run lists whose runs are worked out by hand.
use ntfs_defs::{Run, RunFault};
use ntfs_runs::{Runs, decode_runs};
use std::test::Fail;

/// A volume that is larger than all that most of the lists name.
const CLUSTERS: u64 = 1 << 40;

/// Lists, the clusters of their volumes, and their runs.
const LISTS: &[(&[u8], u64, &[Run])] = &[
    (
        &[0x21, 0x18, 0x34, 0x56, 0x00],
        CLUSTERS,
        &[Run {
            len: 0x18,
            cluster: Some(0x5634),
        }],
    ),
    (
        &[
            0x31, 0x38, 0x73, 0x25, 0x34, 0x32, 0x14, 0x01, 0xE5, 0x11, 0x02, 0x31, 0x42, 0xAA,
            0x00, 0x03, 0x00,
        ],
        CLUSTERS,
        &[
            Run {
                len: 0x38,
                cluster: Some(0x342573),
            },
            Run {
                len: 0x114,
                cluster: Some(0x363758),
            },
            Run {
                len: 0x42,
                cluster: Some(0x393802),
            },
        ],
    ),
    (
        &[0x11, 0x05, 0x0A, 0x11, 0x02, 0xFB, 0x00],
        CLUSTERS,
        &[
            Run {
                len: 5,
                cluster: Some(10),
            },
            Run {
                len: 2,
                cluster: Some(5),
            },
        ],
    ),
    // a hole keeps the base
    (
        &[
            0x21, 0x14, 0x00, 0x01, 0x11, 0x10, 0x18, 0x11, 0x05, 0x15, 0x01, 0x27, 0x11, 0x20,
            0x05, 0x00,
        ],
        CLUSTERS,
        &[
            Run {
                len: 0x14,
                cluster: Some(0x100),
            },
            Run {
                len: 0x10,
                cluster: Some(0x118),
            },
            Run {
                len: 5,
                cluster: Some(0x12D),
            },
            Run {
                len: 0x27,
                cluster: None,
            },
            Run {
                len: 0x20,
                cluster: Some(0x132),
            },
        ],
    ),
    // the limits
    (
        &[0x07, 0, 0, 0, 0, 0, 0, 1, 0x00],
        CLUSTERS,
        &[Run {
            len: 1 << 48,
            cluster: None,
        }],
    ),
    (
        &[0x11, 0x02, 0x05, 0x00, 0x19],
        7,
        &[Run {
            len: 2,
            cluster: Some(5),
        }],
    ),
    (
        &[
            0x81, 0x01, 0xFF, 0xFF, 0xFF, 0xFF, 0xFF, 0xFF, 0xFF, 0x7F, 0x00,
        ],
        1 << 63,
        &[Run {
            len: 1,
            cluster: Some((1 << 63) - 1),
        }],
    ),
];

#[test]
fn lists_have_their_runs(rt: HostRuntime) -> Result<(), Fail> {
    for (bytes, clusters, runs) in LISTS {
        let found = decode_runs(rt.alloc(), bytes, *clusters)?;
        assert_eq!(rt; found.items(), *runs, "{bytes:?}");
    }
    Ok(())
}

#[test]
fn runs_are_kept_in_order(rt: HostRuntime) -> Result<(), Fail> {
    let runs = Runs::from_vec(vec![in rt.alloc();
        Run {
            len: 2,
            cluster: Some(5)
        },
        Run {
            len: 3,
            cluster: None
        },
    ]?);
    assert_eq!(rt;
        runs.items(),
        [
            Run {
                len: 2,
                cluster: Some(5)
            },
            Run {
                len: 3,
                cluster: None
            }
        ]
        .as_slice()
    );
    Ok(())
}

/// Lists, the clusters of their volumes, and what is wrong with them.
const DAMAGED: &[(&[u8], u64, RunFault)] = &[
    (
        &[0x11, 0x05, 0x0A, 0x11, 0x02, 0xF5, 0x00],
        CLUSTERS,
        RunFault::Negative { at: 3 },
    ),
    (&[0x21, 0x18, 0x34], CLUSTERS, RunFault::Short { at: 0 }),
    (&[], CLUSTERS, RunFault::Short { at: 0 }),
    (&[0x11, 0x05, 0x0A], CLUSTERS, RunFault::Short { at: 3 }),
    (&[0x10], CLUSTERS, RunFault::Short { at: 0 }),
    (
        &[0x11, 0x00, 0x05, 0x00],
        CLUSTERS,
        RunFault::ZeroRun { at: 0 },
    ),
    (&[0x10, 0x05, 0x00], CLUSTERS, RunFault::ZeroRun { at: 0 }),
    (&[0x19, 0x00], CLUSTERS, RunFault::TooLong { at: 0 }),
    (&[0x91], CLUSTERS, RunFault::TooLong { at: 0 }),
    (
        &[0x07, 0, 0, 0, 0, 0, 0, 1, 0x11, 0x01, 0xFF, 0x00],
        CLUSTERS,
        RunFault::TooLong { at: 8 },
    ),
    (
        &[0x11, 0x02, 0x05, 0x00],
        6,
        RunFault::Outside { at: 0, cluster: 5 },
    ),
];

#[test]
fn damage_is_told(rt: HostRuntime) {
    for (bytes, clusters, fault) in DAMAGED {
        let found = decode_runs(rt.alloc(), bytes, *clusters).err();
        assert_eq!(rt; found, Some(*fault), "{bytes:?}");
    }
}
