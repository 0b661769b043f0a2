//! The command that words ask for.
use cmd_defs::Command;
use cmd_words::parse_words;
use rx_tree::FsKind;
use std::alloc::{AllocError, Global};
use std::test::Fail;

fn command_of(alloc: Global, line: &[&str]) -> Result<Option<Command>, AllocError> {
    let mut words = Vec::new(alloc);
    for word in line {
        words.push(String::from_str(alloc, word)?)?;
    }
    Ok(parse_words(&words))
}

fn selftest(kind: FsKind, number: u32, files: u32) -> Command {
    Command::Selftest {
        kind,
        number,
        files,
    }
}

#[test]
fn each_line_is_a_command(rt: HostRuntime) -> Result<(), Fail> {
    let lines: [(&[&str], Command); 9] = [
        (&["inventory", "disk"], Command::Inventory),
        (&["plan", "disk", "rules"], Command::Plan),
        (&["redact", "disk", "journal", "rules"], Command::Redact),
        (&["resume", "disk", "journal"], Command::Resume),
        (&["report", "journal"], Command::Report),
        (
            &["selftest", "ntfs", "0", "1"],
            selftest(FsKind::Ntfs, 0, 1),
        ),
        (
            &["selftest", "ufs1", "7", "10"],
            selftest(FsKind::Ufs1, 7, 10),
        ),
        (
            &["selftest", "ufs2", "90", "200"],
            selftest(FsKind::Ufs2, 90, 200),
        ),
        (
            &["selftest", "hfsplus", "4294967295", "199"],
            selftest(FsKind::HfsPlus, 4294967295, 199),
        ),
    ];
    for (line, command) in lines {
        assert_eq!(rt; command_of(rt.alloc(), line)?, Some(command), "{line:?}");
    }
    Ok(())
}

#[test]
fn other_words_are_none(rt: HostRuntime) -> Result<(), Fail> {
    let lines: [&[&str]; 21] = [
        &[],
        &["inventory"],
        &["--help"],
        &["--help", "disk"],
        &["Inventory", "disk"],
        &["inventory", "disk", "rules"],
        &["plan", "disk"],
        &["redact", "disk", "journal"],
        &["redact", "disk", "disk", "rules"],
        &["resume", "disk", "disk"],
        &["report", "disk", "journal"],
        &["report", "disk", "journal", "rules", "more"],
        &["selftest", "ufs2", "7"],
        &["selftest", "fat", "7", "10"],
        &["selftest", "ufs2", "07", "10"],
        &["selftest", "ufs2", "+1", "10"],
        &["selftest", "ufs2", "4294967296", "10"],
        &["selftest", "ufs2", "", "10"],
        &["selftest", "ufs2", "7", "0"],
        &["selftest", "ufs2", "7", "201"],
        &["selftest", "ufs2", "1x", "10"],
    ];
    for line in lines {
        assert_eq!(rt; command_of(rt.alloc(), line)?, None, "{line:?}");
    }
    Ok(())
}
