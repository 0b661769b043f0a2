//! Paths that are joined.
use rx_ranges::Text;
use rx_tree::{PathFault, join_path};
use std::alloc::Global;
use std::test::Fail;

fn joined(alloc: Global, parent: &str, name: &str) -> Result<Text, PathFault> {
    join_path(
        alloc,
        &Text::from_str(alloc, parent)?,
        &Text::from_str(alloc, name)?,
    )
}

#[test]
fn paths_are_joined(rt: HostRuntime) -> Result<(), Fail> {
    let alloc = rt.alloc();
    for (parent, name, path) in [("/", "a", "/a"), ("/a", "b", "/a/b"), ("/", "", "/")] {
        assert_eq!(rt; joined(alloc, parent, name)?.as_str(), path);
    }
    Ok(())
}

#[test]
fn a_path_has_a_greatest_length(rt: HostRuntime) -> Result<(), Fail> {
    let alloc = rt.alloc();
    let mut name = String::new(alloc);
    for _ in 0..65_533 {
        name.push('n')?;
    }
    assert_eq!(rt; joined(alloc, "/", name.as_str())?.as_str().len(), 65_534);
    assert_eq!(rt;
        joined(alloc, "/n", name.as_str()).err(),
        Some(PathFault::TooLong)
    );
    Ok(())
}
