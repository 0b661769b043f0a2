//! The names of a volume, by the number of the inode that has them.
ghost use Rattle.std.specs.Prelude.{◌≡◌, IfOk};
ghost use Rattle.ufs_files.specs.Groups.{AreGroupsOf, with_name};

use crate::paths::Paths;
use crate::rest::Rest;
use rx_ranges::NoMemory;
use std::alloc::Global;
use std::marker::Model;
use ufs_names::{KeptInode, Name};

/// The number of an inode, the inode, and its paths.
#[derive(Debug, Drop)]
pub(crate) struct Group {
    pub(crate) number: u32,
    pub(crate) inode: KeptInode,
    pub(crate) paths: Paths,
}

impl Model for Group {
    ghost use Rattle.ufs_files.specs.Groups.{Group};

    ghost Value = { Group };

    ghost view = { λ g. record {
      number = g.number;
      inode = g.inode;
      paths = g.paths;
    } };
}

/// Adds a name to the groups of the names in front of it, whose numbers are no greater.
fn add_name(alloc: Global, groups: &mut Vec<Group>, name: Name) -> Result<(), NoMemory>
    ensures { IfOk result (λ _. groups.new.items ≡ with_name groups.old.items name) }
{
    if let Some(last) = groups.last_mut()
        && last.number == name.number
    {
        last.paths.push(name.path)?;
        return Ok(());
    }
    groups.push(Group {
        number: name.number,
        inode: name.inode,
        paths: Paths::of(alloc, name.path),
    })?;
    Ok(())
}

/// The names by the numbers of their inodes, by rising number. The paths are moved, not copied.
pub(crate) fn groups_of(alloc: Global, mut names: Vec<Name>) -> Result<Vec<Group>, NoMemory>
    ensures { IfOk result (λ groups. AreGroupsOf names.items groups.items) }
{
    names.sort_by_key(|name| name.number)?;
    let mut groups = Vec::with_capacity(alloc, names.len())?;
    let mut rest = Rest::of(names);
    while let Some(name) = rest.next() {
        add_name(alloc, &mut groups, name)?;
    }
    Ok(groups)
}
