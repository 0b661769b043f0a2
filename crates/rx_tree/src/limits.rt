//! How many names the files of a tree may have, and how many bytes their paths.
ghost use Rattle.std.specs.Prelude.{◌≡◌, length, min, sum_by};
ghost use Rattle.rx_tree.specs.NameLimits.{has_few_names};

use crate::file::FileEntry;
use crate::names::Names;

/// The most names that the files of a tree may have together.
pub const MAX_NAMES: usize = 1_000_000;

/// The most bytes that all their paths may have together.
pub const MAX_PATH_BYTES: usize = 1_073_741_824;

/// Whether files have at most `MAX_NAMES` names together, and these at most `MAX_PATH_BYTES` bytes. Equal names count each by
/// itself.
#[tactic(auto, unfolding(crate::specs::NameLimits::has_few_names))]
pub fn names_fit(files: &[FileEntry]) -> bool
    ensures { result ≡ has_few_names files.now }
{
    let mut names = 0usize;
    let mut bytes = 0usize;
    for file in files {
        names = names.saturating_add(file.names.items().len());
        bytes = bytes.saturating_add(path_bytes(&file.names));
    }
    names <= MAX_NAMES && bytes <= MAX_PATH_BYTES
}

/// The bytes of these paths together, or the largest number where they are more.
fn path_bytes(names: &Names) -> usize
    ensures { result ≡ min usize.MAX (sum_by length names.now) }
{
    let mut bytes = 0usize;
    for path in names.items() {
        bytes = bytes.saturating_add(path.as_str().len());
    }
    bytes
}
