//! Laws of file records.
ghost use Rattle.std.specs.Prelude.{◌≡◌, ◌%◌, ℕ, List, Ok, length, slice_get, Option};
ghost use Rattle.image_defs.specs.Ask.{result_of};
ghost use Rattle.image_defs.specs.Looks.{LooksAt};
ghost use Rattle.image_defs.specs.Via.{via};
ghost use Rattle.image_defs.specs.ViaLaws.{LiesIn};
ghost use Rattle.ntfs_record_defs.specs.Record.{FileRecord, record_of};
ghost use Rattle.ntfs_record_defs.specs.Lent.{AreApart, IsMended};
ghost use Rattle.ntfs_record_defs.specs.LentLaws.{LendTheSame, MendedLends, MendedLendsFound};
ghost use Rattle.ntfs_record_defs.specs.RecordLaws.{NoContentPlace, IsKept};

/// No byte at which a record looks is a place of the content of a resident `$DATA` of that same record.
pub fn a_record_looks_at_no_content_of_its_own()
    ensures { (stored : List ℕ) (size : ℕ) (found : FileRecord) → size % 512 ≡ 0 → result_of stored (record_of size) ≡ Ok found
        → LooksAt (LiesIn (NoContentPlace found)) stored (record_of size) }
{}

/// A record that is stored with other content of its resident `$DATA` is the same record.
#[tactic(auto, using(crate::proofs::RecordLaws::other_content))]
pub fn a_record_with_other_content_is_the_same()
    ensures { (a b : List ℕ) (size : ℕ) (found : FileRecord) → size % 512 ≡ 0 → result_of a (record_of size) ≡ Ok found → length a ≡ length b
        → ((byte : ℕ) → NoContentPlace found byte → slice_get a byte ≡ slice_get b byte) → result_of b (record_of size) ≡ Ok found }
{}

/// In an image too: each byte at which a record looks is that of a stored byte which is no place of its content.
pub fn an_image_is_looked_at_outside_the_content()
    ensures { (image : List ℕ) (place : ℕ → Option ℕ) (size : ℕ) (found : FileRecord) → size % 512 ≡ 0
        → result_of image (via place size (record_of size)) ≡ Ok found → LooksAt (LiesIn (IsKept place size found)) image (via place size (record_of size)) }
{}

/// A mended record lends the attributes of the record that was stored, each slice from the record's true bytes.
#[tactic(auto, using(crate::proofs::LentLaws::mended_lends))]
pub fn a_mended_record_lends_what_is_stored()
    ensures { MendedLends }
{}

/// The attributes that a mended record lends stand one behind the other, in its used bytes.
#[tactic(auto, using(crate::proofs::LentLaws::mended_apart))]
pub fn lent_attributes_are_apart()
    ensures { (bytes : List ℕ) → IsMended bytes → AreApart bytes }
{}

/// But for the content of its resident `$DATA`, a mended record lends the bytes that the record's program finds.
#[tactic(auto, using(crate::proofs::FoundLaws::mended_lends_found))]
pub fn a_mended_record_lends_what_is_found()
    ensures { MendedLendsFound }
{}

/// Two records that are stored alike but for the content of the resident `$DATA` of the first lend the same attributes but
/// for that content.
#[tactic(auto, using(crate::proofs::FoundLaws::lend_the_same))]
pub fn records_with_other_content_lend_the_same()
    ensures { LendTheSame }
{}
