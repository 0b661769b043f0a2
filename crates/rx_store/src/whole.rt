//! A text that is read whole.
ghost use Rattle.std.specs.Prelude.{◌≡◌, ◌<◌, ◌≤◌, [], length, IfOk, IfSome, IfNone};
ghost use Rattle.disk_defs.specs.Stream.{IsPartlyRead};
ghost use Rattle.rx_store.specs.ReadFaults.{IsTextCounted};
ghost use Rattle.rx_store.specs.declared.whole.ReadError.TheVariants.{Fault, NoMemory};

use crate::source::Source;
use disk_defs::Fault;
use std::alloc::{AllocError, Global};

/// How many bytes are asked of a source at a time.
const BLOCK: usize = 4096;

/// Why a text couldn't be read.
#[derive(Clone, Copy, Debug, PartialEq, Eq)]
pub enum ReadError {
    /// The source failed.
    Fault,
    /// Memory ran out.
    NoMemory,
}

impl From<Fault> for ReadError {
    ghost from_gives = { λ _ error. error ≡ Fault };

    fn from(_fault: Fault) -> ReadError {
        ReadError::Fault
    }
}

impl From<AllocError> for ReadError {
    ghost from_gives = { λ _ error. error ≡ NoMemory };

    fn from(_error: AllocError) -> ReadError {
        ReadError::NoMemory
    }
}

/// Reads a source to its end: the whole text, or none where it has more than `limit` bytes. Of a text that is too long,
/// or after an error, some first bytes were read, and they are gone.
pub fn read_to_end<R: Source>(
    alloc: Global,
    source: &mut R,
    limit: usize,
) -> Result<Option<Vec<u8>>, ReadError>
    ensures whole { IfOk result (λ answer. IfSome answer
        (λ text. IfSome (R.rest source.old) (λ rest. text.items ≡ rest))) }
    ensures ended { IfOk result (λ answer. IfSome answer
        (λ _. IfSome (R.rest source.new) (λ rest. rest ≡ []))) }
    ensures within { IfOk result (λ answer. IfSome answer (λ text. length text.items ≤ limit)) }
    ensures long { IfOk result (λ answer. IfNone answer
        (IfSome (R.rest source.old) (λ rest. limit < length rest))) }
    ensures left { IsPartlyRead (R.rest source.old) (R.rest source.new) }
    ensures counted { IsTextCounted result (R.faults source.old) (R.faults source.new) }
{
    let mut text = Vec::new(alloc);
    let mut block = [0; BLOCK];
    'reading: loop {
        let count = source.read(&mut block)?;
        if count == 0 {
            return Ok(Some(text));
        }
        if count > limit - text.len() {
            return Ok(None);
        }
        text.extend_from_slice(&block[..count])?;
    }
}
