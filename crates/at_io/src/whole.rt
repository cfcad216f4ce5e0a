//! A whole file of a shelf, read in turns.

ghost use Rattle.std.specs.Prelude.{◌≡◌, ◌⊎◌, ◌+◌, ◌<◌, ◌≤◌, ◌^◌, ◌↔◌, length, vec_len, Some};
ghost use Rattle.std.specs.Prelude.{IsSome, IfSome, IfOk, IsErrOf};
ghost use Rattle.at_io.specs.Counts.{next_count, Rose};
ghost use Rattle.at_io.specs.Files.{bytes_named, name_among};

use crate::shelf::{Failed, Shelf};
use at_text::MOST_BYTES;
use std::alloc::{AllocError, Global};

/// The most bytes that one turn reads.
const TURN: usize = 65_536;

/// Why a file wasn't read.
#[derive(Clone, Copy, Debug, PartialEq, Eq)]
pub enum ReadError {
    /// A call on the shelf failed.
    Failed = 1,
    /// The file has more than 2^28 bytes.
    TooLarge = 2,
    /// Want of memory.
    Memory = 3,
}

impl From<Failed> for ReadError {
    ghost use Rattle.std.specs.Prelude.{◌≡◌};
    ghost use Rattle.at_io.specs.declared.whole.ReadError.TheVariants as errors;

    ghost from_gives = { λ _ e. e ≡ errors.Failed };

    fn from(_failed: Failed) -> ReadError {
        ReadError::Failed
    }
}

impl From<AllocError> for ReadError {
    ghost use Rattle.std.specs.Prelude.{◌≡◌};
    ghost use Rattle.at_io.specs.declared.whole.ReadError.TheVariants as errors;

    ghost from_gives = { λ _ e. e ≡ errors.Memory };

    fn from(_refused: AllocError) -> ReadError {
        ReadError::Memory
    }
}

/// Reads what is left of the file that was begun last, in turns of at most 65,536 bytes.
fn read_left<S: Shelf>(alloc: Global, shelf: &mut S) -> Result<Vec<u8>, ReadError>
    ensures bytes { IfOk result (λ v. IfSome (S.left shelf.old) (λ told. v.items ≡ told)) }
    ensures size { IfOk result (λ v. (vec_len v ≤ MOST_BYTES) × (S.taken shelf.new ≡ S.taken shelf.old + vec_len v)) }
    ensures too_large { IsErrOf result ReadError.TooLarge
        ↔ (S.taken shelf.new ≡ S.taken shelf.old + (MOST_BYTES + 1)) }
    ensures large { IsErrOf result ReadError.TooLarge → IfSome (S.left shelf.old) (λ told. MOST_BYTES < length told) }
    ensures failed { IsErrOf result ReadError.Failed → Rose (S.faults shelf.old) (S.faults shelf.new)
        × (S.broken shelf.new ≡ S.begins shelf.new) }
    ensures unbroken { IsErrOf result ReadError.Failed ⊎ (S.broken shelf.new ≡ S.broken shelf.old) }
    ensures taken { S.taken shelf.old ≤ S.taken shelf.new }
    ensures limit { S.taken shelf.new ≤ S.taken shelf.old + (MOST_BYTES + 1) }
    ensures same_files { S.files shelf.new ≡ S.files shelf.old }
    ensures same_begins { S.begins shelf.new ≡ S.begins shelf.old }
    ensures same_named { S.named shelf.new ≡ S.named shelf.old }
    ensures counted { S.faults shelf.old ≤ S.faults shelf.new }
{
    let mut bytes = Vec::new(alloc);
    let mut room = [0u8; TURN];
    loop {
        let want = TURN.min(MOST_BYTES + 1 - bytes.len());
        let given = shelf.read(&mut room[..want])?;
        if given == 0 {
            return Ok(bytes);
        }
        if bytes.len() + given > MOST_BYTES {
            return Err(ReadError::TooLarge);
        }
        bytes.extend_from_slice(&room[..given])?;
    }
}

/// All bytes of the file of that name, at most 2^28.
///
/// It begins once, by this name, and takes at most 2^28 + 1 bytes. In the code it reads at most 65,536 bytes a turn, and
/// each turn but the last takes a byte; no clause says so.
pub fn read_whole<S: Shelf>(alloc: Global, shelf: &mut S, name: &str) -> Result<Vec<u8>, ReadError>
    ensures bytes { IfOk result (λ v. IfSome (S.files shelf.old) (λ told. bytes_named told name.now ≡ Some v.items)) }
    ensures size { IfOk result (λ v. (vec_len v ≤ MOST_BYTES) × (S.taken shelf.new ≡ S.taken shelf.old + vec_len v)) }

    // Each refusal has its cause.
    ensures failed { IsErrOf result ReadError.Failed → Rose (S.faults shelf.old) (S.faults shelf.new)
        × (S.broken shelf.new ≡ S.begins shelf.new) }
    ensures too_large { IsErrOf result ReadError.TooLarge
        ↔ (S.taken shelf.new ≡ S.taken shelf.old + (MOST_BYTES + 1)) }
    ensures large { IsErrOf result ReadError.TooLarge
        → IfSome (S.files shelf.old) (λ told. IfSome (bytes_named told name.now) (λ bytes. MOST_BYTES
        < length bytes)) }
    ensures there { (IsErrOf result ReadError.Failed)
        ⊎ IfSome (S.files shelf.old) (λ told. IsSome (bytes_named told name.now)) }

    // The name was begun once, and what stays.
    ensures begins { S.begins shelf.new ≡ next_count (S.begins shelf.old) }
    ensures named { IfSome (S.files shelf.old) (λ told. S.named shelf.new ≡ name_among told name.now) }
    ensures unbroken { IsErrOf result ReadError.Failed ⊎ (S.broken shelf.new ≡ S.broken shelf.old) }
    ensures same_files { S.files shelf.new ≡ S.files shelf.old }
    ensures taken { S.taken shelf.old ≤ S.taken shelf.new }
    ensures limit { S.taken shelf.new ≤ S.taken shelf.old + (MOST_BYTES + 1) }
    ensures counted { S.faults shelf.old ≤ S.faults shelf.new }
{
    shelf.begin(name)?;
    read_left(alloc, shelf)
}
