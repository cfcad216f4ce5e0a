//! The bytes of a file that the words name.

ghost use Rattle.std.specs.Prelude.{◌≡◌, ◌⊎◌, ◌+◌, ◌<◌, ◌≤◌, ◌^◌, ℕ, List, true, false, length, Some, IsSome, IfSome, IfOk};
ghost use Rattle.std.specs.Prelude.{IfErr, IsErrOf};
ghost use Rattle.at_io.specs.Counts.{Rose};
ghost use Rattle.at_cli.specs.Values.{IsFileName};
ghost use Rattle.at_cli.specs.Made.{is_made as made, IsMadeText};
ghost use Rattle.at_cli.specs.Outcomes.{HasBytes};
ghost use Rattle.at_cli.specs.Failures.{ShelfWasAsked, asked_name};

use crate::made::made_file;
use at_io::{ReadError, Shelf, read_whole};
use std::alloc::Global;

/// Whether the name is a made file's.
fn is_made(name: &str) -> bool
    ensures { result ≡ made name.now }
{
    let name = name.as_bytes();
    name.starts_with(b"@g:") || name.starts_with(b"@w:")
}

/// The text of a made file.
fn made_bytes(alloc: Global, name: &str) -> Result<Vec<u8>, ReadError>
    requires name { IsFileName name.now }
    requires made { made name.now ≡ true }
    ensures bytes { IfOk result (λ bytes. IsMadeText name.now bytes.items) }
    ensures size { IfOk result (λ bytes. length bytes.items ≤ 2 ^ 28) }
    ensures memory { IfErr result (λ (end : _). end ≡ ReadError.Memory) }
{
    match made_file(alloc, name) {
        Ok(text) => Ok(text_in(text)),
        Err(_) => Err(ReadError::Memory),
    }
}

/// The text that is there.
fn text_in(text: Option<Vec<u8>>) -> Vec<u8>
    requires { IsSome text }
    ensures { text ≡ Some result }
{
    match text {
        Some(text) => text,
        None => unreachable!(),
    }
}

/// The bytes of a name: the text of a made file, or those that the shelf has under it.
pub fn named_bytes<S: Shelf>(alloc: Global, shelf: &mut S, name: &str) -> Result<Vec<u8>, ReadError>
    requires { IsFileName name.now }
    ensures bytes { IfOk result (λ bytes. IfSome (S.files shelf.old) (λ told. HasBytes told name.now bytes.items)) }
    ensures size { IfOk result (λ bytes. length bytes.items ≤ 2 ^ 28) }
    ensures failed { IsErrOf result ReadError.Failed → (made name.now ≡ false)
        × Rose (S.faults shelf.old) (S.faults shelf.new) × (S.broken shelf.new ≡ S.begins shelf.new) }
    ensures unbroken { IsErrOf result ReadError.Failed ⊎ (S.broken shelf.new ≡ S.broken shelf.old) }
    ensures taken { IsErrOf result ReadError.TooLarge → S.taken shelf.old + (2 ^ 28 + 1) ≤ S.taken shelf.new }
    ensures large { IsErrOf result ReadError.TooLarge
        → IfSome (S.files shelf.old) (λ told. (bytes : List ℕ) × HasBytes told name.now bytes
        × (2 ^ 28 < length bytes)) }
    ensures asked { ShelfWasAsked S.Shelf (asked_name name.now) shelf.old shelf.new }
    ensures same_files { S.files shelf.new ≡ S.files shelf.old }
    ensures counted { S.faults shelf.old ≤ S.faults shelf.new }
{
    if is_made(name) {
        return made_bytes(alloc, name);
    }
    read_whole(alloc, shelf, name)
}
