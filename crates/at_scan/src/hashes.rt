//! Hashes of members' names: a name whose hash no other name has is compared with none.

ghost use Rattle.std.specs.Prelude.{◌≡◌, ◌≤◌, ◌↔◌, ℕ, All, Contains, IfOk, IsTrue, OnOk};
ghost use Rattle.std.specs.List.Sorted.{IsNonDecreasing};
ghost use Rattle.at_scan.specs.Hashes.{name_hash, tail_hash, HaveRepeated};

use at_text::Memory;
use std::alloc::Global;

/// Hardly ever is a sum of its powers, each times a small factor, 0 modulo 2^64, so hardly ever do unlike names share a
/// hash (docs/DECISIONS.md, at_scan).
const SPREAD: u64 = 0xD134_2543_DE82_EF95;

/// The hash of a name: equal names share it, and unlike ones hardly ever do.
pub fn hash_of(name: &[u16]) -> u64
    ensures { result ≡ name_hash name.now }
{
    let mut hash: u64 = 1;
    for unit in name {
        hash = hash.wrapping_add(u64::from(*unit)).wrapping_mul(SPREAD);
    }
    hash
}

/// The hash of a name in ASCII: of its last eight bytes, where it has so many.
#[inline(always)]
pub fn hash_of_tail(name: &[u8]) -> u64
    ensures { result ≡ tail_hash name.now }
{
    match name.last_chunk::<8>() {
        Some(tail) => u64::from_le_bytes(*tail).wrapping_mul(SPREAD),
        None => hash_of_few(name),
    }
}

/// The hash of a short name in ASCII.
fn hash_of_few(name: &[u8]) -> u64
    ensures { result ≡ name_hash name.now }
{
    let mut hash: u64 = 1;
    for byte in name {
        hash = hash.wrapping_add(u64::from(*byte)).wrapping_mul(SPREAD);
    }
    hash
}

/// Puts a number behind those that were found, unless it is the last of them.
fn add_once(found: &mut Vec<u64>, number: u64) -> Result<(), Memory>
    requires rise { IsNonDecreasing found.old.items }
    requires most { All (λ n. n ≤ number) found.old.items }
    ensures rise { OnOk result (IsNonDecreasing found.new.items) }
    ensures most { OnOk result (All (λ n. n ≤ number) found.new.items) }
    ensures has { OnOk result (Contains found.new.items number) }
    ensures keeps { OnOk result ((n : ℕ) → Contains found.old.items n → Contains found.new.items n) }
{
    if let Some(last) = found.as_slice().last() {
        if *last == number {
            return Ok(());
        }
    }
    found.push(number)?;
    Ok(())
}

/// The numbers that stand more than once in a list that rises.
pub fn repeated(alloc: Global, numbers: &[u64]) -> Result<Vec<u64>, Memory>
    requires { IsNonDecreasing numbers.now }
    ensures { IfOk result (λ found. HaveRepeated numbers.now found.items) }
{
    let mut found = Vec::new(alloc);
    for index in 1..numbers.len() {
        let number = numbers[index];
        if number != numbers[index - 1] {
            continue;
        }
        add_once(&mut found, number)?;
    }
    Ok(found)
}

/// Whether the hash of a name is among hashes that rise.
pub fn has_hash_among(hashes: &[u64], name: &[u16]) -> bool
    requires { IsNonDecreasing hashes.now }
    ensures { IsTrue result ↔ Contains hashes.now (name_hash name.now) }
{
    if hashes.is_empty() {
        return false;
    }
    hashes.binary_search(&hash_of(name)).is_ok()
}
