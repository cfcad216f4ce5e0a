//! The hashes that more than one name of an object's members has.

ghost use Rattle.std.specs.Prelude.{◌≡◌, IfOk, map};
ghost use Rattle.at_scan.specs.Hashes.{HaveRepeated};
ghost use Rattle.at_geojson.specs.Hashes.{member_hash};

use crate::atoms::atom::GeoAtom;
use at_nest::Member;
use at_scan::{hash_of, repeated};
use at_text::Memory;
use std::alloc::Global;

/// The hashes of the members' names.
fn hashes_of(alloc: Global, members: &[Member<GeoAtom>]) -> Result<Vec<u64>, Memory>
    ensures { IfOk result (λ hashes. hashes.items ≡ map member_hash members.now) }
{
    let mut hashes = Vec::with_capacity(alloc, members.len())?;
    for member in members {
        hashes.push(hash_of(member.name.as_slice()))?;
    }
    Ok(hashes)
}

/// The hashes that more than one of the members' names has.
pub fn shared_hashes(alloc: Global, members: &[Member<GeoAtom>]) -> Result<Vec<u64>, Memory>
    ensures { IfOk result (λ shared. HaveRepeated (map member_hash members.now) shared.items) }
{
    let mut hashes = hashes_of(alloc, members)?;
    hashes.sort_unstable();
    repeated(alloc, hashes.as_slice())
}
