//! Equal names in objects, and the first fault that they are.

ghost use Rattle.std.specs.Prelude.{◌≡◌, [], IfOk, is_some};
ghost use Rattle.at_geojson.specs.Atoms.{twin_of as the_twin};
ghost use Rattle.at_geojson.specs.Gathering.{firsts, is_among as name_among, twin_at, member_twins};

use crate::atoms::atom::GeoAtom;
use crate::objects::hashes::shared_hashes;
use at_nest::Member;
use at_scan::has_hash_among;
use at_text::{Fault, FaultKind, Memory, first_fault};
use std::alloc::Global;
use std::collections::BTreeSet;

/// The first fault of equal names in a value.
fn twin_of(atom: &GeoAtom) -> Option<Fault>
    ensures { result ≡ the_twin atom.now }
{
    match atom {
        GeoAtom::Twin(fault) => Some(*fault),
        _ => None,
    }
}

/// Whether a value has equal names in it.
pub fn is_twin(atom: &GeoAtom) -> bool
    ensures { result ≡ is_some (the_twin atom.now) }
{
    twin_of(atom).is_some()
}

/// The first fault of equal names in values.
pub fn first_twin(atoms: &[GeoAtom]) -> Option<Fault>
    ensures { result ≡ firsts the_twin atoms.now }
{
    let mut first = None;
    for atom in atoms {
        first = first_fault(first, twin_of(atom));
    }
    first
}

/// Whether one of the members has the name.
fn is_among(members: &[Member<GeoAtom>], name: &[u16]) -> bool
    ensures { result ≡ name_among members.now name.now }
{
    for member in members {
        if name == member.name.as_slice() {
            return true;
        }
    }
    false
}

/// The first fault of a member: of its name, where an earlier member has it, and in its value.
fn member_twin(is_twin: bool, member: &Member<GeoAtom>) -> Option<Fault>
    ensures { result ≡ twin_at is_twin member.now }
{
    let own = if is_twin {
        Some(Fault {
            kind: FaultKind::Twin,
            at: member.name_at,
        })
    } else {
        None
    };
    first_fault(own, twin_of(&member.value))
}

/// The first fault of equal names of members and in their values: each name is compared with those before it.
fn first_twin_of_few(members: &[Member<GeoAtom>]) -> Option<Fault>
    ensures { result ≡ member_twins [] members.now }
{
    let mut first = None;
    let mut index: usize = 0;
    for member in members {
        let is_twin = is_among(&members[..index], member.name.as_slice());
        first = first_fault(first, member_twin(is_twin, member));
        index += 1;
    }
    first
}

/// The first fault of equal names of members and in their values: a name whose hash another one has is looked for in
/// the set of such names before it.
fn first_twin_of_many(alloc: Global, members: &[Member<GeoAtom>]) -> Result<Option<Fault>, Memory>
    ensures { IfOk result (λ first. first ≡ member_twins [] members.now) }
{
    let shared = shared_hashes(alloc, members)?;
    let mut names: BTreeSet<&[u16]> = BTreeSet::new(alloc);
    let mut first = None;
    for member in members {
        let name = member.name.as_slice();
        let is_twin = has_hash_among(shared.as_slice(), name) && !names.insert(name)?;
        first = first_fault(first, member_twin(is_twin, member));
    }
    Ok(first)
}

/// As many names at the most are compared in pairs.
const FEW: usize = 16;

/// The first fault of equal names of members and in their values.
pub fn first_twin_of_members(
    alloc: Global,
    members: &[Member<GeoAtom>],
) -> Result<Option<Fault>, Memory>
    ensures { IfOk result (λ first. first ≡ member_twins [] members.now) }
{
    if members.len() <= FEW {
        Ok(first_twin_of_few(members))
    } else {
        first_twin_of_many(alloc, members)
    }
}
