//! GeoJSON as an algebra of JSON values: each call is made by a function of this crate.

ghost use Rattle.std.specs.Prelude.{◌≤◌, ◌^◌, List, All, IfOk};
ghost use Rattle.at_nest.specs.Tree.{Tree, Members, array as array_tree, object as object_tree};
ghost use Rattle.at_nest.specs.Folds.{trees, AreItemFolds, AreMemberFolds};
ghost use Rattle.at_geojson.specs.Atoms.{IsOwn, IsFold, IsRun};
ghost use Rattle.at_geojson.specs.FeatureRuns.{IsAttemptOf};

use crate::asked::GeoAlgebra;
use crate::at_once::wholes::{whole_items, whole_value};
use crate::atoms::atom::GeoAtom;
use crate::atoms::lists::array_atom;
use crate::atoms::scalars::scalar_atom;
use crate::coordinates::pairs::Whole;
use crate::joined::runs::add_item;
use crate::objects::object_atoms::object_atom;
use crate::text::Text;
use at_nest::{Algebra, Attempt, Member};
use at_text::{Halt, Memory};
use std::alloc::Global;

/// What an attempt to read so many bytes at once gave.
fn attempted(found: Result<Whole, Halt>, seen: usize) -> Result<Attempt<GeoAtom>, Memory>
    requires found { IfOk found (λ whole. whole.end ≤ 2 ^ 28) }
    requires seen { seen ≤ 2 ^ 28 }
    ensures { IfOk result (IsAttemptOf found) }
{
    match found {
        Ok(Whole { end, atom }) => Ok(Attempt::Whole {
            len: end as u32,
            atom,
        }),
        Err(Halt::At(place)) => Ok(Attempt::Unsaid {
            looked: place.min(seen) as u32,
        }),
        Err(Halt::Memory) => Err(Memory),
    }
}

impl Algebra for GeoAlgebra {
    type Atom = GeoAtom;

    ghost is_own = { λ asked. IsOwn asked };

    ghost is_fold = { λ asked. IsFold asked };

    ghost is_run = { λ asked. IsRun asked };

    fn scalar(&self, alloc: Global, text: &[u8], at: u32) -> Result<GeoAtom, Memory> {
        scalar_atom(self, alloc, text, at)
    }

    fn add(&self, alloc: Global, items: &mut Vec<GeoAtom>, atom: GeoAtom) -> Result<(), Memory> {
        add_item(alloc, self, items, atom)
    }

    fn array(&self, alloc: Global, at: u32, items: Vec<GeoAtom>) -> Result<GeoAtom, Memory>
        requires { All (IsOwn self.now) items.items }
        ensures own { IfOk result (IsOwn self.now) }
        ensures fold { IfOk result (λ atom. (ts : List Tree)
            → AreItemFolds (IsFold self.now) (IsRun self.now) items.items ts
            → IsFold self.now atom (array_tree at (trees ts))) }
    {
        array_atom(alloc, self, at, items)
    }

    fn object(
        &self,
        alloc: Global,
        at: u32,
        members: Vec<Member<GeoAtom>>,
    ) -> Result<GeoAtom, Memory>
        requires { All (λ m. IsOwn self.now m.value) members.items }
        ensures own { IfOk result (IsOwn self.now) }
        ensures fold { IfOk result (λ atom. (ms : Members) → AreMemberFolds (IsFold self.now) members.items ms
            → IsFold self.now atom (object_tree at ms)) }
    {
        object_atom(alloc, self, at, members)
    }

    fn value(&self, alloc: Global, text: &[u8], at: u32) -> Result<Attempt<GeoAtom>, Memory> {
        let whole = whole_value(&Text {
            algebra: self,
            alloc,
            bytes: text,
            base: at,
        });
        attempted(whole, text.len())
    }

    fn items(&self, alloc: Global, text: &[u8], at: u32) -> Result<Attempt<GeoAtom>, Memory> {
        let whole = whole_items(&Text {
            algebra: self,
            alloc,
            bytes: text,
            base: at,
        });
        attempted(whole, text.len())
    }
}
