//! GeoJSON read item by item: no value is read at once.

ghost use Rattle.std.specs.Prelude.{List, All, IfOk};
ghost use Rattle.at_nest.specs.Tree.{Tree, Members, array as array_tree, object as object_tree};
ghost use Rattle.at_nest.specs.Folds.{trees, AreItemFolds, AreMemberFolds};
ghost use Rattle.at_geojson.specs.Atoms.{IsOwn, IsFold, IsRun};

use at_geojson::{GeoAlgebra, GeoAtom};
use at_nest::{Algebra, Member};
use at_text::Memory;
use std::alloc::Global;

/// The algebra of a query, without its attempts to read a value at once.
#[derive(Drop)]
pub struct Stepwise {
    pub geo: GeoAlgebra,
}

impl Algebra for Stepwise {
    type Atom = GeoAtom;

    ghost is_own = { λ it. IsOwn it.geo };

    ghost is_fold = { λ it. IsFold it.geo };

    ghost is_run = { λ it. IsRun it.geo };

    fn scalar(&self, alloc: Global, text: &[u8], at: u32) -> Result<GeoAtom, Memory> {
        self.geo.scalar(alloc, text, at)
    }

    fn add(&self, alloc: Global, items: &mut Vec<GeoAtom>, atom: GeoAtom) -> Result<(), Memory> {
        self.geo.add(alloc, items, atom)
    }

    fn array(&self, alloc: Global, at: u32, items: Vec<GeoAtom>) -> Result<GeoAtom, Memory>
        requires { All (IsOwn self.now.geo) items.items }
        ensures own { IfOk result (IsOwn self.now.geo) }
        ensures fold { IfOk result (λ atom. (ts : List Tree)
            → AreItemFolds (IsFold self.now.geo) (IsRun self.now.geo) items.items ts
            → IsFold self.now.geo atom (array_tree at (trees ts))) }
    {
        self.geo.array(alloc, at, items)
    }

    fn object(
        &self,
        alloc: Global,
        at: u32,
        members: Vec<Member<GeoAtom>>,
    ) -> Result<GeoAtom, Memory>
        requires { All (λ m. IsOwn self.now.geo m.value) members.items }
        ensures own { IfOk result (IsOwn self.now.geo) }
        ensures fold { IfOk result (λ atom. (ms : Members) → AreMemberFolds (IsFold self.now.geo) members.items ms
            → IsFold self.now.geo atom (object_tree at ms)) }
    {
        self.geo.object(alloc, at, members)
    }
}
