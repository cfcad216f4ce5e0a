//! What is made of a JSON tree, from the leaves up.

ghost use Rattle.std.specs.Prelude.{◌≡◌, ℕ, ◌+◌, ◌++◌, ◌∷◌, ◌≤◌, ◌^◌, List, length, All, IfOk};
ghost use Rattle.at_lex.specs.Spans.{opening};
ghost use Rattle.at_lex.specs.declared.tokens.Bracket.{Bracket};
ghost use Rattle.at_nest.specs.Tree.{Tree, Members, Spells, array as array_tree, object as object_tree};
ghost use Rattle.at_nest.specs.Folds.{IsScalarText, trees, Covers, AreItemFolds, AreMemberFolds, IsAttempt};
ghost use Rattle.at_nest.specs.Folds.{IsItemsAttempt};

use at_lex::Units;
use at_text::Memory;
use std::alloc::Global;

/// A member of an object: its name, the offset of the name's opening quote, and what its value became.
#[derive(Drop)]
pub struct Member<T> {
    pub name: Units,
    pub name_at: u32,
    pub value: T,
}

/// What an algebra gives of the bytes from an opening bracket on.
#[derive(Drop)]
pub enum Attempt<T> {
    /// The first `len` bytes are a whole value, and this is its atom.
    Whole { len: u32, atom: T },
    /// Nothing is said of them. So many bytes were looked at.
    Unsaid { looked: u32 },
}

/// A way to make something of JSON texts: an atom of each value, from the atoms of the values in it.
///
/// `is_fold` says which tree an atom stands for, and each call is one step of the fold of a tree: where what is handed
/// in stands for the parts of a tree, what it answers stands for the tree. Offsets are of the file.
pub trait Algebra: Sync {
    type Atom: Send + Drop;

    /// The atom is one that this algebra made.
    ghost is_own: { Self → Self.Atom → Type 0 };

    /// The atom is what the algebra makes of the tree.
    ghost is_fold: { Self → Self.Atom → Tree → Type 0 };

    /// The atom stands for these trees, one behind another in an array. Only `add` and `items` make
    /// such atoms.
    ghost is_run: { Self → Self.Atom → List Tree → Type 0 };

    /// The atom of a whole string, literal or number, which begins at the offset. The one refusal is want of memory.
    fn scalar(&self, alloc: Global, text: &[u8], at: u32) -> Result<Self::Atom, Memory>
        requires whole { IsScalarText text.now }
        requires fits { at + length text.now ≤ 2 ^ 28 }
        ensures own { IfOk result (is_own self.now) }
        ensures fold { IfOk result (λ atom. (t : Tree) → Spells at text.now t → is_fold self.now atom t) };

    /// Puts an atom behind those of an array's items. An algebra may let one atom stand for several items. The one
    /// refusal is want of memory.
    fn add(
        &self,
        _alloc: Global,
        items: &mut Vec<Self::Atom>,
        atom: Self::Atom,
    ) -> Result<(), Memory>
        requires items { All (is_own self.now) items.old.items }
        requires atom { is_own self.now atom }
        ensures own { IfOk result (λ u. All (is_own self.now) items.new.items) }
        ensures fold { IfOk result (λ u. (ts : List Tree) (us : List Tree)
            → AreItemFolds (is_fold self.now) (is_run self.now) items.old.items ts
            → Covers (is_fold self.now) (is_run self.now) atom us
            → AreItemFolds (is_fold self.now) (is_run self.now) items.new.items (ts ++ us)) }
    {
        items.push(atom)?;
        Ok(())
    }

    /// The atom of an array, which begins at the offset, from those of its items. The one refusal is want of memory.
    fn array(&self, alloc: Global, at: u32, items: Vec<Self::Atom>) -> Result<Self::Atom, Memory>
        requires { All (is_own self.now) items.items }
        ensures own { IfOk result (is_own self.now) }
        ensures fold { IfOk result (λ atom. (ts : List Tree)
            → AreItemFolds (is_fold self.now) (is_run self.now) items.items ts
            → is_fold self.now atom (array_tree at (trees ts))) };

    /// The atom of an object, which begins at the offset, from its members. The one refusal is want of memory.
    fn object(
        &self,
        alloc: Global,
        at: u32,
        members: Vec<Member<Self::Atom>>,
    ) -> Result<Self::Atom, Memory>
        requires { All (λ m. is_own self.now m.value) members.items }
        ensures own { IfOk result (is_own self.now) }
        ensures fold { IfOk result (λ atom. (ms : Members) → AreMemberFolds (is_fold self.now) members.items ms
            → is_fold self.now atom (object_tree at ms)) };

    /// The atom of a whole array or object, read at once: the text begins with its opening bracket, which stands at the
    /// offset, and may end before the value does. No clause says where the answer is `Whole`: what is left out is read
    /// item by item, and comes to the same. Where the answer is `Unsaid` it tells how many bytes were looked at, by
    /// which the reader of a piece bounds what is looked at in vain. The one refusal is want of memory.
    fn value(&self, _alloc: Global, text: &[u8], at: u32) -> Result<Attempt<Self::Atom>, Memory>
        requires fits { at + length text.now ≤ 2 ^ 28 }
        ensures { IfOk result (IsAttempt (is_own self.now) (is_fold self.now) at text.now) }
    {
        let _ = text;
        let _ = at;
        Ok(Attempt::Unsaid { looked: 0 })
    }

    /// The atom of arrays and objects one behind another in an array, at least one, with their commas, read at once:
    /// the text begins with the first one's opening bracket, which stands at the offset, and may end before the first
    /// one does. An algebra that lets no atom stand for several items gives one. Else it is as with `value`.
    fn items(&self, alloc: Global, text: &[u8], at: u32) -> Result<Attempt<Self::Atom>, Memory>
        requires begins { (b : Bracket) × (more : List ℕ) × (text.now ≡ opening b ∷ more) }
        requires fits { at + length text.now ≤ 2 ^ 28 }
        ensures { IfOk result (IsItemsAttempt (is_own self.now) (is_fold self.now) (is_run self.now) at text.now) }
    {
        self.value(alloc, text, at)
    }
}
