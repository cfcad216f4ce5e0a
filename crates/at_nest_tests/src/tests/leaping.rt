//! An algebra that counts nodes and reads empty arrays at once, in an array two at a time; what it says of other values
//! is nothing.

ghost use Rattle.std.specs.Prelude.{◌≡◌, ℕ, ◌∷◌, true, List, IfOk};

use super::tally::{nodes_of_items, nodes_of_members};
use at_nest::{Algebra, Attempt, Member};
use at_text::Memory;
use std::alloc::Global;

/// Whether two empty arrays begin the text, with the comma between them.
fn begins_two(text: &[u8]) -> bool
    ensures { result ≡ true → (more : List ℕ)
        × (text.now ≡ 0x5B ∷ (0x5D ∷ (0x2C ∷ (0x5B ∷ (0x5D ∷ more))))) }
{
    if text.len() < 5 || text[0] != b'[' || text[1] != b']' {
        return false;
    }
    text[2] == b',' && text[3] == b'[' && text[4] == b']'
}

/// The algebra of these numbers, with the attempts.
pub struct Leaping;

impl Algebra for Leaping {
    type Atom = u64;

    ghost is_own = { λ _ _. Unit {0} };

    ghost is_fold = { λ _ _ _. Unit {0} };

    ghost is_run = { λ _ _ _. Unit {0} };

    fn scalar(&self, _alloc: Global, _text: &[u8], _at: u32) -> Result<u64, Memory> {
        Ok(1)
    }

    fn array(&self, _alloc: Global, _at: u32, items: Vec<u64>) -> Result<u64, Memory>
        ensures { IfOk result (λ _. Unit {0}) }
    {
        Ok(nodes_of_items(items))
    }

    fn object(&self, _alloc: Global, _at: u32, members: Vec<Member<u64>>) -> Result<u64, Memory>
        ensures { IfOk result (λ _. Unit {0}) }
    {
        Ok(nodes_of_members(members))
    }

    fn value(&self, _alloc: Global, text: &[u8], at: u32) -> Result<Attempt<u64>, Memory> {
        let _ = at;
        if text.len() >= 2 && text[0] == b'[' && text[1] == b']' {
            Ok(Attempt::Whole { len: 2, atom: 1 })
        } else {
            Ok(Attempt::Unsaid { looked: 2 })
        }
    }

    fn items(&self, alloc: Global, text: &[u8], at: u32) -> Result<Attempt<u64>, Memory> {
        if begins_two(text) {
            Ok(Attempt::Whole { len: 5, atom: 2 })
        } else {
            self.value(alloc, text, at)
        }
    }
}
