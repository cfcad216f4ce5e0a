//! Parts of a collection of features (RFC 7946 section 3.3).

ghost use Rattle.std.specs.Prelude.{ℕ};
ghost use Rattle.at_fixed.specs.declared.rounding.Coords.{Coords};
ghost use Rattle.at_parts.specs.Collections.{SoundPartsMakeTheWhole, FirstSyntaxFaultIsTheWholes};

/// Where each part of a collection is found to be sound, the whole is without a fault, and has the features of the parts
/// in their order, at their offsets in the file.
pub fn sound_parts()
    ensures { (digits : ℕ) (how : Coords) → SoundPartsMakeTheWhole digits how }
{}

/// Where the parts before one are sound, a fault of syntax within that one is the file's, at its offset in the file.
pub fn first_syntax_fault()
    ensures { (digits : ℕ) (how : Coords) → FirstSyntaxFaultIsTheWholes digits how }
{}
