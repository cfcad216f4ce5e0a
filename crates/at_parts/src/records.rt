//! Parts of files of lines, and of text sequences (RFC 8142 section 2).

ghost use Rattle.std.specs.Prelude.{ℕ};
ghost use Rattle.at_fixed.specs.declared.rounding.Coords.{Coords};
ghost use Rattle.at_parts.specs.Records.{EncodingIsOfTheParts, LinesHaveFeaturesOfParts, LinesHaveFaultsOfParts};
ghost use Rattle.at_parts.specs.Records.{SequencesHaveFeaturesOfParts, SequencesHaveFaultsOfParts};

/// The fault of the encoding of bytes that are cut before or behind one of ASCII is that of the first part, or else that
/// of the second.
pub fn encoding_of_parts()
    ensures { EncodingIsOfTheParts }
{}

/// A file of lines that is cut behind a line feed has the features of both parts.
pub fn line_features()
    ensures { (digits : ℕ) (how : Coords) → LinesHaveFeaturesOfParts digits how }
{}

/// Its first fault is the first of theirs.
pub fn line_faults()
    ensures { (digits : ℕ) (how : Coords) → LinesHaveFaultsOfParts digits how }
{}

/// A text sequence that is cut before a separator has the features of both parts.
pub fn sequence_features()
    ensures { (digits : ℕ) (how : Coords) → SequencesHaveFeaturesOfParts digits how }
{}

/// Its first fault is the first of theirs.
pub fn sequence_faults()
    ensures { (digits : ℕ) (how : Coords) → SequencesHaveFaultsOfParts digits how }
{}
