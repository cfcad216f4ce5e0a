//! The reader of a sequence's pieces.

ghost use Rattle.std.specs.Prelude.{◌≡◌, ◌+◌, ◌≤◌, ◌^◌, length, MatchResult, Some};
ghost use Rattle.at_text.specs.Spans.{StandsAt};
ghost use Rattle.at_text.specs.Texts.{base_of as text_begin};
ghost use Rattle.at_text.specs.Refusals.{IfFound};
ghost use Rattle.at_query.specs.Ranges.{IsQueryInRange};
ghost use Rattle.at_seq.specs.Sequences.{HasSeqFault};
ghost use Rattle.at_seq.specs.Answers.{IsSeqPart};
ghost use Rattle.at_seq.specs.Fragments.{SeqAsks, StandsInFile};

use crate::finishing::finish_spans;
use crate::fragments::{SeqFragment, merge_spans, run_span};
use crate::seq_files::SeqFile;
use at_fixed::Coords;
use at_geojson::GeoAlgebra;
use at_query::{Part, Query};
use at_text::{Pieces, Refusal, Span};
use std::alloc::Global;
use std::marker::Model;

/// A query that is asked of one sequence, whose bytes it lends: the text of a record is looked at by its offsets. Of a
/// piece it looks at no byte beyond that piece.
#[derive(Drop)]
pub struct SeqReader<'a> {
    bytes: &'a [u8],
    algebra: GeoAlgebra,
}

impl<'a> Model for SeqReader<'a> {
    ghost Value = { SeqAsks };

    ghost view = { λ r. record { asked = r.algebra; bytes = r.bytes.now } };

    ghost invariant = { λ r. length r.bytes.now ≤ 2 ^ 28 };
}

impl<'a> SeqReader<'a> {
    /// The query, the sequence of which it is asked, and how its numbers are read.
    pub fn new(bytes: &'a [u8], query: Query, digits: u8, how: Coords) -> SeqReader<'a>
        requires short { length bytes.now ≤ 2 ^ 28 }
        requires in_range { IsQueryInRange query }
        ensures { result ≡ record { asked = record { query = query; digits = digits; how = how }; bytes = bytes.now } }
    {
        SeqReader {
            bytes,
            algebra: GeoAlgebra::new(query, digits, how),
        }
    }

    /// The part of the sequence's features under the query, from the fragment of all bytes from its text's first on.
    ///
    /// # Errors
    /// `Found` is the sequence's first fault, exactly where it has one. `Memory` comes where an allocation was refused.
    pub fn finish_pieces(&self, alloc: Global, whole: SeqFragment) -> Result<Part, Refusal>
        requires whole { StandsAt (StandsInFile self.now) self.now.bytes (text_begin self.now.bytes)
            (length self.now.bytes) whole }
        ensures { MatchResult result (IsSeqPart self.now.asked.digits self.now.asked.how self.now.asked.query
            self.now.bytes)
            (λ end. IfFound end (λ fault. HasSeqFault self.now.asked.digits self.now.asked.how self.now.bytes
            (Some fault))) }
    {
        let file = SeqFile {
            algebra: &self.algebra,
            alloc,
            bytes: self.bytes,
        };
        finish_spans(&file, whole)
    }
}

impl<'a> Pieces for SeqReader<'a> {
    type Fragment = SeqFragment;

    ghost stands = { λ asks at bytes fragment. StandsInFile asks at bytes fragment };

    fn run_piece(&self, alloc: Global, piece: &[u8], base: u32) -> SeqFragment {
        let to = base + piece.len() as u32;
        if to as usize > self.bytes.len() {
            return SeqFragment::Lost;
        }
        let file = SeqFile {
            algebra: &self.algebra,
            alloc,
            bytes: self.bytes,
        };
        run_span(&file, Span { from: base, to })
    }

    fn merge_pieces(
        &self,
        alloc: Global,
        _bytes: &[u8],
        left: SeqFragment,
        right: SeqFragment,
    ) -> SeqFragment {
        let file = SeqFile {
            algebra: &self.algebra,
            alloc,
            bytes: self.bytes,
        };
        match (left, right) {
            (SeqFragment::Read(left), SeqFragment::Read(right)) => {
                merge_spans(&file, left, right)
            }
            _ => SeqFragment::Lost,
        }
    }
}
