//! A query that is asked of a file in its form, whichever that is.

ghost use Rattle.std.specs.Prelude.{◌≡◌, ◌≤◌, ◌^◌, length, MatchResult, Some};
ghost use Rattle.at_text.specs.Spans.{StandsAt};
ghost use Rattle.at_text.specs.Texts.{base_of as text_begin};
ghost use Rattle.at_text.specs.Refusals.{IfFound};
ghost use Rattle.at_query.specs.Ranges.{IsQueryInRange};
ghost use Rattle.at_run.specs.Files.{HasFileFaultIn};
ghost use Rattle.at_run.specs.Answers.{IsFilePart};
ghost use Rattle.at_run.specs.Readers.{Asks, of_lines, of_json, StandsInForm};

use crate::faults::RunFault;
use crate::forms::Form;
use crate::json_files::finish_json_file;
use crate::json_fragments::{JsonFragment, merge_json, run_json};
use crate::line_files::finish_line_file;
use crate::line_queries::LineQuery;
use crate::sequences::finish_sequence;
use at_fixed::Coords;
use at_geojson::GeoAlgebra;
use at_query::{Gathered, Part, Query};
use at_text::Pieces;
use at_wkt::{LineFragment, merge_lines, run_lines};
use std::alloc::Global;
use std::marker::Model;

/// A query that is asked of a file in its form.
#[derive(Drop)]
pub struct Reader {
    form: Form,
    algebra: GeoAlgebra,
}

/// What a piece of a file gives, in the file's form.
#[derive(Drop)]
pub enum FileFragment {
    Lines(LineFragment<Gathered>),
    Json(JsonFragment),
    /// Of a sequence, which is read when all its bytes are there.
    Unread,
}

impl FileFragment {
    /// What a piece of a file of lines gives.
    fn lines(self) -> LineFragment<Gathered>
        requires { (lines : _) × (self ≡ FileFragment.Lines lines) }
        ensures { self ≡ FileFragment.Lines result }
    {
        match self {
            FileFragment::Lines(lines) => lines,
            _ => unreachable!(),
        }
    }

    /// What a piece of a file of GeoJSON gives.
    fn json(self) -> JsonFragment
        requires { (json : _) × (self ≡ FileFragment.Json json) }
        ensures { self ≡ FileFragment.Json result }
    {
        match self {
            FileFragment::Json(json) => json,
            _ => unreachable!(),
        }
    }
}

impl Model for Reader {
    ghost Value = { Asks };

    ghost view = { λ r. record {
      form = r.form;
      query = r.algebra.query;
      digits = r.algebra.digits;
      how = r.algebra.how;
    } };
}

impl Reader {
    /// The query, the form of the files, and how their numbers are read.
    pub fn new(form: Form, query: Query, digits: u8, how: Coords) -> Reader
        requires { IsQueryInRange query }
        ensures { result ≡ record { form = form; query = query; digits = digits; how = how } }
    {
        Reader {
            form,
            algebra: GeoAlgebra::new(query, digits, how),
        }
    }

    /// The query as it is asked of lines.
    fn of_lines(&self) -> LineQuery<'_>
        ensures { result ≡ of_lines self.now }
    {
        LineQuery::new(
            self.algebra.query(),
            self.algebra.digits(),
            self.algebra.how(),
        )
    }

    /// The algebra of JSON texts.
    fn of_json(&self) -> &GeoAlgebra
        ensures { result.now ≡ of_json self.now }
    {
        &self.algebra
    }

    /// The part of a file's features under the query, from the fragment of all bytes from its text's first on.
    ///
    /// # Errors
    /// `Found` is the file's first fault, exactly where it has one. `Memory` comes where an allocation was refused.
    pub fn finish_pieces(
        &self,
        alloc: Global,
        bytes: &[u8],
        whole: FileFragment,
    ) -> Result<Part, RunFault>
        requires fits { length bytes.now ≤ 2 ^ 28 }
        requires whole { StandsAt (StandsInForm self.now) bytes.now (text_begin bytes.now) (length bytes.now) whole }
        ensures { MatchResult result (IsFilePart self.now.form self.now.digits self.now.how self.now.query bytes.now)
            (λ end. IfFound end (λ fault. HasFileFaultIn self.now.form self.now.digits self.now.how bytes.now
            (Some fault))) }
    {
        match whole {
            FileFragment::Lines(whole) => finish_line_file(alloc, &self.of_lines(), bytes, whole),
            FileFragment::Json(whole) => finish_json_file(alloc, self.of_json(), bytes, whole),
            FileFragment::Unread => finish_sequence(alloc, self.of_json(), bytes),
        }
    }
}

impl Pieces for Reader {
    type Fragment = FileFragment;

    ghost stands = { λ asks at bytes fragment. StandsInForm asks at bytes fragment };

    fn run_piece(&self, alloc: Global, piece: &[u8], base: u32) -> FileFragment {
        match self.form {
            Form::Wkt => FileFragment::Lines(run_lines(alloc, &self.of_lines(), piece, base)),
            Form::GeoJson => FileFragment::Json(run_json(alloc, self.of_json(), piece, base)),
            Form::Seq => FileFragment::Unread,
        }
    }

    fn merge_pieces(
        &self,
        alloc: Global,
        bytes: &[u8],
        left: FileFragment,
        right: FileFragment,
    ) -> FileFragment {
        match left {
            FileFragment::Lines(left) => {
                FileFragment::Lines(merge_lines(
                    alloc,
                    &self.of_lines(),
                    bytes,
                    left,
                    right.lines(),
                ))
            }
            FileFragment::Json(left) => {
                FileFragment::Json(merge_json(alloc, self.of_json(), bytes, left, right.json()))
            }
            FileFragment::Unread => FileFragment::Unread,
        }
    }
}
