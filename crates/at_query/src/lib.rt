//! Queries over features: of which features a query holds, and the answers that are gathered from features in
//! parts.
//!
//! [`read_query`] reads a query line. [`part_of`] gives what one feature adds to an answer, [`part_merge`] joins what
//! two neighbouring lists of features give, in any grouping, and [`answer_of`] and [`answer_text`] make the answer and
//! its printed text of the whole list's part. Where features come one after another, an [`Accumulator`] takes each in
//! place and becomes the part of all; [`Gathered`] is that or the first fault, where some of what is read may have one.
//!
//! Who reads features for a query need not keep all of them: [`needs_shapes`], [`needs_texts`], [`text_tests`] and
//! [`query_measure`] say what the query looks at. A [`Tally`] takes positions one by one in place of their lists.
//!
//! A query is read, and asked of `river`, a feature with the name Rhine:
//! ```
//! let line = br#"count where has "name" = "Rhine""#;
//! let query = read_query(alloc, line, 7, Coords::Exact)?;
//! assert!(rt; holds(&query, &river));
//! let part = part_of(alloc, &query, river)?;
//! assert!(rt; matches!(part, Part::Count(1)));
//! let text = answer_text(alloc, &answer_of(part), 7)?;
//! assert_eq!(rt; text.as_str(), "1\n");
//! ```
#![tactic(auto)]

// What is asked: features, the line of a query, its tests, and what they look at.
mod features;
mod query;

// What is answered: which features are kept, what is told of positions, parts, and printed answers.
mod answer;

pub use answer::accumulators::Accumulator;
pub use answer::answers::{Answer, Offsets, Pair, Pairs};
pub use answer::extents::{joined_extent, lower_corner, upper_corner};
pub use answer::gathered::{
    Gathered, add_fault, add_feature, add_lent, count_line, join_into, joined,
};
pub use answer::holding::holds;
pub use answer::merging::part_merge;
pub use answer::parts::{Entries, Entry, Part};
pub use answer::printing::answer_text;
pub use answer::results::{answer_of, part_none, part_of};
pub use answer::tallies::Tally;
pub use features::{Feature, LentFeature, TextPair, TextPairs};
pub use query::looks::{Measure, needs_shapes, needs_texts, query_measure, text_tests};
pub use query::queries::{Query, Test, Tests, Verb};
pub use query::reading::{QueryEnd, read_query};
