//! A query over bytes that come in chunks, as a future that is polled.
//!
//! [`Chunks`] is a source that gives some bytes at a call, or none yet. [`Feed`] takes what it gives, without knowing
//! how much is to come: what has come is read in pieces, each without what stands before it, and neighbours of one rank
//! are merged, so that a byte is merged as often as its piece has ranks above it. What its contract says of the answer
//! has no word of the chunks, of the polls that were pending, or of the pieces.
//!
//! [`run_feed`] polls a feed until it is ready, and answers as `answer` of at_run does over the joined chunks.
//! [`JoinFeed`] takes two feeds side by side, and [`run_join_feed`] answers as `answer_join` of at_run does. [`Sliced`] is
//! a source over bytes that are there.
//!
//! `query` counts features. The file comes five bytes at a time, and the second call is pending:
//! ```
//! let mut waits = Vec::new(alloc);
//! waits.push(1)?;
//! let mut file = Vec::new(alloc);
//! file.extend_from_slice(b"POINT (1 2)\nPOINT (3 4)\n")?;
//! let source = Sliced::new(file, 5, waits);
//! let feed = Feed::new(alloc, source, Form::Wkt, query, 7, Coords::Exact, 16)?;
//! let found = run_feed(&rt, feed)?;
//! assert_eq!(rt; answer_text(alloc, &found, 7)?.as_str(), "2\n");
//! ```
#![tactic(auto)]

mod chunks;
mod drawing;
mod ends;
mod feeds;
mod intake;
mod join_feeds;
mod join_runs;
mod kept;
mod ranks;
mod runs;
mod sliced;

pub use chunks::Chunks;
pub use ends::{FeedEnd, PairEnd};
pub use feeds::Feed;
pub use join_feeds::{Both, JoinFeed};
pub use join_runs::run_join_feed;
pub use runs::run_feed;
pub use sliced::Sliced;
