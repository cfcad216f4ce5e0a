//! What the seats of a crew's table know. No value of these types is made when a program runs.

use std::collections::LinkedList;

/// A node of the tree over the blocks, and its height above the leaves.
pub struct HeldNode {
    pub node: u64,
    pub height: u64,
}

/// What a pass knows.
pub struct Climber<F> {
    /// The facts of the crew's job.
    pub facts: F,
    pub number: u64,
    /// The node that it holds, whose part is with it.
    pub held: Option<HeldNode>,
    /// The number that it fetched last.
    pub last: Option<u64>,
    /// Whether that number was at or past the blocks.
    pub over: bool,
    /// The blocks that it claimed, in order.
    pub claimed: LinkedList<u64>,
    /// The nodes at which it merged two parts, in order.
    pub merged: LinkedList<u64>,
}

/// What the chief knows.
pub struct Leader<F> {
    /// The facts of the crew's job.
    pub facts: F,
    /// How many passes were made.
    pub made: u64,
    /// How many of them were taken back.
    pub back: u64,
    /// The lists of those that were taken back, one behind the other.
    pub claimed: LinkedList<u64>,
    pub merged: LinkedList<u64>,
}

/// What a seat knows: a pass's, the chief's, or one that was given up to another.
pub enum View<F> {
    Spent,
    Climbs(Climber<F>),
    Leads(Leader<F>),
}
