//! What a reader of a text answers: a refusal, or the geometry that begins the text.

use at_geom::Shape;
use at_text::{Fault, Refusal};

/// Why a line or a geometry is refused: its first fault, or want of memory.
pub type LineFault = Refusal;

/// The geometry that begins a text.
#[derive(Drop)]
pub struct Prefix {
    /// What the geometry covers; empty where it has a fault.
    pub shape: Shape,
    /// How many bytes of the text spell the geometry.
    pub taken: u32,
    /// The first of its Short, Ring, Scale and Range faults.
    pub fault: Option<Fault>,
}
