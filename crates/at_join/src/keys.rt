//! The keys by which outlines are sorted.

use at_geom::Pos;

/// A key by which positions near one another mostly have keys near one another: the bits of x and y in turn (Morton's
/// order). No answer depends on it.
pub(crate) fn key_of(low: Pos, p: Pos) -> u128 {
    spread(p.x.abs_diff(low.x)) | (spread(p.y.abs_diff(low.y)) << 1)
}

/// The bits of a number at every other place.
fn spread(number: u64) -> u128 {
    let mut bits = number as u128;
    bits = (bits | (bits << 32)) & 0x0000_0000_FFFF_FFFF_0000_0000_FFFF_FFFF;
    bits = (bits | (bits << 16)) & 0x0000_FFFF_0000_FFFF_0000_FFFF_0000_FFFF;
    bits = (bits | (bits << 8)) & 0x00FF_00FF_00FF_00FF_00FF_00FF_00FF_00FF;
    bits = (bits | (bits << 4)) & 0x0F0F_0F0F_0F0F_0F0F_0F0F_0F0F_0F0F_0F0F;
    bits = (bits | (bits << 2)) & 0x3333_3333_3333_3333_3333_3333_3333_3333;
    (bits | (bits << 1)) & 0x5555_5555_5555_5555_5555_5555_5555_5555
}
