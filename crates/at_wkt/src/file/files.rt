//! Where a line of a file ends, and which lines are blank.

ghost use Rattle.std.specs.Prelude.{◌≡◌, ◌==◌, ◌&&◌, ◌-◌, ◌≤◌, nat_lt, slice_index, length, take};
ghost use Rattle.at_wkt.specs.Lines.{without_return, is_blank_text};

use crate::line::bytes::is_blank;

/// Whether the last byte is a carriage return.
fn ends_in_return(piece: &[u8]) -> bool
    ensures { result ≡ (nat_lt 0 (length piece.now) && (slice_index piece.now (length piece.now - 1) == 0x0D)) }
{
    !piece.is_empty() && piece[piece.len() - 1] == b'\r'
}

/// How many bytes of a piece are its line, without the carriage return that belongs to the line's end.
pub fn line_len(piece: &[u8]) -> usize
    ensures text { take result piece.now ≡ without_return piece.now }
    ensures shorter { result ≤ length piece.now }
{
    if ends_in_return(piece) {
        piece.len() - 1
    } else {
        piece.len()
    }
}

/// Whether a line has nothing but blanks.
pub fn is_blank_line(line: &[u8]) -> bool
    ensures { result ≡ is_blank_text line.now }
{
    line.iter().all(|byte| is_blank(*byte))
}
