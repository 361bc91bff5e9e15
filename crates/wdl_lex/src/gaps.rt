//! Blank space and comments.

ghost use Rattle.std.specs.Prelude.{◌≡◌, ◌≤◌, false, length};
ghost use Rattle.wdl_lex.specs.Reading.Gaps.{gap_len};

use crate::classes::is_blank;

/// The length of the blank space and comments at the front. It ends before a NUL, in a comment too.
pub fn gap_len(z: &[u8]) -> usize
    ensures value { result ≡ gap_len false z.now }
    ensures within { result ≤ length z.now }
{
    let mut is_open = false;
    for (at, b) in z.iter().enumerate() {
        if is_open {
            if *b == 0 {
                return at;
            }
            is_open = *b != b'\n';
        } else if *b == b'#' {
            is_open = true;
        } else if !is_blank(*b) {
            return at;
        }
    }
    z.len()
}
