// How many words own lists need.
ghost use Rattle.std.specs.Prelude.{◌≡◌, ◌+◌, ◌*◌, if◌then◌else◌, nat_lt};

use crate::words::{HEADS, SLOT};

// How many words own lists with this room need for their links: none where there is no room.
pub fn link_words(room: u32) -> usize
    ensures { result ≡ (if nat_lt 0 room then 2 * (2050 + room) else 0) }
{
    if room > 0 {
        2 * (HEADS as usize + room as usize)
    } else {
        0
    }
}

// How many words own lists with this room need for their texts.
pub fn text_words(room: u32) -> usize
    ensures { result ≡ 35 * room }
{
    SLOT * room as usize
}
