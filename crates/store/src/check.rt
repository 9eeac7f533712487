ghost use Rattle.std.specs.Prelude.{◌≡◌, ℕ, ◌+◌, ◌*◌, ◌%◌, ◌<◌, ◌≤◌};
ghost use Rattle.store.specs.Checks.{checked};

use image::fault::{Fault, Refusal};

// The largest room that a store can have.
pub const MOST: u32 = 4096;

// Whether a store that needs `each` words for a clause, and `fixed` besides, can have this room in so many words.
pub fn check_words(each: u16, fixed: u16, room: u32, words: usize) -> Result<(), Fault>
    ensures { result ≡ checked each fixed room words }
{
    if room < 2 || room > MOST || room % 2 != 0 {
        return Err(Refusal::Room.at(room));
    }
    let need = each as u32 * room + fixed as u32;
    if words < need as usize {
        return Err(Refusal::Short.at(need));
    }
    Ok(())
}
