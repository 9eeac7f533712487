// The words that jobs are lent. All jobs are lent the same ones, so each begins over what the one before it left there.
use std::alloc::{AllocError, Global};
use store::check::MOST;
use store::lists::Lists;

// What is written over the words for an image before each call.
const BLANK: u32 = 4000000000;

// The most words that a store needs.
pub const MOST_STORE_WORDS: usize = 120 * 4096 + 16384;

// The words for passes and for images.
#[derive(Drop)]
pub struct Lent {
    pub working: Vec<u32>,
    pub out: Vec<u32>,
}

impl Lent {
    // Words enough for the largest room.
    pub fn new(heap: Global) -> Result<Lent, AllocError> {
        Ok(Lent {
            working: vec![in heap; 0u32; 64 * 4096 + 8192]?,
            out: vec![in heap; 0u32; 3 * 1024 + 33 * 4096]?,
        })
    }
}

// How many words a kind of store needs for a room; past the largest room, what it needs for that.
pub fn store_words<S: Lists>(room: u32) -> usize {
    S::EACH as usize * room.min(MOST) as usize + S::FIXED as usize
}

// How many words the passes need over a store of a room.
pub fn working_words(room: u32) -> usize {
    64 * room.min(MOST) as usize + 8192
}

// How many words suffice for an image of a store of a room: three for each node, and 33 for each clause.
pub fn image_words(top: u32, room: u32) -> usize {
    3 * (top.min(1023) as usize + 1) + 33 * room.min(MOST) as usize
}

// The first words, as many as there are if they are fewer.
pub fn first(words: &mut [u32], count: usize) -> &mut [u32] {
    let count = count.min(words.len());
    &mut words[..count]
}

// The first words, blank.
pub fn blank(words: &mut [u32], count: usize) -> &mut [u32] {
    let words = first(words, count);
    words.fill(BLANK);
    words
}

// Whether the words from a place on are blank.
pub fn is_blank(words: &[u32], from: usize) -> bool {
    words.iter().skip(from).all(|word| *word == BLANK)
}
