// Rings in lent words: circular lists, linked both ways, with a head each.
//
// Holds the writers of rings (`unlink`, `link`, `shift`, `swap_out`, `scatter`), the readers `after` and `ring`, and the laws that
// say what each makes of the lists (specs/, proofs/). Node n has two words: at 2n the node after it, at 2n + 1 the node before it.
// Nodes below a number of heads are heads; the others are slots, and a slot in no ring is linked to itself. The links are numbers in
// words, for a store has no memory but what it is lent. These are functions over words and no struct: own lists and both kinds of
// index have rings with other numbers of heads and facts of their own, and a change makes all its writes in one borrow of the words.
// Promises: each function writes and answers exactly what its definition says, on any words at all, and asks nothing of a
// caller; where rings stand, each changes the lists as the laws say. Rests on nothing but the standard library.
#![tactic(auto)]

ghost use Rattle.std.specs.Prelude.{◌≡◌, ℕ, ◌+◌, ◌*◌, ◌<◌, ◌≤◌, List, length};
ghost use Rattle.rings.specs.Laws.{RingLaws};
ghost use Rattle.rings.specs.Left.{slots_left};
ghost use Rattle.rings.specs.Rings.{cut_out, knotted, next, put_in, ring, scattered, shifted, slot_after, swapped_out};
ghost use Rattle.rings.specs.Rings.{inside as lies_inside};
ghost use Rattle.std.specs.Iterator.{YieldsFirst, item_count};

// Whether both words of node n are there.
fn inside(ws: &[u32], n: u32) -> bool
    ensures { result ≡ lies_inside ws.now n }
{
    2 * (n as usize) + 1 < ws.len()
}

// Whether node n and the nodes beside it are there. `unlink` and `link` ask before the first write, so that each makes all its writes or none.
fn knotted_in(ws: &[u32], n: u32) -> bool
    ensures { result ≡ knotted ws.now n }
{
    inside(ws, n) && inside(ws, ws[2 * n as usize]) && inside(ws, ws[2 * n as usize + 1])
}

// Takes node s out of its ring; it stands alone then.
pub fn unlink(ws: &mut [u32], s: u32)
    ensures { ws.new ≡ cut_out ws.old s }
{
    if !knotted_in(ws, s) {
        return;
    }
    let here = 2 * s as usize;
    let n = ws[here];
    let p = ws[here + 1];
    ws[2 * p as usize] = n;
    ws[2 * n as usize + 1] = p;
    ws[here] = s;
    ws[here + 1] = s;
}

// Puts node s, which stands alone, before node n: before a head is at the end of its ring.
pub fn link(ws: &mut [u32], n: u32, s: u32)
    ensures { ws.new ≡ put_in ws.old n s }
{
    if !inside(ws, s) || !knotted_in(ws, n) {
        return;
    }
    let here = 2 * s as usize;
    let p = ws[2 * n as usize + 1];
    ws[2 * p as usize] = s;
    ws[here] = n;
    ws[here + 1] = p;
    ws[2 * n as usize + 1] = s;
}

// Moves node x to the end of the ring of h.
pub fn shift(ws: &mut [u32], h: u32, x: u32)
    ensures { ws.new ≡ shifted ws.old h x }
{
    unlink(ws, x);
    link(ws, h, x);
}

// Takes slot x out of the ring of l. The last of the ring takes its place.
pub fn swap_out(ws: &mut [u32], l: u32, x: u32)
    ensures { ws.new ≡ swapped_out ws.old l x }
{
    if !inside(ws, l) {
        return;
    }
    let z = ws[2 * l as usize + 1];
    if z != x {
        unlink(ws, z);
        link(ws, x, z);
    }
    unlink(ws, x);
}

// The slot after node n, if what comes after it is a slot: after a head, the first of its ring.
pub fn after(ws: &[u32], heads: u32, n: u32) -> Option<u32>
    ensures { result ≡ slot_after heads ws.now n }
{
    if !inside(ws, n) {
        return None;
    }
    let x = ws[2 * n as usize];
    if x < heads { None } else { Some(x) }
}

// The slots of a ring from one on, up to a head, and at most so many.
#[derive(Drop)]
pub struct Slots<'w> {
    words: &'w [u32],
    heads: u32,
    left: u32,
    at: u32,
}

impl Iterator for Slots<'_> {
    type Item = u32;

    ghost next_gives = { YieldsFirst slots_left };

    ghost remaining = { item_count slots_left };

    fn next(&mut self) -> Option<u32> {
        if self.left == 0 || self.at < self.heads {
            return None;
        }
        let x = self.at;
        self.left -= 1;
        self.at = next_in(self.words, x);
        Some(x)
    }
}

// The node after node n; 0, a head, where its word is not there, so that a walk ends.
fn next_in(ws: &[u32], n: u32) -> u32
    ensures { result ≡ next ws.now n }
{
    ws.get(2 * n as usize).copied().unwrap_or(0)
}

// The slots of the ring of l, among `nodes` nodes in all.
pub fn ring(ws: &[u32], heads: u32, nodes: u32, l: u32) -> Slots<'_>
    ensures { slots_left result ≡ ring heads nodes ws.now l }
{
    Slots {
        words: ws,
        heads,
        left: nodes,
        at: next_in(ws, l),
    }
}

// Sets each of the first nodes alone. Where the words are too few for them, nothing is done.
pub fn scatter(ws: &mut [u32], nodes: u32)
    ensures long { length ws.new ≡ length ws.old }
    ensures alone { 2 * nodes ≤ length ws.old → ws.new ≡ scattered nodes ws.old }
{
    if ws.len() / 2 < nodes as usize {
        return;
    }
    // By number, since nothing is proved of what a walk by `iter_mut` and an adapter leaves.
    for n in 0..nodes {
        ws[2 * n as usize] = n;
        ws[2 * n as usize + 1] = n;
    }
}

// What the writers make of the rings, as lists, and what the reader finds there.
pub fn ring_laws()
    ensures { RingLaws }
{}
