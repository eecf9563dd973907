// "Copying a cell copies its fields, and a field is again a cell": from a wire to the heap.
ghost use Rattle.std.specs.Prelude.{◌≡◌, ◌+◌, ◌≤◌, length, take, drop, get_or, set};
ghost use Rattle.std.proofs.lemmas.List.Edits.{sets};
ghost use Rattle.hume.specs.Values.{block};
ghost use Rattle.laws.specs.Sizes.{heads};
ghost use Rattle.engine.specs.Copies.{CellHere, ValueHere, BlockHere, Copied, CellPlaced};

use super::words::{NONE, REFERENCE};
use gate::headers::{NONE_CELL, TUPLE};

// Words of the wires and of the heap are told by their place in the whole slice: references are to such places.
//
// After a cell: the next index of the wire's words, the next free place of the heap, and the word that refers to the cell.
#[derive(Clone, Copy)]
struct Placed {
    next: usize,
    top: usize,
    word: u32,
}

// How many heap words a copy of the value that the k words are places, known before anything is written: one pass over its cells,
// which are of one word or two (so `while`).
pub(crate) fn count_words(wires: &[u32], from: usize, k: usize) -> usize
    requires k_in_bounds { from + k ≤ length wires.now }
    requires le_k { 1 ≤ k }
    ensures { result + 1 ≡ k + heads (take k (drop from wires.now)) }
{
    let mut i = 0;
    let mut n = 0;
    while i < k {
        if wires[from + i] == NONE_CELL {
            i += 1;
        } else {
            i += 2;
            n += 1;
        }
    }
    k + n - 1
}

// The two words that every cell but None begins with, to where the copy of it stands.
pub(crate) fn put_pair(from: &[u32], i: usize, to: &mut [u32], j: usize)
    requires i_in_bounds { i + 2 ≤ length from.now }
    requires j_in_bounds { j + 2 ≤ length to.old }
    ensures { to.new ≡ set (set to.old j (get_or from.now i 0)) (j + 1) (get_or from.now (i + 1) 0) }
{
    to[j] = from[i];
    to[j + 1] = from[i + 1];
}

// The n words from a place on, to a lower one, or to where they stand.
fn move_down(heap: &mut [u32], from: usize, to: usize, n: usize)
    requires to_le_from { to ≤ from }
    requires n_in_bounds { from + n ≤ length heap.old }
    ensures { heap.new ≡ sets heap.old to (take n (drop from heap.old)) }
{
    if to != from {
        heap.copy_within(from..from + n, to);
    }
}

// The value on a wire, placed from hp to `end`: the word that refers to it. It tells atoms from blocks itself, so that an atom is
// placed without a call.
pub(crate) fn place(wires: &[u32], i: usize, heap: &mut [u32], hp: usize, end: usize) -> u32
    requires { ValueHere wires.now i hp end (length heap.old) }
    ensures { (k : ValueHere wires.now i hp end (length heap.old)) → Copied k.cell.value hp heap.old result heap.new }
{
    let h = wires[i];
    if h == NONE_CELL {
        return NONE;
    }
    if h < TUPLE {
        put_pair(wires, i, heap, hp);
        return REFERENCE + hp as u32;
    }
    place_block(&*wires, i, heap, hp, end).word
}

// "A copy to the heap places all fields, in order, before their object, so fields always refer lower." The copier of a list of
// fields, with their object; it and that of a cell call each other, and the wire words that remain fall. The references to the
// fields wait at the end of the room, since where their object goes is known after them: so they take no memory of their own.
#[cycle(place_block_place_cell)]
fn place_block(wires: &[u32], from: usize, heap: &mut [u32], hp: usize, end: usize) -> Placed
    requires { BlockHere wires.now from hp end (length heap.old) }
    ensures { (k : BlockHere wires.now from hp end (length heap.old)) → CellPlaced (block k.header k.values) from hp end heap.old result.next result.top result.word heap.new }
{
    let n = wires[from + 1] as usize;
    let base = end - n;
    let mut i = from + 2;
    let mut top = hp;
    for k in 0..n {
        let cell = place_cell(wires, i, heap, top, base);
        i = cell.next;
        top = cell.top;
        heap[base + k] = cell.word;
    }
    put_pair(wires, from, heap, top);
    move_down(heap, base, top + 2, n);
    Placed {
        next: i,
        top: top + 2 + n,
        word: REFERENCE + top as u32,
    }
}

// The copier of a cell.
#[cycle(place_block_place_cell)]
fn place_cell(wires: &[u32], i: usize, heap: &mut [u32], hp: usize, end: usize) -> Placed
    requires { CellHere wires.now i hp end (length heap.old) }
    ensures { (k : CellHere wires.now i hp end (length heap.old)) → CellPlaced k.value i hp end heap.old result.next result.top result.word heap.new }
{
    let h = wires[i];
    if h == NONE_CELL {
        return Placed {
            next: i + 1,
            top: hp,
            word: NONE,
        };
    }
    if h < TUPLE {
        put_pair(wires, i, heap, hp);
        return Placed {
            next: i + 2,
            top: hp + 2,
            word: REFERENCE + hp as u32,
        };
    }
    place_block(&*wires, i, heap, hp, end)
}
