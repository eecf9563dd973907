// "A value copied to a wire is spread out in prefix form": from the heap to a wire, in one pass that stops where there is no room.
ghost use Rattle.std.specs.Prelude.{◌≡◌, ◌+◌, ◌-◌, ◌^◌, ◌≤◌, ◌<◌, length, get_or, option_map};
ghost use Rattle.hume.specs.Words.{tuple_header};
ghost use Rattle.engine.specs.Copies.{Readable, spreads, Spread};

use super::placing::put_pair;
use super::words::{NONE, REFERENCE};
use gate::headers::{NONE_CELL, TUPLE};

// Spreads the reference w out on the empty wire at the index `at`, all but its count: how many words that are, if they are not
// more than 64. If they are, as many as there is room for may be written.
pub(crate) fn spread(heap: &[u32], w: u32, wires: &mut [u32], at: usize) -> Option<usize>
    requires readable { Readable heap.now w }
    requires not_none { w ≡ 2 ^ 29 → ⊥ }
    requires at_in_bounds { at + 65 ≤ length wires.old }
    ensures { (k : Readable heap.now w) → Spread (spreads k) (at + 1) (at + 65) wires.old (option_map (λ n. at + 1 + n) result) wires.new }
{
    let p = (w - REFERENCE) as usize;
    if heap[p] < TUPLE {
        put_pair(heap, p, wires, at + 1);
        return Some(2);
    }
    spread_block(&*heap, w, wires, at + 1, at + 65).map(|end| end - (at + 1))
}

// These three ask that their own word is readable, so it is a clause of each; and they are told the index in the whole buffer, since a part of it
// would have to be cut and put back for each cell.
//
// The copier of a list of fields, with the two words of their object before them; it and that of a cell call each other, and the
// wire words that remain fall. The index after them, if they end at `end` or before.
#[cycle(spread_block_spread_cell)]
fn spread_block(heap: &[u32], w: u32, wires: &mut [u32], at: usize, end: usize) -> Option<usize>
    requires readable { Readable heap.now w }
    requires not_none { w ≡ 2 ^ 29 → ⊥ }
    requires tuple_header_bound { tuple_header ≤ get_or heap.now (w - 2 ^ 28) 0 }
    requires at_bound { at + 2 ≤ end }
    requires end_in_bounds { end ≤ length wires.old }
    ensures { (k : Readable heap.now w) → Spread (spreads k) at end wires.old result wires.new }
{
    let p = (w - REFERENCE) as usize;
    put_pair(heap, p, wires, at);
    let n = heap[p + 1] as usize;
    let mut out = at + 2;
    for i in 0..n {
        out = spread_cell(heap, heap[p + 2 + i], wires, out, end)?;
    }
    Some(out)
}

// The copier of a cell: any word that is a reference or None.
#[cycle(spread_block_spread_cell)]
fn spread_cell(heap: &[u32], w: u32, wires: &mut [u32], at: usize, end: usize) -> Option<usize>
    requires readable { Readable heap.now w }
    requires at_le_end { at ≤ end }
    requires end_in_bounds { end ≤ length wires.old }
    ensures { (k : Readable heap.now w) → Spread (spreads k) at end wires.old result wires.new }
{
    if w == NONE {
        if end <= at {
            return None;
        }
        wires[at] = NONE_CELL;
        return Some(at + 1);
    }
    if end < at + 2 {
        return None;
    }
    let p = (w - REFERENCE) as usize;
    if heap[p] < TUPLE {
        put_pair(heap, p, wires, at);
        return Some(at + 2);
    }
    spread_block(&*heap, w, wires, at, end)
}
