// Instructions that make objects on the heap, or take them apart.
ghost use Rattle.std.specs.Prelude.{◌≡◌, ◌||◌, List, ℕ, ◌+◌, ◌-◌, ◌/◌, ◌≤◌, ◌<◌, eqb, length};
ghost use Rattle.hume.specs.Words.{Word, is_value, tuple_header};
ghost use Rattle.hume.specs.Tests.{all};
ghost use Rattle.hume.specs.State.{downward};
ghost use Rattle.hume.specs.Instructions.{mk_block, Unpack};
ghost use Rattle.engine.specs.Limits.{Within, up_to};
ghost use Rattle.engine.specs.Turns.{Bears, Smalls, Meets, priced, buffers};
ghost use Rattle.engine.specs.Fits.{Fit, Refs};
ghost use Rattle.engine.specs.Blocks.{Blocks, making, Placed, from_top, from_place};

use super::Ending;
use super::regs::{Regs, Turn};
use super::words::{REFERENCE, is_value, place_of};
use gate::headers::{CONSTR, TUPLE};

impl Regs {
    // "1 MkBool c, 2 MkInt c (two's complement), 3 MkFloat c (bits)" [+1]: a header and a payload.
    pub(crate) fn mk_atom(
        self,
        cost: usize,
        h: u32,
        c: u32,
        stack: &mut [u32],
        heap: &mut [u32],
    ) -> Turn
        requires fit { Fit self }
        requires within { Within (up_to (length stack.old) (length heap.old)) self }
        ensures { (wi or : List ℕ) → Meets (up_to (length stack.old) (length heap.old)) self (buffers stack.old heap.old wi or) (priced cost (making h c)) result (buffers stack.new heap.new wi or) }
    {
        self.give(cost, self.sp, h, c, stack, heap)
    }

    // "5 MkTuple a, 6 MkCon a fields, tag b [1-a]: field 0 is the top word; each field a reference or None."
    pub(crate) fn mk_block(
        self,
        cost: usize,
        h: u32,
        a: u8,
        stack: &mut [u32],
        heap: &mut [u32],
    ) -> Turn
        requires fit { Fit self }
        requires within { Within (up_to (length stack.old) (length heap.old)) self }
        ensures { (wi or : List ℕ) → Meets (up_to (length stack.old) (length heap.old)) self (buffers stack.old heap.old wi or) (priced cost (mk_block h a)) result (buffers stack.new heap.new wi or) }
    {
        let n = a as usize;
        let sp = self.sp;
        let hp = self.hp;
        if sp - self.lp < n {
            return self.halt(Ending::TOO_FEW);
        }
        if !all_values(stack, sp, n) {
            return self.halt(Ending::WRONG_KIND);
        }
        let low = sp - n;
        let mut next = self;
        next.sp = low + 1;
        next.hp = hp + 2 + n;
        next.pc = self.pc + 1;
        let turn = self.charge(cost, next, Some(stack.len()), Some(heap.len()));
        if turn.goes_on() {
            heap[hp] = h;
            heap[hp + 1] = a as u32;
            put_fields(stack, sp, heap, hp + 2, n);
            stack[low] = REFERENCE + hp as u32;
        }
        turn
    }

    // "33 Unpack: pops a Tuple or Constr, pushes field 0 first."
    pub(crate) fn unpack(self, cost: usize, stack: &mut [u32], heap: &[u32]) -> Turn
        requires fit { Fit self }
        requires within { Within (up_to (length stack.old) (length heap.now)) self }
        requires refs { Refs self stack.old }
        requires blocks { Blocks self stack.old heap.now }
        ensures { (wi or : List ℕ) → Meets (up_to (length stack.old) (length heap.now)) self (buffers stack.old heap.now wi or) (priced cost Unpack) result (buffers stack.new heap.now wi or) }
    {
        let sp = self.sp;
        if sp <= self.lp {
            return self.halt(Ending::TOO_FEW);
        }
        let low = sp - 1;
        let w = stack[low];
        let Some(at) = place_of(w) else {
            return self.halt(Ending::WRONG_KIND);
        };
        let head = heap[at];
        if !is_block(head) {
            return self.halt(Ending::WRONG_KIND);
        }
        let n = heap[at + 1] as usize;
        let mut next = self;
        next.sp = low + n;
        next.pc = self.pc + 1;
        let turn = self.charge(cost, next, Some(stack.len()), None);
        if turn.goes_on() {
            put_words(heap, at + 2, stack, low, n);
        }
        turn
    }
}

// Here and below, words of an area are told by a place and a number: they are counted down from the top, and a part of the slice would be
// counted up.
//
// Whether the a words from the top down are references or None.
pub(crate) fn all_values(stack: &[u32], sp: usize, a: usize) -> bool
    requires { (a ≤ sp) × (sp ≤ length stack.now) }
    ensures { (ws : List Word) → Bears stack.now ws → Smalls ws → sp ≡ length ws → result ≡ all is_value (downward ws 0 a) }
{
    for i in 0..a {
        if !is_value(stack[sp - (i + 1)]) {
            return false;
        }
    }
    true
}

// The a words from the top down, to the heap; `put_words` goes up both areas, so the two aren't one.
fn put_fields(stack: &[u32], sp: usize, heap: &mut [u32], at: usize, a: usize)
    requires { (a ≤ sp) × (sp ≤ length stack.now) × (at + a ≤ length heap.old) }
    ensures { Placed heap.old heap.new at a (from_top stack.now sp) }
{
    for i in 0..a {
        heap[at + i] = stack[sp - (i + 1)];
    }
}

// The header is a Tuple's or a Constr's.
fn is_block(h: u32) -> bool
    ensures { result ≡ (eqb h tuple_header || eqb (h / 65536) 5) }
{
    h == TUPLE || h >> 16 == CONSTR >> 16
}

// The n words from a heap place on, to the stack. By a loop: `copy_from_slice` was slower in every group (floats 1.17 where 1.0 is the bar).
fn put_words(heap: &[u32], from: usize, stack: &mut [u32], at: usize, n: usize)
    requires { (from + n ≤ length heap.now) × (at + n ≤ length stack.old) }
    ensures { Placed stack.old stack.new at n (from_place heap.now from) }
{
    for i in 0..n {
        stack[at + i] = heap[from + i];
    }
}
