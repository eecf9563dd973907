// Instructions that move words on the stack alone.
ghost use Rattle.std.specs.Prelude.{◌≡◌, List, ℕ, ◌+◌, ◌-◌, ◌≤◌, ◌<◌, length, replicate};
ghost use Rattle.std.proofs.lemmas.List.Edits.{sets};
ghost use Rattle.hume.specs.Words.{Word, bits};
ghost use Rattle.hume.specs.Instructions.{MkNone, Push, Pop, Slide, Copy, CopyArg, CreateFrame, PushVar, MakeVar};
ghost use Rattle.engine.specs.Limits.{Limits, Within, up_to};
ghost use Rattle.engine.specs.Turns.{Meets, priced, pushing, buffers};
ghost use Rattle.engine.specs.Fits.{Fit};

use super::Ending;
use super::regs::{Regs, Turn};
use super::words::{LINK, NONE, is_plain};

// n nulls from a place on. An area is not wiped, so they are stored; for two or fewer, a call that fills memory takes longer.
fn blank(stack: &mut [u32], at: usize, n: usize)
    requires { at + n ≤ length stack.old }
    ensures { stack.new ≡ sets stack.old at (replicate n 0) }
{
    match n {
        0 => {}
        1 => stack[at] = 0,
        2 => {
            stack[at] = 0;
            stack[at + 1] = 0;
        }
        _ => stack[at..at + n].fill(0),
    }
}

impl Regs {
    // A word more on the stack, at the next instruction.
    pub(crate) fn push(self, cost: usize, w: u32, stack: &mut [u32]) -> Turn
        requires fit { Fit self }
        requires sp_in_bounds { self.sp ≤ length stack.old }
        ensures { (heap : ℕ) (v : Word) (he wi or : List ℕ) → w ≡ bits v → self.hp ≤ heap → Meets (up_to (length stack.old) heap) self (buffers stack.old he wi or) (priced cost (pushing v)) result (buffers stack.new he wi or) }
    {
        let sp = self.sp;
        let mut next = self;
        next.sp = sp + 1;
        next.pc = self.pc + 1;
        let turn = self.charge(cost, next, Some(stack.len()), None);
        if turn.goes_on() {
            stack[sp] = w;
        }
        turn
    }

    // "8 Pop a [-a]"
    pub(crate) fn pop(self, cost: usize, a: u8) -> Turn
        requires { Fit self }
        ensures { (lim : Limits) (st he wi or : List ℕ) → Within lim self → Meets lim self (buffers st he wi or) (priced cost (Pop a)) result (buffers st he wi or) }
    {
        let n = a as usize;
        if self.sp - self.lp < n {
            return self.halt(Ending::TOO_FEW);
        }
        let mut next = self;
        next.sp = self.sp - n;
        next.pc = self.pc + 1;
        self.charge(cost, next, None, None)
    }

    // "10 Copy a: the word a below the top [+1]"
    pub(crate) fn copy(self, cost: usize, a: u8, stack: &mut [u32]) -> Turn
        requires fit { Fit self }
        requires sp_in_bounds { self.sp ≤ length stack.old }
        ensures { (heap : ℕ) (he wi or : List ℕ) → self.hp ≤ heap → Meets (up_to (length stack.old) heap) self (buffers stack.old he wi or) (priced cost (Copy a)) result (buffers stack.new he wi or) }
    {
        let i = a as usize;
        let sp = self.sp;
        if sp - self.lp <= i {
            return self.halt(Ending::TOO_FEW);
        }
        let w = stack[sp - (i + 1)];
        self.push(cost, w, stack)
    }

    // "4 MkNone [+1]"
    pub(crate) fn mk_none(self, cost: usize, stack: &mut [u32]) -> Turn
        requires fit { Fit self }
        requires sp_in_bounds { self.sp ≤ length stack.old }
        ensures { (heap : ℕ) (he wi or : List ℕ) → self.hp ≤ heap → Meets (up_to (length stack.old) heap) self (buffers stack.old he wi or) (priced cost MkNone) result (buffers stack.new he wi or) }
    {
        self.push(cost, NONE, stack)
    }

    // "9 Slide a [-a] keeps the top"
    pub(crate) fn slide(self, cost: usize, a: u8, stack: &mut [u32]) -> Turn
        requires fit { Fit self }
        requires sp_in_bounds { self.sp ≤ length stack.old }
        ensures { (lim : Limits) (he wi or : List ℕ) → Within lim self → Meets lim self (buffers stack.old he wi or) (priced cost (Slide a)) result (buffers stack.new he wi or) }
    {
        let n = a as usize;
        let sp = self.sp;
        if sp - self.lp <= n {
            return self.halt(Ending::TOO_FEW);
        }
        let top = stack[sp - 1];
        let mut next = self;
        next.sp = sp - n;
        next.pc = self.pc + 1;
        let turn = self.charge(cost, next, None, None);
        if turn.goes_on() {
            stack[sp - (n + 1)] = top;
        }
        turn
    }

    // "11 CopyArg a: the word at fp-5-a [+1]"
    pub(crate) fn copy_arg(self, cost: usize, a: u8, stack: &mut [u32]) -> Turn
        requires fit { Fit self }
        requires sp_in_bounds { self.sp ≤ length stack.old }
        ensures { (heap : ℕ) (he wi or : List ℕ) → self.hp ≤ heap → Meets (up_to (length stack.old) heap) self (buffers stack.old he wi or) (priced cost (CopyArg a)) result (buffers stack.new he wi or) }
    {
        let i = a as usize;
        let fp = self.fp;
        if fp < 5 + i {
            return self.halt(Ending::NO_SUCH);
        }
        let w = stack[fp - (5 + i)];
        if !is_plain(w) {
            return self.halt(Ending::WRONG_KIND);
        }
        self.push(cost, w, stack)
    }

    // "7 Push a nulls [+a]"
    pub(crate) fn push_nulls(self, cost: usize, a: u8, stack: &mut [u32]) -> Turn
        requires fit { Fit self }
        requires sp_in_bounds { self.sp ≤ length stack.old }
        ensures { (heap : ℕ) (he wi or : List ℕ) → self.hp ≤ heap → Meets (up_to (length stack.old) heap) self (buffers stack.old he wi or) (priced cost (Push a)) result (buffers stack.new he wi or) }
    {
        let n = a as usize;
        let sp = self.sp;
        let mut next = self;
        next.sp = sp + n;
        next.pc = self.pc + 1;
        let turn = self.charge(cost, next, Some(stack.len()), None);
        if turn.goes_on() {
            blank(stack, sp, n);
        }
        turn
    }

    // "12 CreateFrame a [+a+1]: needs 3 values; pushes the frame link, sets fp to the new sp, pushes a nulls"
    pub(crate) fn create_frame(self, cost: usize, a: u8, stack: &mut [u32]) -> Turn
        requires fit { Fit self }
        requires sp_in_bounds { self.sp ≤ length stack.old }
        ensures { (heap : ℕ) (he wi or : List ℕ) → self.hp ≤ heap → Meets (up_to (length stack.old) heap) self (buffers stack.old he wi or) (priced cost (CreateFrame a)) result (buffers stack.new he wi or) }
    {
        let n = a as usize;
        let sp = self.sp;
        if sp - self.lp < 3 {
            return self.halt(Ending::NO_FRAME);
        }
        let fp = sp + 1;
        let mut next = self;
        next.sp = fp + n;
        next.fp = fp;
        next.lp = fp + n;
        next.pc = self.pc + 1;
        let turn = self.charge(cost, next, Some(stack.len()), None);
        if turn.goes_on() {
            stack[sp] = LINK + (self.fp * 256 + n) as u32;
            blank(stack, fp, n);
        }
        turn
    }

    // "13 PushVar a [+1]"
    pub(crate) fn push_var(self, cost: usize, a: u8, stack: &mut [u32]) -> Turn
        requires fit { Fit self }
        requires sp_in_bounds { self.sp ≤ length stack.old }
        ensures { (heap : ℕ) (he wi or : List ℕ) → self.hp ≤ heap → Meets (up_to (length stack.old) heap) self (buffers stack.old he wi or) (priced cost (PushVar a)) result (buffers stack.new he wi or) }
    {
        let i = a as usize;
        let fp = self.fp;
        if self.lp - fp <= i {
            return self.halt(Ending::NO_SUCH);
        }
        let w = stack[fp + i];
        self.push(cost, w, stack)
    }

    // "14 MakeVar a [-1]"
    pub(crate) fn make_var(self, cost: usize, a: u8, stack: &mut [u32]) -> Turn
        requires fit { Fit self }
        requires sp_in_bounds { self.sp ≤ length stack.old }
        ensures { (lim : Limits) (he wi or : List ℕ) → Within lim self → Meets lim self (buffers stack.old he wi or) (priced cost (MakeVar a)) result (buffers stack.new he wi or) }
    {
        let i = a as usize;
        let sp = self.sp;
        let fp = self.fp;
        if sp - self.lp < 1 {
            return self.halt(Ending::TOO_FEW);
        }
        if self.lp - fp <= i {
            return self.halt(Ending::NO_SUCH);
        }
        let top = stack[sp - 1];
        let mut next = self;
        next.sp = sp - 1;
        next.pc = self.pc + 1;
        let turn = self.charge(cost, next, None, None);
        if turn.goes_on() {
            stack[fp + i] = top;
        }
        turn
    }
}
