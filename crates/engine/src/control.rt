// Instructions that go elsewhere than to the next one.
ghost use Rattle.std.specs.Prelude.{◌≡◌, List, ℕ, ◌+◌, ◌-◌, ◌≤◌, ◌<◌, length};
ghost use Rattle.hume.specs.Words.{Word};
ghost use Rattle.hume.specs.Image.{Program};
ghost use Rattle.hume.specs.State.{locals};
ghost use Rattle.hume.specs.Instructions.{Goto, If, Call, Return, Schedule};
ghost use Rattle.engine.specs.Limits.{Limits, Within, up_to};
ghost use Rattle.engine.specs.Turns.{Bears, Meets, priced, buffers};
ghost use Rattle.engine.specs.Fits.{Fit, Refs};
ghost use Rattle.engine.specs.Frames.{Framed, framed};

use super::Ending;
use super::regs::{Regs, Turn};
use super::words::{FRAME, LINK, REFERENCE, RETURN, RULES, place_of};
use gate::headers::BOOL;

// "Return where a saved word has the wrong type or fp is 0". A frame stands above four saved words, so fp is 0 where it is below 4.
fn has_frame(stack: &[u32], fp: usize) -> bool
    requires { fp ≤ length stack.now }
    ensures { result ≡ framed stack.now fp }
{
    if fp < 4 {
        return false;
    }
    if stack[fp - 4] / REFERENCE != RETURN / REFERENCE {
        return false;
    }
    if stack[fp - 3] / REFERENCE != RULES / REFERENCE {
        return false;
    }
    if stack[fp - 2] / REFERENCE != FRAME / REFERENCE {
        return false;
    }
    stack[fp - 1] / REFERENCE == LINK / REFERENCE
}

// "lp is fp + n, with n in the word at fp-1, or 0 if fp is 0"
fn locals_end(stack: &[u32], fp: usize) -> usize
    requires { (fp ≤ length stack.now) × (fp ≤ 4096) }
    ensures { (ws : List Word) → Bears stack.now ws → fp ≤ length ws → result ≡ fp + locals fp ws }
{
    if fp == 0 {
        return 0;
    }
    fp + (stack[fp - 1] % 256) as usize
}

impl Regs {
    // "15 Goto b"
    pub(crate) fn goto(self, cost: usize, b: u16) -> Turn
        requires { Fit self }
        ensures { (lim : Limits) (st he wi or : List ℕ) → Within lim self → Meets lim self (buffers st he wi or) (priced cost (Goto b)) result (buffers st he wi or) }
    {
        let mut next = self;
        next.pc = b as usize;
        self.charge(cost, next, None, None)
    }

    // "40 Schedule: finished"; "Schedule is charged and pc stays on it."
    pub(crate) fn schedule(self, cost: usize) -> Turn
        requires { Fit self }
        ensures { (lim : Limits) (st he wi or : List ℕ) → Within lim self → Meets lim self (buffers st he wi or) (priced cost Schedule) result (buffers st he wi or) }
    {
        let turn = self.charge(cost, self, None, None);
        let ending = turn.ending.unwrap_or(Ending::Finished);
        Turn {
            regs: turn.regs,
            ending: Some(ending),
        }
    }

    // "16 If b [-1] jumps on true"
    pub(crate) fn if_true(self, cost: usize, b: u16, stack: &[u32], heap: &[u32]) -> Turn
        requires fit { Fit self }
        requires within { Within (up_to (length stack.now) (length heap.now)) self }
        requires refs { Refs self stack.now }
        ensures { (lim : Limits) (wi or : List ℕ) → Within lim self → Meets lim self (buffers stack.now heap.now wi or) (priced cost (If b)) result (buffers stack.now heap.now wi or) }
    {
        let sp = self.sp;
        if sp - self.lp < 1 {
            return self.halt(Ending::TOO_FEW);
        }
        let w = stack[sp - 1];
        let Some(p) = place_of(w) else {
            return self.halt(Ending::WRONG_KIND);
        };
        if heap[p] != BOOL {
            return self.halt(Ending::WRONG_KIND);
        }
        let mut to = self.pc + 1;
        if heap[p + 1] == 1 {
            to = b as usize;
        }
        let mut next = self;
        next.sp = sp - 1;
        next.pc = to;
        self.charge(cost, next, None, None)
    }

    // "17 Call a [+3]: return address, ruleset word, static link of slp; slp becomes the new sp + 1, rp 0, pc the entry", which is `to`
    pub(crate) fn call(self, cost: usize, a: u8, to: usize, stack: &mut [u32]) -> Turn
        requires fit { Fit self }
        requires sp_in_bounds { self.sp ≤ length stack.old }
        ensures { (heap : ℕ) (P : Program) (he wi or : List ℕ) → P.entry a ≡ to → self.hp ≤ heap → Meets (up_to (length stack.old) heap) self (buffers stack.old he wi or) (priced cost (Call P a)) result (buffers stack.new he wi or) }
    {
        let sp = self.sp;
        let mut next = self;
        next.sp = sp + 3;
        next.pc = to;
        next.slp = sp + 4;
        next.rp = 0;
        next.rs = a as usize;
        let turn = self.charge(cost, next, Some(stack.len()), None);
        if turn.goes_on() {
            stack[sp] = RETURN + (self.pc + 1) as u32;
            stack[sp + 1] = RULES + (self.rs * 256 + self.rp) as u32;
            stack[sp + 2] = FRAME + self.slp as u32;
        }
        turn
    }

    // "18 Return: the top word goes to fp-4, sp becomes fp-3, and the four saved words are restored"
    pub(crate) fn give_back(self, cost: usize, stack: &mut [u32]) -> Turn
        requires fit { Fit self }
        requires sp_in_bounds { self.sp ≤ length stack.old }
        requires framed { Framed self stack.old }
        ensures { (lim : Limits) (he wi or : List ℕ) → Within lim self → Meets lim self (buffers stack.old he wi or) (priced cost Return) result (buffers stack.new he wi or) }
    {
        let sp = self.sp;
        let fp = self.fp;
        if sp - self.lp < 1 {
            return self.halt(Ending::TOO_FEW);
        }
        if !has_frame(stack, fp) {
            return self.halt(Ending::NO_FRAME);
        }
        let top = stack[sp - 1];
        let ruled = stack[fp - 3];
        let back = (stack[fp - 1] % REFERENCE / 256) as usize;
        let mut next = self;
        next.pc = (stack[fp - 4] % REFERENCE) as usize;
        next.rs = (ruled % REFERENCE / 256) as usize;
        next.rp = (ruled % 256) as usize;
        next.slp = (stack[fp - 2] % REFERENCE) as usize;
        next.fp = back;
        next.lp = locals_end(stack, back);
        next.sp = fp - 3;
        let turn = self.charge(cost, next, None, None);
        if turn.goes_on() {
            stack[fp - 4] = top;
        }
        turn
    }
}
