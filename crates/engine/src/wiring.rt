// Instructions that read and write wires.
ghost use Rattle.std.specs.Prelude.{◌≡◌, List, ℕ, ◌+◌, ◌*◌, ◌≤◌, ◌<◌, eqb, length, get_or, replicate};
ghost use Rattle.std.proofs.Math.Seq.{paste};
ghost use Rattle.std.proofs.lemmas.List.Edits.{sets};
ghost use Rattle.hume.specs.Tests.{pick};
ghost use Rattle.hume.specs.Image.{Program};
ghost use Rattle.hume.specs.Values.{spread};
ghost use Rattle.hume.specs.Instructions.{CopyInput, Consume, CheckOutputs, Write};
ghost use Rattle.engine.specs.Limits.{Limits, Within, up_to};
ghost use Rattle.engine.specs.Turns.{Meets, priced, buffers};
ghost use Rattle.engine.specs.Fits.{Fit};
ghost use Rattle.engine.specs.Copies.{WireFits, FirstStuck, Offered, room_of, taken, TopHeld};

use super::Ending;
use super::builds::all_values;
use super::placing::{count_words, place};
use super::regs::{Regs, Turn};
use super::spreading::spread;
use super::words::{NONE, is_value};

// A wire is 65 words of the lent buffer, the first of them its count: document 01's form, as for all that follow.
//
// The 65 words of the wire at the index `at` become 0.
fn clear_wire(wires: &mut [u32], at: usize)
    requires { at + 65 ≤ length wires.old }
    ensures { wires.new ≡ paste wires.old at (replicate 65 0) 65 }
{
    wires[at..at + 65].fill(0);
}

// "blocked if one isn't None and its wire is full (the lowest such i)"
fn first_stuck(stack: &[u32], sp: usize, wires: &[u32], inputs: usize, n: usize) -> Option<usize>
    requires n_le_sp { n ≤ sp }
    requires sp_in_bounds { sp ≤ length stack.now }
    requires n_in_bounds { 65 * (inputs + n) ≤ length wires.now }
    ensures { FirstStuck stack.now sp wires.now inputs n result }
{
    for i in 0..n {
        if stack[sp - (i + 1)] != NONE && wires[65 * (inputs + i)] != 0 {
            return Some(i);
        }
    }
    None
}

// How many words the value w takes on the wire o, 0 for None, or the fault of writing it; its words are then on the wire, all but
// their count. A value that doesn't fit 64 words leaves the wire empty again: fault 6 leaves every buffer as it was. It takes no
// registers: those passed on once more go through memory.
fn room_for(w: u32, o: usize, heap: &[u32], wires: &mut [u32]) -> Result<usize, Ending>
    requires wire_fits { WireFits wires.old o }
    requires offered { Offered heap.now w }
    ensures value { (k : Offered heap.now w) → result ≡ room_of k.words k.word (get_or wires.old (65 * o) 0) }
    ensures wires_after { (k : Offered heap.now w) → wires.new ≡ pick (eqb (taken result) 0) wires.old (sets wires.old (65 * o + 1) (spread k.words k.word)) }
{
    let at = 65 * o;
    if !is_value(w) {
        return Err(Ending::WRONG_KIND);
    }
    if w == NONE {
        return Ok(0);
    }
    if wires[at] != 0 {
        return Err(Ending::WIRE_FULL);
    }
    let Some(n) = spread(heap, w, wires, at) else {
        clear_wire(wires, at);
        return Err(Ending::TOO_LONG);
    };
    Ok(n)
}

impl Regs {
    // "36 Consume a and 37 MaybeConsume a (empty the wire)"
    pub(crate) fn consume(self, cost: usize, a: u8, wires: &mut [u32]) -> Turn
        requires fit { Fit self }
        requires a_in_bounds { 65 * a + 65 ≤ length wires.old }
        ensures { (lim : Limits) (st he or : List ℕ) → Within lim self → Meets lim self (buffers st he wires.old or) (priced cost (Consume a)) result (buffers st he wires.new or) }
    {
        let mut next = self;
        next.pc = self.pc + 1;
        let turn = self.charge(cost, next, None, None);
        if turn.goes_on() {
            clear_wire(wires, 65 * a as usize);
        }
        turn
    }

    // "38 CheckOutputs: output i is the value i below the top"
    pub(crate) fn check_outputs(
        self,
        cost: usize,
        inputs: usize,
        outputs: usize,
        stack: &[u32],
        wires: &[u32],
    ) -> Turn
        requires fit { Fit self }
        requires sp_in_bounds { self.sp ≤ length stack.now }
        requires outputs_bound { outputs ≤ 8 }
        requires outputs_in_bounds { 65 * (inputs + outputs) ≤ length wires.now }
        ensures { (lim : Limits) (P : Program) (he or : List ℕ) → P.inputs ≡ inputs → P.outputs ≡ outputs → Within lim self → Meets lim self (buffers stack.now he wires.now or) (priced cost (CheckOutputs P)) result (buffers stack.now he wires.now or) }
    {
        let sp = self.sp;
        if sp - self.lp < outputs {
            return self.halt(Ending::TOO_FEW);
        }
        if !all_values(stack, sp, outputs) {
            return self.halt(Ending::WRONG_KIND);
        }
        if let Some(i) = first_stuck(stack, sp, wires, inputs, outputs) {
            return self.halt(Ending::Blocked(i as u32));
        }
        let mut next = self;
        next.pc = self.pc + 1;
        self.charge(cost, next, None, None)
    }

    // "35 CopyInput a [+1]": "CopyInput costs the words it places"
    pub(crate) fn copy_input(
        self,
        cost: usize,
        a: u8,
        stack: &mut [u32],
        heap: &mut [u32],
        wires: &[u32],
    ) -> Turn
        requires fit { Fit self }
        requires within { Within (up_to (length stack.old) (length heap.old)) self }
        requires wire_fits { WireFits wires.now a }
        ensures { (or : List ℕ) → Meets (up_to (length stack.old) (length heap.old)) self (buffers stack.old heap.old wires.now or) (priced cost (CopyInput a)) result (buffers stack.new heap.new wires.now or) }
    {
        let at = 65 * a as usize;
        let k = wires[at] as usize;
        if k == 0 {
            return self.halt(Ending::WIRE_EMPTY);
        }
        let grown = count_words(wires, at + 1, k);
        let sp = self.sp;
        let hp = self.hp;
        let mut next = self;
        next.sp = sp + 1;
        next.hp = hp + grown;
        next.pc = self.pc + 1;
        let turn = self.charge(cost, next, Some(stack.len()), Some(heap.len()));
        if turn.goes_on() {
            stack[sp] = place(wires, at + 1, heap, hp, hp + grown);
        }
        turn
    }

    // "39 Write a [-1]: None writes nothing". The words after those written are zeros already, since the wire was empty. Without
    // the time for it they are taken back.
    pub(crate) fn write(
        self,
        cost: usize,
        a: u8,
        inputs: usize,
        stack: &[u32],
        heap: &[u32],
        wires: &mut [u32],
    ) -> Turn
        requires fit { Fit self }
        requires sp_in_bounds { self.sp ≤ length stack.now }
        requires top_held { TopHeld self stack.now heap.now }
        requires wire_fits { WireFits wires.old (inputs + a) }
        ensures { (lim : Limits) (P : Program) (or : List ℕ) → P.inputs ≡ inputs → Within lim self → Meets lim self (buffers stack.now heap.now wires.old or) (priced cost (Write P a)) result (buffers stack.now heap.now wires.new or) }
    {
        let sp = self.sp;
        if sp <= self.lp {
            return self.halt(Ending::TOO_FEW);
        }
        let w = stack[sp - 1];
        let o = inputs + a as usize;
        let n = match room_for(w, o, heap, wires) {
            Ok(n) => n,
            Err(fault) => return self.halt(fault),
        };
        let mut next = self;
        next.sp = sp - 1;
        next.pc = self.pc + 1;
        let turn = self.charge(cost, next, None, None);
        if turn.goes_on() {
            if n != 0 {
                wires[65 * o] = n as u32;
            }
        } else if n != 0 {
            clear_wire(wires, 65 * o);
        }
        turn
    }
}
