// The machine of document 01 on lent slices.
#![tactic(auto)]

mod builds;
mod control;
mod image;
mod matching;
mod moves;
mod placing;
mod prims;
mod regs;
mod running;
mod spreading;
mod stepping;
mod whole;
mod wiring;
mod words;

ghost use Rattle.std.specs.Prelude.{◌≡◌, ℕ, ◌-◌, ◌^◌, ◌≤◌, ◌<◌};
ghost use Rattle.hume.specs.Call.{answer, refusal as refusalOf};
ghost use Rattle.gate.specs.Verdicts.{given};
ghost use Rattle.engine.specs.Turns.{buffers};
ghost use Rattle.engine.specs.Reports.{ending_number, detail_number, reported, eight, told};
ghost use Rattle.engine.specs.Endings.{refusal, ending, beginning};

use gate::{Refusal, layout, verdict};
use image::Code;
use prims::CYCLES;
use regs::Regs;
use whole::wipe;

// "an ending carries its own detail inside the returned record": Blocked(output), Fault(number) and Unhandled(exception) are the form
// that document 01 names, so a fault is a number.
#[derive(Clone, Copy)]
pub enum Ending {
    Finished,
    Blocked(u32),
    Fault(u32),
    NoRule,
    Unhandled(u32),
    Time,
    Stack,
    Heap,
}

// The faults.
impl Ending {
    // "too few values"
    pub(crate) const TOO_FEW: Ending = Ending::Fault(1);

    // "wrong kind of word or cell"
    pub(crate) const WRONG_KIND: Ending = Ending::Fault(2);

    // "no such local .., argument .. or input"
    pub(crate) const NO_SUCH: Ending = Ending::Fault(3);

    // "CreateFrame without 3 values, or Return where a saved word has the wrong type or fp is 0"
    pub(crate) const NO_FRAME: Ending = Ending::Fault(4);

    // "Write of a reference to a full wire"
    pub(crate) const WIRE_FULL: Ending = Ending::Fault(5);

    // "value over 64 wire words"
    pub(crate) const TOO_LONG: Ending = Ending::Fault(6);

    // "MatchRule with rp at the count"
    pub(crate) const NO_RULE_LEFT: Ending = Ending::Fault(7);

    // "CopyInput from an empty wire"
    pub(crate) const WIRE_EMPTY: Ending = Ending::Fault(8);
}

// An ending has two numbers, so they are methods and no From.
impl Ending {
    // Document 01's number of the ending.
    #[tactic(auto, unfolding(crate::specs::Reports::ending_number))]
    pub fn number(self) -> u32
        ensures { result ≡ ending_number self }
    {
        match self {
            Ending::Finished => 0,
            Ending::Blocked(_) => 1,
            Ending::Fault(_) => 2,
            Ending::NoRule => 3,
            Ending::Unhandled(_) => 4,
            Ending::Time => 5,
            Ending::Stack => 6,
            Ending::Heap => 7,
        }
    }

    // "The detail is the bracketed number, else 0."
    #[tactic(auto, unfolding(crate::specs::Reports::detail_number))]
    pub fn detail(self) -> u32
        ensures { result ≡ detail_number self }
    {
        match self {
            Ending::Blocked(n) | Ending::Fault(n) | Ending::Unhandled(n) => n,
            Ending::Finished | Ending::NoRule | Ending::Time | Ending::Stack | Ending::Heap => 0,
        }
    }
}

// What a call returns: the refusal, or the ending and "pc, steps charged, time, peak depth (0 at the start), depth, heap".
#[derive(Clone, Copy)]
pub struct Report {
    pub verdict: Result<(), Refusal>,
    pub ending: Ending,
    pub pc: u32,
    pub steps: u32,
    pub time: u32,
    pub peak: u32,
    pub depth: u32,
    pub heap: u32,
}

impl Report {
    // The eight figures, in document 01's order.
    #[tactic(auto, unfolding(crate::specs::Reports::reported))]
    pub fn figures(&self) -> [u32; 8]
        ensures { result ≡ eight (reported self.now) }
    {
        [
            self.ending.number(),
            self.ending.detail(),
            self.pc,
            self.steps,
            self.time,
            self.peak,
            self.depth,
            self.heap,
        ]
    }
}

// "A call turned away returns the number with all figures 0": they stand beside the refusal, and not in an `Ok` in its
// place, since `told` promises all eight of either call.
fn refuse(r: Refusal) -> Report
    ensures { result ≡ refusal r }
{
    Report {
        verdict: Err(r),
        ending: Ending::Finished,
        pc: 0,
        steps: 0,
        time: 0,
        peak: 0,
        depth: 0,
        heap: 0,
    }
}

// The report of a run that ended so, with these registers, of the time that it was given.
fn sum_up(e: Ending, s: Regs, time: u32) -> Report
    requires { (s.left ≤ time) × (s.pc < 2 ^ 32) × (s.steps < 2 ^ 32) × (s.peak < 2 ^ 32) × (s.sp < 2 ^ 32) × (s.hp < 2 ^ 32) }
    ensures { result ≡ ending e s time }
{
    Report {
        verdict: Ok(()),
        ending: e,
        pc: s.pc as u32,
        steps: s.steps as u32,
        time: time - s.left as u32,
        peak: s.peak as u32,
        depth: s.sp as u32,
        heap: s.hp as u32,
    }
}

// "Registers start at 0 ..; the ruleset is 0, pc its entry." Each by name, and no derived default: the reader sees all thirteen.
fn begin(pc: usize, time: u32) -> Regs
    ensures { result ≡ beginning pc time }
{
    Regs {
        pc,
        sp: 0,
        hp: 0,
        fp: 0,
        lp: 0,
        slp: 0,
        rp: 0,
        mp: 0,
        inp: 0,
        rs: 0,
        steps: 0,
        left: time as usize,
        peak: 0,
    }
}

// The run of a call that no number turns away. It is compiled into whatever calls `run`, where the places of areas that the caller owns are
// known, as in the program; the checks stay apart from it (`gate::verdict`).
fn run_accepted(
    image: &[u8],
    card: &[u32],
    t: u32,
    s: u32,
    h: u32,
    stack: &mut [u32],
    heap: &mut [u32],
    wires: &mut [u32],
    order: &mut [u32],
) -> Report
    requires { refusalOf (given image.now card.now t s h stack.old heap.old wires.old order.old) ≡ 0 }
    ensures { told result (buffers stack.new heap.new wires.new order.new) ≡ answer (given image.now card.now t s h stack.old heap.old wires.old order.old) }
{
    let rulesets = layout(image);
    let cycles = CYCLES;
    let code = Code::new(image, &rulesets, card, &cycles);
    let first = begin(code.entry_of(0), t);
    // It is lent as much of each area as its limit allows, so that a limit is its slice's length.
    let (last, ending) = first.run(
        &code,
        &mut stack[..s as usize],
        &mut heap[..h as usize],
        wires,
        order,
    );
    wipe(stack, last.sp);
    wipe(heap, last.hp);
    sum_up(ending, last, t)
}

// One box, one activation, from empty stack and heap to an ending: any image, card, limits, areas, wires and order may be handed in. They are
// slices one by one, the form that document 01 names and that hosts in C hand over.
pub fn run(
    image: &[u8],
    card: &[u32],
    t: u32,
    s: u32,
    h: u32,
    stack: &mut [u32],
    heap: &mut [u32],
    wires: &mut [u32],
    order: &mut [u32],
) -> Report
    ensures { told result (buffers stack.new heap.new wires.new order.new) ≡ answer (given image.now card.now t s h stack.old heap.old wires.old order.old) }
{
    match verdict(image, card, t, s, h, stack, heap, wires, order) {
        Ok(()) => run_accepted(image, card, t, s, h, stack, heap, wires, order),
        Err(r) => refuse(r),
    }
}
