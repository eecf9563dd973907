// Instructions that match a rule's patterns, and the one that changes the order of the rules.
ghost use Rattle.std.specs.Prelude.{◌≡◌, List, ℕ, ◌+◌, ◌-◌, ◌*◌, ◌/◌, ◌%◌, ◌^◌, ◌≤◌, ◌<◌, length};
ghost use Rattle.hume.specs.Words.{Word, bits};
ghost use Rattle.hume.specs.Image.{Program, program};
ghost use Rattle.hume.specs.Instructions.{StartMatches, MatchRule, MatchedRule, MatchNone, MatchAvailable, matches, Reorder, move_last};
ghost use Rattle.laws.specs.Sizes.{Small};
ghost use Rattle.laws.specs.Accepted.{OrderFits};
ghost use Rattle.engine.specs.Limits.{Limits, Within, up_to};
ghost use Rattle.engine.specs.Turns.{Bears, Meets, priced, buffers};
ghost use Rattle.engine.specs.Fits.{Fit, Refs};
ghost use Rattle.engine.specs.Attempts.{Attempts, concludes, seeks};

use super::Ending;
use super::image::Code;
use super::regs::{Regs, Turn};
use super::words::{is_value, place_of};

// The cell that a match asks for: its header, and its second word unless any will do.
#[derive(Clone, Copy)]
pub struct Pattern {
    pub header: u32,
    pub second: Option<u32>,
}

// Whether a match succeeds, with mp and inp after it.
#[derive(Clone, Copy)]
struct Attempt {
    hit: bool,
    mp: usize,
    inp: usize,
}

// Whether a word refers to a cell of the pattern: "a cell of another kind, or None, only fails a match".
fn cell_matches(pattern: Pattern, w: u32, heap: &[u32]) -> bool
    requires { w / 2 ^ 28 ≡ 1 → w % 2 ^ 28 + 2 ≤ length heap.now }
    ensures { (v : Word) (hs : List Word) → w ≡ bits v → Small v → Bears heap.now hs → (w / 2 ^ 28 ≡ 1 → w % 2 ^ 28 + 2 ≤ length hs) → result ≡ seeks pattern hs v }
{
    let Some(p) = place_of(w) else {
        return false;
    };
    if heap[p] != pattern.header {
        return false;
    }
    match pattern.second {
        Some(x) => heap[p + 1] == x,
        None => true,
    }
}

// The number at i goes to the place before j, those between move down one.
fn move_last(order: &mut [u32], i: usize, j: usize)
    requires { (i < j) × (j ≤ length order.old) }
    ensures { order.new ≡ move_last order.old i j }
{
    let first = order[i];
    order.copy_within(i + 1..j, i);
    order[j - 1] = first;
}

// That the order fits the image and the current ruleset exists are clauses here and no fields of `Code`: the order is lent apart, since Reorder
// writes it, and the ruleset is a register.
impl Regs {
    // "22 StartMatches: to the current ruleset's rule at order 0"
    pub(crate) fn start_matches(self, cost: usize, code: &Code, order: &[u32]) -> Turn
        requires fit { Fit self }
        requires order_fits { OrderFits (program code.now.image.now) order.now }
        requires rs_bound { self.rs < (program code.now.image.now).rulesets }
        ensures { (lim : Limits) (st he wi : List ℕ) → Within lim self → Meets lim self (buffers st he wi order.now) (priced cost (StartMatches (program code.now.image.now))) result (buffers st he wi order.now) }
    {
        let mut next = self;
        next.pc = code.rule_at(order, self.rs, 0);
        self.charge(cost, next, None, None)
    }

    // "23 MatchRule: rp + 1, mp and inp 0, values dropped"; "7 MatchRule with rp at the count"
    pub(crate) fn match_rule(self, cost: usize, code: &Code) -> Turn
        requires fit { Fit self }
        requires rs_bound { self.rs < (program code.now.image.now).rulesets }
        ensures { (lim : Limits) (st he wi or : List ℕ) → Within lim self → Meets lim self (buffers st he wi or) (priced cost (MatchRule (program code.now.image.now))) result (buffers st he wi or) }
    {
        let count = code.count_of(self.rs);
        if count <= self.rp {
            return self.halt(Ending::NO_RULE_LEFT);
        }
        let mut next = self;
        next.sp = self.lp;
        next.pc = self.pc + 1;
        next.rp = self.rp + 1;
        next.mp = 0;
        next.inp = 0;
        self.charge(cost, next, None, None)
    }

    // "24 MatchedRule: values dropped"
    pub(crate) fn matched_rule(self, cost: usize) -> Turn
        requires { Fit self }
        ensures { (lim : Limits) (st he wi or : List ℕ) → Within lim self → Meets lim self (buffers st he wi or) (priced cost MatchedRule) result (buffers st he wi or) }
    {
        let mut next = self;
        next.sp = self.lp;
        next.pc = self.pc + 1;
        self.charge(cost, next, None, None)
    }

    // "25 MatchNone: mp + 1, inp + 1"
    pub(crate) fn match_none(self, cost: usize) -> Turn
        requires { Fit self }
        ensures { (lim : Limits) (st he wi or : List ℕ) → Within lim self → Meets lim self (buffers st he wi or) (priced cost MatchNone) result (buffers st he wi or) }
    {
        let mut next = self;
        next.pc = self.pc + 1;
        next.mp = self.mp + 1;
        next.inp = self.inp + 1;
        self.charge(cost, next, None, None)
    }

    // "26 MatchAvailable: inp + 1, fails if that input is empty"; "input (inp at least their number)"
    fn available(self, inputs: usize, wires: &[u32]) -> Result<Attempt, Ending>
        requires inp_bound { self.inp < 2 ^ 32 }
        requires inputs_in_bounds { 65 * inputs ≤ length wires.now }
        ensures { (P : Program) (st he or : List ℕ) → P.inputs ≡ inputs → Attempts P self (buffers st he wires.now or) (MatchAvailable P) result }
    {
        let i = self.inp;
        if inputs <= i {
            return Err(Ending::NO_SUCH);
        }
        let k = wires[65 * i];
        Ok(Attempt {
            hit: k != 0,
            mp: self.mp,
            inp: i + 1,
        })
    }

    // "argument mp, the word at fp-5-mp, then mp + 1"
    fn compare(self, pattern: Pattern, stack: &[u32], heap: &[u32]) -> Result<Attempt, Ending>
        requires mp_bound { (self.mp < 2 ^ 32) × (self.fp ≤ self.sp) × (self.sp ≤ length stack.now) × (self.hp ≤ length heap.now) }
        requires refs { Refs self stack.now }
        ensures { (P : Program) (wi or : List ℕ) → Attempts P self (buffers stack.now heap.now wi or) (matches P (seeks pattern)) result }
    {
        let k = 5 + self.mp;
        if self.fp < k {
            return Err(Ending::NO_SUCH);
        }
        let p = self.fp - k;
        let w = stack[p];
        if !is_value(w) {
            return Err(Ending::WRONG_KIND);
        }
        Ok(Attempt {
            hit: cell_matches(pattern, w, heap),
            mp: self.mp + 1,
            inp: self.inp,
        })
    }

    // "A failure goes to the rule at order rp"; "3 no rule left after a failed match"
    fn conclude(self, cost: usize, attempt: Attempt, code: &Code, order: &[u32]) -> Turn
        requires fit { Fit self }
        requires order_fits { OrderFits (program code.now.image.now) order.now }
        requires rs_bound { self.rs < (program code.now.image.now).rulesets }
        ensures { (lim : Limits) (st he wi : List ℕ) → Within lim self → Meets lim self (buffers st he wi order.now) (priced cost (concludes (program code.now.image.now) attempt)) result (buffers st he wi order.now) }
    {
        let mut next = self;
        next.mp = attempt.mp;
        next.inp = attempt.inp;
        if attempt.hit {
            next.pc = self.pc + 1;
            return self.charge(cost, next, None, None);
        }
        let count = code.count_of(self.rs);
        if count <= self.rp {
            return self.halt(Ending::NoRule);
        }
        next.pc = code.rule_at(order, self.rs, self.rp);
        self.charge(cost, next, None, None)
    }

    // "26 MatchAvailable"
    pub(crate) fn match_available(
        self,
        cost: usize,
        code: &Code,
        order: &[u32],
        wires: &[u32],
    ) -> Turn
        requires fit { Fit self }
        requires order_fits { OrderFits (program code.now.image.now) order.now }
        requires rs_bound { self.rs < (program code.now.image.now).rulesets }
        requires wires_in_bounds { 65 * code.now.inputs ≤ length wires.now }
        ensures { (lim : Limits) (st he : List ℕ) → Within lim self → Meets lim self (buffers st he wires.now order.now) (priced cost (MatchAvailable (program code.now.image.now))) result (buffers st he wires.now order.now) }
    {
        match self.available(code.inputs, wires) {
            Ok(attempt) => self.conclude(cost, attempt, code, order),
            Err(ending) => self.halt(ending),
        }
    }

    // 27 to 32: the cell that is asked for differs, a failure doesn't.
    pub(crate) fn match_cell(
        self,
        cost: usize,
        pattern: Pattern,
        code: &Code,
        order: &[u32],
        stack: &[u32],
        heap: &[u32],
    ) -> Turn
        requires fit { Fit self }
        requires order_fits { OrderFits (program code.now.image.now) order.now }
        requires rs_bound { self.rs < (program code.now.image.now).rulesets }
        requires within { Within (up_to (length stack.now) (length heap.now)) self }
        requires refs { Refs self stack.now }
        ensures { (lim : Limits) (wi : List ℕ) → Within lim self → Meets lim self (buffers stack.now heap.now wi order.now) (priced cost (matches (program code.now.image.now) (seeks pattern))) result (buffers stack.now heap.now wi order.now) }
    {
        match self.compare(pattern, stack, heap) {
            Ok(attempt) => self.conclude(cost, attempt, code, order),
            Err(ending) => self.halt(ending),
        }
    }

    // "34 Reorder: the rule at order position rp goes last, those after it move down one; with rp = count, nothing"
    pub(crate) fn reorder(self, cost: usize, code: &Code, order: &mut [u32]) -> Turn
        requires fit { Fit self }
        requires order_fits { OrderFits (program code.now.image.now) order.old }
        requires rs_bound { self.rs < (program code.now.image.now).rulesets }
        ensures { (lim : Limits) (st he wi : List ℕ) → Within lim self → Meets lim self (buffers st he wi order.old) (priced cost (Reorder (program code.now.image.now))) result (buffers st he wi order.new) }
    {
        let rs = self.rs;
        let mut next = self;
        next.pc = self.pc + 1;
        let turn = self.charge(cost, next, None, None);
        if turn.goes_on() {
            let count = code.count_of(rs);
            if self.rp < count {
                let from = code.order_of(rs);
                move_last(order, from + self.rp, from + count);
            }
        }
        turn
    }
}
