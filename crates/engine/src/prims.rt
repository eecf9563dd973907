// One primitive call: from a primitive number and operand cells to the result's kind and bits, or the exception it raises, or
// fault 2; and Raise, which raises what a primitive may raise too.
ghost use Rattle.std.specs.Prelude.{◌≡◌, ◌&&◌, ◌||◌, List, ℕ, ◌+◌, ◌≤◌, ◌<◌, eqb, length};
ghost use Rattle.hume.specs.Image.{Program};
ghost use Rattle.hume.specs.Primitives.{truth as truth_of, is_true, prim1 as primitive1, prim2 as primitive2};
ghost use Rattle.hume.specs.Instructions.{CallPrim1, CallPrim2, Raise};
ghost use Rattle.arith.specs.Cuts.{cut};
ghost use Rattle.engine.specs.Limits.{Within, up_to};
ghost use Rattle.engine.specs.Turns.{Meets, priced, buffers};
ghost use Rattle.engine.specs.Fits.{Fit, Refs};
ghost use Rattle.engine.specs.Outcomes.{tried, kept, quotient, cutting};
ghost use Rattle.engine.specs.Outcomes.{operands as operands_of, results, throws, Deals, Fair, Applies, Tries, cycle_table, Cycles, Handled};

use super::Ending;
use super::image::Handler;
use super::regs::{Regs, Turn};
use super::words::{LINK, NONE, REFERENCE, is_value, place_of};
use arith::{
    add_float, add_int, div_float, div_int, eq_float, le_float, le_int, lt_float, lt_int, mod_int,
    mul_float, mul_int, sub_float, sub_int, to_float, to_int,
};
use gate::headers::{BOOL, EXN, FLOAT, INT};

// ---- one primitive

// "cycles from Table 5 .. These are kept as one table of costs by primitive number": those of one operand, then those of two.
// A run lends it to its steps: the compiler would copy a constant table wherever it is read.
pub(crate) const CYCLES: [u16; 25] = [
    118, 699, 2973, 125, 243, 122, 124, 122, 124, 116, 116, 124, 206, 1294, 153, 156, 125, 211,
    209, 211, 209, 1106, 1112, 356, 959,
];

// A result's cell.
#[derive(Clone, Copy)]
struct Cell {
    header: u32,
    payload: u32,
}

// What comes in a result's place: a fault, by its number as in `Ending`, or an exception's number and field.
#[derive(Clone, Copy)]
enum Trouble {
    Fault(u32),
    Raises { exception: u32, field: u32 },
}

// Fault 1: there are fewer values than operands.
const TOO_FEW: Trouble = Trouble::Fault(1);

// "2 wrong kind of word or cell"
const WRONG_KIND: Trouble = Trouble::Fault(2);

// "Integer zero divisor: exception 1"; a primitive's exceptions have the field None.
const ZERO_DIVISOR: Trouble = Trouble::Raises {
    exception: 1,
    field: NONE,
};

// "NaN or outside -2^31..2^31-1 raises exception 2"
const NO_INT: Trouble = Trouble::Raises {
    exception: 2,
    field: NONE,
};

// A Bool's payload.
fn truth(b: bool) -> u32
    ensures { result ≡ truth_of b }
{
    u32::from(b)
}

// The Bool operations on 0 and 1. They differ in the operator alone: one function that took it would read no plainer.
#[tactic(auto, unfolding(hume::specs::Primitives::is_true))]
fn both(x: u32, y: u32) -> u32
    ensures { result ≡ truth_of (is_true x && is_true y) }
{
    truth(x == 1 && y == 1)
}

#[tactic(auto, unfolding(hume::specs::Primitives::is_true))]
fn either(x: u32, y: u32) -> u32
    ensures { result ≡ truth_of (is_true x || is_true y) }
{
    truth(x == 1 || y == 1)
}

// A value v of the header g, where the operands' header h is k. Headers and payloads come as numbers: a `Cell` of an operand would be put together
// only to be taken apart here.
#[tactic(auto, unfolding(crate::specs::Outcomes::kept, hume::specs::Tests::pick))]
fn keep(h: u32, k: u32, g: u32, v: u32) -> Result<Cell, Trouble>
    ensures { result ≡ kept h k g v }
{
    if h != k {
        return Err(WRONG_KIND);
    }
    Ok(Cell {
        header: g,
        payload: v,
    })
}

// An Int, where the divisor isn't 0.
#[tactic(auto, unfolding(crate::specs::Outcomes::quotient, crate::specs::Outcomes::kept, hume::specs::Tests::pick))]
fn divided(h: u32, y: u32, v: u32) -> Result<Cell, Trouble>
    ensures { result ≡ quotient h y v }
{
    if h == INT && y == 0 {
        return Err(ZERO_DIVISOR);
    }
    keep(h, INT, INT, v)
}

// An Int, where the Float has one.
#[tactic(auto, unfolding(crate::specs::Outcomes::cutting, hume::specs::Tests::pick))]
fn converted(h: u32, c: Option<u32>) -> Result<Cell, Trouble>
    ensures { result ≡ cutting h (cut c) }
{
    if h != FLOAT {
        return Err(WRONG_KIND);
    }
    let n = c.ok_or(NO_INT)?;
    Ok(Cell {
        header: INT,
        payload: n,
    })
}

// "One operand: 1 not, 2 toFloat.i, 3 toInt.f"; h is its header, x its payload. A primitive goes by its number: an enum of the 25 would only
// say once more what stands beside each.
fn prim1(a: u8, h: u32, x: u32) -> Result<Cell, Trouble>
    ensures { result ≡ tried (primitive1 a) (eqb h (primitive1 a).takes) x 0 }
{
    match a {
        0 | 1 => keep(h, BOOL, BOOL, truth(x != 1)),
        2 => keep(h, INT, FLOAT, to_float(x)),
        3 => converted(h, to_int(x)),
        _ => keep(h, BOOL, BOOL, 0),
    }
}

// "Two": both operands have the header h.
fn pair(a: u8, h: u32, x: u32, y: u32) -> Result<Cell, Trouble>
    ensures { result ≡ tried (primitive2 a) (eqb h (primitive2 a).takes) x y }
{
    match a {
        0 | 1 => keep(h, INT, BOOL, truth(x == y)),
        2 => keep(h, INT, BOOL, truth(x != y)),
        3 => keep(h, INT, BOOL, truth(le_int(y, x))),
        4 => keep(h, INT, BOOL, truth(lt_int(y, x))),
        5 => keep(h, INT, BOOL, truth(le_int(x, y))),
        6 => keep(h, INT, BOOL, truth(lt_int(x, y))),
        7 => keep(h, INT, INT, add_int(x, y)),
        8 => keep(h, INT, INT, sub_int(x, y)),
        9 => keep(h, INT, INT, mul_int(x, y)),
        10 => divided(h, y, div_int(x, y)),
        11 => divided(h, y, mod_int(x, y)),
        12 => keep(h, BOOL, BOOL, both(x, y)),
        13 => keep(h, BOOL, BOOL, either(x, y)),
        14 => keep(h, FLOAT, BOOL, truth(eq_float(x, y))),
        15 => keep(h, FLOAT, BOOL, truth(le_float(y, x))),
        16 => keep(h, FLOAT, BOOL, truth(lt_float(y, x))),
        17 => keep(h, FLOAT, BOOL, truth(le_float(x, y))),
        18 => keep(h, FLOAT, BOOL, truth(lt_float(x, y))),
        19 => keep(h, FLOAT, FLOAT, add_float(x, y)),
        20 => keep(h, FLOAT, FLOAT, sub_float(x, y)),
        21 => keep(h, FLOAT, FLOAT, mul_float(x, y)),
        22 => keep(h, FLOAT, FLOAT, div_float(x, y)),
        _ => keep(h, BOOL, BOOL, 0),
    }
}

// "the top word being the first operand": its header h0 and payload x, and those of the second.
fn prim2(a: u8, h0: u32, x: u32, h1: u32, y: u32) -> Result<Cell, Trouble>
    ensures { result ≡ tried (primitive2 a) (eqb h0 (primitive2 a).takes && eqb h1 (primitive2 a).takes) x y }
{
    if h0 != h1 {
        return Err(WRONG_KIND);
    }
    pair(a, h0, x, y)
}

// ---- an application

// The opcodes of two of the three; 21, Raise, is the one that is left. Numbers, as in `step`.
const CALL_PRIM1: usize = 19;

const CALL_PRIM2: usize = 20;

// The cycles of a primitive besides the card's, and none for Raise.
fn cycles(table: &[u16], op: usize, a: u8) -> u16
    requires applies { Applies op a }
    requires table_value { table.now ≡ cycle_table }
    ensures { Cycles op a result }
{
    match op {
        CALL_PRIM1 => table[a as usize - 1],
        CALL_PRIM2 => table[a as usize + 2],
        _ => 0,
    }
}

// How many values an application takes from the top. `cycles`, this and `try_any` each go by the opcode, at another place of an application and with
// a promise of their own: one switch for all three would say no more plainly what each gives.
fn operands(op: usize) -> usize
    ensures { result ≡ operands_of op }
{
    if op == CALL_PRIM2 { 2 } else { 1 }
}

impl Regs {
    // "19 CallPrim1 a [0]"
    fn try_one(self, a: u8, stack: &[u32], heap: &[u32]) -> Result<Cell, Trouble>
        requires lp_le_sp { (self.lp ≤ self.sp) × (self.sp ≤ length stack.now) × (self.hp ≤ length heap.now) }
        requires refs { Refs self stack.now }
        ensures deals { Deals self stack.now heap.now 1 (primitive1 a).cycles (λ P. CallPrim1 P a) result }
        ensures fair { Fair self 1 result }
    {
        let sp = self.sp;
        if sp <= self.lp {
            return Err(TOO_FEW);
        }
        let Some(p) = place_of(stack[sp - 1]) else {
            return Err(WRONG_KIND);
        };
        prim1(a, heap[p], heap[p + 1])
    }

    // "20 CallPrim2 a [-1]", "the top word being the first operand"
    fn try_two(self, a: u8, stack: &[u32], heap: &[u32]) -> Result<Cell, Trouble>
        requires lp_le_sp { (self.lp ≤ self.sp) × (self.sp ≤ length stack.now) × (self.hp ≤ length heap.now) }
        requires refs { Refs self stack.now }
        ensures deals { Deals self stack.now heap.now 2 (primitive2 a).cycles (λ P. CallPrim2 P a) result }
        ensures fair { Fair self 2 result }
    {
        let sp = self.sp;
        if sp - self.lp < 2 {
            return Err(TOO_FEW);
        }
        let Some(p) = place_of(stack[sp - 1]) else {
            return Err(WRONG_KIND);
        };
        let Some(q) = place_of(stack[sp - 2]) else {
            return Err(WRONG_KIND);
        };
        prim2(a, heap[p], heap[p + 1], heap[q], heap[q + 1])
    }

    // "21 Raise b: makes Exn b of the top value (reference or None)"
    fn try_raise(self, b: u16, stack: &[u32]) -> Result<Cell, Trouble>
        requires sp_in_bounds { self.sp ≤ length stack.now }
        ensures by_index { (he : List ℕ) → Deals self stack.now he 1 0 (λ P. Raise P b) result }
        ensures fair { Fair self 1 result }
    {
        let sp = self.sp;
        if sp <= self.lp {
            return Err(TOO_FEW);
        }
        let w = stack[sp - 1];
        if !is_value(w) {
            return Err(WRONG_KIND);
        }
        Err(Trouble::Raises {
            exception: b as u32,
            field: w,
        })
    }

    // By opcode.
    fn try_any(self, op: usize, a: u8, b: u16, stack: &[u32], heap: &[u32]) -> Result<Cell, Trouble>
        requires lp_le_sp { (self.lp ≤ self.sp) × (self.sp ≤ length stack.now) × (self.hp ≤ length heap.now) }
        requires refs { Refs self stack.now }
        ensures { Tries self stack.now heap.now op a b result }
    {
        match op {
            CALL_PRIM1 => self.try_one(a, stack, heap),
            CALL_PRIM2 => self.try_two(a, stack, heap),
            _ => self.try_raise(b, stack),
        }
    }

    // "result 2 heap words", above the lower words: in the place of operands, or on top of all
    pub(crate) fn give(
        self,
        cost: usize,
        low: usize,
        h: u32,
        x: u32,
        stack: &mut [u32],
        heap: &mut [u32],
    ) -> Turn
        requires fit { Fit self }
        requires within { Within (up_to (length stack.old) (length heap.old)) self }
        requires lp_le_low { (self.lp ≤ low) × (low ≤ self.sp) }
        ensures { (t k : ℕ) (wi or : List ℕ) → cost ≡ t + k → Meets (up_to (length stack.old) (length heap.old)) self (buffers stack.old heap.old wi or) (priced t (results k low h x)) result (buffers stack.new heap.new wi or) }
    {
        let hp = self.hp;
        let mut next = self;
        next.sp = low + 1;
        next.hp = hp + 2;
        next.pc = self.pc + 1;
        let turn = self.charge(cost, next, Some(stack.len()), Some(heap.len()));
        if turn.goes_on() {
            heap[hp] = h;
            heap[hp + 1] = x;
            stack[low] = REFERENCE + hp as u32;
        }
        turn
    }

    // "the stack becomes the exception, three nulls and a frame link with fp 0 and n 0; fp = 5, slp 0; the handler is entered
    // with rp 0"; "4 exception (number) with no handler"
    fn raise(
        self,
        cost: usize,
        e: u32,
        w: u32,
        handler: Option<Handler>,
        stack: &mut [u32],
        heap: &mut [u32],
    ) -> Turn
        requires fit { Fit self }
        requires within { Within (up_to (length stack.old) (length heap.old)) self }
        requires e_bound { e < 65536 }
        ensures { (P : Program) (t k : ℕ) (wi or : List ℕ) → Handled P handler → cost ≡ t + k → Meets (up_to (length stack.old) (length heap.old)) self (buffers stack.old heap.old wi or) (priced t (throws P k e w)) result (buffers stack.new heap.new wi or) }
    {
        let Some(handler) = handler else {
            return self.halt(Ending::Unhandled(e));
        };
        let hp = self.hp;
        let mut next = self;
        next.pc = handler.entry;
        next.sp = 5;
        next.hp = hp + 3;
        next.fp = 5;
        next.lp = 5;
        next.slp = 0;
        next.rp = 0;
        next.rs = handler.ruleset;
        let turn = self.charge(cost, next, Some(stack.len()), Some(heap.len()));
        if turn.goes_on() {
            heap[hp] = EXN + e;
            heap[hp + 1] = 1;
            heap[hp + 2] = w;
            stack[0] = REFERENCE + hp as u32;
            stack[1] = 0;
            stack[2] = 0;
            stack[3] = 0;
            stack[4] = LINK;
        }
        turn
    }

    // 19 CallPrim1, 20 CallPrim2 and 21 Raise.
    pub(crate) fn apply(
        self,
        cost: usize,
        op: usize,
        a: u8,
        b: u16,
        handler: Option<Handler>,
        table: &[u16],
        stack: &mut [u32],
        heap: &mut [u32],
    ) -> Turn
        requires fit { Fit self }
        requires within { Within (up_to (length stack.old) (length heap.old)) self }
        requires refs { Refs self stack.old }
        requires cost_bound { cost < 65536 }
        requires applies { Applies op a }
        requires table_value { table.now ≡ cycle_table }
        ensures prim1 { (P : Program) (wi or : List ℕ) → Handled P handler → op ≡ 19 → Meets (up_to (length stack.old) (length heap.old)) self (buffers stack.old heap.old wi or) (priced cost (CallPrim1 P a)) result (buffers stack.new heap.new wi or) }
        ensures prim2 { (P : Program) (wi or : List ℕ) → Handled P handler → op ≡ 20 → Meets (up_to (length stack.old) (length heap.old)) self (buffers stack.old heap.old wi or) (priced cost (CallPrim2 P a)) result (buffers stack.new heap.new wi or) }
        ensures raise { (P : Program) (wi or : List ℕ) → Handled P handler → op ≡ 21 → Meets (up_to (length stack.old) (length heap.old)) self (buffers stack.old heap.old wi or) (priced cost (Raise P b)) result (buffers stack.new heap.new wi or) }
    {
        let tried = self.try_any(op, a, b, stack, heap);
        let time = cost + cycles(table, op, a) as usize;
        match tried {
            Ok(cell) => {
                let low = self.sp - operands(op);
                self.give(time, low, cell.header, cell.payload, stack, heap)
            }
            Err(Trouble::Fault(n)) => self.halt(Ending::Fault(n)),
            Err(Trouble::Raises { exception, field }) => {
                self.raise(time, exception, field, handler, stack, heap)
            }
        }
    }
}
