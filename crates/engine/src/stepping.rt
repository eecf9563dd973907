// One step of the machine: the instruction at pc.
ghost use Rattle.std.specs.Prelude.{length};
ghost use Rattle.hume.specs.Image.{program};
ghost use Rattle.hume.specs.Machine.{machine};
ghost use Rattle.engine.specs.Limits.{up_to};
ghost use Rattle.engine.specs.Turns.{Meets, buffers};
ghost use Rattle.engine.specs.Ready.{Ready};

use super::image::Code;
use super::matching::Pattern;
use super::regs::{Regs, Turn};
use arith::canonical;
use gate::headers::{BOOL, CONSTR, EXN, FLOAT, INT, TUPLE};

impl Regs {
    // One arm for each opcode: an arm of several isn't in the compiler's table of jumps. CallPrim1, CallPrim2 and Raise have one,
    // since what raises must be inlined here and is too large to be so more than once. The fields of an instruction are read
    // where they are needed; one that it doesn't name is 0. The opcode stays a number: made an enum first, it slowed every group, and floats took
    // 1.01 of the handwritten machine's time where 1.0 is the bar.
    pub(crate) fn step(
        self,
        code: &Code,
        stack: &mut [u32],
        heap: &mut [u32],
        wires: &mut [u32],
        order: &mut [u32],
    ) -> Turn
        requires { Ready (program code.now.image.now) self (buffers stack.old heap.old wires.old order.old) }
        ensures { Meets (up_to (length stack.old) (length heap.old)) self (buffers stack.old heap.old wires.old order.old) (machine (program code.now.image.now) code.now.card.now).act result (buffers stack.new heap.new wires.new order.new) }
    {
        let pc = self.pc;
        let op = code.opcode_at(pc);
        let cost = code.card[op - 1] as usize;
        let pattern = match op {
            1 => return self.mk_atom(cost, BOOL, code.c_at(pc), stack, heap),
            2 => return self.mk_atom(cost, INT, code.c_at(pc), stack, heap),
            3 => return self.mk_atom(cost, FLOAT, canonical(code.c_at(pc)), stack, heap),
            4 => return self.mk_none(cost, stack),
            5 => return self.mk_block(cost, TUPLE, code.a_at(pc), stack, heap),
            6 => {
                let h = CONSTR + code.b_at(pc) as u32;
                return self.mk_block(cost, h, code.a_at(pc), stack, heap);
            }
            7 => return self.push_nulls(cost, code.a_at(pc), stack),
            8 => return self.pop(cost, code.a_at(pc)),
            9 => return self.slide(cost, code.a_at(pc), stack),
            10 => return self.copy(cost, code.a_at(pc), stack),
            11 => return self.copy_arg(cost, code.a_at(pc), stack),
            12 => return self.create_frame(cost, code.a_at(pc), stack),
            13 => return self.push_var(cost, code.a_at(pc), stack),
            14 => return self.make_var(cost, code.a_at(pc), stack),
            15 => return self.goto(cost, code.b_at(pc)),
            16 => return self.if_true(cost, code.b_at(pc), stack, heap),
            17 => {
                let a = code.a_at(pc);
                return self.call(cost, a, code.entry_of(a as usize), stack);
            }
            18 => return self.give_back(cost, stack),
            19 | 20 | 21 => return self.apply(
                cost,
                op,
                code.a_at(pc),
                code.b_at(pc),
                code.handler,
                code.cycles,
                stack,
                heap,
            ),
            22 => return self.start_matches(cost, code, order),
            23 => return self.match_rule(cost, code),
            24 => return self.matched_rule(cost),
            25 => return self.match_none(cost),
            26 => return self.match_available(cost, code, order, wires),
            27 => Pattern {
                header: BOOL,
                second: Some(code.c_at(pc)),
            },
            28 => Pattern {
                header: INT,
                second: Some(code.c_at(pc)),
            },
            29 => Pattern {
                header: FLOAT,
                second: Some(canonical(code.c_at(pc))),
            },
            30 => Pattern {
                header: TUPLE,
                second: Some(code.a_at(pc) as u32),
            },
            31 => Pattern {
                header: CONSTR + code.b_at(pc) as u32,
                second: Some(code.a_at(pc) as u32),
            },
            32 => Pattern {
                header: EXN + code.b_at(pc) as u32,
                second: None,
            },
            33 => return self.unpack(cost, stack, heap),
            34 => return self.reorder(cost, code, order),
            35 => return self.copy_input(cost, code.a_at(pc), stack, heap, wires),
            36 => return self.consume(cost, code.a_at(pc), wires),
            37 => return self.consume(cost, code.a_at(pc), wires),
            38 => return self.check_outputs(cost, code.inputs, code.outputs, stack, wires),
            39 => return self.write(cost, code.a_at(pc), code.inputs, stack, heap, wires),
            _ => return self.schedule(cost),
        };
        self.match_cell(cost, pattern, code, order, stack, heap)
    }
}
