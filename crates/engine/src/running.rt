// The main loop.
ghost use Rattle.engine.specs.Turns.{buffers};
ghost use Rattle.engine.specs.Running.{Over};
ghost use Rattle.engine.specs.Underway.{Underway, calls};

use super::Ending;
use super::image::Code;
use super::regs::Regs;

impl Regs {
    // "The main loop yields the ending it stopped on", so it is a `loop` that breaks with it: each step takes time, so what is left falls.
    pub(crate) fn run(
        self,
        code: &Code,
        stack: &mut [u32],
        heap: &mut [u32],
        wires: &mut [u32],
        order: &mut [u32],
    ) -> (Regs, Ending)
        requires { Underway code.now.image.now code.now.card.now self (buffers stack.old heap.old wires.old order.old) }
        ensures { (u : Underway code.now.image.now code.now.card.now self (buffers stack.old heap.old wires.old order.old)) → Over (calls code.now.image.now code.now.card.now u.limits u.lent) result.0 result.1 (buffers stack.new heap.new wires.new order.new) }
    {
        let mut s = self;
        let ending = loop {
            let turn = s.step(code, stack, heap, wires, order);
            s = turn.regs;
            if let Some(ending) = turn.ending {
                break ending;
            }
        };
        (s, ending)
    }
}
