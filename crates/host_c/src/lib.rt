// `ham_run` of the crate host, as the static library for hosts in C and Rust exports it.
#![tactic(auto)]

ghost use Rattle.std.specs.Prelude.{◌≡◌};
ghost use Rattle.hume.specs.Call.{answer};
ghost use Rattle.gate.specs.Verdicts.{given};
ghost use Rattle.host.specs.Told.{recorded};

// One call: the refusal's number is returned, 0 for none, and the eight figures go to `figures`.
#[unsafe(no_mangle)]
pub extern "C" fn ham_run(
    image: &[u8],
    card: &[u32],
    t: u32,
    s: u32,
    h: u32,
    stack: &mut [u32],
    heap: &mut [u32],
    wires: &mut [u32],
    order: &mut [u32],
    figures: &mut [u32],
) -> u32
    ensures value { result ≡ (answer (given image.now card.now t s h stack.old heap.old wires.old order.old)).refusal }
    ensures stack_after { stack.new ≡ (answer (given image.now card.now t s h stack.old heap.old wires.old order.old)).stack }
    ensures heap_after { heap.new ≡ (answer (given image.now card.now t s h stack.old heap.old wires.old order.old)).heap }
    ensures wires_after { wires.new ≡ (answer (given image.now card.now t s h stack.old heap.old wires.old order.old)).wires }
    ensures order_after { order.new ≡ (answer (given image.now card.now t s h stack.old heap.old wires.old order.old)).order }
    ensures figures_after { figures.new ≡ recorded (answer (given image.now card.now t s h stack.old heap.old wires.old order.old)) figures.old }
{
    host::ham_run(image, card, t, s, h, stack, heap, wires, order, figures)
}
