// The call for hosts in C and Rust: numbers and slices alone. The crate host_c exports it.
#![tactic(auto)]

ghost use Rattle.std.specs.Prelude.{◌≡◌};
ghost use Rattle.std.proofs.lemmas.List.Edits.{sets};
ghost use Rattle.hume.specs.Call.{answer};
ghost use Rattle.gate.specs.Verdicts.{number, given};
ghost use Rattle.engine.specs.Reports.{reported};
ghost use Rattle.host.specs.Told.{recorded_by, recorded};

use engine::{Report, run};
use gate::Refusal;

// Document 01's number of a refusal, 0 for none.
pub fn number_of(v: Result<(), Refusal>) -> u32
    ensures { result ≡ number v }
{
    match v {
        Ok(()) => 0,
        Err(r) => u32::from(r),
    }
}

// As many of the eight as there is room for, from the first on.
fn record(figures: &mut [u32], eight: [u32; 8])
    ensures { figures.new ≡ sets figures.old 0 eight }
{
    let n = figures.len().min(8);
    figures[..n].copy_from_slice(&eight[..n]);
}

// The figures of an accepted call. A refused one writes to no buffer.
#[tactic(auto, using(crate::proofs::Writing::written, crate::proofs::Writing::kept))]
fn tell(figures: &mut [u32], report: &Report)
    ensures { figures.new ≡ recorded_by (number report.now.verdict) (reported report.now) figures.old }
{
    if report.verdict.is_ok() {
        record(figures, report.figures());
    }
}

// C has no Result, so the refusal is its number. One call, as `run` of the crate engine: the refusal's number is returned, 0 for none, and the eight figures go to `figures`.
pub fn ham_run(
    image: &[u8],
    card: &[u32],
    t: u32,
    s: u32,
    h: u32,
    stack: &mut [u32],
    heap: &mut [u32],
    wires: &mut [u32],
    order: &mut [u32],
    figures: &mut [u32],
) -> u32
    ensures value { result ≡ (answer (given image.now card.now t s h stack.old heap.old wires.old order.old)).refusal }
    ensures stack_after { stack.new ≡ (answer (given image.now card.now t s h stack.old heap.old wires.old order.old)).stack }
    ensures heap_after { heap.new ≡ (answer (given image.now card.now t s h stack.old heap.old wires.old order.old)).heap }
    ensures wires_after { wires.new ≡ (answer (given image.now card.now t s h stack.old heap.old wires.old order.old)).wires }
    ensures order_after { order.new ≡ (answer (given image.now card.now t s h stack.old heap.old wires.old order.old)).order }
    ensures figures_after { figures.new ≡ recorded (answer (given image.now card.now t s h stack.old heap.old wires.old order.old)) figures.old }
{
    let report = run(image, card, t, s, h, stack, heap, wires, order);
    tell(figures, &report);
    number_of(report.verdict)
}
