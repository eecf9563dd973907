// Which calls are turned away: document 01, "What is turned away, first that applies", 1 to 8. Any slice may be handed
// in: empty, huge or lying about its length.
#![tactic(auto)]

mod code;
pub mod headers;
pub mod image;
mod order;
mod refusals;
mod wires;

ghost use Rattle.std.specs.Prelude.{◌≡◌, map};
ghost use Rattle.hume.specs.Refusals.{image_refusal, card_ok, limits_ok};
ghost use Rattle.hume.specs.Call.{refusal, lent_refusal};
ghost use Rattle.gate.specs.Verdicts.{number, given};
ghost use Rattle.gate.specs.Parts.{LaidOut, in_image, in_order};

pub use image::Start;
pub use refusals::Refusal;

// "Card: 40 numbers of 32 bits, one per opcode, each 1..65535."
#[tactic(auto, unfolding(hume::specs::Refusals::card_ok))]
pub fn card_ok(card: &[u32]) -> bool
    ensures { result ≡ card_ok card.now }
{
    card.len() == 40 && card.iter().all(|x| (1..=65535).contains(x))
}

// "stack S (0..4096 words), heap H (0..16384 words). Stack and heap areas: 32-bit words, at least S and H long."
#[tactic(auto, unfolding(hume::specs::Refusals::limits_ok))]
pub fn limits_ok(s: u32, h: u32, stack: usize, heap: usize) -> bool
    ensures { result ≡ limits_ok s h stack heap }
{
    s <= 4096 && h <= 16384 && s as usize <= stack && h as usize <= heap
}

// Where each ruleset begins, to one past the 32nd. One pass, also past the last ruleset: what stands there is no matter, and is
// bounded.
#[inline(always)]
pub fn layout(image: &[u8]) -> [Start; 33]
    ensures { LaidOut image.now (map in_image result) (map in_order result) }
{
    let mut starts = [Start {
        image: 11,
        order: 0,
    }; 33];
    for k in 0..32 {
        let start = starts[k];
        let count = image::byte_at(image, start.image + 2);
        starts[k + 1] = Start {
            image: start.image + 3 + 2 * count,
            order: start.order + count,
        };
    }
    starts
}

// 1 to 4.
#[tactic(auto, unfolding(hume::specs::Refusals::image_refusal, hume::specs::Refusals::version_ok, hume::specs::Image::version, hume::specs::Refusals::unless))]
pub fn image_verdict(image: &[u8]) -> Result<(), Refusal>
    ensures { number result ≡ image_refusal image.now }
{
    if !image::length_ok(image) {
        return Err(Refusal::Length);
    }
    if image::byte_at(image, 4) != 1 {
        return Err(Refusal::Version);
    }
    if !image::counts_ok(image) {
        return Err(Refusal::Counts);
    }
    if !code::code_ok(image) {
        return Err(Refusal::Code);
    }
    Ok(())
}

// 5 to 8, for an accepted image.
#[tactic(auto, unfolding(hume::specs::Call::lent_refusal, hume::specs::Refusals::unless))]
fn lent_verdict(
    image: &[u8],
    card: &[u32],
    s: u32,
    h: u32,
    stack: &[u32],
    heap: &[u32],
    wires: &[u32],
    order: &[u32],
) -> Result<(), Refusal>
    requires { image_refusal image.now ≡ 0 }
    ensures { number result ≡ lent_refusal (given image.now card.now 0 s h stack.now
        heap.now wires.now order.now) }
{
    if !card_ok(card) {
        return Err(Refusal::Card);
    }
    if !limits_ok(s, h, stack.len(), heap.len()) {
        return Err(Refusal::Limits);
    }
    if !wires::wires_ok(image, wires) {
        return Err(Refusal::Wires);
    }
    if !order::order_ok(image, order) {
        return Err(Refusal::Order);
    }
    Ok(())
}

// 1 to 8. Everything is lent slice by slice, as document 01 names it, and not in a struct. It stays a function of its own: compiled into the
// function that has the machine's loop, the checks would share the processor's registers with it.
#[inline(never)]
#[tactic(auto, unfolding(hume::specs::Call::refusal, hume::specs::Call::first_of))]
pub fn verdict(
    image: &[u8],
    card: &[u32],
    time: u32,
    s: u32,
    h: u32,
    stack: &[u32],
    heap: &[u32],
    wires: &[u32],
    order: &[u32],
) -> Result<(), Refusal>
    ensures { number result ≡ refusal (given image.now card.now time s h stack.now
        heap.now wires.now order.now) }
{
    image_verdict(image)?;
    lent_verdict(image, card, s, h, stack, heap, wires, order)
}
