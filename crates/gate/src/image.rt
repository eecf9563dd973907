// Document 01, "The image": its bytes, its counts and where its parts begin.
ghost use Rattle.std.specs.Prelude.{◌≡◌, ◌≤◌, ◌<◌, ◌^◌, IfSome};
ghost use Rattle.hume.specs.Image.{program, byte, half, full};
ghost use Rattle.hume.specs.Refusals.{length_ok, counts_ok};
ghost use Rattle.gate.specs.Parts.{Read, HeaderOf, ranges_ok, counts_end};

// Where a ruleset begins, in the image and in the rule order.
#[derive(Clone, Copy)]
pub struct Start {
    pub image: usize,
    pub order: usize,
}

// A byte; past the end, 0.
#[tactic(auto, unfolding(hume::specs::Image::byte))]
pub fn byte_at(m: &[u8], i: usize) -> usize
    ensures { Read (byte m.now i) 256 result }
{
    m.get(i).map_or(0, |&b| usize::from(b))
}

// "Big-endian." Two functions and not one of a size: each is its definition, a half of two bytes, a number of two halves; and
// past the end it stops, since i may be any number, and i + 1 too large.
#[tactic(auto, using(crate::proofs::Rulesets::half_past), unfolding(hume::specs::Image::half))]
pub(crate) fn half_at(m: &[u8], i: usize) -> usize
    ensures { Read (half m.now i) 65536 result }
{
    if m.len() <= i {
        return 0;
    }
    byte_at(m, i) * 256 + byte_at(m, i + 1)
}

#[tactic(auto, using(crate::proofs::Rulesets::full_past), unfolding(hume::specs::Image::full))]
pub fn full_at(m: &[u8], i: usize) -> usize
    ensures { Read (full m.now i) (2 ^ 32) result }
{
    if m.len() <= i {
        return 0;
    }
    half_at(m, i) * 65536 + half_at(m, i + 2)
}

// "fewer than 11 bytes, or the length isn't the slice's"
#[tactic(auto, unfolding(hume::specs::Refusals::length_ok, hume::specs::Image::total_length))]
pub(crate) fn length_ok(image: &[u8]) -> bool
    ensures { result ≡ length_ok image.now }
{
    11 <= image.len() && full_at(image, 0) == image.len()
}

// The numbers in front: "5 inputs (0..8), 6 outputs (0..8), 7 rulesets R (1..32), 8 handler ruleset (below R, or 255 for
// none), 9-10 instruction count N (1..4096)."
#[derive(Clone, Copy)]
pub(crate) struct Header {
    pub inputs: usize,
    pub outputs: usize,
    pub rulesets: usize,
    pub handler: usize,
    pub size: usize,
}

impl Header {
    pub(crate) fn of(image: &[u8]) -> Header
        ensures is { HeaderOf image.now result }
        ensures small { result.size < 65536 }
    {
        Header {
            inputs: byte_at(image, 5),
            outputs: byte_at(image, 6),
            rulesets: byte_at(image, 7),
            handler: byte_at(image, 8),
            size: half_at(image, 9),
        }
    }

    #[tactic(auto, unfolding(crate::specs::Parts::ranges_ok))]
    fn in_range(self) -> bool
        ensures { result ≡ ranges_ok self.inputs self.outputs self.rulesets self.handler self.size }
    {
        self.inputs <= 8
            && self.outputs <= 8
            && (1..=32).contains(&self.rulesets)
            && (self.handler < self.rulesets || self.handler == 255) // what an image writes for none
            && (1..=4096).contains(&self.size)
    }
}

// Where the first n rulesets end, if each has a rule count of 1..16.
fn rulesets_end(image: &[u8], n: usize) -> Option<usize>
    requires { n ≤ 32 }
    ensures is { result ≡ counts_end image.now n }
    ensures small { IfSome result (λ end. end < 20000) }
{
    let mut at = 11;
    for _ in 0..n {
        let count = byte_at(image, at + 2);
        if !(1..=16).contains(&count) {
            return None;
        }
        at += 3 + 2 * count;
    }
    Some(at)
}

// "a count or handler outside its range, or the total length doesn't fit the counts"
pub(crate) fn counts_ok(image: &[u8]) -> bool
    ensures { result ≡ counts_ok image.now (program image.now) }
{
    let header = Header::of(image);
    if !header.in_range() {
        return false;
    }
    let Some(end) = rulesets_end(image, header.rulesets) else {
        return false;
    };
    end + 8 * header.size == image.len()
}
