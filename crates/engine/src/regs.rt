// The registers by value, what a turn of the machine gives back, and what an instruction costs.
ghost use Rattle.std.specs.Prelude.{◌≡◌, ℕ, ◌≤◌, ◌<◌, max, false, is_some, ltb};
ghost use Rattle.engine.specs.Limits.{Limits, Limited};
ghost use Rattle.engine.specs.Turns.{Charging, goes_on, halt};

use super::Ending;

// What is known of them (`Fit`) is a clause of each method and no ghost field: the next registers are made before they are charged, and
// may lie beyond the limits until then. So is what ties them to a buffer (`Refs`, `Framed`, `Blocks`), which they don't hold.
#[derive(Clone, Copy)]
pub struct Regs {
    pub pc: usize,
    pub sp: usize,
    pub hp: usize,
    pub fp: usize,
    pub lp: usize,
    pub slp: usize,
    pub rp: usize,
    pub mp: usize,
    pub inp: usize,
    pub rs: usize,
    pub steps: usize,
    pub left: usize,
    pub peak: usize,
}

// The registers after a turn, and how the machine ended, if it did.
#[derive(Clone, Copy)]
pub struct Turn {
    pub regs: Regs,
    pub ending: Option<Ending>,
}

impl Turn {
    pub(crate) fn goes_on(self) -> bool
        ensures { result ≡ goes_on self }
    {
        self.ending.is_none()
    }
}

// Whether n words break the limit, where there is one.
fn exceeds(n: usize, limit: Option<usize>) -> bool
    ensures { (l : ℕ) → Limited limit n l → result ≡ ltb l n }
{
    match limit {
        Some(most) => most < n,
        None => false,
    }
}

impl Regs {
    // "An instruction that gives any ending but 0 changes nothing, and pc stays on it."
    pub(crate) fn halt(self, e: Ending) -> Turn
        ensures { result ≡ halt self e }
    {
        Turn {
            regs: self,
            ending: Some(e),
        }
    }

    // "then time, then depth after it, then heap after it": the next registers, charged, or the limit that is broken. An area
    // that the instruction can't make longer has no limit here, and nothing is tested.
    pub(crate) fn charge(
        self,
        cost: usize,
        next: Regs,
        stack: Option<usize>,
        heap: Option<usize>,
    ) -> Turn
        requires steps { self.steps < 4294967296 }
        requires no_deeper { is_some stack ≡ false → next.sp ≤ self.peak }
        ensures { (lim : Limits) → Limited stack next.sp lim.stack → Limited heap next.hp lim.heap → Charging lim self cost next result }
    {
        if self.left < cost {
            return self.halt(Ending::Time);
        }
        if exceeds(next.sp, stack) {
            return self.halt(Ending::Stack);
        }
        if exceeds(next.hp, heap) {
            return self.halt(Ending::Heap);
        }
        let mut paid = next;
        paid.steps = self.steps + 1;
        paid.left = self.left - cost;
        paid.peak = self.peak;
        if stack.is_some() && self.peak < next.sp {
            paid.peak = next.sp;
        }
        Turn {
            regs: paid,
            ending: None,
        }
    }
}
