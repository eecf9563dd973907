// An accepted image, read where it lies, with what is found once of it: what is known of it makes every test of an index
// unnecessary.
ghost use Rattle.std.specs.Prelude.{◌≡◌, ℕ, ◌+◌, ◌*◌, ◌≤◌, ◌<◌, length, get_or};
ghost use Rattle.std.proofs.Props.{props};
ghost use Rattle.gate.specs.Parts.{start_at};
ghost use Rattle.hume.specs.Image.{program, code_at, order_at, half as half_of, full as full_of};
ghost use Rattle.laws.specs.Accepted.{CardFits, OrderFits};
ghost use Rattle.engine.specs.Fits.{Imaged, Located, Handler-prop};
ghost use Rattle.engine.specs.Outcomes.{cycle_table, Handled, Handled-prop};

use gate::Start;

// The ruleset that handles exceptions, and where it is entered.
#[derive(Clone, Copy)]
pub struct Handler {
    pub ruleset: usize,
    pub entry: usize,
}

// What a run goes by and never writes: an accepted image, where each ruleset begins in it and in the rule order, the card, Table 5,
// where the instructions begin, how many wires there are, and the handler with its entry.
#[derive(Clone, Copy)]
pub struct Code<'a> {
    pub image: &'a [u8],
    pub rulesets: &'a [Start],
    pub card: &'a [u32],
    pub cycles: &'a [u16],
    pub start: usize,
    pub inputs: usize,
    pub outputs: usize,
    pub handler: Option<Handler>,
    pub ghost imaged: { Imaged image.now } by { Prim.hlevel (props, Handler-prop) },
    pub ghost located: { Located image.now rulesets.now },
    pub ghost prices: { CardFits card.now },
    pub ghost cycled: { cycles.now ≡ cycle_table },
    pub ghost started: { start ≡ code_at image.now 0 },
    pub ghost tables: { (r : ℕ) → r < (program image.now).rulesets → (start_at rulesets.now r).image + 3 + 2 * (program image.now).count r ≤ length image.now },
    pub ghost instructions: { start + 8 * (program image.now).size ≡ length image.now },
    pub ghost wires_in: { inputs ≡ (program image.now).inputs },
    pub ghost wires_out: { outputs ≡ (program image.now).outputs },
    pub ghost handled: { Handled (program image.now) handler } by { Prim.hlevel (props, Handled-prop) },
}

// "Big-endian." These read as gate's `half_at` and `full_at`, but need no test of the index, which would cost at each instruction. Numbers are
// widened by `as`, which is proved to lose nothing: what `from` gives, each proof here would have to be told.
fn half(image: &[u8], i: usize) -> u16
    requires { i + 2 ≤ length image.now }
    ensures { result ≡ half_of image.now i }
{
    image[i] as u16 * 256 + image[i + 1] as u16
}

fn full(image: &[u8], i: usize) -> u32
    requires { i + 4 ≤ length image.now }
    ensures { result ≡ full_of image.now i }
{
    half(image, i) as u32 * 65536 + half(image, i + 2) as u32
}

impl<'a> Code<'a> {
    pub(crate) fn new(
        image: &'a [u8],
        rulesets: &'a [Start],
        card: &'a [u32],
        cycles: &'a [u16],
    ) -> Code<'a>
        requires imaged { Imaged image.now }
        requires located { Located image.now rulesets.now }
        requires prices { CardFits card.now }
        requires cycled { cycles.now ≡ cycle_table }
        requires in_bounds { 11 ≤ length image.now }
        ensures { (result.image.now ≡ image.now) × (result.card.now ≡ card.now) }
    {
        let start = rulesets[image[7] as usize].image;
        let inputs = image[5] as usize;
        let outputs = image[6] as usize;
        let ruleset = image[8] as usize;
        // "handler ruleset (255 none)"
        let handler = if ruleset == 255 {
            None
        } else {
            Some(Handler {
                ruleset,
                entry: half(image, rulesets[ruleset].image) as usize,
            })
        };
        Code {
            image,
            rulesets,
            card,
            cycles,
            start,
            inputs,
            outputs,
            handler,
        }
    }

    // ---- rulesets

    // "entry address (2 bytes)" of the ruleset a
    #[tactic(auto, using(crate::proofs::Imaging::entry_at, crate::proofs::Imaging::entry_small))]
    pub(crate) fn entry_of(&self, a: usize) -> usize
        requires { a < (program self.now.image.now).rulesets }
        ensures { (result ≡ (program self.now.image.now).entry a) × (result < 4096) }
    {
        half(self.image, self.rulesets[a].image) as usize
    }

    // "rule count (1 byte, 1..16)" of the ruleset r
    #[tactic(auto, using(crate::proofs::Imaging::count_at))]
    pub(crate) fn count_of(&self, r: usize) -> usize
        requires { r < (program self.now.image.now).rulesets }
        ensures { (result ≡ (program self.now.image.now).count r) × (result ≤ 16) }
    {
        self.image[self.rulesets[r].image + 2] as usize
    }

    // where the order of the ruleset r begins
    pub(crate) fn order_of(&self, r: usize) -> usize
        requires { r < (program self.now.image.now).rulesets }
        ensures { result ≡ order_at (program self.now.image.now) r }
    {
        self.rulesets[r].order
    }

    // "rule addresses (2 each)": that of the rule at the order position k of the ruleset rs
    pub(crate) fn rule_at(&self, order: &[u32], rs: usize, k: usize) -> usize
        requires order_fits { OrderFits (program self.now.image.now) order.now }
        requires rs_bound { rs < (program self.now.image.now).rulesets }
        requires k_bound { k < (program self.now.image.now).count rs }
        ensures { (result ≡ (program self.now.image.now).rule rs (get_or order.now (order_at (program self.now.image.now) rs + k) 0)) × (result < 4096) }
    {
        let o = self.order_of(rs) + k;
        let rule = order[o] as usize;
        half(self.image, self.rulesets[rs].image + 3 + 2 * rule) as usize
    }

    // ---- instructions: "N instructions of 8 bytes: opcode, a (1 byte), b (2), c (4)"

    #[tactic(auto, using(crate::proofs::Imaging::opcode_is))]
    pub(crate) fn opcode_at(&self, pc: usize) -> usize
        requires { pc < (program self.now.image.now).size }
        ensures { (result ≡ (program self.now.image.now).opcode pc) × (1 ≤ result) × (result ≤ 40) }
    {
        self.image[self.start + 8 * pc] as usize
    }

    #[tactic(auto, using(crate::proofs::Imaging::a_is))]
    pub(crate) fn a_at(&self, pc: usize) -> u8
        requires { pc < (program self.now.image.now).size }
        ensures { result ≡ (program self.now.image.now).arg_a pc }
    {
        self.image[self.start + 8 * pc + 1]
    }

    #[tactic(auto, using(crate::proofs::Imaging::b_is))]
    pub(crate) fn b_at(&self, pc: usize) -> u16
        requires { pc < (program self.now.image.now).size }
        ensures { result ≡ (program self.now.image.now).arg_b pc }
    {
        half(self.image, self.start + 8 * pc + 2)
    }

    #[tactic(auto, using(crate::proofs::Imaging::c_is))]
    pub(crate) fn c_at(&self, pc: usize) -> u32
        requires { pc < (program self.now.image.now).size }
        ensures { result ≡ (program self.now.image.now).arg_c pc }
    {
        full(self.image, self.start + 8 * pc + 4)
    }
}
