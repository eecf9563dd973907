// A run sheet's words, and the call that it asks for.
ghost use Rattle.std.specs.Prelude.{◌≡◌, ◌++◌, ◌+◌, ◌*◌, ◌≤◌, length, take, replicate};
ghost use Rattle.hume.specs.Image.{program};
ghost use Rattle.hume.specs.Refusals.{image_refusal};
ghost use Rattle.hume.specs.Sheet.{sheet_word, sheet_words, counting, first_order, sheet_given};
ghost use Rattle.hume.specs.Call.{answer};
ghost use Rattle.gate.specs.Verdicts.{number};
ghost use Rattle.engine.specs.Reports.{reported};

use crate::{SHEET_HEAD, WIRE, WORD};
use engine::{Report, run};
use gate::image::{byte_at, full_at};

// "all big-endian 32-bit"
pub(crate) fn word(sheet: &[u8], i: usize) -> u32
    requires { i ≤ 1000 }
    ensures { result ≡ sheet_word sheet.now i }
{
    full_at(sheet, WORD * i) as u32
}

// The words of the sheet from the word `from` on, as many as there is room for.
pub(crate) fn words(sheet: &[u8], from: usize, out: &mut [u32])
    requires { from + length out.old ≤ 1000 }
    ensures { out.new ≡ sheet_words sheet.now from (length out.old) }
{
    for (i, place) in out.iter_mut().enumerate() {
        *place = word(sheet, from + i);
    }
}

// "order 0, 1, 2..." of one ruleset.
fn count_up(order: &mut [u32])
    requires { length order.old ≤ 16 }
    ensures { order.new ≡ counting 0 (length order.old) }
{
    for (i, rule) in order.iter_mut().enumerate() {
        *rule = i as u32;
    }
}

// An accepted image, and the sheet after it.
#[derive(Clone, Copy)]
pub(crate) struct Asked<'a> {
    pub(crate) image: &'a [u8],
    pub(crate) sheet: &'a [u8],
    ghost accepted: { image_refusal image.now ≡ 0 },
}

impl Asked<'_> {
    // "the input wires", "Outputs start empty": how many words they have.
    fn first_wires(&self, wires: &mut [u32]) -> usize
        requires { 1040 ≤ length wires.old }
        ensures { (result ≤ 1040) × (take result wires.new ≡ sheet_words self.now.sheet.now 45 (65 * (program self.now.image.now).inputs)
            ++ replicate (65 * (program self.now.image.now).outputs) 0) }
    {
        let inputs = WIRE * byte_at(self.image, 5);
        let both = inputs + WIRE * byte_at(self.image, 6);
        words(self.sheet, SHEET_HEAD, &mut wires[..inputs]);
        wires[inputs..both].fill(0);
        both
    }

    // "order 0, 1, 2...", ruleset after ruleset: how many words it has. The counts are read where they stand: of `gate::layout` they would be the
    // differences of neighbours.
    fn first_order(&self, order: &mut [u32]) -> usize
        requires { 512 ≤ length order.old }
        ensures { (result ≤ 512) × (take result order.new ≡ first_order (program self.now.image.now) (program self.now.image.now).rulesets) }
    {
        let mut at = 11;
        let mut done = 0;
        for _r in 0..byte_at(self.image, 7) {
            let n = byte_at(self.image, at + 2);
            count_up(&mut order[done..done + n]);
            done += n;
            at += 3 + 2 * n;
        }
        done
    }

    // "Outputs start empty, order 0, 1, 2...": the call that the sheet asks for.
    pub(crate) fn run(&self) -> Report
        ensures verdict { number result.verdict ≡ (answer (sheet_given self.now.image.now self.now.sheet.now)).refusal }
        ensures figures { reported result ≡ (answer (sheet_given self.now.image.now self.now.sheet.now)).figures }
    {
        // Arrays of the greatest sizes: the program has no heap.
        let mut card = [0u32; 40];
        let mut stack = [0u32; 4096];
        let mut heap = [0u32; 16384];
        let mut wires = [0u32; 1040];
        let mut order = [0u32; 512];
        words(self.sheet, 5, &mut card);
        let wired = self.first_wires(&mut wires);
        let rules = self.first_order(&mut order);
        run(
            self.image,
            &card,
            word(self.sheet, 2),
            word(self.sheet, 3),
            word(self.sheet, 4),
            &mut stack,
            &mut heap,
            &mut wires[..wired],
            &mut order[..rules],
        )
    }
}
