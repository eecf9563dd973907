// Document 01, "Lent besides the image": what stands on a wire.
ghost use Rattle.std.specs.Prelude.{◌≡◌, ◌+◌, ◌*◌, ◌≤◌, ◌<◌, eqb, length};
ghost use Rattle.hume.specs.Tests.{all};
ghost use Rattle.hume.specs.Image.{program};
ghost use Rattle.hume.specs.Values.{atom_ok, block_ok, one_value, wire_ok};
ghost use Rattle.hume.specs.Refusals.{wires_ok};
ghost use Rattle.gate.specs.Cells.{CellEnds, FieldsEnd};

use crate::headers::{BOOL, CONSTR, EXN, FLOAT, INT, NONE_CELL, TUPLE};
use crate::image::byte_at;

// The kinds of the two headers that have a tag.
const CONSTR_KIND: u32 = CONSTR >> 16;

const EXN_KIND: u32 = EXN >> 16;

// The bits of a Float: all but the sign, those of an infinity, the one NaN. They are told as `arith` tells them, which doesn't stand below this crate.
const MAGNITUDE: u32 = 0x7FFF_FFFF;

const INFINITY: u32 = 0x7F80_0000;

const NAN: u32 = 0x7FC0_0000;

// "1 Bool (0 or 1), 2 Int, 3 Float"; "A Float that is a NaN is 7FC00000."
#[tactic(auto, unfolding(hume::specs::Values::atom_ok))]
fn atom_ok(h: u32, x: u32) -> bool
    ensures { result ≡ atom_ok h x }
{
    match h {
        BOOL => x < 2,
        INT => true,
        FLOAT => x & MAGNITUDE <= INFINITY || x == NAN,
        _ => false,
    }
}

// "4 Tuple, 5 Constr, 6 Exn (size 1)"; "Sizes 0..255."
#[tactic(auto, unfolding(hume::specs::Values::block_ok))]
fn block_ok(h: u32, n: u32) -> bool
    ensures { result ≡ block_ok h n }
{
    if h == TUPLE {
        return n <= 255;
    }
    match h >> 16 {
        CONSTR_KIND => n <= 255,
        EXN_KIND => n == 1,
        _ => false,
    }
}

// Where the cell that begins at i ends, if one does.
#[cycle(cell_end_fields_end)]
#[inline(always)]
fn cell_end(s: &[u32], i: usize) -> Option<usize>
    ensures { CellEnds s.now i result }
{
    let h = *s.get(i)?;
    if h == NONE_CELL {
        return Some(i + 1);
    }
    let x = *s.get(i + 1)?;
    if atom_ok(h, x) {
        return Some(i + 2);
    }
    if block_ok(h, x) {
        return fields_end(s, i + 2, x);
    }
    None
}

// Where the n cells from i on end, if there are so many: "a field is again a cell". Each cell that is found leaves fewer
// words, so no size makes this run longer than the wire.
#[cycle(cell_end_fields_end)]
fn fields_end(s: &[u32], i: usize, n: u32) -> Option<usize>
    requires { (0 < i) × (i ≤ length s.now) }
    ensures { FieldsEnd s.now i n result }
{
    let mut end = i;
    for _ in 0..n {
        end = cell_end(s, end)?;
    }
    Some(end)
}

// "Otherwise the k words are exactly one value"; "None (header only, never a whole wire value)"
fn one_value(s: &[u32]) -> bool
    ensures { result ≡ one_value s.now }
{
    s.first() != Some(&NONE_CELL) && cell_end(s, 0) == Some(s.len())
}

fn zeros(s: &[u32]) -> bool
    ensures { result ≡ all (λ x. eqb x 0) s.now }
{
    s.iter().all(|x| *x == 0)
}

// "A wire is a count k (0..64), k words, then zeros. k = 0 means empty."
#[tactic(auto, using(crate::proofs::Cells::wire_long, crate::proofs::Cells::wire_dirty, crate::proofs::Cells::wire_empty, crate::proofs::Cells::wire_value))]
fn wire_ok(wires: &[u32], i: usize) -> bool
    requires { (i < 65536) × (65 * i + 65 ≤ length wires.now) }
    ensures { result ≡ wire_ok wires.now i }
{
    let start = 65 * i;
    let k = wires[start];
    if 64 < k {
        return false;
    }
    let first = start + 1;
    let end = first + k as usize;
    let past = start + 65;
    zeros(&wires[end..past]) && (k == 0 || one_value(&wires[first..end]))
}

// "Wires: 65 words each, inputs first."
pub(crate) fn wires_ok(image: &[u8], wires: &[u32]) -> bool
    ensures { result ≡ wires_ok (program image.now) wires.now }
{
    let n = byte_at(image, 5) + byte_at(image, 6);
    wires.len() == 65 * n && (0..n).all(|i| wire_ok(wires, i))
}
