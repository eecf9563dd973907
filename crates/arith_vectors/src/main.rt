// Folds the results of the arithmetic on pseudo-random and corner operands into sums, and writes a line for each: the
// operation, the class or part, and the sum. vectors/arith.rs makes the same operands, as the comments here say, takes the
// results from Rust's i32 and f32, and writes the lines to compare with:
//
//     rustc -O vectors/arith.rs -o /tmp/x && /tmp/x > crates/arith_vectors/stdout
//
// Operations 0 to 6 are add, sub, mul, div, mod, lt and le of integers, 7 canonical, 8 to 14 add, sub, mul, div, eq, lt and
// le of floats, 15 to_float and 16 to_int.
#![tactic(auto)]

use std::io;

// ---- operands

// A source of words.
#[derive(Drop)]
struct Words {
    state: u32,
}

impl Words {
    // The state, which s * 1664525 + 1013904223 modulo 2^32 follows after s.
    fn step(&mut self) -> u32 {
        let s = self.state;
        self.state = s.wrapping_mul(1664525).wrapping_add(1013904223);
        s
    }

    // The upper half of the state, then that of the next.
    fn word(&mut self) -> u32 {
        let upper = self.step() & 0xFFFF_0000;
        upper | (self.step() >> 16)
    }
}

// A class of operands: it makes one of any word.
trait Class: Copy {
    fn operand(self, w: u32) -> u32;
}

// The integers: the corners, what is near them, small ones, near powers of two, ties of to_float, and any.
#[derive(Clone, Copy)]
enum Integer {
    Zero,
    One,
    MinusOne,
    Least,
    Greatest,
    Small,
    MinusSmall,
    NearGreatest,
    NearLeast,
    Hundreds,
    MinusThousands,
    NearPower,
    Tie,
    MinusTie,
    Any,
}

const INTEGERS: [Integer; 16] = [
    Integer::Zero,
    Integer::One,
    Integer::MinusOne,
    Integer::Least,
    Integer::Greatest,
    Integer::Small,
    Integer::MinusSmall,
    Integer::NearGreatest,
    Integer::NearLeast,
    Integer::Hundreds,
    Integer::MinusThousands,
    Integer::NearPower,
    Integer::Tie,
    Integer::MinusTie,
    Integer::Any,
    Integer::Any,
];

// An integer of 25 to 31 digits halfway between two of 24.
fn tie(w: u32) -> u32 {
    ((1 << 30) + w / 128 % (1 << 23) * 128 + 64) >> (w % 7)
}

impl Class for Integer {
    fn operand(self, w: u32) -> u32 {
        match self {
            Integer::Zero => 0,
            Integer::One => 1,
            Integer::MinusOne => u32::MAX,
            Integer::Least => 1 << 31,
            Integer::Greatest => (1 << 31) - 1,
            Integer::Small => w % 32,
            Integer::MinusSmall => (w % 32).wrapping_neg(),
            Integer::NearGreatest => (1 << 31) - w % 32,
            Integer::NearLeast => (1 << 31) + w % 32,
            Integer::Hundreds => w % 1000,
            Integer::MinusThousands => (w % 70000).wrapping_neg(),
            // from 8 below to 7 above it
            Integer::NearPower => (1u32 << (w / 16 % 32)).wrapping_sub(8).wrapping_add(w % 16),
            Integer::Tie => tie(w),
            Integer::MinusTie => tie(w).wrapping_neg(),
            Integer::Any => w,
        }
    }
}

// The floats: zeros, subnormals, near the least normal number, infinities, NaNs, near powers of two, few digits, around
// 2^24 (with the former: ties of add and sub), 13 digits (ties of mul), the same with results that are subnormal, large,
// the largest, near 1, powers of two, and any.
#[derive(Clone, Copy)]
enum Float {
    Zero,
    Subnormal,
    NearLeastNormal,
    Infinity,
    Nan,
    AbovePower,
    BelowPower,
    FewDigits,
    NearTwo24,
    Digits13,
    SmallDigits13,
    Large,
    Largest,
    NearOne,
    Power,
    Any,
}

const FLOATS: [Float; 16] = [
    Float::Zero,
    Float::Subnormal,
    Float::NearLeastNormal,
    Float::Infinity,
    Float::Nan,
    Float::AbovePower,
    Float::BelowPower,
    Float::FewDigits,
    Float::NearTwo24,
    Float::Digits13,
    Float::SmallDigits13,
    Float::Large,
    Float::Largest,
    Float::NearOne,
    Float::Power,
    Float::Any,
];

// The bit of a float's sign, and those of its digits. Between them lies the exponent's field.
const SIGN: u32 = 0x8000_0000;

const DIGITS: u32 = 0x007F_FFFF;

// The bits of a float of the sign of w.
fn float_bits(w: u32, exponent: u32, digits: u32) -> u32 {
    (w & SIGN) | (exponent % 256) << 23 | (digits & DIGITS)
}

impl Class for Float {
    fn operand(self, w: u32) -> u32 {
        match self {
            Float::Zero => float_bits(w, 0, 0),
            Float::Subnormal => float_bits(w, 0, w),
            Float::NearLeastNormal => (w & SIGN) | (DIGITS - 7 + w % 16),
            Float::Infinity => float_bits(w, 255, 0),
            Float::Nan => float_bits(w, 255, w % DIGITS + 1),
            Float::AbovePower => float_bits(w, w / 16, w % 16),
            Float::BelowPower => float_bits(w, w / 16, DIGITS - w % 16),
            Float::FewDigits => float_bits(w, 120 + w % 30, (w / 32 % 4) << 21),
            Float::NearTwo24 => float_bits(w, 147 + w / 1024 % 8, w),
            Float::Digits13 => float_bits(w, 125 + w % 4, (w / 16 % 4096) << 11),
            Float::SmallDigits13 => float_bits(w, 52 + w % 16, (w / 16 % 4096) << 11),
            Float::Large => float_bits(w, 240 + w / 1024 % 15, w),
            Float::Largest => float_bits(w, 254, DIGITS - w % 16),
            Float::NearOne => float_bits(w, 117 + w / 1024 % 21, w),
            Float::Power => float_bits(w, 124 + w % 8, 0),
            Float::Any => w,
        }
    }
}

// The word 512 below to 511 above a multiple of 2^22, wrapped.
fn around(n: u32) -> u32 {
    ((n >> 10) << 22).wrapping_add(n % 1024).wrapping_sub(512)
}

// ---- sums

const PRIME: u64 = 4294967311;

// The sum with one result more: h * 16777619 + r modulo the prime. One result that differs always shows, and of several it
// is as good as certain: in a power of two, an even number of wrong signs would not show.
fn fold(h: u64, r: u32) -> u64 {
    (h % PRIME * 16777619 + u64::from(r)) % PRIME
}

fn line(rt: &impl Print, op: u8, part: u8, h: u64) -> io::Result<()> {
    println!(rt; "{op} {part} {h}")
}

// A line for each class, of 65536 pairs: the first operand is of the class, the second of each in turn.
fn pairs<C: Class, F: Fn(u32, u32) -> u32>(
    rt: &impl Print,
    op: u8,
    classes: &[C],
    apply: F,
) -> io::Result<()>
    requires { F.IsAlwaysCallable apply }
{
    for (part, first) in (0..16).zip(classes) {
        let mut words = Words {
            state: u32::from(op) * 16 + u32::from(part),
        };
        let mut h = 0;
        for second in classes.iter().cycle().take(65536) {
            let a = first.operand(words.word());
            let b = second.operand(words.word());
            h = fold(h, apply(a, b));
        }
        line(rt, op, part, h)?;
    }
    Ok(())
}

// A line for each sixteenth of the words around every multiple of 2^22, the parts numbered from 16 on. For to_int these are
// all powers of two with both signs, the infinities and the quiet NaN, for to_float all powers of two from 2^22 on.
fn near<F: Fn(u32) -> u32>(rt: &impl Print, op: u8, apply: F) -> io::Result<()>
    requires { F.IsAlwaysCallable apply }
{
    for part in 0..16u8 {
        let from = u32::from(part) << 16;
        let h = (from..from + 65536).fold(0, |h, n| fold(h, apply(around(n))));
        line(rt, op, 16 + part, h)?;
    }
    Ok(())
}

// No float has the whole part 305419896, which has 26 digits: it stands for none.
fn whole(a: u32) -> u32 {
    arith::to_int(a).unwrap_or(305419896)
}

fn main(rt: HostRuntime) -> io::Result<()> {
    pairs(&rt, 0, &INTEGERS, arith::add_int)?;
    pairs(&rt, 1, &INTEGERS, arith::sub_int)?;
    pairs(&rt, 2, &INTEGERS, arith::mul_int)?;
    pairs(&rt, 3, &INTEGERS, arith::div_int)?;
    pairs(&rt, 4, &INTEGERS, arith::mod_int)?;
    pairs(&rt, 5, &INTEGERS, |a, b| arith::lt_int(a, b).into())?;
    pairs(&rt, 6, &INTEGERS, |a, b| arith::le_int(a, b).into())?;
    pairs(&rt, 7, &FLOATS, |a, _b| arith::canonical(a))?;
    pairs(&rt, 8, &FLOATS, arith::add_float)?;
    pairs(&rt, 9, &FLOATS, arith::sub_float)?;
    pairs(&rt, 10, &FLOATS, arith::mul_float)?;
    pairs(&rt, 11, &FLOATS, arith::div_float)?;
    pairs(&rt, 12, &FLOATS, |a, b| arith::eq_float(a, b).into())?;
    pairs(&rt, 13, &FLOATS, |a, b| arith::lt_float(a, b).into())?;
    pairs(&rt, 14, &FLOATS, |a, b| arith::le_float(a, b).into())?;
    pairs(&rt, 15, &INTEGERS, |a, _b| arith::to_float(a))?;
    pairs(&rt, 16, &FLOATS, |a, _b| whole(a))?;
    near(&rt, 15, arith::to_float)?;
    near(&rt, 16, whole)?;
    Ok(())
}
