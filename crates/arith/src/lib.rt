// Document 01, "Primitives": the arithmetic of the machine on 32-bit words, integers in two's complement and floats as
// their bits. Every function is total: of a zero divisor `div_int` makes 0 and `mod_int` the dividend, as the definitions do.
#![tactic(auto)]

ghost use Rattle.std.specs.Prelude.{◌≡◌, ◌-◌, ◌*◌, ◌/◌, ◌^◌, ◌<◌, ◌≤◌, nat_abs};
ghost use Rattle.std.specs.Float.{binary32};
ghost use Rattle.std.specs.Float.Ieee.{nan_bits};
ghost use Rattle.hume.specs.Numbers.{int, add_int, sub_int, mul_int, div_int, mod_int, lt_int, le_int};
ghost use Rattle.hume.specs.Numbers.{float, stored, canonical as canonicalBits, add_float, sub_float, mul_float, div_float};
ghost use Rattle.hume.specs.Numbers.{eq_float, lt_float, le_float, to_float, to_int};
ghost use Rattle.arith.specs.Rounded.{Nearest};
ghost use Rattle.arith.specs.Signs.{signed};
ghost use Rattle.arith.specs.Cuts.{cut};

// ---- integers

// "Integers wrap at 32 bits".
#[tactic(auto, using(crate::proofs::Ints::add_is))]
pub fn add_int(a: u32, b: u32) -> u32
    ensures { result ≡ add_int a b }
{
    a.wrapping_add(b)
}

#[tactic(auto, using(crate::proofs::Ints::sub_is))]
pub fn sub_int(a: u32, b: u32) -> u32
    ensures { result ≡ sub_int a b }
{
    a.wrapping_sub(b)
}

#[tactic(auto, using(crate::proofs::Ints::mul_is))]
pub fn mul_int(a: u32, b: u32) -> u32
    ensures { result ≡ mul_int a b }
{
    a.wrapping_mul(b)
}

// "div goes toward zero"; "-2^31 div -1 is -2^31".
#[tactic(auto, using(crate::proofs::Ints::quotients), unfolding(hume::specs::Numbers::div_int))]
pub fn div_int(a: u32, b: u32) -> u32
    ensures { result ≡ div_int a b }
{
    if b == 0 {
        return 0;
    }
    let q = a.cast_signed().wrapping_div(b.cast_signed());
    q.cast_unsigned()
}

// "mod has the dividend's sign".
#[tactic(auto, using(crate::proofs::Ints::remainders), unfolding(hume::specs::Numbers::mod_int))]
pub fn mod_int(a: u32, b: u32) -> u32
    ensures { result ≡ mod_int a b }
{
    if b == 0 {
        return a;
    }
    let r = a.cast_signed().wrapping_rem(b.cast_signed());
    r.cast_unsigned()
}

#[tactic(auto, using(crate::proofs::Ints::read), unfolding(hume::specs::Numbers::lt_int))]
pub fn lt_int(a: u32, b: u32) -> bool
    ensures { result ≡ lt_int a b }
{
    a.cast_signed() < b.cast_signed()
}

#[tactic(auto, using(crate::proofs::Ints::read), unfolding(hume::specs::Numbers::le_int))]
pub fn le_int(a: u32, b: u32) -> bool
    ensures { result ≡ le_int a b }
{
    a.cast_signed() <= b.cast_signed()
}

// ---- floats

// A pattern's sign bit. Below it lie the exponent's field, and 23 bits for the digits after the first.
const SIGN: u32 = 1 << 31;

const DIGITS: u32 = 23;

// The exponent's field of a float whose whole part has 32 digits.
const FIELD_OF_32: u32 = 127 + 31;

// The patterns of an infinity and of the NaN that is stored.
const INFINITY: u32 = 0x7F80_0000;

const NAN: u32 = 0x7FC0_0000;

// The patterns of 1, 2^31 and -2^31.
const ONE: u32 = 0x3F80_0000;

const TWO_31: u32 = 0x4F00_0000;

const MINUS_TWO_31: u32 = 0xCF00_0000;

// Whether the pattern is a NaN's: above that of an infinity, the sign aside.
#[tactic(auto, using(crate::proofs::Floats::nan_above))]
fn is_nan(a: u32) -> bool
    ensures { result ≡ nan_bits binary32 a }
{
    INFINITY < a % SIGN
}

// "any NaN stored is 7FC00000"
#[tactic(auto, using(crate::proofs::Floats::nan_above), unfolding(hume::specs::Numbers::canonical))]
pub fn canonical(a: u32) -> u32
    ensures { result ≡ canonicalBits a }
{
    if is_nan(a) { NAN } else { a }
}

// The float that a pattern stands for. There is one NaN, and `from_bits` takes no pattern of it.
#[tactic(auto, using(crate::proofs::Floats::float_nan), unfolding(hume::specs::Numbers::float))]
fn of_bits(a: u32) -> f32
    ensures { result ≡ float a }
{
    if is_nan(a) {
        f32::NAN
    } else {
        f32::from_bits(a)
    }
}

// The pattern that is stored for a float.
#[tactic(auto, using(crate::proofs::Floats::stored_nan), unfolding(hume::specs::Numbers::stored))]
fn to_bits(x: f32) -> u32
    ensures { result ≡ stored x }
{
    if x.is_nan() { NAN } else { x.to_bits() }
}

// The seven differ in the operator alone: one function that took it as a closure would read no plainer.
#[tactic(auto, unfolding(hume::specs::Numbers::add_float))]
pub fn add_float(a: u32, b: u32) -> u32
    ensures { result ≡ add_float a b }
{
    to_bits(of_bits(a) + of_bits(b))
}

#[tactic(auto, unfolding(hume::specs::Numbers::sub_float))]
pub fn sub_float(a: u32, b: u32) -> u32
    ensures { result ≡ sub_float a b }
{
    to_bits(of_bits(a) - of_bits(b))
}

#[tactic(auto, unfolding(hume::specs::Numbers::mul_float))]
pub fn mul_float(a: u32, b: u32) -> u32
    ensures { result ≡ mul_float a b }
{
    to_bits(of_bits(a) * of_bits(b))
}

#[tactic(auto, unfolding(hume::specs::Numbers::div_float))]
pub fn div_float(a: u32, b: u32) -> u32
    ensures { result ≡ div_float a b }
{
    to_bits(of_bits(a) / of_bits(b))
}

#[tactic(auto, unfolding(hume::specs::Numbers::eq_float))]
pub fn eq_float(a: u32, b: u32) -> bool
    ensures { result ≡ eq_float a b }
{
    of_bits(a) == of_bits(b)
}

#[tactic(auto, unfolding(hume::specs::Numbers::lt_float))]
pub fn lt_float(a: u32, b: u32) -> bool
    ensures { result ≡ lt_float a b }
{
    of_bits(a) < of_bits(b)
}

#[tactic(auto, unfolding(hume::specs::Numbers::le_float))]
pub fn le_float(a: u32, b: u32) -> bool
    ensures { result ≡ le_float a b }
{
    of_bits(a) <= of_bits(b)
}

// ---- from one to the other

// The bits of the float nearest to n. Moved up by its leading zeros n has 32 digits: the upper 24 are kept, and the lower 8
// round up above the half of 256, at the half only to make an odd digit even. The first digit kept counts one in the
// exponent's field, and a carry out of the 24 one more.
#[tactic(auto, using(crate::proofs::Rounding::nearest_is))]
fn nearest(n: u32) -> u32
    requires { (0 < n) × (n ≤ 2 ^ 31) }
    ensures { Nearest n result }
{
    let z = n.leading_zeros();
    let m = n << z;
    let q = m >> 8;
    let up = (m % 256 + 127 + q % 2) >> 8;
    ((FIELD_OF_32 - 1 - z) << DIGITS) + q + up
}

// "toFloat.i rounds to nearest, ties to even"
#[tactic(auto, using(crate::proofs::Rounding::to_float_zero))]
pub fn to_float(a: u32) -> u32
    ensures { result ≡ to_float a }
{
    if a == 0 {
        return 0;
    }
    let n = nearest(a.cast_signed().unsigned_abs());
    if a < SIGN { n } else { SIGN + n }
}

// The digits d, which stand for d * 2 ^ (x - 150), without the fraction.
#[tactic(auto, using(crate::proofs::Cutting::dropped_is))]
fn dropped(d: u32, x: u32) -> u32
    requires { (d < 2 ^ 24) × (127 ≤ x) × (x < 158) }
    ensures { result ≡ d * 2 ^ (x - 1) / 2 ^ 149 }
{
    (d << 8) >> (FIELD_OF_32 - x)
}

// The word of a magnitude, taken negative where s is true.
#[tactic(auto, using(crate::proofs::Ints::signs))]
fn with_sign(s: bool, n: u32) -> u32
    ensures { result ≡ signed s n }
{
    if s { n.wrapping_neg() } else { n }
}

// "toInt.f drops the fraction"; "NaN or outside -2^31..2^31-1 raises exception 2". The patterns from that of 1 to below that
// of 2^31 have a whole part to work out. Below lies 0, and above -2^31 alone is in range.
#[tactic(auto, using(crate::proofs::Cutting::cuts))]
pub fn to_int(a: u32) -> Option<u32>
    ensures { cut result ≡ to_int a }
{
    let b = a % SIGN;
    if b < ONE {
        Some(0)
    } else if b < TWO_31 {
        let t = dropped(b % (1 << DIGITS) + (1 << DIGITS), b >> DIGITS);
        Some(with_sign(SIGN <= a, t))
    } else if a == MINUS_TWO_31 {
        Some(1 << 31)
    } else {
        None
    }
}
