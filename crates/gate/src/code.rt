// Document 01, "The image": addresses and instructions.
ghost use Rattle.std.specs.Prelude.{◌≡◌, ◌+◌, ◌≤◌, ◌<◌, ◌^◌, IfSome};
ghost use Rattle.hume.specs.Tests.{every};
ghost use Rattle.hume.specs.Image.{program, byte, half, full, ruleset_at};
ghost use Rattle.hume.specs.Refusals.{field_ok, format_of, instruction_ok, code_ok};
ghost use Rattle.gate.specs.Parts.{Read, addresses_end, rules_ok, kind_of, kinds, sized, HeaderOf, fields_ok, ends_ok};

use crate::image::{Header, byte_at, full_at, half_at};

// What may stand in a field: "a of CopyInput, Consume, MaybeConsume, Write, Call and the primitives is checked in the image
// (it must exist), as is c of MkBool and MatchBool."
#[derive(Clone, Copy)]
enum Kind {
    Unused,
    Anything,
    Truth,
    Address,
    Input,
    Output,
    Ruleset,
    Primitive1,
    Primitive2,
}

impl Kind {
    // Whether x may stand there, in an image with this header.
    #[tactic(auto, unfolding(hume::specs::Refusals::field_ok))]
    fn allows(self, x: usize, header: Header) -> bool
        ensures { result ≡ field_ok (sized header) (kind_of self) x }
    {
        match self {
            Kind::Unused => x == 0,
            Kind::Anything => true,
            Kind::Truth => x < 2,
            Kind::Address => x < header.size,
            Kind::Input => x < header.inputs,
            Kind::Output => x < header.outputs,
            Kind::Ruleset => x < header.rulesets,
            Kind::Primitive1 => (1..=3).contains(&x),
            Kind::Primitive2 => (1..=22).contains(&x),
        }
    }
}

// The kinds of an instruction's three fields.
#[derive(Clone, Copy)]
struct Format {
    a: Kind,
    b: Kind,
    c: Kind,
}

const BARE: Format = Format {
    a: Kind::Unused,
    b: Kind::Unused,
    c: Kind::Unused,
};

const ANY_A: Format = Format {
    a: Kind::Anything,
    ..BARE
};

const ANY_A_AND_B: Format = Format {
    b: Kind::Anything,
    ..ANY_A
};

const ANY_B: Format = Format {
    b: Kind::Anything,
    ..BARE
};

const ANY_C: Format = Format {
    c: Kind::Anything,
    ..BARE
};

const TRUTH_C: Format = Format {
    c: Kind::Truth,
    ..BARE
};

const ADDRESS_B: Format = Format {
    b: Kind::Address,
    ..BARE
};

const INPUT_A: Format = Format {
    a: Kind::Input,
    ..BARE
};

const RULESET_A: Format = Format {
    a: Kind::Ruleset,
    ..BARE
};

const PRIMITIVE1_A: Format = Format {
    a: Kind::Primitive1,
    ..BARE
};

const PRIMITIVE2_A: Format = Format {
    a: Kind::Primitive2,
    ..BARE
};

const OUTPUT_A: Format = Format {
    a: Kind::Output,
    ..BARE
};

// By opcode, from 1. A static: a constant table would be made anew for each instruction.
static FORMATS: [Format; 40] = [
    TRUTH_C, // 1 MkBool
    ANY_C, // 2 MkInt
    ANY_C, // 3 MkFloat
    BARE, // 4 MkNone
    ANY_A, // 5 MkTuple
    ANY_A_AND_B, // 6 MkCon
    ANY_A, // 7 Push
    ANY_A, // 8 Pop
    ANY_A, // 9 Slide
    ANY_A, // 10 Copy
    ANY_A, // 11 CopyArg
    ANY_A, // 12 CreateFrame
    ANY_A, // 13 PushVar
    ANY_A, // 14 MakeVar
    ADDRESS_B, // 15 Goto
    ADDRESS_B, // 16 If
    RULESET_A, // 17 Call
    BARE, // 18 Return
    PRIMITIVE1_A, // 19 CallPrim1
    PRIMITIVE2_A, // 20 CallPrim2
    ANY_B, // 21 Raise
    BARE, // 22 StartMatches
    BARE, // 23 MatchRule
    BARE, // 24 MatchedRule
    BARE, // 25 MatchNone
    BARE, // 26 MatchAvailable
    TRUTH_C, // 27 MatchBool
    ANY_C, // 28 MatchInt
    ANY_C, // 29 MatchFloat
    ANY_A, // 30 MatchTuple
    ANY_A_AND_B, // 31 MatchCon
    ANY_B, // 32 MatchExn
    BARE, // 33 Unpack
    BARE, // 34 Reorder
    INPUT_A, // 35 CopyInput
    INPUT_A, // 36 Consume
    INPUT_A, // 37 MaybeConsume
    BARE, // 38 CheckOutputs
    OUTPUT_A, // 39 Write
    BARE, // 40 Schedule
];

fn format_at(op: usize) -> Format
    requires { (1 ≤ op) × (op ≤ 40) }
    ensures { kinds result ≡ format_of op }
{
    FORMATS[op - 1]
}

// The 8 bytes at a place: "opcode, a (1 byte), b (2), c (4)".
fn instruction_ok(image: &[u8], at: usize, header: Header) -> bool
    requires { at < 2 ^ 32 }
    ensures { result ≡ fields_ok (sized header) (byte image.now at)
        (byte image.now (at + 1)) (half image.now (at + 2)) (full image.now (at + 4)) }
{
    let op = byte_at(image, at);
    if !(1..=40).contains(&op) {
        return false;
    }
    let kinds = format_at(op);
    kinds.a.allows(byte_at(image, at + 1), header)
        && kinds.b.allows(half_at(image, at + 2), header)
        && kinds.c.allows(full_at(image, at + 4), header)
}

const GOTO: usize = 15;

const RETURN: usize = 18;

const RAISE: usize = 21;

const SCHEDULE: usize = 40;

// "The last instruction is Goto, Return, Raise or Schedule."
#[tactic(auto, unfolding(crate::specs::Parts::ends_ok))]
fn ends_ok(op: usize) -> bool
    ensures { result ≡ ends_ok op }
{
    matches!(op, GOTO | RETURN | RAISE | SCHEDULE)
}

// n rule addresses from a place on.
fn rules_ok(image: &[u8], at: usize, n: usize, size: usize) -> bool
    requires { (at < 2 ^ 32) × (n < 256) }
    ensures { result ≡ rules_ok image.now at n size }
{
    (0..n).all(|k| half_at(image, at + 2 * k) < size)
}

// Where the rulesets end, unless one has an address that is no instruction's.
fn addresses_end(image: &[u8]) -> Option<usize>
    ensures is { result ≡ addresses_end image.now }
    ensures small { IfSome result (λ end. end < 2 ^ 20) }
{
    let rulesets = byte_at(image, 7);
    let size = half_at(image, 9);
    let mut at = 11;
    for _ in 0..rulesets {
        let count = byte_at(image, at + 2);
        if size <= half_at(image, at) || !rules_ok(image, at + 3, count, size) {
            return None;
        }
        at += 3 + 2 * count;
    }
    Some(at)
}

// The instructions from a place on.
fn instructions_ok(image: &[u8], start: usize, header: Header) -> bool
    requires read { Read (ruleset_at image.now (byte image.now 7)) (2 ^ 20) start }
    requires front { HeaderOf image.now header }
    requires small { header.size < 65536 }
    ensures { result ≡ every (program image.now).size (instruction_ok (program image.now)) }
{
    (0..header.size).all(|k| instruction_ok(image, start + 8 * k, header))
}

// "an opcode, argument, unused field, address or last instruction"
pub(crate) fn code_ok(image: &[u8]) -> bool
    requires { 1 ≤ (program image.now).size }
    ensures { result ≡ code_ok (program image.now) }
{
    let Some(start) = addresses_end(image) else {
        return false;
    };
    let header = Header::of(image);
    instructions_ok(image, start, header) && ends_ok(byte_at(image, start + 8 * (header.size - 1)))
}
