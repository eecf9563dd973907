// What kind of word 32 bits are.
ghost use Rattle.std.specs.Prelude.{◌≡◌, ◌||◌};
ghost use Rattle.hume.specs.Words.{Word, bits, is_null, is_value};
ghost use Rattle.laws.specs.Sizes.{Small};
ghost use Rattle.engine.specs.Kinds.{place_of as place};

// "A stack or field word is type × 2^28 + payload": a reference to the place 0; None; a frame link with fp 0 and n 0.
pub(crate) const REFERENCE: u32 = 1 << 28;

pub(crate) const NONE: u32 = 2 << 28;

// The three words that a call saves: the return address, the ruleset with rp, the static link of slp.
pub(crate) const RETURN: u32 = 3 << 28;

pub(crate) const RULES: u32 = 4 << 28;

pub(crate) const FRAME: u32 = 5 << 28;

pub(crate) const LINK: u32 = 6 << 28;

// The heap place that a reference is to.
pub(crate) fn place_of(w: u32) -> Option<usize>
    ensures { result ≡ place w }
{
    if w / REFERENCE != 1 {
        return None;
    }
    Some((w % REFERENCE) as usize)
}

// "a reference or None"
pub(crate) fn is_value(w: u32) -> bool
    ensures { (v : Word) → w ≡ bits v → Small v → result ≡ is_value v }
{
    w / REFERENCE == 1 || w == NONE
}

// "null, a reference or None"
pub(crate) fn is_plain(w: u32) -> bool
    ensures { (v : Word) → w ≡ bits v → Small v → result ≡ (is_null v || is_value v) }
{
    w == 0 || is_value(w)
}
