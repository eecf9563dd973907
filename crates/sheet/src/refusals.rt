// What turns an input away: what turns the call away, or the run sheet.
ghost use Rattle.std.specs.Prelude.{◌≡◌};
ghost use Rattle.sheet.specs.Said.{number_of};
ghost use Rattle.sheet.specs.declared.refusals.TurnedAway.TheVariants.{Call};

use gate::Refusal;

#[derive(Clone, Copy, PartialEq, Eq, Debug)]
pub(crate) enum TurnedAway {
    Call(Refusal),
    Sheet,
}

impl From<Refusal> for TurnedAway {
    ghost from_gives = { λ r t. t ≡ Call r };

    fn from(r: Refusal) -> TurnedAway {
        TurnedAway::Call(r)
    }
}

// Its number in document 01: "9 | run sheet length or version".
impl From<TurnedAway> for u32 {
    ghost from_gives = { λ t n. n ≡ number_of t };

    fn from(t: TurnedAway) -> u32 {
        match t {
            TurnedAway::Call(r) => u32::from(r),
            TurnedAway::Sheet => 9,
        }
    }
}
