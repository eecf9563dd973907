// What turns a call away, in the order of document 01.
ghost use Rattle.std.specs.Prelude.{◌≡◌};
ghost use Rattle.gate.specs.Verdicts.{number_of};

#[derive(Clone, Copy, PartialEq, Eq, Debug)]
pub enum Refusal {
    Length,
    Version,
    Counts,
    Code,
    Card,
    Limits,
    Wires,
    Order,
}

// Its number in document 01.
impl From<Refusal> for u32 {
    ghost from_gives = { λ r n. n ≡ number_of r };

    fn from(r: Refusal) -> u32 {
        match r {
            Refusal::Length => 1,
            Refusal::Version => 2,
            Refusal::Counts => 3,
            Refusal::Code => 4,
            Refusal::Card => 5,
            Refusal::Limits => 6,
            Refusal::Wires => 7,
            Refusal::Order => 8,
        }
    }
}
