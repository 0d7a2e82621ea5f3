// The refusals, by 01's names, with their numbers.
ghost use Rattle.std.specs.Prelude.{◌≡◌};
ghost use Rattle.symbols.specs.Answer.{refusal_number};

// Why a call is refused. specs/Answer.antt has 01's words on each, and the answers of the calls that are not refused.
#[derive(Clone, Copy, Debug, PartialEq, Eq)]
pub enum Refusal {
    BadPool = 10,
    BadTable,
    BadLeft,
    LongRight,
    BadSymbol,
    There,
    NotThere,
    NoRules,
    LongLine,
    BadToken,
    NoSets,
    NoLinks,
    Malformed,
}

impl Refusal {
    // Its number in 01's table.
    pub fn number(self) -> u8
        ensures { result ≡ refusal_number self }
    {
        self as u8
    }
}
