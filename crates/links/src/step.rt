// One step of a chain over ranges of boundaries.

// Which way a step goes over its range: `Plus` from the low to the high end, `Minus` back.
#[derive(Clone, Copy, Debug, Default, PartialEq, Eq)]
pub enum Sign {
    #[default]
    Plus,
    Minus,
}

// Where a step's range comes from: an earlier release, or the query that is being judged.
#[derive(Clone, Copy, Debug, Default, PartialEq, Eq)]
pub enum Origin {
    #[default]
    Released,
    New,
}

// A table of steps that none is written in yet holds the default ones.
#[derive(Clone, Copy, Debug, Default, PartialEq, Eq)]
pub struct Step {
    pub low: u16,
    pub high: u16,
    pub sign: Sign,
    pub origin: Origin,
}

impl Sign {
    ghost use Rattle.std.specs.Prelude.{◌≡◌};
    ghost use Rattle.links.specs.Forest.{turned};

    // The sign of the way back.
    pub fn opposite(self) -> Sign
        ensures { result ≡ turned self }
    {
        match self {
            Sign::Plus => Sign::Minus,
            Sign::Minus => Sign::Plus,
        }
    }
}

impl Step {
    ghost use Rattle.std.specs.Prelude.{◌≡◌};
    ghost use Rattle.links.specs.Chains.{start, end};
    ghost use Rattle.links.specs.Forest.{back};

    // The same step the other way.
    pub fn reversed(self) -> Step
        ensures { result ≡ back self }
    {
        Step {
            sign: self.sign.opposite(),
            ..self
        }
    }

    // The boundary that the step leaves.
    pub fn start(self) -> u16
        ensures { result ≡ start self }
    {
        match self.sign {
            Sign::Plus => self.low,
            Sign::Minus => self.high,
        }
    }

    // The boundary that the step comes to.
    pub fn end(self) -> u16
        ensures { result ≡ end self }
    {
        self.reversed().start()
    }
}
