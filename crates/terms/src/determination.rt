// How the exchange ends a case.
ghost use Rattle.std.specs.Prelude.{◌≡◌};
ghost use Rattle.terms.specs.Determinations.{mark_by};

use crate::mark::Mark;

#[derive(Clone, Copy, PartialEq, Eq, Debug)]
pub enum Determination {
    Upheld,
    Cancelled,
}

impl Determination {
    // What the trade reads once its case is so determined.
    pub fn mark(self) -> Mark
        ensures { result ≡ mark_by self }
    {
        match self {
            Determination::Upheld => Mark::Upheld,
            Determination::Cancelled => Mark::Cancelled,
        }
    }
}
