// A table of which no place is free.
ghost use Rattle.std.specs.Prelude.{◌≡◌};
ghost use Rattle.terms.specs.declared.refusal.Refusal.TheVariants.{TableFull as table_full};

use terms::refusal::Refusal;

#[derive(Clone, Copy, PartialEq, Eq, Debug)]
pub struct TableFull {
    // how many places count
    pub places: u32,
}

impl From<TableFull> for Refusal {
    ghost from_gives = { λ full r. r ≡ table_full full.places };

    fn from(full: TableFull) -> Refusal {
        Refusal::TableFull(full.places)
    }
}
