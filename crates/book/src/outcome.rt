// What a walk down a queue comes to.
use terms::quantity::Quantity;

#[derive(Clone, Copy, PartialEq, Eq, Debug)]
pub struct Plan {
    pub trades: u32,
    pub rest: Option<Quantity>,
    pub halted: bool,
}

// What an arriving order came to.
#[derive(Clone, Copy, PartialEq, Eq, Debug)]
pub struct Swept {
    pub traded: u32,
    pub rest: Option<Quantity>,
    pub trades: u32,
    pub halted: bool,
}

// What an entered order is answered: of a halt the book tells whether there is one, and a market what it halts.
#[derive(Clone, Copy, PartialEq, Eq, Debug)]
pub struct Receipt<H> {
    pub number: u32,
    pub traded: u32,
    pub rest: u32,
    pub trades: u32,
    pub halt: H,
}

impl<H: Copy> Receipt<H> {
    ghost use Rattle.std.specs.Prelude.{◌≡◌};
    ghost use Rattle.book.specs.Receipts.{with_halt};

    // The same answer with another word on the halt.
    pub fn with_halt<K>(self, halt: K) -> Receipt<K>
        ensures { result ≡ with_halt self halt }
    {
        Receipt {
            number: self.number,
            traded: self.traded,
            rest: self.rest,
            trades: self.trades,
            halt,
        }
    }
}
