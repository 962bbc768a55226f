// A case on a trade, until it is determined: it cannot be dropped.
ghost use Rattle.std.specs.Prelude.{◌≡◌};

pub struct Case {
    pub(crate) trade: u32,
}

impl Case {
    // The number of the trade that it is on.
    pub fn trade(&self) -> u32
        ensures { result ≡ self.now.trade }
    {
        self.trade
    }
}
