// A record of the tape as plain numbers: what memory holds, whether it is a trade or not.
#[derive(Clone, Copy, PartialEq, Eq, Default, Debug)]
pub struct TradeRow {
    pub product: u32,
    pub time: u32,
    pub price: u32,
    pub quantity: u32,
    pub buy: u32,
    pub sell: u32,
    pub buyer: u32,
    pub seller: u32,
    pub established: u32,
    pub no_bust: u32,
    pub mark: u32,
    pub day: u32,
}
