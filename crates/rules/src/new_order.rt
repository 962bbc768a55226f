// An order as it is entered, in plain numbers.
use terms::duration::Duration;
use terms::side::Side;

#[derive(Clone, Copy, PartialEq, Eq, Debug)]
pub struct NewOrder {
    pub product: u32,
    pub side: Side,
    // none for a market order
    pub limit: Option<u32>,
    pub quantity: u32,
    pub participant: u32,
    pub duration: Duration,
}
