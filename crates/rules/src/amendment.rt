// What a resting order is to become, in plain numbers.
#[derive(Clone, Copy, PartialEq, Eq, Debug)]
pub struct Amendment {
    pub participant: u32,
    // its number
    pub order: u32,
    pub price: u32,
    // open from now on
    pub quantity: u32,
}
