// An entry whose numbers are checked, beside the product that it is for.
use listing::product::Product;
use terms::participant::Participant;
use terms::price::Price;
use terms::quantity::Quantity;

#[derive(Clone, Copy, PartialEq, Eq, Debug)]
pub struct Numbers {
    // none for a market order
    pub limit: Option<Price>,
    pub quantity: Quantity,
    pub participant: Participant,
}

#[derive(Clone, Copy, PartialEq, Eq, Debug)]
pub struct Admitted {
    pub product: Product,
    pub limit: Price,
    pub quantity: Quantity,
    pub participant: Participant,
}
