// What an option gives the right to: to buy its underlying future at the strike, or to sell it.
#[derive(Clone, Copy, PartialEq, Eq, Debug)]
pub enum Right {
    Call,
    Put,
}
