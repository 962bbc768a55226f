// A trade that is not on the tape: the number asked for, and how many trades there are.
#[derive(Clone, Copy, PartialEq, Eq, Debug)]
pub struct Missing {
    pub number: u32,
    pub count: u32,
}
