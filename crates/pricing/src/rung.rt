// One rung of a ladder, as plain numbers.
#[derive(Clone, Copy, PartialEq, Eq, Default, Debug)]
pub struct Rung {
    pub level: i32,
    pub price: u32,
}
