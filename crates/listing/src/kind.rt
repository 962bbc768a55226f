// What is listed: a future, or an option on a future.
use terms::right::Right;

#[derive(Clone, Copy, PartialEq, Eq, Debug)]
pub enum Kind {
    Future,
    Option {
        right: Right,
        // in ticks
        strike: u32,
        // the number of the future
        underlying: u32,
    },
}
