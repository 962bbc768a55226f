// What a market keeps beside its products.
use terms::phase::Phase;

#[derive(Clone, Copy, PartialEq, Eq, Default, Debug)]
pub struct State {
    pub phase: Phase,
    pub day: u32,
    // of the last accepted call
    pub time: u32,
    // the last one given
    pub stamp: u32,
    // the whole market, by one of its futures
    pub halted: bool,
}
