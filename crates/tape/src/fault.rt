// Why a tape does not take a trade.
#[derive(Clone, Copy, PartialEq, Eq, Debug)]
pub enum AddFault {
    // there is no room
    Full,
    // its time is below that of the last record, which is told
    TimeFell(u32),
}
