// The close of a session.
use crate::order::Order;
use terms::duration::Duration;

#[derive(Clone, Copy, PartialEq, Eq, Debug)]
pub struct Close {
    // whether the day ends with it
    pub day_ends: bool,
    pub day: u32,
    // how many days an order until cancelled may stay
    pub limit: u32,
}

impl Close {
    ghost use Rattle.std.specs.Prelude.{◌≡◌};
    ghost use Rattle.orders.specs.Closes.{ends};

    // Whether the order's duration ends at this close.
    pub(crate) fn ends(self, order: Order) -> bool
        ensures { result ≡ ends self order.entered order.duration }
    {
        match order.duration {
            Duration::Now => false,
            Duration::Session => true,
            Duration::Day => self.day_ends,
            Duration::Until(date) => self.day_ends && date <= self.day,
            Duration::UntilCancelled => {
                let stay = (u64::from(order.entered) + u64::from(self.limit)).saturating_sub(1);
                self.day_ends && stay <= u64::from(self.day)
            }
        }
    }
}
