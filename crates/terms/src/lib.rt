// The words of the market: checked numbers, the enums that calls take and answer, and every refusal.
#![tactic(auto)]

pub mod determination;
pub mod duration;
pub mod field;
pub mod halt;
pub mod malformed;
pub mod mark;
pub mod missing;
pub mod participant;
pub mod phase;
pub mod price;
pub mod quantity;
pub mod refusal;
pub mod right;
pub mod side;
pub mod stamp;
pub mod verdict;
