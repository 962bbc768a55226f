// A call of any kind, what it is answered, and why one is not done.
ghost use Rattle.std.specs.Prelude.{◌≡◌};
ghost use Rattle.calls.specs.declared.call.Undone.TheVariants.{Refused as refused, NoMemory as no_memory};

use rules::amendment::Amendment;
use rules::new_order::NewOrder;
use rules::receipt::Receipt;
use std::alloc::AllocError;
use terms::determination::Determination;
use terms::refusal::Refusal;

// Each comes at a time, which stands beside it.
#[derive(Clone, Copy, PartialEq, Eq, Debug)]
pub enum Call<'a> {
    // one settlement price for each product
    Roll(&'a [u32]),
    Open,
    Close,
    Enter(NewOrder),
    Amend(Amendment),
    Withdraw { participant: u32, order: u32 },
    Adjust { product: u32, price: u32 },
    Frenetic { product: u32, ticks: u32 },
    Resume,
    Request { participant: u32, trade: u32 },
    // of the first case kept on this trade
    Determine { trade: u32, verdict: Determination },
}

#[derive(Clone, Copy, PartialEq, Eq, Debug)]
pub enum Answer {
    Done,
    // so many orders left at the close
    Removed(u32),
    Received(Receipt),
    // the order left with so much
    LeftWith(u32),
    // a case on this trade is kept from now on
    CaseOn(u32),
}

// A refused call was heard, and its refusal is part of the history; the others were not made at all.
#[derive(Clone, Copy, PartialEq, Eq, Debug)]
pub enum Undone {
    Refused(Refusal),
    // no case on this trade is kept
    NoCase(u32),
    // no memory to keep another case
    NoMemory,
}

impl From<Refusal> for Undone {
    ghost from_gives = { λ refusal r. r ≡ refused refusal };

    fn from(refusal: Refusal) -> Undone {
        Undone::Refused(refusal)
    }
}

impl From<AllocError> for Undone {
    ghost from_gives = { λ _ r. r ≡ no_memory };

    fn from(_error: AllocError) -> Undone {
        Undone::NoMemory
    }
}
