// What an entered or amended order is answered: it tells what its arrival halted.
use terms::halt::Halt;

pub type Receipt = book::outcome::Receipt<Halt>;
