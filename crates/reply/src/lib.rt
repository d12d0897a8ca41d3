// Why a call declines. A check answers `Result<(), Refusal>`.
#![tactic(auto)]

ghost use Rattle.std.specs.Prelude.{◌≡◌};
ghost use Rattle.reply.specs.Refusals.{refusal_number, declined_number};

// One case for each number of 01's table "Where each call can decline".
#[derive(Clone, Copy, Debug, PartialEq, Eq)]
pub enum Refusal {
    // N, W or T out of range, a wrong length, or a note that names no slot
    BadSizes,
    // a clock out of range, unequal clocks, or a wrong open epoch
    BadClock,
    // a header neither free nor proper, or a survivor with key 0
    BadSlot,
    // two kept slots equal in uid and epoch, or two survivors of one key
    Duplicate,
    NoThread,
    AlreadyOpen,
    NotOpen,
    // key 0, a value or a list of a wrong length, or an unknown kind of change
    BadArgument,
    // a later epoch has this key, or an entry of the queue, already
    Newer,
    NoJob,
    JobExists,
    // no uid or no order number is left
    NoUid,
    Full,
    // an operation is open that must end first
    StillOpen,
    // the clock is at its end
    LastEpoch,
    NoWord,
    QueueEmpty,
}

impl From<Refusal> for u32 {
    ghost from_gives = { λ r n. n ≡ refusal_number r };

    // 01's number of a refusal.
    fn from(r: Refusal) -> u32 {
        match r {
            Refusal::BadSizes => 1,
            Refusal::BadClock => 2,
            Refusal::BadSlot => 3,
            Refusal::Duplicate => 4,
            Refusal::NoThread => 5,
            Refusal::AlreadyOpen => 6,
            Refusal::NotOpen => 7,
            Refusal::BadArgument => 8,
            Refusal::Newer => 9,
            Refusal::NoJob => 10,
            Refusal::JobExists => 11,
            Refusal::NoUid => 12,
            Refusal::Full => 13,
            Refusal::StillOpen => 14,
            Refusal::LastEpoch => 15,
            Refusal::NoWord => 16,
            Refusal::QueueEmpty => 17,
        }
    }
}

// A refusal where the answer is a 64-bit number: 2^32 plus 01's number.
pub fn declined(r: Refusal) -> u64
    ensures { result ≡ declined_number r }
{
    4294967296 + u64::from(u32::from(r))
}
