// What every crate above shares: the refusals of the paper's table, and in specs/ and proofs/ the definitions and laws of counting over the numbers
// below n, of chains of refusals and of numbers as bytes.
#![tactic(auto)]

ghost use Rattle.std.specs.Prelude.{◌≡◌, ◌&&◌};
ghost use Rattle.base.specs.Refusal.{number, tested, refusal_of};

// A refusal of the paper's table (document 01, "Refusal numbers"), by its number there; the last is the library's own (docs/DECISIONS.md, "The static library").
#[derive(Clone, Copy, Debug, PartialEq, Eq)]
pub enum Refusal {
    FewerThan40Bytes = 1,
    Model = 2,
    Order = 3,
    Ports = 4,
    Speedup = 5,
    Slots = 6,
    Arrivals = 7,
    Places = 8,
    Capacity = 9,
    SlotCounts = 10,
    ArrivalPort = 11,
    ShortLog = 12,
    SwitchValue = 13,
    AllArrived = 14,
    LastSlot = 15,
    DrainLimit = 16,
    TableLength = 17,
    ShortOutput = 18,
    LentLength = 30,
}

impl Refusal {
    // Its number.
    #[tactic(auto, unfolding(crate::specs::Refusal::number))]
    pub fn number(self) -> u32
        ensures { result ≡ number self }
    {
        self as u32
    }

    // This refusal, with what is handed back.
    pub fn with<T>(self, answer: T) -> Refused<T>
        ensures { result ≡ record { refusal = self; answer = answer } }
    {
        Refused {
            refusal: self,
            answer,
        }
    }
}

// A refusal, and what the paper wants handed back with it: counts of 0, or the switch exactly as it came.
#[derive(Clone, Copy, Debug, PartialEq, Eq)]
pub struct Refused<T> {
    pub refusal: Refusal,
    pub answer: T,
}

// What is handed back is dropped where a caller hands on the refusal alone.
impl<T: Drop> From<Refused<T>> for Refusal {
    ghost from_gives = { λ refused refusal. refusal ≡ refused.refusal };

    fn from(refused: Refused<T>) -> Refusal {
        refused.refusal
    }
}

// Nothing where the test holds, and the refusal where it fails.
#[tactic(auto, unfolding(crate::specs::Refusal::tested))]
pub fn unless<E: Drop>(ok: bool, refusal: E) -> Result<(), E>
    ensures { result ≡ tested ok refusal }
{
    if ok { Ok(()) } else { Err(refusal) }
}

// The number that an answer is refused with, 0 where nothing is refused.
#[tactic(auto, unfolding(crate::specs::Refusal::refusal_of))]
pub fn refusal_of<T: Drop>(answer: Result<T, Refusal>) -> u32
    ensures { result ≡ refusal_of answer }
{
    match answer {
        Ok(_) => 0,
        Err(refusal) => refusal.number(),
    }
}
