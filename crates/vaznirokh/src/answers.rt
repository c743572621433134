// Answers as the numbers that C's callers get (include/vaznirokh.h).
ghost use Rattle.std.specs.Prelude.{◌≡◌, [], ◌∷◌};
ghost use Rattle.vaznirokh.specs.Library.{taken_word, drain_word, drain_quiet, count_words};

use run::Counts;
use switch::{Drain, Taken};

// 1 for accepted and 2 for dropped.
#[tactic(auto, unfolding(crate::specs::Library::taken_word))]
pub(crate) fn taken_word(taken: Taken) -> u32
    ensures { result ≡ taken_word taken }
{
    match taken {
        Taken::Accepted => 1,
        Taken::Dropped => 2,
    }
}

// 1 for empty and 0 for not, and the count of quiet slots.
#[tactic(auto, unfolding(crate::specs::Library::drain_word, crate::specs::Library::drain_quiet))]
pub(crate) fn drain_words(drain: Drain) -> [u32; 2]
    ensures { result ≡ drain_word drain ∷ (drain_quiet drain ∷ []) }
{
    match drain {
        Drain::Empty(n) => [1, n],
        Drain::NotEmpty(n) => [0, n],
    }
}

// The six counts in their order.
#[tactic(auto, unfolding(crate::specs::Library::count_words))]
pub(crate) fn count_words(c: Counts) -> [u32; 6]
    ensures { result ≡ count_words c }
{
    [c.arrived, c.dropped, c.crossed, c.outmoved, c.sent, c.held]
}
