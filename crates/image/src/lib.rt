// A switch as 1,066 words, for callers in other languages.
#![tactic(auto)]

ghost use Rattle.std.specs.Prelude.{◌≡◌, ◌<◌, ◌+◌, ◌^◌};
ghost use Rattle.std.proofs.lemmas.List.Edits.{sets};
ghost use Rattle.image.specs.Image.{words, queues_of, switch_of, queue_words, image_of};

use queues::Queues;
use std::array;
use switch::Switch;

// N words from a place on; words that are missing are 0.
fn words<const N: usize>(state: &[u32], from: usize) -> [u32; N]
    requires { from + N < 2 ^ 64 }
    ensures { result ≡ words state.now from N }
{
    array::from_fn(|k| queues::number_at(state, from + k))
}

// The capacities and then the lengths, each of the input queues, the output queues and the crosspoints.
#[tactic(auto, unfolding(crate::specs::Image::queues_of))]
fn queues_of(state: &[u32]) -> Queues
    ensures { result ≡ queues_of state.now }
{
    Queues {
        incap: words(state, 10),
        outcap: words(state, 266),
        crosscap: words(state, 282),
        inlen: words(state, 538),
        outlen: words(state, 794),
        crosslen: words(state, 810),
    }
}

// The switch that the words are an image of; words that are missing are 0.
#[tactic(auto, unfolding(crate::specs::Image::switch_of))]
pub fn switch_of(state: &[u32]) -> Switch
    ensures { result ≡ switch_of state.now }
{
    Switch {
        model: queues::number_at(state, 0),
        order: queues::number_at(state, 1),
        ports: queues::number_at(state, 2),
        speedup: queues::number_at(state, 3),
        slot: queues::number_at(state, 4),
        arrived: queues::number_at(state, 5),
        dropped: queues::number_at(state, 6),
        crossed: queues::number_at(state, 7),
        outmoved: queues::number_at(state, 8),
        sent: queues::number_at(state, 9),
        queues: queues_of(state),
    }
}

// Words from a place on; past the end none is stored. (`text::put` has another definition: it answers the next place. An image is words at fixed places, for C's callers.)
#[tactic(auto, using(crate::proofs::ImageLaws::copied, crate::proofs::ImageLaws::sets_past))]
fn put(state: &mut [u32], at: usize, ws: &[u32])
    ensures { state.new ≡ sets state.old at ws.now }
{
    if at < state.len() {
        let n = ws.len().min(state.len() - at);
        state[at..at + n].copy_from_slice(&ws[..n]);
    }
}

fn put_queues(state: &mut [u32], q: &Queues)
    ensures { state.new ≡ sets state.old 10 (queue_words q.now) }
{
    put(state, 10, &q.incap);
    put(state, 266, &q.outcap);
    put(state, 282, &q.crosscap);
    put(state, 538, &q.inlen);
    put(state, 794, &q.outlen);
    put(state, 810, &q.crosslen);
}

// The image of a switch, from the first word on.
#[tactic(auto, using(crate::proofs::ImageLaws::image_stored), unfolding(crate::specs::Image::numbers_of))]
pub fn put_switch(state: &mut [u32], s: Switch)
    ensures { state.new ≡ sets state.old 0 (image_of s) }
{
    let numbers = [
        s.model, s.order, s.ports, s.speedup, s.slot, s.arrived, s.dropped, s.crossed, s.outmoved,
        s.sent,
    ];
    put(state, 0, &numbers);
    put_queues(state, &s.queues);
}
