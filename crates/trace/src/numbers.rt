// Numbers out of a slice of bytes, low byte first. Every place may be asked for: past the end each byte reads as 0.
ghost use Rattle.std.specs.Prelude.{◌≡◌, ◌+◌, ◌*◌, ◌-◌, ◌^◌, ◌<◌, ℕ, get_or, min};
ghost use Rattle.base.specs.Digits.{byte};
ghost use Rattle.trace.specs.Reading.{half, word, header_of};

use layout::Header;
use std::array;

// The byte k past p.
pub(crate) fn byte(s: &[u8], p: usize, k: usize) -> u8
    ensures { result ≡ byte s.now (p + k) }
{
    s.get(p.saturating_add(k)).copied().unwrap_or(0)
}

// The K bytes from p on.
fn bytes<const K: usize>(s: &[u8], p: usize) -> [u8; K]
    ensures { (k : ℕ) → k < K → get_or result k 0 ≡ byte s.now (p + k) }
{
    array::from_fn(|k| byte(s, p, k))
}

#[tactic(auto, using(crate::proofs::NumbersLaws::two_bytes))]
pub(crate) fn half(s: &[u8], p: usize) -> u16
    ensures { result ≡ half s.now p }
{
    u16::from_le_bytes(bytes(s, p))
}

#[tactic(auto, using(crate::proofs::NumbersLaws::four_bytes))]
pub(crate) fn word(s: &[u8], p: usize) -> u32
    ensures { result ≡ word s.now p }
{
    u32::from_le_bytes(bytes(s, p))
}

// The place 2 × k past `at`, or the last that can be asked for where that comes first.
pub(crate) fn place(at: usize, k: usize) -> usize
    ensures { result ≡ min (at + 2 * k) (2 ^ 64 - 1) }
{
    at.saturating_add(k.saturating_mul(2))
}

// Entry k of a table of 16-bit numbers that starts at `at`.
#[tactic(auto, using(crate::proofs::NumbersLaws::number_saturated))]
pub(crate) fn entry(s: &[u8], at: usize, k: usize) -> u16
    ensures { result ≡ half s.now (at + 2 * k) }
{
    half(s, place(at, k))
}

// Each number beside its name, here and in `vaznirokh`: of a list of six two could be exchanged unseen.
#[tactic(auto, unfolding(crate::specs::Reading::header_of))]
pub(crate) fn header(s: &[u8]) -> Header
    ensures { result ≡ header_of s.now }
{
    Header {
        model: word(s, 0),
        order: word(s, 4),
        ports: word(s, 8),
        speedup: word(s, 12),
        slots: word(s, 16),
        arrivals: word(s, 20),
    }
}
