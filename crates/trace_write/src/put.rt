// Numbers into a slice of bytes, low byte first.
ghost use Rattle.std.specs.Prelude.{◌≡◌, ◌*◌, ℕ, length, map};
ghost use Rattle.base.specs.Digits.{digits, spell};

// A number as the file holds it, in K bytes.
pub(crate) trait Number<const K: usize> {
    ghost value: { Self → ℕ };

    fn digits(self) -> [u8; K]
        ensures { result ≡ digits K (value self) };
}

impl Number<2> for u16 {
    ghost value = { λ v. v };

    #[tactic(auto, unfolding(base::specs::Digits::digits))]
    fn digits(self) -> [u8; 2] {
        self.to_le_bytes()
    }
}

impl Number<4> for u32 {
    ghost value = { λ v. v };

    #[tactic(auto, unfolding(base::specs::Digits::digits))]
    fn digits(self) -> [u8; 4] {
        self.to_le_bytes()
    }
}

// A table of numbers, K bytes each, from the slice's start to its end.
#[tactic(auto, unfolding(base::specs::Digits::spell))]
pub(crate) fn table<T: Number<K> + Copy, const K: usize>(out: &mut [u8], numbers: &[T])
    requires { length out.old ≡ K * length numbers.now }
    ensures { out.new ≡ spell K (map T.value numbers.now) }
{
    // (what is put through `chunks_exact_mut` a proof doesn't know)
    for (k, v) in numbers.iter().enumerate() {
        out[K * k..K * k + K].copy_from_slice(&v.digits());
    }
}

// A table of bytes, from the slice's start to its end. (`copy_from_slice` of a length that is not a constant would ask C's callers for `memmove`, which the archive needs for nothing else.)
pub(crate) fn bytes(out: &mut [u8], table: &[u8])
    requires { length out.old ≡ length table.now }
    ensures { out.new ≡ table.now }
{
    for (k, b) in table.iter().enumerate() {
        out[k] = *b;
    }
}
