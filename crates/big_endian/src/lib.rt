//! Numbers in bytes, most significant byte first.
#![tactic(auto)]

ghost use Rattle.std.specs.Prelude.{◌≡◌, ℕ, ◌+◌, ◌^◌, ◌<◌, ◌≤◌, List, length, ◌++◌, take, drop};
ghost use Rattle.std.proofs.Common.{refl};
ghost use Rattle.big_endian.specs.BigEndian.{Octets, four, four_bytes, eight, eight_bytes, octets_four, octets_eight, four_of_bytes, eight_of_bytes, bytes_of_four, bytes_of_eight};
ghost use borrow.Rule.Slice.PartMut.{put_mid};

/// A number that is written in so many bytes, whatever it is.
pub trait BigEndian: Copy {
    ghost width: { ℕ };

    /// The number that the bytes from a place on write.
    ghost number_at: { List ℕ → ℕ → Self };

    ghost bytes_of: { Self → List ℕ };

    /// It is small enough for its bytes.
    ghost Fits: { Self → Type 0 };

    /// The number that the bytes from `at` on write.
    fn read_at(bytes: &[u8], at: usize) -> Self
        requires { at + width ≤ length bytes.now }
        ensures { result ≡ number_at bytes.now at };

    /// Writes the number into the bytes from `at` on; the others stay.
    fn write_at(self, out: &mut [u8], at: usize)
        requires { at + width ≤ length out.old }
        ensures { out.new ≡ put_mid at width out.old (bytes_of self) };

    ghost long: { (x : Self) → length (bytes_of x) ≡ width };

    ghost octets: { (x : Self) → Octets (bytes_of x) };

    ghost reads_back: { (x : Self) (rest : List ℕ) → Fits x → number_at (bytes_of x ++ rest) 0 ≡ x };

    ghost writes_back: { (bytes : List ℕ) (at : ℕ) → at + width ≤ length bytes → Octets bytes → bytes_of (number_at bytes at) ≡ take width (drop at bytes) };
}

impl BigEndian for u32 {
    ghost width = { 4 };

    ghost number_at = { four };

    ghost bytes_of = { four_bytes };

    ghost Fits = { λ n. n < 2 ^ 32 };

    ghost long = { λ n. refl };

    ghost octets = { octets_four };

    ghost reads_back = { four_of_bytes };

    ghost writes_back = { bytes_of_four };

    fn read_at(bytes: &[u8], at: usize) -> u32 {
        u32::from_be_bytes([bytes[at], bytes[at + 1], bytes[at + 2], bytes[at + 3]])
    }

    fn write_at(self, out: &mut [u8], at: usize) {
        out[at..at + 4].copy_from_slice(&self.to_be_bytes());
    }
}

impl BigEndian for u64 {
    ghost width = { 8 };

    ghost number_at = { eight };

    ghost bytes_of = { eight_bytes };

    ghost Fits = { λ n. n < 2 ^ 64 };

    ghost long = { λ n. refl };

    ghost octets = { octets_eight };

    ghost reads_back = { eight_of_bytes };

    ghost writes_back = { bytes_of_eight };

    fn read_at(bytes: &[u8], at: usize) -> u64 {
        u64::from_be_bytes([
            bytes[at],
            bytes[at + 1],
            bytes[at + 2],
            bytes[at + 3],
            bytes[at + 4],
            bytes[at + 5],
            bytes[at + 6],
            bytes[at + 7],
        ])
    }

    fn write_at(self, out: &mut [u8], at: usize) {
        out[at..at + 8].copy_from_slice(&self.to_be_bytes());
    }
}
