ghost use Rattle.std.specs.Prelude.{◌≡◌, ℕ, ◌^◌, ◌<◌, length, slice_index};

/// How many queues were observed in each of the sixteen bands; the largest number stands for itself and all above.
#[derive(Clone, Copy)]
pub struct Queues {
    pub counts: [u32; 16],
    ghost fits: { (length counts ≡ 16) × ((i : ℕ) → slice_index counts i < 2 ^ 32) },
}
