ghost use Rattle.std.specs.Prelude.{◌^◌, ◌<◌};

/// A count of vehicles; the largest number stands for itself and all above.
#[derive(Clone, Copy)]
pub struct Vehicles {
    pub count: u64,
    ghost fits: { count < 2 ^ 64 },
}
