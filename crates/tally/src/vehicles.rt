//! The kind `vehicles`: one count, whose join adds and stops at the largest.
mod counted;

ghost use Rattle.std.specs.Prelude.{◌≡◌, length};
ghost use Rattle.tally.specs.declared.vehicles.counted.Vehicles.{Vehicles};
ghost use Rattle.tally.specs.Vehicles.{counted, vehicles, vehicles_lawful};
ghost use Rattle.big_endian.specs.BigEndian.{eight};

use crate::fault::Fault;
use crate::kind::Tally;
use big_endian::BigEndian;
pub use counted::Vehicles;

impl Vehicles {
    /// The tally of so many vehicles.
    // No `From`: the name says what is made, and its contract stands at each call.
    pub fn of(count: u64) -> Vehicles
        ensures count { result.count ≡ count }
        ensures only { (x : Vehicles) → x.count ≡ count → result ≡ x }
    {
        Vehicles { count }
    }

    // The tally that eight bytes write.
    fn of_bytes(bytes: &[u8]) -> Vehicles
        requires { length bytes.now ≡ 8 }
        ensures { result ≡ counted (eight bytes.now 0) }
    {
        Vehicles::of(u64::read_at(bytes, 0))
    }
}

impl Tally for Vehicles {
    ghost kind = { vehicles };

    ghost laws = { vehicles_lawful };

    fn code() -> u8 {
        1
    }

    fn empty() -> Vehicles {
        Vehicles::of(0)
    }

    fn joined(&self, other: &Vehicles) -> Vehicles {
        Vehicles::of(self.count.saturating_add(other.count))
    }

    fn is_empty(&self) -> bool {
        self.count == 0
    }

    fn width() -> usize {
        8
    }

    fn write(&self, out: &mut [u8]) {
        self.count.write_at(out, 0);
    }

    fn read(bytes: &[u8]) -> Result<Vehicles, Fault> {
        Ok(Vehicles::of_bytes(bytes))
    }
}
