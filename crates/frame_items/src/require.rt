//! The conditions that bytes of a frame are asked.
ghost use Rattle.std.specs.Prelude.{◌≡◌, None};
ghost use Rattle.std.specs.Result.{result_err};
ghost use Rattle.frame_items.specs.Items.{unless};

use protocol::refusal::{Condition, FrameFault};

/// Unless a test holds, the condition fails at a place.
pub fn require(holds: bool, condition: Condition, place: usize) -> Result<(), FrameFault>
    ensures { result_err result ≡ unless holds condition place None }
{
    if holds {
        Ok(())
    } else {
        Err(FrameFault { condition, place })
    }
}
