//! What a board does.
ghost use Rattle.std.specs.Prelude.{◌≡◌, ◌+◌, ◌<◌, [], Some, IfSome, option_map};
ghost use Rattle.protocol.specs.Limits.{nodes_max};
ghost use Rattle.line.specs.BoardHonest.{board_honest};
ghost use Rattle.line.specs.Held.{content};
ghost use Rattle.line.specs.Board.{board_line, board_rule, Postable, is_postable, nothing_shown, latest_of, turn, shows};

use super::{Board, SENDERS};
use crate::frames::{holds_any, is_sized};
use crate::held::Held;
use crate::interface::{BufferTooShort, Line};
use protocol::limits::NODES_MAX;
use std::array;

// Whether a frame is kept if it is put.
fn is_postable(frame: &[u8]) -> bool
    ensures { result ≡ is_postable frame.now }
{
    is_sized(frame) && (1..=NODES_MAX).contains(&frame[2])
}

impl Board {
    /// A board on which nothing waits.
    pub fn new() -> Board
        ensures empty { board_line.waiting result ≡ [] }
        ensures start { shows result ≡ nothing_shown }
    {
        Board {
            frames: array::from_fn(|_| None),
            next: 0,
        }
    }

    // The place of the sender whose turn it is, and its frame.
    fn turn(&self) -> Option<(usize, &Held)>
        ensures turn { option_map (λ found. found.0 + 1) result ≡ turn (shows self.now) }
        ensures within { IfSome result (λ found. found.0 < nodes_max) }
        ensures frame { IfSome result (λ found. latest_of self.now (found.0 + 1) ≡ Some (content found.1.now)) }
    {
        (0..SENDERS).find_map(|step| {
            let place = (self.next + step) % SENDERS;
            Some((place, self.frames.get(place)?.as_ref()?))
        })
    }

    // Replaces the frame of a frame's sender.
    fn post(&mut self, frame: &[u8])
        requires { Postable frame.now }
        ensures { shows self.new ≡ board_rule.put (shows self.old) frame.now }
    {
        let place = frame[2] as usize - 1;
        let frames = &mut self.frames;
        match &mut frames[place] {
            Some(held) => held.hold(frame),
            unheard => *unheard = Some(Held::new(frame)),
        }
    }
}

impl Line for Board {
    ghost conduct = { board_line };

    ghost honest = { board_honest };

    fn put(&mut self, frame: &[u8]) {
        if is_postable(frame) {
            self.post(frame);
        }
    }

    fn take(&mut self, buffer: &mut [u8]) -> Result<Option<usize>, BufferTooShort> {
        if !holds_any(buffer) {
            return Err(BufferTooShort);
        }
        let Some((place, held)) = self.turn() else {
            return Ok(None);
        };
        let size = held.copy_into(buffer);
        self.next = place + 1;
        Ok(Some(size))
    }
}
