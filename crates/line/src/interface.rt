//! The interface of a line.
ghost use Rattle.line.specs.Conduct.{Conduct, Honest, Took};

/// A taking was refused: the buffer is shorter than the longest frame.
#[derive(Clone, Copy, PartialEq, Eq, Debug)]
pub struct BufferTooShort;

/// A line. Its meaning is the one value `conduct`: the frames that wait, and where putting and taking may lead.
pub trait Line {
    ghost conduct: { Conduct Self };

    ghost honest: { Honest conduct };

    /// Puts a frame, which the line may lose.
    fn put(&mut self, frame: &[u8])
        ensures { conduct.puts self.old frame.now self.new };

    /// Takes a frame into the buffer's first bytes and answers its length, or says that none waits.
    /// A buffer that is shorter than the longest frame is refused.
    fn take(&mut self, buffer: &mut [u8]) -> Result<Option<usize>, BufferTooShort>
        ensures { Took conduct self.old buffer.old result self.new buffer.new };
}
