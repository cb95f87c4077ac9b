//! Tests of lines of hexadecimal and of tallies in words.
#![tactic(auto)]

#[cfg(test)]
mod tests {
    use frame_logs::line::Line;
    use frame_logs::standing::NoHexadecimal;
    use frame_logs::tallies::{InWords, Told};
    use std::alloc::Global;
    use std::process::Abort;
    use std::test::Fail;
    use tally::queues::Queues;
    use tally::vehicles::Vehicles;

    fn line_of(text: &[u8]) -> Line {
        let mut line = Line::empty();
        for byte in text {
            line.take(*byte);
        }
        line
    }

    fn refused(rt: &impl Abort, text: &[u8], why: NoHexadecimal) {
        assert_eq!(rt; line_of(text).bytes().err(), Some(why));
    }

    #[test]
    fn a_line_is_digits_in_pairs(rt: HostRuntime) {
        let line = line_of(b"00aF9c\r");
        assert_eq!(rt; line.bytes().ok(), Some([0, 0xaf, 0x9c].as_slice()));
        refused(&rt, b"00a", NoHexadecimal::OddDigits);
        refused(&rt, b"0g:", NoHexadecimal::NoDigit(b'g'));
        refused(&rt, b"00\r\r", NoHexadecimal::NoDigit(b'\r'));
    }

    fn told<K: Told + Drop>(
        rt: &impl Abort,
        heap: Global,
        tally: K,
        words: &str,
    ) -> Result<(), Fail> {
        assert_eq!(rt; format!(in heap; "{}", InWords { tally })?.as_str(), words);
        Ok(())
    }

    #[test]
    fn vehicles_in_words(rt: HostRuntime) -> Result<(), Fail> {
        told(&rt, rt.alloc(), Vehicles::of(7), "7 vehicles")?;
        told(&rt, rt.alloc(), Vehicles::of(0), "empty")
    }

    #[test]
    fn queues_in_words(rt: HostRuntime) -> Result<(), Fail> {
        let tally = Queues::of([3, 0, 0, 0, 0, 0, 1, 0, 0, 0, 0, 0, 0, 0, 0, 2]);
        told(&rt, rt.alloc(), tally, "0: 3, 6-7: 1, 50 and more: 2")
    }
}
