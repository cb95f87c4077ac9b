//! Examples of the library `observations`, worked by hand.
#![tactic(auto)]

#[cfg(test)]
mod tests {
    use bands::bar::Bar;
    use bands::bounds::Bounds;
    use bands::count::Count;
    use bands::share::Share;
    use observations::figures::Figures;
    use observations::line::{Line, LineFault};
    use observations::source::{RefusedLine, Source};

    fn read(text: &[u8]) -> Result<u32, LineFault> {
        let mut line = Line::new();
        for byte in text {
            line.take(*byte);
        }
        line.end()
    }

    #[test]
    fn lines_that_write_a_number(rt: HostRuntime) {
        assert_eq!(rt; read(b"0"), Ok(0));
        assert_eq!(rt; read(b" 007\r"), Ok(7));
        assert_eq!(rt; read(b"\t12 \t"), Ok(12));
        assert_eq!(rt; read(b"4294967295"), Ok(4_294_967_295));
        assert_eq!(rt; read(b"000000000000000000000000000000042"), Ok(42));
    }

    #[test]
    fn lines_that_are_refused(rt: HostRuntime) {
        assert_eq!(rt; read(b"4294967296"), Err(LineFault::TooLarge));
        assert_eq!(rt; read(b" 42949672950 "), Err(LineFault::TooLarge));
        for text in [b"1 2", b"1.0", b"12a", b"a12", b"99x", b"   "] {
            assert_eq!(rt; read(text), Err(LineFault::NotANumber));
        }
        assert_eq!(rt; read(b"-1"), Err(LineFault::NotANumber));
        assert_eq!(rt; read(b"+1"), Err(LineFault::NotANumber));
        assert_eq!(rt; read(b"99999999999999999999x"), Err(LineFault::NotANumber));
        assert_eq!(rt; read(b""), Err(LineFault::NotANumber));
    }

    // The last line that was refused, and the figures.
    fn read_source(text: &[u8]) -> (Option<RefusedLine>, Figures) {
        let mut source = Source::new();
        let mut last = None;
        for byte in text {
            last = source.take(*byte).or(last);
        }
        last = source.finish().or(last);
        (last, source.figures())
    }

    #[test]
    fn a_last_line_without_newline(rt: HostRuntime) {
        let (last, figures) = read_source(b"1\n\n6\r\n7\nx\n7");
        let fault = LineFault::NotANumber;
        assert_eq!(rt; last, Some(RefusedLine { number: 5, fault }));
        assert_eq!(rt; figures.taken, 4);
        assert_eq!(rt; figures.refused, 2);
        assert_eq!(rt;
            figures.tally.counts,
            [0, 1, 0, 0, 0, 0, 3, 0, 0, 0, 0, 0, 0, 0, 0, 0]
        );
    }

    #[test]
    fn a_refused_last_line(rt: HostRuntime) {
        let (last, figures) = read_source(b"50\n5000000000");
        let fault = LineFault::TooLarge;
        assert_eq!(rt; last, Some(RefusedLine { number: 2, fault }));
        assert_eq!(rt; figures.taken, 1);
        assert_eq!(rt; figures.refused, 1);
    }

    #[test]
    fn an_empty_source(rt: HostRuntime) {
        let (last, figures) = read_source(b"");
        assert_eq!(rt; last, None);
        assert_eq!(rt; figures.taken, 0);
        assert_eq!(rt; figures.refused, 0);
    }

    #[test]
    fn shares_and_bars(rt: HostRuntime) {
        assert_eq!(rt; Share::of(1, 3).tenths, 333);
        assert_eq!(rt; Share::of(2, 3).tenths, 667);
        assert_eq!(rt; Share::of(1, 2000).tenths, 1);
        assert_eq!(rt; Share::of(0, 0).tenths, 0);
        assert_eq!(rt; Bar::of(0, 9).marks, 0);
        assert_eq!(rt; Bar::of(1, 1000).marks, 1);
        assert_eq!(rt; Bar::of(9, 9).marks, 40);
    }

    #[test]
    fn bounds_and_counts(rt: HostRuntime) {
        assert_eq!(rt; Bounds::of(0), Some(Bounds::One(0)));
        assert_eq!(rt; Bounds::of(6), Some(Bounds::Between(6, 7)));
        assert_eq!(rt; Bounds::of(9), Some(Bounds::Between(13, 15)));
        assert_eq!(rt; Bounds::of(15), Some(Bounds::From(50)));
        assert_eq!(rt; Bounds::of(16), None);
        assert_eq!(rt; Count::of(7u32), Count::Exact(7));
        assert_eq!(rt; Count::of(4_294_967_295u32), Count::AtLeast(4_294_967_295));
        assert_eq!(rt; Count::of(4_294_967_295u64), Count::Exact(4_294_967_295));
        assert_eq!(rt; Count::of(u64::MAX), Count::AtLeast(u64::MAX));
    }
}
