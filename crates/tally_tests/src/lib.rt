//! Tests of the kinds `vehicles` and `queues`, worked by hand.
#![tactic(auto)]

#[cfg(test)]
mod tests {
    use std::test::Fail;
    use tally::kind::{Tally, joined_all};
    use tally::queues::{Queues, band};
    use tally::vehicles::Vehicles;

    #[test]
    fn bands_of_queues(rt: HostRuntime) {
        assert_eq!(rt; band(0), 0);
        assert_eq!(rt; band(7), 6);
        assert_eq!(rt; band(8), 7);
        assert_eq!(rt; band(49), 14);
        assert_eq!(rt; band(50), 15);
        assert_eq!(rt; band(u32::MAX), 15);
    }

    #[test]
    fn a_full_count_of_vehicles_stays(rt: HostRuntime) {
        let full = Vehicles::of(u64::MAX);
        assert_eq!(rt; full.joined(&Vehicles::of(1)).count, u64::MAX);
        let all = joined_all(&[Vehicles::of(3), Vehicles::of(0), Vehicles::of(4)]);
        assert_eq!(rt; all.count, 7);
        assert!(rt; !all.is_empty());
        assert!(rt; Vehicles::of(0).is_empty());
    }

    #[test]
    fn vehicles_as_bytes(rt: HostRuntime) -> Result<(), Fail> {
        let mut out = [9u8; 8];
        Vehicles::of(258).write(&mut out);
        assert_eq!(rt; out, [0, 0, 0, 0, 0, 0, 1, 2]);
        let Ok(back) = Vehicles::read(&out) else {
            return Err(Fail::new("not read"));
        };
        assert_eq!(rt; back.count, 258);
        Ok(())
    }

    #[test]
    fn queues_join_by_band(rt: HostRuntime) -> Result<(), Fail> {
        let two = Queues::observed(7).joined(&Queues::observed(6));
        assert!(rt; two.counts[6] == 2);
        assert!(rt; two.counts[7] == 0);
        let mut counts = [0u32; 16];
        counts[3] = u32::MAX;
        let full = Queues::of(counts).joined(&Queues::observed(3));
        assert!(rt; full.counts[3] == u32::MAX);
        let mut out = [0u8; 64];
        two.write(&mut out);
        assert!(rt; out[27] == 2);
        let Ok(back) = Queues::read(&out) else {
            return Err(Fail::new("not read"));
        };
        assert!(rt; back.counts[6] == 2);
        assert!(rt; Queues::empty().is_empty());
        assert!(rt; !back.is_empty());
        Ok(())
    }
}
