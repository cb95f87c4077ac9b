//! Tests of the tally kind `movements`.
#![tactic(auto)]

#[cfg(test)]
mod tests {
    use movements::Movements;
    use std::process::Abort;
    use std::test::Fail;
    use tally::kind::Tally;

    // The bytes of so many pairs, with rising keys from `key` on and one count, and of a rest.
    fn row(key: u8, count: u8, used: usize, rest: u8) -> [u8; 132] {
        let mut bytes = [0u8; 132];
        for i in 0..16 {
            if i < used {
                bytes[8 * i + 3] = key.saturating_add(i as u8);
                bytes[8 * i + 7] = count;
            }
        }
        bytes[131] = rest;
        bytes
    }

    fn joined(left: &[u8; 132], right: &[u8; 132]) -> Result<[u8; 132], Fail> {
        let Ok(x) = Movements::read(left) else {
            return Err(Fail::new("the left tally is not read"));
        };
        let Ok(y) = Movements::read(right) else {
            return Err(Fail::new("the right tally is not read"));
        };
        let mut out = [0u8; 132];
        x.joined(&y).write(&mut out);
        Ok(out)
    }

    fn refused(rt: &impl Abort, bytes: &[u8; 132], number: u8, place: usize) -> Result<(), Fail> {
        match Movements::read(bytes) {
            Ok(_) => Err(Fail::new("a faulty tally is read")),
            Err(fault) => {
                assert_eq!(rt; fault.number, number);
                assert_eq!(rt; fault.place, place);
                Ok(())
            }
        }
    }

    #[test]
    fn a_seventeenth_key_goes_to_the_rest(rt: HostRuntime) -> Result<(), Fail> {
        let mut wanted = row(1, 1, 16, 1);
        wanted[7] = 4;
        assert!(rt; joined(&row(2, 1, 16, 0), &row(1, 4, 1, 0))? == wanted);
        Ok(())
    }

    #[test]
    fn full_tallies_join_alike_in_both_orders(rt: HostRuntime) -> Result<(), Fail> {
        let low = row(1, 2, 16, 3);
        let high = row(9, 5, 16, 7);
        // Keys 9 to 16 have both counts, and keys 17 to 24 are left out.
        let mut wanted = row(1, 2, 16, 3 + 7 + 8 * 5);
        for i in 8..16 {
            wanted[8 * i + 7] = 7;
        }
        assert!(rt; joined(&low, &high)? == wanted);
        assert!(rt; joined(&high, &low)? == wanted);
        Ok(())
    }

    #[test]
    fn each_fault_has_its_number_and_place(rt: HostRuntime) -> Result<(), Fail> {
        let mut bytes = row(5, 1, 3, 0);
        bytes[19] = 6;
        refused(&rt, &bytes, 42, 16)?;
        bytes[11] = 0;
        refused(&rt, &bytes, 40, 8)?;
        bytes[15] = 0;
        refused(&rt, &bytes, 41, 16)
    }

    #[test]
    fn a_rest_alone_is_not_empty(rt: HostRuntime) -> Result<(), Fail> {
        let Ok(x) = Movements::read(&row(0, 0, 0, 9)) else {
            return Err(Fail::new("a rest alone is not read"));
        };
        assert!(rt; !x.is_empty());
        assert!(rt; Movements::empty().is_empty());
        assert!(rt; Movements::of_one(3, 0).is_none());
        Ok(())
    }
}
