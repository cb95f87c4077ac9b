use crate::coins::{Coin, Ends, Mark};
use std::test::Fail;
use table::lending::clear_in;
use table::tables::Table;

fn coin(source: u8, destination: u8, value: u32) -> Coin {
    Coin {
        source,
        destination,
        value,
    }
}

fn ends(source: u8, destination: u8) -> Ends {
    Ends {
        source,
        destination,
    }
}

fn mark(number: u8, value: u32) -> Mark {
    Mark { number, value }
}

#[test]
fn stores_and_removes(rt: HostRuntime) -> Result<(), Fail> {
    let mut cells = [None; 3];
    let mut table = Table {
        cells: &mut cells[..],
    };
    assert!(rt; table.free_places() == 3);
    let place = table.seek(&ends(2, 1)).ok_or("no place")?;
    table.store(place, coin(2, 1, 7));
    assert_eq!(rt; table.get(&ends(2, 1)), Some(coin(2, 1, 7)));
    assert_eq!(rt; table.get(&ends(1, 2)), None);
    assert!(rt; table.free_places() == 2);
    let place = table.find(&ends(2, 1)).ok_or("not found")?;
    table.remove(place);
    assert_eq!(rt; table.get(&ends(2, 1)), None);
    Ok(())
}

#[test]
fn rises(rt: HostRuntime) {
    let mut cells = [
        Some(coin(2, 1, 7)),
        None,
        Some(coin(1, 9, 8)),
        Some(coin(2, 3, 9)),
    ];
    let table = Table {
        cells: &mut cells[..],
    };
    assert_eq!(rt; table.next_above(None), Some(2));
    assert_eq!(rt; table.next_above(Some(ends(1, 9))), Some(0));
    assert_eq!(rt; table.next_above(Some(ends(2, 1))), Some(3));
    assert_eq!(rt; table.next_above(Some(ends(2, 3))), None);
}

#[test]
fn empties(rt: HostRuntime) {
    let (three, five, four) = (mark(3, 7), mark(5, 8), mark(4, 9));
    let mut cells = [Some(three), Some(five), Some(four)];
    let mut table = Table {
        cells: &mut cells[..],
    };
    assert_eq!(rt; table.at(1), Some(five));
    assert_eq!(rt; table.at(3), None);
    assert_eq!(rt; table.next_above(Some(3)), Some(2));
    clear_in(&mut table, 0, 2);
    assert_eq!(rt; table.free(), Some(0));
    assert_eq!(rt; table.get(&4), Some(four));
    table.clear();
    assert!(rt; table.free_places() == 3);
}
