use mesh_table::key::Key;
use mesh_table::table::{InsertError, Table};
use std::process::Abort;
use std::test::Fail;

fn table_of_8(limit: usize) -> Result<Table<u32, 8>, Fail> {
    Table::new(limit).ok_or_else(|| Fail::new("no table"))
}

// The home of a vertex among 8 slots: the highest three bits of its key's spread.
fn home(number: u32) -> u32 {
    Key::vertex(number).spread() >> 29
}

// Puts each vertex number in as its own record.
fn insert_all(rt: &impl Abort, table: &mut Table<u32, 8>, numbers: &[u32]) {
    for number in numbers {
        assert_eq!(rt;
            table.insert(Key::vertex(*number), *number),
            Ok(()),
            "{}",
            *number
        );
    }
}

fn check_found(rt: &impl Abort, table: &Table<u32, 8>, numbers: &[u32]) {
    for number in numbers {
        assert_eq!(rt;
            table.find(Key::vertex(*number)),
            Some(*number),
            "{}",
            *number
        );
    }
}

// After each removal the record is gone, and the others are still there. By places, since a loop over what is left needs a
// measure of its own.
fn remove_in_order(rt: &impl Abort, table: &mut Table<u32, 8>, numbers: &[u32]) {
    for (i, number) in numbers.iter().enumerate() {
        check_found(rt, table, &numbers[i..]);
        assert_eq!(rt; table.remove(Key::vertex(*number)), Some(*number), "{}", i);
        assert_eq!(rt; table.find(Key::vertex(*number)), None, "{}", i);
    }
}

#[test]
fn keys_of_one_home(rt: HostRuntime) -> Result<(), Fail> {
    assert_eq!(rt; [home(8), home(16), home(21), home(29)], [7; 4]);
    let mut table = table_of_8(8)?;
    insert_all(&rt, &mut table, &[8, 16, 21]);
    check_found(&rt, &table, &[8, 16, 21]);
    assert_eq!(rt; table.find(Key::vertex(29)), None);
    assert!(rt; table.change(Key::vertex(16), 4));
    assert!(rt; !table.change(Key::vertex(29), 4));
    assert_eq!(rt; table.find(Key::vertex(16)), Some(4));
    check_found(&rt, &table, &[8, 21]);
    assert!(rt; table.change(Key::vertex(21), 5));
    assert_eq!(rt; table.find(Key::vertex(21)), Some(5));
    assert_eq!(rt; table.find(Key::vertex(16)), Some(4));
    check_found(&rt, &table, &[8]);
    assert_eq!(rt; table.len(), 3);
    Ok(())
}

#[test]
fn removal_of_a_neighbour(rt: HostRuntime) -> Result<(), Fail> {
    // slots 7, 0, 1 and 2, of which only the first and the third could be at home
    assert_eq!(rt; [home(8), home(16), home(5), home(21)], [7, 7, 0, 7]);
    let mut table = table_of_8(8)?;
    insert_all(&rt, &mut table, &[8, 16, 5, 21]);
    assert_eq!(rt; table.remove(Key::vertex(8)), Some(8));
    check_found(&rt, &table, &[16, 5, 21]);
    assert_eq!(rt; table.remove(Key::vertex(8)), None);
    assert_eq!(rt; table.remove(Key::vertex(16)), Some(16));
    check_found(&rt, &table, &[5, 21]);
    assert_eq!(rt; table.len(), 2);
    // moved twice, it stands once
    assert_eq!(rt; table.remove(Key::vertex(21)), Some(21));
    assert_eq!(rt; table.remove(Key::vertex(21)), None);
    check_found(&rt, &table, &[5]);
    Ok(())
}

#[test]
fn a_full_table(rt: HostRuntime) -> Result<(), Fail> {
    let numbers: [u32; 8] = [8, 16, 21, 5, 13, 3, 11, 1];
    let mut table = table_of_8(8)?;
    insert_all(&rt, &mut table, &numbers);
    assert_eq!(rt; table.find(Key::vertex(2)), None);
    assert_eq!(rt; table.insert(Key::vertex(2), 2), Err(InsertError::AtLimit));
    remove_in_order(&rt, &mut table, &numbers);
    assert_eq!(rt; table.len(), 0);
    Ok(())
}

// The last record is as far from its home as a slot can be.
#[test]
fn a_full_table_of_one_home(rt: HostRuntime) -> Result<(), Fail> {
    let numbers: [u32; 8] = [8, 16, 21, 29, 42, 50, 55, 63];
    for number in numbers {
        assert_eq!(rt; home(number), 7, "{}", number);
    }
    let mut table = table_of_8(8)?;
    insert_all(&rt, &mut table, &numbers);
    assert_eq!(rt; home(71), 7);
    assert_eq!(rt; table.find(Key::vertex(71)), None);
    remove_in_order(&rt, &mut table, &numbers);
    assert_eq!(rt; table.len(), 0);
    Ok(())
}

#[test]
fn the_limit_and_one_more(rt: HostRuntime) -> Result<(), Fail> {
    let mut table = table_of_8(2)?;
    assert_eq!(rt; [table.limit(), table.len()], [2, 0]);
    insert_all(&rt, &mut table, &[1, 2]);
    assert_eq!(rt; table.insert(Key::vertex(3), 3), Err(InsertError::AtLimit));
    assert_eq!(rt;
        table.insert(Key::vertex(2), 9),
        Err(InsertError::KeyPresent)
    );
    check_found(&rt, &table, &[1, 2]);
    assert_eq!(rt; table.remove(Key::vertex(1)), Some(1));
    insert_all(&rt, &mut table, &[3]);
    assert_eq!(rt; [table.limit(), table.len()], [2, 2]);
    Ok(())
}

#[test]
fn a_limit_of_0(rt: HostRuntime) -> Result<(), Fail> {
    let mut table = table_of_8(0)?;
    assert_eq!(rt; table.insert(Key::vertex(1), 1), Err(InsertError::AtLimit));
    assert_eq!(rt; table.find(Key::vertex(1)), None);
    assert_eq!(rt; table.remove(Key::vertex(1)), None);
    assert_eq!(rt; [table.limit(), table.len()], [0, 0]);
    Ok(())
}

#[test]
fn arrays_that_cannot_serve(rt: HostRuntime) {
    let narrow: Option<Table<u32, 8>> = Table::new(9);
    let bare: Option<Table<u32, 0>> = Table::new(0);
    assert!(rt; narrow.is_none() && bare.is_none());
}

#[test]
fn spreads(rt: HostRuntime) {
    assert_eq!(rt; Key::vertex(1).spread(), 2_654_435_769);
    assert_eq!(rt; Key::vertex(2).spread(), 1_013_904_242);
    assert_eq!(rt; Key::edge(2, 1).spread(), 3_668_340_011);
    assert_eq!(rt; Key::edge(1, 3).spread(), 2_027_808_484);
}

#[test]
fn edges(rt: HostRuntime) -> Result<(), Fail> {
    assert_eq!(rt;
        Key::edge(7, 2),
        Key {
            first: 2,
            second: 7,
        }
    );
    let mut table = table_of_8(8)?;
    insert_all(&rt, &mut table, &[2, 7]);
    assert_eq!(rt; table.insert(Key::edge(7, 2), 72), Ok(()));
    assert_eq!(rt; table.find(Key::edge(2, 7)), Some(72));
    assert_eq!(rt;
        table.insert(Key::edge(2, 7), 27),
        Err(InsertError::KeyPresent)
    );
    check_found(&rt, &table, &[2, 7]);
    Ok(())
}

// The search for the edge goes past its lower end, whose key has the same first number.
#[test]
fn an_edge_behind_its_end(rt: HostRuntime) -> Result<(), Fail> {
    assert_eq!(rt; Key::edge(2, 8).spread() >> 29, home(2));
    let mut table = table_of_8(8)?;
    insert_all(&rt, &mut table, &[2]);
    assert_eq!(rt; table.find(Key::edge(2, 8)), None);
    assert_eq!(rt; table.insert(Key::edge(2, 8), 28), Ok(()));
    assert_eq!(rt; table.find(Key::edge(2, 8)), Some(28));
    assert_eq!(rt; table.remove(Key::vertex(2)), Some(2));
    assert_eq!(rt; table.find(Key::edge(2, 8)), Some(28));
    Ok(())
}

#[test]
fn the_lowest_vertex(rt: HostRuntime) -> Result<(), Fail> {
    let mut table = table_of_8(8)?;
    insert_all(&rt, &mut table, &[8, 5, 13]);
    assert_eq!(rt; table.insert(Key::edge(1, 2), 12), Ok(()));
    assert_eq!(rt; table.lowest_vertex(100), Some(5));
    assert_eq!(rt; table.lowest_vertex(4), None);
    assert_eq!(rt; table.remove(Key::vertex(5)), Some(5));
    assert_eq!(rt; table.lowest_vertex(8), Some(8));
    insert_all(&rt, &mut table, &[0]);
    assert_eq!(rt; table.lowest_vertex(0), Some(0));
    Ok(())
}
