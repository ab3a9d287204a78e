//! The store of a program.

ghost use Rattle.std.specs.Prelude.{◌<◌};

use crate::programs::checked_of;
use nona_sparse::SparseArray;
use nona_store::{Bank, Overlay, Share, ShareBank, Store, read_numbers};
use std::alloc::{AllocError, Global};
use std::process::Abort;
use std::test::Fail;

/// Compares all that a store holds.
fn assert_holds(
    rt: &impl Abort,
    alloc: Global,
    store: &Store,
    want: &str,
) -> Result<(), AllocError> {
    let text = format!(in alloc; "{store:?}")?;
    assert_eq!(rt; text.as_str(), want);
    Ok(())
}

/// The store before the first statement of a program, over the numbers 10 and -20.
fn started(rt: &impl Abort, alloc: Global) -> Result<Store, Fail> {
    let checked = checked_of(rt, alloc, b"array a[2]; array b[1]; var x = 5; var y;")?;
    let input = read_numbers(alloc, b"10 -20")?;
    Ok(Store::start(alloc, &checked, input)?)
}

#[test]
fn a_store_and_its_copy(rt: HostRuntime) -> Result<(), Fail> {
    let alloc = rt.alloc();
    let mut store = started(&rt, alloc)?;
    let began = store.copy(alloc)?;
    store.push_scalar(8)?;
    store.print(3)?;
    let arrays =
        "arrays: [Cells { items: [10, -20] }, Cells { items: [0, 0] }, Cells { items: [0] }]";
    let want = format!(in alloc; "Store {{ scalars: [5, 0], {arrays}, printed: [] }}")?;
    assert_holds(&rt, alloc, &began, want.as_str())?;
    let want = format!(in alloc; "Store {{ scalars: [5, 0, 8], {arrays}, printed: [3] }}")?;
    assert_holds(&rt, alloc, &store, want.as_str())?;
    Ok(())
}

#[test]
fn an_overlay_has_what_was_last_put(rt: HostRuntime) -> Result<(), Fail> {
    let alloc = rt.alloc();
    let mut overlay = Overlay::begin(alloc);
    overlay.put(2, 0, 7)?;
    overlay.put(1, 1, 5)?;
    overlay.put(1, 1, -6)?;
    let cells = [
        overlay.get(1, 1),
        overlay.get(2, 0),
        overlay.get(1, 0),
        overlay.get(0, 1),
    ];
    assert_eq!(rt; cells, [Some(-6), Some(7), None, None]);
    Ok(())
}

#[test]
fn a_share_has_what_its_bank_was_given(rt: HostRuntime) -> Result<(), Fail> {
    let alloc = rt.alloc();
    let store = started(&rt, alloc)?;
    let mut share = Share::begin(alloc, Vec::new(alloc));
    let mut bank = ShareBank {
        store: &store,
        share: &mut share,
    };
    bank.push_scalar(9)?;
    bank.print(-1)?;
    assert_eq!(rt; share.scalars(), [9].as_slice());
    assert_eq!(rt; share.printed(), [-1].as_slice());
    assert_eq!(rt; share.overlay().get(0, 0), None);
    Ok(())
}

#[test]
fn a_sparse_array_has_what_was_last_put(rt: HostRuntime) -> Result<(), Fail> {
    let alloc = rt.alloc();
    let mut written = SparseArray::begin(alloc);
    written.put(5, 7)?;
    written.put(4_194_303, -1)?;
    written.put(5, 8)?;
    let values = [
        written.get(5),
        written.get(4_194_303),
        written.get(6),
        written.get(0),
    ];
    assert_eq!(rt; values, [Some(8), Some(-1), None, None]);
    let mut cells = vec![in alloc; 3i64; 7]?;
    written.write_to(cells.as_mut_slice());
    assert_eq!(rt; cells.as_slice(), [3, 3, 3, 3, 3, 8, 3].as_slice());
    written.keep_changes(cells.as_slice());
    assert_eq!(rt; [written.get(5), written.get(4_194_303)], [None, Some(-1)]);
    Ok(())
}

/// How many places the next test puts values at: those of two pages, and some of a third.
const PLACES: usize = 2500;

/// Puts its number at every other place, from the last one down.
fn put_down(written: &mut SparseArray) -> Result<(), AllocError> {
    for step in 0..PLACES / 2 {
        let place = PLACES - 2 - 2 * step;
        written.put(place, place as i64)?;
    }
    Ok(())
}

/// Puts its number at each place between those, from the first one up.
fn put_between(written: &mut SparseArray) -> Result<(), AllocError> {
    for step in 0..PLACES / 2 {
        let place = 2 * step + 1;
        written.put(place, place as i64)?;
    }
    Ok(())
}

/// Puts another number at a place, reads it, and puts the place's own again.
fn put_anew(written: &mut SparseArray, place: usize) -> Result<Option<i64>, AllocError>
    requires { place < PLACES }
{
    written.put(place, -9)?;
    let read = written.get(place);
    written.put(place, place as i64)?;
    Ok(read)
}

/// The first place whose cell has another number than its own.
fn first_other(cells: &[i64]) -> Option<usize> {
    for place in 0..cells.len().min(PLACES) {
        if cells[place] != place as i64 {
            return Some(place);
        }
    }
    None
}

#[test]
fn values_that_are_put_in_any_order(rt: HostRuntime) -> Result<(), Fail> {
    let alloc = rt.alloc();
    let mut written = SparseArray::begin(alloc);
    put_down(&mut written)?;
    put_between(&mut written)?;
    let anew = [
        put_anew(&mut written, 0)?,
        put_anew(&mut written, 1023)?,
        put_anew(&mut written, 1024)?,
        put_anew(&mut written, PLACES - 1)?,
    ];
    assert_eq!(rt; anew, [Some(-9); 4]);
    let mut cells = vec![in alloc; -1i64; PLACES]?;
    assert_eq!(rt; first_other(cells.as_slice()), Some(0));
    written.write_to(cells.as_mut_slice());
    assert_eq!(rt; first_other(cells.as_slice()), None);
    if let Some(cell) = cells.get_mut(300) {
        *cell = -1;
    }
    written.keep_changes(cells.as_slice());
    let values = [written.get(299), written.get(300), written.get(301)];
    assert_eq!(rt; values, [None, Some(300), None]);
    Ok(())
}

#[test]
fn what_is_left_of_an_overlay_is_applied(rt: HostRuntime) -> Result<(), Fail> {
    let alloc = rt.alloc();
    let mut store = started(&rt, alloc)?;
    if store.count_arrays() > 1 {
        let cells = store.take_array(1);
        store.give_array(1, cells);
    }
    let mut overlay = Overlay::begin(alloc);
    overlay.put(0, 0, 10)?;
    overlay.put(0, 1, 7)?;
    overlay.put(1, 1, 5)?;
    overlay.put(2, 3, 9)?;
    overlay.keep_changes(&store);
    let cells = [
        overlay.get(0, 0),
        overlay.get(0, 1),
        overlay.get(1, 1),
        overlay.get(2, 3),
    ];
    assert_eq!(rt; cells, [None, Some(7), Some(5), Some(9)]);
    store.apply(&overlay);
    let arrays =
        "arrays: [Cells { items: [10, 7] }, Cells { items: [0, 5] }, Cells { items: [0] }]";
    let want = format!(in alloc; "Store {{ scalars: [5, 0], {arrays}, printed: [] }}")?;
    assert_holds(&rt, alloc, &store, want.as_str())?;
    Ok(())
}
