//! Places after additions and clears.
use display_index::{Index, Place};
use jtext::{NoMemory, Text};
use std::alloc::Global;
use std::process::Abort;
use std::test::Fail;

fn place(cell: u32, at: u32) -> Place {
    Place { cell, at }
}

fn add_all(alloc: Global, index: &mut Index, id: &str, places: &[Place]) -> Result<(), NoMemory> {
    let id = Text::of(alloc, id)?;
    for p in places {
        index.add(&id, *p)?;
    }
    Ok(())
}

/// The display of this id has these places.
fn expect_places(
    rt: &impl Abort,
    alloc: Global,
    index: &Index,
    id: &str,
    places: &[Place],
) -> Result<(), Fail> {
    let id = Text::of(alloc, id)?;
    let found = index.places(&id).as_slice();
    drop(id);
    assert_eq!(rt; found, places);
    Ok(())
}

/// Two displays have places in a cell that is cleared.
fn expect_cleared(rt: &impl Abort, alloc: Global, index: &mut Index) -> Result<(), Fail> {
    add_all(alloc, index, "x", &[place(0, 0), place(1, 0)])?;
    let places = [place(0, 1), place(7, 0), place(0, 2)];
    add_all(alloc, index, "y", &places)?;
    index.clear(0);
    expect_places(rt, alloc, index, "x", &[place(1, 0)])?;
    expect_places(rt, alloc, index, "y", &[place(7, 0)])
}

#[test]
fn a_cleared_cell_loses_its_places_alone(rt: HostRuntime) -> Result<(), Fail> {
    let mut index = Index::new(rt.alloc());
    let end = expect_cleared(&rt, rt.alloc(), &mut index);
    drop(index);
    end
}

/// A cell without places is cleared before a place is added and after it.
fn expect_one(rt: &impl Abort, alloc: Global, index: &mut Index) -> Result<(), Fail> {
    index.clear(5);
    add_all(alloc, index, "x", &[place(2, 0)])?;
    index.clear(5);
    expect_places(rt, alloc, index, "x", &[place(2, 0)])?;
    expect_places(rt, alloc, index, "z", &[])
}

#[test]
fn nothing_stands_for_an_unknown_id_or_in_an_unused_cell(rt: HostRuntime) -> Result<(), Fail> {
    let mut index = Index::new(rt.alloc());
    let end = expect_one(&rt, rt.alloc(), &mut index);
    drop(index);
    end
}

/// Gives the display ten thousand places in a hundred cells, of which one is cleared.
fn fill(index: &mut Index, id: &Text) -> Result<(), NoMemory> {
    for i in 0..10_000u32 {
        index.add(id, place(i % 100, i))?;
    }
    index.clear(3);
    Ok(())
}

fn expect_order(rt: &impl Abort, places: &[Place]) {
    assert_eq!(rt; places.len(), 9_900);
    assert!(rt; places.get(3).is_some_and(|p| *p == place(4, 4)));
    assert!(rt; places.iter().all(|p| p.at % 100 == p.cell));
}

/// The places of a full display are in order.
fn expect_full(rt: &impl Abort, alloc: Global, index: &mut Index) -> Result<(), Fail> {
    let x = Text::of(alloc, "x")?;
    fill(index, &x)?;
    expect_order(rt, index.places(&x).as_slice());
    Ok(())
}

#[test]
fn ten_thousand_places_of_one_id_stay_in_order(rt: HostRuntime) -> Result<(), Fail> {
    let mut index = Index::new(rt.alloc());
    let end = expect_full(&rt, rt.alloc(), &mut index);
    drop(index);
    end
}
