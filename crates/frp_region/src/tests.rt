use crate::{Mark, Region};
use frp_base::{Memory, Place, Text};
use std::process::Abort;
use std::test::Fail;

/// Puts an item more, and gives its place.
fn put<T: Drop>(region: &mut Region<T>, item: T) -> Result<Place, Memory> {
    region.reserve(1)?;
    Ok(region.put(item))
}

/// Expects these numbers and no others.
fn expect_items(rt: &impl Abort, region: &Region<u64>, items: &[u64]) {
    assert_eq!(rt; region.len(), items.len() as u64);
    for (i, item) in items.iter().enumerate() {
        let place = Place(i as u64);
        assert!(rt; place.0 < region.len());
        assert_eq!(rt; *region.get(place), *item, "at place {i}");
    }
}

/// Cuts to a mark that is not past the end.
fn cut<T: Drop>(rt: &impl Abort, region: &mut Region<T>, mark: Mark) {
    assert!(rt; mark.length <= region.len());
    region.cut(mark);
}

#[test]
fn a_cut_leaves_what_was_marked(rt: HostRuntime) -> Result<(), Fail> {
    let mut region = Region::new(rt.alloc());
    region.reserve(3)?;
    region.put(7);
    let mark = region.mark();
    region.put(8);
    region.put(9);
    cut(&rt, &mut region, mark);
    expect_items(&rt, &region, &[7]);
    assert_eq!(rt; put(&mut region, 5)?, Place(1));
    expect_items(&rt, &region, &[7, 5]);
    Ok(())
}

#[test]
fn a_write_is_at_its_place(rt: HostRuntime) -> Result<(), Fail> {
    let mut region = Region::new(rt.alloc());
    for i in 0..4 {
        put(&mut region, i)?;
    }
    assert!(rt; 2 < region.len());
    *region.get_mut(Place(2)) = 20;
    expect_items(&rt, &region, &[0, 1, 20, 3]);
    Ok(())
}

#[test]
fn many_items_are_at_their_places(rt: HostRuntime) -> Result<(), Fail> {
    let mut region = Region::new(rt.alloc());
    let mut items = Vec::new(rt.alloc());
    for i in 0..200 {
        assert_eq!(rt; put(&mut region, i)?, Place(i));
        items.push(i)?;
    }
    expect_items(&rt, &region, &items);
    cut(&rt, &mut region, Mark { length: 70 });
    items.truncate(70);
    expect_items(&rt, &region, &items);
    assert_eq!(rt; put(&mut region, 1000)?, Place(70));
    items.push(1000)?;
    expect_items(&rt, &region, &items);
    Ok(())
}

#[test]
fn items_that_own_memory(rt: HostRuntime) -> Result<(), Fail> {
    let mut region = Region::new(rt.alloc());
    for word in ["till", "shop", "scan"] {
        let mut text = Text::new(rt.alloc());
        text.push_str(word)?;
        put(&mut region, text)?;
    }
    cut(&rt, &mut region, Mark { length: 2 });
    assert!(rt; 1 < region.len());
    assert_eq!(rt; region.get(Place(1)).as_str(), "shop");
    Ok(())
}

/// Takes what may be sent to other threads and shared among them.
fn crosses<T: Send + Sync>(_value: &T) {}

#[test]
fn a_region_crosses_threads(rt: HostRuntime) {
    let region: Region<u64> = Region::new(rt.alloc());
    crosses(&region);
}
