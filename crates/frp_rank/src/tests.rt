use crate::Ranks;
use frp_base::{Memory, Place};
use std::process::Abort;

/// Ranks with so many places.
fn with_places(rt: &HostRuntime, count: u64) -> Result<Ranks, Memory> {
    let mut ranks = Ranks::new(rt.alloc());
    for _ in 0..count {
        ranks.add()?;
    }
    Ok(ranks)
}

/// Expects that the link closes no chain.
fn link(rt: &impl Abort, ranks: &mut Ranks, from: u64, to: u64) -> Result<(), Memory> {
    assert!(rt; from < ranks.len());
    assert!(rt; to < ranks.len());
    let chain = ranks.raise(Place(from), Place(to))?;
    assert!(rt; chain.is_none(), "{from} to {to}");
    Ok(())
}

/// Expects that the link closes this chain.
fn refuse(
    rt: &impl Abort,
    ranks: &mut Ranks,
    from: u64,
    to: u64,
    places: &[u64],
) -> Result<(), Memory> {
    assert!(rt; from < ranks.len());
    assert!(rt; to < ranks.len());
    match ranks.raise(Place(from), Place(to))? {
        Some(chain) => assert!(rt; are_places(chain.as_slice(), places), "{from} to {to}"),
        None => assert!(rt; false, "no chain: {from} to {to}"),
    }
    Ok(())
}

/// Whether the places have these numbers.
fn are_places(places: &[Place], numbers: &[u64]) -> bool {
    places.len() == numbers.len() && places.iter().zip(numbers).all(|(p, n)| p.0 == *n)
}

/// Expects these ranks, and no more places.
fn expect_ranks(rt: &impl Abort, ranks: &Ranks, expected: &[u64]) {
    assert_eq!(rt; ranks.len(), expected.len() as u64);
    for (place, rank) in expected.iter().enumerate() {
        let place = place as u64;
        assert!(rt; place < ranks.len());
        assert_eq!(rt; ranks.rank(Place(place)), *rank, "at {place}");
    }
}

/// Two places more, of which the second gets a rank that is twice the last place's, and two more.
fn double(rt: &impl Abort, ranks: &mut Ranks) -> Result<(), Memory> {
    let low = ranks.add()?.0;
    let high = ranks.add()?.0;
    let top = low.saturating_sub(1);
    link(rt, ranks, high, top)?;
    ranks.unlink(Place(high), Place(top))?;
    link(rt, ranks, high, low)?;
    link(rt, ranks, low, top)
}

#[test]
fn a_link_that_closes_a_chain_is_refused(rt: HostRuntime) -> Result<(), Memory> {
    let mut ranks = with_places(&rt, 3)?;
    link(&rt, &mut ranks, 1, 0)?;
    link(&rt, &mut ranks, 2, 1)?;
    expect_ranks(&rt, &ranks, &[0, 1, 2]);
    refuse(&rt, &mut ranks, 0, 2, &[0, 2, 1])?;
    expect_ranks(&rt, &ranks, &[0, 1, 2]);
    ranks.unlink(Place(2), Place(1))?;
    link(&rt, &mut ranks, 0, 2)?;
    expect_ranks(&rt, &ranks, &[3, 4, 2]);
    Ok(())
}

#[test]
fn a_place_linked_to_itself_is_a_chain(rt: HostRuntime) -> Result<(), Memory> {
    let mut ranks = with_places(&rt, 2)?;
    refuse(&rt, &mut ranks, 1, 1, &[1])
}

#[test]
fn two_places_are_a_chain(rt: HostRuntime) -> Result<(), Memory> {
    let mut ranks = with_places(&rt, 2)?;
    link(&rt, &mut ranks, 0, 1)?;
    refuse(&rt, &mut ranks, 1, 0, &[0, 1])
}

#[test]
fn a_thousand_places_are_a_chain(rt: HostRuntime) -> Result<(), Memory> {
    let mut ranks = with_places(&rt, 1000)?;
    let mut chain = vec![in rt.alloc(); 0]?;
    for place in 1..1000 {
        link(&rt, &mut ranks, place, place - 1)?;
        chain.push(1000 - place)?;
    }
    refuse(&rt, &mut ranks, 0, 999, chain.as_slice())
}

#[test]
fn a_link_that_is_there_changes_nothing(rt: HostRuntime) -> Result<(), Memory> {
    let mut ranks = with_places(&rt, 2)?;
    link(&rt, &mut ranks, 1, 0)?;
    link(&rt, &mut ranks, 1, 0)?;
    ranks.unlink(Place(1), Place(0))?;
    ranks.unlink(Place(1), Place(0))?;
    link(&rt, &mut ranks, 0, 1)?;
    expect_ranks(&rt, &ranks, &[2, 1]);
    Ok(())
}

#[test]
fn ranks_are_renumbered_at_their_limit(rt: HostRuntime) -> Result<(), Memory> {
    let mut ranks = with_places(&rt, 1)?;
    for _ in 0..31 {
        double(&rt, &mut ranks)?;
    }
    assert!(rt; 62 < ranks.len());
    assert_eq!(rt; ranks.rank(Place(62)), 0xffff_fffe);
    double(&rt, &mut ranks)?;
    for place in 0..65 {
        assert!(rt; place < ranks.len());
        assert_eq!(rt; ranks.rank(Place(place)), place);
    }
    Ok(())
}

#[test]
fn a_roll_back_undoes_all_since_the_commit(rt: HostRuntime) -> Result<(), Memory> {
    let mut ranks = with_places(&rt, 3)?;
    link(&rt, &mut ranks, 1, 0)?;
    link(&rt, &mut ranks, 2, 1)?;
    ranks.commit();
    ranks.unlink(Place(2), Place(1))?;
    link(&rt, &mut ranks, 0, 2)?;
    for _ in 0..32 {
        double(&rt, &mut ranks)?;
    }
    ranks.roll_back();
    expect_ranks(&rt, &ranks, &[0, 1, 2]);
    refuse(&rt, &mut ranks, 0, 2, &[0, 2, 1])?;
    ranks.roll_back();
    expect_ranks(&rt, &ranks, &[0, 1, 2]);
    Ok(())
}

#[test]
fn without_a_commit_all_is_undone(rt: HostRuntime) -> Result<(), Memory> {
    let mut ranks = with_places(&rt, 2)?;
    link(&rt, &mut ranks, 1, 0)?;
    ranks.roll_back();
    expect_ranks(&rt, &ranks, &[]);
    Ok(())
}
