ghost use Rattle.std.specs.Prelude.{◌≡◌, Some, None};
ghost use Rattle.frp_store.specs.Items.{updated};
ghost use Rattle.frp_store.specs.Undo.{set_occ, set_before, set_target};
ghost use Rattle.frp_store.specs.Closing.{at, held_occ, held_before, held_target};

use crate::held::Held;
use frp_base::{Place, Val};
use frp_region::Region;
use std::mem;

/// Gives the node of a place this occurrence, or none, and answers the one that it had. Where no node has the place, all is as before.
pub fn put_occ(held: &mut Region<Held>, place: u64, occ: Option<Val>) -> Option<Val>
    ensures value { result ≡ at held_occ held.old.items place }
    ensures held { held.new.items ≡ updated place (set_occ occ) held.old.items }
{
    if place < held.len() {
        mem::replace(&mut held.get_mut(Place(place)).occ, occ)
    } else {
        None
    }
}

/// Gives the node of a place this value before, or none, and answers the one that it had. Where no node has the place, all is as before.
pub fn put_before(held: &mut Region<Held>, place: u64, before: Option<Val>) -> Option<Val>
    ensures value { result ≡ at held_before held.old.items place }
    ensures held { held.new.items ≡ updated place (set_before before) held.old.items }
{
    if place < held.len() {
        mem::replace(&mut held.get_mut(Place(place)).before, before)
    } else {
        None
    }
}

/// Gives the node of a place this value before. Where no node has the place, all is as before.
pub fn write_before(held: &mut Region<Held>, place: u64, before: Val)
    ensures { held.new.items ≡ updated place (set_before (Some before)) held.old.items }
{
    put_before(held, place, Some(before));
}

/// Gives the node of a place this occurrence. Where no node has the place, all is as before.
pub fn write_occ(held: &mut Region<Held>, place: u64, occ: Val)
    ensures { held.new.items ≡ updated place (set_occ (Some occ)) held.old.items }
{
    put_occ(held, place, Some(occ));
}

/// Turns the node of a place to another one, or to none, and answers where it was turned before. Where no node has the place, all is as
/// before.
pub fn put_target(held: &mut Region<Held>, place: u64, target: Option<u64>) -> Option<u64>
    ensures value { result ≡ at held_target held.old.items place }
    ensures held { held.new.items ≡ updated place (set_target target) held.old.items }
{
    if place < held.len() {
        mem::replace(&mut held.get_mut(Place(place)).target, target)
    } else {
        None
    }
}
