ghost use Rattle.std.specs.Prelude.{◌≡◌, ◌<◌, ◌≤◌, [], length, slice_get, OnOk, Some};
ghost use Rattle.frp_store.specs.Places.{numbers, with_place, without_place, count_below, is_number};
ghost use Rattle.frp_store.specs.Items.{but_last, last_of};

use frp_base::{Memory, Place};
use std::alloc::Global;
use std::marker::Model;

/// Places by rising number, each once. Contracts see the numbers, and for how many there is room.
#[derive(Drop)]
pub struct Places {
    places: Vec<Place>,
}

impl Model for Places {
    ghost use Rattle.std.specs.Prelude.{vec_capacity};
    ghost use Rattle.frp_store.specs.Places.{PlaceList, place_list_code, numbers, IsRising};

    ghost Value = { PlaceList };

    ghost coded = { place_list_code };

    ghost view = { λ p. record { items = numbers p.places.items; room = vec_capacity p.places } };

    ghost invariant = { λ p. IsRising (numbers p.places.items) };
}

impl Places {
    ghost use Rattle.frp_store.specs.Places.{IsRising};

    /// No places. It takes no memory.
    pub fn new(alloc: Global) -> Places
        ensures { result.items ≡ [] }
    {
        Places {
            places: Vec::new(alloc),
        }
    }

    /// The places.
    pub fn as_slice(&self) -> &[Place]
        ensures { numbers result.now ≡ self.now.items }
    {
        self.places.as_slice()
    }

    /// The last place, if any.
    pub fn last(&self) -> Option<u64>
        ensures { result ≡ last_of self.now.items }
    {
        match self.places.last() {
            Some(place) => Some(place.0),
            None => None,
        }
    }

    /// Takes the last place out, if any. It takes no memory.
    pub fn pop(&mut self)
        ensures items { self.new.items ≡ but_last self.old.items }
        ensures room { self.new.room ≡ self.old.room }
    {
        self.places.pop();
    }

    /// Makes room for one place more. Where memory is wanting, the room is as before.
    pub fn reserve(&mut self) -> Result<(), Memory>
        ensures ok { OnOk result (length self.old.items < self.new.room) }
        ensures items { self.new.items ≡ self.old.items }
        ensures room { self.old.room ≤ self.new.room }
    {
        self.places.reserve(1)?;
        Ok(())
    }

    /// Puts in a place, if it is not there. It takes no memory.
    pub fn insert(&mut self, place: u64)
        requires room { length (with_place place self.old.items) ≤ self.old.room }
        ensures items { self.new.items ≡ with_place place self.old.items }
        ensures room { self.new.room ≡ self.old.room }
    {
        let number = self.count_below(place);
        if !self.stands_at(number, place) {
            match self.places.insert(number, Place(place)) {
                Ok(()) => (),
                Err(_) => unreachable!(),
            }
        }
    }

    /// Takes a place out, where it is there. It takes no memory.
    pub fn remove(&mut self, place: u64)
        ensures items { self.new.items ≡ without_place place self.old.items }
        ensures room { self.new.room ≡ self.old.room }
    {
        let number = self.count_below(place);
        if self.stands_at(number, place) {
            self.places.remove(number);
        }
    }

    /// How many are below a place. The last ones are looked at first, as those that come after it are moved when it is put in.
    fn count_below(&self, place: u64) -> usize
        ensures { result ≡ count_below place self.now.items }
    {
        let mut number = self.places.len();
        while number > 0 && self.places[number - 1].0 >= place {
            number -= 1;
        }
        number
    }

    /// Whether a place has this number.
    fn stands_at(&self, number: usize, place: u64) -> bool
        ensures { result ≡ is_number (slice_get self.now.items number) place }
    {
        number < self.places.len() && self.places[number].0 == place
    }
}
