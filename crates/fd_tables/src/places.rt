//! Lists in which a thing stands at the place of its number.

ghost use Rattle.std.specs.Prelude.{◌≡◌, ◌+◌, ◌≤◌, ◌^◌, length, IfOk, OnErr, slice_set};
ghost use Rattle.fd_tables.specs.Files.{at_number, first_free, free_number, with_next};
ghost use Rattle.fd_tables.specs.Spare.{spare_places};

use std::alloc::AllocError;

/// What stands at a number.
pub(crate) fn at_number<T: Copy>(places: &[Option<T>], number: u32) -> Option<T>
    ensures { result ≡ at_number places.now number }
{
    match places.get(number as usize) {
        Some(place) => *place,
        None => None,
    }
}

/// Puts something at a place of a list, if that is there.
pub(crate) fn set_place<T: Drop>(places: &mut [T], place: u32, item: T)
    ensures { places.new ≡ slice_set places.old place item }
{
    let place = place as usize;
    if place < places.len() {
        places[place] = item;
    }
}

/// The first free place.
pub(crate) fn first_free<T>(places: &[Option<T>]) -> Option<usize>
    ensures { result ≡ first_free places.now }
{
    places.iter().position(|place| place.is_none())
}

/// Takes the memory of up to three places more.
pub(crate) fn ready_places<T>(places: &mut Vec<Option<T>>, count: usize) -> Result<(), AllocError>
    requires { count ≤ 3 }
    ensures same { places.new.items ≡ places.old.items }
    ensures spare { IfOk result (λ _. count ≤ spare_places places.new) }
    ensures keeps { spare_places places.old ≤ spare_places places.new }
    ensures numbers { IfOk result (λ _. length places.old.items + count ≤ 2 ^ 32) }
{
    if places.len() + count > u32::MAX as usize + 1 {
        return Err(AllocError);
    }
    places.reserve(count)
}

/// The lowest number that is free.
#[tactic(auto, unfolding(crate::specs::Files::free_number))]
pub(crate) fn next_number<T>(places: &Vec<Option<T>>) -> Result<u32, AllocError>
    ensures number { IfOk result (λ n. n ≡ free_number places.now.items) }
    ensures full { OnErr result (spare_places places.now ≡ 0) }
{
    let free = first_free(places);
    let Ok(number) = u32::try_from(free.unwrap_or(places.len())) else {
        return Err(AllocError);
    };
    Ok(number)
}

/// Puts an item at the lowest number that is free, and gives that number. After a fault nothing has changed.
#[tactic(auto, using(crate::proofs::Numbers::next_inside, crate::proofs::Numbers::next_behind))]
pub(crate) fn put_next<T: Drop>(places: &mut Vec<Option<T>>, item: T) -> Result<u32, AllocError>
    ensures number { IfOk result (λ n. n ≡ free_number places.old.items) }
    ensures items { IfOk result (λ _. places.new.items ≡ with_next item places.old.items) }
    ensures same { OnErr result (places.new.items ≡ places.old.items) }
    ensures full { OnErr result (spare_places places.old ≡ 0) }
    ensures uses { spare_places places.old ≤ spare_places places.new + 1 }
{
    let free = first_free(places);
    let Ok(number) = u32::try_from(free.unwrap_or(places.len())) else {
        return Err(AllocError);
    };
    match free {
        Some(place) => places[place] = Some(item),
        None => places.push(Some(item))?,
    }
    Ok(number)
}
