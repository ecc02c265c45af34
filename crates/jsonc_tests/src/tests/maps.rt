//! Maps and objects.

use failing_alloc::Refusing;
use failing_alloc::awaited::Awaited;
use failing_alloc::in_turn::refused_in_turn;
use failing_alloc::outcome::Outcome;
use jsonc_parser::{JsonObject, JsonValue, Map};
use std::alloc::{AllocError, AllocFailed, Allocator, Global};
use std::borrow::CowStr;
use std::fmt::Write;
use std::test::Fail;

fn two_pairs<A: Allocator>(
    alloc: A,
    one: (char, u32),
    other: (char, u32),
) -> Result<Vec<(char, u32), A>, AllocError> {
    let mut pairs = Vec::new(alloc);
    pairs.push(one)?;
    pairs.push(other)?;
    Ok(pairs)
}

/// Three pairs, put in one by one.
fn inserted<A: Allocator + Copy>(alloc: A) -> Result<Map<char, u32, A>, AllocError> {
    let mut map = Map::with_capacity(alloc, 1)?;
    insert_three(&mut map)?;
    Ok(map)
}

fn insert_three<A: Allocator + Copy>(map: &mut Map<char, u32, A>) -> Result<(), AllocError> {
    map.insert('a', 1)?;
    map.insert('b', 2)?;
    let lent = map.entry('c')?.or_insert(0)?;
    *lent = 3;
    Ok(())
}

/// These, with a list after them that has a new key and a present one.
fn extended<A: Allocator + Copy>(alloc: A) -> Result<Map<char, u32, A>, AllocError> {
    let mut map = inserted(alloc)?;
    map.reserve(8)?;
    map.extend_list(two_pairs(alloc, ('d', 4), ('a', 5))?)?;
    Ok(map)
}

/// The same pairs in another order.
fn listed<A: Allocator + Copy>(alloc: A) -> Result<Map<char, u32, A>, AllocError> {
    let mut pairs = two_pairs(alloc, ('b', 2), ('c', 3))?;
    pairs.push(('a', 5))?;
    pairs.push(('d', 4))?;
    Map::from_list(alloc, pairs)
}

/// Whether a copy of a changed map has the pairs that it was given.
fn is_map_copied<A: Allocator + Copy>(alloc: A, map: &Map<char, u32, A>) -> Outcome {
    match listed(alloc) {
        Ok(listed) => Outcome::of_answer(map.try_clone(), &listed),
        Err(error) => Outcome::from(error),
    }
}

fn is_map_extended<A: Allocator + Copy>(alloc: A) -> Outcome {
    match extended(alloc) {
        Ok(map) => is_map_copied(alloc, &map),
        Err(error) => Outcome::from(error),
    }
}

/// Whether an object with room for one property has the one that is put there.
fn is_object_of_one<A: Allocator + Copy>(alloc: A) -> Result<bool, AllocError> {
    let object = JsonObject::with_capacity(alloc, 1)?;
    let mut map = object.take_inner();
    map.insert(CowStr::Borrowed("a"), JsonValue::Null)?;
    Ok(JsonObject::new(map).len() == 1)
}

/// `x` with 1, `y` with 2, and `x` again with 3.
fn some_pairs<A: Allocator + Copy>(alloc: A) -> Result<Map<char, u32, A>, AllocError> {
    let mut pairs = two_pairs(alloc, ('x', 1), ('y', 2))?;
    pairs.push(('x', 3))?;
    Map::from_list(alloc, pairs)
}

/// Whether these are the pairs of a map in their order, each written after a blank.
fn has<A: Allocator>(map: &Map<char, u32, A>, wanted: &str) -> bool {
    let mut text = Awaited {
        rest: wanted.as_bytes(),
    };
    for (key, value) in map.iter() {
        if write!(text, " {key}{value}").is_err() {
            return false;
        }
    }
    text.rest.is_empty()
}

/// Changes a value, and makes room for eight more.
fn change<A: Allocator + Copy>(map: &mut Map<char, u32, A>) -> Result<(), AllocError> {
    map.reserve(8)?;
    if let Some(value) = map.get_mut(&'y') {
        *value = 7;
    }
    map.insert('z', 9)?;
    Ok(())
}

fn is_copied<A: Allocator + Copy>(map: &Map<char, u32, A>) -> Outcome {
    match map.try_clone() {
        Ok(copy) => Outcome::of(copy == *map && has(&copy, " x3 y7 z9")),
        Err(error) => Outcome::from(error),
    }
}

/// Pairs are changed and copied, and an entry is removed.
fn is_changed<A: Allocator + Copy>(map: Map<char, u32, A>) -> Outcome {
    let mut map = map;
    match change(&mut map) {
        Ok(()) => {
            let copied = is_copied(&map).then(Outcome::of(map.capacity() >= 10));
            let removed = map.remove_entry(&'y') == Some(('y', 7)) && map.contains_key(&'z');
            copied.then(Outcome::of(removed))
        }
        Err(error) => Outcome::from(error),
    }
}

/// The last value stands at the first place, a removal closes up, and a cleared map is empty.
fn is_emptied<A: Allocator + Copy>(map: Map<char, u32, A>) -> bool {
    let mut map = map;
    let is_whole = has(&map, " x3 y2");
    let is_removed = map.remove(&'x') == Some(3) && has(&map, " y2");
    map.clear();
    is_whole && is_removed && map.is_empty()
}

/// Lends the values of a present key and of an absent one, and turns a pair down.
fn lend<A: Allocator + Copy>(map: &mut Map<char, u32, A>) -> Result<(), AllocError> {
    let present = map.entry('x')?.or_insert(8)?;
    *present = 4;
    let absent = map.entry('w')?.or_insert(5)?;
    *absent = 6;
    map.retain(|_key, value| *value != 2);
    Ok(())
}

fn is_lent<A: Allocator + Copy>(map: Map<char, u32, A>) -> Outcome {
    let mut map = map;
    match lend(&mut map) {
        Ok(()) => Outcome::of(has(&map, " x4 w6")),
        Err(error) => Outcome::from(error),
    }
}

fn changed_pairs<A: Allocator + Copy>(alloc: A) -> Outcome {
    match some_pairs(alloc) {
        Ok(map) => is_changed(map),
        Err(error) => Outcome::from(error),
    }
}

fn emptied_pairs<A: Allocator + Copy>(alloc: A) -> Outcome {
    match some_pairs(alloc) {
        Ok(map) => Outcome::of(is_emptied(map)),
        Err(error) => Outcome::from(error),
    }
}

fn lent_pairs<A: Allocator + Copy>(alloc: A) -> Outcome {
    match some_pairs(alloc) {
        Ok(map) => is_lent(map),
        Err(error) => Outcome::from(error),
    }
}

/// Each call of a map that may want memory, one after another.
pub fn changed_map<A: Allocator + Copy>(alloc: A) -> Outcome {
    let is_one = Outcome::of_answer(is_object_of_one(alloc), &true);
    let are_pairs = changed_pairs(alloc)
        .then(emptied_pairs(alloc))
        .then(lent_pairs(alloc));
    is_map_extended(alloc).then(is_one).then(are_pairs)
}

#[test]
fn maps_are_changed_and_copied(rt: HostRuntime) {
    assert!(rt; changed_map::<Global>(rt.alloc()) == Outcome::Answered);
}

/// A map with room for so many pairs takes as many as it says that it can hold, and asks for nothing more.
fn is_filled_unasked(alloc: Global, room: usize) -> bool {
    let heap = Refusing::at(alloc, u64::MAX);
    let Ok(map) = Map::with_capacity(&heap, room) else {
        return false;
    };
    let mut map = map;
    let asked = heap.asked();
    let capacity = map.capacity();
    for key in 0..capacity {
        if map.insert(key, '-').is_err() {
            return false;
        }
    }
    capacity >= room && map.len() == capacity && heap.asked() == asked
}

#[test]
fn maps_are_filled_to_their_capacity_unasked(rt: HostRuntime) -> Result<(), Fail> {
    // Of up to 8 pairs no hashes are kept.
    for room in [1usize, 8, 9, 20] {
        assert!(rt; is_filled_unasked(rt.alloc(), room), "room for {room}");
    }
    Ok(())
}

/// Whether a map of three pairs lends and counts them.
fn is_told<A: Allocator>(map: &Map<char, u32, A>) -> bool {
    let is_counted = map.len() == 3 && !map.is_empty() && map.capacity() >= 3;
    let are_lent = map.keys().next() == Some(&'a')
        && map.values().nth(1) == Some(&2)
        && map.iter().nth(2) == Some((&'c', &3));
    let are_found = map.get(&'b') == Some(&2)
        && map.get_key_value(&'c') == Some((&'c', &3))
        && map.contains_key(&'a')
        && !map.contains_key(&'d');
    is_counted && are_lent && are_found && *map == *map
}

/// Whether a pair that is turned down leaves, a value is written, and an entry is taken out.
fn is_kept<A: Allocator>(map: Map<char, u32, A>) -> bool {
    let mut map = map;
    map.retain(|key, _value| *key != 'a');
    if let Some(value) = map.get_mut(&'b') {
        *value = 7;
    }
    let removed = map.remove_entry(&'c');
    removed == Some(('c', 3)) && has(&map, " b7")
}

/// Whether maps are asked and changed, and give up what they hold, without a further request.
fn is_map_unasked(heap: &Refusing<Global>) -> Result<bool, AllocError> {
    let (keys, values, pairs) = (inserted(heap)?, inserted(heap)?, inserted(heap)?);
    let (kept, emptied) = (inserted(heap)?, some_pairs(heap)?);
    let asked = heap.asked();
    let new: Map<char, u32, &Refusing<Global>> = Map::new(heap);
    let is_copied = match new.try_clone() {
        Ok(copy) => copy.is_empty(),
        Err(_) => false,
    };
    let are_told = new.is_empty() && is_copied && is_told(&keys);
    let are_given_up = keys.into_keys().nth(1) == Some('b')
        && values.into_values().nth(2) == Some(3)
        && pairs.into_iter().next() == Some(('a', 1));
    let are_changed = is_kept(kept) && is_emptied(emptied);
    Ok(are_told && are_given_up && are_changed && heap.asked() == asked)
}

#[test]
fn maps_are_asked_without_memory(rt: HostRuntime) -> Result<(), Fail> {
    let heap = Refusing::at(rt.alloc(), u64::MAX);
    assert!(rt; is_map_unasked(&heap)?);
    Ok(())
}

/// Eleven pairs, one by one. Of more than 8 the hashes are kept. A refused pair comes back, and the map stays.
fn is_handed_back<A: Allocator + Copy>(alloc: A) -> Outcome {
    let mut map = Map::new(alloc);
    for key in 0..11usize {
        if let Err(AllocFailed { value: pair }) = map.insert(key, '-') {
            let is_left = pair == (key, '-') && map.len() == key && !map.contains_key(&key);
            return if is_left {
                Outcome::Wanted
            } else {
                Outcome::Other
            };
        }
    }
    Outcome::of(map.len() == 11)
}

/// Whether those of eleven pairs that a list could not insert come back, and the others are there.
fn is_rest_handed_back<A: Allocator + Copy>(
    alloc: A,
    pairs: Vec<(usize, char), Global>,
) -> Outcome {
    let mut map = Map::new(alloc);
    match map.extend_list(pairs) {
        Ok(()) => Outcome::of(map.len() == 11),
        Err(AllocFailed { value: rest }) => {
            let is_next = rest.first() == Some(&(map.len(), '-'));
            let are_all = 11usize.checked_sub(map.len()) == Some(rest.len());
            let are_kept = map.keys().is_sorted();
            if is_next && are_all && are_kept {
                Outcome::Wanted
            } else {
                Outcome::Other
            }
        }
    }
}

/// The same, of a list whose own memory is there.
fn is_list_handed_back(alloc: Global, heap: &Refusing<Global>) -> Outcome {
    let mut pairs = Vec::new(alloc);
    for key in 0..11usize {
        if pairs.push((key, '-')).is_err() {
            return Outcome::Other;
        }
    }
    is_rest_handed_back(heap, pairs)
}

#[test]
fn refused_pairs_are_handed_back(rt: HostRuntime) -> Result<(), Fail> {
    let alloc = rt.alloc();
    let one_by_one = refused_in_turn(alloc, |heap| is_handed_back(heap));
    let listed = refused_in_turn(alloc, |heap| is_list_handed_back(alloc, heap));
    assert!(rt; matches!((one_by_one, listed), (Some(4..), Some(4..))));
    Ok(())
}

/// Fills a map up to what it says that it can hold, with keys from one on, and asks for nothing.
fn is_filled_up(
    heap: &Refusing<Global>,
    map: &mut Map<usize, char, &Refusing<Global>>,
    first: usize,
) -> bool {
    let asked = heap.asked();
    let capacity = map.capacity();
    let free = capacity - map.len();
    for key in first..first.saturating_add(free) {
        if map.insert(key, '-').is_err() {
            return false;
        }
    }
    map.len() == capacity && heap.asked() == asked
}

/// A map in use is filled up without a further request: once it has a pair, more room, fewer pairs, or none.
fn keeps_its_room(heap: &Refusing<Global>) -> Result<bool, AllocError> {
    let mut map = Map::new(heap);
    map.insert(0, '-')?;
    let is_begun = is_filled_up(heap, &mut map, 1);
    let len = map.len();
    map.reserve(12)?;
    let has_room = map.capacity() >= len.saturating_add(12);
    let is_grown = is_filled_up(heap, &mut map, 100);
    let capacity = map.capacity();
    map.retain(|key, _value| *key % 2 == 0);
    let is_thinned = map.capacity() == capacity && is_filled_up(heap, &mut map, 1000);
    map.clear();
    let is_cleared = map.capacity() == capacity && is_filled_up(heap, &mut map, 0);
    Ok(is_begun && has_room && is_grown && is_thinned && is_cleared)
}

#[test]
fn maps_in_use_keep_their_room(rt: HostRuntime) -> Result<(), Fail> {
    let heap = Refusing::at(rt.alloc(), u64::MAX);
    assert!(rt; keeps_its_room(&heap)?);
    Ok(())
}

/// The place of a present key is lent though all is refused, and that of an absent one wants memory where there is
/// no room.
fn is_entered<A: Allocator + Copy>(map: &mut Map<usize, char, A>) -> bool {
    let is_refused = map.entry(map.len()).is_err();
    let is_lent = match map.entry(0) {
        Ok(entry) => match entry.or_insert('b') {
            Ok(value) => *value == 'a',
            Err(_) => false,
        },
        Err(_) => false,
    };
    is_lent && is_refused
}

/// A map of so many pairs that is full, and then finds no more memory.
fn is_full_entered(alloc: Global, room: usize) -> bool {
    let counted = Refusing::at(alloc, u64::MAX);
    drop(full_map(&counted, room));
    let heap = Refusing::after(alloc, counted.asked());
    match full_map(&heap, room) {
        Ok(map) => {
            let mut map = map;
            is_entered(&mut map)
        }
        Err(_) => false,
    }
}

fn full_map<A: Allocator + Copy>(alloc: A, room: usize) -> Result<Map<usize, char, A>, AllocError> {
    let mut map = Map::with_capacity(alloc, room)?;
    for key in 0..map.capacity() {
        map.insert(key, 'a')?;
    }
    Ok(map)
}

#[test]
fn present_keys_are_entered_unasked(rt: HostRuntime) -> Result<(), Fail> {
    for room in [1usize, 8, 20] {
        assert!(rt; is_full_entered(rt.alloc(), room), "room for {room}");
    }
    Ok(())
}
