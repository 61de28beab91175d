// Lists of places that rise.
ghost use Rattle.std.specs.Prelude.{◌≡◌, ◌<◌, ◌≤◌, ◌++◌, ltb, length, take, drop, slice_index, is_some, OnOk, OnErr};
ghost use Rattle.std.specs.List.Sorted.{IsPartitionedBy};
ghost use Rattle.lie_tables.specs.Places.{placed, first_from, lifted, lowered, opened, closed, some_places};

use lie_bytes::NoMemory;

/// The first place in a list that is not below another; its length where there is none.
fn find(list: &[usize], place: usize) -> usize
    ensures within { result ≤ length list.now }
    ensures split { placed place list.now ≡ take result list.now ++ placed place (drop result list.now) }
    ensures least { result < length list.now → place ≤ slice_index list.now result }
{
    let mut at = 0;
    while at < list.len() && list[at] < place {
        at += 1;
    }
    at
}

/// Puts a place into a list, unless it is there.
pub fn put_place(list: &mut Vec<usize>, place: usize) -> Result<(), NoMemory>
    ensures put { OnOk result (list.new.items ≡ placed place list.old.items) }
    ensures kept { OnErr result (list.new.items ≡ list.old.items) }
{
    let at = find(list.as_slice(), place);
    if at < list.len() && list[at] == place {
        return Ok(());
    }
    list.insert(at, place)?;
    Ok(())
}

/// The first place of a list that is not below another, found by halving.
pub fn first_from(list: &[usize], place: usize) -> Option<usize>
    requires { IsPartitionedBy (λ p. ltb p place) list.now }
    ensures { result ≡ first_from place list.now }
{
    let at = list.partition_point(|p| *p < place);
    if at < list.len() {
        Some(list[at])
    } else {
        None
    }
}

/// Whether there are places in a list.
pub fn has_places(list: &Vec<usize>) -> bool
    ensures { result ≡ is_some (some_places list.now.items) }
{
    list.len() > 0
}

/// A place after something was put in at another.
fn lifted(place: usize, put: usize) -> usize
    ensures { result ≡ lifted put place }
{
    if place < put {
        place
    } else {
        place.saturating_add(1)
    }
}

/// A place after what stood at another was taken out.
fn lowered(place: usize, taken: usize) -> usize
    ensures { result ≡ lowered taken place }
{
    if taken < place { place - 1 } else { place }
}

/// The places after something was put in at one.
pub fn open_place(list: &mut Vec<usize>, place: usize)
    ensures { list.new.items ≡ opened place list.old.items }
{
    for i in 0..list.len() {
        list[i] = lifted(list[i], place);
    }
}

/// The places without one of them, after what stood there was taken out.
pub fn close_place(list: &mut Vec<usize>, place: usize)
    ensures { list.new.items ≡ closed place list.old.items }
{
    list.retain(|p| *p != place);
    for i in 0..list.len() {
        list[i] = lowered(list[i], place);
    }
}
