// Tables by keys, as the rows of keys change.
ghost use Rattle.std.specs.Prelude.{◌≡◌, ℕ, ◌<◌, ◌≤◌, ◌-◌, ◌^◌, [], length, List, remove, OnOk, OnErr};
ghost use Rattle.std.specs.List.{insert};
ghost use Rattle.lie_tables.specs.Places.{opened, closed, IsTable, with_key};

use crate::places::{close_place, has_places, open_place, put_place};
use indexmap::IndexMap;
use lie_bytes::NoMemory;
use std::alloc::Global;
use std::hash::Hash;

/// The table after a row without keys was put in at a place.
pub fn open_row<K: Eq + Hash + Drop>(table: &mut IndexMap<K, Vec<usize>>, place: usize)
    ensures { (rows : List (List K)) → IsTable K.eq table.old rows → place ≤ length rows → length rows < 2 ^ 64 - 1
        → IsTable K.eq table.new (insert rows place []) }
{
    let _ = table.len();
    table.retain(|_key: &K, list: &mut Vec<usize>| -> bool {
        open_place(list, place);
        has_places(list)
    });
}

/// The table after the row at a place was taken out.
pub fn close_row<K: Eq + Hash + Drop>(table: &mut IndexMap<K, Vec<usize>>, place: usize)
    ensures { (rows : List (List K)) → IsTable K.eq table.old rows → place < length rows → IsTable K.eq table.new (remove rows place) }
{
    let _ = table.len();
    table.retain(|_key: &K, list: &mut Vec<usize>| -> bool {
        close_place(list, place);
        has_places(list)
    });
}

/// The table after a key was added to the row at a place.
pub fn note_key<K: Eq + Hash + Drop>(
    table: &mut IndexMap<K, Vec<usize>>,
    alloc: Global,
    key: K,
    place: usize,
) -> Result<(), NoMemory>
    ensures noted { OnOk result ((rows : List (List K)) → IsTable K.eq table.old rows → place < length rows
        → IsTable K.eq table.new (with_key rows place key)) }
    ensures kept { OnErr result ((rows : List (List K)) → IsTable K.eq table.old rows → IsTable K.eq table.new rows) }
{
    if let Some(list) = table.get_mut(&key) {
        return put_place(list, place);
    }
    let mut list = Vec::new(alloc);
    put_place(&mut list, place)?;
    table.insert(key, list)?;
    Ok(())
}
