// A list of rows whose names differ.
ghost use Rattle.std.specs.Prelude.{◌≡◌, ◌<◌, ◌≤◌, [], ◌∷◌, ◌++◌, map, take, drop, length, remove, option_copied};
ghost use Rattle.std.specs.Prelude.{None, IfOk, OnOk, OnErr, IfSome, IsSome, MatchBool};
ghost use Rattle.lie_outer.specs.Rows.{AreRows, greatest_row_count, name_of_row, row_named, rows_without};

use lie_bytes::NoMemory;
use lie_outer::{MAX_ROWS, Name, Row};
use std::alloc::Global;
use std::marker::Model;

/// At most `MAX_ROWS` rows, whose names differ. A contract sees them as their list.
#[derive(Drop)]
pub struct Rows {
    items: Vec<Row>,
}

impl Model for Rows {
    ghost use Rattle.std.specs.Prelude.{List};
    ghost use Rattle.lie_outer.specs.declared.rows.Row.{Row as ARow};
    ghost use Rattle.lie_outer.specs.Rows.{AreRows};

    ghost Value = { List ARow };

    ghost view = { λ r. r.items.items };

    ghost invariant = { λ r. AreRows r.items.items };
}

impl Rows {
    /// The rows, which are moved: it takes no memory.
    pub fn new(items: Vec<Row>) -> Rows
        requires { AreRows items.items }
        ensures { result ≡ items.items }
    {
        Rows { items }
    }

    /// Brings what is true of all such rows to a proof.
    pub fn are_rows(&self)
        ensures { AreRows self.now }
    {
        let _ = &self.items;
    }

    /// Says whether no further row is taken.
    pub fn is_full(&self) -> bool
        ensures { MatchBool result (greatest_row_count ≤ length self.now) (length self.now < greatest_row_count) }
    {
        self.items.len() >= MAX_ROWS as usize
    }

    /// The row of the name.
    pub fn find(&self, name: &Name) -> Option<&Row>
        ensures { option_copied result ≡ row_named self.now name.now }
    {
        find(&self.items, name.bytes())
    }

    /// The row stands last. Without memory the rows are as they were.
    pub fn push(&mut self, row: Row) -> Result<(), NoMemory>
        requires fresh { row_named self.old row.name ≡ None }
        requires room { length self.old < greatest_row_count }
        ensures put { OnOk result (self.new ≡ self.old ++ row ∷ []) }
        ensures kept { OnErr result (self.new ≡ self.old) }
        ensures rows { AreRows self.new }
    {
        self.items.push(row)?;
        Ok(())
    }

    /// The row of the name goes; says whether there was one. It takes no memory.
    pub fn remove(&mut self, name: &Name) -> bool
        ensures gone { MatchBool result
            (IsSome (row_named self.old name.now) × (self.new ≡ rows_without self.old name.now))
            ((row_named self.old name.now ≡ None) × (self.new ≡ self.old)) }
        ensures rows { AreRows self.new }
    {
        match place_of(&self.items, name.bytes()) {
            Some(at) => {
                self.items.remove(at);
                true
            }
            None => false,
        }
    }

    /// The names of the `n` rows behind the first `from`, or of as many as there are.
    pub fn names(&self, alloc: Global, from: usize, n: usize) -> Result<Vec<Name>, NoMemory>
        ensures { IfOk result (λ names. names.items ≡ take n (drop from (map name_of_row self.now))) }
    {
        let start = from.min(self.items.len());
        let count = n.min(self.items.len() - start);
        copied_names(alloc, &self.items[start..start + count])
    }
}

// The names of the rows.
fn copied_names(alloc: Global, rows: &[Row]) -> Result<Vec<Name>, NoMemory>
    ensures { IfOk result (λ names. names.items ≡ map name_of_row rows.now) }
{
    let mut names = Vec::new(alloc);
    for row in rows {
        names.push(row.name.copy(alloc)?)?;
    }
    Ok(names)
}

// The first row of the name.
fn find<'a>(rows: &'a [Row], name: &[u8]) -> Option<&'a Row>
    ensures { option_copied result ≡ row_named rows.now name.now }
{
    for row in rows {
        if row.name.bytes() == name {
            return Some(row);
        }
    }
    None
}

// Where the first row of the name stands.
fn place_of(rows: &[Row], name: &[u8]) -> Option<usize>
    ensures found { IfSome result (λ at. (at < length rows.now)
        × IsSome (row_named rows.now name.now)
        × (rows_without rows.now name.now ≡ remove rows.now at)) }
    ensures none { result ≡ None → row_named rows.now name.now ≡ None }
{
    for at in 0..rows.len() {
        if rows[at].name.bytes() == name {
            return Some(at);
        }
    }
    None
}
