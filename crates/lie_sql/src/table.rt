// The table of studies in a SQLite file, and its statements. Of the statements of a call at most the last one writes, and the file
// is locked for this process alone while it is open: so a call needs no transaction.
use lie_bytes::{NoMemory, Text};
use lie_outer::{KeeperFail, MAX_ROWS, Name, Row};
use sqlite::types::ValueRef;
use sqlite::{Connection, Error, ErrorCode, File, FileStore};
use std::alloc::Global;

/// An open file.
pub type Database = Connection<FileStore<File>>;

/// How a row came in.
pub enum Entry {
    /// It stands last.
    Made,
    /// It didn't: a row has its name.
    Taken,
    /// It didn't: there is no room.
    Full,
}

const CREATE: &str =
    "CREATE TABLE studies(seq INTEGER PRIMARY KEY AUTOINCREMENT, name TEXT NOT NULL UNIQUE, \
    text TEXT NOT NULL, report TEXT NOT NULL)";

fn fail_of(error: Error) -> KeeperFail {
    match error {
        Error::SqliteFailure(ErrorCode::OutOfMemory) => KeeperFail::NoMemory,
        _ => KeeperFail::Failed,
    }
}

// The rows that a query shows.
fn query(
    database: &mut Database,
    sql: &str,
    values: &[ValueRef<'_>],
) -> Result<Vec<sqlite::Row>, KeeperFail> {
    match database.query_all(sql, values) {
        Ok(rows) => Ok(rows),
        Err(error) => Err(fail_of(error)),
    }
}

// How many rows a statement changed.
fn execute(
    database: &mut Database,
    sql: &str,
    values: &[ValueRef<'_>],
) -> Result<usize, KeeperFail> {
    match database.execute(sql, values) {
        Ok(count) => Ok(count),
        Err(error) => Err(fail_of(error)),
    }
}

// Opens the file, and makes the table where there is none. A table that is there is no reason for a fault, so it is asked for first.
fn open(rt: &HostRuntime, path: &str) -> Result<Database, KeeperFail> {
    let mut database = match Connection::open(rt, path) {
        Ok(database) => database,
        Err(error) => return Err(fail_of(error)),
    };
    let tables = query(
        &mut database,
        "SELECT name FROM sqlite_schema WHERE name = 'studies'",
        &[],
    )?;
    if tables.is_empty() {
        execute(&mut database, CREATE, &[])?;
    }
    Ok(database)
}

/// What the work answers on the open file. Then the log beside the file is copied into it, so that the file alone has all rows.
pub fn with_open<T, W: FnOnce(&mut Database) -> Result<T, KeeperFail>>(
    rt: &HostRuntime,
    path: &str,
    work: W,
) -> Result<T, KeeperFail>
    requires { W.IsAlwaysCallable work }
{
    let mut database = open(rt, path)?;
    let answer = work(&mut database);
    // Where copying fails the rows stay in the log, and the next open reads them there.
    let _ = database.close();
    answer
}

// The text of a column. What isn't ASCII was put by another program.
fn text_at(alloc: Global, row: &sqlite::Row, at: usize) -> Result<Text, KeeperFail> {
    let text: Result<String, Error> = row.get(at);
    match text {
        Ok(text) => match Text::of(alloc, text.as_bytes())? {
            Some(text) => Ok(text),
            None => Err(KeeperFail::Failed),
        },
        Err(error) => Err(fail_of(error)),
    }
}

// The name of the first column. What isn't one was put by another program.
fn name_at(alloc: Global, row: &sqlite::Row) -> Result<Name, KeeperFail> {
    let text = text_at(alloc, row, 0)?;
    match Name::read(alloc, text.bytes())? {
        Some(name) => Ok(name),
        None => Err(KeeperFail::Failed),
    }
}

// The number of the first column.
fn number_at(row: &sqlite::Row) -> Result<i64, KeeperFail> {
    let number: Result<i64, Error> = row.get(0);
    match number {
        Ok(number) => Ok(number),
        Err(error) => Err(fail_of(error)),
    }
}

/// The row of the name.
pub fn get(database: &mut Database, alloc: Global, name: &Name) -> Result<Option<Row>, KeeperFail> {
    let rows = query(
        database,
        "SELECT text, report FROM studies WHERE name = ?1",
        &[ValueRef::Text(name.bytes())],
    )?;
    let Some(row) = rows.first() else {
        return Ok(None);
    };
    Ok(Some(Row {
        name: name.copy(alloc)?,
        text: text_at(alloc, row, 0)?,
        report: text_at(alloc, row, 1)?,
    }))
}

fn has(database: &mut Database, name: &Name) -> Result<bool, KeeperFail> {
    let rows = query(
        database,
        "SELECT seq FROM studies WHERE name = ?1",
        &[ValueRef::Text(name.bytes())],
    )?;
    Ok(!rows.is_empty())
}

fn is_full(database: &mut Database) -> Result<bool, KeeperFail> {
    let rows = query(database, "SELECT count(*) FROM studies", &[])?;
    match rows.first() {
        Some(row) => Ok(number_at(row)? >= i64::from(MAX_ROWS)),
        None => Err(KeeperFail::Failed),
    }
}

/// Appends the row, where its name is new and there is room.
pub fn enter(database: &mut Database, row: &Row) -> Result<Entry, KeeperFail> {
    if has(database, &row.name)? {
        return Ok(Entry::Taken);
    }
    if is_full(database)? {
        return Ok(Entry::Full);
    }
    // Texts are bound as texts: `params!` would make blobs of them.
    execute(
        database,
        "INSERT INTO studies(name, text, report) VALUES (?1, ?2, ?3)",
        &[
            ValueRef::Text(row.name.bytes()),
            ValueRef::Text(row.text.bytes()),
            ValueRef::Text(row.report.bytes()),
        ],
    )?;
    Ok(Entry::Made)
}

/// Takes the row of the name out, and says whether there was one.
pub fn drop_row(database: &mut Database, name: &Name) -> Result<bool, KeeperFail> {
    let count = execute(
        database,
        "DELETE FROM studies WHERE name = ?1",
        &[ValueRef::Text(name.bytes())],
    )?;
    Ok(count > 0)
}

/// The names of the `n` rows behind the first `from`.
pub fn list(
    database: &mut Database,
    alloc: Global,
    from: u32,
    n: u32,
) -> Result<Vec<Name>, KeeperFail> {
    let rows = query(
        database,
        "SELECT name FROM studies ORDER BY seq LIMIT ?1 OFFSET ?2",
        &[ValueRef::Int(i64::from(n)), ValueRef::Int(i64::from(from))],
    )?;
    let mut names = Vec::new(alloc);
    for row in rows.iter() {
        let name = name_at(alloc, row)?;
        names.push(name).map_err(NoMemory::from)?;
    }
    Ok(names)
}
