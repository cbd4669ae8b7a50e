//! Tables that stand in another form than ours: adopted, or refused with their word.

use goo_store_adoption::adopting::adopt;
use goo_store_adoption::observer::AdoptionObserver;
use goo_store_adoption::taking::take_over;
use goo_store_open::fault::OpenFault;
use goo_store_open::layout::Layout;
use goo_store_open::our_schema::{has_first_schema, has_our_schema};
use goo_store_trees::dropping::tree_of;
use goo_store_trees::reopening::{reopen, reopen_without};
use sqlite::{Connection, MemStore};
use std::alloc::Global;
use std::process::Abort;

/// The tables as `VACUUM` leaves them: all tables, then the indexes.
const VACUUMED: &str =
    "CREATE TABLE meta (id INTEGER PRIMARY KEY, version INTEGER NOT NULL, code INTEGER NOT NULL, today TEXT NOT NULL, next_serial INTEGER NOT NULL, next_account INTEGER NOT NULL, next_cancellation INTEGER NOT NULL, next_withdrawal INTEGER NOT NULL, next_notice INTEGER NOT NULL) STRICT; CREATE TABLE holder (code TEXT NOT NULL PRIMARY KEY, name TEXT NOT NULL) STRICT; CREATE TABLE account (number INTEGER PRIMARY KEY, holder TEXT NOT NULL, closed INTEGER NOT NULL) STRICT; CREATE TABLE device (gsrn TEXT NOT NULL PRIMARY KEY, account INTEGER NOT NULL, country TEXT NOT NULL, site TEXT NOT NULL, tech TEXT NOT NULL, source TEXT NOT NULL, capacity_w INTEGER NOT NULL, commissioned TEXT NOT NULL, support TEXT NOT NULL, last_day TEXT, carry INTEGER NOT NULL) STRICT; CREATE TABLE declaration (id INTEGER PRIMARY KEY, device TEXT NOT NULL, first_day TEXT NOT NULL, last_day TEXT NOT NULL, gross INTEGER NOT NULL, aux INTEGER NOT NULL, UNIQUE (device, first_day)) STRICT; CREATE TABLE lot (id INTEGER PRIMARY KEY, origin INTEGER NOT NULL, device TEXT NOT NULL, country TEXT NOT NULL, site TEXT NOT NULL, tech TEXT NOT NULL, source TEXT NOT NULL, capacity_w INTEGER NOT NULL, commissioned TEXT NOT NULL, support TEXT NOT NULL, first_day TEXT NOT NULL, last_day TEXT NOT NULL, expires_on TEXT, issued_on TEXT NOT NULL, UNIQUE (origin, device, first_day)) STRICT; CREATE TABLE piece (first INTEGER PRIMARY KEY, last INTEGER NOT NULL, lot INTEGER NOT NULL, kind INTEGER NOT NULL, account INTEGER NOT NULL, act INTEGER NOT NULL) STRICT; CREATE TABLE peer (code INT NOT NULL PRIMARY KEY) STRICT; CREATE TABLE receipt (caller TEXT NOT NULL, key TEXT NOT NULL, command BLOB NOT NULL, kind INTEGER NOT NULL, n1 INTEGER NOT NULL, n2 INTEGER NOT NULL, n3 INTEGER NOT NULL, PRIMARY KEY (caller, key)) STRICT; CREATE TABLE cancellation (number INTEGER PRIMARY KEY, account INTEGER NOT NULL, first INTEGER NOT NULL, last INTEGER NOT NULL, beneficiary TEXT NOT NULL, use_first TEXT NOT NULL, use_last TEXT NOT NULL, day TEXT NOT NULL) STRICT; CREATE TABLE withdrawal (number INTEGER PRIMARY KEY, first INTEGER NOT NULL, last INTEGER NOT NULL, reason TEXT NOT NULL, day TEXT NOT NULL) STRICT; CREATE TABLE notice_out (number INTEGER PRIMARY KEY, account INTEGER NOT NULL, body TEXT NOT NULL) STRICT; CREATE TABLE notice_in (sender INTEGER NOT NULL, number INTEGER NOT NULL, body TEXT NOT NULL, PRIMARY KEY (sender, number)) STRICT; CREATE TABLE correction (id INTEGER PRIMARY KEY, device TEXT NOT NULL, first_day TEXT NOT NULL, less INTEGER NOT NULL, withdrawal INTEGER NOT NULL) STRICT; CREATE TABLE device_carrier (gsrn TEXT NOT NULL PRIMARY KEY, carrier TEXT NOT NULL) STRICT; CREATE TABLE lot_carrier (lot INTEGER PRIMARY KEY, carrier TEXT NOT NULL) STRICT; CREATE INDEX piece_by_account ON piece (account, first); CREATE INDEX piece_by_kind ON piece (kind, first)";

/// The same with neither types nor keys, in another order.
const UNTYPED: &str =
    "CREATE TABLE lot_carrier (carrier, lot); CREATE TABLE device_carrier (carrier, gsrn); CREATE TABLE correction (withdrawal, less, first_day, device, id); CREATE TABLE notice_in (body, number, sender); CREATE TABLE notice_out (body, account, number); CREATE TABLE withdrawal (day, reason, last, first, number); CREATE TABLE cancellation (day, use_last, use_first, beneficiary, last, first, account, number); CREATE TABLE receipt (n3, n2, n1, kind, command, key, caller); CREATE TABLE peer (code); CREATE TABLE piece (act, account, kind, lot, last, first); CREATE TABLE lot (issued_on, expires_on, last_day, first_day, support, commissioned, capacity_w, source, tech, site, country, device, origin, id); CREATE TABLE declaration (aux, gross, last_day, first_day, device, id); CREATE TABLE device (carry, last_day, support, commissioned, capacity_w, source, tech, site, country, account, gsrn); CREATE TABLE account (closed, holder, number); CREATE TABLE holder (name, code); CREATE TABLE meta (next_notice, next_withdrawal, next_cancellation, next_account, next_serial, today, code, version, id)";

/// A few rows.
const ROWS: &str =
    "INSERT INTO meta (id, version, code, today, next_serial, next_account, next_cancellation, next_withdrawal, next_notice) VALUES (1, 2, 7, '2025-03-01', 1, 2, 1, 1, 1); INSERT INTO holder (code, name) VALUES ('SUN', 'Sun Power'), ('VOLT', 'Volt'); INSERT INTO account (number, holder, closed) VALUES (1, 'SUN', 0); INSERT INTO peer VALUES (9), (8)";

/// How often an adoption was told.
#[derive(Drop)]
struct Told {
    times: u32,
}

impl AdoptionObserver for Told {
    fn adopts(&mut self) {
        self.times = self.times.saturating_add(1);
    }

    fn drops_statistics(&mut self) {}
}

fn holds(rt: &impl Abort, is_so: bool, what: &str) {
    assert!(rt; is_so, "{what}");
}

/// A database of these texts.
fn made(rt: &impl Abort, alloc: Global, texts: &[&str]) -> Connection<MemStore> {
    let mut conn = Connection::open_in_memory(alloc).expect(rt, "memory");
    for at in 0..texts.len() {
        conn.execute_batch(texts[at]).expect(rt, texts[at]);
    }
    conn
}

/// Whether the tables are ours, of the version that an adoption found.
fn are_ours(conn: &Connection<MemStore>, layout: Option<Layout>) -> bool {
    match layout {
        Some(Layout::First) => has_first_schema(conn),
        Some(Layout::Ours) => has_our_schema(conn),
        None => false,
    }
}

/// Tables of these texts become ours, and are so once more.
fn is_adopted(rt: &impl Abort, alloc: Global, texts: &[&str], what: &str) {
    let mut conn = made(rt, alloc, texts);
    let mut told = Told { times: 0 };
    assert!(rt; conn.is_autocommit(), "a transaction goes on");
    match adopt(alloc, &mut conn, &mut told) {
        Ok(done) => holds(rt, are_ours(&conn, done), "they are not ours then"),
        Err(fault) => assert!(rt; false, "{what}: {fault}"),
    }
    let again = adopt(alloc, &mut conn, &mut told);
    holds(rt, matches!(again, Ok(None)), "they are adopted twice");
    holds(rt, told.times == 1, "it is told more than once");
}

/// Tables of these texts are refused with a word, and nobody is told.
fn is_refused(rt: &impl Abort, alloc: Global, texts: &[&str], word: OpenFault, what: &str) {
    let mut conn = made(rt, alloc, texts);
    let mut told = Told { times: 0 };
    assert!(rt; conn.is_autocommit(), "a transaction goes on");
    match adopt(alloc, &mut conn, &mut told) {
        Ok(_) => holds(rt, false, what),
        Err(fault) => assert!(rt; fault == word, "{what}: {fault}"),
    }
    holds(rt, told.times == 0, what);
}

#[test]
fn tables_in_another_order(rt: HostRuntime) {
    is_adopted(&rt, rt.alloc(), &[VACUUMED, ROWS], "vacuumed");
}

#[test]
fn tables_of_no_types(rt: HostRuntime) {
    is_adopted(&rt, rt.alloc(), &[UNTYPED, ROWS], "untyped");
}

#[test]
fn tables_of_version_one(rt: HostRuntime) {
    is_adopted(
        &rt,
        rt.alloc(),
        &[
            UNTYPED,
            ROWS,
            "DROP TABLE lot_carrier; DROP TABLE device_carrier; DROP TABLE correction; UPDATE meta SET version = 1",
        ],
        "version 1",
    );
}

#[test]
fn an_index_and_a_view_beside(rt: HostRuntime) {
    is_adopted(
        &rt,
        rt.alloc(),
        &[
            VACUUMED,
            ROWS,
            "CREATE INDEX mine ON holder (name); CREATE VIEW names AS SELECT name FROM holder",
        ],
        "an index and a view",
    );
}

#[test]
fn what_is_no_registry(rt: HostRuntime) {
    is_refused(
        &rt,
        rt.alloc(),
        &["CREATE TABLE plan (id)"],
        OpenFault::NotARegistry,
        "no meta",
    );
    is_refused(
        &rt,
        rt.alloc(),
        &[UNTYPED],
        OpenFault::NotARegistry,
        "no row of meta",
    );
    is_refused(
        &rt,
        rt.alloc(),
        &[UNTYPED, ROWS, "UPDATE meta SET version = 9"],
        OpenFault::Version(9),
        "version 9",
    );
    is_refused(
        &rt,
        rt.alloc(),
        &[UNTYPED, ROWS, "UPDATE account SET holder = 'NONE'"],
        OpenFault::Damaged,
        "a holder that is not there",
    );
    is_refused(
        &rt,
        rt.alloc(),
        &[UNTYPED, ROWS, "UPDATE account SET number = '1'"],
        OpenFault::Damaged,
        "a text where a number must be",
    );
    is_refused(
        &rt,
        rt.alloc(),
        &[UNTYPED, ROWS, "CREATE TABLE plan (id)"],
        OpenFault::Damaged,
        "a table of another program",
    );
}

/// Whether a database has a table of this name.
fn has_table(conn: &Connection<MemStore>, name: &[u8]) -> bool {
    tree_of(conn.schema().tables.as_slice(), name).is_some()
}

#[test]
fn a_database_taken_over(rt: HostRuntime) {
    let mut told = Told { times: 0 };
    let conn = made(&rt, rt.alloc(), &[UNTYPED, ROWS]);
    match reopen(rt.alloc(), conn) {
        Ok(conn) => match take_over(rt.alloc(), conn, &mut told) {
            Ok(conn) => holds(&rt, has_our_schema(&conn), "the tables are not ours then"),
            Err(_) => holds(&rt, false, "it is refused"),
        },
        Err(_) => holds(&rt, false, "it is not opened once more"),
    }
    holds(&rt, told.times == 1, "it is not told once");
}

#[test]
fn a_damaged_database_handed_back(rt: HostRuntime) {
    let mut told = Told { times: 0 };
    let conn = made(
        &rt,
        rt.alloc(),
        &[UNTYPED, ROWS, "UPDATE account SET holder = 'NONE'"],
    );
    match reopen(rt.alloc(), conn) {
        Ok(conn) => {
            let taken = take_over(rt.alloc(), conn, &mut told);
            holds(
                &rt,
                matches!(taken, Err((_, OpenFault::Damaged))),
                "it is not damaged",
            );
        }
        Err(_) => holds(&rt, false, "it is not opened once more"),
    }
    holds(&rt, told.times == 0, "it is told");
}

#[test]
fn one_table_taken_away(rt: HostRuntime) {
    let conn = made(
        &rt,
        rt.alloc(),
        &["CREATE TABLE one (id INTEGER PRIMARY KEY); CREATE TABLE other (id INTEGER PRIMARY KEY)"],
    );
    let tree = tree_of(conn.schema().tables.as_slice(), b"one");
    match reopen_without(rt.alloc(), conn, tree, None) {
        Ok(conn) => {
            holds(&rt, !has_table(&conn, b"one"), "the table is there");
            holds(&rt, has_table(&conn, b"other"), "the other is gone");
        }
        Err(_) => holds(&rt, false, "it is not opened once more"),
    }
}
