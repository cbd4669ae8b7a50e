//! The statements that no shelf makes yet, over the tables of a registry that was asked for a
//! withdrawal.

use crate::acts::Act;
use crate::claims::holds;
use crate::deeds::{Deed, after, shown};
use crate::disks::blank;
use crate::worked::Case;
use goo_tables::declaration::find_declaration;
use goo_tables::lot::find_lot_by_id;
use goo_tables::withdrawal::find_withdrawal;
use goo_tables_accounts::piece::find_piece;
use sqlite::{Alter, Connection};
use std::alloc::Global;
use std::process::Abort;

/// The certificate that is withdrawn.
const FIFTH: u64 = 7_000_000_000_005;

/// The fifth certificate of January is withdrawn.
const WITHDRAWN: Case = Case {
    name: "a withdrawal",
    serial: 1,
    begun: 9,
    asked: &[(
        "ISSUER",
        r#"{"command":"withdraw","first":"07000000000005","last":"07000000000005","reason":"meter read twice","key":"k201"}"#,
        r#"{"outcome":"accepted","reply":{"count":1,"withdrawal":1}}"#,
    )],
    shown: "",
};

/// January's declaration and its lot.
fn finds_january<S: Alter>(rt: &impl Abort, alloc: Global, conn: &mut Connection<S>) {
    let declared = find_declaration(alloc, conn, "500000000000000012", "2025-01-01");
    holds(
        rt,
        matches!(&declared, Ok(Some(row)) if row.gross == 1_234_567_890),
        "January's declaration",
    );
    let lot = find_lot_by_id(alloc, conn, 1);
    holds(
        rt,
        matches!(&lot, Ok(Some(row)) if row.origin == 7),
        "its lot",
    );
}

/// The piece that was withdrawn, and the withdrawal.
fn finds_the_fifth<S: Alter>(rt: &impl Abort, alloc: Global, conn: &mut Connection<S>) {
    let piece = find_piece(alloc, conn, FIFTH);
    holds(
        rt,
        matches!(&piece, Ok(Some(row)) if row.last == FIFTH),
        "the piece that was withdrawn",
    );
    let withdrawal = find_withdrawal(alloc, conn, 1);
    holds(
        rt,
        matches!(&withdrawal, Ok(Some(row)) if row.first == FIFTH),
        "the withdrawal",
    );
}

/// The tables of a registry that was asked for the withdrawal are asked for rows.
pub fn finds_withdrawn<S: Alter>(rt: &impl Abort, alloc: Global, conn: &mut Connection<S>) {
    finds_january(rt, alloc, conn);
    finds_the_fifth(rt, alloc, conn)
}

#[test]
fn by_keys(rt: HostRuntime) {
    let alloc = rt.alloc();
    let withdraws = Deed::Begins(1, Act::Plays(&WITHDRAWN, false));
    let (_, disks) = shown(&rt, alloc, blank(alloc), &withdraws);
    let _disks = after(&rt, alloc, disks, &Deed::FindsWithdrawn);
}
