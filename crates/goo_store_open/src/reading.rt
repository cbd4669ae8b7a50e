//! Reading the tables of either version, whatever they hold: each whole, in the order of its
//! rowids.

ghost use Rattle.std.specs.Prelude.{◌≡◌, []};
ghost use Rattle.sqlite.specs.Held.{state};
ghost use Rattle.goo_store_open.specs.Reading.{OnlyReads};
ghost use Rattle.goo_store_open.specs.Shown.{rows_of_both, ShowsMembers, ShowsIssued, ShowsActs};
ghost use Rattle.goo_store_open.specs.Shown.{ShowsNotices, ShowsCarriers, ShowsCommon, ShowsLater};
ghost use Rattle.goo_store_open.specs.Shown.{ShowsAll};

use crate::layout::Layout;
use crate::rows::{Acts, AllRows, Carriers, Members, Notices, Production};
use goo_tables::cancellation::all_cancellations;
use goo_tables::correction::all_corrections;
use goo_tables::declaration::all_declarations;
use goo_tables::device::all_devices;
use goo_tables::device_carrier::all_device_carriers;
use goo_tables::lot::all_lots;
use goo_tables::lot_carrier::all_lot_carriers;
use goo_tables::notice_in::all_notices_in;
use goo_tables::notice_out::all_notices_out;
use goo_tables::peer::all_peers;
use goo_tables::receipt::all_receipts;
use goo_tables::withdrawal::all_withdrawals;
use goo_tables_accounts::account::all_accounts;
use goo_tables_accounts::holder::all_holders;
use goo_tables_accounts::piece::all_pieces;
use goo_tables_rows::correction::CorrectionRow;
use goo_tables_rows::declaration::DeclarationRow;
use goo_tables_rows::device::DeviceRow;
use goo_tables_rows::lot::LotRow;
use goo_tables_rows::piece::PieceRow;
use sqlite::{Alter, Connection, Error};
use std::alloc::Global;

/// What was produced, and the certificates for it.
#[derive(Drop)]
struct Issued {
    devices: Vec<DeviceRow>,
    declarations: Vec<DeclarationRow>,
    lots: Vec<LotRow>,
    pieces: Vec<PieceRow>,
}

/// The rows of the tables that both versions have, but `meta`.
#[derive(Drop)]
struct Common {
    members: Members,
    issued: Issued,
    acts: Acts,
    notices: Notices,
}

/// The rows of the tables that version 2 has beside them: what was taken off declarations, and
/// carriers.
#[derive(Drop)]
struct Later {
    corrections: Vec<CorrectionRow>,
    carriers: Carriers,
}

/// Those that the registry knows.
fn read_members<S: Alter>(alloc: Global, conn: &mut Connection<S>) -> Result<Members, Error>
    ensures { (layout : _)
        → OnlyReads layout (state S.Store conn.old) (state S.Store conn.new) result ShowsMembers }
{
    Ok(Members {
        holders: all_holders(alloc, conn)?,
        accounts: all_accounts(alloc, conn)?,
        peers: all_peers(alloc, conn)?,
    })
}

/// What was produced, and the certificates for it.
fn read_issued<S: Alter>(alloc: Global, conn: &mut Connection<S>) -> Result<Issued, Error>
    ensures { (layout : _)
        → OnlyReads layout (state S.Store conn.old) (state S.Store conn.new) result ShowsIssued }
{
    Ok(Issued {
        devices: all_devices(alloc, conn)?,
        declarations: all_declarations(alloc, conn)?,
        lots: all_lots(alloc, conn)?,
        pieces: all_pieces(alloc, conn)?,
    })
}

/// The requests that were accepted, and the records of acts.
fn read_acts<S: Alter>(alloc: Global, conn: &mut Connection<S>) -> Result<Acts, Error>
    ensures { (layout : _)
        → OnlyReads layout (state S.Store conn.old) (state S.Store conn.new) result ShowsActs }
{
    Ok(Acts {
        receipts: all_receipts(alloc, conn)?,
        cancellations: all_cancellations(alloc, conn)?,
        withdrawals: all_withdrawals(alloc, conn)?,
    })
}

/// The notices that were sent and that came in.
fn read_notices<S: Alter>(alloc: Global, conn: &mut Connection<S>) -> Result<Notices, Error>
    ensures { (layout : _)
        → OnlyReads layout (state S.Store conn.old) (state S.Store conn.new) result ShowsNotices }
{
    Ok(Notices {
        sent: all_notices_out(alloc, conn)?,
        came: all_notices_in(alloc, conn)?,
    })
}

/// The rows that tables of either version have.
fn read_common<S: Alter>(alloc: Global, conn: &mut Connection<S>) -> Result<Common, Error>
    ensures { (layout : _)
        → OnlyReads layout (state S.Store conn.old) (state S.Store conn.new) result ShowsCommon }
{
    Ok(Common {
        members: read_members(alloc, conn)?,
        issued: read_issued(alloc, conn)?,
        acts: read_acts(alloc, conn)?,
        notices: read_notices(alloc, conn)?,
    })
}

/// The carriers that are not electricity.
fn read_carriers<S: Alter>(alloc: Global, conn: &mut Connection<S>) -> Result<Carriers, Error>
    ensures { OnlyReads Layout.Ours (state S.Store conn.old)
        (state S.Store conn.new) result ShowsCarriers }
{
    Ok(Carriers {
        devices: all_device_carriers(alloc, conn)?,
        lots: all_lot_carriers(alloc, conn)?,
    })
}

/// What was taken off declarations, and the carriers.
fn read_later<S: Alter>(alloc: Global, conn: &mut Connection<S>) -> Result<Later, Error>
    ensures { OnlyReads Layout.Ours (state S.Store conn.old)
        (state S.Store conn.new) result ShowsLater }
{
    Ok(Later {
        corrections: all_corrections(alloc, conn)?,
        carriers: read_carriers(alloc, conn)?,
    })
}

/// Tables of version 1 have none of these.
fn no_later(alloc: Global) -> Later
    ensures corrections { result.corrections.items ≡ [] }
    ensures devices { result.carriers.devices.items ≡ [] }
    ensures lots { result.carriers.lots.items ≡ [] }
{
    Later {
        corrections: Vec::new(alloc),
        carriers: Carriers {
            devices: Vec::new(alloc),
            lots: Vec::new(alloc),
        },
    }
}

fn all_rows(common: Common, later: Later) -> AllRows
    ensures { result ≡ rows_of_both common later }
{
    let Common {
        members,
        issued,
        acts,
        notices,
    } = common;
    let Later {
        corrections,
        carriers,
    } = later;
    let Issued {
        devices,
        declarations,
        lots,
        pieces,
    } = issued;
    AllRows {
        members,
        production: Production {
            devices,
            declarations,
            corrections,
            lots,
            pieces,
        },
        acts,
        notices,
        carriers,
    }
}

/// The rows of all tables but `meta`.
///
/// # Errors
///
/// Those of the statements: want of memory, a fault of the store, or a value that its column's
/// reader doesn't take.
pub fn read_rows<S: Alter>(
    alloc: Global,
    conn: &mut Connection<S>,
    layout: Layout,
) -> Result<AllRows, Error>
    ensures { OnlyReads layout (state S.Store conn.old) (state S.Store conn.new) result ShowsAll }
{
    let common = read_common(alloc, conn)?;
    match layout {
        Layout::First => Ok(all_rows(common, no_later(alloc))),
        Layout::Ours => Ok(all_rows(common, read_later(alloc, conn)?)),
    }
}
