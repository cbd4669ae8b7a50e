//! The rules judged here over all that was read of a registry's tables: in parts, each as one test.

ghost use Rattle.std.specs.Prelude.{◌≡◌, IfOk};
ghost use Rattle.goo_store_rules.specs.Keeping.{has_good_values, has_good_corrections};
ghost use Rattle.goo_store_rules.specs.Keeping.{has_its_numbers, has_its_names, has_its_places};
ghost use Rattle.goo_store_rules.specs.Keeping.{has_its_notices, has_its_declarations};
ghost use Rattle.goo_store_rules.specs.Keeping.{has_its_carriers};

use crate::apart::are_apart;
use crate::lists::{
    accepts_accounts, accepts_cancellations, accepts_corrections, accepts_declarations,
    accepts_device_carriers, accepts_devices, accepts_holders, accepts_lot_carriers, accepts_lots,
    accepts_peers, accepts_pieces, accepts_receipts, accepts_withdrawals, are_given_accounts,
    are_given_cancellations, are_given_notices, are_given_withdrawals, are_issued, are_others,
    cover_aux, have_no_issuer,
};
use crate::names::{
    accounts_are_there, accounts_of_acts_are_there, acts_are_there, carried_devices_are_there,
    carried_lots_are_there, devices_are_there, have_declarations, holders_are_there,
    lots_are_there, places_are_in_time, withdrawals_are_there,
};
use crate::notices::{accepts_all_arrived, accepts_all_sent};
use crate::values::accepts_meta;
use goo_store_open::finding::Found;
use std::alloc::{AllocError, Global};

/// Whether each value is one that its reader or its limit accepts, the notices' texts aside.
pub fn are_accepted(found: &Found) -> bool
    ensures { result ≡ has_good_values found.now }
{
    let rows = &found.rows;
    accepts_meta(&found.meta)
        && accepts_holders(&rows.members.holders)
        && accepts_accounts(&rows.members.accounts)
        && accepts_peers(&rows.members.peers)
        && accepts_devices(&rows.production.devices)
        && accepts_declarations(&rows.production.declarations)
        && accepts_lots(&rows.production.lots)
        && accepts_pieces(&rows.production.pieces)
        && accepts_receipts(&rows.acts.receipts)
        && accepts_cancellations(&rows.acts.cancellations)
        && accepts_withdrawals(&rows.acts.withdrawals)
}

/// The same of corrections and carriers.
pub fn are_corrections(found: &Found) -> bool
    ensures { result ≡ has_good_corrections found.now }
{
    let rows = &found.rows;
    accepts_corrections(&rows.production.corrections)
        && accepts_device_carriers(&rows.carriers.devices)
        && accepts_lot_carriers(&rows.carriers.lots)
}

/// Whether what was given has a number below the next one, pieces have no number in common, and the
/// issuing body is no holder, the registry no peer of its own, no auxiliaries more than was
/// produced.
pub fn are_numbered(found: &Found) -> bool
    ensures { result ≡ has_its_numbers found.now }
{
    let meta = &found.meta;
    let rows = &found.rows;
    have_no_issuer(&rows.members.holders)
        && are_others(meta.code, &rows.members.peers)
        && cover_aux(&rows.production.declarations)
        && are_apart(&rows.production.pieces)
        && are_issued(meta.code, meta.next_serial, &rows.production.pieces)
        && are_given_accounts(meta.next_account, &rows.members.accounts)
        && are_given_cancellations(meta.next_cancellation, &rows.acts.cancellations)
        && are_given_withdrawals(meta.next_withdrawal, &rows.acts.withdrawals)
        && are_given_notices(meta.next_notice, &rows.notices.sent)
}

/// Whether the holders, devices and accounts that rows name are there.
///
/// # Errors
///
/// Where an allocation is refused.
pub fn are_named(alloc: Global, found: &Found) -> Result<bool, AllocError>
    ensures { IfOk result (λ yes. yes ≡ has_its_names found.now) }
{
    let members = &found.rows.members;
    let production = &found.rows.production;
    let cancellations = &found.rows.acts.cancellations;
    let sent = &found.rows.notices.sent;
    Ok(
        holders_are_there(alloc, &members.accounts, &members.holders)?
            && devices_are_there(alloc, &production.declarations, &production.devices)?
            && accounts_are_there(
                alloc,
                &members.accounts,
                &production.devices,
                &production.pieces,
            )?
            && accounts_of_acts_are_there(alloc, &members.accounts, cancellations, sent)?,
    )
}

/// Whether the acts and lots that pieces name are there, and their places are in time.
///
/// # Errors
///
/// Where an allocation is refused.
pub fn are_placed(alloc: Global, found: &Found) -> Result<bool, AllocError>
    ensures { IfOk result (λ yes. yes ≡ has_its_places found.now) }
{
    let rows = &found.rows;
    let pieces = &rows.production.pieces;
    let lots = &rows.production.lots;
    let acts = &rows.acts;
    Ok(
        acts_are_there(
            alloc,
            pieces,
            &acts.cancellations,
            &acts.withdrawals,
            &rows.notices.sent,
        )? && lots_are_there(alloc, pieces, lots)?
            && places_are_in_time(
                alloc,
                &found.meta.today,
                pieces,
                lots,
                &rows.members.accounts,
            )?,
    )
}

/// Whether notices are kept under their senders and numbers, as their texts.
///
/// # Errors
///
/// Where an allocation is refused.
pub fn are_notices(alloc: Global, found: &Found) -> Result<bool, AllocError>
    ensures { IfOk result (λ yes. yes ≡ has_its_notices found.now) }
{
    let notices = &found.rows.notices;
    Ok(
        accepts_all_sent(alloc, found.meta.code, &notices.sent)?
            && accepts_all_arrived(alloc, &notices.came)?,
    )
}

/// Whether own lots and corrections have their declarations, and the withdrawals that corrections
/// name are there.
///
/// # Errors
///
/// Where an allocation is refused.
pub fn are_declared(alloc: Global, found: &Found) -> Result<bool, AllocError>
    ensures { IfOk result (λ yes. yes ≡ has_its_declarations found.now) }
{
    let production = &found.rows.production;
    Ok(
        have_declarations(
            alloc,
            found.meta.code,
            &production.lots,
            &production.corrections,
            &production.declarations,
        )? && withdrawals_are_there(alloc, &production.corrections, &found.rows.acts.withdrawals)?,
    )
}

/// Whether the devices and the lots of carriers are there.
///
/// # Errors
///
/// Where an allocation is refused.
pub fn are_carried(alloc: Global, found: &Found) -> Result<bool, AllocError>
    ensures { IfOk result (λ yes. yes ≡ has_its_carriers found.now) }
{
    let production = &found.rows.production;
    let carriers = &found.rows.carriers;
    Ok(
        carried_devices_are_there(alloc, &carriers.devices, &production.devices)?
            && carried_lots_are_there(alloc, &carriers.lots, &production.lots)?,
    )
}
