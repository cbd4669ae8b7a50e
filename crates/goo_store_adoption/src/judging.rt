//! The rules of the tables, judged over what was answered.

ghost use Rattle.std.specs.Prelude.{IfOk, IfErr, OnOk};
ghost use Rattle.std.specs.List.{AllZip};
ghost use Rattle.goo_store_anew.specs.Answered.{rows_at};
ghost use Rattle.goo_store_adoption.specs.Judged.{ReadsMembers, ReadsProduction, ReadsActs};
ghost use Rattle.goo_store_adoption.specs.Judged.{ReadsNotices, ReadsCarriers, ReadsRows};
ghost use Rattle.goo_store_adoption.specs.Judged.{ReadsMeta, ReadsAs, IsRegistry};
ghost use Rattle.goo_store_adoption.specs.Refused.{IsBroken, IsMetaWord};

use crate::beginning::only_row;
use goo_store_anew::answers::Answer;
use goo_store_open::fault::{OpenFault, fault_of};
use goo_store_open::finding::Found;
use goo_store_open::layout::Layout;
use goo_store_open::rows::{Acts, AllRows, Carriers, Members, Notices, Production};
use goo_store_rules::judging::keeps_rules;
use goo_tables_rows::ask::read_all;
use goo_tables_rows::from_row::FromRow;
use goo_tables_rows::meta::MetaRow;
use sqlite::Error;
use std::alloc::Global;

/// The rows of a table, read; none where the version has no such table.
fn read<T: FromRow + Drop>(alloc: Global, answers: &[Answer], at: usize) -> Result<Vec<T>, Error>
    ensures { IfOk result (λ found. AllZip T.reads (rows_at answers.now at) found.items) }
{
    match answers.get(at) {
        Some(answer) => read_all(alloc, &answer.rows),
        None => Ok(Vec::new(alloc)),
    }
}

fn read_members(alloc: Global, answers: &[Answer]) -> Result<Members, Error>
    ensures { IfOk result (ReadsMembers answers.now) }
{
    Ok(Members {
        holders: read(alloc, answers, 1)?,
        accounts: read(alloc, answers, 2)?,
        peers: read(alloc, answers, 7)?,
    })
}

fn read_production(alloc: Global, answers: &[Answer]) -> Result<Production, Error>
    ensures { IfOk result (ReadsProduction answers.now) }
{
    Ok(Production {
        devices: read(alloc, answers, 3)?,
        declarations: read(alloc, answers, 4)?,
        corrections: read(alloc, answers, 13)?,
        lots: read(alloc, answers, 5)?,
        pieces: read(alloc, answers, 6)?,
    })
}

fn read_acts(alloc: Global, answers: &[Answer]) -> Result<Acts, Error>
    ensures { IfOk result (ReadsActs answers.now) }
{
    Ok(Acts {
        receipts: read(alloc, answers, 8)?,
        cancellations: read(alloc, answers, 9)?,
        withdrawals: read(alloc, answers, 10)?,
    })
}

fn read_notices(alloc: Global, answers: &[Answer]) -> Result<Notices, Error>
    ensures { IfOk result (ReadsNotices answers.now) }
{
    Ok(Notices {
        sent: read(alloc, answers, 11)?,
        came: read(alloc, answers, 12)?,
    })
}

fn read_carriers(alloc: Global, answers: &[Answer]) -> Result<Carriers, Error>
    ensures { IfOk result (ReadsCarriers answers.now) }
{
    Ok(Carriers {
        devices: read(alloc, answers, 14)?,
        lots: read(alloc, answers, 15)?,
    })
}

fn read_rows(alloc: Global, answers: &[Answer]) -> Result<AllRows, Error>
    ensures { IfOk result (ReadsRows answers.now) }
{
    Ok(AllRows {
        members: read_members(alloc, answers)?,
        production: read_production(alloc, answers)?,
        acts: read_acts(alloc, answers)?,
        notices: read_notices(alloc, answers)?,
        carriers: read_carriers(alloc, answers)?,
    })
}

/// The row of `meta`.
///
/// # Errors
///
/// `NotARegistry` where it is not the only one, under the number 1; `Damaged` where a value can't be
/// read; `Memory`.
pub fn read_meta(alloc: Global, answers: &[Answer]) -> Result<MetaRow, OpenFault>
    ensures read { IfOk result (ReadsMeta answers.now) }
    ensures word { IfErr result (IsMetaWord answers.now) }
{
    match read(alloc, answers, 0) {
        Ok(rows) => only_row(rows),
        Err(error) => Err(fault_of(error, OpenFault::Damaged)),
    }
}

/// The word for rows of `meta` that are not those of a registry, where they were before.
fn broken(fault: OpenFault) -> OpenFault
    ensures { IsBroken result }
{
    match fault {
        OpenFault::Store | OpenFault::Memory => fault,
        _ => OpenFault::Damaged,
    }
}

/// All that was answered, read.
///
/// # Errors
///
/// `Damaged` where a value can't be read; `Memory`.
fn read_found(alloc: Global, answers: &[Answer]) -> Result<Found, OpenFault>
    ensures read { IfOk result (ReadsAs answers.now) }
    ensures word { IfErr result IsBroken }
{
    let meta = match read_meta(alloc, answers) {
        Ok(meta) => meta,
        Err(fault) => return Err(broken(fault)),
    };
    match read_rows(alloc, answers) {
        Ok(rows) => Ok(Found { meta, rows }),
        Err(error) => Err(fault_of(error, OpenFault::Damaged)),
    }
}

/// Judges whether what was answered reads as rows of this version which keep its rules.
///
/// # Errors
///
/// `Damaged` where a value can't be read or a rule is broken; `Memory`.
pub fn judge(alloc: Global, layout: Layout, answers: &[Answer]) -> Result<(), OpenFault>
    ensures judged { OnOk result (IsRegistry layout answers.now) }
    ensures word { IfErr result IsBroken }
{
    let found = read_found(alloc, answers)?;
    if found.meta.version != layout.version() {
        return Err(OpenFault::Damaged);
    }
    match keeps_rules(alloc, &found, layout.version()) {
        Ok(true) => Ok(()),
        Ok(false) => Err(OpenFault::Damaged),
        Err(_) => Err(OpenFault::Memory),
    }
}
