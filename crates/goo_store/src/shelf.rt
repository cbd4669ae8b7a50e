//! The shelf over tables as a shelf: each look-up asks one statement or none, and reads its rows.

use crate::commits::{ending, known_after};
use crate::kept_registry_row::{copied, row_after};
use crate::sql_shelf::SqlShelf;
use crate::{accounts, cancellations, devices, held, lots, notices, peers, receipts};
use goo_core_shelf::account::Account;
use goo_core_shelf::cancel_record::CancelRecord;
use goo_core_shelf::counters::Counters;
use goo_core_shelf::device::Device;
use goo_core_shelf::found::{Arrival, DeviceRecord, DeviceTotals, Progress, Receipt};
use goo_core_shelf::own::Meta;
use goo_core_shelf::plan::Plan;
use goo_core_shelf::sent::Sent;
use goo_core_shelf::shelf::Shelf;
use goo_core_shelf::sought::Sought;
use goo_store_changes::committing::commit_changes;
use goo_store_judge::holders;
use goo_store_pieces::cache::keep_account;
use goo_store_pieces::kept_lots::keep_missing;
use goo_store_pieces::pieces::{alone, ending_behind, join_near, read_rising};
use goo_store_plans::known_rows::LotKey;
use goo_store_values::noting::note_fault;
use goo_tables::cancellation::find_cancellation;
use goo_tables::device::find_device;
use goo_tables::lot::find_lot;
use goo_tables::notice_in::find_notice_in;
use goo_tables::notice_out::find_notice_out;
use goo_tables::peer::find_peer;
use goo_tables::probe::probe;
use goo_tables::receipt::find_receipt;
use goo_tables_accounts::account::find_account;
use goo_tables_accounts::joined::pieces_of_account;
use goo_tables_accounts::piece::first_held;
use goo_types::account_no::AccountNo;
use goo_types::act_no::ActNo;
use goo_types::command::Command;
use goo_types::day::Day;
use goo_types::fault::Fault;
use goo_types::gsrn::Gsrn;
use goo_types::holder_code::HolderCode;
use goo_types::key::Key;
use goo_types::lot::Lot;
use goo_types::name::Name;
use goo_types::notice::Notice;
use goo_types::number::Number;
use goo_types::piece::Piece;
use goo_types::range::Range;
use goo_types::registry_code::RegistryCode;
use goo_types::wh::Wh;
use sqlite::Alter;
use std::alloc::Global;

impl<S: Alter> Shelf for SqlShelf<S> {
    ghost use Rattle.std.specs.Prelude.{◌≡◌, ⊤, IfOk, IfSome};
    ghost use Rattle.std.specs.FinMap.{get, contains_key};
    ghost use Rattle.std.specs.List.{list_any};
    ghost use Rattle.goo_types.specs.Piece.{IsRising};
    ghost use Rattle.goo_spec.specs.Correct.{correctable as lowerable};
    ghost use Rattle.goo_spec.specs.Lots.{lot_key, is_held_by};
    ghost use Rattle.goo_ranges_rows.specs.Rows.{meeting as near};
    ghost use Rattle.goo_core_shelf.specs.Counters.{counters_of};
    ghost use Rattle.goo_core_shelf.specs.Meta.{meta_of};
    ghost use Rattle.goo_spec_runs.specs.NextRun.{from_of};
    ghost use Rattle.goo_core_shelf.specs.Rows.{naming_account, next_row, next_expiring_row};
    ghost use Rattle.goo_core_shelf.specs.Rows.{EndsFrom};
    ghost use Rattle.goo_core_shelf.specs.Shelf.{Looks, LeavesNoMore, progress_of, IsRecordOf};
    ghost use Rattle.goo_core_shelf.specs.Shelf.{receipt_of, arrival_of, totals_of};
    ghost use Rattle.goo_core_shelf.specs.Plan.{Fits, Commits};
    ghost use Rattle.goo_store.specs.Gathering.{CanCarryOut};
    ghost use Rattle.goo_store_judge.specs.Holding.{safe, sure};
    ghost use Rattle.goo_store.specs.Seen.{Blames, BlamesPlan, database_of, seen_by};

    ghost seen = { λ s. seen_by s };

    fn refused_calls(&self) -> u64 {
        self.count_refused()
    }

    // While the last statement was answered, the database is open, and nothing is asked.
    fn probe(&mut self) -> Result<(), Fault>
        ensures looks { Looks (seen_by self.old) (seen_by self.new) result (λ _. ⊤) }
        ensures leaves { LeavesNoMore (seen_by self.old) (seen_by self.new) }
        ensures store { Blames self.old self.new result }
    {
        if self.refused {
            return Err(Fault::Store);
        }
        if self.cache.answered {
            return Ok(());
        }
        let probed = probe(&mut self.conn);
        self.cache.answered = probed.is_ok();
        note_fault(ending(probed), &mut self.refused)
    }

    fn registry(&mut self) -> Result<Meta, Fault>
        ensures looks { Looks (seen_by self.old) (seen_by self.new) result
            (λ meta. meta ≡ meta_of (seen_by self.old).state) }
        ensures store { Blames self.old self.new result }
    {
        self.look_up_registry()
    }

    fn code(&mut self) -> Result<RegistryCode, Fault>
        ensures looks { Looks (seen_by self.old) (seen_by self.new) result
            (λ code. code ≡ (seen_by self.old).state.own) }
        ensures store { Blames self.old self.new result }
    {
        self.look_up_code()
    }

    fn today(&mut self) -> Result<Day, Fault>
        ensures looks { Looks (seen_by self.old) (seen_by self.new) result
            (λ day. day ≡ (seen_by self.old).state.today) }
        ensures store { Blames self.old self.new result }
    {
        let meta = self.look_up_registry()?;
        Ok(meta.today)
    }

    fn counters(&mut self) -> Result<Counters, Fault>
        ensures looks { Looks (seen_by self.old) (seen_by self.new) result
            (λ counters. counters ≡ counters_of (seen_by self.old).state) }
        ensures store { Blames self.old self.new result }
    {
        let meta = self.look_up_registry()?;
        Ok(meta.counters)
    }

    fn holder(&mut self, code: &HolderCode) -> Result<Option<Name>, Fault>
        ensures looks { Looks (seen_by self.old) (seen_by self.new) result
            (λ name. name ≡ get (seen_by self.old).state.holders code.now) }
        ensures store { Blames self.old self.new result }
    {
        let name = holders::name_of(self.alloc, &mut self.conn, &mut self.refused, code);
        self.cache.answered = name.is_ok();
        name
    }

    // The account that is kept, or else the one in the table, which is kept then.
    fn account(&mut self, account: AccountNo) -> Result<Option<Account>, Fault>
        ensures looks { Looks (seen_by self.old) (seen_by self.new) result
            (λ found. found ≡ get (seen_by self.old).state.accounts account) }
        ensures store { Blames self.old self.new result }
    {
        if self.refused {
            return Err(Fault::Store);
        }
        if let Some(kept) = self.cache.kept_account(account) {
            return Ok(Some(kept));
        }
        let found = find_account(self.alloc, &mut self.conn, account.get());
        self.cache.answered = found.is_ok();
        let read = note_fault(accounts::read_account(found), &mut self.refused);
        keep_account(&mut self.cache.accounts, account, &read);
        read
    }

    fn device(&mut self, device: &Gsrn) -> Result<Option<Device>, Fault>
        ensures looks { Looks (seen_by self.old) (seen_by self.new) result
            (λ found. found ≡ get (seen_by self.old).state.devices device.now) }
        ensures store { Blames self.old self.new result }
    {
        if self.refused {
            return Err(Fault::Store);
        }
        let found = find_device(self.alloc, &mut self.conn, device.text());
        self.cache.answered = found.is_ok();
        note_fault(devices::read_device(found), &mut self.refused)
    }

    fn progress(&mut self, device: &Gsrn) -> Result<Progress, Fault>
        ensures looks { Looks (seen_by self.old) (seen_by self.new) result
            (λ progress. progress ≡ progress_of (seen_by self.old).state device.now) }
        ensures store { Blames self.old self.new result }
    {
        if self.refused {
            return Err(Fault::Store);
        }
        let found = find_device(self.alloc, &mut self.conn, device.text());
        self.cache.answered = found.is_ok();
        note_fault(devices::read_progress(found), &mut self.refused)
    }

    fn device_record(&mut self, device: &Gsrn) -> Result<Option<DeviceRecord>, Fault>
        ensures looks { Looks (seen_by self.old) (seen_by self.new) result
            (IsRecordOf (seen_by self.old).state device.now) }
        ensures store { Blames self.old self.new result }
    {
        if self.refused {
            return Err(Fault::Store);
        }
        let found = find_device(self.alloc, &mut self.conn, device.text());
        self.cache.answered = found.is_ok();
        let record = devices::read_record(found, device, &mut self.known_rows.basis.device);
        note_fault(record, &mut self.refused)
    }

    fn correctable(&mut self, device: &Gsrn, first_day: Day) -> Result<Option<Wh>, Fault>
        ensures looks { Looks (seen_by self.old) (seen_by self.new) result
            (λ left. left ≡ lowerable (seen_by self.old).state device.now first_day) }
        ensures store { Blames self.old self.new result }
    {
        let corrections = self.corrections(self.alloc)?;
        self.left_beside(&corrections, device, first_day)
    }

    fn receipt(
        &mut self,
        alloc: Global,
        caller: &HolderCode,
        key: &Key,
        command: &Command,
    ) -> Result<Receipt, Fault>
        ensures looks { Looks (seen_by self.old) (seen_by self.new) result
            (λ receipt. receipt
            ≡ receipt_of (get (seen_by self.old).state.receipts
            (caller.now, key.now)) command.now) }
        ensures store { Blames self.old self.new result }
    {
        if self.refused {
            return Err(Fault::Store);
        }
        let found = find_receipt(alloc, &mut self.conn, caller.text(), key.text());
        self.cache.answered = found.is_ok();
        let receipt = receipts::read_receipt(alloc, found, command);
        note_fault(receipt, &mut self.refused)
    }

    fn lot(
        &mut self,
        origin: RegistryCode,
        device: &Gsrn,
        first_day: Day,
    ) -> Result<Option<Lot>, Fault>
        ensures looks { Looks (seen_by self.old) (seen_by self.new) result
            (λ lot. lot ≡ get (seen_by self.old).state.lots (lot_key origin device.now first_day)) }
        ensures store { Blames self.old self.new result }
    {
        if self.refused {
            return Err(Fault::Store);
        }
        let key = LotKey {
            origin,
            device: *device,
            first_day,
        };
        let origin = u32::from(origin.get());
        let day = first_day.text();
        let found = find_lot(
            self.alloc,
            &mut self.conn,
            origin,
            device.text(),
            day.as_str(),
        );
        self.cache.answered = found.is_ok();
        let lot = lots::read_found(found, &mut self.known_rows.lots.found);
        keep_missing(&mut self.known_rows.lots.missing, key, &lot);
        note_fault(lot, &mut self.refused)
    }

    fn peer(&mut self, code: RegistryCode) -> Result<bool, Fault>
        ensures looks { Looks (seen_by self.old) (seen_by self.new) result
            (λ known. known ≡ contains_key (seen_by self.old).state.peers code) }
        ensures store { Blames self.old self.new result }
    {
        if self.refused {
            return Err(Fault::Store);
        }
        let found = find_peer(self.alloc, &mut self.conn, u32::from(code.get()));
        self.cache.answered = found.is_ok();
        note_fault(peers::is_there(found), &mut self.refused)
    }

    fn arrived(&mut self, alloc: Global, notice: &Notice) -> Result<Arrival, Fault>
        ensures looks { Looks (seen_by self.old) (seen_by self.new) result
            (λ arrival. arrival
            ≡ arrival_of (get (seen_by self.old).state.arrived
            (notice.now.sender, notice.now.number)) notice.now) }
        ensures store { Blames self.old self.new result }
    {
        if self.refused {
            return Err(Fault::Store);
        }
        let sender = u32::from(notice.sender().get());
        let found = find_notice_in(alloc, &mut self.conn, sender, notice.number().get());
        self.cache.answered = found.is_ok();
        let arrival = notices::read_arrival(alloc, found, notice);
        note_fault(arrival, &mut self.refused)
    }

    fn sent(&mut self, alloc: Global, notice: ActNo) -> Result<Option<Sent>, Fault>
        ensures looks { Looks (seen_by self.old) (seen_by self.new) result
            (λ found. found ≡ get (seen_by self.old).state.sent notice) }
        ensures store { Blames self.old self.new result }
    {
        if self.refused {
            return Err(Fault::Store);
        }
        let found = find_notice_out(alloc, &mut self.conn, notice.get());
        self.cache.answered = found.is_ok();
        note_fault(notices::read_sent(alloc, found), &mut self.refused)
    }

    fn cancelled(&mut self, cancellation: ActNo) -> Result<Option<CancelRecord>, Fault>
        ensures looks { Looks (seen_by self.old) (seen_by self.new) result
            (λ found. found ≡ get (seen_by self.old).state.cancellations cancellation) }
        ensures store { Blames self.old self.new result }
    {
        if self.refused {
            return Err(Fault::Store);
        }
        let found = find_cancellation(self.alloc, &mut self.conn, cancellation.get());
        self.cache.answered = found.is_ok();
        note_fault(cancellations::read_record(found), &mut self.refused)
    }

    // A range within one row, short of its ends, takes one statement. Any other range takes two.
    fn meeting(&mut self, alloc: Global, range: Range) -> Result<Vec<Piece>, Fault>
        ensures looks { Looks (seen_by self.old) (seen_by self.new) result
            (λ met. met.items ≡ near range (seen_by self.old).rows) }
        ensures store { Blames self.old self.new result }
        ensures rising { IfOk result (λ met. IsRising met.items) }
    {
        let first = range.first().get();
        let last = range.last().get();
        let before = self.row_before(alloc, first)?;
        if let Some(row) = ending_behind(&before, last) {
            return alone(alloc, row);
        }
        let later = self.rows_beginning(alloc, first, last + 1)?;
        note_fault(join_near(alloc, range, before, &later), &mut self.refused)
    }

    fn pieces_of(&mut self, alloc: Global, account: AccountNo) -> Result<Vec<Piece>, Fault>
        ensures looks { Looks (seen_by self.old) (seen_by self.new) result
            (λ met. met.items ≡ naming_account account (seen_by self.old).rows) }
        ensures store { Blames self.old self.new result }
        ensures rising { IfOk result (λ met. IsRising met.items) }
    {
        if self.refused {
            return Err(Fault::Store);
        }
        let found = pieces_of_account(alloc, &mut self.conn, account.get());
        self.cache.answered = found.is_ok();
        let rows = read_rising(alloc, found, &mut self.known_rows.lots.found);
        note_fault(rows, &mut self.refused)
    }

    // One statement, which shows one row that the account holds. It goes through the index of the
    // account's rows: an index by account and kind would be another version of the tables.
    fn holds(&mut self, account: AccountNo) -> Result<bool, Fault>
        ensures looks { Looks (seen_by self.old) (seen_by self.new) result
            (λ holds. holds ≡ list_any (λ p. is_held_by account p.place) (seen_by self.old).rows) }
        ensures store { Blames self.old self.new result }
    {
        if self.refused {
            return Err(Fault::Store);
        }
        let found = first_held(self.alloc, &mut self.conn, account.get());
        self.cache.answered = found.is_ok();
        note_fault(held::is_there(found), &mut self.refused)
    }

    // In a walk the row was read ahead: one statement shows 256 rows. Where they came without their
    // lots, one that isn't kept takes a statement more.
    fn next_of(&mut self, account: AccountNo, after: Option<Number>) -> Result<Option<Piece>, Fault>
        ensures looks { Looks (seen_by self.old) (seen_by self.new) result
            (λ found. found ≡ next_row account after (seen_by self.old).rows) }
        ensures store { Blames self.old self.new result }
        ensures ahead { IfOk result (λ found. IfSome found (EndsFrom (from_of after))) }
    {
        if let Some(number) = after {
            if let Some(row) = self.cache.row_ahead(account, number) {
                return self.next_ahead(account, number, &row);
            }
        }
        self.next_in_tables(account, after)
    }

    fn next_expiring(&mut self, day: Day, after: Option<Number>) -> Result<Option<Piece>, Fault>
        ensures looks { Looks (seen_by self.old) (seen_by self.new) result
            (λ found. found ≡ next_expiring_row day after (seen_by self.old).rows) }
        ensures store { Blames self.old self.new result }
        ensures ahead { IfOk result (λ found. IfSome found (EndsFrom (from_of after))) }
    {
        self.next_row(&Sought::Expiring(day), after)
    }

    fn totals(&mut self, alloc: Global) -> Result<Vec<DeviceTotals>, Fault>
        ensures looks { Looks (seen_by self.old) (seen_by self.new) result
            (λ totals. totals.items ≡ totals_of (seen_by self.old).state) }
        ensures store { Blames self.old self.new result }
    {
        let own = self.look_up_code()?;
        self.totals_by(alloc, own)
    }

    fn commit(&mut self, alloc: Global, plan: &Plan) -> Result<(), Fault>
        requires { (seen_by self.old).defects ≡ 0
            → Fits (seen_by self.old).state (seen_by self.old).rows plan.now }
        ensures commits { Commits (seen_by self.old) (seen_by self.new) result plan.now }
        ensures store { BlamesPlan self.old self.new result (λ t. CanCarryOut t plan.now) }
    {
        let own = copied(&self.known_rows.own);
        let planned = self.changes_for(alloc, plan)?;
        let made = commit_changes(&mut self.conn, &planned.changes);
        self.known_rows.basis = known_after(&made, planned.after);
        self.known_rows.own = row_after(&made, own, &planned.changes);
        self.cache.after_commit(&made, &planned.changes);
        note_fault(ending(made), &mut self.refused)
    }

    ghost settled = { λ s none. safe _ s.well (λ live db may. S.settled s.conn.store db live may) none s.refused };

    ghost uncorrupted = { λ s none. (sure (database_of s) none).0 };
}
