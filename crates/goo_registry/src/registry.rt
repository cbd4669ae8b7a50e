//! A registry over what keeps its records: requests, and what may be read of it.

ghost use Rattle.std.specs.Prelude.{◌≡◌, ⊤, Some, IfOk, IfSome, OnErr};
ghost use Rattle.goo_ranges_rows.specs.Rows.{AreRowsOf, rows-prop};
ghost use Rattle.goo_spec.specs.Balanced.{IsBalanced};
ghost use Rattle.goo_spec.specs.Promise.{HaveTheirPlace, AreThoseBrought};
ghost use Rattle.goo_spec_laws.specs.Authority.{IsMovedByRight};
ghost use Rattle.goo_spec_laws.specs.Classes.{AddsUp};
ghost use Rattle.goo_spec_laws.specs.Deadlines.{IsInTime};
ghost use Rattle.goo_spec_laws.specs.Final.{IsForGood};
ghost use Rattle.goo_spec_laws.specs.Idle.{OthersMakeNoDifference};
ghost use Rattle.goo_spec_laws.specs.Independent.{IsIndependent};
ghost use Rattle.goo_spec.specs.Sound.{IsSound};
ghost use Rattle.goo_core_shelf.specs.Shelf.{LeavesNoMore, Looks, Spares};
ghost use Rattle.goo_registry.specs.Applying.{Applies};
ghost use Rattle.goo_registry.specs.Running.{Runs, RunsAsOne, answered, answers};
ghost use Rattle.goo_registry.specs.Shown.{Shows, split_denial};
ghost use Rattle.goo_spec_runs.specs.NextRun.{from_of, BeginsFrom};
ghost use Rattle.goo_core_reads.specs.Ahead.{IsSeen, IsPlaceAfter};
ghost use Rattle.goo_registry_reads.specs.AccountReads.{IsHeadingShown, IsNextRunShown, IsRunRead};
ghost use Rattle.goo_registry.specs.Reads.{place_shown, notice_shown, AreHoldings};
ghost use Rattle.goo_registry.specs.Reads.{IsCancellationShown, IsAudit};

use crate::apply::carry_out;
use crate::cancellation::find_cancellation;
use crate::cancellation_statement::CancellationStatement;
use crate::holdings::find_holdings;
use crate::notice::find_notice;
use crate::place::find_place;
use crate::read_fault::ReadFault;
use crate::run::run_all;
use crate::run_fault::RunFault;
use goo_core_reads::denial::Denial;
use goo_core_reads::device_totals::find_totals;
use goo_core_reads::run_place::RunPlace;
use goo_core_shelf::found::DeviceTotals;
use goo_core_shelf::shelf::Shelf;
use goo_registry_reads::account_reads::{find_heading, find_next_run, find_run_after};
use goo_registry_reads::heading::Heading;
use goo_types::account_no::AccountNo;
use goo_types::act_no::ActNo;
use goo_types::fault::Fault;
use goo_types::holder_code::HolderCode;
use goo_types::lot::Lot;
use goo_types::notice::Notice;
use goo_types::number::Number;
use goo_types::outcome::Outcome;
use goo_types::piece::Piece;
use goo_types::place::Place;
use goo_types::request::Request;
use std::alloc::Global;

/// The registry of an issuing body of guarantees of origin (Directive (EU) 2018/2001, Article 19).
#[derive(Drop)]
pub struct Registry<S: Shelf> {
    shelf: S,
    ghost sound: { (S.seen shelf).defects ≡ 0 → IsSound (S.seen shelf).state },
    ghost kept: { (S.seen shelf).defects ≡ 0 → AreRowsOf (S.seen shelf).state.at (S.seen shelf).rows } by { λ x y i none. rows-prop (S.seen shelf).state.at (S.seen shelf).rows (x none) (y none) i },
}

/// The result of an answer that may be a denial or a fault.
fn read_result<T: Drop>(answer: Result<Result<T, Denial>, Fault>) -> Result<T, ReadFault>
    ensures { split_denial result ≡ answer }
{
    match answer {
        Ok(Ok(shown)) => Ok(shown),
        Ok(Err(Denial::NotAllowed)) => Err(ReadFault::NotAllowed),
        Ok(Err(Denial::Unknown)) => Err(ReadFault::Unknown),
        Err(Fault::Store) => Err(ReadFault::Store),
        Err(Fault::Memory) => Err(ReadFault::Memory),
    }
}

impl<S: Shelf> Registry<S> {
    /// The registry whose records a shelf keeps.
    pub fn new(shelf: S) -> Registry<S>
        requires sound { (S.seen shelf).defects ≡ 0 → IsSound (S.seen shelf).state }
        requires rows { (S.seen shelf).defects ≡ 0
            → AreRowsOf (S.seen shelf).state.at (S.seen shelf).rows }
        ensures { result.shelf ≡ shelf }
    {
        Registry { shelf }
    }

    /// What keeps the records, unchanged.
    pub fn into_shelf(self) -> S
        ensures { result ≡ self.shelf }
    {
        let Registry { shelf } = self;
        shelf
    }

    /// Whether what keeps the records still answers. After `Memory` it may have failed too, which
    /// the fault doesn't tell; this call does.
    ///
    /// `leaves`: it puts nothing where a crash finds it, even where a call failed before.
    ///
    /// # Errors
    ///
    /// `Store` where what lies below refused a call, `Memory` where memory was refused. The
    /// registry stays as it is.
    pub fn probe(&mut self) -> Result<(), Fault>
        ensures looks { Looks (S.seen self.old.shelf) (S.seen self.new.shelf) result (λ _. ⊤) }
        ensures leaves { LeavesNoMore (S.seen self.old.shelf) (S.seen self.new.shelf) }
    {
        self.shelf.probe()
    }

    /// Applies one request. A refused and a repeated request change nothing; an accepted one is
    /// committed as a whole.
    ///
    /// # Errors
    ///
    /// `Store` where what lies below refused a call, `Memory` where memory was refused: a fault
    /// takes the place of the answer and leaves everything as it was.
    ///
    /// # Example
    ///
    /// ```rust,ignore
    /// let sun = HolderCode::read("SUN".as_bytes())?;
    /// let body = r#"{"command":"transfer","first":"07000000000100","giver":1,"key":"given","last":"07000000000199","taker":2}"#;
    /// let request = read_command(alloc, &sun, body.as_bytes())?;
    /// let outcome = registry.apply(alloc, &request)?;
    /// // Accepted(Reply::Moved { count: 100 }) the first time, and Repeated with that reply when it
    /// // is sent again; Refused(Refusal::NotHeld(number)) where account 1 doesn't hold them all:
    /// // `number` is the least that it doesn't hold.
    /// ```
    pub fn apply(&mut self, alloc: Global, request: &Request) -> Result<Outcome, Fault>
        ensures applies { Applies (S.seen self.old.shelf)
            (S.seen self.new.shelf) result request.now }
        ensures spared { Spares (S.seen self.old.shelf) (S.seen self.new.shelf) result }
    {
        carry_out(alloc, &mut self.shelf, request)
    }

    /// Applies requests in order, and gives their outcomes in this order. A run of one request does
    /// what `apply` does.
    ///
    /// What a registry promises, of the requests that were answered:
    /// - `energy`: each device's declared net energy in Wh, less what corrections took off, is
    ///   1,000,000 times its issued certificates, less those that corrections withdrew, plus a
    ///   carry below 1,000,000;
    /// - `one_place`: each certificate known before, and each ever issued or imported, is in one
    ///   place: the one that the accepted requests, each once, give it when they are applied
    ///   certificate by certificate (`known`: there are no others);
    /// - `others_idle`: refused and repeated requests change nothing: the others alone leave the
    ///   same state, and have the same outcomes;
    /// - `moved_by_right`: a certificate leaves an account only by an accepted request of the
    ///   account's holder or of the issuing body, or by the date, and comes into one only as it is
    ///   issued, given by its holder, or imported;
    /// - `for_good`: a cancelled, expired or withdrawn certificate stays so, and an exported one
    ///   until an import names it; no number is issued twice; lots, receipts, notices and the
    ///   records of acts never change;
    /// - `in_time`: once trade is closed a certificate leaves its account no more, and none is
    ///   cancelled or held past its last day;
    /// - `adds_up`: the own certificates of any class are as many as there were and as were issued,
    ///   and each is held, cancelled, expired, withdrawn or exported, in the statement of one
    ///   account;
    /// - `independent`: an account of which no accepted request names anything (not itself, no
    ///   device of it, no certificate whose place names it) is as the date alone makes it, and
    ///   where the date is the same, as it was; so all that is read of it is the same
    ///   ([`equal_reads`](crate::equal_reads)).
    ///
    /// # Errors
    ///
    /// The first fault, and the outcomes of the requests before it, which stand; the request of the
    /// fault changed nothing, and the later ones weren't tried. Room for all outcomes is taken
    /// first: where it is refused, that is a `Memory` with nothing done.
    ///
    /// # Example
    ///
    /// ```rust,ignore
    /// match registry.run(alloc, &requests) {
    ///     // One outcome for each request, in order.
    ///     Ok(outcomes) => show(&outcomes),
    ///     // The requests of `stop.done` stand, and the others may be sent again; `stop.fault` is
    ///     // Store or Memory.
    ///     Err(stop) => show(&stop.done),
    /// }
    /// ```
    pub fn run(&mut self, alloc: Global, requests: &[Request]) -> Result<Vec<Outcome>, RunFault>
        ensures runs { Runs (S.seen self.old.shelf) (S.seen self.new.shelf) result requests.now }
        ensures one { RunsAsOne (S.seen self.old.shelf)
            (S.seen self.new.shelf) result requests.now }
        ensures energy { (S.seen self.new.shelf).defects ≡ 0
            → IsBalanced (S.seen self.new.shelf).state }
        ensures one_place { (S.seen self.new.shelf).defects ≡ 0
            → HaveTheirPlace (S.seen self.old.shelf).state (answered requests.now result)
            (S.seen self.new.shelf).state }
        ensures known { (S.seen self.new.shelf).defects ≡ 0
            → AreThoseBrought (S.seen self.old.shelf).state (answered requests.now result)
            (S.seen self.new.shelf).state }
        ensures others_idle { (S.seen self.new.shelf).defects ≡ 0
            → OthersMakeNoDifference (S.seen self.old.shelf).state (answered requests.now result)
            (answers result) (S.seen self.new.shelf).state }
        ensures moved_by_right { (S.seen self.new.shelf).defects ≡ 0
            → IsMovedByRight (S.seen self.old.shelf).state (answered requests.now result)
            (S.seen self.new.shelf).state }
        ensures for_good { (S.seen self.new.shelf).defects ≡ 0
            → IsForGood (S.seen self.old.shelf).state (answered requests.now result)
            (answers result) (S.seen self.new.shelf).state }
        ensures in_time { (S.seen self.new.shelf).defects ≡ 0
            → IsInTime (S.seen self.old.shelf).state (answered requests.now result)
            (S.seen self.new.shelf).state }
        ensures adds_up { (S.seen self.new.shelf).defects ≡ 0
            → AddsUp (S.seen self.old.shelf).state (answered requests.now result) (answers result)
            (S.seen self.new.shelf).state }
        ensures independent { (S.seen self.new.shelf).defects ≡ 0
            → IsIndependent (S.seen self.old.shelf).state (answered requests.now result)
            (S.seen self.new.shelf).state }
    {
        run_all(alloc, &mut self.shelf, requests)
    }

    /// The lot and the place of a certificate.
    ///
    /// # Errors
    ///
    /// `NotAllowed` to a caller who is neither the issuing body nor a holder; `Unknown` where there
    /// is no such certificate, and to a holder where its place names none of his accounts. `Store`
    /// where what lies below refused a call, `Memory` where memory was refused. The registry stays
    /// as it is.
    pub fn place_of(
        &mut self,
        alloc: Global,
        caller: &HolderCode,
        number: Number,
    ) -> Result<(Lot, Place), ReadFault>
        ensures { Shows (S.seen self.old.shelf) (S.seen self.new.shelf) result
            (λ shown. shown ≡ place_shown (S.seen self.old.shelf).state caller.now number) }
    {
        read_result(find_place(alloc, &mut self.shelf, caller, number))
    }

    /// The certificates whose place names an account, as maximal runs of one lot and one place,
    /// rising. They are shown to the issuing body and to the account's holder.
    ///
    /// # Errors
    ///
    /// `NotAllowed` to any other caller; for an account that isn't there `Unknown` to the issuing
    /// body, and `NotAllowed` to all others. `Store` where what lies below refused a call, `Memory`
    /// where memory was refused. The registry stays as it is.
    pub fn holdings(
        &mut self,
        alloc: Global,
        caller: &HolderCode,
        account: AccountNo,
    ) -> Result<Vec<Piece>, ReadFault>
        ensures { Shows (S.seen self.old.shelf) (S.seen self.new.shelf) result
            (AreHoldings (S.seen self.old.shelf).state caller.now account) }
    {
        read_result(find_holdings(alloc, &mut self.shelf, caller, account))
    }

    /// What stands before the certificates of an account: the registry's code and date, who holds
    /// the account and whether it is closed. It is shown to the issuing body and to the account's
    /// holder.
    ///
    /// # Errors
    ///
    /// `NotAllowed` to any other caller; for an account that isn't there `Unknown` to the issuing
    /// body, and `NotAllowed` to all others. `Store` where what lies below refused a call, `Memory`
    /// where memory was refused. The registry stays as it is.
    pub fn heading(&mut self, caller: &HolderCode, account: AccountNo) -> Result<Heading, ReadFault>
        ensures { Shows (S.seen self.old.shelf) (S.seen self.new.shelf) result
            (IsHeadingShown (S.seen self.old.shelf).state caller.now account) }
    {
        read_result(find_heading(&mut self.shelf, caller, account))
    }

    /// The first of the maximal runs of an account's certificates after a number, or of all of
    /// them; None where there are none. It is shown to those who may see
    /// [`holdings`](Registry::holdings). To read all of them, one after another,
    /// [`read_run`](Registry::read_run) looks up each row once.
    ///
    /// # Errors
    ///
    /// `NotAllowed` to any other caller; for an account that isn't there `Unknown` to the issuing
    /// body, and `NotAllowed` to all others. `Store` where what lies below refused a call, `Memory`
    /// where memory was refused. The registry stays as it is.
    pub fn next_run(
        &mut self,
        caller: &HolderCode,
        account: AccountNo,
        after: Option<Number>,
    ) -> Result<Option<Piece>, ReadFault>
        ensures shows { Shows (S.seen self.old.shelf) (S.seen self.new.shelf) result
            (IsNextRunShown (S.seen self.old.shelf).state caller.now account after) }
        ensures begins { IfOk result (λ found. IfSome found (BeginsFrom (from_of after))) }
    {
        let mut place = RunPlace::after(after);
        read_result(find_next_run(&mut self.shelf, caller, account, &mut place))
    }

    /// The first run after what was read before; the place then lies after it, and where it lay if
    /// there is none. Called with a new place until it gives None, it gives all runs, and holds no
    /// more than two rows at a time. Of a registry that changed meanwhile, the row ahead may be
    /// gone: begin with a new place then.
    ///
    /// It asks nobody's right: [`heading`](Registry::heading) does, once for all runs.
    ///
    /// # Errors
    ///
    /// `Store` where what lies below refused a call, `Memory` where memory was refused. The
    /// registry stays as it is, and so does the place.
    pub fn read_run(
        &mut self,
        account: AccountNo,
        place: &mut RunPlace,
    ) -> Result<Option<Piece>, ReadFault>
        ensures shows { Shows (S.seen self.old.shelf) (S.seen self.new.shelf) result
            (IsRunRead (S.seen self.old.shelf) account place.old) }
        ensures begins { IfOk result
            (λ found. IfSome found (BeginsFrom (from_of place.old.after))) }
        ensures place { IfOk result (λ found. IsPlaceAfter place.old found place.new) }
        ensures stays { OnErr result (place.new ≡ place.old) }
        ensures ahead { (S.seen self.new.shelf).defects ≡ 0
            → IfOk result
            (λ found. IfSome found
            (λ run. IsSeen account (Some run.last) (S.seen self.old.shelf).rows place.new.ahead)) }
    {
        read_result(find_run_after(&mut self.shelf, account, place))
    }

    /// A cancellation: its record, its holder and its certificates. It is shown to the issuing body
    /// and to the holder of its account.
    ///
    /// # Errors
    ///
    /// `NotAllowed` to any other caller; for a cancellation that isn't there `Unknown` to the
    /// issuing body, and `NotAllowed` to all others. `Store` where what lies below refused a call,
    /// `Memory` where memory was refused. The registry stays as it is.
    pub fn cancellation(
        &mut self,
        alloc: Global,
        caller: &HolderCode,
        act: ActNo,
    ) -> Result<CancellationStatement, ReadFault>
        ensures { Shows (S.seen self.old.shelf) (S.seen self.new.shelf) result
            (IsCancellationShown (S.seen self.old.shelf).state caller.now act) }
    {
        read_result(find_cancellation(alloc, &mut self.shelf, caller, act))
    }

    /// A notice that was sent. It is shown to the issuing body and to the holder of the account
    /// that it exports from.
    ///
    /// # Errors
    ///
    /// `NotAllowed` to any other caller; for a notice that isn't there `Unknown` to the issuing
    /// body, and `NotAllowed` to all others. `Store` where what lies below refused a call, `Memory`
    /// where memory was refused. The registry stays as it is.
    pub fn notice(
        &mut self,
        alloc: Global,
        caller: &HolderCode,
        act: ActNo,
    ) -> Result<Notice, ReadFault>
        ensures { Shows (S.seen self.old.shelf) (S.seen self.new.shelf) result
            (λ shown. shown ≡ notice_shown (S.seen self.old.shelf).state caller.now act) }
    {
        read_result(find_notice(alloc, &mut self.shelf, caller, act))
    }

    /// The declared net energy in Wh, what corrections took off it, the certificates issued, those
    /// of them that corrections withdrew, and the carry in Wh of each device, by device: to the
    /// issuing body alone.
    ///
    /// # Errors
    ///
    /// `NotAllowed` to every caller but the issuing body. `Store` where what lies below refused a
    /// call, `Memory` where memory was refused. The registry stays as it is.
    pub fn audit(
        &mut self,
        alloc: Global,
        caller: &HolderCode,
    ) -> Result<Vec<DeviceTotals>, ReadFault>
        ensures { Shows (S.seen self.old.shelf) (S.seen self.new.shelf) result
            (IsAudit (S.seen self.old.shelf).state caller.now) }
    {
        read_result(find_totals(alloc, &mut self.shelf, caller))
    }
}
