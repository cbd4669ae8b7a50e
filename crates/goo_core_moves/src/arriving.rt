//! The certificates that a notice brings, part by part, and what is known of them.

ghost use Rattle.std.specs.Prelude.{◌≡◌, ◌≤◌, None, Some, IfOk, IfErr, IfSome};
ghost use Rattle.goo_types.specs.Piece.{IsRising, at_of};
ghost use Rattle.goo_types.specs.declared.fault.Fault.TheVariants.{Memory};
ghost use Rattle.goo_types.specs.declared.piece.Piece.{Piece as Row};
ghost use Rattle.goo_spec.specs.Checks.{first_refusal};
ghost use Rattle.goo_spec.specs.Import.{is_other_lot as other_lot_test};
ghost use Rattle.goo_spec.specs.Lots.{is_exported as exported_test, same_lot};
ghost use Rattle.goo_spec.specs.Maps.{each, least_failing};
ghost use Rattle.goo_spec.specs.Days.{is_over as over_test};
ghost use Rattle.std.specs.List.{list_any};
ghost use Rattle.goo_core_moves.specs.Arrivals.{unknown_in, taken_in, differing_in, least_of};
ghost use Rattle.goo_core_moves.specs.Arrivals.{numbers_checks};

use goo_core_rules::days::is_over;
use goo_ranges::Book;
use goo_types::day::Day;
use goo_types::lot::Lot;
use goo_types::number::Number;
use goo_types::part::Part;
use goo_types::place::Place;
use goo_types::range::Range;
use goo_types::refusal::Refusal;
use goo_types::registry_code::RegistryCode;

/// A part of a notice, with what is known of its certificates and of its lot.
#[derive(Drop)]
pub struct Arriving {
    /// The part.
    pub part: Part,
    /// The rows that its range meets.
    pub book: Book,
    /// The lot that is known by its origin, device and first day.
    pub known: Option<Lot>,
}

/// Whether a certificate was sent to another registry.
fn is_exported(place: Place) -> bool
    ensures { result ≡ exported_test place }
{
    match place {
        Place::Exported(_, _) => true,
        _ => false,
    }
}

/// The least number of the range that is there and wasn't exported.
fn least_at_home(book: &Book, range: Range) -> Option<Number>
    ensures { result
        ≡ least_failing (λ lot place. exported_test place) (at_of book.now) (each range) }
{
    book.least_not(
        range,
        move |_, place| -> bool
            ensures { result ≡ exported_test place }
        { is_exported(place) },
    )
}

/// Whether both lots have the same contents.
fn is_same_lot(one: &Lot, other: &Lot) -> bool
    ensures { result ≡ same_lot one.now other.now }
{
    *one == *other
}

/// The least number of the range that is there with another lot.
fn least_of_other_lot(book: &Book, range: Range, lot: Lot) -> Option<Number>
    ensures { result
        ≡ least_failing (λ known place. same_lot known lot) (at_of book.now) (each range) }
{
    book.least_not(
        range,
        move |known, _| -> bool
            ensures { result ≡ same_lot known lot }
        { is_same_lot(&known, &lot) },
    )
}

/// Whether a lot is known with other contents.
fn is_other_lot(lot: &Lot, known: &Option<Lot>) -> bool
    ensures { result ≡ other_lot_test lot.now known.now }
{
    match known {
        Some(known) => !is_same_lot(known, lot),
        None => false,
    }
}

impl Arriving {
    /// The least own number that isn't there.
    fn least_unknown(&self, own: RegistryCode) -> Option<Number>
        ensures { result ≡ unknown_in own self.now }
    {
        let range = self.part.range;
        if range.first().code() != own.get() {
            return None;
        }
        self.book.least_missing(range)
    }

    /// The least number that is there and wasn't exported.
    fn least_taken(&self) -> Option<Number>
        ensures { result ≡ taken_in self.now }
    {
        least_at_home(&self.book, self.part.range)
    }

    /// The least number that is known with another lot, or whose part's lot is known with other
    /// contents.
    fn least_differing(&self) -> Option<Number>
        ensures { result ≡ differing_in self.now }
    {
        let range = self.part.range;
        if is_other_lot(&self.part.lot, &self.known) {
            return Some(range.first());
        }
        least_of_other_lot(&self.book, range, self.part.lot)
    }
}

/// The least own number that isn't there.
fn least_unknown(own: RegistryCode, arriving: &[Arriving]) -> Option<Number>
    ensures { result ≡ least_of (unknown_in own) arriving.now }
{
    for part in arriving {
        if let Some(number) = part.least_unknown(own) {
            return Some(number);
        }
    }
    None
}

/// The least number that is there and wasn't exported.
fn least_taken(arriving: &[Arriving]) -> Option<Number>
    ensures { result ≡ least_of taken_in arriving.now }
{
    for part in arriving {
        if let Some(number) = part.least_taken() {
            return Some(number);
        }
    }
    None
}

/// The least number that is known otherwise.
fn least_differing(arriving: &[Arriving]) -> Option<Number>
    ensures { result ≡ least_of differing_in arriving.now }
{
    for part in arriving {
        if let Some(number) = part.least_differing() {
            return Some(number);
        }
    }
    None
}

/// The first check that fails of those over the numbers of a notice.
pub fn numbers_refusal(own: RegistryCode, arriving: &[Arriving]) -> Option<Refusal>
    ensures { result ≡ first_refusal (numbers_checks own arriving.now) }
{
    if let Some(number) = least_unknown(own, arriving) {
        return Some(Refusal::UnknownNumber(number));
    }
    if let Some(number) = least_taken(arriving) {
        return Some(Refusal::NumberTaken(number));
    }
    if let Some(number) = least_differing(arriving) {
        return Some(Refusal::LotDiffers(number));
    }
    None
}

/// Whether the certificates of some part are over.
pub fn is_stale(parts: &[Part], today: Day) -> bool
    ensures { result ≡ list_any (λ p. over_test p.lot today) parts.now }
{
    parts.iter().any(|part| is_over(&part.lot, today))
}
