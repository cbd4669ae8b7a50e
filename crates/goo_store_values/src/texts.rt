//! Texts that columns keep, as values. One that is none such is `Refused`, and a notice may want
//! `Memory`.

ghost use Rattle.std.specs.Prelude.{◌≡◌, is_ok, option_map, string_bytes, Some, IfErr, IfOk};
ghost use Rattle.std.specs.Prelude.{IsOkUnless, IsTrue};
ghost use Rattle.goo_types.specs.Carrier.{carrier_reading};
ghost use Rattle.goo_types.specs.Codes.{holder_reading, name_reading, country_reading};
ghost use Rattle.goo_types.specs.Codes.{tech_reading, source_reading};
ghost use Rattle.goo_types.specs.Day.{day_reading};
ghost use Rattle.goo_types.specs.Gsrn.{gsrn_reading};
ghost use Rattle.goo_types.specs.Support.{support_reading};
ghost use Rattle.goo_notice_text.specs.NoticeText.{notice_in};
ghost use Rattle.goo_spec_tables.specs.Readable.{reads, is_other, is_maybe_other};
ghost use Rattle.goo_spec_tables.specs.Texts.{day_of, support_of, carrier_of, notice_of};
ghost use Rattle.goo_store_values.specs.declared.statement_fault.StatementFault.TheVariants.{Memory, Refused};

use crate::statement_fault::StatementFault;
use goo_notice::{NoticeFault, read};
use goo_types::carrier::Carrier;
use goo_types::country::Country;
use goo_types::day::Day;
use goo_types::gsrn::Gsrn;
use goo_types::holder_code::HolderCode;
use goo_types::name::Name;
use goo_types::notice::Notice;
use goo_types::source_code::SourceCode;
use goo_types::support::Support;
use goo_types::tech_code::TechCode;
use std::alloc::Global;

/// The code of a holder.
#[tactic(auto, unfolding(goo_types::specs::TextReading::text_reading))]
pub fn holder_code(text: &str) -> Result<HolderCode, StatementFault>
    ensures value { IfOk result (λ code. code ≡ text.now) }
    ensures accepts { is_ok result ≡ reads (holder_reading text.now) }
    ensures cause { IfErr result (λ cause. cause ≡ Refused) }
{
    match HolderCode::read(text.as_bytes()) {
        Ok(code) => Ok(code),
        Err(_) => Err(StatementFault::Refused),
    }
}

/// A name.
#[tactic(auto, unfolding(goo_types::specs::TextReading::text_reading))]
pub fn name(text: &str) -> Result<Name, StatementFault>
    ensures value { IfOk result (λ name. name ≡ text.now) }
    ensures accepts { is_ok result ≡ reads (name_reading text.now) }
    ensures cause { IfErr result (λ cause. cause ≡ Refused) }
{
    match Name::read(text.as_bytes()) {
        Ok(name) => Ok(name),
        Err(_) => Err(StatementFault::Refused),
    }
}

/// A country.
#[tactic(auto, unfolding(goo_types::specs::TextReading::text_reading))]
pub(crate) fn country(text: &str) -> Result<Country, StatementFault>
    ensures value { IfOk result (λ country. country ≡ text.now) }
    ensures accepts { is_ok result ≡ reads (country_reading text.now) }
    ensures cause { IfErr result (λ cause. cause ≡ Refused) }
{
    match Country::read(text.as_bytes()) {
        Ok(country) => Ok(country),
        Err(_) => Err(StatementFault::Refused),
    }
}

/// A technology.
#[tactic(auto, unfolding(goo_types::specs::TextReading::text_reading))]
pub(crate) fn tech_code(text: &str) -> Result<TechCode, StatementFault>
    ensures value { IfOk result (λ code. code ≡ text.now) }
    ensures accepts { is_ok result ≡ reads (tech_reading text.now) }
    ensures cause { IfErr result (λ cause. cause ≡ Refused) }
{
    match TechCode::read(text.as_bytes()) {
        Ok(code) => Ok(code),
        Err(_) => Err(StatementFault::Refused),
    }
}

/// An energy source.
#[tactic(auto, unfolding(goo_types::specs::TextReading::text_reading))]
pub(crate) fn source_code(text: &str) -> Result<SourceCode, StatementFault>
    ensures value { IfOk result (λ code. code ≡ text.now) }
    ensures accepts { is_ok result ≡ reads (source_reading text.now) }
    ensures cause { IfErr result (λ cause. cause ≡ Refused) }
{
    match SourceCode::read(text.as_bytes()) {
        Ok(code) => Ok(code),
        Err(_) => Err(StatementFault::Refused),
    }
}

/// The number of a device (GS1 GSRN).
#[tactic(auto, unfolding(goo_types::specs::Gsrn::gsrn_reading))]
pub fn gsrn(text: &str) -> Result<Gsrn, StatementFault>
    ensures value { IfOk result (λ gsrn. gsrn ≡ text.now) }
    ensures accepts { is_ok result ≡ reads (gsrn_reading text.now) }
    ensures cause { IfErr result (λ cause. cause ≡ Refused) }
{
    match Gsrn::read(text.as_bytes()) {
        Ok(gsrn) => Ok(gsrn),
        Err(_) => Err(StatementFault::Refused),
    }
}

/// A day.
pub fn day(text: &str) -> Result<Day, StatementFault>
    ensures value { IfOk result (λ day. day ≡ day_of text.now) }
    ensures accepts { is_ok result ≡ reads (day_reading text.now) }
    ensures cause { IfErr result (λ cause. cause ≡ Refused) }
{
    match Day::read(text.as_bytes()) {
        Ok(day) => Ok(day),
        Err(_) => Err(StatementFault::Refused),
    }
}

/// The support that a device had.
pub(crate) fn support(text: &str) -> Result<Support, StatementFault>
    ensures value { IfOk result (λ support. support ≡ support_of text.now) }
    ensures accepts { is_ok result ≡ reads (support_reading text.now) }
    ensures cause { IfErr result (λ cause. cause ≡ Refused) }
{
    match Support::read(text.as_bytes()) {
        Ok(support) => Ok(support),
        Err(_) => Err(StatementFault::Refused),
    }
}

/// A carrier by its word, which is one for another than electricity.
fn other_carrier(word: &str) -> Result<Carrier, StatementFault>
    ensures value { IfOk result (λ carrier. carrier ≡ carrier_of (Some word.now)) }
    ensures accepts { is_ok result ≡ is_other (carrier_reading word.now) }
    ensures cause { IfErr result (λ cause. cause ≡ Refused) }
{
    match Carrier::read(word.as_bytes()) {
        Ok(Carrier::Electricity) | Err(_) => Err(StatementFault::Refused),
        Ok(carrier) => Ok(carrier),
    }
}

/// The carrier of a device or a lot: electricity where no word is kept for it.
pub(crate) fn carrier(word: &Option<String>) -> Result<Carrier, StatementFault>
    ensures value { IfOk result
        (λ carrier. carrier ≡ carrier_of (option_map string_bytes word.now)) }
    ensures accepts { is_ok result ≡ is_maybe_other (option_map string_bytes word.now) }
    ensures cause { IfErr result (λ cause. cause ≡ Refused) }
{
    match word {
        Some(word) => other_carrier(word),
        None => Ok(Carrier::Electricity),
    }
}

/// A notice, by its text.
pub fn notice(alloc: Global, body: &[u8]) -> Result<Notice, StatementFault>
    ensures value { IfOk result (λ notice. notice ≡ notice_of body.now) }
    ensures accepts { IsTrue (reads (notice_in body.now)) → IsOkUnless result Memory }
{
    match read(alloc, body) {
        Ok(notice) => Ok(notice),
        Err(NoticeFault::Memory) => Err(StatementFault::Memory),
        Err(_) => Err(StatementFault::Refused),
    }
}
