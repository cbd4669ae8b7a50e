//! Whether the readers of the registry's values accept texts.

ghost use Rattle.std.specs.Prelude.{◌≡◌, option_map, string_bytes};
ghost use Rattle.goo_types.specs.Carrier.{carrier_reading};
ghost use Rattle.goo_types.specs.Codes.{holder_reading, name_reading, key_reading, country_reading};
ghost use Rattle.goo_types.specs.Codes.{tech_reading, source_reading};
ghost use Rattle.goo_types.specs.Day.{day_reading};
ghost use Rattle.goo_types.specs.Gsrn.{gsrn_reading};
ghost use Rattle.goo_types.specs.Support.{support_reading};
ghost use Rattle.goo_spec_tables.specs.Readable.{reads, is_maybe_day, is_other, is_maybe_other};

use goo_types::carrier::Carrier;
use goo_types::country::Country;
use goo_types::day::Day;
use goo_types::gsrn::Gsrn;
use goo_types::holder_code::HolderCode;
use goo_types::key::Key;
use goo_types::name::Name;
use goo_types::source_code::SourceCode;
use goo_types::support::Support;
use goo_types::tech_code::TechCode;

/// A holder's code, or `ISSUER`.
pub fn is_code_text(text: &str) -> bool
    ensures { result ≡ reads (holder_reading text.now) }
{
    HolderCode::read(text.as_bytes()).is_ok()
}

/// A name.
pub fn is_name(text: &str) -> bool
    ensures { result ≡ reads (name_reading text.now) }
{
    Name::read(text.as_bytes()).is_ok()
}

/// A caller's key.
pub fn is_key(text: &str) -> bool
    ensures { result ≡ reads (key_reading text.now) }
{
    Key::read(text.as_bytes()).is_ok()
}

/// A country.
pub fn is_country(text: &str) -> bool
    ensures { result ≡ reads (country_reading text.now) }
{
    Country::read(text.as_bytes()).is_ok()
}

/// A technology.
pub fn is_tech(text: &str) -> bool
    ensures { result ≡ reads (tech_reading text.now) }
{
    TechCode::read(text.as_bytes()).is_ok()
}

/// An energy source.
pub fn is_source(text: &str) -> bool
    ensures { result ≡ reads (source_reading text.now) }
{
    SourceCode::read(text.as_bytes()).is_ok()
}

/// The number of a device (GS1 GSRN).
pub fn is_gsrn(text: &str) -> bool
    ensures { result ≡ reads (gsrn_reading text.now) }
{
    Gsrn::read(text.as_bytes()).is_ok()
}

/// A day of the calendar.
pub fn is_day(text: &str) -> bool
    ensures { result ≡ reads (day_reading text.now) }
{
    Day::read(text.as_bytes()).is_ok()
}

/// A day of the calendar, where there is one.
pub fn is_day_or_none(text: &Option<String>) -> bool
    ensures { result ≡ is_maybe_day (option_map string_bytes text.now) }
{
    match text {
        Some(text) => is_day(text),
        None => true,
    }
}

/// The support that a device had.
pub fn is_support(text: &str) -> bool
    ensures { result ≡ reads (support_reading text.now) }
{
    Support::read(text.as_bytes()).is_ok()
}

/// The word for another carrier than electricity.
pub fn is_other_carrier(text: &str) -> bool
    ensures { result ≡ is_other (carrier_reading text.now) }
{
    match Carrier::read(text.as_bytes()) {
        Ok(Carrier::Electricity) | Err(_) => false,
        Ok(_) => true,
    }
}

/// The word for another carrier than electricity, where there is one.
pub fn is_other_or_none(word: &Option<String>) -> bool
    ensures { result ≡ is_maybe_other (option_map string_bytes word.now) }
{
    let Some(word) = word else {
        return true;
    };
    is_other_carrier(word)
}
