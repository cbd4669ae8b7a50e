//! Energy carriers: what a production device makes.
ghost use Rattle.std.specs.Prelude.{◌≡◌, Ok};

use crate::text_fault::TextFault;

/// What carries the energy that a production device makes (Directive (EU) 2018/2001, Article 19(1)
/// and (7)).
#[derive(Clone, Copy, Debug, PartialEq, Eq)]
pub enum Carrier {
    /// Electricity.
    Electricity,
    /// Gas.
    Gas,
    /// Hydrogen.
    Hydrogen,
    /// Heating and cooling.
    HeatingCooling,
}

impl Carrier {
    ghost use Rattle.goo_types.specs.Carrier.{carrier_word, carrier_reading};

    /// The carrier that a word names: `electricity`, `gas`, `hydrogen` or `heating-cooling`.
    ///
    /// # Errors
    ///
    /// `Shape` for any other text.
    pub fn read(text: &[u8]) -> Result<Carrier, TextFault>
        ensures { result ≡ carrier_reading text.now }
    {
        if text == b"electricity".as_slice() {
            Ok(Carrier::Electricity)
        } else if text == b"gas".as_slice() {
            Ok(Carrier::Gas)
        } else if text == b"hydrogen".as_slice() {
            Ok(Carrier::Hydrogen)
        } else if text == b"heating-cooling".as_slice() {
            Ok(Carrier::HeatingCooling)
        } else {
            Err(TextFault::Shape)
        }
    }

    /// The word, which reads as this carrier again.
    pub fn word(self) -> &'static str
        ensures value { result.now ≡ carrier_word self }
        ensures reads_back { carrier_reading result.now ≡ Ok self }
    {
        match self {
            Carrier::Electricity => "electricity",
            Carrier::Gas => "gas",
            Carrier::Hydrogen => "hydrogen",
            Carrier::HeatingCooling => "heating-cooling",
        }
    }
}
