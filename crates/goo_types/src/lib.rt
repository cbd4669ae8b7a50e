//! The values of a registry of guarantees of origin, and their readers.
//!
//! A type keeps the rule of its form: what a reader or a constructor let through is never tested
//! again.
//!
//! Each type stands at the root of the crate as well as in its module.
//!
//! - Certificates: a [`number`], a [`range`] of numbers, a [`lot`] of what they have in common, a
//!   [`place`] where each is, a [`piece`] of consecutive ones with one lot and one place.
//! - Days and deadlines: [`day`].
//! - Codes and texts: [`gsrn`], [`holder_code`], [`key`], [`name`], [`tech_code`], [`source_code`],
//!   [`country`], [`support`], [`carrier`].
//! - Limited integers: [`registry_code`], [`serial`], [`account_no`], [`act_no`], [`watts`],
//!   [`wh`].
//! - What limits them, and the words that are fixed: [`limits`].
//! - Between registries: a [`notice`] of [`part`]s.
//! - Asked and answered: a [`request`] with its [`command`]; a [`reply`], a [`refusal`] or a
//!   [`fault`], and the [`outcome`].
#![tactic(auto)]

pub mod account_no;
pub mod act_no;
pub mod carrier;
pub mod command;
mod command_equality;
pub mod country;
pub mod day;
pub mod digits;
pub mod fault;
pub mod gsrn;
pub mod holder_code;
mod inline;
pub mod key;
pub mod limits;
pub mod lot;
pub mod lot_fields;
pub mod name;
pub mod notice;
pub mod number;
pub mod outcome;
pub mod part;
mod parts;
pub mod piece;
pub mod place;
pub mod range;
pub mod refusal;
pub mod registry_code;
pub mod reply;
pub mod request;
pub mod serial;
pub mod source_code;
pub mod support;
pub mod tech_code;
pub mod text_fault;
pub mod watts;
pub mod wh;

pub use account_no::AccountNo;
pub use act_no::ActNo;
pub use carrier::Carrier;
pub use command::{
    AddPeer, Advance, Cancel, CloseAccount, Command, Correct, Declare, Export, Import, OpenAccount,
    OpenHolder, RegisterDevice, Transfer, Withdraw,
};
pub use country::Country;
pub use day::{Day, DayFault};
pub use fault::Fault;
pub use gsrn::{Gsrn, GsrnFault};
pub use holder_code::HolderCode;
pub use key::Key;
pub use lot::Lot;
pub use lot_fields::LotFields;
pub use name::Name;
pub use notice::{Notice, RuleFault};
pub use number::{Number, NumberFault};
pub use outcome::Outcome;
pub use part::Part;
pub use piece::Piece;
pub use place::Place;
pub use range::Range;
pub use refusal::Refusal;
pub use registry_code::RegistryCode;
pub use reply::Reply;
pub use request::Request;
pub use serial::Serial;
pub use source_code::SourceCode;
pub use support::Support;
pub use tech_code::TechCode;
pub use text_fault::TextFault;
pub use watts::Watts;
pub use wh::Wh;
