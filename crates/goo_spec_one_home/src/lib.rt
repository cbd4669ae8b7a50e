//! Each certificate has one home, or is on one notice under way: a law over registries that send
//! one another notices.
//!
//! `specs/World.antt` says what such a world is. Registries of distinct codes begin as they are
//! created. An event is a request other than an import at one of them, or the delivery of any
//! notice ever sent, to any of them, under any caller and key. So a notice may be lost (it is never
//! delivered), repeated, late, overtaken by another, or delivered to the wrong registry.
//!
//! A certificate is at home in a registry where it has a place and isn't exported. It is on a
//! notice under way where the notice names it, and the notice's addressee is none of these
//! registries or hasn't accepted it.
#![tactic(auto)]

ghost use Rattle.goo_spec_one_home.specs.World.{OneHome, HomeOrRoad, KnownByIssuer, OneLot};
ghost use Rattle.goo_spec_one_home.specs.World.{OneLotSent, SentIsKept};

/// The law, over all lists of events. The one premise is that the registries' codes differ; no
/// value and no request need keep any limit. A certificate was ever issued where some accepted
/// declaration's reply has its number.
///
/// - `home`: its homes and the notices under way that name it are one together; those of a number
///   never issued are none.
/// - `road`: the same of a certificate ever issued: it has one home and is on no notice under way,
///   or has none and is on one.
/// - `known`: the registry of its code knows just the certificates that were ever issued, and knows
///   them for good.
/// - `lot`: wherever a certificate is known, it has the lot that the registry of its code has.
/// - `lot_sent`: so has each part of each notice ever sent.
/// - `kept`: the notices ever sent are just those that the registries keep as sent.
pub fn one_home()
    ensures home { OneHome }
    ensures road { HomeOrRoad }
    ensures known { KnownByIssuer }
    ensures lot { OneLot }
    ensures lot_sent { OneLotSent }
    ensures kept { SentIsKept }
{}
