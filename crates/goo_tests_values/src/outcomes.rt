//! The texts of outcomes, against a table written by hand.
use crate::claims::holds;
use goo_desk_outcome::{Unreadable, outcome_text, unreadable_text};
use goo_types::account_no::AccountNo;
use goo_types::act_no::ActNo;
use goo_types::number::Number;
use goo_types::outcome::Outcome;
use goo_types::range::Range;
use goo_types::refusal::Refusal;
use goo_types::reply::Reply;
use std::alloc::Global;
use std::process::Abort;

/// What a request did, and its text.
type ReplyRow = (Reply, &'static str);

/// What a request did, with no account, act or range.
const REPLIES: [ReplyRow; 6] = [
    (Reply::Done, "{}"),
    (
        Reply::Declared {
            carry: 999_999,
            issued: None,
        },
        "{\"carry\":999999,\"count\":0}",
    ),
    (
        Reply::Corrected {
            carry: 999_999,
            count: 0,
            withdrawal: None,
        },
        "{\"carry\":999999,\"count\":0,\"withdrawal\":0}",
    ),
    (Reply::Moved { count: 10 }, "{\"count\":10}"),
    (Reply::Imported { count: 10 }, "{\"count\":10}"),
    (Reply::Advanced { expired: 0 }, "{\"expired\":0}"),
];

/// A reason, and the text of its code and name.
type RefusalRow = (Refusal, &'static str);

/// The reasons that name no certificate.
const REFUSALS: [RefusalRow; 28] = [
    (Refusal::NotAllowed, "1,\"name\":\"NotAllowed\""),
    (Refusal::KeyReused, "2,\"name\":\"KeyReused\""),
    (Refusal::UnknownHolder, "3,\"name\":\"UnknownHolder\""),
    (Refusal::HolderExists, "4,\"name\":\"HolderExists\""),
    (Refusal::UnknownAccount, "5,\"name\":\"UnknownAccount\""),
    (Refusal::AccountClosed, "6,\"name\":\"AccountClosed\""),
    (Refusal::AccountNotEmpty, "7,\"name\":\"AccountNotEmpty\""),
    (Refusal::DeviceExists, "8,\"name\":\"DeviceExists\""),
    (Refusal::UnknownDevice, "9,\"name\":\"UnknownDevice\""),
    (
        Refusal::BeforeCommissioning,
        "10,\"name\":\"BeforeCommissioning\"",
    ),
    (Refusal::PeriodOrder, "11,\"name\":\"PeriodOrder\""),
    (Refusal::PeriodSpan, "12,\"name\":\"PeriodSpan\""),
    (Refusal::AuxExceedsGross, "13,\"name\":\"AuxExceedsGross\""),
    (Refusal::OverCapacity, "14,\"name\":\"OverCapacity\""),
    (
        Refusal::NumbersExhausted,
        "15,\"name\":\"NumbersExhausted\"",
    ),
    (Refusal::SameAccount, "19,\"name\":\"SameAccount\""),
    (Refusal::DateBackwards, "20,\"name\":\"DateBackwards\""),
    (Refusal::UnknownPeer, "21,\"name\":\"UnknownPeer\""),
    (Refusal::PeerExists, "22,\"name\":\"PeerExists\""),
    (Refusal::WrongRegistry, "23,\"name\":\"WrongRegistry\""),
    (Refusal::NoticeConflict, "24,\"name\":\"NoticeConflict\""),
    (Refusal::Stale, "27,\"name\":\"Stale\""),
    (Refusal::FuturePeriod, "28,\"name\":\"FuturePeriod\""),
    (Refusal::UsePeriod, "29,\"name\":\"UsePeriod\""),
    (Refusal::TooManyParts, "30,\"name\":\"TooManyParts\""),
    (
        Refusal::UnknownDeclaration,
        "31,\"name\":\"UnknownDeclaration\"",
    ),
    (Refusal::OverCorrected, "32,\"name\":\"OverCorrected\""),
    (Refusal::WrongCount, "33,\"name\":\"WrongCount\""),
];

/// An outcome's text is the one that is wanted; else both are told.
fn reads(rt: &impl Abort, outcome: Outcome, wanted: &str) {
    let text = outcome_text(outcome);
    assert!(rt;
        text.as_str() == wanted,
        "{} in place of {wanted}",
        text.as_str()
    );
}

/// A request that did this has a text, in the word that it is told by.
fn reply_reads(rt: &impl Abort, alloc: Global, outcome: Outcome, word: &str, reply: &str) {
    let wanted = format!(in alloc; "{{\"outcome\":\"{word}\",\"reply\":{reply}}}");
    reads(rt, outcome, wanted.expect(rt, "memory").as_str());
}

/// The replies have their texts, told at once and told again.
fn replies_read(rt: &impl Abort, alloc: Global, replies: &[ReplyRow]) {
    for (reply, wanted) in replies {
        reply_reads(rt, alloc, Outcome::Accepted(*reply), "accepted", wanted);
        reply_reads(rt, alloc, Outcome::Repeated(*reply), "repeated", wanted);
    }
}

/// The refusals have their texts, each with that of the certificate that it names.
fn refusals_read(rt: &impl Abort, alloc: Global, refusals: &[RefusalRow], number: &str) {
    for (refusal, reason) in refusals {
        let wanted = format!(in alloc; "{{\"code\":{reason}{number},\"outcome\":\"refused\"}}");
        let wanted = wanted.expect(rt, "memory");
        reads(rt, Outcome::Refused(*refusal), wanted.as_str());
    }
}

#[test]
fn accepted(rt: HostRuntime) {
    replies_read(&rt, rt.alloc(), &REPLIES)
}

#[test]
fn accepted_with_numbers(rt: HostRuntime) {
    let account = AccountNo::new(1).expect(&rt, "an account");
    let first = Number::read(b"07000000000001").expect(&rt, "a number");
    let last = Number::read(b"07000000001200").expect(&rt, "a number");
    let issued = Range::new(first, last).expect(&rt, "a range");
    let declared = Reply::Declared {
        carry: 0,
        issued: Some(issued),
    };
    let replies = [
        (Reply::Account { account }, "{\"account\":1}"),
        (
            declared,
            "{\"carry\":0,\"count\":1200,\"first\":\"07000000000001\",\"last\":\"07000000001200\"}",
        ),
    ];
    replies_read(&rt, rt.alloc(), &replies)
}

#[test]
fn accepted_with_acts(rt: HostRuntime) {
    let act = ActNo::new(1).expect(&rt, "an act");
    let replies = [
        (
            Reply::Cancelled {
                cancellation: act,
                count: 10,
            },
            "{\"cancellation\":1,\"count\":10}",
        ),
        (
            Reply::Withdrawn {
                withdrawal: act,
                count: 1,
            },
            "{\"count\":1,\"withdrawal\":1}",
        ),
        (
            Reply::Corrected {
                carry: 1,
                count: 1,
                withdrawal: Some(act),
            },
            "{\"carry\":1,\"count\":1,\"withdrawal\":1}",
        ),
        (
            Reply::Exported {
                notice: act,
                count: 10,
            },
            "{\"count\":10,\"notice\":1}",
        ),
    ];
    replies_read(&rt, rt.alloc(), &replies)
}

#[test]
fn refused(rt: HostRuntime) {
    refusals_read(&rt, rt.alloc(), &REFUSALS, "")
}

#[test]
fn refused_for_a_certificate(rt: HostRuntime) {
    let n = Number::read(b"07000000000007").expect(&rt, "a number");
    let refusals = [
        (Refusal::UnknownNumber(n), "16,\"name\":\"UnknownNumber\""),
        (Refusal::NotHeld(n), "17,\"name\":\"NotHeld\""),
        (Refusal::TradeClosed(n), "18,\"name\":\"TradeClosed\""),
        (Refusal::NumberTaken(n), "25,\"name\":\"NumberTaken\""),
        (Refusal::LotDiffers(n), "26,\"name\":\"LotDiffers\""),
        (Refusal::OtherDevice(n), "34,\"name\":\"OtherDevice\""),
    ];
    refusals_read(&rt, rt.alloc(), &refusals, ",\"number\":\"07000000000007\"")
}

#[test]
fn unreadable(rt: HostRuntime) {
    let faults = [
        (
            Unreadable::Caller,
            "{\"fault\":\"Caller\",\"outcome\":\"unreadable\"}",
        ),
        (
            Unreadable::NotJson,
            "{\"fault\":\"NotJson\",\"outcome\":\"unreadable\"}",
        ),
        (
            Unreadable::Shape,
            "{\"fault\":\"Shape\",\"outcome\":\"unreadable\"}",
        ),
        (
            Unreadable::Field,
            "{\"fault\":\"Field\",\"outcome\":\"unreadable\"}",
        ),
    ];
    for (fault, wanted) in faults {
        holds(&rt, unreadable_text(fault).as_str() == wanted, wanted);
    }
}
