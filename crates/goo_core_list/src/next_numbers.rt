//! The next number of each kind, once one was given.
ghost use Rattle.std.specs.Prelude.{◌≡◌, ◌+◌, ◌≤◌};
ghost use Rattle.goo_spec.specs.State.{last_act, serials};

use goo_core_shelf::counters::Counters;

/// After some serials were given.
pub fn after_serials(next: Counters, count: u64) -> Counters
    requires { next.serial + count ≤ serials }
    ensures { result ≡ record next { serial = next.serial + count } }
{
    let serial = next.serial() + count;
    let cancellation = next.cancellation();
    let withdrawal = next.withdrawal();
    Counters::new(
        serial,
        next.account(),
        cancellation,
        withdrawal,
        next.notice(),
    )
    .unwrap()
}

/// After an account was opened.
pub fn after_account(next: Counters) -> Counters
    requires { next.account ≤ last_act }
    ensures { result ≡ record next { account = next.account + 1 } }
{
    let account = next.account() + 1;
    let cancellation = next.cancellation();
    let withdrawal = next.withdrawal();
    Counters::new(
        next.serial(),
        account,
        cancellation,
        withdrawal,
        next.notice(),
    )
    .unwrap()
}

/// After a cancellation.
pub fn after_cancellation(next: Counters) -> Counters
    requires { next.cancellation ≤ last_act }
    ensures { result ≡ record next { cancellation = next.cancellation + 1 } }
{
    let account = next.account();
    let cancellation = next.cancellation() + 1;
    let withdrawal = next.withdrawal();
    Counters::new(
        next.serial(),
        account,
        cancellation,
        withdrawal,
        next.notice(),
    )
    .unwrap()
}

/// After a withdrawal.
pub fn after_withdrawal(next: Counters) -> Counters
    requires { next.withdrawal ≤ last_act }
    ensures { result ≡ record next { withdrawal = next.withdrawal + 1 } }
{
    let account = next.account();
    let cancellation = next.cancellation();
    let withdrawal = next.withdrawal() + 1;
    Counters::new(
        next.serial(),
        account,
        cancellation,
        withdrawal,
        next.notice(),
    )
    .unwrap()
}

/// After a notice was sent.
pub fn after_notice(next: Counters) -> Counters
    requires { next.notice ≤ last_act }
    ensures { result ≡ record next { notice = next.notice + 1 } }
{
    let account = next.account();
    let cancellation = next.cancellation();
    let withdrawal = next.withdrawal();
    Counters::new(
        next.serial(),
        account,
        cancellation,
        withdrawal,
        next.notice() + 1,
    )
    .unwrap()
}
