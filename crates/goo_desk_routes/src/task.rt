//! What a route and the part of a path that it names ask for.
ghost use Rattle.std.specs.Prelude.{◌≡◌};
ghost use Rattle.goo_desk_routes.specs.Tasks.{account_in as account_stated, act_in as act_stated};
ghost use Rattle.goo_desk_routes.specs.Tasks.{certificate_in as certificate_stated};
ghost use Rattle.goo_desk_routes.specs.Tasks.{task_of as task_stated};

use crate::number::number_in;
use crate::route::Route;
use goo_types::account_no::AccountNo;
use goo_types::act_no::ActNo;
use goo_types::number::Number;

/// What is to be shown.
#[derive(Debug, Clone, Copy, PartialEq, Eq)]
pub enum Subject {
    /// The statement of this account.
    Statement(AccountNo),
    /// This certificate.
    Certificate(Number),
    /// The document of this cancellation.
    Cancellation(ActNo),
    /// This notice.
    Notice(ActNo),
    /// The audit.
    Audit,
}

/// What is to be done.
#[derive(Debug, Clone, Copy, PartialEq, Eq)]
pub enum Task {
    /// The request in the body is to be applied.
    Apply,
    /// The declarations in the body are to be imported.
    Import,
    /// This is to be shown.
    Show(Subject),
}

/// The account that a part of a path names.
fn account_in(part: &[u8]) -> Option<AccountNo>
    ensures { result ≡ account_stated part.now }
{
    match AccountNo::new(number_in(part)?) {
        Some(account) => Some(account),
        None => None,
    }
}

/// The act that a part of a path names.
fn act_in(part: &[u8]) -> Option<ActNo>
    ensures { result ≡ act_stated part.now }
{
    match ActNo::new(number_in(part)?) {
        Some(act) => Some(act),
        None => None,
    }
}

/// The certificate that a part of a path names.
fn certificate_in(part: &[u8]) -> Option<Number>
    ensures { result ≡ certificate_stated part.now }
{
    Number::read(part).ok()
}

/// What a route and the part of a path that it names ask for; None where the reader of the part
/// refuses it.
#[tactic(auto, unfolding(crate::specs::Tasks::task_of))]
pub fn task_of(route: Route, part: &[u8]) -> Option<Task>
    ensures { result ≡ task_stated route part.now }
{
    Some(match route {
        Route::Requests => Task::Apply,
        Route::Declarations => Task::Import,
        Route::Statement => Task::Show(Subject::Statement(account_in(part)?)),
        Route::Certificate => Task::Show(Subject::Certificate(certificate_in(part)?)),
        Route::Cancellation => Task::Show(Subject::Cancellation(act_in(part)?)),
        Route::Notice => Task::Show(Subject::Notice(act_in(part)?)),
        Route::Audit => Task::Show(Subject::Audit),
    })
}
