//! Registries that are closed and opened again, over their connection and on their disks.

use crate::acts::{Act, Done};
use crate::claims::holds;
use crate::deeds::{Deed, does, shows};
use crate::disks::blank;
use crate::script::{APRIL, requests};
use goo_store_open::fault::OpenFault;

/// What the registry of April shows: both accounts, the audit, and neither a cancellation nor a
/// notice.
const APRIL_SHOWN: &str = "{\"code\":11,\"name\":\"PeriodOrder\",\"outcome\":\"refused\"}
{\"code\":21,\"name\":\"UnknownPeer\",\"outcome\":\"refused\"}
Unknown
Unknown
1 07000000000001 07000000001200 2025-01-01 held
1 07000000001201 07000000001201 2025-03-01 held
500000000000000012 1201000000 0 1201 0 0
Unknown
Unknown
";

/// What the registry shows after all requests.
pub const END_SHOWN: &str = "{\"code\":11,\"name\":\"PeriodOrder\",\"outcome\":\"refused\"}
{\"code\":16,\"name\":\"UnknownNumber\",\"number\":\"07999999999999\",\"outcome\":\"refused\"}
Unknown
Unknown
1 07000000000001 07000000000010 2025-01-01 cancelled:1
1 07000000000011 07000000000019 2025-01-01 held
1 07000000000020 07000000000029 2025-01-01 exported:1
1 07000000000030 07000000000099 2025-01-01 held
1 07000000000200 07000000001200 2025-01-01 held
1 07000000001201 07000000001201 2025-03-01 held
2 07000000000100 07000000000199 2025-01-01 held
500000000000000012 1201000000 0 1201 0 0
SUN 2025-04-05 Bäckerei Müller
1 07000000000001 07000000000010 2025-01-01 cancelled:1
{\"account\":5,\"addressee\":9,\"number\":1,\"parts\":[{\"first\":\"07000000000020\",\"last\":\"07000000000029\",\"lot\":{\"capacity_w\":2000000,\"commissioned\":\"2020-06-15\",\"country\":\"DE\",\"device\":\"500000000000000012\",\"first_day\":\"2025-01-01\",\"issued_on\":\"2025-03-01\",\"last_day\":\"2025-01-31\",\"origin\":7,\"site\":\"North field\",\"source\":\"F01010100\",\"support\":\"none\",\"tech\":\"T010000\"}}],\"sender\":7,\"version\":1}
";

#[test]
fn over_one_connection_and_on_its_disks(rt: HostRuntime) {
    let alloc = rt.alloc();
    let april = requests().get(..APRIL).expect(&rt, "so many requests");
    let begins = Deed::Begins(1, Act::Sends(april, 0));
    let disks = shows(&rt, alloc, blank(alloc), &begins, APRIL_SHOWN);
    let repeats = Deed::Opens(Act::Sends(april, APRIL));
    let disks = shows(&rt, alloc, disks, &repeats, APRIL_SHOWN);
    let _disks = shows(&rt, alloc, disks, &repeats, APRIL_SHOWN);
}

#[test]
fn no_other_registry_is_begun_where_there_is_one(rt: HostRuntime) {
    let alloc = rt.alloc();
    let begins = Deed::Begins(1, Act::Rests);
    let (_, disks) = does(&rt, alloc, blank(alloc), &begins);
    let (done, _disks) = does(&rt, alloc, disks, &begins);
    holds(
        &rt,
        matches!(done, Done::Refused(OpenFault::AlreadyThere)),
        "another registry",
    );
}
