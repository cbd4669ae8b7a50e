//! Texts that are wanted, worked out by hand.

/// Account 1 on 5 April 2025.
pub const STATEMENT: &str =
    "STATEMENT\nregistry 07\ndate 2025-04-05\naccount 1\nholder SUN\nstatus open\n07000000000001 07000000001200         1200 500000000000000012 2025-01-01 2025-01-31 T010000 F01010100 held\n07000000001201 07000000001201            1 500000000000000012 2025-03-01 2025-03-31 T010000 F01010100 held\nheld 1201\ncancelled 0\nexpired 0\nwithdrawn 0\nexported 0\nEND\n";

/// What account 2 shows while it has the hundred.
pub const GIVEN: &str =
    "STATEMENT\nregistry 07\ndate 2025-04-05\naccount 2\nholder VOLT\nstatus open\n07000000000100 07000000000199          100 500000000000000012 2025-01-01 2025-01-31 T010000 F01010100 held\nheld 100\ncancelled 0\nexpired 0\nwithdrawn 0\nexported 0\nEND\n";

/// What account 1 holds on 5 April 2025.
pub const HOLDINGS: &str =
    "first,last,count,device,country,site,tech,source,capacity_w,commissioned,support,first_day,last_day,issued_on,carrier\n07000000000001,07000000001200,1200,500000000000000012,DE,North field,T010000,F01010100,2000000,2020-06-15,none,2025-01-01,2025-01-31,2025-03-01,electricity\n07000000001201,07000000001201,1,500000000000000012,DE,North field,T010000,F01010100,2000000,2020-06-15,none,2025-03-01,2025-03-31,2025-04-05,electricity\n";

/// The same once ten are cancelled.
pub const LEFT: &str =
    "first,last,count,device,country,site,tech,source,capacity_w,commissioned,support,first_day,last_day,issued_on,carrier\n07000000000011,07000000001200,1190,500000000000000012,DE,North field,T010000,F01010100,2000000,2020-06-15,none,2025-01-01,2025-01-31,2025-03-01,electricity\n07000000001201,07000000001201,1,500000000000000012,DE,North field,T010000,F01010100,2000000,2020-06-15,none,2025-03-01,2025-03-31,2025-04-05,electricity\n";

/// Certificates of each carrier.
pub const CARRIED: &str =
    "first,last,count,device,country,site,tech,source,capacity_w,commissioned,support,first_day,last_day,issued_on,carrier\n07000000000001,07000000000002,2,500000000000000012,DE,North field,T010000,F01010100,2000000,2020-06-15,none,2025-01-01,2025-01-31,2025-03-01,electricity\n07000000000003,07000000000003,1,500000000000000029,DE,South field,T010000,F01010100,2000000,2020-06-15,none,2025-01-01,2025-01-31,2025-03-01,hydrogen\n09000000000001,09000000000004,4,500000000000000012,NL,Pipe,T010000,F01010100,1000,2021-01-01,both,2025-02-01,2025-02-28,2025-03-01,gas\n09000000000005,09000000000005,1,500000000000000029,NL,Pipe,T010000,F01010100,1000,2021-01-01,both,2025-02-01,2025-02-28,2025-03-01,heating-cooling\n09000000000006,09000000000006,1,500000000000000036,NL,Wire,T010000,F01010100,1000,2021-01-01,both,2025-02-01,2025-02-28,2025-03-01,electricity\n";

/// The same with a certificate of hydrogen more.
pub const CARRIED_THEN: &str =
    "first,last,count,device,country,site,tech,source,capacity_w,commissioned,support,first_day,last_day,issued_on,carrier\n07000000000001,07000000000002,2,500000000000000012,DE,North field,T010000,F01010100,2000000,2020-06-15,none,2025-01-01,2025-01-31,2025-03-01,electricity\n07000000000003,07000000000003,1,500000000000000029,DE,South field,T010000,F01010100,2000000,2020-06-15,none,2025-01-01,2025-01-31,2025-03-01,hydrogen\n07000000000004,07000000000004,1,500000000000000029,DE,South field,T010000,F01010100,2000000,2020-06-15,none,2025-02-01,2025-02-28,2025-03-01,hydrogen\n09000000000001,09000000000004,4,500000000000000012,NL,Pipe,T010000,F01010100,1000,2021-01-01,both,2025-02-01,2025-02-28,2025-03-01,gas\n09000000000005,09000000000005,1,500000000000000029,NL,Pipe,T010000,F01010100,1000,2021-01-01,both,2025-02-01,2025-02-28,2025-03-01,heating-cooling\n09000000000006,09000000000006,1,500000000000000036,NL,Wire,T010000,F01010100,1000,2021-01-01,both,2025-02-01,2025-02-28,2025-03-01,electricity\n";

/// The document of the cancellation.
pub const DOCUMENT: &str =
    "CANCELLATION 1\nregistry 07\ndate 2025-04-05\naccount 1\nholder SUN\nbeneficiary Bäckerei Müller\nperiod 2025-01-01 2025-03-31\n07000000000001 07000000000010           10 500000000000000012 2025-01-01 2025-01-31 T010000 F01010100\ncertificates 10\nEND\n";

/// The audit on 5 April 2025.
pub const AUDIT: &str = "500000000000000012 1201000000 0 1201 0 0\n";

/// A table of declarations: January, a row that can't be read, and February.
pub const TABLE: &str =
    "key,device,first_day,last_day,gross_wh,aux_wh\nc1,500000000000000012,2025-01-01,2025-01-31,1234567890,34567890\nc2,500000000000000012,2025-02-01,2025-02-14,12x,0\nc3,500000000000000012,2025-02-01,2025-02-28,999999,0\n";

/// The report of its import where so many rows stand.
pub const REPORTS: [&str; 4] = [
    "",
    "1 accepted\n",
    "1 accepted\n2 unreadable\n",
    "1 accepted\n2 unreadable\n3 accepted\n",
];

/// The report when it comes again, where so many rows stood.
pub const REPEATS: [&str; 4] = [
    "1 accepted\n2 unreadable\n3 accepted\n",
    "1 repeated\n2 unreadable\n3 accepted\n",
    "1 repeated\n2 unreadable\n3 accepted\n",
    "1 repeated\n2 unreadable\n3 repeated\n",
];
