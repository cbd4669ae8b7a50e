//! The texts on each table, in the order in which the tables are made.

ghost use Rattle.std.specs.Prelude.{◌≡◌, ◌<◌, [], get_or};
ghost use Rattle.goo_store_anew.specs.Questions.{question_texts};

/// Asks for the rows of a table by the names of its columns.
pub fn question(at: usize) -> &'static str
    requires { at < 16 }
    ensures { result.now ≡ get_or question_texts at [] }
{
    match at {
        0 =>
            "SELECT id, version, code, today, next_serial, next_account, next_cancellation, next_withdrawal, next_notice FROM meta ORDER BY id",
        1 => "SELECT code, name FROM holder ORDER BY rowid",
        2 => "SELECT number, holder, closed FROM account ORDER BY number",
        3 =>
            "SELECT gsrn, account, country, site, tech, source, capacity_w, commissioned, support, last_day, carry, NULL FROM device ORDER BY rowid",
        4 => "SELECT id, device, first_day, last_day, gross, aux FROM declaration ORDER BY id",
        5 =>
            "SELECT id, origin, device, country, site, tech, source, capacity_w, commissioned, support, first_day, last_day, expires_on, issued_on, NULL FROM lot ORDER BY id",
        6 => "SELECT first, last, lot, kind, account, act FROM piece ORDER BY first",
        7 => "SELECT code FROM peer ORDER BY rowid",
        8 => "SELECT caller, key, command, kind, n1, n2, n3 FROM receipt ORDER BY rowid",
        9 =>
            "SELECT number, account, first, last, beneficiary, use_first, use_last, day FROM cancellation ORDER BY number",
        10 => "SELECT number, first, last, reason, day FROM withdrawal ORDER BY number",
        11 => "SELECT number, account, body FROM notice_out ORDER BY number",
        12 => "SELECT sender, number, body FROM notice_in ORDER BY rowid",
        13 => "SELECT id, device, first_day, less, withdrawal FROM correction ORDER BY id",
        14 => "SELECT gsrn, carrier FROM device_carrier ORDER BY rowid",
        _ => "SELECT lot, carrier FROM lot_carrier ORDER BY lot",
    }
}

/// Puts a row into a table of ours, whose columns stand in the order of the question. What the
/// question shows behind them, as the carrier that another table has, is left out.
pub fn insertion(at: usize) -> &'static str
    requires { at < 16 }
{
    match at {
        0 => "INSERT INTO meta VALUES (?1, ?2, ?3, ?4, ?5, ?6, ?7, ?8, ?9)",
        1 => "INSERT INTO holder VALUES (?1, ?2)",
        2 => "INSERT INTO account VALUES (?1, ?2, ?3)",
        3 => "INSERT INTO device VALUES (?1, ?2, ?3, ?4, ?5, ?6, ?7, ?8, ?9, ?10, ?11)",
        4 => "INSERT INTO declaration VALUES (?1, ?2, ?3, ?4, ?5, ?6)",
        5 => "INSERT INTO lot VALUES (?1, ?2, ?3, ?4, ?5, ?6, ?7, ?8, ?9, ?10, ?11, ?12, ?13, ?14)",
        6 => "INSERT INTO piece VALUES (?1, ?2, ?3, ?4, ?5, ?6)",
        7 => "INSERT INTO peer VALUES (?1)",
        8 => "INSERT INTO receipt VALUES (?1, ?2, ?3, ?4, ?5, ?6, ?7)",
        9 => "INSERT INTO cancellation VALUES (?1, ?2, ?3, ?4, ?5, ?6, ?7, ?8)",
        10 => "INSERT INTO withdrawal VALUES (?1, ?2, ?3, ?4, ?5)",
        11 => "INSERT INTO notice_out VALUES (?1, ?2, ?3)",
        12 => "INSERT INTO notice_in VALUES (?1, ?2, ?3)",
        13 => "INSERT INTO correction VALUES (?1, ?2, ?3, ?4, ?5)",
        14 => "INSERT INTO device_carrier VALUES (?1, ?2)",
        _ => "INSERT INTO lot_carrier VALUES (?1, ?2)",
    }
}

/// How many columns a table of ours has.
pub fn width(at: usize) -> usize
    requires { at < 16 }
{
    match at {
        0 => 9,
        1 | 14 | 15 => 2,
        2 | 11 | 12 => 3,
        3 => 11,
        4 | 6 => 6,
        5 => 14,
        7 => 1,
        8 => 7,
        9 => 8,
        _ => 5,
    }
}
