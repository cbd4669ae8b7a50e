/// An option of a command, or the account that it names.
#[derive(Debug, Clone, Copy, PartialEq, Eq)]
pub enum Setting {
    /// `--db`, the file.
    File,
    /// `--code`, 1 to 99.
    Code,
    /// `--today`, a day.
    Today,
    /// `--next-serial`, 1 to 999,999,999,999.
    NextSerial,
    /// The account, 1 to 999,999,999.
    Account,
    /// `--port`, 1 to 65535.
    Port,
    /// `--count`, 0 to 1,000,000,000.
    Count,
}
