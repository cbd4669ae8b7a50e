//! What is kept of the rows of all tables but `meta`, each table in the order of its rowids.

use goo_store_receipts::cancellations::JudgedCancellation;
use goo_store_receipts::receipts::JudgedReceipt;
use goo_tables_rows::account::AccountRow;
use goo_tables_rows::correction::CorrectionRow;
use goo_tables_rows::declaration::DeclarationRow;
use goo_tables_rows::device::DeviceRow;
use goo_tables_rows::device_carrier::DeviceCarrierRow;
use goo_tables_rows::holder::HolderRow;
use goo_tables_rows::lot::LotRow;
use goo_tables_rows::lot_carrier::LotCarrierRow;
use goo_tables_rows::notice_in::NoticeInRow;
use goo_tables_rows::notice_out::NoticeOutRow;
use goo_tables_rows::peer::PeerRow;
use goo_tables_rows::piece::PieceRow;
use goo_tables_rows::withdrawal::WithdrawalRow;

/// Those that the registry knows.
#[derive(Drop)]
pub struct Members {
    pub holders: Vec<HolderRow>,
    pub accounts: Vec<AccountRow>,
    pub peers: Vec<PeerRow>,
}

/// What was produced, what was taken off it, and the certificates for it.
#[derive(Drop)]
pub struct Production {
    pub devices: Vec<DeviceRow>,
    pub declarations: Vec<DeclarationRow>,
    pub corrections: Vec<CorrectionRow>,
    pub lots: Vec<LotRow>,
    pub pieces: Vec<PieceRow>,
}

/// The requests that were accepted, of whose receipts only the judgment is kept, and the records
/// of acts: of a cancellation its number, its account and the judgment.
#[derive(Drop)]
pub struct Acts {
    pub receipts: Vec<JudgedReceipt>,
    pub cancellations: Vec<JudgedCancellation>,
    pub withdrawals: Vec<WithdrawalRow>,
}

/// The notices that were sent and that came in.
#[derive(Drop)]
pub struct Notices {
    pub sent: Vec<NoticeOutRow>,
    pub came: Vec<NoticeInRow>,
}

/// The carriers of devices and of lots that have one other than electricity.
#[derive(Drop)]
pub struct Carriers {
    pub devices: Vec<DeviceCarrierRow>,
    pub lots: Vec<LotCarrierRow>,
}

/// The rows of all tables but `meta`.
#[derive(Drop)]
pub struct AllRows {
    pub members: Members,
    pub production: Production,
    pub acts: Acts,
    pub notices: Notices,
    pub carriers: Carriers,
}
