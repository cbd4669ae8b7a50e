//! What the public crates offer, each name from the crate that a caller looks for it in. A name
//! that moves away breaks this file.

mod values {
    pub use goo_types::{
        AccountNo, ActNo, AddPeer, Advance, Cancel, Carrier, CloseAccount, Command, Correct,
        Country, Day, DayFault, Declare, Export, Fault, Gsrn, GsrnFault, HolderCode, Import, Key,
        Lot, LotFields, Name, Notice, Number, NumberFault, OpenAccount, OpenHolder, Outcome, Part,
        Place, Range, Refusal, RegisterDevice, RegistryCode, Reply, Request, RuleFault, Serial,
        SourceCode, Support, TechCode, TextFault, Transfer, Watts, Wh, Withdraw,
    };
}

mod rows {
    pub use goo_ranges::{Book, BookFault, Edit, Piece};
}

mod decisions {
    pub use goo_core::{
        Account, Arrival, CancelRecord, Counters, Decision, Device, DeviceTotals, ListShelf, Plan,
        Progress, Receipt, Sent, Shelf, decide,
    };
}

mod notices {
    pub use goo_notice::{NoticeFault, command_text, from_value, one_home, read, write};
}

mod statements {
    pub use goo_tables::account::{all_accounts, close_account, find_account, insert_account};
    pub use goo_tables::cancellation::{all_cancellations, find_cancellation, insert_cancellation};
    pub use goo_tables::correction::{all_corrections, insert_correction, last_correction};
    pub use goo_tables::create::create_tables;
    pub use goo_tables::declaration::{
        all_declarations, find_declaration, insert_declaration, last_declaration,
    };
    pub use goo_tables::device::{all_devices, find_device, insert_device, set_progress};
    pub use goo_tables::device_carrier::all_device_carriers;
    pub use goo_tables::holder::{all_holders, find_holder, insert_holder};
    pub use goo_tables::joined::{
        next_expiring, next_of_account, page_of_account, piece_before, pieces_beginning,
        pieces_of_account,
    };
    pub use goo_tables::lot::{all_lots, find_lot, find_lot_by_id, insert_lot, last_lot};
    pub use goo_tables::lot_carrier::all_lot_carriers;
    pub use goo_tables::meta::{all_meta, find_meta, insert_meta, set_counters, set_today};
    pub use goo_tables::notice_in::{all_notices_in, find_notice_in, insert_notice_in};
    pub use goo_tables::notice_out::{all_notices_out, find_notice_out, insert_notice_out};
    pub use goo_tables::peer::{all_peers, find_peer, insert_peer};
    pub use goo_tables::piece::{all_pieces, delete_piece, find_piece, first_held, insert_piece};
    pub use goo_tables::receipt::{all_receipts, find_receipt, insert_receipt};
    pub use goo_tables::withdrawal::{all_withdrawals, find_withdrawal, insert_withdrawal};
}

mod records {
    pub use goo_store::{OpenFault, SqlShelf};
}

mod registries {
    pub use goo_registry::{CancellationStatement, Heading, ReadFault, Registry, RunFault};
}

mod texts {
    pub use goo_files::{
        Cause, ImportFault, Report, RowResult, ShowFault, import_declarations, write_audit,
        write_cancellation, write_holdings_csv, write_report, write_statement,
    };
}

mod answers {
    pub use goo_desk::{
        BodyFault, LinesFault, ServeFault, Served, Tally, answer, read_command, run_lines,
        serve_one,
    };
}
