//! The tables and indexes of a registry of version 2, in the order in which they are made.

use crate::forms::ColumnForm::{Bytes, MaybeText, Number, NumberKey, Text};
use crate::forms::{IndexForm, TableForm};

/// The table that tells a registry from other databases.
pub const META: TableForm = TableForm {
    name: b"meta",
    tree: 0,
    key: Some(0),
    primary: &[0],
    uniques: &[],
    columns: &[
        NumberKey(b"id"),
        Number(b"version"),
        Number(b"code"),
        Text(b"today"),
        Number(b"next_serial"),
        Number(b"next_account"),
        Number(b"next_cancellation"),
        Number(b"next_withdrawal"),
        Number(b"next_notice"),
    ],
};

const HOLDER: TableForm = TableForm {
    name: b"holder",
    tree: 1,
    key: None,
    primary: &[1],
    uniques: &[&[1]],
    columns: &[Text(b"code"), Text(b"name")],
};

const ACCOUNT: TableForm = TableForm {
    name: b"account",
    tree: 3,
    key: Some(0),
    primary: &[0],
    uniques: &[],
    columns: &[NumberKey(b"number"), Text(b"holder"), Number(b"closed")],
};

const DEVICE: TableForm = TableForm {
    name: b"device",
    tree: 4,
    key: None,
    primary: &[1],
    uniques: &[&[1]],
    columns: &[
        Text(b"gsrn"),
        Number(b"account"),
        Text(b"country"),
        Text(b"site"),
        Text(b"tech"),
        Text(b"source"),
        Number(b"capacity_w"),
        Text(b"commissioned"),
        Text(b"support"),
        MaybeText(b"last_day"),
        Number(b"carry"),
    ],
};

const DECLARATION: TableForm = TableForm {
    name: b"declaration",
    tree: 6,
    key: Some(0),
    primary: &[0],
    uniques: &[&[2, 3]],
    columns: &[
        NumberKey(b"id"),
        Text(b"device"),
        Text(b"first_day"),
        Text(b"last_day"),
        Number(b"gross"),
        Number(b"aux"),
    ],
};

const LOT: TableForm = TableForm {
    name: b"lot",
    tree: 8,
    key: Some(0),
    primary: &[0],
    uniques: &[&[2, 3, 11]],
    columns: &[
        NumberKey(b"id"),
        Number(b"origin"),
        Text(b"device"),
        Text(b"country"),
        Text(b"site"),
        Text(b"tech"),
        Text(b"source"),
        Number(b"capacity_w"),
        Text(b"commissioned"),
        Text(b"support"),
        Text(b"first_day"),
        Text(b"last_day"),
        MaybeText(b"expires_on"),
        Text(b"issued_on"),
    ],
};

const PIECE: TableForm = TableForm {
    name: b"piece",
    tree: 10,
    key: Some(0),
    primary: &[0],
    uniques: &[],
    columns: &[
        NumberKey(b"first"),
        Number(b"last"),
        Number(b"lot"),
        Number(b"kind"),
        Number(b"account"),
        Number(b"act"),
    ],
};

const PEER: TableForm = TableForm {
    name: b"peer",
    tree: 11,
    key: None,
    primary: &[1],
    uniques: &[&[1]],
    columns: &[Number(b"code")],
};

const RECEIPT: TableForm = TableForm {
    name: b"receipt",
    tree: 13,
    key: None,
    primary: &[1, 2],
    uniques: &[&[1, 2]],
    columns: &[
        Text(b"caller"),
        Text(b"key"),
        Bytes(b"command"),
        Number(b"kind"),
        Number(b"n1"),
        Number(b"n2"),
        Number(b"n3"),
    ],
};

const CANCELLATION: TableForm = TableForm {
    name: b"cancellation",
    tree: 15,
    key: Some(0),
    primary: &[0],
    uniques: &[],
    columns: &[
        NumberKey(b"number"),
        Number(b"account"),
        Number(b"first"),
        Number(b"last"),
        Text(b"beneficiary"),
        Text(b"use_first"),
        Text(b"use_last"),
        Text(b"day"),
    ],
};

const WITHDRAWAL: TableForm = TableForm {
    name: b"withdrawal",
    tree: 16,
    key: Some(0),
    primary: &[0],
    uniques: &[],
    columns: &[
        NumberKey(b"number"),
        Number(b"first"),
        Number(b"last"),
        Text(b"reason"),
        Text(b"day"),
    ],
};

const NOTICE_OUT: TableForm = TableForm {
    name: b"notice_out",
    tree: 17,
    key: Some(0),
    primary: &[0],
    uniques: &[],
    columns: &[NumberKey(b"number"), Number(b"account"), Text(b"body")],
};

const NOTICE_IN: TableForm = TableForm {
    name: b"notice_in",
    tree: 18,
    key: None,
    primary: &[1, 2],
    uniques: &[&[1, 2]],
    columns: &[Number(b"sender"), Number(b"number"), Text(b"body")],
};

const CORRECTION: TableForm = TableForm {
    name: b"correction",
    tree: 22,
    key: Some(0),
    primary: &[0],
    uniques: &[],
    columns: &[
        NumberKey(b"id"),
        Text(b"device"),
        Text(b"first_day"),
        Number(b"less"),
        Number(b"withdrawal"),
    ],
};

const DEVICE_CARRIER: TableForm = TableForm {
    name: b"device_carrier",
    tree: 23,
    key: None,
    primary: &[1],
    uniques: &[&[1]],
    columns: &[Text(b"gsrn"), Text(b"carrier")],
};

const LOT_CARRIER: TableForm = TableForm {
    name: b"lot_carrier",
    tree: 25,
    key: Some(0),
    primary: &[0],
    uniques: &[],
    columns: &[NumberKey(b"lot"), Text(b"carrier")],
};

/// All tables.
pub const TABLES: [TableForm; 16] = [
    META,
    HOLDER,
    ACCOUNT,
    DEVICE,
    DECLARATION,
    LOT,
    PIECE,
    PEER,
    RECEIPT,
    CANCELLATION,
    WITHDRAWAL,
    NOTICE_OUT,
    NOTICE_IN,
    CORRECTION,
    DEVICE_CARRIER,
    LOT_CARRIER,
];

/// All indexes: those of the keys, and two that find pieces.
pub const INDEXES: [IndexForm; 10] = [
    IndexForm {
        name: b"sqlite_autoindex_holder_1",
        tree: 2,
        table: 1,
        columns: &[1],
        is_unique: true,
    },
    IndexForm {
        name: b"sqlite_autoindex_device_1",
        tree: 5,
        table: 4,
        columns: &[1],
        is_unique: true,
    },
    IndexForm {
        name: b"sqlite_autoindex_declaration_1",
        tree: 7,
        table: 6,
        columns: &[2, 3],
        is_unique: true,
    },
    IndexForm {
        name: b"sqlite_autoindex_lot_1",
        tree: 9,
        table: 8,
        columns: &[2, 3, 11],
        is_unique: true,
    },
    IndexForm {
        name: b"sqlite_autoindex_peer_1",
        tree: 12,
        table: 11,
        columns: &[1],
        is_unique: true,
    },
    IndexForm {
        name: b"sqlite_autoindex_receipt_1",
        tree: 14,
        table: 13,
        columns: &[1, 2],
        is_unique: true,
    },
    IndexForm {
        name: b"sqlite_autoindex_notice_in_1",
        tree: 19,
        table: 18,
        columns: &[1, 2],
        is_unique: true,
    },
    IndexForm {
        name: b"piece_by_account",
        tree: 20,
        table: 10,
        columns: &[5, 0],
        is_unique: false,
    },
    IndexForm {
        name: b"piece_by_kind",
        tree: 21,
        table: 10,
        columns: &[4, 0],
        is_unique: false,
    },
    IndexForm {
        name: b"sqlite_autoindex_device_carrier_1",
        tree: 24,
        table: 23,
        columns: &[1],
        is_unique: true,
    },
];
