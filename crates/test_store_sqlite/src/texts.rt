//! What users are told of a store that isn't opened.

use std::fmt;
use std::process::Abort;
use xa_disk::FileFault;
use xa_store_sqlite::{RowFault, StoreOpenFault, Table};
use xa_tables::RestoreFault;

fn reads(rt: &(impl Abort + AllocGlobal), fault: impl fmt::Display + Drop, wanted: &str) -> bool {
    let text = format!(in rt.alloc(); "{fault}").expect(rt, "memory");
    text.as_str() == wanted
}

#[test]
fn each_fault_has_a_text(rt: HostRuntime) {
    assert!(rt; reads(&rt, FileFault::InUse, "another program has it open"));
    assert!(rt;
        reads(
            &rt,
            StoreOpenFault::OtherVersion,
            "it has another version, as of a newer program"
        )
    );
    assert!(rt;
        reads(
            &rt,
            StoreOpenFault::NotRestored(RestoreFault::BranchTwice),
            "its rows make no manager: a branch stands twice"
        )
    );
    assert!(rt;
        reads(
            &rt,
            StoreOpenFault::TooMany(Table::Changes),
            "the table changes has too many rows, or one with an id below 1"
        )
    );
    assert!(rt;
        reads(
            &rt,
            StoreOpenFault::BadRow(Table::Branches, 2, RowFault::Gap),
            "the table branches has a row with the id 3 that no store writes: a row before it is missing"
        )
    );
}
