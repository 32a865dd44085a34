//! A database in real files.

use crate::database::{created, opened};
use crate::rounds::{do_rounds, state_after, state_of};
use std::fs;
use std::os::unix::fs::symlink;
use xa_disk::{DiskFiles, FileFault, open_files};

const PATH: &str = "xa_disk_test.db";

const LOG: &str = "xa_disk_test.db-wal";

const MOST: usize = 1 << 20;

fn files(rt: &HostRuntime) -> Option<DiskFiles> {
    open_files(rt, PATH, MOST).ok()
}

fn fault_of(rt: &HostRuntime, path: &str, most: usize) -> Option<FileFault> {
    match open_files(rt, path, most) {
        Ok(_) => None,
        Err(fault) => Some(fault),
    }
}

// The files stay for sqlite3 to read.
#[test]
fn real_files_keep_their_slots(rt: HostRuntime) {
    let alloc = rt.alloc();
    let _ = fs::remove_file(&rt, PATH);
    let _ = fs::remove_file(&rt, LOG);
    let Ok(mut tables) = created(&rt, alloc, files(&rt).expect(&rt, "files")) else {
        panic!(rt; "no new database");
    };
    assert!(rt; do_rounds(&mut tables, 20) == 20);
    // No other handle has it open.
    assert!(rt; fault_of(&rt, PATH, MOST) == Some(FileFault::InUse));
    drop(tables);
    assert!(rt; fault_of(&rt, PATH, 100) == Some(FileFault::TooLarge));
    assert!(rt; fault_of(&rt, "no folder here/a.db", MOST) == Some(FileFault::NoFolder));
    assert!(rt; fault_of(&rt, ".", MOST) == Some(FileFault::NotAFile));
    let Ok(mut again) = opened(&rt, alloc, files(&rt).expect(&rt, "files")) else {
        panic!(rt; "no database");
    };
    assert!(rt; state_of(&mut again, alloc) == Some(state_after(20)));
}

// Makes a folder with nothing in it. Whether it could be made.
fn make_folder(rt: &HostRuntime, folder: &str) -> bool {
    let _ = fs::remove_dir_all(rt, folder);
    fs::create_dir(rt, folder).is_ok()
}

#[test]
fn other_files_are_refused(rt: HostRuntime) {
    assert!(rt; make_folder(&rt, "xa_disk_others"));
    let (path, log) = ("xa_disk_others/a.db", "xa_disk_others/a.db-wal");
    let journal = "xa_disk_others/a.db-journal";
    assert!(rt; fs::write(&rt, journal, b"\xd9".as_slice()).is_ok());
    assert!(rt; fault_of(&rt, path, MOST) == Some(FileFault::HotJournal));
    assert!(rt; fs::write(&rt, journal, b"\0".as_slice()).is_ok());
    assert!(rt; fault_of(&rt, path, MOST).is_none());
    let second = "xa_disk_others/b.db";
    assert!(rt; fs::hard_link(&rt, path, second).is_ok());
    assert!(rt; fault_of(&rt, path, MOST) == Some(FileFault::NotAFile));
    assert!(rt; fs::remove_file(&rt, second).is_ok());
    assert!(rt; fs::remove_file(&rt, log).is_ok());
    assert!(rt; symlink(&rt, "other", log).is_ok());
    assert!(rt; fault_of(&rt, path, MOST) == Some(FileFault::NotAFile));
}

#[test]
fn a_link_is_followed(rt: HostRuntime) {
    assert!(rt; make_folder(&rt, "xa_disk_links"));
    let (path, link) = ("xa_disk_links/a.db", "xa_disk_links/link.db");
    assert!(rt; symlink(&rt, "a.db", link).is_ok());
    // Nothing is made where it leads.
    assert!(rt; fault_of(&rt, link, MOST) == Some(FileFault::NotAFile));
    assert!(rt; fs::write(&rt, path, b"".as_slice()).is_ok());
    let files = open_files(&rt, link, MOST);
    assert!(rt; files.is_ok());
    assert!(rt; fault_of(&rt, path, MOST) == Some(FileFault::InUse));
    assert!(rt; fs::metadata(&rt, "xa_disk_links/a.db-wal").is_ok());
}
