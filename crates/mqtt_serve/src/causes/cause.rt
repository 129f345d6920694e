//! The causes for which the server ends early, each with its text (ours).
ghost use Rattle.std.specs.Prelude.{◌≡◌, Some};
ghost use Rattle.mqtt_serve.specs.causes.Causes.{fault_of, text_of, store_text, socket_text};

use mqtt_link::ServeFault;
use std::fmt;

/// What is the matter with the database.
#[derive(Clone, Copy, Debug, PartialEq, Eq)]
pub enum StoreCause {
    /// 1: another process has it open, or this one.
    InUse = 1,
    /// 2: a folder of its path is missing.
    NotThere = 2,
    /// 3: the file, its log or its folder may not be read and written.
    NoPermission = 3,
    /// 4: it is a folder.
    Folder = 4,
    /// 5: it is a device, a pipe, a socket, or a link to nothing.
    NoFile = 5,
    /// 6: the file has more than one link.
    Links = 6,
    /// 7: the path names no file: it is empty, `:memory:` or a URI.
    NoName = 7,
    /// 8: the path is one that the file system does not take.
    BadName = 8,
    /// 9: the file system takes no writes.
    ReadOnly = 9,
    /// 10: a rollback journal lies beside it, which sqlite3 alone plays back.
    Journal = 10,
    /// 11: something else has the name of its log.
    Log = 11,
    /// 12: the process may open no more files.
    Handles = 12,
    /// 13: it is no SQLite database.
    NotADatabase = 13,
    /// 14: it is an SQLite database that can't be read: another program's, or a damaged one.
    Unreadable = 14,
    /// 15: it has other tables than ours.
    OtherSchema = 15,
    /// 16: it is damaged, or its rows break their rules.
    Damaged = 16,
    /// 17: there is no room on the disk.
    Full = 17,
    /// 18: a read, a write or a sync failed.
    Disk = 18,
    /// 19: a number would go above 2^62.
    Spent = 19,
}

/// What is the matter with the socket.
#[derive(Clone, Copy, Debug, PartialEq, Eq)]
pub enum SocketCause {
    /// 1: another process listens at the address.
    InUse = 1,
    /// 2: it is no address of this machine.
    NoAddress = 2,
    /// 3: this user may not listen at the port.
    NoPermission = 3,
    /// 4: the process may open no more files.
    Handles = 4,
    /// 5: something else.
    Unopened = 5,
}

/// Why the server ended early.
#[derive(Clone, Copy, Debug, PartialEq, Eq)]
pub enum Cause {
    /// A write of its lines failed.
    Write,
    /// Want of memory.
    Memory,
    /// The database did not open or load, or failed; or a number is spent.
    Store(StoreCause),
    /// The socket did not open.
    Socket(SocketCause),
}

impl Cause {
    /// The fault, which fixes the exit status and the last line on standard error.
    pub fn fault(self) -> ServeFault
        ensures { result ≡ fault_of self }
    {
        match self {
            Cause::Write => ServeFault::Write,
            Cause::Memory => ServeFault::Memory,
            Cause::Store(_) => ServeFault::Store,
            Cause::Socket(_) => ServeFault::Socket,
        }
    }

    /// Its text.
    pub fn text(self) -> &'static str
        ensures { result.now ≡ text_of self }
    {
        match self {
            Cause::Write => "a write failed",
            Cause::Memory => "too little",
            Cause::Store(cause) => cause.text(),
            Cause::Socket(cause) => cause.text(),
        }
    }
}

impl StoreCause {
    /// Its text.
    pub fn text(self) -> &'static str
        ensures { result.now ≡ store_text self }
    {
        match self {
            StoreCause::InUse => "in use",
            StoreCause::NotThere => "not there: a folder of its path is missing",
            StoreCause::NoPermission => "no permission to read and write it, its log or its folder",
            StoreCause::Folder => "a folder",
            StoreCause::NoFile => "a device, a pipe, a socket or a link to nothing",
            StoreCause::Links => "more than one link",
            StoreCause::NoName => "the name of no file",
            StoreCause::BadName => "a name that the file system does not take",
            StoreCause::ReadOnly => "a file system that takes no writes",
            StoreCause::Journal => "a rollback journal beside it, which sqlite3 has to play back",
            StoreCause::Log => "something else has the name of its log",
            StoreCause::Handles => "too few handles",
            StoreCause::NotADatabase => "not a database of ours",
            StoreCause::Unreadable => "a database of another program, or damaged",
            StoreCause::OtherSchema => "another schema",
            StoreCause::Damaged => "damaged",
            StoreCause::Full => "the disk is full",
            StoreCause::Disk => "the disk failed",
            StoreCause::Spent => "a number would go above 2^62",
        }
    }
}

impl SocketCause {
    /// Its text.
    pub fn text(self) -> &'static str
        ensures { result.now ≡ socket_text self }
    {
        match self {
            SocketCause::InUse => "in use",
            SocketCause::NoAddress => "not an address of this machine",
            SocketCause::NoPermission => "no permission for this port",
            SocketCause::Handles => "too few handles",
            SocketCause::Unopened => "it does not open",
        }
    }
}

impl fmt::Display for Cause {
    ghost output = { λ cause. Some (text_of cause) };

    fn fmt<W: fmt::Write>(&self, f: &mut fmt::Formatter<W>) -> fmt::Result {
        f.write_str(self.text())
    }
}

impl std::error::Error for Cause {}
