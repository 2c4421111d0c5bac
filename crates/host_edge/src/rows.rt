use crate::folder::{found, named};
use crate::no::{OpenNo, folder_no, rows_no};
use new_files::own_form;
use std::{fs, io};

/// A database with all tables of a lake has more bytes than this, and so has a log with which they were made.
const MOST_WITHOUT_TABLES: u64 = 4096;

/// How many bytes a file has; none where it is missing.
fn length_of(rt: &HostRuntime, path: &str) -> io::Result<u64> {
    match found(fs::metadata(rt, path))? {
        Some(metadata) => Ok(metadata.len()),
        None => Ok(0),
    }
}

/// How many bytes a database's log has. It lies beside the file to which a link leads.
fn log_length_of(rt: &HostRuntime, database: &str) -> io::Result<u64> {
    let real = fs::canonicalize(rt, database)?;
    let log = format!(in rt.alloc(); "{}-wal", real.as_str())?;
    length_of(rt, log.as_str())
}

/// Whether a database can't hold a lake. One of at most a byte counts as new, whatever its log holds.
fn is_blank(rt: &HostRuntime, database: &str) -> io::Result<bool> {
    let length = length_of(rt, database)?;
    if length <= 1 {
        return Ok(true);
    }
    Ok(length <= MOST_WITHOUT_TABLES && log_length_of(rt, database)? <= MOST_WITHOUT_TABLES)
}

/// Whether a folder has a name of the form of a lake's own files. One that is missing has none.
fn has_own_names(rt: &HostRuntime, folder: &str) -> io::Result<bool> {
    let Some(entries) = found(fs::read_dir(rt, folder))? else {
        return Ok(false);
    };
    for entry in entries {
        if let Some(entry) = named(entry)?
            && own_form(entry.file_name())
        {
            return Ok(true);
        }
    }
    Ok(false)
}

/// Refuses a database that holds no lake beside a folder with a lake's files, and makes nothing: a new database there
/// would be a lake without those files, and they would be removed as files that nothing names.
pub fn expect_rows(rt: &HostRuntime, database: &str, folder: &str) -> Result<(), OpenNo> {
    if !is_blank(rt, database).map_err(rows_no)? {
        return Ok(());
    }
    if has_own_names(rt, folder).map_err(folder_no)? {
        return Err(OpenNo::Rows);
    }
    Ok(())
}
