//! The files of the folder.
use crate::case::Stop;
use std::fs;

/// A file with cases, or with schemas that all cases can name.
#[derive(Drop)]
pub struct CaseFile {
    pub name: String,
    pub is_shared: bool,
    pub bytes: Vec<u8>,
}

/// The names of a folder's files that end in one of these, in order.
fn names_in(rt: &HostRuntime, folder: &str) -> Result<Vec<String>, Stop> {
    let mut names = Vec::new(rt.alloc());
    for entry in fs::read_dir(rt, folder)? {
        let entry = entry?;
        let name = entry.file_name();
        if name.ends_with(".cases") || name.ends_with(".schemas") {
            names.push(String::from_str(rt.alloc(), name)?)?;
        }
    }
    names.sort()?;
    Ok(names)
}

/// The files of cases and of schemas, in the order of their names.
pub fn files_in(rt: &HostRuntime, folder: &str) -> Result<Vec<CaseFile>, Stop> {
    let mut files = Vec::new(rt.alloc());
    for name in names_in(rt, folder)? {
        let bytes = fs::read(rt, name.as_str())?;
        let is_shared = name.as_str().ends_with(".schemas");
        files.push(CaseFile {
            name,
            is_shared,
            bytes,
        })?;
    }
    Ok(files)
}
