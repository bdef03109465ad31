// The files of data.
use pr_outside::{FileContent, Files};
use std::io;

/// The bytes of a file.
///
/// # Errors
/// Where there is no such file, or it is not loaded.
pub fn bytes_of<F: Files>(files: &mut F, name: &str) -> io::Result<Vec<u8>> {
    match files.load(name) {
        Ok(FileContent::Bytes { bytes }) => Ok(bytes),
        _ => Err(io::Error::from(io::ErrorKind::NotFound)),
    }
}

/// The text of a file.
///
/// # Errors
/// Where there is no such file, or it is not loaded, or it holds no text.
pub fn text_of<F: Files>(files: &mut F, name: &str) -> io::Result<String> {
    match String::from_utf8(bytes_of(files, name)?) {
        Ok(text) => Ok(text),
        Err(_) => Err(io::Error::from(io::ErrorKind::InvalidData)),
    }
}
