// Document 02's Job 7 at the bench terminal: the typist reads a text, and writes the pattern file and a
// line. Both are proved of the bytes that were read (`report`); what reading and writing do is not.
use report::LINE_BYTES;
use report::typed::{FILE_BYTES, type_read};
use std::fs;
use std::fs::{File, Files, OpenFile};
use std::io::{Input, Print, Write};

// The bytes that are read: one more than the longest text has, so that a longer one is refused for its
// length, and one for the line feed behind it.
const READ_BYTES: usize = 1026;

// Writes the bytes to the file, and answers whether it has them all, on the disk.
fn put<W: Write + OpenFile>(file: &mut W, bytes: &[u8]) -> bool {
    let whole = file.write_all(bytes).is_ok();
    file.sync_all().is_ok() && whole
}

// Writes the bytes as the file pattern.bin, and answers whether it has them. They are written beside
// it, and take its name when they are all there: the file is replaced whole, or stays as it was.
fn save<R: Files>(rt: &R, bytes: &[u8]) -> bool {
    let Ok(mut file) = File::create(rt, "pattern.bin.new") else {
        return false;
    };
    let whole = put(&mut file, bytes);
    drop(file);
    if whole && fs::rename(rt, "pattern.bin.new", "pattern.bin").is_ok() {
        return true;
    }
    let _ = fs::remove_file(rt, "pattern.bin.new");
    false
}

// Types the text that was read: writes the file, unless the text is refused, and the line. Where the
// file can't be written, the line says so.
fn type_text<R: Files + Print>(rt: &R, read: &[u8]) {
    // Fixed memory, as the unit has it: no heap.
    let mut file = [0u8; FILE_BYTES];
    let mut line = [0u8; LINE_BYTES];
    let typed = type_read(read, &mut file, &mut line);
    let n = typed.file;
    let k = typed.line;
    if n > 0 && !save(rt, &file[..n]) {
        let _ = rt.write_all(b"not written\n");
        return;
    }
    let _ = rt.write_all(&line[..k]);
}

// Types the text of a file. One that can't be opened counts as empty.
pub fn type_file<R: Files + Print>(rt: &R, path: &[u8]) {
    let mut read = [0u8; READ_BYTES];
    let n = crate::load(rt, path, &mut read);
    type_text(rt, &read[..n]);
}

// Types the text that standard input has, up to the bytes that are read.
pub fn type_input<R: Files + Input + Print>(rt: &R) {
    let mut read = [0u8; READ_BYTES];
    let mut input = rt.reader();
    let n = crate::read_full(&mut input, &mut read);
    drop(input);
    type_text(rt, &read[..n]);
}
