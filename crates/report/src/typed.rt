// The line that the typist prints of a text that it read, and the pattern file, document 02's Job 7.
ghost use Rattle.std.specs.Prelude.{◌≡◌, length};
ghost use Rattle.io.specs.Counts.{IsPrefixLen};
ghost use Rattle.wire.specs.Onto.{onto};
ghost use Rattle.typing.specs.Typing.{finding_of};
ghost use Rattle.report.specs.Report.{type_report, typed_line, typed_of, file_found, length_found};

use line::{LINE_BYTES, Report, without_line_feed};
use typing::finding::TypeFinding;
use typing::type_pattern;

// The bytes of the longest pattern file.
pub const FILE_BYTES: usize = 1026;

// What was made of a text: how many bytes the file has, none where the text is refused, and how many
// the line.
#[derive(Clone, Copy)]
pub struct Typed {
    pub file: usize,
    pub line: usize,
}

// The report of what typing found.
fn type_report(finding: TypeFinding) -> Report
    ensures { result ≡ type_report (finding_of finding) }
{
    match finding {
        Ok(length) => Report::Written(length),
        Err(refusal) => Report::Refused(refusal.number(), refusal.place()),
    }
}

// The length of the file that typing found: 0 where the text is refused.
fn file_length(finding: TypeFinding) -> usize
    ensures { result ≡ length_found (finding_of finding) }
{
    match finding {
        Ok(length) => length as usize,
        Err(_) => 0,
    }
}

// Types the text that was read, without one line feed at its end: puts its file at the start of one
// buffer and the line of what was found at the start of another, and answers their lengths.
pub fn type_read(read: &[u8], file: &mut [u8; FILE_BYTES], line: &mut [u8; LINE_BYTES]) -> Typed
    ensures file_length { result.file ≡ length (file_found (typed_of read.now)) }
    ensures file { file.new ≡ onto (file_found (typed_of read.now)) file.old }
    ensures file_counts { IsPrefixLen result.file file.new }
    ensures line_length { result.line ≡ length (typed_line read.now) }
    ensures line { line.new ≡ onto (typed_line read.now) line.old }
    ensures line_counts { IsPrefixLen result.line line.new }
{
    let finding = type_pattern(without_line_feed(read), file);
    let end = line::fill(type_report(finding), line);
    Typed {
        file: file_length(finding),
        line: end,
    }
}
