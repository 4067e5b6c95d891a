// The line that a program prints, document 01's 'Bench program' and, of a typed pattern, document 02's
// Job 7: filling a buffer with the line of a report, byte for byte. And a line that a program reads,
// without its line feed.
#![tactic(auto)]

ghost use Rattle.std.specs.Prelude.{◌≡◌, ◌+◌, ◌≤◌, length};
ghost use Rattle.line.specs.Line.{number, line_of};
ghost use Rattle.line.specs.Filling.{line_bytes, Put, LineFilled};
ghost use Rattle.line.specs.LineFeed.{without_line_feed};

// What the line that is printed says: its word and its numbers. One type for the findings of every program,
// with `unmet` a word of its own.
#[derive(Clone, Copy)]
pub enum Report {
    Closed(u16, u16, u16, u16),
    Met(u8, u8),
    Unmet,
    Written(u16),
    Refused(u8, u16),
}

// The bytes of the longest line: `closed`, four numbers of five digits with a space before each, and
// the line feed.
pub const LINE_BYTES: usize = 31;

// A line that is being filled: its first `len` bytes stand at the start of the buffer. `Report` has no
// `impl Display` instead: std says of `write!` what was written if it is `Ok`, but not that it is `Ok`,
// and `fill` promises the line of every report.
#[derive(Drop)]
struct Line<'a> {
    buf: &'a mut [u8; LINE_BYTES],
    len: usize,
}

impl<'a> Line<'a> {
    // Puts a text behind what stands.
    #[tactic(auto, using(wire::specs::Onto::put_from_at))]
    fn put(&mut self, text: &[u8])
        requires { self.old.len + length text.now ≤ line_bytes }
        ensures room { self.old.len ≤ length self.old.buf.now }
        ensures put { Put text.now self.old.buf.now self.old.len self.new.buf.now self.new.len }
        ensures same { self.new.buf.ghost_name ≡ self.old.buf.ghost_name }
    {
        let at = self.len;
        wire::copy_at(self.buf, at, text);
        self.len = at + text.len();
    }

    // Puts a space and the number.
    fn put_number(&mut self, n: u16)
        requires { self.old.len + 6 ≤ line_bytes }
        ensures put { Put (number n) self.old.buf.now self.old.len self.new.buf.now self.new.len }
        ensures short { self.new.len ≤ self.old.len + 6 }
        ensures same { self.new.buf.ghost_name ≡ self.old.buf.ghost_name }
    {
        let mut digits = [0u8; 20];
        let k = io::decimal(n as u64, &mut digits);
        self.put(b" ");
        self.put(&digits[..k]);
    }
}

// Puts the line of the report at the start of the buffer, and answers its length.
pub fn fill(report: Report, buf: &mut [u8; LINE_BYTES]) -> usize
    ensures { LineFilled (line_of report) buf.old buf.new result }
{
    let mut line = Line { buf, len: 0 };
    match report {
        Report::Closed(steps, clashes, forks, most) => {
            line.put(b"closed");
            line.put_number(steps);
            line.put_number(clashes);
            line.put_number(forks);
            line.put_number(most);
        }
        Report::Met(lowest, nodes) => {
            line.put(b"met");
            line.put_number(lowest as u16);
            line.put_number(nodes as u16);
        }
        Report::Unmet => line.put(b"unmet"),
        Report::Written(length) => {
            line.put(b"written");
            line.put_number(length);
        }
        Report::Refused(refusal, place) => {
            line.put(b"refused");
            line.put_number(refusal as u16);
            line.put_number(place);
        }
    }
    line.put(b"\n");
    line.len
}

// What was read without one line feed at its end, if there is one: a person ends a line with it.
pub fn without_line_feed(read: &[u8]) -> &[u8]
    ensures { result.now ≡ without_line_feed read.now }
{
    read.strip_suffix(b"\n").unwrap_or(read)
}
