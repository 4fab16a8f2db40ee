// The text of program `river`: lines gathered in a lent buffer, which is written to standard output when a line might no longer fit.
// The standard library's `BufWriter` gathers on the heap, of which this project has none.
#![tactic(auto)]

ghost use Rattle.std.specs.Prelude.{◌≡◌, false, not, ◌||◌, ◌≤◌};
ghost use Rattle.output.specs.Text.{ended, heading, line, done, refused};
ghost use Rattle.output.specs.Outcomes.{size, Put, due, Fresh, Flushed, Room, PutLine};

// The most bytes of a line: five numbers of 20 digits, and the byte behind each.
pub const LINE: usize = 5 * (20 + 1);

// Where the output stands: the bytes used of the buffer, which are still to be written, and whether a write has failed. After a failed write
// nothing more is written: `Writer::due` says so of every write, and `Writer::flush` makes that one alone. A flag and no `Result`: lines are put
// all the same, which `PutLine` promises (what may not change).
#[derive(Clone, Copy)]
pub struct Output {
    pub used: usize,
    pub failed: bool,
}

impl Output {
    pub fn new() -> Output
        ensures { (result.used ≡ 0) × (result.failed ≡ false) }
    {
        Output {
            used: 0,
            failed: false,
        }
    }

    // No byte is used any more, whether the write was made or not.
    fn after_write(self, written: bool) -> Output
        ensures { (result.used ≡ 0) × (result.failed ≡ (self.failed || not written)) }
    {
        Output {
            used: 0,
            failed: self.failed | !written,
        }
    }
}

// The lent buffer, where its output stands, and the runtime that writes.
#[derive(Drop)]
pub struct Writer<'r, 'b> {
    pub rt: &'r HostRuntime,
    pub buffer: &'b mut [u8],
    pub output: Output,
}

// A process's two streams for text; `due` says to which a write goes.
#[derive(Clone, Copy)]
enum Stream {
    Stdout,
    Stderr,
}

// A write: to which stream, and how many of the buffer's first bytes.
#[derive(Clone, Copy)]
struct Write {
    stream: Stream,
    bytes: usize,
}

impl<'r, 'b> Writer<'r, 'b> {
    pub fn new(rt: &'r HostRuntime, buffer: &'b mut [u8]) -> Writer<'r, 'b>
        ensures { Fresh buffer.entry result }
    {
        Writer {
            rt,
            buffer,
            output: Output::new(),
        }
    }

    // The write that is due.
    fn due(&self) -> Write
        ensures { result ≡ due self.now }
    {
        let lost = self.output.failed || self.buffer.len() < self.output.used;
        Write {
            stream: Stream::Stdout,
            bytes: if lost { 0 } else { self.output.used },
        }
    }

    // Makes a write. One of no bytes makes no call of the system.
    fn write(&self, write: Write) -> bool
        requires { write.bytes ≤ size self.now }
    {
        let bytes = &self.buffer[..write.bytes];
        match write.stream {
            Stream::Stdout => self.rt.stdout().write_all(bytes).is_ok(),
            Stream::Stderr => self.rt.stderr().write_all(bytes).is_ok(),
        }
    }

    // Makes the write that is due.
    pub fn flush(&mut self)
        ensures { Flushed self.old self.new }
    {
        let due = self.due();
        let written = self.write(due);
        let all = written && due.bytes == self.output.used;
        self.output = self.output.after_write(all);
    }

    // Writes the bytes used where a line might not fit behind them.
    fn room(&mut self)
        ensures { Room self.old self.new }
    {
        if self.buffer.len() < self.output.used.saturating_add(LINE) {
            self.flush();
        }
    }

    // As much of the text as there is room for.
    fn put_text(&mut self, text: &[u8])
        ensures { Put text.now self.old self.new }
    {
        let used = self.output.used;
        let size = self.buffer.len();
        if used < size {
            let count = text.len().min(size - used);
            self.buffer[used..used + count].copy_from_slice(&text[..count]);
            self.output.used += count;
        }
    }

    // A number and the byte that ends it. `write!` tells what it wrote only where it answers `Ok`, and a line is promised in any case.
    fn put_number(&mut self, number: u64, end: u8)
        ensures { Put (ended end number) self.old self.new }
    {
        let mut digits = [0u8; 20];
        let count = io::decimal(number, &mut digits);
        self.put_text(&digits[..count]);
        self.put_text(&[end]);
    }

    pub fn put_heading(&mut self)
        ensures { PutLine heading self.old self.new }
    {
        self.room();
        self.put_text(b"step segment channel storage sediment\n");
    }

    // Step, gauge's segment, C, Z, Kd × W.
    pub fn put_line(&mut self, step: u32, segment: u32, channel: u32, storage: u32, sediment: u64)
        ensures { PutLine (line step segment channel storage sediment) self.old self.new }
    {
        self.room();
        self.put_number(u64::from(step), b' ');
        self.put_number(u64::from(segment), b' ');
        self.put_number(u64::from(channel), b' ');
        self.put_number(u64::from(storage), b' ');
        self.put_number(sediment, b'\n');
    }

    pub fn put_done(&mut self, steps: u32)
        ensures { PutLine (done steps) self.old self.new }
    {
        self.room();
        self.put_text(b"done ");
        self.put_number(u64::from(steps), b'\n');
    }

    pub fn put_refused(&mut self, number: u32)
        ensures { PutLine (refused number) self.old self.new }
    {
        self.room();
        self.put_text(b"refused ");
        self.put_number(u64::from(number), b'\n');
    }
}
