//! Standard input and standard output of the program.
//!
//! Replies to lines that begin with `read ` are buffered, and leave together: before any other line is given to be
//! done, before the system is asked for more of the script, and when the buffered bytes fill their buffer. So whoever
//! types or pipes lines has each answer before he is waited for, each command that changes a volume begins once all
//! replies before it are with the system, and many reads cost few calls of the system.
//!
//! The script and the writer share the replies, in a cell, and no contract says what a cell holds.
//! So what is decided and done is a function over values, what reaches into the cell is one call of
//! it, and the contract of that call speaks of some values.
ghost use Rattle.std.specs.Prelude.{◌≡◌, ◌≢◌, ◌⊎◌, ◌↔◌, [], true, false, IfErr, IfOk, IsErr, IsOk, IsTrue, OnErr, OnOk};
ghost use Rattle.std.specs.IoError.{error_kind};
ghost use Rattle.std.specs.Io.{WritesAtMost};
ghost use Rattle.std.specs.Io.Buffered.{reader_buffer, reader_capacity, reader_inner, writer_inner};
ghost use Rattle.std.specs.Io.KnownBytes.{Appends, Keeps, WriteAppends};
ghost use Rattle.raidtool.specs.Sending.{HasLeft, IsBegun, IsStopped, MadeWay, MayWait, WasSent, left, waiting};
ghost use Rattle.raidtool.specs.Sending.{written};

use std::alloc::Global;
use std::cell::{RefCell, RefMut};
use std::io::{self, BufRead, BufReader, BufWriter, ErrorKind, Read, Write};

// The bytes of replies that are buffered before they leave, and of the input that are asked for at once.
const BUFFERED_BYTES: usize = 65_536;

// How a line begins whose reply may wait.
const READ: &[u8] = b"read ";

// Replies that were written, and may not have left yet.
struct BufferedReplies<W: Write + Drop> {
    writer: BufWriter<W>,
    // Some could not leave. Nothing more is tried then.
    is_broken: bool,
}

impl<W: Write + Drop> BufferedReplies<W> {
    // No replies yet. `OutOfMemory` where there is no place to buffer them.
    fn new(alloc: Global, writer: W) -> io::Result<BufferedReplies<W>>
        ensures inner { IfOk result (λ buffered. writer_inner buffered.writer ≡ writer) }
        ensures left { IfOk result HasLeft }
        ensures err { IfErr result (λ error. error_kind error ≡ ErrorKind.OutOfMemory) }
    {
        let writer = BufWriter::with_capacity(alloc, BUFFERED_BYTES, writer)?;
        Ok(BufferedReplies {
            writer,
            is_broken: false,
        })
    }

    // Refused after a fault.
    fn may_try(&self) -> io::Result<()>
        ensures whole { OnOk result (self.now.is_broken ≡ false) }
        ensures broken { OnErr result (self.now.is_broken ≡ true) }
        ensures kind { IfErr result (λ error. error_kind error ≡ ErrorKind.BrokenPipe) }
    {
        if self.is_broken {
            return Err(io::Error::from(ErrorKind::BrokenPipe));
        }
        Ok(())
    }

    // Lets all that were written leave. The fault is the writer's. After a fault each further call
    // is one, and tries nothing.
    fn send(&mut self) -> io::Result<()>
        ensures left { OnOk result (HasLeft self.new) }
        ensures sent { OnOk result
            (Appends (left W.contents self.old) (left W.contents self.new) (waiting self.old)) }
        ensures kept { Keeps (written W.contents self.old) (written W.contents self.new) }
        ensures broken { OnErr result (self.new.is_broken ≡ true) }
        ensures untried { self.old.is_broken ≡ true → IsErr result × (self.new ≡ self.old) }
    {
        self.may_try()?;
        let sent = self.writer.flush();
        self.is_broken = sent.is_err();
        sent
    }

    // Makes way for the line that these bytes begin: its reply may wait, or all that were written
    // leave. The fault is that of `send`.
    fn make_way(&mut self, line: &[u8]) -> io::Result<()>
        ensures way { OnOk result (MayWait line.now ⊎ HasLeft self.new) }
        ensures waits { MayWait line.now → IsOk result × (self.new ≡ self.old) }
        ensures kept { Keeps (written W.contents self.old) (written W.contents self.new) }
        ensures broken { OnErr result (self.new.is_broken ≡ true) }
        ensures untried { self.old.is_broken ≡ true → self.new ≡ self.old }
    {
        if may_wait(line) {
            return Ok(());
        }
        self.send()
    }

    // Buffers replies. Where they fill the buffer, they leave. After a fault of the writer nothing
    // more is tried, unless it was an interruption, after which a call is made again.
    fn write(&mut self, bytes: &[u8]) -> io::Result<usize>
        ensures bound { WritesAtMost result bytes.now }
        ensures bytes { WriteAppends (written W.contents self.old) (written W.contents self.new)
            result bytes.now }
        ensures whole { OnOk result (self.new.is_broken ≡ false) }
        ensures broken { IfErr result
            (λ error. error_kind error ≢ ErrorKind.Interrupted → self.new.is_broken ≡ true) }
        ensures again { IfErr result
            (λ error. error_kind error ≡ ErrorKind.Interrupted → self.new.is_broken ≡ false) }
        ensures untried { self.old.is_broken ≡ true → IsErr result × (self.new ≡ self.old) }
    {
        self.may_try()?;
        let taken = self.writer.write(bytes);
        self.is_broken = is_fault(&taken);
        taken
    }
}

// Whether the reply to the line that these bytes begin may wait.
fn may_wait(line: &[u8]) -> bool
    ensures { IsTrue result ↔ MayWait line.now }
{
    line.starts_with(READ)
}

// Whether a write failed for good.
fn is_fault(taken: &io::Result<usize>) -> bool
    ensures fault { IfErr taken.now (λ error. IsTrue result ↔ (error_kind error ≢ ErrorKind.Interrupted)) }
    ensures none { OnOk taken.now (result ≡ false) }
{
    match taken {
        Ok(_) => false,
        Err(error) => error.kind() != ErrorKind::Interrupted,
    }
}

impl<W: Write + Drop> Drop for BufferedReplies<W> {
    // What is buffered is tried once more, unless some could not leave.
    fn drop(self) {
        let BufferedReplies { writer, is_broken } = self;
        if is_broken {
            let (_writer, _unsent) = writer.into_parts();
        }
    }
}

/// Replies that were written, and may not have left yet.
#[derive(Drop)]
pub struct Replies<W: Write + Drop> {
    buffered: RefCell<BufferedReplies<W>>,
}

impl<W: Write + Drop> Replies<W> {
    /// No replies yet. `OutOfMemory` where there is no place to buffer them.
    pub fn new(alloc: Global, writer: W) -> io::Result<Replies<W>>
        ensures begun { OnOk result (IsBegun writer) }
        ensures err { IfErr result (λ error. error_kind error ≡ ErrorKind.OutOfMemory) }
    {
        let buffered = BufferedReplies::new(alloc, writer)?;
        Ok(Replies {
            buffered: RefCell::new(buffered),
        })
    }

    /// Lets all that were written leave. The fault is the writer's. After a fault each further call
    /// is one, and nothing more is tried, not even when this is dropped.
    pub fn send(&self) -> io::Result<()>
        ensures sent { OnOk result (WasSent W.contents) }
        ensures stopped { IfErr result (λ error. IsStopped W.contents ⊎ (error_kind error ≡ ErrorKind.Other)) }
    {
        self.borrowed()?.send()
    }

    // Makes way for the line that these bytes begin.
    fn make_way(&self, line: &[u8]) -> io::Result<()>
        ensures way { OnOk result (MadeWay W.contents line.now) }
        ensures stopped { IfErr result (λ error. (IsStopped W.contents × ¬ MayWait line.now)
            ⊎ (error_kind error ≡ ErrorKind.Other)) }
    {
        self.borrowed()?.make_way(line)
    }

    // What is buffered. No call keeps it beyond its end, so it is never in use.
    fn borrowed(&self) -> io::Result<RefMut<'_, BufferedReplies<W>>>
        ensures { IfErr result (λ error. error_kind error ≡ ErrorKind.Other) }
    {
        match self.buffered.try_borrow_mut() {
            Ok(buffered) => Ok(buffered),
            Err(_) => Err(io::Error::from(ErrorKind::Other)),
        }
    }
}

/// The script, each line of which is given once the replies before it have left, or may wait. It ends where they can't
/// leave.
#[derive(Drop)]
pub struct Script<'a, R: Read + Drop, W: Write + Drop> {
    lines: BufReader<R>,
    replies: &'a Replies<W>,
}

impl<'a, R: Read + Drop, W: Write + Drop> Script<'a, R, W> {
    /// The script that a reader gives. `OutOfMemory` where there is no place for what it gives.
    pub fn new(alloc: Global, reader: R, replies: &'a Replies<W>) -> io::Result<Script<'a, R, W>>
        ensures reader { IfOk result (λ script. reader_inner script.lines ≡ reader) }
        ensures unread { IfOk result (λ script. reader_buffer script.lines ≡ []) }
        ensures room { IfOk result (λ script. reader_capacity script.lines ≢ 0) }
        ensures replies { IfOk result (λ script. script.replies ≡ replies.entry) }
        ensures err { IfErr result (λ error. error_kind error ≡ ErrorKind.OutOfMemory) }
    {
        let lines = BufReader::with_capacity(alloc, BUFFERED_BYTES, reader)?;
        Ok(Script { lines, replies })
    }
}

impl<R: Read + Drop, W: Write + Drop> Read for Script<'_, R, W> {
    fn read(&mut self, buf: &mut [u8]) -> io::Result<usize> {
        self.replies.send()?;
        self.lines.read(buf)
    }
}

impl<R: Read + Drop, W: Write + Drop> BufRead for Script<'_, R, W> {
    fn fill_buf(&mut self) -> io::Result<&[u8]> {
        if self.replies.make_way(self.lines.buffer()).is_err() {
            return Ok(&[]);
        }
        self.lines.fill_buf()
    }

    fn consume(&mut self, amount: usize) {
        self.lines.consume(amount);
    }
}

/// Where replies are written.
#[derive(Drop)]
pub struct Output<'a, W: Write + Drop> {
    /// What buffers them.
    pub replies: &'a Replies<W>,
}

impl<W: Write + Drop> Write for Output<'_, W> {
    fn write(&mut self, buf: &[u8]) -> io::Result<usize> {
        self.replies.borrowed()?.write(buf)
    }

    fn flush(&mut self) -> io::Result<()> {
        self.replies.send()
    }
}
