ghost use Rattle.std.specs.Prelude.{◌≡◌, ◌≢◌, ◌++◌, Err, IfOk, OnOk, OnErr, IsErrOf, codes, decimal};
ghost use Rattle.sb_outside.specs.Outside.{Rose, appended};
ghost use Rattle.sb_outside.specs.Writing.{HasFront};
ghost use Rattle.http_serving.specs.Printed.{cause_part, connection_line, connection_end_text};

use http_edge::{ResponseFault, Status};
use itoa::Buffer;
use sb_model::{Bytes, OutOfMemory};
use sb_outside::{Failed, Sink, write_all};
use std::alloc::Global;

/// How a connection ended.
#[derive(Debug, Drop)]
pub enum ConnectionEnd {
    /// A whole response with this status was written. The cause is what the server tells of it whoever runs it, empty for
    /// nothing.
    Answered(Status, Bytes),
    /// The request could not be received. Nothing was written.
    ReadFault,
    /// The response could not be sent as a whole.
    WriteFault,
    /// Memory was refused. The response to that has the status 503 and no body, and a front of it was written: the whole, a
    /// part or nothing.
    OutOfMemory,
}

/// Appends a cause behind a status, if there is one.
fn push_cause(line: &mut Bytes, cause: &[u8]) -> Result<(), OutOfMemory>
    ensures { OnOk result (line.new ≡ line.old ++ cause_part cause.now) }
{
    if cause.is_empty() {
        return Ok(());
    }
    line.append(b" ")?;
    line.append(cause)
}

/// Appends the status of a response that was written, and its cause.
fn push_answered(line: &mut Bytes, status: Status, cause: &[u8]) -> Result<(), OutOfMemory>
    ensures { OnOk result (line.new ≡ line.old ++ connection_end_text (ConnectionEnd.Answered status cause.now)) }
{
    line.append(b"answered ")?;
    line.append_decimal(u64::from(status.code()))?;
    push_cause(line, cause)
}

/// Appends how a connection ended.
fn push_end(line: &mut Bytes, end: &ConnectionEnd) -> Result<(), OutOfMemory>
    ensures { OnOk result (line.new ≡ line.old ++ connection_end_text end.now) }
{
    match end {
        ConnectionEnd::Answered(status, cause) => push_answered(line, *status, cause.as_slice()),
        ConnectionEnd::ReadFault => line.append(b"read-fault"),
        ConnectionEnd::WriteFault => line.append(b"write-fault"),
        ConnectionEnd::OutOfMemory => line.append(b"out-of-memory"),
    }
}

/// The line of a connection that ended, by its number.
fn line_of(alloc: Global, number: u32, end: &ConnectionEnd) -> Result<Bytes, OutOfMemory>
    ensures { IfOk result (λ line. line ≡ connection_line number end.now) }
{
    let mut line = Bytes::new(alloc);
    line.append(b"connection ")?;
    line.append_decimal(u64::from(number))?;
    line.append(b" ")?;
    push_end(&mut line, end)?;
    line.append(b"\n")?;
    Ok(line)
}

/// Prints the line of a connection that ended, by its number.
fn print_line<O: Sink>(
    alloc: Global,
    number: u32,
    end: &ConnectionEnd,
    out: &mut O,
) -> Result<(), ResponseFault>
    ensures whole { OnOk result (O.contents out.new ≡ appended (O.contents out.old) (connection_line number end.now)) }
    ensures cut { IsErrOf result ResponseFault.WriteFault →
        HasFront (O.contents out.old) (O.contents out.new) (connection_line number end.now) }
    ensures memory { IsErrOf result ResponseFault.OutOfMemory → out.new ≡ out.old }

    // A fault is counted, and nothing else is.
    ensures failed { IsErrOf result ResponseFault.WriteFault → Rose (O.faults out.old) (O.faults out.new) }
    ensures kept { result ≢ Err ResponseFault.WriteFault → O.faults out.new ≡ O.faults out.old }
{
    let Ok(line) = line_of(alloc, number, end) else {
        return Err(ResponseFault::OutOfMemory);
    };
    match write_all(out, line.as_slice()) {
        Ok(()) => Ok(()),
        Err(Failed) => Err(ResponseFault::WriteFault),
    }
}

/// Writes three pieces, one after the other. After an `Err` the sink took a front of them, and not the whole.
fn write_three<O: Sink>(
    out: &mut O,
    first: &[u8],
    second: &[u8],
    third: &[u8],
) -> Result<(), Failed>
    ensures ok { OnOk result (O.contents out.new ≡ appended (O.contents out.old) (first.now ++ second.now ++ third.now)) }
    ensures err { OnErr result (HasFront (O.contents out.old) (O.contents out.new) (first.now ++ second.now ++ third.now)) }
    ensures kept { OnOk result (O.faults out.new ≡ O.faults out.old) }
    ensures failed { OnErr result (Rose (O.faults out.old) (O.faults out.new)) }
{
    let Ok(()) = write_all(out, first) else {
        return Err(Failed);
    };
    let Ok(()) = write_all(out, second) else {
        return Err(Failed);
    };
    write_all(out, third)
}

/// Prints the line of a connection that ended for want of memory. It takes no memory.
fn print_without_memory<O: Sink>(number: u32, out: &mut O) -> Result<(), ResponseFault>
    ensures whole { OnOk result (O.contents out.new ≡ appended (O.contents out.old) (connection_line number ConnectionEnd.OutOfMemory)) }
    ensures cut { OnErr result (HasFront (O.contents out.old) (O.contents out.new) (connection_line number ConnectionEnd.OutOfMemory)) }
    ensures only { result ≢ Err ResponseFault.OutOfMemory }
    ensures failed { OnErr result (Rose (O.faults out.old) (O.faults out.new)) }
    ensures kept { OnOk result (O.faults out.new ≡ O.faults out.old) }
{
    let mut buffer = Buffer::new();
    let digits = buffer.format(number).as_bytes();
    match write_three(out, b"connection ", digits, b" out-of-memory\n") {
        Ok(()) => Ok(()),
        Err(Failed) => Err(ResponseFault::WriteFault),
    }
}

/// Prints the line of a connection that ended, by its number, counted from 1: `connection I answered S`, with a blank and the
/// cause behind it if there is one, `connection I read-fault`, `connection I write-fault` or `connection I out-of-memory`. The
/// last takes no memory. `OutOfMemory` says that memory was refused for another line, and then nothing is written.
pub fn print_connection<O: Sink>(
    alloc: Global,
    number: u32,
    end: &ConnectionEnd,
    out: &mut O,
) -> Result<(), ResponseFault>
    ensures whole { OnOk result (O.contents out.new ≡ appended (O.contents out.old) (connection_line number end.now)) }
    ensures cut { IsErrOf result ResponseFault.WriteFault →
        HasFront (O.contents out.old) (O.contents out.new) (connection_line number end.now) }
    ensures memory { IsErrOf result ResponseFault.OutOfMemory → out.new ≡ out.old }
    ensures some { end.now ≡ ConnectionEnd.OutOfMemory → result ≢ Err ResponseFault.OutOfMemory }

    // A fault is counted, and nothing else is.
    ensures failed { IsErrOf result ResponseFault.WriteFault → Rose (O.faults out.old) (O.faults out.new) }
    ensures kept { result ≢ Err ResponseFault.WriteFault → O.faults out.new ≡ O.faults out.old }
{
    match end {
        ConnectionEnd::OutOfMemory => print_without_memory(number, out),
        _ => print_line(alloc, number, end, out),
    }
}
