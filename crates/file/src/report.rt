// The report of a sale file: its lines, and the way from the bytes where they are read to the report where it is written.
ghost use Rattle.std.specs.Prelude.{◌≡◌, ◌++◌, IfOk, OnOk};
ghost use Rattle.file.specs.Report.{status_by, two_values, refused_report};
ghost use Rattle.file.specs.Sale.{Tells, ReportsFrom, HoldsSale};
ghost use Rattle.file.specs.declared.report.SaleError.TheVariants.{Memory as for_memory};

use crate::faults::FileFault;
use crate::sale::{Stopped, hold};
use crate::streams::{read_file, write_whole};
use fault::Fault;
use std::alloc::{AllocError, Global};
use std::error::Error;
use std::io::{Read, Write};
use std::{fmt, io};

/// What is printed of a sale file, and why it is refused, if it is.
#[derive(Drop)]
pub struct Report {
    /// What is printed.
    pub bytes: Vec<u8>,
    /// Why the file is refused, if it is.
    pub refusal: Option<FileFault>,
}

impl Report {
    /// The exit status of a program that prints the report: 0 where the file is accepted, 1 where it is refused.
    pub fn status(&self) -> u8
        ensures { result ≡ status_by self.now.refusal }
    {
        match self.refusal {
            None => 0,
            Some(_) => 1,
        }
    }
}

/// Why the report of a sale file is not written.
#[derive(Debug, Drop)]
pub enum SaleError {
    /// Memory does not suffice to make the report.
    Memory(AllocError),
    /// The file cannot be read, or memory does not suffice to hold it.
    Reading(io::Error),
    /// The report cannot be written to its end.
    Writing(io::Error),
}

impl fmt::Display for SaleError {
    fn fmt<W: fmt::Write>(&self, f: &mut fmt::Formatter<W>) -> fmt::Result {
        match self {
            SaleError::Memory(e) => write!(f, "the report cannot be made: {e}"),
            SaleError::Reading(e) => write!(f, "the sale file cannot be read: {e}"),
            SaleError::Writing(e) => write!(f, "the report cannot be written: {e}"),
        }
    }
}

impl Error for SaleError {}

impl From<AllocError> for SaleError {
    ghost from_gives = { λ e r. r ≡ for_memory e };

    fn from(e: AllocError) -> SaleError {
        SaleError::Memory(e)
    }
}

/// The report of the bytes of a sale file, in every case but one.
///
/// # Errors
/// Memory does not suffice.
pub fn report_on(heap: Global, text: &[u8]) -> Result<Report, AllocError>
    ensures { IfOk result (Tells text.now) }
{
    match hold(heap, text) {
        Ok(bytes) => Ok(Report {
            bytes,
            refusal: None,
        }),
        Err(Stopped::Refused(f)) => Ok(Report {
            bytes: refusal_report(heap, f)?,
            refusal: Some(f),
        }),
        Err(Stopped::Memory(e)) => Err(e),
    }
}

/// The report of the sale file that a reader has left, all of it.
///
/// # Errors
/// The file cannot be read, or memory does not suffice; never `SaleError::Writing`.
pub fn report_from<R: Read + Drop>(heap: Global, reader: R) -> Result<Report, SaleError>
    ensures { ReportsFrom (R.remaining reader) result }
{
    let text = read_file(heap, reader).map_err(SaleError::Reading)?;
    let report = report_on(heap, &text)?;
    Ok(report)
}

/// Holds the sale of the file that a reader has left, and writes its report. Answers the exit status that goes with it: 0 where the file is
/// accepted, 1 where it is refused.
///
/// # Errors
/// The file cannot be read or memory does not suffice, and nothing is written; or the report cannot be written to its end. No clause says when: a
/// reader and a writer may fail at any time.
pub fn hold_sale<R: Read + Drop, W: Write>(
    heap: Global,
    reader: R,
    writer: &mut W,
) -> Result<u8, SaleError>
    ensures { HoldsSale (R.remaining reader) (W.contents writer.old) (W.contents writer.new)
        result }
{
    let report = report_from(heap, reader)?;
    write_whole(writer, &report.bytes).map_err(SaleError::Writing)?;
    Ok(report.status())
}

// Adds a line of two values.
pub(crate) fn put_values(out: &mut Vec<u8>, a: u32, b: u32) -> Result<(), AllocError>
    ensures { OnOk result (out.new.items ≡ out.old.items ++ two_values a b) }
{
    let line = format!(in *out.allocator(); "{a},{b}\n")?;
    out.extend_from_slice(line.as_bytes())
}

// The report of a refused file.
fn refusal_report(heap: Global, f: FileFault) -> Result<Vec<u8>, AllocError>
    ensures { IfOk result (λ v. v.items ≡ refused_report f) }
{
    let mut out = Vec::new(heap);
    out.extend_from_slice(b"refusal,line\n")?;
    put_values(&mut out, f.number() as u32, f.line())?;
    Ok(out)
}
