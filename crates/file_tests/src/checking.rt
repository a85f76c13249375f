// What is checked of a file: that gathering it and its report take it in the same way, and what is printed.
use crate::making::{begun, file_of};
use fault::Fault;
use file::{FileFault, gather, report_on};
use room::RegisterEntry;
use std::process::Abort;
use std::test::Fail;

pub const NOBODY: RegisterEntry = RegisterEntry {
    bidder: 0,
    key: [0; 16],
};

// What a fault tells: its number and its line.
fn number_and_line(f: FileFault) -> (u8, u32) {
    (f.number(), f.line())
}

// Checks what is printed of a file, and the number and the line that refuse it, if any do.
fn tells(
    rt: &(impl Abort + AllocGlobal),
    file: &[u8],
    printed: &str,
    refusal: Option<(u8, u32)>,
) -> Result<(), Fail> {
    let mut places = [NOBODY; 64];
    assert_eq!(rt;
        gather(file, &mut places).err().map(number_and_line),
        refusal
    );
    let made = report_on(rt.alloc(), file)?;
    assert_eq!(rt; made.refusal.map(number_and_line), refusal);
    assert_eq!(rt; made.bytes.as_slice(), printed.as_bytes());
    Ok(())
}

// Checks that a file is accepted, and what is printed of it.
pub fn is_accepted(
    rt: &(impl Abort + AllocGlobal),
    file: &[u8],
    printed: &str,
) -> Result<(), Fail> {
    tells(rt, file, printed, None)
}

// Checks the number and the line that refuse a file.
pub fn is_refused(
    rt: &(impl Abort + AllocGlobal),
    file: &[u8],
    number: u8,
    line: u32,
) -> Result<(), Fail> {
    let printed = format!(in rt.alloc(); "refusal,line\n{number},{line}\n")?;
    tells(rt, file, &printed, Some((number, line)))
}

// Checks that the file of each row, by its lot, bidders and envelopes, is accepted, and what is printed of it.
pub fn accepts(
    rt: &(impl Abort + AllocGlobal),
    table: &[(&str, &str, &str, &str)],
) -> Result<(), Fail> {
    for (values, bidders, envelopes, printed) in table {
        let file = file_of(rt.alloc(), values, bidders, envelopes)?;
        is_accepted(rt, file.as_bytes(), printed)?;
    }
    Ok(())
}

// Checks the file of each row, by how many lines it begins with and how it goes on, against the number and the line that refuse it.
pub fn refuses(
    rt: &(impl Abort + AllocGlobal),
    table: &[(usize, &str, u8, u32)],
) -> Result<(), Fail> {
    for (lines, rest, number, line) in table {
        let file = begun(rt.alloc(), *lines, rest)?;
        is_refused(rt, file.as_bytes(), *number, *line)?;
    }
    Ok(())
}
