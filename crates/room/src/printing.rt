// Writing of the page: the line of names, and the line of each row.
ghost use Rattle.std.specs.Prelude.{◌≡◌, ◌+◌, ◌≤◌, length, decimal};
ghost use Rattle.std.specs.List.{flat_map};
ghost use Rattle.room.specs.Page.{line as line_of, page as page_of, rows};
ghost use Rattle.room.specs.Places.{place_with_at};

use crate::sheet::SheetEntry;
use itoa::Buffer;

// What a line of the page says.
#[derive(Clone, Copy)]
pub(crate) struct Row {
    pub(crate) lot: u32,
    pub(crate) bidder: u32,
    pub(crate) amount: u64,
}

// Writes the page of a lot and a sheet, and answers its length.
#[tactic(auto, using(crate::proofs::CodePages::page_length))]
pub(crate) fn put_page(page: &mut [u8], lot: u32, sheet: &[SheetEntry]) -> usize
    requires { length (page_of lot sheet.now) ≤ length page.old }
    ensures end { result ≡ length (page_of lot sheet.now) }
    ensures page { page.new ≡ place_with_at page.old 0 (page_of lot sheet.now) }
{
    let at = put(page, 0, b"lot,bidder,amount\n");
    put_lines(page, at, lot, sheet)
}

// Writes a line for each entry of the sheet, and answers where they end.
fn put_lines(page: &mut [u8], start: usize, lot: u32, sheet: &[SheetEntry]) -> usize
    requires { start + length (flat_map line_of (rows lot sheet.now)) ≤ length page.old }
    ensures end { result ≡ start + length (flat_map line_of (rows lot sheet.now)) }
    ensures page { page.new ≡ place_with_at page.old start (flat_map line_of (rows lot sheet.now)) }
{
    let mut at = start;
    // By index: each line goes behind the one before it.
    for i in 0..sheet.len() {
        let SheetEntry { bidder, amount } = sheet[i];
        at = put_line(
            page,
            at,
            Row {
                lot,
                bidder,
                amount,
            },
        );
    }
    at
}

// Writes the line of a row, and answers where it ends.
#[tactic(auto, using(crate::proofs::CodePages::length_line))]
fn put_line(page: &mut [u8], at: usize, row: Row) -> usize
    requires { at + length (line_of row) ≤ length page.old }
    ensures end { result ≡ at + length (line_of row) }
    ensures page { page.new ≡ place_with_at page.old at (line_of row) }
{
    let a = put_number(page, at, row.lot as u64);
    let b = put(page, a, b",");
    let c = put_number(page, b, row.bidder as u64);
    let d = put(page, c, b",");
    let e = put_number(page, d, row.amount);
    put(page, e, b"\n")
}

// Writes a number in decimal digits, and answers where it ends.
fn put_number(page: &mut [u8], at: usize, n: u64) -> usize
    requires { at + length (decimal n) ≤ length page.old }
    ensures end { result ≡ at + length (decimal n) }
    ensures page { page.new ≡ place_with_at page.old at (decimal n) }
{
    let mut digits = Buffer::new();
    put(page, at, digits.format(n).as_bytes())
}

// Writes bytes at a place, and answers where they end.
// Each function here answers where it ends, since the next piece begins there and a lent page keeps no place of its own. So each asks for room for
// its piece from there on.
fn put(page: &mut [u8], at: usize, bytes: &[u8]) -> usize
    requires { at + length bytes.now ≤ length page.old }
    ensures end { result ≡ at + length bytes.now }
    ensures page { page.new ≡ place_with_at page.old at bytes.now }
{
    let end = at + bytes.len();
    page[at..end].copy_from_slice(bytes);
    end
}
