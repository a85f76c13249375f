// Files made of a common beginning.
use std::alloc::{AllocError, Global};

// The line of bidder 3.
pub const BIDDER_3: &str = "3,000102030405060708090a0b0c0d0e0f\n";

// The file of a lot with these values, and of these lines of bidders and of envelopes.
pub fn file_of(
    heap: Global,
    values: &str,
    bidders: &str,
    envelopes: &str,
) -> Result<String, AllocError> {
    format!(in heap; "lot,variant,terms\n{values}\n\nbidder,key\n{bidders}\nenvelope\n{envelopes}")
}

// A file that begins with so many of the seven lines above the envelopes, with lot 17 and bidder 3, and goes on as given.
pub fn begun(heap: Global, lines: usize, rest: &str) -> Result<String, AllocError> {
    let whole = file_of(heap, "17,dumbo,", BIDDER_3, "")?;
    let mut file = String::new(heap);
    for line in whole.lines().take(lines) {
        file.push_str(line)?;
        file.push('\n')?;
    }
    file.push_str(rest)?;
    Ok(file)
}

// A text and so many commas behind it.
pub fn with_commas(heap: Global, text: &str, commas: usize) -> Result<String, AllocError> {
    let mut long = String::from_str(heap, text)?;
    for _ in 0..commas {
        long.push(',')?;
    }
    Ok(long)
}

// The lines of bidders 0 and on, so many of them, and what is behind them.
pub fn bidders_then(heap: Global, bidders: u32, behind: &str) -> Result<String, AllocError> {
    let mut lines = String::new(heap);
    for bidder in 0..bidders {
        write!(lines, "{bidder},000102030405060708090a0b0c0d0e0f\n")?;
    }
    lines.push_str(behind)?;
    Ok(lines)
}
