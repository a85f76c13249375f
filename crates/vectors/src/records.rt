// Known answers, as the known-answer files write them: six lines to a record, and empty lines between the records.
ghost use Rattle.std.specs.Prelude.{◌≡◌, ◌++◌, IfOk, OnOk};
ghost use Rattle.std.specs.Option.{option_to_list};
ghost use Rattle.std.specs.Result.{result_ok, result_err};
ghost use Rattle.vectors.specs.Layout.{field_value, number_value, bytes_value, sealed_and_tag, answer_of_lines, readings};
ghost use Rattle.vectors.specs.Views.{IsReading, known_answer, texts, fault_of, readings_seen};

use cipher::tag_bytes;
use engine::Variant;
use hex::FromHexError;
use std::alloc::{AllocError, Global};

/// A known answer: a text, what it is sealed under, and the sealed text and tag that come of it.
#[derive(Drop)]
pub struct Record {
    pub number: usize,
    pub key: Vec<u8>,
    pub nonce: Vec<u8>,
    pub text: Vec<u8>,
    pub associated: Vec<u8>,
    pub sealed: Vec<u8>,
    pub tag: Vec<u8>,
}

/// Why a group of lines is no record.
#[derive(Drop)]
pub enum RecordFault {
    /// There are not six lines, or a line is not the one that has this place in the layout.
    Line,
    /// The number of the record is none.
    Number,
    /// A value is not written as bytes.
    Value,
    /// The sealed text is shorter than a tag.
    Short,
    /// Memory did not suffice.
    Memory,
}

impl From<FromHexError> for RecordFault {
    ghost from_gives = { λ e f. f ≡ fault_of e };

    fn from(fault: FromHexError) -> RecordFault {
        match fault {
            FromHexError::OutOfMemory => RecordFault::Memory,
            _ => RecordFault::Value,
        }
    }
}

impl From<AllocError> for RecordFault {
    ghost use Rattle.vectors.specs.declared.records.RecordFault.TheVariants.{Memory};

    ghost from_gives = { λ _ f. f ≡ Memory };

    fn from(_fault: AllocError) -> RecordFault {
        RecordFault::Memory
    }
}

// The value of a line that begins with the name of its field.
fn value<'a>(line: &'a str, name: &str) -> Result<&'a str, RecordFault>
    ensures { IsReading (λ v. v.now) result (field_value name.now line.now) }
{
    line.strip_prefix(name).ok_or(RecordFault::Line)
}

// The number in a line.
fn number(line: &str, name: &str) -> Result<usize, RecordFault>
    ensures { IsReading (λ n. n) result (number_value name.now line.now) }
{
    let Ok(number) = value(line, name)?.parse::<usize>() else {
        return Err(RecordFault::Number);
    };
    Ok(number)
}

// The bytes in a line.
fn bytes(heap: Global, line: &str, name: &str) -> Result<Vec<u8>, RecordFault>
    ensures { IsReading (λ v. v.items) result (bytes_value name.now line.now) }
{
    let digits = value(line, name)?;
    Ok(hex::decode(heap, digits)?)
}

// Parts a sealed text from the tag that follows it.
fn split_tag(heap: Global, variant: Variant, both: &[u8]) -> Result<(Vec<u8>, Vec<u8>), RecordFault>
    ensures { IsReading (λ p. (p.0.items, p.1.items)) result (sealed_and_tag variant both.now) }
{
    let n = tag_bytes(variant);
    if both.len() < n {
        return Err(RecordFault::Short);
    }
    let (sealed, tag) = both.split_at(both.len() - n);
    Ok((Vec::from_slice(heap, sealed)?, Vec::from_slice(heap, tag)?))
}

impl Record {
    /// Reads the lines of a record of a variant.
    pub fn parse(heap: Global, variant: Variant, lines: &[&str]) -> Result<Record, RecordFault>
        ensures { IsReading known_answer result (answer_of_lines variant (texts lines.now)) }
    {
        let &[count, key, nonce, text, associated, both] = lines else {
            return Err(RecordFault::Line);
        };
        let number = number(count, "Count = ")?;
        let key = bytes(heap, key, "Key = ")?;
        let nonce = bytes(heap, nonce, "Nonce = ")?;
        let text = bytes(heap, text, "PT = ")?;
        let associated = bytes(heap, associated, "AD = ")?;
        let both = bytes(heap, both, "CT = ")?;
        let (sealed, tag) = split_tag(heap, variant, &both)?;
        Ok(Record {
            number,
            key,
            nonce,
            text,
            associated,
            sealed,
            tag,
        })
    }
}

/// The records of a file, in order, and why each group of lines that is no record is none.
#[derive(Drop)]
pub struct Answers {
    pub records: Vec<Record>,
    pub faults: Vec<RecordFault>,
}

impl Answers {
    // Adds what a group of lines says.
    fn take(&mut self, heap: Global, variant: Variant, lines: &[&str]) -> Result<(), AllocError>
        ensures answers { let said = answer_of_lines variant (texts lines.now) in
            let old = readings_seen self.old in let new = readings_seen self.new in
            OnOk result (new.answers ≡ old.answers ++ option_to_list (result_ok said)) }
        ensures faults { let said = answer_of_lines variant (texts lines.now) in
            let old = readings_seen self.old in let new = readings_seen self.new in
            OnOk result (new.faults ≡ old.faults ++ option_to_list (result_err said)) }
    {
        match Record::parse(heap, variant, lines) {
            Ok(record) => self.records.push(record)?,
            Err(RecordFault::Memory) => return Err(AllocError),
            Err(fault) => self.faults.push(fault)?,
        }
        Ok(())
    }
}

/// Reads the records of a variant.
pub fn read_answers(heap: Global, variant: Variant, text: &str) -> Result<Answers, AllocError>
    ensures { IfOk result (λ a. readings_seen a ≡ readings variant text.now) }
{
    let lines: Vec<&str> = text.lines().collect(heap)?;
    let mut answers = Answers {
        records: Vec::new(heap),
        faults: Vec::new(heap),
    };
    for group in lines.split(|line| line.is_empty()) {
        if !group.is_empty() {
            answers.take(heap, variant, group)?;
        }
    }
    Ok(answers)
}
