// The reader of a sale file: it goes from line to line.
ghost use Rattle.std.specs.Prelude.{◌≡◌, ◌+◌, ◌<◌, ◌≤◌, length};
ghost use Rattle.file.specs.Lines.{most_bytes};

use crate::faults::FileFault;
use crate::fields::split_once;
use crate::line::{Line, Section, judge};

/// The most bytes that a sale file may have.
pub const MOST_FILE_BYTES: usize = 32_768;

// What ends a line.
const LINE_END: u8 = 10;

/// Where a reader stands in a file: what it has not read yet, the number of the next line, and the section that this must be of.
/// A file that is too long is refused with none of its bytes read.
#[derive(Clone, Copy)]
pub struct Reader<'a> {
    rest: &'a [u8],
    line: u32,
    wants: Result<Section, FileFault>,
    // Every line passed took a byte, and the file is short enough to count them.
    ghost counted: { line + length rest.now ≤ most_bytes + 1 },
}

impl<'a> Reader<'a> {
    ghost use Rattle.std.specs.Result.{result_transpose};
    ghost use Rattle.file.specs.Contents.{items_in};
    ghost use Rattle.file.specs.Reader.{items_left, GivesNext};
    ghost use Rattle.file.specs.steps.Reader.{items_left_after, Steps};

    /// A reader over the bytes of a file. One that has too many is refused at the first reading.
    #[tactic(auto, unfolding(crate::specs::Reader::items_left))]
    pub fn new(text: &'a [u8]) -> Reader<'a>
        ensures { items_left result ≡ items_in text.now }
    {
        if text.len() > MOST_FILE_BYTES {
            return Reader {
                rest: &[],
                line: 1,
                wants: Err(FileFault::TooLong),
            };
        }
        Reader {
            rest: text,
            line: 1,
            wants: Ok(Section::LotNames),
        }
    }

    // What the next line says, if anything. It is passed unless it is refused.
    #[tactic(auto, using(crate::proofs::Cuts::items_torn, crate::proofs::Cuts::items_line), unfolding(crate::specs::Reader::items_left))]
    fn step(&mut self) -> Result<Option<Line<'a>>, FileFault>
        requires { 0 < length self.old.rest.now }
        ensures left { items_left self.old ≡ items_left_after result (items_left self.new) }
        ensures moves { Steps result self.old self.new }
    {
        let section = self.wants?;
        let line = self.line;
        let (text, rest) = split_once(self.rest, LINE_END).ok_or(FileFault::Form { line })?;
        let step = judge(section, line, text)?;
        *self = Reader {
            rest,
            line: line + 1,
            wants: Ok(step.next),
        };
        Ok(step.said)
    }

    // What the next line that says something says; nothing at the end of the file.
    #[tactic(auto, using(crate::proofs::Cuts::gives_line, crate::proofs::Cuts::gives_fault, crate::proofs::Cuts::gives_end, crate::proofs::Cuts::left_refused, crate::proofs::Cuts::left_ended, crate::proofs::Cuts::left_missing))]
    pub(crate) fn read(&mut self) -> Result<Option<Line<'a>>, FileFault>
        ensures { GivesNext self.old (result_transpose result) self.new }
    {
        // No `for`, since the lines are not counted beforehand: it ends with the bytes, or at a line that says something.
        while !self.rest.is_empty() {
            if let Some(line) = self.step()? {
                return Ok(Some(line));
            }
        }
        match self.wants? {
            Section::Envelopes => Ok(None),
            _ => Err(FileFault::Form { line: self.line }),
        }
    }

    /// What the next line that says something says, or why a line before it is refused, which stays so; nothing more at the end of the file.
    /// `reader.next()` is this one. The method of `Iterator`, by the same record, is proved in a loop only where the items end, and a refusal comes
    /// again at each call.
    pub fn next(&mut self) -> Option<Result<Line<'a>, FileFault>>
        ensures { GivesNext self.old result self.new }
    {
        self.read().transpose()
    }
}

// It gives what `Reader::next` gives.
impl<'a> Iterator for Reader<'a> {
    ghost use Rattle.file.specs.Reader.{GivesNext};

    type Item = Result<Line<'a>, FileFault>;

    ghost next_gives = { GivesNext };

    fn next(&mut self) -> Option<Result<Line<'a>, FileFault>> {
        Reader::next(self)
    }
}
