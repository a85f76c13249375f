// What calls answer, in words: a line has what is called for, a colon and the answer.
use refusals::Refusal;
use room::RoomFault;
use std::fmt;

// What a granted call answers.
#[derive(Clone, Copy)]
pub enum Answer {
    // Nothing but that it is done.
    Done,
    // The sequence of the lodged envelope.
    Lodged(u32),
    // A bidder's last accepted sequence, or 0.
    LastAccepted(u32),
}

impl fmt::Display for Answer {
    fn fmt<W: fmt::Write>(&self, f: &mut fmt::Formatter<W>) -> fmt::Result {
        match *self {
            Answer::Done => f.write_str("done"),
            Answer::Lodged(sequence) => write!(f, "envelope lodged with sequence {sequence}"),
            Answer::LastAccepted(0) => f.write_str("sequence 0, since no envelope is accepted yet"),
            Answer::LastAccepted(sequence) => write!(f, "sequence {sequence} is the last accepted"),
        }
    }
}

// An amount of cents.
#[derive(Clone, Copy)]
pub struct Cents(pub u64);

impl fmt::Display for Cents {
    fn fmt<W: fmt::Write>(&self, f: &mut fmt::Formatter<W>) -> fmt::Result {
        write!(f, "{}.{:02}", self.0 / 100, self.0 % 100)
    }
}

// Tells what a call answers, or its refusal.
pub fn tell<C: fmt::Display + Drop>(
    rt: &HostRuntime,
    call: C,
    answer: Result<Answer, RoomFault>,
) -> anyhow::Result<()> {
    match answer {
        Ok(answer) => println!(rt; "{call}: {answer}")?,
        Err(fault) => println!(rt; "{call}: {}", Refusal(fault))?,
    }
    Ok(())
}

// Tells whether a call is done that answers nothing.
pub fn tell_done<C: fmt::Display + Drop>(
    rt: &HostRuntime,
    call: C,
    answer: Result<(), RoomFault>,
) -> anyhow::Result<()> {
    tell(rt, call, answer.map(|()| Answer::Done))
}

// Tells what a lodging answers.
pub fn tell_lodged<C: fmt::Display + Drop>(
    rt: &HostRuntime,
    call: C,
    answer: Result<u32, RoomFault>,
) -> anyhow::Result<()> {
    tell(rt, call, answer.map(|sequence| Answer::Lodged(sequence)))
}

// Tells what the asking for a bidder answers.
pub fn tell_asked(
    rt: &HostRuntime,
    bidder: u32,
    answer: Result<u32, RoomFault>,
) -> anyhow::Result<()> {
    let call = format_args!("asking for bidder {bidder}");
    tell(
        rt,
        call,
        answer.map(|sequence| Answer::LastAccepted(sequence)),
    )
}
