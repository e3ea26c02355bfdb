ghost use Rattle.std.specs.Prelude.{◌≡◌, ℕ, List};
ghost use Rattle.lines.specs.Gathering.{Gathered};
ghost use Rattle.check_sheet.specs.Answers.{Replied};
ghost use Rattle.check_sheet.specs.Sessions.{Fresh, LineAnswered, Took, Ended};

use crate::answer::answer;
use crate::setup::Setup;
use command::parse;
use lines::line_buffer::LineBuffer;
use replies::reply::Reply;
use replies::summary::Summary;

/// What stands between two bytes of the input: the network with its model, the line so far and the replies so far.
#[derive(Drop)]
pub struct Session {
    setup: Option<Setup>,
    line: LineBuffer,
    summary: Summary,
}

impl Session {
    pub(crate) fn new() -> Session
        ensures { Fresh result }
    {
        Session {
            setup: None,
            line: LineBuffer::new(),
            summary: Summary::new(),
        }
    }

    /// Takes one byte of the input, and answers the line that it ends, if it ends one.
    pub(crate) fn take(&mut self, byte: u8) -> Option<Reply>
        ensures { (bytes : List ℕ) → Gathered self.old.line bytes → Took self.old bytes byte result self.new }
    {
        if byte == b'\n' {
            Some(self.answer_line())
        } else {
            self.line.push(byte);
            None
        }
    }

    /// Answers the last line, which ends with the input, unless nothing of it has come.
    pub(crate) fn end(&mut self) -> Option<Reply>
        ensures { (bytes : List ℕ) → Gathered self.old.line bytes → Ended self.old bytes result self.new }
    {
        if self.line.is_empty() {
            None
        } else {
            Some(self.answer_line())
        }
    }

    pub(crate) fn summary(&self) -> Summary
        ensures { result ≡ self.now.summary }
    {
        self.summary
    }

    /// Answers the line so far, and begins another.
    fn answer_line(&mut self) -> Reply
        ensures { (bytes : List ℕ) → Gathered self.old.line bytes → LineAnswered self.old bytes result self.new }
    {
        let reply = reply_to(&mut self.setup, &self.line);
        self.line.clear();
        self.summary.note(reply);
        reply
    }
}

/// What one line does to the network, and what is replied.
fn reply_to(setup: &mut Option<Setup>, line: &LineBuffer) -> Reply
    ensures { (bytes : List ℕ) → Gathered line.now bytes → Replied setup.old bytes result setup.new }
{
    match line.text().and_then(parse) {
        Some(command) => answer(setup, command),
        None => Reply::Unreadable,
    }
}
