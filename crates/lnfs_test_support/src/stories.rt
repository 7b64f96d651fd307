//! Stories: recordings of requests in sessions of several levels, told line by line.
use crate::clients::{put_opened, put_opening};
use crate::flaw::{Flaw, demand, read_of};
use crate::records::check_row;
use crate::rows::rows_of;
use crate::runs::Runtime;
use std::alloc::{AllocError, Global};

/// What is recorded, the replies to it, and the lines of the audit stream, each in words, with the number of events.
#[derive(Drop)]
pub struct Story {
    events: String,
    replies: String,
    lines: String,
    count: usize,
}

impl Story {
    /// A story of nothing.
    pub fn new(alloc: Global) -> Story {
        Story {
            events: String::new(alloc),
            replies: String::new(alloc),
            lines: String::new(alloc),
            count: 0,
        }
    }

    /// Begins so many more events, behind those that are there.
    fn begin(&mut self, more: usize) -> Result<(), AllocError> {
        if self.count > 0 {
            self.events.push_str(" / ")?;
            self.replies.push_str(" / ")?;
        }
        self.count = self.count.saturating_add(more);
        Ok(())
    }

    /// Adds the client of a level and its session.
    pub fn open(&mut self, level: usize) -> Result<(), AllocError> {
        self.begin(2)?;
        put_opening(&mut self.events, level)?;
        put_opened(&mut self.replies, level)
    }

    /// Adds a request of a level in the first slot of its session, under a sequence and at a second: the operations
    /// behind the SEQUENCE; what is due, as `STATUS COUNT RESULTS`; and the line without the event's place, which is
    /// empty where there is none.
    fn request(
        &mut self,
        who: &str,
        operations: &str,
        due: &str,
        line: &str,
    ) -> Result<Option<()>, AllocError> {
        let Some((level, when)) = who.split_once(' ') else {
            return Ok(None);
        };
        let Some((sequence, seconds)) = when.split_once(' ') else {
            return Ok(None);
        };
        let Some((status, told)) = due.split_once(' ') else {
            return Ok(None);
        };
        let Some((count, results)) = told.split_once(' ') else {
            return Ok(None);
        };
        let Ok(level) = level.parse::<usize>() else {
            return Ok(None);
        };
        let class = level.min(1);
        self.begin(1)?;
        write!(
            self.events,
            "@{class}.{seconds} CALL SYS_{level}00 0 2 {count} SEQUENCE_{level} {sequence} 0 0 1 {operations}"
        )?;
        write!(
            self.replies,
            "ACCEPTED 0 {status} 0 {count} SEQUENCED_{level} {sequence} 0 SLOTS {results}"
        )?;
        self.put_line(line)?;
        Ok(Some(()))
    }

    /// Adds the line of the event that was added last, where it has one.
    fn put_line(&mut self, line: &str) -> Result<(), AllocError> {
        if !line.is_empty() {
            let event = self.count;
            write!(self.lines, " | {event} {line}")?;
        }
        Ok(())
    }

    /// Adds an event in words, the reply to it, and the line without the event's place, which is empty where there is none.
    pub fn tell(&mut self, event: &str, reply: &str, line: &str) -> Result<(), AllocError> {
        self.begin(1)?;
        self.events.push_str(event)?;
        self.replies.push_str(reply)?;
        self.put_line(line)
    }

    /// Adds what a line tells, where it can be read: a level, whose client and session begin here, or the cells of a
    /// request.
    fn read(&mut self, line: &str) -> Result<Option<()>, AllocError> {
        let Some((who, behind)) = line.split_once(" | ") else {
            let Ok(level) = line.parse::<usize>() else {
                return Ok(None);
            };
            self.open(level)?;
            return Ok(Some(()));
        };
        let Some((operations, due)) = behind.split_once(" | ") else {
            return Ok(None);
        };
        match due.split_once(" | ") {
            Some((due, line)) => self.request(who, operations, due, line),
            None => self.request(who, operations, due, ""),
        }
    }

    /// Adds what a line tells: a level, whose client and session begin here, or the cells of a request,
    /// `LEVEL SEQUENCE SECONDS | OPERATIONS | STATUS COUNT RESULTS | LINE`, the last of which may be left out.
    ///
    /// # Errors
    ///
    /// A flaw where the line can't be read.
    pub fn put(&mut self, alloc: Global, line: &str) -> Result<(), Flaw> {
        read_of(alloc, self.read(line)?, line)
    }

    /// Plays it, and compares what that gives with what is due.
    ///
    /// # Errors
    ///
    /// A flaw where something else is given.
    pub fn check(&self, rt: &impl Runtime, alloc: Global, name: &str) -> Result<(), Flaw> {
        let events = &self.events;
        let replies = &self.replies;
        let lines = &self.lines;
        let row = format!(in alloc; "{name} | {events} | {replies}{lines}")?;
        check_row(rt, alloc, &row)
    }
}

/// Plays a story of lines.
fn check_story(rt: &impl Runtime, alloc: Global, name: &str, lines: &str) -> Result<(), Flaw> {
    let mut story = Story::new(alloc);
    for line in &rows_of(alloc, lines)? {
        story.put(alloc, line)?;
    }
    story.check(rt, alloc, name)
}

/// Plays each of so many stories. Before each stands `#` with its name.
///
/// # Errors
///
/// The flaw of the first story that has one, and another where there are more stories or fewer.
pub fn check_stories(
    rt: &impl Runtime,
    alloc: Global,
    table: &str,
    count: usize,
) -> Result<(), Flaw> {
    let mut told = 0usize;
    for text in table.split('#') {
        if let Some((name, lines)) = text.split_once('\n')
            && !name.is_empty()
        {
            check_story(rt, alloc, name, lines)?;
            told = told.saturating_add(1);
        }
    }
    demand(alloc, told == count, "stories", "a table")
}
