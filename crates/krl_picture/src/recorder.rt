//! A script is run, and what happens is noted.
use crate::watch::{Watch, is_up};
use krl_drawing::{Arrow, Fate, Label, Node, Row, draw_svg, draw_text};
use krl_script::{Interpreter, LineFault, Request, ScriptFault, Sink, Source};
use krl_text::{MAX_DELIVERIES, MAX_TEXT, SyntaxFault, first_line, read_text, write_line};
use krl_world::{Command, Message, Step};
use std::alloc::{AllocError, Global};

/// The most lines of a picture.
const MAX_ROWS: usize = 20000;

// The run of a script, as far as it got.
struct Recorder {
    alloc: Global,
    interpreter: Interpreter,
    rows: Vec<Row>,
    // For each message: whether it was delivered or dropped.
    is_past: Vec<bool>,
    watch: Watch,
}

impl Drop for Recorder {
    fn drop(self) {
        let Recorder {
            alloc: _,
            interpreter: _interpreter,
            rows: _rows,
            is_past: _is_past,
            watch: _watch,
        } = self;
    }
}

// What a step of this kind does to a node, if it is not refused.
fn mark_of(step: &Step) -> Option<Row> {
    let (node, text) = match step {
        Step::StartClient(client) => (Node::Client(*client), "starts"),
        Step::CrashClient(client) => (Node::Client(*client), "crashes"),
        Step::Command(client, Command::Leave) => (Node::Client(*client), "leaves"),
        Step::StartServer => (Node::Server, "starts"),
        Step::CrashServer => (Node::Server, "crashes"),
        _ => return None,
    };
    Some(Row::Mark { node, text })
}

impl Recorder {
    fn new(alloc: Global) -> Result<Recorder, AllocError> {
        Ok(Recorder {
            alloc,
            interpreter: Interpreter::new(alloc)?,
            rows: Vec::new(alloc),
            is_past: Vec::new(alloc),
            watch: Watch::new(alloc)?,
        })
    }

    // Notes the line, if the picture has room for it.
    fn note(&mut self, row: Row) -> Result<(), AllocError> {
        if self.rows.len() < MAX_ROWS {
            self.rows.push(row)?;
        } else if self.rows.len() == MAX_ROWS {
            self.rows.push(Row::More)?;
        }
        Ok(())
    }

    // Notes each line of what was printed.
    fn print(&mut self, printed: &[u8]) -> Result<(), AllocError> {
        for line in printed.split(|byte| *byte == b'\n') {
            if !line.is_empty() {
                let copy = Vec::from_slice(self.alloc, line)?;
                self.note(Row::Printed(copy))?;
            }
        }
        Ok(())
    }

    // Messages that were sent since the last time wait.
    fn count(&mut self) -> Result<(), AllocError> {
        let sent = self.interpreter.world().sent();
        for before in self.is_past.len() as u64..sent {
            self.is_past.push(false)?;
            if let Some(message) = self.interpreter.world().message(before.wrapping_add(1)) {
                self.watch.note(message)?;
            }
        }
        Ok(())
    }

    // Notes what the nodes hold since the last line, if the picture has room for that line.
    fn look(&mut self) -> Result<(), AllocError> {
        if self.rows.len() <= MAX_ROWS {
            let line = self.rows.len();
            self.watch.look(self.interpreter.world(), line)?;
        }
        Ok(())
    }

    // The message no longer waits. Whether it did.
    fn pass(&mut self, number: u64) -> bool {
        match self.is_past.get_mut(number.wrapping_sub(1) as usize) {
            Some(past) => {
                let waited = !*past;
                *past = true;
                waited
            }
            None => false,
        }
    }

    // Notes what becomes of the message of this number.
    fn arrow(&mut self, number: u64, fate: Fate) -> Result<(), AllocError> {
        let Some(message) = self.interpreter.world().message(number) else {
            return Ok(());
        };
        let (from, to, label) = match message {
            Message::ToServer(message) => {
                let label = Label::of_message_to_server(self.alloc, message)?;
                (Node::Client(message.client), Node::Server, label)
            }
            Message::ToClient(message) => {
                let label = Label::of_message_to_client(self.alloc, message)?;
                (Node::Server, Node::Client(message.client), label)
            }
        };
        let Label {
            short: label,
            whole,
            is_quiet,
        } = label;
        let fate = if fate != Fate::Lost && !is_up(self.interpreter.world(), to) {
            Fate::Unread
        } else {
            fate
        };
        self.note(Row::Arrow(Arrow {
            number,
            from,
            to,
            fate,
            is_quiet,
            label,
            whole,
        }))
    }

    // Does what is asked for, and notes what it printed; answers whether it printed nothing.
    fn obey(&mut self, request: Request) -> Result<bool, AllocError> {
        let printed = self.interpreter.obey(request)?;
        self.count()?;
        self.print(printed.as_bytes())?;
        Ok(printed.is_empty())
    }

    // Delivers the oldest message that waits; answers whether that went well.
    fn deliver_oldest(&mut self) -> Result<bool, AllocError> {
        let Some(number) = self.interpreter.oldest() else {
            return Ok(false);
        };
        let at = self.rows.len();
        self.arrow(number, Fate::Delivered)?;
        if self.obey(Request::Next(1))? {
            self.pass(number);
            self.look()?;
            return Ok(true);
        }
        // It was refused, and the message continues to wait.
        if at < self.rows.len() && at < MAX_ROWS {
            self.rows.remove(at);
        }
        Ok(false)
    }

    fn deliver_many(&mut self, most: u64) -> Result<(), AllocError> {
        for _ in 0..most {
            if !self.deliver_oldest()? {
                return Ok(());
            }
        }
        Ok(())
    }

    fn settle(&mut self) -> Result<(), AllocError> {
        for _ in 0..MAX_DELIVERIES {
            if !self.deliver_oldest()? {
                return Ok(());
            }
        }
        if self.interpreter.oldest().is_some() {
            self.print(b"unsettled")?;
        }
        Ok(())
    }

    fn deliver(&mut self, number: u64) -> Result<(), AllocError> {
        let waited = self.is_past.get(number.wrapping_sub(1) as usize) == Some(&false);
        let fate = if waited {
            Fate::Delivered
        } else {
            Fate::Repeated
        };
        self.arrow(number, fate)?;
        if self.obey(Request::Deliver(number))? {
            self.pass(number);
        }
        Ok(())
    }

    // Drops every message that waits.
    fn lose(&mut self) -> Result<(), AllocError> {
        for number in 1..=self.interpreter.world().sent() {
            if self.pass(number) {
                self.arrow(number, Fate::Lost)?;
            }
        }
        self.obey(Request::Drop)?;
        Ok(())
    }

    fn step(&mut self, step: Step) -> Result<(), AllocError> {
        let taken = step;
        let mark = mark_of(&taken);
        if self.obey(Request::Step(step))? {
            if let Some(mark) = mark {
                self.note(mark)?;
            }
        }
        Ok(())
    }

    // Does what a line of the script asks for.
    fn act(&mut self, request: Request) -> Result<(), AllocError> {
        match request {
            Request::Settle => self.settle(),
            Request::Next(most) => self.deliver_many(most),
            Request::Deliver(number) => self.deliver(number),
            Request::Drop => self.lose(),
            Request::Step(step) => self.step(step),
            other => {
                self.obey(other)?;
                Ok(())
            }
        }?;
        self.look()
    }

    fn line(&mut self, number: u64, line: &[u8]) -> Result<(), LineFault> {
        let request = self.interpreter.request(number, line)?;
        if matches!(request, Request::Nothing) {
            return Ok(());
        }
        let copy = Vec::from_slice(self.alloc, line)?;
        self.note(Row::Line(copy))?;
        self.act(request)?;
        Ok(())
    }

    fn run(&mut self, script: &[u8]) -> Result<(), ScriptFault> {
        let mut rest = script;
        for number in 1..u64::MAX {
            if rest.is_empty() {
                return Ok(());
            }
            let (line, after) = first_line(rest);
            match self.line(number, line) {
                Ok(()) => {}
                Err(LineFault::Syntax(what)) => return Err(ScriptFault::Syntax {
                    line: number,
                    what,
                }),
                Err(LineFault::OutOfMemory) => return Err(ScriptFault::OutOfMemory),
            }
            rest = after;
        }
        Ok(())
    }
}

// Reads a script to its end, and runs it. Gives what happened, and how the script ended.
fn record<R: Source>(
    alloc: Global,
    reader: &mut R,
) -> Result<(Recorder, Result<(), ScriptFault>), ScriptFault> {
    let script = read_text(alloc, reader)?;
    if script.len() > MAX_TEXT {
        let what = SyntaxFault::TextTooLong;
        return Err(ScriptFault::Syntax { line: 0, what });
    }
    let mut recorder = Recorder::new(alloc)?;
    let ended = recorder.run(&script);
    Ok((recorder, ended))
}

/// Reads a script to its end, runs it, and writes a picture of the run in plain text of at most 120
/// columns. It shows all that happened before a fault.
///
/// # Errors
///
/// Those of `run_script`.
pub fn write_picture<R: Source, W: Sink>(
    alloc: Global,
    reader: &mut R,
    writer: &mut W,
) -> Result<(), ScriptFault> {
    let (recorder, ended) = record(alloc, reader)?;
    let picture = draw_text(alloc, &recorder.rows)?;
    write_line(writer, &picture)?;
    ended
}

/// The same, but the picture is a drawing in SVG.
///
/// # Errors
///
/// Those of `run_script`.
pub fn write_drawing<R: Source, W: Sink>(
    alloc: Global,
    reader: &mut R,
    writer: &mut W,
) -> Result<(), ScriptFault> {
    let (recorder, ended) = record(alloc, reader)?;
    let drawing = draw_svg(alloc, &recorder.rows, &recorder.watch.history)?;
    write_line(writer, &drawing)?;
    ended
}
