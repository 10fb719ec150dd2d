//! Reading a file: its scenes, with every message and answer to the byte.
use crate::due::{Due, read_due};
use crate::expanding::Names;
use crate::fault::Fault;
use crate::headings::read_heading;
use crate::puts::{Puts, read_puts};
use crate::requests::{Request, message_of, read_request, read_times};
use crate::scenes::{Example, Kind, Scene, Step};
use crate::ways::WAYS;
use std::alloc::Global;

/// A line that can't be read.
#[derive(Clone, Copy)]
pub struct Unread {
    pub line: usize,
    pub fault: Fault,
}

/// How often a request is sent: without a word on it, once.
#[derive(Clone, Copy)]
struct Times(Option<u32>);

impl Times {
    fn number(self) -> u32 {
        self.0.unwrap_or(1)
    }

    /// What `%{n}` stands for.
    fn count(self, place: u32) -> Option<u32> {
        self.0.map(|_| place)
    }
}

/// The lines that the next line may belong to.
#[derive(Drop)]
enum Open<'a> {
    Nothing,
    Request(usize, Times, Request<'a>),
    /// A message by hand.
    Bytes(usize, Times, Vec<&'a str>),
    Report(usize, Kind, Vec<&'a str>),
}

/// Reads the lines of a file one after another.
#[derive(Drop)]
struct Reader<'a> {
    alloc: Global,
    names: Names,
    scenes: Vec<Scene>,
    open: Open<'a>,
    /// Whose entries the open request puts, as it stands in the file.
    puts: Option<&'a str>,
}

/// The text of a line below `send` or `report`.
fn block_text(line: &str) -> Option<&str> {
    let text = line.strip_prefix("  |")?;
    Some(text.strip_prefix(" ").unwrap_or(text))
}

fn add_step(scenes: &mut Vec<Scene>, step: Step) -> Result<(), Fault> {
    let Some(scene) = scenes.last_mut() else {
        return Err(Fault::Because("a line before the first scene"));
    };
    scene.steps.push(step)?;
    Ok(())
}

/// The bytes of lines, each but the last ended by CR LF.
fn block_bytes(
    alloc: Global,
    names: &Names,
    lines: &[&str],
    count: Option<u32>,
) -> Result<Vec<u8>, Fault> {
    let mut whole = Vec::new(alloc);
    for (place, line) in lines.iter().enumerate() {
        if place > 0 {
            whole.extend_from_slice(b"\r\n")?;
        }
        let text = names.expanded(line, count)?;
        whole.extend_from_slice(text.as_slice())?;
    }
    Ok(whole)
}

/// The text of a report: each line is ended by LF.
fn report_text(alloc: Global, names: &Names, lines: &[&str]) -> Result<Vec<u8>, Fault> {
    let mut whole = Vec::new(alloc);
    for line in lines {
        let text = names.expanded(line, None)?;
        whole.extend_from_slice(text.as_slice())?;
        whole.push(b'\n')?;
    }
    Ok(whole)
}

impl<'a> Reader<'a> {
    fn new(alloc: Global) -> Reader<'a> {
        Reader {
            alloc,
            names: Names::new(alloc),
            scenes: Vec::new(alloc),
            open: Open::Nothing,
            puts: None,
        }
    }

    /// Takes the next line.
    fn take(&mut self, line: usize, text: &'a str) -> Result<(), Unread> {
        if let Some(text) = block_text(text) {
            return at(line, self.take_block(text));
        }
        if let Some(text) = text.strip_prefix("  ") {
            return at(line, self.take_below(text));
        }
        self.finish()?;
        at(line, self.begin(line, text))
    }

    /// Ends what the line before may have left open.
    fn finish(&mut self) -> Result<(), Unread> {
        let open = std::mem::replace(&mut self.open, Open::Nothing);
        match &open {
            Open::Nothing => Ok(()),
            Open::Request(line, _, _) | Open::Bytes(line, _, _) => Err(Unread {
                line: *line,
                fault: Fault::Because("the due answer is missing"),
            }),
            Open::Report(line, kind, lines) => at(
                *line,
                self.add_report(*line, *kind, lines.as_slice()),
            ),
        }
    }

    fn add_report(&mut self, line: usize, kind: Kind, lines: &[&str]) -> Result<(), Fault> {
        if lines.is_empty() {
            return Err(Fault::Because("the report's lines are missing"));
        }
        let due = report_text(self.alloc, &self.names, lines)?;
        add_step(&mut self.scenes, Step::Report { line, kind, due })
    }

    /// What `%{n}` stands for in the block that is open.
    fn block_count(&self) -> Option<u32> {
        match &self.open {
            Open::Bytes(_, times, _) => times.count(0),
            _ => None,
        }
    }

    fn take_block(&mut self, text: &'a str) -> Result<(), Fault> {
        // Here, so that a `%{..}` that stands for nothing is told of its own line.
        let _ = self.names.expanded(text, self.block_count())?;
        match &mut self.open {
            Open::Bytes(_, _, lines) | Open::Report(_, _, lines) => {
                lines.push(text)?;
                Ok(())
            }
            _ => Err(Fault::Because("a line of a block stands alone")),
        }
    }

    /// A line below a request: whose entries it puts, or the answer that is due.
    fn take_below(&mut self, text: &'a str) -> Result<(), Fault> {
        match text.strip_prefix("puts ") {
            Some(text) => self.take_puts(text),
            None => self.take_due(text),
        }
    }

    fn take_puts(&mut self, text: &'a str) -> Result<(), Fault> {
        let times = match &self.open {
            Open::Request(_, times, _) if self.puts.is_none() => *times,
            _ => return Err(Fault::Because("'puts' stands alone")),
        };
        // Here, so that what can't be read is told of its own line.
        let _ = self.puts_of(Some(text), times.count(0))?;
        self.puts = Some(text);
        Ok(())
    }

    fn puts_of(&self, text: Option<&str>, count: Option<u32>) -> Result<Option<Puts>, Fault> {
        let Some(text) = text else {
            return Ok(None);
        };
        let text = self.names.expanded(text, count)?;
        let text = String::from_utf8_lossy(self.alloc, text.as_slice())?;
        Ok(Some(read_puts(self.alloc, text.as_str())?))
    }

    /// The answer that is due to the request in the lines before.
    fn take_due(&mut self, text: &str) -> Result<(), Fault> {
        let open = std::mem::replace(&mut self.open, Open::Nothing);
        match &open {
            Open::Request(line, times, request) => self.add_requests(*line, *times, request, text),
            Open::Bytes(line, times, lines) => self.add_messages(
                *line,
                *times,
                lines.as_slice(),
                text,
            ),
            _ => Err(Fault::Because("a due answer stands alone")),
        }
    }

    fn due(&self, text: &str, count: Option<u32>) -> Result<Due, Fault> {
        let (head, body) = read_due(text)?;
        Due::new(self.alloc, head, self.names.expanded(body, count)?)
    }

    fn add_example(
        &mut self,
        line: usize,
        sent: Vec<u8>,
        due: Due,
        puts: Option<Puts>,
    ) -> Result<(), Fault> {
        let example = Example {
            line,
            sent,
            due,
            puts,
        };
        add_step(&mut self.scenes, Step::Ask(example))
    }

    /// The message of a request, in the scene that is being read.
    fn message(&mut self, request: &Request<'_>, count: Option<u32>) -> Result<Vec<u8>, Fault> {
        let body = self.names.expanded(request.body(), count)?;
        let Some(scene) = self.scenes.last_mut() else {
            return Err(Fault::Because("a line before the first scene"));
        };
        message_of(self.alloc, &mut scene.numbers, request, body.as_slice())
    }

    fn add_requests(
        &mut self,
        line: usize,
        times: Times,
        request: &Request<'_>,
        due: &str,
    ) -> Result<(), Fault> {
        let puts = self.puts.take();
        for place in 0..times.number() {
            let sent = self.message(request, times.count(place))?;
            self.add_answered(line, sent, due, puts, times.count(place))?;
        }
        Ok(())
    }

    /// Adds a message, and reads what is due to it.
    fn add_answered(
        &mut self,
        line: usize,
        sent: Vec<u8>,
        due: &str,
        puts: Option<&str>,
        count: Option<u32>,
    ) -> Result<(), Fault> {
        let due = self.due(due, count)?;
        let puts = self.puts_of(puts, count)?;
        self.add_example(line, sent, due, puts)
    }

    fn add_messages(
        &mut self,
        line: usize,
        times: Times,
        lines: &[&str],
        due: &str,
    ) -> Result<(), Fault> {
        for place in 0..times.number() {
            let count = times.count(place);
            let sent = block_bytes(self.alloc, &self.names, lines, count)?;
            self.add_answered(line, sent, due, None, count)?;
        }
        Ok(())
    }

    /// A line that stands at the margin.
    fn begin(&mut self, line: usize, text: &'a str) -> Result<(), Fault> {
        if text.is_empty() || text.starts_with('#') {
            return Ok(());
        }
        if let Some(text) = text.strip_prefix("let ") {
            return self.names.add(text);
        }
        if let Some(text) = text.strip_prefix("== ") {
            return self.begin_scene(line, text);
        }
        if self.scenes.is_empty() {
            return Err(Fault::Because("a line before the first scene"));
        }
        self.begin_step(line, text)
    }

    fn begin_scene(&mut self, line: usize, text: &str) -> Result<(), Fault> {
        let scene = read_heading(self.alloc, self.scenes.as_slice(), line, text)?;
        self.scenes.push(scene)?;
        Ok(())
    }

    fn begin_step(&mut self, line: usize, text: &'a str) -> Result<(), Fault> {
        match text {
            "reopen" => add_step(&mut self.scenes, Step::Reopen),
            "report access" => self.begin_report(line, Kind::Access),
            "report lists" => self.begin_report(line, Kind::Lists),
            _ => match text.strip_prefix("next ") {
                Some(number) => self.add_next(number),
                None => self.begin_request(line, text),
            },
        }
    }

    fn begin_report(&mut self, line: usize, kind: Kind) -> Result<(), Fault> {
        self.open = Open::Report(line, kind, Vec::new(self.alloc));
        Ok(())
    }

    /// Sets the next object number.
    fn add_next(&mut self, number: &str) -> Result<(), Fault> {
        let Ok(number) = number.parse::<u32>() else {
            return Err(Fault::Because("'next' without a number"));
        };
        add_step(&mut self.scenes, Step::Next(number))
    }

    fn begin_request(&mut self, line: usize, text: &'a str) -> Result<(), Fault> {
        let (times, text) = match read_times(text) {
            Some((times, text)) => (Times(Some(times)), text),
            None => (Times(None), text),
        };
        self.open = if text == "send" {
            Open::Bytes(line, times, Vec::new(self.alloc))
        } else {
            self.request(line, times, text)?
        };
        Ok(())
    }

    fn request(&self, line: usize, times: Times, text: &'a str) -> Result<Open<'a>, Fault> {
        let request = read_request(text)?;
        // Here, so that a `%{..}` that stands for nothing is told of its own line.
        let _ = self.names.expanded(request.body(), times.count(0))?;
        Ok(Open::Request(line, times, request))
    }
}

fn at<T: Drop>(line: usize, outcome: Result<T, Fault>) -> Result<T, Unread> {
    match outcome {
        Ok(value) => Ok(value),
        Err(fault) => Err(Unread { line, fault }),
    }
}

/// Why a scene shows nothing, if it does.
fn emptiness(scene: &Scene) -> Option<&'static str> {
    if scene.steps.is_empty() {
        return Some("a scene without lines");
    }
    if WAYS.iter().all(|(_, way)| scene.left_out.contains(way)) {
        return Some("a scene that is played in no way");
    }
    None
}

/// A file without scenes, or a scene that shows nothing, is none.
fn something_is_there(scenes: &[Scene]) -> Result<(), Unread> {
    if scenes.is_empty() {
        return Err(Unread {
            line: 1,
            fault: Fault::Because("a file without scenes"),
        });
    }
    for scene in scenes {
        if let Some(why) = emptiness(scene) {
            return Err(Unread {
                line: scene.line,
                fault: Fault::Because(why),
            });
        }
    }
    Ok(())
}

/// The scenes of a file.
pub fn read_scenes(alloc: Global, text: &str) -> Result<Vec<Scene>, Unread> {
    let mut reader = Reader::new(alloc);
    for (place, line) in text.split('\n').enumerate() {
        reader.take(place.saturating_add(1), line)?;
    }
    reader.finish()?;
    something_is_there(reader.scenes.as_slice())?;
    Ok(reader.scenes)
}
