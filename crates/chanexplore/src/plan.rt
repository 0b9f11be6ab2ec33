//! What the input says: the channel, the lines before the parties, and the parties' lines.
ghost use Rattle.std.specs.Prelude.{◌≡◌, [], map, IfOk};
ghost use Rattle.channel_model.specs.Capacity.{HasPositiveCapacity};
ghost use Rattle.channel_run.specs.StandsFor.{StandsFor};
ghost use Rattle.chanrun.specs.Grammar.{words_of};
ghost use Rattle.chanrun.specs.Script.{past_after_all};
ghost use Rattle.chanexplore.specs.Reading.{act_of, await_in, awaited_in, commanding};

use crate::party::{Act, Opening};
use channel_model::{Kind, OutOfMemory, Who};
use channel_run::Run;
use chanrun::grammar::{Command, Fault, LINE_LIMIT, command_of, who_of};
use chanrun::parse::cut_lines;
use chanrun::replay::answer_to;
use chanrun::script::ScriptError;
use std::alloc::{AllocError, Global};

/// What the input says.
#[derive(Drop)]
pub struct Plan {
    /// The channel.
    pub kind: Kind,
    ghost positive: { HasPositiveCapacity kind },
    /// What the lines before the parties ask for.
    pub before: Vec<Command>,
    /// What each party's lines ask for.
    pub parties: Vec<Vec<Act>>,
    /// The lines themselves.
    pub texts: Texts,
}

/// The lines of the input.
#[derive(Drop)]
pub struct Texts {
    /// Those before the parties, the first one among them.
    pub before: Vec<Vec<u8>>,
    /// The parties' names.
    pub names: Vec<Vec<u8>>,
    /// The parties' lines.
    pub lines: Vec<Vec<Vec<u8>>>,
}

fn is_name_byte(byte: u8) -> bool {
    byte.is_ascii_alphanumeric() || byte == b'_'
}

/// The name of the party that a line begins, or what is wrong with it; none for another line.
fn party_name(line: &[u8]) -> Option<Result<&[u8], Fault>> {
    if line == b"party".as_slice() {
        return Some(Err(Fault::WrongWordCount));
    }
    let name = line.strip_prefix(b"party ")?;
    if name.contains(&b' ') {
        Some(Err(Fault::WrongWordCount))
    } else if name.is_empty() || !name.iter().all(|byte| is_name_byte(*byte)) {
        Some(Err(Fault::BadName))
    } else {
        Some(Ok(name))
    }
}

// The parts of a line between single spaces.
fn split_words(alloc: Global, line: &[u8]) -> Result<Vec<&[u8]>, AllocError>
    ensures { IfOk result (λ words. map (λ word. word.now) words.items ≡ words_of line.now) }
{
    line.split(|byte| *byte == b' ').collect(alloc)
}

// The words after `await`: the one name of who is awaited.
fn awaited_in(words: &[&[u8]]) -> Result<Who, Fault>
    ensures { result ≡ awaited_in (map (λ word. word.now) words.now) }
{
    match words {
        [name] => who_of(name),
        _ => Err(Fault::WrongWordCount),
    }
}

// Who is awaited, if the first word is `await`.
fn await_in(words: &[&[u8]]) -> Option<Result<Who, Fault>>
    ensures { result ≡ await_in (map (λ word. word.now) words.now) }
{
    let [verb, others @ ..] = words else {
        return None;
    };
    if *verb == b"await".as_slice() {
        Some(awaited_in(others))
    } else {
        None
    }
}

// Who is awaited by a line, if it begins with `await`.
fn awaited(alloc: Global, line: &[u8]) -> Result<Option<Result<Who, Fault>>, AllocError>
    ensures { IfOk result (λ who. who ≡ await_in (words_of line.now)) }
{
    let words = split_words(alloc, line)?;
    Ok(await_in(words.as_slice()))
}

// A party has the commands of scripts, but it can't settle.
fn commanding(command: Result<Command, Fault>) -> Result<Act, Fault>
    ensures { result ≡ commanding command }
{
    match command {
        Ok(Command::Make(step)) => Ok(Act::Make(step)),
        Ok(Command::Notice(who)) => Ok(Act::Notice(who)),
        Ok(Command::Settle) => Err(Fault::UnknownCommand),
        Err(fault) => Err(fault),
    }
}

/// What a party's line asks for, or its first fault.
pub fn act_of(alloc: Global, line: &[u8]) -> Result<Result<Act, Fault>, AllocError>
    ensures { IfOk result (λ said. said ≡ act_of line.now) }
{
    if LINE_LIMIT < line.len() {
        return Ok(Err(Fault::LineTooLong));
    }
    if let Some(who) = awaited(alloc, line)? {
        return Ok(match who {
            Ok(who) => Ok(Act::Await(who)),
            Err(fault) => Err(fault),
        });
    }
    let command = command_of(alloc, line)?;
    Ok(commanding(command))
}

// Does the lines that stand before the parties, in order.
fn prepare_all(alloc: Global, kind: Kind, before: &[Command]) -> Result<Run<u64>, OutOfMemory>
    requires { HasPositiveCapacity kind }
    ensures { IfOk result (λ run. StandsFor kind (past_after_all kind [] before.now) run) }
{
    let mut run = Run::new(alloc, kind)?;
    for command in before {
        let _answer = answer_to(&mut run, *command)?;
    }
    Ok(run)
}

impl Opening for Plan {
    ghost use Rattle.std.specs.Prelude.{[]};
    ghost use Rattle.chanrun.specs.Script.{past_after_all};

    ghost kind = { λ plan. plan.kind };

    ghost past = { λ plan. past_after_all plan.kind [] plan.before.items };

    fn open(&self, alloc: Global) -> Result<Run<u64>, OutOfMemory> {
        prepare_all(alloc, self.kind, self.before.as_slice())
    }
}

impl Plan {
    // A channel with no line and no party yet.
    fn new(alloc: Global, kind: Kind, first: &[u8]) -> Result<Plan, AllocError>
        requires { HasPositiveCapacity kind }
    {
        let mut before = Vec::new(alloc);
        before.push(Vec::from_slice(alloc, first)?)?;
        Ok(Plan {
            kind,
            before: Vec::new(alloc),
            parties: Vec::new(alloc),
            texts: Texts {
                before,
                names: Vec::new(alloc),
                lines: Vec::new(alloc),
            },
        })
    }

    // Whether a party has this name.
    fn has_party(&self, name: &[u8]) -> bool {
        self.texts
            .names
            .iter()
            .any(|other| other.as_slice() == name)
    }

    // Begins a party.
    fn add_party(&mut self, alloc: Global, name: &[u8]) -> Result<Result<(), Fault>, AllocError> {
        if self.has_party(name) {
            return Ok(Err(Fault::BadName));
        }
        self.parties.push(Vec::new(alloc))?;
        self.texts.names.push(Vec::from_slice(alloc, name)?)?;
        self.texts.lines.push(Vec::new(alloc))?;
        Ok(Ok(()))
    }

    // Adds a line before the parties.
    fn add_before(&mut self, alloc: Global, line: &[u8]) -> Result<Result<(), Fault>, AllocError> {
        match command_of(alloc, line)? {
            Ok(command) => {
                self.before.push(command)?;
                self.texts.before.push(Vec::from_slice(alloc, line)?)?;
                Ok(Ok(()))
            }
            Err(fault) => Ok(Err(fault)),
        }
    }

    // Adds a line after the first one.
    fn add(&mut self, alloc: Global, line: &[u8]) -> Result<Result<(), Fault>, AllocError> {
        if line.len() > LINE_LIMIT {
            return Ok(Err(Fault::LineTooLong));
        }
        match party_name(line) {
            Some(Ok(name)) => return self.add_party(alloc, name),
            Some(Err(fault)) => return Ok(Err(fault)),
            None => {}
        }
        let (Some(acts), Some(texts)) = (self.parties.last_mut(), self.texts.lines.last_mut())
        else {
            return self.add_before(alloc, line);
        };
        match act_of(alloc, line)? {
            Ok(act) => {
                acts.push(act)?;
                texts.push(Vec::from_slice(alloc, line)?)?;
                Ok(Ok(()))
            }
            Err(fault) => Ok(Err(fault)),
        }
    }
}

/// What the input says, or its first fault.
pub fn plan_of(alloc: Global, input: &[u8]) -> Result<Plan, ScriptError> {
    let lines = match cut_lines(alloc, input)? {
        Ok(lines) => lines,
        Err(fault) => return Err(ScriptError::Fault { line: 1, fault }),
    };
    let mut plan = Plan::new(alloc, lines.kind, lines.first)?;
    let mut number: u64 = 1;
    for line in lines.others {
        number = number.saturating_add(1);
        if let Err(fault) = plan.add(alloc, line)? {
            return Err(ScriptError::Fault {
                line: number,
                fault,
            });
        }
    }
    Ok(plan)
}
