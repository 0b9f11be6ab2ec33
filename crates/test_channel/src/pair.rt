//! One script, made by a channel and by a run.
//!
//! A line that has a `/` in it is wrong on purpose: the run makes what stands before it, and the
//! channel what stands behind.
ghost use Rattle.std.specs.Prelude.{IfOk};
ghost use Rattle.channel_model.specs.Capacity.{HasPositiveCapacity};

use crate::Sums;
use crate::answer::Answer;
use crate::handles::{Handles, Waiting};
use crate::judge::Judge;
use crate::line::{Line, line_of};
use crate::refused::{rest_of, wants_memory};
use anyhow::{Result, anyhow};
use async_channel::Group;
use async_channel::inspect::Waiters;
use channel_model::{Kind, Notice, Reply, Side, Step};
use chanrun::grammar::kind_of;
use chanrun::reply_text::{ReplyText, WhoText};
use std::alloc::{AllocGlobal, Global};
use std::random::RandomSource;
use std::sync::Wait;

/// What came of a line.
#[derive(Drop)]
pub enum Made {
    Answered(Answer),
    /// What differs.
    Differs(String),
}

/// A channel whose handles have names, and the run that judges it.
#[derive(Drop)]
pub struct Pair<'a, R: Wait + Clone + Drop> {
    alloc: Global,
    judge: Judge,
    handles: Handles<'a, R>,
    /// Whether a call was refused memory, and made again.
    pub was_refused: bool,
}

const GROUPS: [Group; 4] = [
    Group::Sends,
    Group::Receives,
    Group::Streams,
    Group::Closeds,
];

/// The questions that each sender and each receiver answers.
fn questions(side: Side) -> [Step<u64>; 7] {
    [
        Step::IsClosed(side),
        Step::IsEmpty(side),
        Step::IsFull(side),
        Step::Len(side),
        Step::SenderCount(side),
        Step::ReceiverCount(side),
        Step::Capacity(side),
    ]
}

/// Which channel a line makes.
fn channel_of(alloc: Global, line: &str) -> Result<Kind>
    ensures { IfOk result HasPositiveCapacity }
{
    match kind_of(alloc, line.as_bytes())? {
        Ok(kind) => Ok(kind),
        Err(_) => Err(anyhow!("{line}: no channel")),
    }
}

impl<'a, R: Wait + Clone + Drop + RandomSource + AllocGlobal> Pair<'a, R> {
    /// The channel that a script's first line makes.
    pub fn new(rt: &'a R, line: &str) -> Result<Pair<'a, R>> {
        let (of_run, of_channel) = line.split_once('/').unwrap_or((line, line));
        Ok(Pair {
            alloc: rt.alloc(),
            judge: Judge::new(rt.alloc(), channel_of(rt.alloc(), of_run.trim())?)?,
            handles: Handles::new(rt, channel_of(rt.alloc(), of_channel.trim())?)?,
            was_refused: false,
        })
    }

    /// Makes a line with both, and compares.
    pub fn make(&mut self, text: &str) -> Result<Made> {
        let (of_run, of_channel) = text.split_once('/').unwrap_or((text, text));
        let made = match line_of(self.alloc, of_run.trim())? {
            Line::Settle => self.settle()?,
            line => {
                let expected = self.judge.make(line)?;
                self.compare(of_channel.trim(), expected)?
            }
        };
        if let Made::Answered(answer) = &made
            && answer.is_made()
            && let Some(difference) = self.difference()?
        {
            return Ok(Made::Differs(difference));
        }
        Ok(made)
    }

    /// Makes a line with the channel, and compares its answer.
    fn compare(&mut self, text: &str, expected: Answer) -> Result<Made> {
        let line = line_of(self.alloc, text)?;
        if !expected.is_made() || matches!(&expected, Answer::Noticed(_)) {
            return Ok(Made::Answered(expected));
        }
        let mut answer = self.call(text, line)?;
        if let Some(rest) = rest_of(line, &answer, &expected) {
            self.was_refused = true;
            answer = answer.and(self.call(text, rest)?)?;
        }
        if answer == expected {
            return Ok(Made::Answered(answer));
        }
        let (answer, expected) = (answer.text(self.alloc)?, expected.text(self.alloc)?);
        let text = format!(in self.alloc; "{answer} in place of {expected}")?;
        Ok(Made::Differs(text))
    }

    /// Makes a call. One that is refused memory changes nothing, and is made again.
    fn call(&mut self, text: &str, line: Line) -> Result<Answer> {
        let before = self.shown()?;
        match self.handles.make(line) {
            Ok(answer) if !wants_memory(line, &answer) => return Ok(answer),
            _ => self.was_refused = true,
        }
        if self.shown()? != before {
            return Err(anyhow!("{text} changed something, but was refused memory"));
        }
        self.handles
            .make(line)
            .map_err(|_| anyhow!("{text} was refused memory twice"))
    }

    /// What the channel says of itself, who waits, and who was woken.
    fn shown(&mut self) -> Result<Vec<Answer>> {
        let mut all = Vec::new(self.alloc);
        for side in self.handles.sides().into_iter().flatten() {
            for question in questions(side) {
                all.push(self.handles.make(Line::One(question))?)?;
            }
        }
        for group in GROUPS {
            let counted = self.handles.counted(group);
            all.push(Answer::Replied(Reply::Count(counted.waiting)))?;
            all.push(Answer::Replied(Reply::Count(counted.told)))?;
        }
        for one in self.handles.waiting()? {
            all.push(Answer::Replied(Reply::Flag(one.woken)))?;
        }
        Ok(all)
    }

    /// Polls those who were told, in the order in which the run does.
    fn settle(&mut self) -> Result<Made> {
        let mut ready = Vec::new(self.alloc);
        for polls in 0..u64::MAX {
            let Some((who, expected)) = self.judge.poll_first_told() else {
                return Ok(Made::Answered(Answer::Settled(polls, ready)));
            };
            let reply = self.handles.poll(who)?;
            if reply != expected {
                let (who, reply, expected) = (WhoText(who), ReplyText(reply), ReplyText(expected));
                let text = format!(in self.alloc; "poll of {who}: {reply} in place of {expected}")?;
                return Ok(Made::Differs(text));
            }
            if reply.is_ready() {
                ready.push((who, reply))?;
            }
        }
        Ok(Made::Answered(Answer::Skipped))
    }

    /// What the channel says of itself otherwise than the run does.
    fn difference(&mut self) -> Result<Option<String>> {
        for side in self.handles.sides().into_iter().flatten() {
            for question in questions(side) {
                if let Some(difference) = self.of_question(question)? {
                    return Ok(Some(difference));
                }
            }
            if let Side::Receiver(name) = side {
                if let Some(difference) = self.of_question(Step::IsTerminated(name))? {
                    return Ok(Some(difference));
                }
            }
        }
        self.of_waiting()
    }

    fn of_question(&mut self, question: Step<u64>) -> Result<Option<String>> {
        let expected = Answer::Replied(self.judge.ask(question));
        let answer = self.handles.make(Line::One(question))?;
        if answer == expected {
            return Ok(None);
        }
        let (answer, expected) = (answer.text(self.alloc)?, expected.text(self.alloc)?);
        Ok(Some(format!(in self.alloc; "then {question:?}: {answer} in place of {expected}")?))
    }

    /// Who was woken and not told, or told and not woken; and whether others wait than should.
    fn of_waiting(&self) -> Result<Option<String>> {
        let all = self.handles.waiting()?;
        for one in &all {
            let (who, is_told) = (one.who, self.judge.notice_of(one.who) == Notice::Told);
            if one.woken != is_told {
                let (who, how) = (WhoText(who), if is_told { "not woken" } else { "woken" });
                return Ok(Some(format!(in self.alloc; "then {who} is {how}")?));
            }
        }
        for group in GROUPS {
            let counted = self.handles.counted(group);
            let expected = self.expected_in(group, all.as_slice());
            if counted != expected {
                let text = format!(in self.alloc; "then {counted:?} in place of {expected:?}")?;
                return Ok(Some(text));
            }
        }
        Ok(None)
    }

    /// How many wait in a group, and how many of them were told, as the run has it.
    fn expected_in(&self, group: Group, all: &[Waiting]) -> Waiters {
        let (mut waiting, mut told) = (0usize, 0usize);
        for one in all.iter().filter(|one| one.group == group) {
            let notice = self.judge.notice_of(one.who);
            waiting = waiting.saturating_add(usize::from(notice != Notice::Absent));
            told = told.saturating_add(usize::from(notice == Notice::Told));
        }
        Waiters { waiting, told }
    }

    /// Makes a line, and answers what a row says of it, maybe with who is woken; or what differs.
    pub fn said(&mut self, text: &str, with_woken: bool) -> Result<String> {
        match self.make(text)? {
            Made::Answered(answer) if with_woken && answer.is_made() => {
                let (answer, woken) = (answer.text(self.alloc)?, self.woken_text()?);
                Ok(format!(in self.alloc; "{answer} |{woken}")?)
            }
            Made::Answered(answer) => answer.text(self.alloc),
            Made::Differs(difference) => Ok(difference),
        }
    }

    /// Those who were woken since their last poll, as a row has them.
    fn woken_text(&self) -> Result<String> {
        let mut text = String::new(self.alloc);
        for one in self.handles.waiting()?.iter().filter(|one| one.woken) {
            text.push_str(format!(in self.alloc; " {}", WhoText(one.who))?.as_str())?;
        }
        Ok(text)
    }
}

/// Makes a script up to the first difference, and answers whether there is one.
pub fn differs<R>(rt: &R, script: &[&str], sums: &mut Sums) -> Result<bool>
where
    R: Wait + Clone + Drop + RandomSource + AllocGlobal,
{
    let [first, lines @ ..] = script else {
        return Err(anyhow!("a script has no channel"));
    };
    let mut pair = Pair::new(rt, first)?;
    for line in lines {
        let made = pair.make(line)?;
        sums.was_refused |= pair.was_refused;
        let Made::Answered(answer) = made else {
            return Ok(true);
        };
        sums.lines = sums.lines.saturating_add(u64::from(answer.is_made()));
    }
    Ok(false)
}
