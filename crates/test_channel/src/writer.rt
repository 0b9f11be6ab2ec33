//! Random scripts, the same for the same seed.
//!
//! Names are drawn from a few, live or not: a line that the run refuses is made by nobody.
use crate::draw::Draw;
use std::alloc::{AllocError, Global};

/// How many names of handles there are in each space, and of operations.
const HANDLES: u64 = 3;

const OPERATIONS: u64 = 6;

/// How many messages a small batch has at most, and a large one, which takes rounds.
const SMALL: u64 = 5;

const LARGE: u64 = 300;

/// How many messages the largest channel with a bound holds: more than a round moves.
const PLACES: u64 = 200;

/// How many wait in a crowd: more than a round tells.
const CROWD: u64 = 140;

/// What stands left and right of the name of a call that moves a batch.
type Way = (&'static str, &'static str);

type Written = Result<(), AllocError>;

#[derive(Drop)]
struct Writer {
    text: String,
    draw: Draw,
    /// Whether sends are more frequent now than receives.
    fills: bool,
    /// Whether the channel may be closed before the end.
    closes: bool,
    message: u64,
}

/// A script of some lines, the first of which has this end.
pub fn script_of(alloc: Global, seed: u64, end: &str) -> Result<String, AllocError> {
    let mut draw = Draw::new(seed);
    let capacity = match draw.below(8) {
        0 | 1 => None,
        2 => Some(PLACES),
        3 => Some(2),
        4 => Some(3),
        _ => Some(1),
    };
    let mut writer = Writer {
        text: String::new(alloc),
        draw,
        fills: draw.one_in(2),
        closes: draw.one_in(2),
        message: 0,
    };
    match capacity {
        Some(capacity) => writeln!(writer.text, "bounded {capacity}{end}")?,
        None => writeln!(writer.text, "unbounded{end}")?,
    }
    if capacity == Some(PLACES) && writer.draw.one_in(4) {
        writer.add_crowd()?;
    }
    for _ in 0..writer.draw.below(90).saturating_add(10) {
        writer.add()?;
    }
    Ok(writer.text)
}

impl Writer {
    /// Lets many sends wait at a full channel, or many receives at an empty one, and moves a batch
    /// that tells them.
    fn add_crowd(&mut self) -> Written {
        let (are_sends, way) = (self.draw.one_in(2), self.way());
        if are_sends {
            self.add_many(true, way, 0, PLACES)?;
        }
        for op in 0..CROWD {
            self.begin(are_sends, op, 0)?;
            writeln!(self.text, "poll o{op}")?;
        }
        self.add_many(!are_sends, way, 0, PLACES)
    }

    fn add(&mut self) -> Written {
        if self.draw.one_in(12) {
            self.fills = !self.fills;
        }
        match self.draw.below(40) {
            0..9 => {
                let op = self.draw.below(OPERATIONS);
                writeln!(self.text, "poll o{op}")
            }
            9..12 => {
                let name = self.handle();
                writeln!(self.text, "next r{name}")
            }
            12..19 => self.start(),
            19..27 => self.single(),
            27..30 => self.batch(),
            30..32 => self.give_up(),
            32..35 => self.copy(),
            35..38 => self.drop_handle(),
            38 => writeln!(self.text, "settle"),
            _ => self.close(),
        }
    }

    /// A name, often that of the first handle.
    fn handle(&mut self) -> u64 {
        if self.draw.one_in(2) {
            return 0;
        }
        self.draw.below(HANDLES)
    }

    fn new_message(&mut self) -> u64 {
        self.message = self.message.saturating_add(1);
        self.message
    }

    /// Whether the next call is of a sender.
    fn sends(&mut self) -> bool {
        self.draw.one_in(4) != self.fills
    }

    /// Begins an operation, and mostly polls it.
    fn start(&mut self) -> Written {
        let (op, name) = (self.draw.below(OPERATIONS), self.handle());
        if self.draw.one_in(7) {
            writeln!(self.text, "closed o{op} s{name}")?;
        } else {
            let is_send = self.sends();
            self.begin(is_send, op, name)?;
        }
        if !self.draw.one_in(5) {
            writeln!(self.text, "poll o{op}")?;
        }
        Ok(())
    }

    /// Begins a send, or a receive.
    fn begin(&mut self, is_send: bool, op: u64, name: u64) -> Written {
        if !is_send {
            return writeln!(self.text, "recv o{op} r{name}");
        }
        let message = self.new_message();
        writeln!(self.text, "send o{op} s{name} {message}")
    }

    fn single(&mut self) -> Written {
        let name = self.handle();
        if self.sends() {
            let message = self.new_message();
            let verb = match self.draw.below(6) {
                0 => "send_blocking",
                1 => "force_send",
                _ => "try_send",
            };
            return writeln!(self.text, "{verb} s{name} {message}");
        }
        let verb = match self.draw.below(5) {
            0 => "recv_blocking",
            _ => "try_recv",
        };
        writeln!(self.text, "{verb} r{name}")
    }

    /// How many messages a batch has, or takes at most.
    fn size(&mut self) -> u64 {
        let most = if self.draw.one_in(12) { LARGE } else { SMALL };
        self.draw.below(most)
    }

    fn way(&mut self) -> Way {
        match self.draw.below(3) {
            0 => ("try_", ""),
            1 => ("", "_blocking"),
            _ => ("", ""),
        }
    }

    fn batch(&mut self) -> Written {
        let (way, name) = (self.way(), self.handle());
        if self.sends() {
            let size = self.size();
            return self.add_many(true, way, name, size);
        }
        let limit = match self.draw.below(6) {
            0 => u64::MAX,
            _ => self.size(),
        };
        if self.draw.one_in(4) {
            return writeln!(self.text, "try_iter r{name} {limit}");
        }
        self.add_many(false, way, name, limit)
    }

    /// Sends so many messages, or receives so many at most.
    fn add_many(&mut self, is_send: bool, way: Way, name: u64, size: u64) -> Written {
        let (left, right) = way;
        if !is_send {
            return writeln!(self.text, "{left}recv_many{right} r{name} {size}");
        }
        let first = self.message.saturating_add(1);
        self.message = self.message.saturating_add(size);
        writeln!(self.text, "{left}send_many{right} s{name} {first} {size}")
    }

    fn give_up(&mut self) -> Written {
        let op = self.draw.below(OPERATIONS);
        let verb = match self.draw.below(3) {
            0 => "into_msg",
            _ => "drop",
        };
        writeln!(self.text, "{verb} o{op}")
    }

    fn copy(&mut self) -> Written {
        let (of, new) = (self.handle(), self.handle());
        let (call, letters) = match self.draw.below(10) {
            0 | 1 => ("clone s", "s"),
            2 | 3 => ("clone r", "r"),
            4 => ("downgrade s", "ws"),
            5 => ("downgrade r", "wr"),
            6 => ("upgrade ws", "s"),
            7 => ("upgrade wr", "r"),
            8 => ("clone ws", "ws"),
            _ => ("clone wr", "wr"),
        };
        writeln!(self.text, "{call}{of} {letters}{new}")
    }

    /// Gives a handle up. If the channel isn't to be closed, the first ones stay.
    fn drop_handle(&mut self) -> Written {
        let name = self.handle().saturating_add(u64::from(!self.closes));
        let letters = match self.draw.below(6) {
            0 | 1 => "s",
            2 | 3 => "r",
            4 => "ws",
            _ => "wr",
        };
        writeln!(self.text, "drop {letters}{name}")
    }

    fn close(&mut self) -> Written {
        let letter = if self.draw.one_in(2) { "s" } else { "r" };
        let (verb, name) = (if self.closes { "close" } else { "len" }, self.handle());
        writeln!(self.text, "{verb} {letter}{name}")
    }
}
