//! One of those who share a channel under the rule that asks nothing.
ghost use Rattle.std.specs.Prelude.{IfOk};
ghost use Rattle.ruled_channel.specs.Passes.{IsPassOf};

use ruled_channel::{Group, RuledChannel, Split, Unruled};
use std::sync::Wait;

pub type Channel = RuledChannel<u32, (), Unruled>;

pub type Pass = ruled_channel::Pass<u32, ()>;

/// A view that knows nothing is cut in two that know nothing.
pub struct Halves;

impl Split<()> for Halves {
    ghost left = { λ v. v };

    ghost right = { λ v. v };
}

/// A channel, and a pass of it.
#[derive(Drop)]
pub struct Party<'c> {
    channel: &'c Channel,
    pass: Pass,
    ghost owns: { IsPassOf channel.now pass },
}

impl<'c> Party<'c> {
    pub fn new(channel: &'c Channel, pass: Pass) -> Party<'c>
        requires { IsPassOf channel.now pass }
    {
        Party { channel, pass }
    }

    /// One more.
    pub fn another(&mut self) -> Party<'c> {
        let channel = self.channel;
        let pass = channel.another::<Halves>(&mut self.pass);
        Party { channel, pass }
    }

    /// Whether a message went in.
    pub fn send<R: Wait>(&mut self, rt: &R, message: u32) -> bool {
        let channel = self.channel;
        let sent = channel.send_blocking_as::<Unruled, Unruled, R>(rt, &mut self.pass, message);
        sent == Ok(Ok(()))
    }

    /// Whether a message went in at once.
    pub fn try_send<R: Wait>(&mut self, rt: &R, message: u32) -> bool {
        let channel = self.channel;
        let sent = channel.try_send_as::<Unruled, Unruled, R>(rt, &mut self.pass, message);
        sent == Ok(Ok(()))
    }

    /// The next message, or none if the channel is closed and empty.
    pub fn receive<R: Wait>(&mut self, rt: &R) -> Option<u32> {
        let channel = self.channel;
        match channel.recv_blocking_as::<Unruled, Unruled, R>(rt, &mut self.pass) {
            Ok(Ok(message)) => Some(message),
            _ => None,
        }
    }

    /// The message that is there.
    pub fn try_receive<R: Wait>(&mut self, rt: &R) -> Option<u32> {
        let channel = self.channel;
        let received = channel.try_recv_as::<Unruled, Unruled, Unruled, R>(rt, &mut self.pass);
        received.ok()
    }

    /// How many wait in the group, and how many of them are told.
    pub fn waiting<R: Wait>(&mut self, rt: &R, group: Group) -> (usize, usize) {
        let seen = self.channel.who_waits(rt, &mut self.pass, group);
        (seen.waiting, seen.told)
    }

    pub fn drop_receiver<R: Wait>(&mut self, rt: &R) {
        self.channel
            .drop_receiver_as::<Unruled, R>(rt, &mut self.pass);
    }

    /// Whether it was open.
    pub fn close<R: Wait>(&mut self, rt: &R) -> bool {
        self.channel.close_as::<Unruled, R>(rt, &mut self.pass)
    }
}
