//! Tasks on the kit's executors.
ghost use Rattle.futures.specs.Task.{Keeps};

use crate::report::{Ends, Form, both_ways, channel, row};
use anyhow::Result;
use async_channel::{Receiver, Recv, Send, Sender};
use futures::Future;
use futures::executor::{LocalPool, LocalSpawner, block_on};
use futures::future::join;
use futures::task::{Context, Poll};
use std::alloc::AllocGlobal;
use std::random::RandomSource;
use std::rt::Clock;
use std::sync::Wait;
use std::time::Instant;

const ROUNDS: u64 = 100_000;

/// Polls a send and then a receive, and answers whether both were ready.
fn ready_pair<R>(ends: &Ends<R>, number: u64, cx: &mut Context<'_>) -> bool
where
    R: Wait + Clone + Drop,
    ensures { Keeps cx.old cx.new }
{
    let mut send = ends.sender.send(number);
    let mut recv = ends.receiver.recv();
    let sent = matches!(&send.poll(cx), Poll::Ready(_));
    let received = matches!(&recv.poll(cx), Poll::Ready(_));
    sent && received
}

/// A future that polls sends and receives, each of which is ready.
#[derive(Drop)]
struct ReadyPolls<'a, R: Wait + Clone + Drop> {
    ends: &'a Ends<R>,
}

impl<R: Wait + Clone + Drop> Future for ReadyPolls<'_, R> {
    type Output = bool;

    fn poll(&mut self, cx: &mut Context<'_>) -> Poll<bool> {
        let ends = self.ends;
        let mut ready = true;
        for number in 0..ROUNDS {
            ready = ready_pair(ends, number, cx) && ready;
        }
        Poll::Ready(ready)
    }
}

/// What a player is at.
#[derive(Drop)]
enum Doing<'a, R: Wait + Clone + Drop> {
    Sends(Send<'a, u64, R>),
    Receives(Recv<'a, u64, R>),
}

/// Sends to one channel and receives from another, in turn or one of the two alone.
#[derive(Drop)]
struct Player<'a, R: Wait + Clone + Drop> {
    sender: &'a Sender<u64, R>,
    receiver: &'a Receiver<u64, R>,
    doing: Doing<'a, R>,
    /// Whether it does the other after each.
    turns: bool,
    left: u64,
}

fn make_player<'a, R: Wait + Clone + Drop>(
    to: &'a Ends<R>,
    from: &'a Ends<R>,
    first: bool,
) -> Player<'a, R> {
    let (sender, receiver) = (&to.sender, &from.receiver);
    Player {
        sender,
        receiver,
        doing: if first {
            Doing::Sends(sender.send(0))
        } else {
            Doing::Receives(receiver.recv())
        },
        turns: true,
        left: 2 * ROUNDS,
    }
}

impl<'a, R: Wait + Clone + Drop> Future for Player<'a, R> {
    type Output = ();

    fn poll(&mut self, cx: &mut Context<'_>) -> Poll<()> {
        for _ in 0..u64::MAX {
            if self.left == 0 {
                return Poll::Ready(());
            }
            let (is_ready, sent) = match &mut self.doing {
                Doing::Sends(send) => (matches!(&send.poll(cx), Poll::Ready(_)), true),
                Doing::Receives(recv) => (matches!(&recv.poll(cx), Poll::Ready(_)), false),
            };
            if !is_ready {
                return Poll::Pending;
            }
            let (sender, receiver) = (self.sender, self.receiver);
            self.doing = if sent == self.turns {
                Doing::Receives(receiver.recv())
            } else {
                Doing::Sends(sender.send(self.left))
            };
            self.left -= 1;
        }
        Poll::Ready(())
    }
}

pub fn all<R>(rt: &R, form: Form<'_>) -> Result<()>
where
    R: Wait + Clone + Drop + AllocGlobal + Clock + Print + RandomSource,
{
    ready(rt, form, &channel(rt, Some(16))?)?;
    joined(rt, form, &both_ways(rt)?)?;
    pooled(rt, form, &both_ways(rt)?)?;
    crowd(rt, form, &channel(rt, Some(16))?)
}

fn ready<R>(rt: &R, form: Form<'_>, ends: &Ends<R>) -> Result<()>
where
    R: Wait + Clone + Drop + AllocGlobal + Clock + Print + RandomSource,
{
    let work = ("5 executor block_on, send+recv ready", "");
    let start = Instant::now(rt)?;
    let ready = block_on(rt, ReadyPolls { ends })?;
    row(rt, form, work, ROUNDS, start, u64::from(ready))
}

fn joined<R>(rt: &R, form: Form<'_>, (there, back): &(Ends<R>, Ends<R>)) -> Result<()>
where
    R: Wait + Clone + Drop + AllocGlobal + Clock + Print + RandomSource,
{
    let work = ("5 executor block_on(join), ping-pong", "");
    let start = Instant::now(rt)?;
    block_on(
        rt,
        join(
            make_player(there, back, true),
            make_player(back, there, false),
        ),
    )?;
    row(rt, form, work, 2 * ROUNDS, start, 0)
}

/// A player on the heap. A pool moves a task at each poll: so it moves a pointer, as Rust's does.
#[derive(Drop)]
struct Boxed<'a, R: Wait + Clone + Drop> {
    player: Box<Player<'a, R>>,
}

impl<'a, R: Wait + Clone + Drop> Future for Boxed<'a, R> {
    type Output = ();

    fn poll(&mut self, cx: &mut Context<'_>) -> Poll<()> {
        self.player.poll(cx)
    }
}

/// Spawns a player, and answers how many were spawned.
fn spawn<'a, R>(rt: &R, spawner: &LocalSpawner<Boxed<'a, R>>, player: Player<'a, R>) -> u64
where
    R: Wait + Clone + Drop + AllocGlobal,
{
    let Ok(player) = Box::new(rt.alloc(), player) else {
        return 0;
    };
    u64::from(spawner.spawn(Boxed { player }).is_ok())
}

fn pooled<R>(rt: &R, form: Form<'_>, (there, back): &(Ends<R>, Ends<R>)) -> Result<()>
where
    R: Wait + Clone + Drop + AllocGlobal + Clock + Print + RandomSource,
{
    let work = ("5 executor LocalPool, ping-pong", "");
    let mut pool = LocalPool::new(rt)?;
    let spawner = pool.spawner()?;
    let start = Instant::now(rt)?;
    let first = spawn(rt, &spawner, make_player(there, back, true));
    let second = spawn(rt, &spawner, make_player(back, there, false));
    pool.run(rt);
    row(
        rt,
        form,
        work,
        2 * ROUNDS,
        start,
        first.wrapping_add(second),
    )
}

const TASKS: u64 = 1_000;

/// How many messages each of them receives.
const EACH: u64 = 100;

/// Spawns tasks that receive from one channel, and one that sends.
fn spawn_crowd<'a, R: Wait + Clone + Drop + AllocGlobal>(
    rt: &R,
    spawner: &LocalSpawner<Boxed<'a, R>>,
    ends: &'a Ends<R>,
) -> u64 {
    let (sender, receiver) = (&ends.sender, &ends.receiver);
    let mut spawned = 0u64;
    for number in 0..=TASKS {
        let (doing, left) = if number < TASKS {
            (Doing::Receives(receiver.recv()), EACH)
        } else {
            (Doing::Sends(sender.send(0)), TASKS * EACH)
        };
        let player = Player {
            sender,
            receiver,
            doing,
            turns: false,
            left,
        };
        spawned = spawned.wrapping_add(spawn(rt, spawner, player));
    }
    spawned
}

fn crowd<R>(rt: &R, form: Form<'_>, ends: &Ends<R>) -> Result<()>
where
    R: Wait + Clone + Drop + AllocGlobal + Clock + Print + RandomSource,
{
    let work = ("5 executor LocalPool, 1,000 tasks on one channel", "");
    let mut pool = LocalPool::new(rt)?;
    let spawner = pool.spawner()?;
    let start = Instant::now(rt)?;
    let spawned = spawn_crowd(rt, &spawner, ends);
    pool.run(rt);
    row(rt, form, work, TASKS * EACH, start, spawned)
}
