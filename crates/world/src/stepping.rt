//! One step of the cores: each event is one call on one of them. Those of transactions are in
//! `transacting.rt`, of what is sent in `sending.rt`, and of replicas in `replica_steps.rt`.

ghost use Rattle.std.specs.Prelude.{◌<◌, length};
ghost use Rattle.script.specs.Events.{IsPossible, IsThere};
ghost use Rattle.world.specs.Inner.CoreSteps.{HappensBeside, MayStep};
ghost use Rattle.world.specs.Inner.Invariant.{IsReady};

use crate::cores::Cores;
use crate::primary_node::PrimaryNode;
use primary::FlushFault;
use rows::ByteList;
use script::{Event, Node, Output};
use std::marker::Sync;
use std::thread::Threads;

impl Cores {
    /// Lets an event happen, by the call that it stands for, and answers its output.
    pub fn happen<R: Threads + Sync>(&mut self, rt: &R, event: &Event) -> Output
        requires ready { IsReady self.old }
        requires possible { IsPossible self.old.primary.workers (length self.old.replicas) event.now }
        ensures { MayStep self.old event.now result self.new }
    {
        match event {
            Event::Begin => self.begin(),
            Event::Insert { transaction, .. } => self.change(*transaction, event),
            Event::Set { transaction, .. } => self.change(*transaction, event),
            Event::Delete { transaction, .. } => self.change(*transaction, event),
            Event::AddColumn { transaction, .. } => self.change(*transaction, event),
            Event::Get {
                transaction,
                table,
                row,
                column,
            } => self.get(*transaction, *table, *row, *column),
            Event::Commit {
                transaction,
                worker,
            } => self.commit(*transaction, *worker),
            Event::Abort { transaction } => self.abort(*transaction),
            Event::Flush { count } => self.flush(*count),
            Event::Base => self.take_base(),
            Event::Stop { bytes } => self.stop(*bytes),
            Event::Start => self.start_again(),
            Event::Push { worker, seq } => self.push(*worker, *seq),
            Event::Deliver { index, node } => self.deliver(*index, *node),
            Event::Show { index } => self.show(*index),
            Event::Open { replica, plan } => self.open(*replica, plan),
            Event::Ask { replica } => self.ask(*replica),
            Event::Renew { replica } => self.renew(*replica),
            Event::Run { replica } => self.run(rt, *replica),
            Event::Version { replica } => self.version(*replica),
            Event::Dump { replica } => self.dump(*replica),
            Event::Restart { replica, boot } => self.restart(*replica, *boot),
            Event::Raw { node, bytes } => self.raw(*node, bytes),
        }
    }

    fn flush(&mut self, count: u32) -> Output
        ensures { HappensBeside self.old (Event.Flush count) result self.new }
    {
        let PrimaryNode::Running(primary) = &mut self.primary else {
            return Output::Stopped;
        };
        match primary.flush(count as usize) {
            Ok(durable) => Output::Durable(durable),
            Err(FlushFault::Failed) => Output::Failed,
            Err(FlushFault::Memory) => Output::Memory,
            Err(FlushFault::Journal | FlushFault::Busy | FlushFault::NotLent) => unreachable!(),
        }
    }

    fn take_base(&mut self) -> Output
        ensures { HappensBeside self.old Event.Base result self.new }
    {
        let PrimaryNode::Running(primary) = &mut self.primary else {
            return Output::Stopped;
        };
        match primary.take_base() {
            Ok((base, pieces)) => Output::Based { base, pieces },
            Err(_) => Output::Memory,
        }
    }

    fn deliver(&mut self, index: u64, node: Node) -> Output
        requires { IsThere (length self.old.replicas) node }
        ensures { MayStep self.old (Event.Deliver index node) result self.new }
    {
        match node {
            Node::Primary => self.deliver_to_primary(index),
            Node::Replica(number) => self.deliver_to_replica(index, number),
        }
    }

    /// Hands bytes to a node unchanged, unless they are a datagram that was never sent.
    fn raw(&mut self, node: Node, bytes: &ByteList) -> Output
        requires { IsThere (length self.old.replicas) node }
        ensures { MayStep self.old (Event.Raw node bytes.now) result self.new }
    {
        match node {
            Node::Primary => self.raw_to_primary(bytes.as_slice()),
            Node::Replica(number) => self.raw_to_replica(bytes.as_slice(), number),
        }
    }
}
