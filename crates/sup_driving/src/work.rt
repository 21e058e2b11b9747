//! What the threads do.
ghost use Rattle.std.specs.Prelude.{IfOk};
ghost use Rattle.sup_driving.specs.Called.{stood_by};
ghost use Rattle.sup_driving.specs.Teams.{IsReadyToSteer, IsReadyToReceive, SteersNode, ReceivesLetters};

use crate::field::Field;
use crate::runner::{Checkpoint, Runner};
use crate::teams::{Receive, Steer};
use crate::wires::{end_all, end_each};
use std::sync::Wait;
use sup_crew::Work;
use sup_links::{LinkOut, Sent};
use sup_placement::Weigh;
use sup_posts::{Seat, ThreadFault};

/// A driver's pass, and its ends of the links, in which all is put.
#[derive(Drop)]
pub(crate) struct Steered<W: Weigh> {
    pub(crate) seat: Seat<W>,
    pub(crate) sent: Vec<Sent>,
}

/// A receiver's pass, its node's place, and the link's other end, from which all is taken.
#[derive(Drop)]
pub(crate) struct Received<W: Weigh> {
    pub(crate) to: usize,
    pub(crate) seat: Seat<W>,
    pub(crate) exit: LinkOut,
}

impl<'a, R: Wait, W: Weigh, N: Runner, C: Checkpoint> Work<
    Steer<W>,
    Result<Steered<W>, ThreadFault>,
> for Field<'a, R, W, N, C> {
    ghost takes = { λ field steer. IsReadyToSteer field.posts.now steer };

    ghost gives = { λ field steer result. IfOk result (SteersNode (N.did field.runner.now) (stood_by C.was_before C.was_answered field.checkpoint.now) field.posts.now steer) };

    fn run(&self, steer: Steer<W>) -> Result<Steered<W>, ThreadFault> {
        let Steer {
            at,
            mut seat,
            commands,
            mut wires,
        } = steer;
        // The links end also where it gives up: the receivers behind them then find their end.
        match self.drive(&self.posts[at], &mut seat, commands, &mut wires) {
            Ok(()) => {
                let sent = end_all(self.rt, self.alloc, wires)?;
                Ok(Steered { seat, sent })
            }
            Err(fault) => {
                end_each(self.rt, wires);
                Err(fault)
            }
        }
    }
}

impl<'a, R: Wait, W: Weigh, N: Runner, C: Checkpoint> Work<
    Receive<W>,
    Result<Received<W>, ThreadFault>,
> for Field<'a, R, W, N, C> {
    ghost takes = { λ field receive. IsReadyToReceive field.posts.now receive };

    ghost gives = { λ field receive result. IfOk result (ReceivesLetters (N.did field.runner.now) field.posts.now receive) };

    fn run(&self, receive: Receive<W>) -> Result<Received<W>, ThreadFault> {
        let Receive {
            to,
            mut seat,
            mut exit,
        } = receive;
        self.receive(&self.posts[to], &mut seat, &mut exit)?;
        Ok(Received { to, seat, exit })
    }
}
