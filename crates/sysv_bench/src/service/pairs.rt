//! Pairs of a msgsnd and a msgrcv.
ghost use Rattle.sysv_service.specs.Seats.{AreOf};

use crate::bodies::Bodies;
use crate::service::calls::{receive, send};
use std::sync::Wait;
use sysv_service::{Pass, Service};

/// Sends a body to a queue and receives it, repeatedly.
#[derive(Drop)]
pub(crate) struct Pairs {
    pub(crate) id: i32,
    pub(crate) times: u64,
    pub(crate) bodies: Bodies,
    /// How many pairs succeeded.
    pub(crate) done: u64,
}

impl Pairs {
    pub(crate) fn act(&mut self, rt: &impl Wait, service: &Service, pass: &mut Pass)
        requires { AreOf service.now pass.old.seats }
        ensures { AreOf service.now pass.new.seats }
    {
        for _ in 0..self.times {
            if !send(rt, service, pass, self.id, 1, &self.bodies.text, false) {
                return;
            }
            if !receive(rt, service, pass, self.id, 0, &mut self.bodies.out, false) {
                return;
            }
            self.done = self.done.saturating_add(1);
        }
    }
}
