//! A ping-pong.
ghost use Rattle.sysv_service.specs.Seats.{AreOf};

use crate::bodies::Bodies;
use crate::service::calls::{receive, send};
use std::sync::Wait;
use sysv_service::{Pass, Service};

/// One side of a ping-pong over two queues.
#[derive(Drop)]
pub(crate) struct Player {
    /// Whether this side begins.
    pub(crate) serves: bool,
    pub(crate) hears: i32,
    pub(crate) says: i32,
    pub(crate) times: u64,
    pub(crate) bodies: Bodies,
    /// How many rounds it finished.
    pub(crate) done: u64,
}

impl Player {
    pub(crate) fn act(&mut self, rt: &impl Wait, service: &Service, pass: &mut Pass)
        requires { AreOf service.now pass.old.seats }
        ensures { AreOf service.now pass.new.seats }
    {
        if self.serves {
            self.say(rt, service, pass);
        }
        for _ in 0..self.times {
            if !self.hear(rt, service, pass) {
                return;
            }
            self.done = self.done.saturating_add(1);
            if !(self.serves && self.done == self.times) {
                self.say(rt, service, pass);
            }
        }
    }

    fn say(&self, rt: &impl Wait, service: &Service, pass: &mut Pass)
        requires { AreOf service.now pass.old.seats }
        ensures { AreOf service.now pass.new.seats }
    {
        send(rt, service, pass, self.says, 1, &self.bodies.text, false);
    }

    fn hear(&mut self, rt: &impl Wait, service: &Service, pass: &mut Pass) -> bool
        requires { AreOf service.now pass.old.seats }
        ensures { AreOf service.now pass.new.seats }
    {
        receive(
            rt,
            service,
            pass,
            self.hears,
            0,
            &mut self.bodies.out,
            false,
        )
    }
}
