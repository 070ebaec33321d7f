//! The tasks of threads.
ghost use Rattle.sysv_service.specs.Seats.{AreOf};

use crate::service::pairs::Pairs;
use crate::service::rounds::Player;
use crate::service::soak::{Keeper, Soaker};
use std::sync::Wait;
use std::time::Clock;
use sysv_service::{Pass, Service};

/// What one thread does with its pass.
#[derive(Drop)]
pub(crate) enum Part<'a> {
    Pairs(Pairs),
    Plays(Player),
    Soaks(Soaker<'a>),
    Keeps(Keeper<'a>),
}

impl Part<'_> {
    pub(crate) fn act<R: Wait + Clock>(&mut self, rt: &R, service: &Service, pass: &mut Pass)
        requires { AreOf service.now pass.old.seats }
        ensures { AreOf service.now pass.new.seats }
    {
        match self {
            Part::Pairs(pairs) => pairs.act(rt, service, pass),
            Part::Plays(player) => player.act(rt, service, pass),
            Part::Soaks(soaker) => soaker.act(rt, service, pass),
            Part::Keeps(keeper) => keeper.act(rt, service, pass),
        }
    }
}
