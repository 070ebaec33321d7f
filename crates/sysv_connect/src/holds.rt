//! A `rcv` that holds each message until it was shown.
ghost use Rattle.std.specs.Prelude.{◌≡◌};
ghost use Rattle.sysv_connect.specs.Clients.{Holds};
ghost use Rattle.sysv_connect.specs.Ends.{Fails};
ghost use Rattle.sysv_connect.specs.Links.{left_by, taken_by};
ghost use Rattle.sysv_connect.specs.Visits.{Visited};

use crate::connection::{detail_of, failed, no_link_said};
use crate::contact::{Contact, Visit};
use crate::link::{Link, linked};
use crate::patience::Patience;
use crate::place::{Leave, Place};
use crate::screen::Screen;
use crate::sentence::Detail;
use crate::silence::Silence;
use crate::teller::Teller;
use std::io::{Eprint, Write};
use std::process::ExitCode;
use sysv_clients::{ClientFault, Receiving, Unheld, Unshown, hold_all};
use sysv_model::Errno;

/// No message came in time.
const NO_MESSAGE: ClientFault = ClientFault::Refused(Errno::ENOMSG);

/// Connects to the server at `place` and receives messages there, each of which is held until it
/// was shown. Each is waited for as long as `patience` says. Faults are reported on standard error.
pub(crate) fn hold_at<P: Place, S: Write>(
    rt: &(impl Eprint + AllocGlobal),
    place: P,
    teller: &Teller<'_>,
    receiving: &Receiving,
    patience: Patience,
    screen: &mut Screen<S>,
) -> Visit<P, Link<P::Input, P::Output>>
    ensures { Visited (P.refuses place teller.now.path.now) place
        (λ _. Fails result.exit
        × (S.contents screen.new.writer ≡ S.contents screen.old.writer))
        (λ link. Holds receiving.now result.exit
        (P.incoming place teller.now.path.now) (left_by P.Input.remaining link)
        (P.outgoing place teller.now.path.now) (taken_by P.Output.contents link)
        (S.contents screen.old.writer) (S.contents screen.new.writer)) result.contact }
{
    match linked(rt.alloc(), place, teller.path, patience) {
        Ok(mut link) => Visit {
            exit: hold_on(rt, &mut link, teller, receiving, screen),
            contact: Contact::Made(link),
        },
        Err(unlinked) => no_link_said(rt, teller, unlinked),
    }
}

/// Receives messages over a connection like `hold_at`.
fn hold_on<R: Leave, W: Write + Drop, S: Write>(
    rt: &(impl Eprint + AllocGlobal),
    link: &mut Link<R, W>,
    teller: &Teller<'_>,
    receiving: &Receiving,
    screen: &mut Screen<S>,
) -> ExitCode
    ensures { Holds receiving.now result
        (left_by R.remaining link.old) (left_by R.remaining link.new)
        (taken_by W.contents link.old) (taken_by W.contents link.new)
        (S.contents screen.old.writer) (S.contents screen.new.writer) }
{
    let Err(unheld) = hold_all(
        rt.alloc(),
        receiving,
        &mut link.reader,
        &mut link.writer,
        screen,
    ) else {
        return ExitCode::SUCCESS;
    };
    tell(rt, link, teller, unheld, screen)
}

/// Tells why holds ended early, and what becomes of the message that was not done.
pub(crate) fn tell<R: Leave, W: Write + Drop, S: Write>(
    rt: &(impl Eprint + AllocGlobal),
    link: &Link<R, W>,
    teller: &Teller<'_>,
    unheld: Unheld,
    screen: &Screen<S>,
) -> ExitCode
    ensures { Fails result }
{
    match unheld {
        Unheld::Fault(fault) => {
            let is_late = fault == ClientFault::NoReply && link.has_left();
            let fault = if is_late { NO_MESSAGE } else { fault };
            teller.fault_said(rt, fault.line(), detail_of_hold(fault, is_late, link));
            failed(is_late)
        }
        Unheld::Screen(Unshown { taken, shown }) => {
            let exit = teller.no_output(rt, screen.failure, None);
            let rest = if taken > shown {
                "; the next one goes back to its queue"
            } else {
                ""
            };
            let _ = eprintln!(rt; "sysvmsg: messages that were shown: {shown}{rest}");
            exit
        }
        Unheld::Undone(fault) => {
            teller.fault_said(rt, fault.line(), detail_of(fault, false, link));
            let _ = eprintln!(rt;
                "sysvmsg: the last message that was shown may come back to its queue"
            );
            failed(false)
        }
    }
}

/// Returns what is known of a fault of holds beyond its name. `is_late` is whether the time was
/// over.
fn detail_of_hold<R: Leave, W: Write + Drop>(
    fault: ClientFault,
    is_late: bool,
    link: &Link<R, W>,
) -> Detail {
    match detail_of(fault, is_late, link) {
        Detail::Silent(Silence::Closed) => Detail::NoHolds,
        detail => detail,
    }
}
