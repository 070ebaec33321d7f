//! The law of a server's sockets. The function does nothing: its contract is the law.
ghost use Rattle.sysv_server.specs.LetIn.{EachConnectionIsLetIn};

/// States that each connection that `Doors` accept at sockets that a host opens lets in the callers
/// of one of these sockets.
pub fn each_connection_is_let_in<H>()
    ensures { EachConnectionIsLetIn H }
{}
