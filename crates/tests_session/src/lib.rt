//! Tests of sessions, with readers and writers of different behavior, over a real queue and over a
//! service; of clients as values; and of connections that never wait.
#![tactic(auto)]

#[cfg(test)]
mod client;
#[cfg(test)]
mod conversation;
#[cfg(test)]
mod failing;
#[cfg(test)]
mod gathered;
#[cfg(test)]
mod growths;
#[cfg(test)]
mod holding;
#[cfg(test)]
mod parts;
#[cfg(test)]
mod pieces;
#[cfg(test)]
mod served;
#[cfg(test)]
mod serving;
#[cfg(test)]
mod settling;
#[cfg(test)]
mod streams;
#[cfg(test)]
mod test_handler;
#[cfg(test)]
mod waiting;
#[cfg(test)]
mod worked;
